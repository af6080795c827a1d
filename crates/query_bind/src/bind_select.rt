//! Binding a select to tables.
ghost use Rattle.std.specs.Prelude.{◌≡◌, ◌<◌, ◌≤◌, length, map, IfOk, OnOk, IfErr, None};
ghost use Rattle.std.specs.Option.{option_or};
ghost use Rattle.std.specs.List.{AllByRecursion};
ghost use Rattle.query_select.specs.TextOrder.{AreInTextOrder, columns_of};
ghost use Rattle.query_bind.specs.Answers.{Means, IsBindFault};
ghost use Rattle.query_bind.specs.Bind.{bind_fault, HasNames};
ghost use Rattle.query_bind.specs.Binding.{bound_query};
ghost use Rattle.bound_query.specs.NamedPlaces.{NamesExist};
ghost use Rattle.query_bind.specs.Names.{items_of};
ghost use Rattle.query_bind.specs.Filters.{HasFilters};
ghost use Rattle.bound_query.specs.FilterViews.{filter_view};
ghost use Rattle.query_bind.specs.Labels.{IsLabelling, least_in};
ghost use Rattle.bound_query.specs.StoredParts.{column_view, lists_view};
ghost use Rattle.query_bind.specs.TextOrder.{IsFirstFailing, IsReferenceFault};
ghost use Rattle.query_bind.specs.Variables.{HasVariables};
ghost use Rattle.bound_query.specs.WeighedQuery.{Fits, key_parts};
ghost use Rattle.bound_query.specs.WeighedView.{weighed_view};
ghost use Rattle.query_bind.specs.WeightFaults.{range_fault, weights_fault};

use crate::binding::{all_columns, bind_all, bind_items, bind_list};
use crate::classes::{Member, classes_of};
use crate::fault::BindFault;
use crate::filters::filters_of;
use crate::variables::{find_variables, places_of_all};
use crate::weighing::weigh;
use bound_query::{Filter, ItemWeights, Query, Selection, Variables};
use query_select::select::Select;
use std::alloc::{AllocError, Global};
use table_store::Tables;

/// The query with a column for each reference, before its weights are read.
fn bind_names(
    alloc: Global,
    select: &Select,
    tables: &Tables,
    which: &[u32],
) -> Result<Selection, BindFault>
    requires some { 1 ≤ length select.now.items }
    requires items { length select.now.items ≤ 16 }
    requires keys { length select.now.keys ≤ 8 }
    requires tables { length which.now ≡ length select.now.items }
    requires known { AllByRecursion (λ t. t < length tables.now) which.now }
    ensures { HasNames select.now tables.now which.now result }
{
    let items = bind_items(alloc, select.items.as_slice(), which)?;
    let list = bind_list(alloc, items.as_slice(), tables, &select.list)?;
    let equalities = bind_all(
        alloc,
        items.as_slice(),
        tables,
        select.equalities.as_slice(),
    )?;
    let keys = bind_all(alloc, items.as_slice(), tables, select.keys.as_slice())?;
    Ok(Selection::new(items, equalities, keys, list, select.limit))
}

/// What the rows add to the keys of a query. The error is the first fault of the weights, or of
/// their range.
fn weigh_selection(
    alloc: Global,
    selection: &Selection,
    tables: &Tables,
) -> Result<Vec<Vec<ItemWeights>>, BindFault>
    requires { NamesExist selection.now tables.now }
    ensures { Means (λ v. map weighed_view v.items)
        (map (key_parts tables.now selection.now.items) selection.now.order)
        (option_or (weights_fault tables.now selection.now.items selection.now.order)
        (range_fault tables.now selection.now.items selection.now.order)) result }
{
    // for the proof: there are at most 16 tables, and each is sound
    let _tables = tables.count();
    weigh(
        alloc,
        selection.bound_items(),
        tables,
        selection.bound_keys(),
    )
}

/// The variables of a query, and those of each of its items.
fn find_structure(
    alloc: Global,
    selection: &Selection,
    tables: &Tables,
    classes: &[Member],
) -> Result<Variables, AllocError>
    requires within { NamesExist selection.now tables.now }
    requires known { IsLabelling selection.now.equalities (least_in classes.now) }
    ensures { IfOk result
        (λ v. HasVariables selection.now (map column_view v.least.items)
        (lists_view v.of_items.items)) }
{
    // for the proof: there are at most 16 tables, and each is sound
    let _tables = tables.count();
    let items = selection.bound_items();
    let equalities = selection.equalities();
    let columns = all_columns(alloc, items, tables)?;
    let least = find_variables(alloc, classes, equalities, columns.as_slice())?;
    let of_items = places_of_all(alloc, classes, least.as_slice(), items, tables)?;
    Ok(Variables { least, of_items })
}

/// The variables of a query, and the tests of the rows of each item.
fn find_parts(
    alloc: Global,
    selection: &Selection,
    tables: &Tables,
) -> Result<(Variables, Vec<Filter>), AllocError>
    requires { NamesExist selection.now tables.now }
    ensures { IfOk result
        (λ p. HasVariables selection.now (map column_view p.0.least.items)
        (lists_view p.0.of_items.items)
        × HasFilters selection.now (map filter_view p.1.items)) }
{
    // for the proof: there are at most 16 tables, and each is sound
    let _tables = tables.count();
    let items = selection.bound_items();
    let equalities = selection.equalities();
    let classes = classes_of(alloc, equalities)?;
    let classes = classes.as_slice();
    let variables = find_structure(alloc, selection, tables, classes)?;
    let filters = filters_of(alloc, classes, equalities, items, tables)?;
    Ok((variables, filters))
}

/// The query that a select of 1 to 16 items means over tables. `which` has the number of each
/// item's table, from 0. The fault is the first one, in the order of the select's parts, then of
/// its weights, then of their range. If the select is in the order of its text, a fault of a column
/// reference is that of the first one in the text that fails. `NoMemory` may be returned at any
/// point.
pub fn bind(
    alloc: Global,
    select: &Select,
    tables: &Tables,
    which: &[u32],
) -> Result<Query, BindFault>
    requires some { 1 ≤ length select.now.items }
    requires items { length select.now.items ≤ 16 }
    requires keys { length select.now.keys ≤ 8 }
    requires tables { length which.now ≡ length select.now.items }
    requires known { AllByRecursion (λ t. t < length tables.now) which.now }
    ensures query { IfOk result (λ q. q.query ≡ bound_query select.now tables.now which.now) }
    ensures fits { IfOk result (λ q. Fits q tables.now) }
    ensures sound { OnOk result (bind_fault select.now tables.now which.now ≡ None) }
    ensures fault { IfErr result (IsBindFault (bind_fault select.now tables.now which.now)) }
    ensures earliest { IfErr result
        (λ fault. IsReferenceFault fault → AreInTextOrder (columns_of select.now)
        → IsFirstFailing tables.now (items_of select.now.items which.now)
        (columns_of select.now) fault) }
{
    let selection = bind_names(alloc, select, tables, which)?;
    let weighed = weigh_selection(alloc, &selection, tables)?;
    let (variables, filters) = find_parts(alloc, &selection, tables)?;
    Ok(Query::new(alloc, selection, weighed, variables, filters))
}
