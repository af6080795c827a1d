//! The parts of a query with a column for each reference.
ghost use Rattle.std.specs.Prelude.{◌≡◌, ◌<◌, ◌≤◌, ◌++◌, length, List, Option, IfOk, OnOk, IfErr, None, map};
ghost use Rattle.std.specs.List.{AllByRecursion};
ghost use Rattle.anyk_model.specs.Query.{Item, Column, OrderKey, Side as BoundTo, Equality as Equates, Term as Adds};
ghost use Rattle.anyk_model.specs.Table.{Table};
ghost use Rattle.query_bind.specs.Answers.{IsBindFault, Means, side_fault, equality_fault, key_names_fault, term_fault};
ghost use Rattle.query_bind.specs.Binding.{bound_column, bound_equality, bound_key, bound_list, bound_side, bound_term, columns_from, item_columns};
ghost use Rattle.query_bind.specs.declared.fault.BindFault.{BindFault};
ghost use Rattle.query_bind.specs.Names.{alias_fault, first_of, items_of, ref_fault};
ghost use Rattle.query_select.specs.TextOrder.{list_columns};
ghost use Rattle.bound_query.specs.StoredParts.{column_view, equality_view, items_view, key_view, side_view, term_view};
ghost use Rattle.bound_query.specs.declared.bound.BoundItem.{BoundItem};

use crate::fault::BindFault;
use crate::names::{column_of_all, column_of_item, has_alias};
use bound_query::{BoundEquality, BoundItem, BoundKey, BoundSide, BoundTerm};
use query_select::name::{Bytes, Identifier};
use query_select::select::{ColumnRef, Equality, ItemRef, KeyRef, SelectList, Side, Term};
use std::alloc::{AllocError, Global};
use table_store::Tables;

/// The items, each with the number of its table.
pub(crate) fn bind_items(
    alloc: Global,
    refs: &[ItemRef],
    which: &[u32],
) -> Result<Vec<BoundItem>, BindFault>
    requires few { length refs.now ≤ 16 }
    requires tables { length which.now ≡ length refs.now }
    ensures { Means (λ v. items_view v.items) (items_of refs.now which.now)
        (alias_fault (items_of refs.now which.now)) result }
{
    let mut items: Vec<BoundItem> = Vec::new(alloc);
    for i in 0..refs.len() {
        let alias = refs[i].alias.bytes();
        if has_alias(items.as_slice(), alias) {
            return Err(BindFault::DuplicateAlias(i as u32 + 1));
        }
        let alias = Identifier::from_slice(alloc, alias)?;
        let table = which[i];
        items.push(BoundItem { table, alias })?;
    }
    Ok(items)
}

/// Appends all columns of an item.
fn push_columns(columns: &mut Vec<(u32, u32)>, item: u32, width: u32) -> Result<(), AllocError>
    ensures { OnOk result
        (map column_view columns.new.items
        ≡ map column_view columns.old.items ++ item_columns item width) }
{
    for place in 0..width {
        columns.push((item, place))?;
    }
    Ok(())
}

/// All columns of all items.
pub(crate) fn all_columns(
    alloc: Global,
    items: &[BoundItem],
    tables: &Tables,
) -> Result<Vec<(u32, u32)>, AllocError>
    requires few { length items.now ≤ 16 }
    requires known { AllByRecursion (λ (i : BoundItem). i.table < length tables.now) items.now }
    ensures { IfOk result
        (λ v. map column_view v.items ≡ columns_from 0 tables.now (items_view items.now)) }
{
    let mut columns = Vec::new(alloc);
    for i in 0..items.len() {
        let width = tables.width(items[i].table);
        push_columns(&mut columns, i as u32, width)?;
    }
    Ok(columns)
}

/// A part of a select that names columns.
pub(crate) trait Binds {
    /// The same with the columns that the names mean.
    type Bound: Drop;

    ghost View: { Type 0 };

    /// What is said of what is bound.
    ghost view: { Self.Bound → View };

    /// What is said of it if its names mean columns.
    ghost meaning: { List Table → List Item → Self → View };

    /// The first fault of its names.
    ghost first_fault: { List Table → List Item → Self → Option BindFault };

    /// Finds the columns. The error is the first fault of the names.
    fn bind(
        &self,
        alloc: Global,
        items: &[BoundItem],
        tables: &Tables,
    ) -> Result<Self::Bound, BindFault>
        requires few { length items.now ≤ 16 }
        requires known { AllByRecursion (λ (i : BoundItem). i.table < length tables.now) items.now }
        ensures { Means view (meaning tables.now (items_view items.now) self.now)
            (first_fault tables.now (items_view items.now) self.now) result };
}

/// Finds the columns of all parts in a list. The error is the first fault.
pub(crate) fn bind_all<T: Binds>(
    alloc: Global,
    items: &[BoundItem],
    tables: &Tables,
    parts: &[T],
) -> Result<Vec<T::Bound>, BindFault>
    requires few { length items.now ≤ 16 }
    requires known { AllByRecursion (λ (i : BoundItem). i.table < length tables.now) items.now }
    ensures { Means (λ v. map T.view v.items)
        (map (T.meaning tables.now (items_view items.now)) parts.now)
        (first_of (T.first_fault tables.now (items_view items.now)) parts.now) result }
{
    let mut all = Vec::new(alloc);
    for part in parts {
        let bound = part.bind(alloc, items, tables)?;
        all.push(bound)?;
    }
    Ok(all)
}

impl Binds for ColumnRef {
    type Bound = (u32, u32);

    ghost View = { Column };

    ghost view = { column_view };

    ghost meaning = { bound_column };

    ghost first_fault = { ref_fault };

    /// The item and the place of the column, both from 0.
    fn bind(
        &self,
        alloc: Global,
        items: &[BoundItem],
        tables: &Tables,
    ) -> Result<(u32, u32), BindFault> {
        match &self.alias {
            None => column_of_all(items, tables, self),
            Some(alias) => column_of_item(items, tables, self, alias),
        }
    }
}

impl Binds for Side {
    type Bound = BoundSide;

    ghost View = { BoundTo };

    ghost view = { side_view };

    ghost meaning = { bound_side };

    ghost first_fault = { side_fault };

    /// Constants are copied.
    fn bind(
        &self,
        alloc: Global,
        items: &[BoundItem],
        tables: &Tables,
    ) -> Result<BoundSide, BindFault> {
        match self {
            Side::Column(reference) => {
                let column = reference.bind(alloc, items, tables)?;
                Ok(BoundSide::Column(column))
            }
            Side::Constant(bytes) => {
                let copy = Vec::from_slice(alloc, bytes.bytes())?;
                Ok(BoundSide::Constant(Bytes::from_vec(copy)))
            }
        }
    }
}

impl Binds for Equality {
    type Bound = BoundEquality;

    ghost View = { Equates };

    ghost view = { equality_view };

    ghost meaning = { bound_equality };

    ghost first_fault = { equality_fault };

    fn bind(
        &self,
        alloc: Global,
        items: &[BoundItem],
        tables: &Tables,
    ) -> Result<BoundEquality, BindFault> {
        let left = self.left.bind(alloc, items, tables)?;
        let right = self.right.bind(alloc, items, tables)?;
        Ok(BoundEquality { left, right })
    }
}

impl Binds for Term {
    type Bound = BoundTerm;

    ghost View = { Adds };

    ghost view = { term_view };

    ghost meaning = { bound_term };

    ghost first_fault = { term_fault };

    fn bind(
        &self,
        alloc: Global,
        items: &[BoundItem],
        tables: &Tables,
    ) -> Result<BoundTerm, BindFault> {
        let column = self.column.bind(alloc, items, tables)?;
        let minus = self.minus;
        Ok(BoundTerm { minus, column })
    }
}

impl Binds for KeyRef {
    type Bound = BoundKey;

    ghost View = { OrderKey };

    ghost view = { key_view };

    ghost meaning = { bound_key };

    ghost first_fault = { key_names_fault };

    fn bind(
        &self,
        alloc: Global,
        items: &[BoundItem],
        tables: &Tables,
    ) -> Result<BoundKey, BindFault> {
        let terms = bind_all(alloc, items, tables, self.terms.as_slice())?;
        let descending = self.descending;
        Ok(BoundKey { terms, descending })
    }
}

/// The select list, as columns.
pub(crate) fn bind_list(
    alloc: Global,
    items: &[BoundItem],
    tables: &Tables,
    list: &SelectList,
) -> Result<Vec<(u32, u32)>, BindFault>
    requires few { length items.now ≤ 16 }
    requires known { AllByRecursion (λ (i : BoundItem). i.table < length tables.now) items.now }
    ensures { Means (λ v. map column_view v.items)
        (bound_list tables.now (items_view items.now) list.now)
        (first_of (ref_fault tables.now (items_view items.now)) (list_columns list.now)) result }
{
    match list {
        SelectList::Star => {
            let columns = all_columns(alloc, items, tables)?;
            Ok(columns)
        }
        SelectList::Columns(refs) => bind_all(alloc, items, tables, refs.as_slice()),
    }
}
