//! The tests that classes make for the rows of items.
ghost use Rattle.std.specs.Prelude.{◌≡◌, ◌≤◌, ◌<◌, ◌==◌, ◌&&◌, length, map, IfOk};
ghost use Rattle.std.specs.List.{AllByRecursion, list_any};
ghost use Rattle.std.specs.Str.{bytes_eq};
ghost use Rattle.bound_query.specs.declared.filters.Constant.{Constant};
ghost use Rattle.bound_query.specs.declared.bound.BoundItem.{BoundItem};
ghost use Rattle.query_bind.specs.Filters.{HaveConstants, HavePairs, HaveFilters};
ghost use Rattle.bound_query.specs.FilterViews.{constant_view, filter_view};
ghost use Rattle.query_bind.specs.Labels.{least_in};
ghost use Rattle.bound_query.specs.StoredParts.{equality_view, items_view};

use crate::classes::{Member, first_place, least_of};
use bound_query::{BoundEquality, BoundItem, BoundSide, Constant, Filter};
use query_select::name::Bytes;
use std::alloc::{AllocError, Global};
use table_store::Tables;

/// Each place of an item with the first place of its class, if that is another one.
fn pairs_of(
    alloc: Global,
    classes: &[Member],
    item: u32,
    width: u32,
) -> Result<Vec<(u32, u32)>, AllocError>
    ensures { IfOk result (λ v. HavePairs (least_in classes.now) item width v.items) }
{
    let mut pairs = Vec::new(alloc);
    for place in 0..width {
        let least = least_of(classes, (item, place));
        let Some(first) = first_place(classes, item, place, least) else {
            continue;
        };
        pairs.push((first, place))?;
    }
    Ok(pairs)
}

/// Whether a constant is in the list for a place.
fn is_listed(constants: &[Constant], place: u32, bytes: &[u8]) -> bool
    ensures { result ≡ list_any
        (λ (c : Constant). (c.place == place) && bytes_eq c.bytes bytes.now) constants.now }
{
    for constant in constants {
        if constant.place == place && constant.bytes.bytes() == bytes {
            return true;
        }
    }
    false
}

/// The constants that equalities give to the columns of an item, each once.
fn constants_of(
    alloc: Global,
    classes: &[Member],
    equalities: &[BoundEquality],
    item: u32,
    width: u32,
) -> Result<Vec<Constant>, AllocError>
    ensures { IfOk result
        (λ v. HaveConstants (least_in classes.now) item width (map equality_view equalities.now)
        (map constant_view v.items)) }
{
    let mut constants = Vec::new(alloc);
    for equality in equalities {
        let BoundSide::Constant(bytes) = &equality.right else {
            continue;
        };
        let least = least_of(classes, equality.left);
        let Some(place) = first_place(classes, item, width, least) else {
            continue;
        };
        if is_listed(constants.as_slice(), place, bytes.bytes()) {
            continue;
        }
        let copy = Vec::from_slice(alloc, bytes.bytes())?;
        let bytes = Bytes::from_vec(copy);
        constants.push(Constant { place, bytes })?;
    }
    Ok(constants)
}

/// The tests of an item's rows.
pub(crate) fn filter_of(
    alloc: Global,
    classes: &[Member],
    equalities: &[BoundEquality],
    item: u32,
    width: u32,
) -> Result<Filter, AllocError>
    ensures { IfOk result (λ f. HavePairs (least_in classes.now) item width (filter_view f).pairs
        × HaveConstants (least_in classes.now) item width (map equality_view equalities.now)
        (filter_view f).constants) }
{
    let pairs = pairs_of(alloc, classes, item, width)?;
    let constants = constants_of(alloc, classes, equalities, item, width)?;
    Ok(Filter { pairs, constants })
}

/// The tests of each item's rows.
pub(crate) fn filters_of(
    alloc: Global,
    classes: &[Member],
    equalities: &[BoundEquality],
    items: &[BoundItem],
    tables: &Tables,
) -> Result<Vec<Filter>, AllocError>
    requires items { length items.now ≤ 16 }
    requires known { AllByRecursion (λ (i : BoundItem). i.table < length tables.now) items.now }
    ensures { IfOk result
        (λ v. HaveFilters (least_in classes.now) (map equality_view equalities.now) tables.now
        (items_view items.now) (length items.now) (map filter_view v.items)) }
{
    let mut filters = Vec::new(alloc);
    for i in 0..items.len() {
        let width = tables.width(items[i].table);
        let filter = filter_of(alloc, classes, equalities, i as u32, width)?;
        filters.push(filter)?;
    }
    Ok(filters)
}
