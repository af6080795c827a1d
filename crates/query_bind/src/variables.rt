//! The variables of a query: classes without a constant that have columns in two items.
ghost use Rattle.std.specs.Prelude.{◌≡◌, ◌<◌, ◌≤◌, ◌^◌, filter, length, map, IfOk};
ghost use Rattle.std.specs.List.{AllByRecursion};
ghost use Rattle.bound_query.specs.declared.bound.BoundItem.{BoundItem};
ghost use Rattle.query_bind.specs.Labels.{least_in};
ghost use Rattle.bound_query.specs.StoredParts.{column_view, equality_view, items_view, lists_view};
ghost use Rattle.query_bind.specs.Variables.{HavePlaces, HavePlacesEach, is_elsewhere, is_fixed, is_fixing, is_other, is_variable};

use crate::classes::{Member, first_place, least_of};
use bound_query::{BoundEquality, BoundItem, BoundSide};
use std::alloc::{AllocError, Global};
use table_store::Tables;

/// Whether an equality gives a constant to the class with this least column.
fn fixes(classes: &[Member], least: (u32, u32), equality: &BoundEquality) -> bool
    ensures { result ≡ is_fixing (least_in classes.now) (column_view least)
        (equality_view equality.now) }
{
    match &equality.right {
        BoundSide::Column(_) => false,
        BoundSide::Constant(_) => least_of(classes, equality.left) == least,
    }
}

/// Whether the class with this least column has a constant.
fn has_constant(classes: &[Member], equalities: &[BoundEquality], least: (u32, u32)) -> bool
    ensures { result ≡ is_fixed classes.now equalities.now (column_view least) }
{
    for equality in equalities {
        if fixes(classes, least, equality) {
            return true;
        }
    }
    false
}

/// Whether a column is in the class with this least column, and in another item.
fn is_in_other(classes: &[Member], least: (u32, u32), column: (u32, u32)) -> bool
    ensures { result ≡ is_other (least_in classes.now) (column_view least) (column_view column) }
{
    least_of(classes, column) == least && column.0 != least.0
}

/// Whether the class with this least column has columns in another item.
fn has_other(classes: &[Member], least: (u32, u32)) -> bool
    ensures { result ≡ is_elsewhere classes.now (column_view least) }
{
    for member in classes {
        if is_in_other(classes, least, member.column) {
            return true;
        }
    }
    false
}

/// Whether a column is the least of a variable.
fn starts_variable(classes: &[Member], equalities: &[BoundEquality], column: (u32, u32)) -> bool
    ensures { result ≡ is_variable classes.now equalities.now (column_view column) }
{
    least_of(classes, column) == column
        && has_other(classes, column)
        && !has_constant(classes, equalities, column)
}

/// The variables, each by its least column, in order.
pub(crate) fn find_variables(
    alloc: Global,
    classes: &[Member],
    equalities: &[BoundEquality],
    columns: &[(u32, u32)],
) -> Result<Vec<(u32, u32)>, AllocError>
    ensures { IfOk result
        (λ v. v.items ≡ filter
        (λ c. is_variable classes.now equalities.now (column_view c)) columns.now) }
{
    let mut variables = Vec::new(alloc);
    for column in columns {
        if !starts_variable(classes, equalities, *column) {
            continue;
        }
        variables.push(*column)?;
    }
    Ok(variables)
}

/// The variables of an item by number, each with the place of its first column there.
pub(crate) fn places_of(
    alloc: Global,
    classes: &[Member],
    variables: &[(u32, u32)],
    item: u32,
    width: u32,
) -> Result<Vec<(u32, u32)>, AllocError>
    requires few { length variables.now < 2 ^ 32 }
    ensures { IfOk result
        (λ v. HavePlaces (least_in classes.now) (map column_view variables.now) item width
        (length variables.now) v.items) }
{
    let mut places = Vec::new(alloc);
    for number in 0..variables.len() {
        let Some(place) = first_place(classes, item, width, variables[number]) else {
            continue;
        };
        places.push((number as u32, place))?;
    }
    Ok(places)
}

/// The variables of each item.
pub(crate) fn places_of_all(
    alloc: Global,
    classes: &[Member],
    variables: &[(u32, u32)],
    items: &[BoundItem],
    tables: &Tables,
) -> Result<Vec<Vec<(u32, u32)>>, AllocError>
    requires few { length variables.now < 2 ^ 32 }
    requires items { length items.now ≤ 16 }
    requires known { AllByRecursion (λ (i : BoundItem). i.table < length tables.now) items.now }
    ensures { IfOk result
        (λ v. HavePlacesEach (least_in classes.now) (map column_view variables.now) tables.now
        (items_view items.now) (length items.now) (lists_view v.items)) }
{
    let mut of_items = Vec::new(alloc);
    for i in 0..items.len() {
        let width = tables.width(items[i].table);
        let places = places_of(alloc, classes, variables, i as u32, width)?;
        of_items.push(places)?;
    }
    Ok(of_items)
}
