//! The classes of columns that equalities make. Each is known by its least column (quick find).
ghost use Rattle.std.specs.Prelude.{◌≡◌, ◌↔◌, ◌⊎◌, ◌++◌, ◌∷◌, [], List, IsTrue, IfOk, OnOk, MatchOption, map};
ghost use Rattle.anyk_model.specs.Query.{Equality, of_column};
ghost use Rattle.bound_query.specs.Classes.{ColumnBefore};
ghost use Rattle.query_bind.specs.Labels.{HasNoPlace, IsFirstPlace, IsLabelling, least_in, replaced};
ghost use Rattle.bound_query.specs.StoredParts.{column_view, equality_view};
ghost use Rattle.query_bind.specs.Relabelling.{with_least};

use bound_query::{BoundEquality, BoundSide};
use std::alloc::{AllocError, Global};

/// A column with the least column of its class. A column that is not listed is the least itself.
#[derive(Clone, Copy)]
pub(crate) struct Member {
    pub(crate) column: (u32, u32),
    least: (u32, u32),
}

/// Whether a column is before another one, by items and then by places.
fn is_before(a: (u32, u32), b: (u32, u32)) -> bool
    ensures { IsTrue result ↔ ColumnBefore (column_view a) (column_view b) }
{
    a.0 < b.0 || a.0 == b.0 && a.1 < b.1
}

/// The least column of a column's class.
pub(crate) fn least_of(classes: &[Member], column: (u32, u32)) -> (u32, u32)
    ensures { column_view result ≡ least_in classes.now (column_view column) }
{
    for member in classes {
        if member.column == column {
            return member.least;
        }
    }
    column
}

/// The two columns, the smaller first.
fn in_order(a: (u32, u32), b: (u32, u32)) -> ((u32, u32), (u32, u32))
    ensures both { (result ≡ (a, b)) ⊎ (result ≡ (b, a)) }
    ensures order { ColumnBefore (column_view result.1) (column_view result.0) → ⊥ }
{
    if is_before(b, a) { (b, a) } else { (a, b) }
}

/// The member with another least column, if it has the old one.
fn relabelled(member: Member, new: (u32, u32), old: (u32, u32)) -> Member
    ensures { result ≡ with_least new old member }
{
    let column = member.column;
    if member.least == old {
        Member { column, least: new }
    } else {
        member
    }
}

/// Gives the members of a class another least column.
fn relabel(classes: &mut [Member], new: (u32, u32), old: (u32, u32))
    ensures { classes.new ≡ map (with_least new old) classes.old }
{
    for member in classes.iter_mut() {
        *member = relabelled(*member, new, old);
    }
}

/// Joins the classes of two columns, unless they are one class already. So there are fewer members
/// than columns.
fn join(classes: &mut Vec<Member>, left: (u32, u32), right: (u32, u32)) -> Result<(), AllocError>
    ensures { OnOk result
        ((es : List Equality) (e : Equality) → e.left ≡ column_view left
        → e.right ≡ of_column (column_view right)
        → IsLabelling es (least_in classes.old.items)
        → IsLabelling (es ++ e ∷ []) (least_in classes.new.items)) }
{
    let a = least_of(classes.as_slice(), left);
    let b = least_of(classes.as_slice(), right);
    if a == b {
        return Ok(());
    }
    let (new, old) = in_order(a, b);
    classes.push(Member {
        column: old,
        least: old,
    })?;
    relabel(classes.as_mut_slice(), new, old);
    Ok(())
}

/// The classes that equalities make.
pub(crate) fn classes_of(
    alloc: Global,
    equalities: &[BoundEquality],
) -> Result<Vec<Member>, AllocError>
    ensures { IfOk result
        (λ v. IsLabelling (map equality_view equalities.now) (least_in v.items)) }
{
    let mut classes = Vec::new(alloc);
    for equality in equalities {
        let BoundSide::Column(right) = &equality.right else {
            continue;
        };
        join(&mut classes, equality.left, *right)?;
    }
    Ok(classes)
}

/// The place of the first column of an item that is in a class, or `None` if there is none.
pub(crate) fn first_place(
    classes: &[Member],
    item: u32,
    width: u32,
    least: (u32, u32),
) -> Option<u32>
    ensures { MatchOption result (HasNoPlace (least_in classes.now) item width (column_view least))
        (λ place. IsFirstPlace (least_in classes.now) item width (column_view least) place) }
{
    for place in 0..width {
        if least_of(classes, (item, place)) == least {
            return Some(place);
        }
    }
    None
}
