//! The items of each variable, as bits.
ghost use Rattle.std.specs.Prelude.{◌≡◌, ◌+◌, ◌↔◌, ◌⊎◌, ◌<◌, ◌≤◌, ◌^◌, ℕ, length, IfOk};
ghost use Rattle.hyper_graph.specs.Graph.{IsIn};
ghost use Rattle.bound_query.specs.Graph.{AreItemSets, IsItemSet, has_number};
ghost use Rattle.bound_query.specs.StoredParts.{lists_view};

use std::alloc::{AllocError, Global};

/// Whether a variable is among those of an item.
fn has_variable(places: &[(u32, u32)], number: u32) -> bool
    ensures { result ≡ has_number places.now number }
{
    places.iter().any(|v| v.0 == number)
}

/// The set with one more item.
fn with_item(set: u16, item: u32) -> u16
    requires { item < 16 }
    ensures members { (a : ℕ) → IsIn result a ↔ (IsIn set a ⊎ (a ≡ item)) }
    ensures within { set < 2 ^ item → result < 2 ^ (item + 1) }
{
    set | 1 << item
}

/// The items that have a variable.
fn items_with(of_items: &[Vec<(u32, u32)>], number: u32) -> u16
    requires { length of_items.now ≤ 16 }
    ensures { IsItemSet (lists_view of_items.now) number (length of_items.now) result }
{
    let mut set: u16 = 0;
    for i in 0..of_items.len() {
        if !has_variable(of_items[i].as_slice(), number) {
            continue;
        }
        set = with_item(set, i as u32);
    }
    set
}

/// The items of each of `count` variables.
pub(crate) fn item_sets(
    alloc: Global,
    of_items: &[Vec<(u32, u32)>],
    count: u32,
) -> Result<Vec<u16>, AllocError>
    requires { length of_items.now ≤ 16 }
    ensures { IfOk result
        (λ v. AreItemSets (lists_view of_items.now) (length of_items.now) count v.items) }
{
    let mut sets = Vec::new(alloc);
    for number in 0..count {
        sets.push(items_with(of_items, number))?;
    }
    Ok(sets)
}
