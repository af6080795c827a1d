//! Lists as they are made.
ghost use Rattle.std.specs.Prelude.{◌≡◌, ◌≤◌, ◌<◌, [], ◌∷◌, IfOk};
ghost use Rattle.std.specs.Vec.{vec_capacity, vec_len};

use std::alloc::Allocator;
use step_counter::NoMemory;

/// An empty list with room for so many items. `NoMemory` if memory is refused.
pub(crate) fn list_with_room<T: Drop, A: Allocator + Clone>(
    alloc: &A,
    room: usize,
) -> Result<Vec<T, A>, NoMemory>
    ensures items { IfOk result (λ list. list.items ≡ []) }
    ensures len { IfOk result (λ list. vec_len list ≡ 0) }
    ensures room { IfOk result (λ list. room ≤ vec_capacity list) }
{
    let own = alloc.clone()?;
    let list = Vec::with_capacity(own, room)?;
    Ok(list)
}

/// A list of this item alone. `NoMemory` if memory is refused.
pub(crate) fn list_of<T: Copy, A: Allocator + Clone>(
    alloc: &A,
    item: T,
) -> Result<Vec<T, A>, NoMemory>
    ensures { IfOk result (λ list. list.items ≡ item ∷ []) }
{
    let mut list = Vec::new(alloc.clone()?);
    list.push(item)?;
    Ok(list)
}
