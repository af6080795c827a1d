//! The queue of the places of the root's heap.
ghost use Rattle.std.specs.Prelude.{◌≡◌, ℕ, ◌+◌, ◌*◌, ◌<◌, ◌≤◌, length, IfOk};
ghost use Rattle.std.specs.List.{All};
ghost use Rattle.rank_key.specs.Bits.{bit_length};
ghost use Rattle.tdp_core.specs.TreeView.{group_count};
ghost use Rattle.tdp_core.specs.WellFormed.{IsFormed, IsTieFreeTree};
ghost use Rattle.tree_dp.specs.BestRanking.{IsBestRanking};
ghost use Rattle.best_per.specs.RootHeap.{root_len, holds, held_by, IsPlace, rest_keys, IsQueue};

use rank_key::Rank;
use std::alloc::Allocator;
use std::sync::ledger::Ledger;
use step_counter::{NoMemory, Steps};
use take2_heap::HeapOf;
use tdp_core::Tree;

/// The queue of the root's heap, which begins with the heap's top. It has room for all rows and one
/// more, so that each call can put in two places after it has taken out one. It is empty over a
/// tree without solutions. `NoMemory` if memory is refused.
pub(crate) fn first_queue<R: Rank, A: Allocator, L: Ledger>(
    alloc: A,
    tree: &Tree<R>,
    steps: &mut Steps<L>,
) -> Result<HeapOf<R, u32, A>, NoMemory>
    requires tie_free { IsTieFreeTree tree.now }
    ensures queue { IfOk result (λ q. IsQueue R.KEYS R.key tree.now q.entries q.spare) }
    ensures best { IfOk result (λ q. IsBestRanking tree.now R.KEYS R.key
        (rest_keys R.KEYS R.key tree.now q.entries)) }
    ensures cost { steps.new ≤ steps.old + 3 * length tree.now }
{
    let mut queue = HeapOf::new(alloc);
    if !tree.live() {
        return Ok(queue);
    }
    queue.reserve(tree.group_len(0, 0) as usize + 1)?;
    offer(&mut queue, tree, 0, steps);
    Ok(queue)
}

/// Puts in the row at a place of the root's heap, if the heap has that place.
pub(crate) fn offer<R: Rank, A: Allocator, L: Ledger>(
    queue: &mut HeapOf<R, u32, A>,
    tree: &Tree<R>,
    place: u32,
    steps: &mut Steps<L>,
)
    requires formed { IsFormed R.KEYS R.key tree.now }
    requires live { 0 < group_count tree.now 0 }
    requires entries { All (IsPlace R.KEYS R.key tree.now) queue.old.entries }
    requires room { 0 < queue.old.spare }
    ensures entries { All (IsPlace R.KEYS R.key tree.now) queue.new.entries }
    ensures held { (i : ℕ) → held_by (root_len tree.now) queue.new.entries i
        ≡ holds (root_len tree.now) place i + held_by (root_len tree.now) queue.old.entries i }
    ensures room { queue.old.spare ≤ queue.new.spare + 1 }
    ensures length { length queue.new.entries ≤ length queue.old.entries + 1 }
    ensures cost { steps.new ≤ steps.old + 2 + bit_length (length queue.old.entries + 1) }
{
    if place >= tree.group_len(0, 0) {
        return;
    }
    let row = tree.member(0, 0, place, steps);
    let best = tree.best(0, row, steps);
    queue.push_reserved(best, place, steps);
}
