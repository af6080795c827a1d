//! A queue of what was offered and is not given yet.
ghost use Rattle.std.specs.Prelude.{◌≡◌, ℕ, ◌+◌, ◌*◌, ◌^◌, ◌<◌, ◌≤◌, None, [], ◌∷◌, length, IsSome, IfSome, IfNone};
ghost use Rattle.std.specs.List.Sorted.{IsPermutation};
ghost use Rattle.rank_key.specs.Bits.{bit_length};
ghost use Rattle.take2_heap.specs.Order.{IsLeast};
ghost use Rattle.suffix_streams.specs.Offers.{offers};

use rank_key::Rank;
use std::alloc::Allocator;
use std::sync::ledger::Ledger;
use step_counter::Steps;
use take2_heap::{Entry, HeapOf};

/// Adds an entry, if there is one, in reserved room.
pub(crate) fn offer<R: Rank, T: Copy, A: Allocator, L: Ledger>(
    queue: &mut HeapOf<R, T, A>,
    entry: Option<Entry<R, T>>,
    steps: &mut Steps<L>,
)
    requires room { IsSome entry → 0 < queue.old.spare }
    ensures moved { IsPermutation (offers entry None queue.old.entries) queue.new.entries }
    ensures none { entry ≡ None → queue.new ≡ queue.old }
    ensures spare { queue.old.spare ≤ queue.new.spare + 1 }
    ensures cost { steps.new ≤ steps.old + bit_length (length queue.new.entries) }
{
    if let Some(entry) = entry {
        queue.push_reserved(entry.rank, entry.tag, steps);
    }
}

/// Gives the least of the queue's entries and of `next`. If `next` is not given, it enters. `None`
/// if there is no entry at all.
pub(crate) fn take<R: Rank, T: Copy, A: Allocator, L: Ledger>(
    queue: &mut HeapOf<R, T, A>,
    next: Option<Entry<R, T>>,
    steps: &mut Steps<L>,
) -> Option<Entry<R, T>>
    ensures given { IfSome result
        (λ e. IsPermutation (offers next None queue.old.entries) (e ∷ queue.new.entries)) }
    ensures least { IfSome result (λ e. IsLeast R.KEYS R.key e queue.new.entries) }
    ensures none { IfNone result ((next ≡ None) × (queue.old.entries ≡ [])
        × (queue.new ≡ queue.old)) }
    ensures limit { length queue.new.entries < 2 ^ 64 }
    ensures cost { steps.new ≤ steps.old + 1 + 2 * bit_length (length queue.old.entries) }
{
    let Some(top) = queue.peek() else {
        return next;
    };
    let Some(next) = next else {
        return queue.pop(steps);
    };
    if R::less(&top.rank, &next.rank, steps) {
        Some(queue.replace_top(next.rank, next.tag, steps))
    } else {
        Some(next)
    }
}
