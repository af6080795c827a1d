//! Groups in heap order.
ghost use Rattle.std.specs.Prelude.{◌≡◌, ℕ, ◌+◌, ◌*◌, ◌<◌, ◌≤◌, [], All, IfOk, OnOk, length, slice_index, slice_index_or};
ghost use Rattle.std.specs.List.{concat};
ghost use Rattle.std.specs.List.Sorted.{IsPermutation};
ghost use Rattle.tree_dp.specs.Orders.{key_at, IsHeapOver};

use crate::row_order::RowOrder;
use rank_key::Rank;
use std::alloc::Global;
use std::sync::ledger::Ledger;
use step_counter::{NoMemory, Steps};
use take2_heap::heapify_by;
use tdp_core::Groups;

/// Puts the rows of each group of a node into heap order by their best keys, and returns the least
/// of these keys in each group, in the order of the groups. It takes at most two steps for each
/// row. Beside the result it takes the memory of the longest group, once for all groups.
pub(crate) fn order_groups<R: Rank, L: Ledger>(
    alloc: Global,
    groups: &mut Groups,
    best: &[R],
    steps: &mut Steps<L>,
) -> Result<Vec<R>, NoMemory>
    requires rows { (g : ℕ) → All (λ r. r < length best.now) (slice_index_or groups.old g []) }
    requires inhabited { (g : ℕ) → g < length groups.old
        → 0 < length (slice_index_or groups.old g []) }
    ensures group_count { OnOk result (length groups.new ≡ length groups.old) }
    ensures same_rows { OnOk result
        ((g : ℕ) → IsPermutation (slice_index_or groups.old g [])
        (slice_index_or groups.new g [])) }
    ensures heaps { OnOk result
        ((g : ℕ) → IsHeapOver R.KEYS R.key best.now (slice_index_or groups.new g [])) }
    ensures least_count { IfOk result (λ leasts. length leasts.items ≡ length groups.old) }
    ensures leasts { IfOk result
        (λ leasts. (g : ℕ) → g < length groups.old
        → key_at R.KEYS R.key leasts.items g
        ≡ key_at R.KEYS R.key best.now (slice_index (slice_index_or groups.new g []) 0)) }
    ensures cost { steps.new ≤ steps.old + 2 * length (concat groups.old) }
{
    let mut leasts = Vec::with_capacity(alloc, groups.len())?;
    let mut rows = Vec::new(alloc);
    for number in 0..groups.len() {
        let least = order_group(groups.group(number), best, &mut rows, steps)?;
        groups.replace(number, &rows);
        leasts.push(least)?;
    }
    Ok(leasts)
}

/// Replaces the content of `rows` by the rows of a group in heap order by their best keys, and
/// returns the least of these keys. It takes at most two steps for each row.
fn order_group<R: Rank, L: Ledger>(
    group: &[u32],
    best: &[R],
    rows: &mut Vec<u32>,
    steps: &mut Steps<L>,
) -> Result<R, NoMemory>
    requires rows { All (λ r. r < length best.now) group.now }
    requires inhabited { 0 < length group.now }
    ensures same_rows { OnOk result (IsPermutation group.now rows.new.items) }
    ensures heap { OnOk result (IsHeapOver R.KEYS R.key best.now rows.new.items) }
    ensures least { IfOk result
        (λ least. R.key least ≡ key_at R.KEYS R.key best.now (slice_index rows.new.items 0)) }
    ensures cost { steps.new ≤ steps.old + 2 * length group.now }
{
    rows.clear();
    rows.extend_from_slice(group)?;
    heapify_by(rows, &RowOrder { best }, steps);
    Ok(best[rows[0] as usize])
}
