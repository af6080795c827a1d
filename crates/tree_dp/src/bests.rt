//! The least rank of each row's subtree solutions.
ghost use Rattle.std.specs.Prelude.{◌≡◌, ℕ, ◌+◌, ◌*◌, ◌<◌, ◌≤◌, [], length, map, slice_index, slice_index_or, IfOk};
ghost use Rattle.tdp_core.specs.TreeView.{tree_view, rows};
ghost use Rattle.rank_key.specs.Keys.{KeyFits};
ghost use Rattle.tree_dp.specs.Orders.{joined_at, key_at};
ghost use Rattle.tdp_core.specs.WellFormed.{IsLaidOut};
ghost use Rattle.tree_dp.specs.Progress.{IsSolvedFrom, AreLeastsFrom, by_children};

use rank_key::Rank;
use std::alloc::Global;
use std::sync::ledger::Ledger;
use step_counter::{NoMemory, Steps};
use tdp_core::{NamedGroups, NodeParts};

/// The rank of the least subtree solution of each row of a node. The later nodes must be solved,
/// and `leasts` has the least rank of each of their groups. It takes at most one step for each row
/// and each node.
pub(crate) fn bests_of<R: Rank, L: Ledger>(
    alloc: Global,
    nodes: &[NodeParts<R>],
    node: usize,
    leasts: &[Vec<R>],
    steps: &mut Steps<L>,
) -> Result<Vec<R>, NoMemory>
    requires node { node < length nodes.now }
    requires laid_out { IsLaidOut R.KEYS R.key (tree_view nodes.now) }
    requires solved { IsSolvedFrom R.KEYS R.key (tree_view nodes.now) (node + 1) }
    requires leasts { AreLeastsFrom R.KEYS R.key (tree_view nodes.now) (node + 1)
        (map (λ ls. ls.items) leasts.now) }
    ensures count { IfOk result (λ bests. length bests.items ≡ rows (tree_view nodes.now) node) }
    ensures bests { IfOk result
        (λ bests. (r : ℕ) → r < rows (tree_view nodes.now) node
        → key_at R.KEYS R.key bests.items r
        ≡ by_children R.KEYS R.key (tree_view nodes.now) node r) }
    ensures cost { steps.new ≤ steps.old + rows (tree_view nodes.now) node * length nodes.now }
{
    let parts = &nodes[node];
    let mut bests = Vec::from_slice(alloc, parts.rows.ranks())?;
    let mut place = 0;
    for child in node + 1..nodes.len() {
        if nodes[child].shape.parent as usize == node {
            let least = leasts[child - node - 1].as_slice();
            add_leasts(&mut bests, &parts.to_child, place, least, steps);
            place += 1;
        }
    }
    Ok(bests)
}

/// Joins to the rank of each row the least rank of the group that the row names for one of the
/// children. It takes one step for each row.
fn add_leasts<R: Rank, L: Ledger>(
    bests: &mut Vec<R>,
    named: &NamedGroups,
    child: usize,
    leasts: &[R],
    steps: &mut Steps<L>,
)
    requires rows { length bests.old.items ≤ length named.now.rows }
    requires children { (r : ℕ) → r < length bests.old.items
        → child < length (slice_index_or named.now.rows r []) }
    requires groups { (r : ℕ) → r < length bests.old.items
        → slice_index (slice_index_or named.now.rows r []) child < length leasts.now }
    requires fits { (r : ℕ) → r < length bests.old.items
        → KeyFits R.KEYS R.key (joined_at R.KEYS R.key bests.old.items named.now.rows child
        leasts.now r) }
    ensures count { length bests.new.items ≡ length bests.old.items }
    ensures joined { (r : ℕ) → r < length bests.old.items
        → key_at R.KEYS R.key bests.new.items r
        ≡ joined_at R.KEYS R.key bests.old.items named.now.rows child leasts.now r }
    ensures cost { steps.new ≤ steps.old + length bests.old.items }
{
    for row in 0..bests.len() {
        let group = named.get(row, child) as usize;
        bests[row] = R::join(bests[row], leasts[group], steps);
    }
}
