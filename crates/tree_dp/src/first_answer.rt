//! The first answer of a tree, from the tops of its groups.
ghost use Rattle.std.specs.Prelude.{◌≡◌, ℕ, ◌+◌, ◌*◌, ◌<◌, ◌≤◌, List, [], length, slice_get, slice_index, Some, IfSome, IfNone};
ghost use Rattle.tdp_model.specs.KeyTuple.{KeyOf};
ghost use Rattle.tdp_model.specs.KeyNumbers.{numbers};
ghost use Rattle.tdp_core.specs.AnswerView.{answers_of, rows_of_key};
ghost use Rattle.tdp_core.specs.Solutions.{IsTreeRanking};
ghost use Rattle.tdp_core.specs.TreeView.{parent, rows, group, best};
ghost use Rattle.tdp_core.specs.WellFormed.{IsFormed, IsTieFreeTree};

use rank_key::{Rank, SLOTS};
use std::sync::ledger::Ledger;
use step_counter::Steps;
use tdp_core::{Answer, Tree};

/// The first answer of a tree, with which each ranking of its solutions begins; `None` if it has no
/// solution. For m nodes it takes at most 4 * m steps, and no memory.
pub fn first<R: Rank, L: Ledger>(tree: &Tree<R>, steps: &mut Steps<L>) -> Option<Answer<R>>
    requires { IsTieFreeTree tree.now }
    ensures none { (ks : List (KeyOf R.KEYS 16)) → IsTreeRanking tree.now R.KEYS R.key ks
        → IfNone result (ks ≡ []) }
    ensures head { (ks : List (KeyOf R.KEYS 16)) → IsTreeRanking tree.now R.KEYS R.key ks
        → IfSome result (λ a. slice_get (answers_of R.KEYS ks) 0
        ≡ Some (record { rows = a.rows; key = numbers R.KEYS 16 (R.key a.rank) })) }
    ensures cost { steps.new ≤ steps.old + 4 * length tree.now }
{
    if !tree.live() {
        return None;
    }
    let row = tree.member(0, 0, 0, steps);
    let rank = tree.best(0, row, steps);
    let rows = best_rows(tree, row, steps);
    Some(Answer { rows, rank })
}

/// The row numbers of the best solution that has this row of the root, by item. For m nodes it
/// takes at most 3 * m - 2 steps, and no memory.
pub fn best_rows<R: Rank, L: Ledger>(tree: &Tree<R>, row: u32, steps: &mut Steps<L>) -> [u32; 16]
    requires tie_free { IsTieFreeTree tree.now }
    requires row { row < rows tree.now 0 }
    ensures rows { result ≡ rows_of_key R.KEYS 16 (best tree.now R.KEYS R.key 0 row) }
    ensures cost { steps.new + 2 ≤ steps.old + 3 * length tree.now }
{
    let mut chosen = [0; SLOTS];
    let mut rows = [0; SLOTS];
    let nodes = tree.nodes();
    chosen[0] = row;
    rows[tree.shape(0).item as usize] = tree.row_at(0, row, steps).row;
    for node in 1..nodes {
        let below = first_row(tree, &chosen, node, steps);
        chosen[node as usize] = below;
        rows[tree.shape(node).item as usize] = tree.row_at(node, below, steps).row;
    }
    rows
}

/// The row at place 0 of the group that the row chosen at a node's parent names. It takes two
/// steps.
fn first_row<R: Rank, L: Ledger>(
    tree: &Tree<R>,
    chosen: &[u32],
    node: u32,
    steps: &mut Steps<L>,
) -> u32
    requires formed { IsFormed R.KEYS R.key tree.now }
    requires below { 0 < node }
    requires node { node < length tree.now }
    requires above { (q : ℕ) → q < node → slice_index chosen.now q < rows tree.now q }
    requires long { node ≤ length chosen.now }
    ensures first { result
        ≡ slice_index (group tree.now node (slice_index chosen.now (parent tree.now node))) 0 }
    ensures row { result < rows tree.now node }
    ensures cost { steps.new ≤ steps.old + 2 }
{
    let above = tree.shape(node).parent;
    let place = tree.child_place(node);
    let group = tree.group_of(above, chosen[above as usize], place, steps);
    tree.member(node, group, 0, steps)
}
