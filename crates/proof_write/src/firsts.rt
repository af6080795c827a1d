//! The first solution of a group of rows.
ghost use Rattle.std.specs.Prelude.{◌≡◌, ◌<◌, IfOk, IfSome, None, Some, length, option_map, slice_index};
ghost use Rattle.std.specs.Prelude.{slice_index_or, ℕ};
ghost use Rattle.tdp_core.specs.TreeView.{group, group_count, parent, rows};
ghost use Rattle.tdp_core.specs.WellFormed.{IsFormed};
ghost use Rattle.proof_write.specs.Firsts.{IsFirst, listed};

use rank_key::{Rank, SLOTS};
use std::alloc::Global;
use std::sync::ledger::Ledger;
use step_counter::{NoMemory, Steps};
use tdp_core::Tree;

/// The row numbers of the first solution of a group, by item: those of the row at place 0, and of
/// the row at place 0 of each group that is named, down the subtree. Items of no node of the
/// subtree have 0.
pub fn first_rows<R: Rank, L: Ledger>(
    tree: &Tree<R>,
    node: u32,
    group: u32,
    steps: &mut Steps<L>,
) -> [u32; 16]
    requires node { node < length tree.now }
    requires group { group < group_count tree.now node }
    ensures { IsFirst tree.now node group result }
{
    let nodes = tree.nodes();
    let mut chosen = [None; SLOTS];
    let mut rows = [0; SLOTS];
    let top = tree.member(node, group, 0, steps);
    chosen[node as usize] = Some(top);
    rows[tree.shape(node).item as usize] = tree.row_at(node, top, steps).row;
    for below in node + 1..nodes {
        if let Some(row) = first_below(tree, &chosen, below, steps) {
            chosen[below as usize] = Some(row);
            rows[tree.shape(below).item as usize] = tree.row_at(below, row, steps).row;
        }
    }
    rows
}

/// The row at place 0 of the group that the row chosen at a node's parent names. `None` if no row
/// is chosen there.
fn first_below<R: Rank, L: Ledger>(
    tree: &Tree<R>,
    chosen: &[Option<u32>; 16],
    node: u32,
    steps: &mut Steps<L>,
) -> Option<u32>
    requires formed { IsFormed R.KEYS R.key tree.now }
    requires below { 0 < node }
    requires node { node < length tree.now }
    requires rows { (row : ℕ) → slice_index_or chosen.now (parent tree.now node) None ≡ Some row
        → row < rows tree.now (parent tree.now node) }
    ensures first { result ≡ option_map (λ row. slice_index (group tree.now node row) 0)
        (slice_index_or chosen.now (parent tree.now node) None) }
    ensures inside { IfSome result (λ row. row < rows tree.now node) }
{
    let above = tree.shape(node).parent;
    let row = chosen[above as usize]?;
    let group = tree.group_of(above, row, tree.child_place(node), steps);
    Some(tree.member(node, group, 0, steps))
}

/// The row numbers without the zeros. `NoMemory` if memory is refused.
pub fn without_zeros(alloc: Global, rows: &[u32; 16]) -> Result<Vec<u32>, NoMemory>
    ensures { IfOk result (λ list. list.items ≡ listed rows.now) }
{
    let mut list = Vec::with_capacity(alloc, rows.len())?;
    for row in rows {
        if *row > 0 {
            list.push(*row)?;
        }
    }
    Ok(list)
}
