//! The numbers of rows of the nodes of a join tree, in the order of another one.
ghost use Rattle.std.specs.Prelude.{◌≡◌, ◌<◌, ◌≤◌, length, slice_index, ℕ};
ghost use Rattle.join_tree.specs.Rerooting.{IsTree};
ghost use Rattle.bound_query.specs.JoinTreeView.{HasItems};

use join_tree::JoinTree;

/// The number of rows of each atom, from those of the nodes.
fn rows_of_atoms(tree: &JoinTree, node_rows: &[u64]) -> [u64; 16]
    requires tree { IsTree tree.now.count tree.now.atom tree.now.parent }
    requires atoms { HasItems tree.now.count tree.now.atom 16 }
    requires counted { length node_rows.now ≡ tree.now.count }
    ensures { (v : ℕ) → v < tree.now.count
        → slice_index result (slice_index tree.now.atom v) ≡ slice_index node_rows.now v }
{
    let mut rows_of = [0; 16];
    for node in 0..tree.count as usize {
        rows_of[tree.atom[node] as usize] = node_rows[node];
    }
    rows_of
}

/// The numbers of rows of the nodes of `from`, in the order of the nodes of `to`, a tree over the
/// same atoms.
pub(crate) fn in_order(node_rows: Vec<u64>, from: &JoinTree, to: &JoinTree) -> Vec<u64>
    requires from { IsTree from.now.count from.now.atom from.now.parent }
    requires from_atoms { HasItems from.now.count from.now.atom 16 }
    requires to_atoms { HasItems to.now.count to.now.atom 16 }
    requires count { to.now.count ≡ from.now.count }
    requires counted { length node_rows.items ≡ from.now.count }
    ensures counted { length result.items ≡ length node_rows.items }
    ensures moved { (u v : ℕ) → u < to.now.count → v < from.now.count
        → slice_index from.now.atom v ≡ slice_index to.now.atom u
        → slice_index result.items u ≡ slice_index node_rows.items v }
{
    let rows_of = rows_of_atoms(from, node_rows.as_slice());
    let mut moved = node_rows;
    for node in 0..to.count as usize {
        moved[node] = rows_of[to.atom[node] as usize];
    }
    moved
}
