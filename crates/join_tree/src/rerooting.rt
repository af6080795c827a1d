//! Another root for a join tree.

ghost use Rattle.std.specs.Prelude.{◌≡◌, ℕ, ◌+◌, ◌<◌, ◌≤◌, length, slice_index, take};
ghost use Rattle.hyper_graph.specs.Graph.{Hypergraph};
ghost use Rattle.hyper_graph.specs.JoinTrees.{IsJoinTree};
ghost use Rattle.join_tree.specs.Rerooting.{IsTree, HasAtom, IsSameTree, IsRenumbered, IsRaised, old_node, new_node, new_parent};

use crate::tree::JoinTree;

/// The same tree with this atom as its root. It has the same atoms, and two of them are parent and
/// child, in either direction, exactly if they were before. So it is a join tree of each graph of
/// which `tree` is one. Takes no memory.
pub fn reroot(tree: &JoinTree, atom: u32) -> JoinTree
    requires tree { IsTree tree.now.count tree.now.atom tree.now.parent }
    requires there { HasAtom tree.now.count tree.now.atom atom }
    ensures count { result.count ≡ tree.now.count }
    ensures root { slice_index result.atom 0 ≡ atom }
    ensures tree { IsTree result.count result.atom result.parent }
    ensures same { IsSameTree tree.now.count tree.now.atom tree.now.parent result.atom
        result.parent }
    ensures graphs { (graph : Hypergraph)
        → IsJoinTree graph (take tree.now.count tree.now.atom)
        (take tree.now.count tree.now.parent) →
        IsJoinTree graph (take result.count result.atom) (take result.count result.parent) }
{
    reroot_at(tree, node_of(tree, atom))
}

/// The same tree with this node as its root: its parent is made the root first.
fn reroot_at(tree: &JoinTree, node: u32) -> JoinTree
    requires tree { IsTree tree.now.count tree.now.atom tree.now.parent }
    requires within { node < tree.now.count }
    ensures count { result.count ≡ tree.now.count }
    ensures tree { IsTree tree.now.count result.atom result.parent }
    ensures nodes { length result.atom ≡ 16 }
    ensures parents { length result.parent ≡ 16 }
    ensures renumbered { (r : IsRenumbered tree.now.count tree.now.atom tree.now.parent
        result.atom result.parent)
        × (r.old 0 ≡ node) }
{
    if node == 0 {
        return *tree;
    }
    let above = reroot_at(tree, tree.parent[node as usize]);
    let child = node_of(&above, tree.atom[node as usize]);
    raise(&above, child)
}

/// The node that is this atom.
fn node_of(tree: &JoinTree, atom: u32) -> u32
    requires few { tree.now.count ≤ 16 }
    requires there { HasAtom tree.now.count tree.now.atom atom }
    ensures within { result < tree.now.count }
    ensures found { slice_index tree.now.atom result ≡ atom }
{
    for node in 0..tree.count {
        if tree.atom[node as usize] == atom {
            return node;
        }
    }
    0
}

/// The tree with a child of the root as its root.
fn raise(tree: &JoinTree, child: u32) -> JoinTree
    requires few { tree.now.count ≤ 16 }
    requires within { child < tree.now.count }
    ensures count { result.count ≡ tree.now.count }
    ensures nodes { length result.atom ≡ 16 }
    ensures parents { length result.parent ≡ 16 }
    ensures raised { IsRaised child tree.now.count tree.now.atom tree.now.parent result.atom
        result.parent }
{
    let mut raised = *tree;
    for k in 0..tree.count {
        raised.atom[k as usize] = tree.atom[number_before(child, k) as usize];
        raised.parent[k as usize] = parent_after(&tree.parent, child, k);
    }
    raised
}

/// The number that node `k` had before.
fn number_before(child: u32, k: u32) -> u32
    ensures { result ≡ old_node child k }
{
    if k == 0 {
        child
    } else if k <= child {
        k - 1
    } else {
        k
    }
}

/// The number that node `k` has now.
fn number_after(child: u32, k: u32) -> u32
    ensures { result ≡ new_node child k }
{
    if k < child {
        k + 1
    } else if k == child {
        0
    } else {
        k
    }
}

/// The parent that node `k` has now.
fn parent_after(parents: &[u32; 16], child: u32, k: u32) -> u32
    requires child { child < 16 }
    requires within { k < 16 }
    ensures { result ≡ new_parent child parents.now k }
{
    if k <= 1 {
        0
    } else {
        number_after(child, parents[number_before(child, k) as usize])
    }
}
