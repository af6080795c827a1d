//! The join tree that ear removal gives.

ghost use Rattle.std.specs.Prelude.{◌≡◌, ℕ, ◌+◌, ◌<◌, ◌≤◌, length, take, MatchOption, IfSome};
ghost use Rattle.hyper_graph.specs.Graph.{Hypergraph, IsIn};
ghost use Rattle.hyper_graph.specs.JoinTrees.{IsJoinTree, HasJoinTree};
ghost use Rattle.join_tree.specs.Rerooting.{IsTree};
ghost use Rattle.join_tree.specs.Removal.{HasOne, IsRemoval, IsTreeOf};

use crate::outcome::Ears;
use hyper_graph::{least, without};

/// A join tree. Its nodes are numbered from 0, parents first, and node 0 is its own parent.
#[derive(Clone, Copy, PartialEq, Eq)]
pub struct JoinTree {
    /// The number of nodes.
    pub count: u32,
    /// The atom of each node.
    pub atom: [u32; 16],
    /// The parent of each node: a node with a lesser number, and 0 for node 0.
    pub parent: [u32; 16],
}

/// The join tree of a graph whose ears were removed. The last atom left is its root, and the others
/// are in the reverse of the order in which they were removed. `None` exactly if the graph has no
/// join tree.
pub fn tree_of(ears: &Ears) -> Option<JoinTree>
    requires { (graph : Hypergraph)
        × IsRemoval graph ears.now.parent ears.now.order ears.now.removed ears.now.core }
    ensures tree { (graph : Hypergraph)
        → IsRemoval graph ears.now.parent ears.now.order ears.now.removed ears.now.core →
        MatchOption result (HasJoinTree graph → ⊥)
        (λ tree. IsJoinTree graph (take tree.count tree.atom) (take tree.count tree.parent)) }
    ensures count { IfSome result (λ tree. tree.count ≡ ears.now.removed + 1) }
    ensures ordered { IfSome result (λ tree. IsTree tree.count tree.atom tree.parent) }
    ensures nodes { IfSome result
        (λ tree. IsTreeOf ears.now.parent ears.now.order ears.now.removed ears.now.core
        (take tree.count tree.atom) (take tree.count tree.parent)) }
{
    let root = only_atom(ears.core)?;
    Some(hang(ears, root))
}

/// The one atom of a set, if it has exactly one.
fn only_atom(set: u16) -> Option<u32>
    ensures { MatchOption result (HasOne set → ⊥)
        (λ a. IsIn set a × ((b : ℕ) → IsIn set b → b ≡ a)) }
{
    let atom = least(set);
    if atom < 16 && without(set, atom) == 0 {
        Some(atom)
    } else {
        None
    }
}

/// The tree of a removal that leaves only this root.
fn hang(ears: &Ears, root: u32) -> JoinTree
    requires removal { (graph : Hypergraph)
        × IsRemoval graph ears.now.parent ears.now.order ears.now.removed ears.now.core }
    requires one { HasOne ears.now.core }
    requires root { IsIn ears.now.core root }
    ensures count { result.count ≡ ears.now.removed + 1 }
    ensures nodes { length result.atom ≡ 16 }
    ensures parents { length result.parent ≡ 16 }
    ensures tree { IsTreeOf ears.now.parent ears.now.order ears.now.removed ears.now.core
        result.atom result.parent }
{
    let mut tree = JoinTree {
        count: ears.removed + 1,
        atom: [root; 16],
        parent: [0; 16],
    };
    let mut node = [0; 16];
    let removed = ears.removed as usize;
    for k in 1..removed + 1 {
        let atom = ears.order[removed - k];
        tree.atom[k] = atom;
        tree.parent[k] = node[ears.parent[atom as usize] as usize];
        node[atom as usize] = k as u32;
    }
    tree
}
