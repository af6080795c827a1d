//! The nodes of a subtree, and the places of their items in its lists of rows.
ghost use Rattle.std.specs.Prelude.{◌≡◌, ℕ, ◌<◌, ◌≤◌, length, slice_index};
ghost use Rattle.tdp_core.specs.RawView.{shape_child_place, shape_children, shape_parent};
ghost use Rattle.proof_check.specs.Subtrees.{AreBelow, raw_below, raw_place, raw_size};

use rank_key::Rank;
use tdp_core::RawTree;

/// For each node 1 if it is in the subtree of a node, and 0 if not.
pub(crate) fn subtree<R: Rank>(raw: &RawTree<R>, node: u32) -> [u32; 16]
    requires { node < length raw.now.shapes }
    ensures { AreBelow raw.now node result }
{
    let nodes = raw.nodes();
    let mut below = [0; 16];
    below[node as usize] = 1;
    for child in node + 1..nodes {
        below[child as usize] = below[raw.shape(child).parent as usize];
    }
    below
}

/// The number of nodes of a subtree.
pub(crate) fn size<R: Rank>(raw: &RawTree<R>, below: &[u32; 16]) -> u32
    requires { (node : ℕ) × (node < length raw.now.shapes) × AreBelow raw.now node below.now }
    ensures { (node : ℕ) → node < length raw.now.shapes → AreBelow raw.now node below.now
        → result ≡ raw_size raw.now node }
{
    let nodes = raw.nodes();
    let mut size = 0;
    for node in 0..nodes {
        size += below[node as usize];
    }
    size
}

/// The place of a node's item among the items of a subtree, in the order of the items.
pub(crate) fn item_place<R: Rank>(raw: &RawTree<R>, below: &[u32; 16], node: u32) -> u32
    requires node { node < length raw.now.shapes }
    requires below { (top : ℕ) × (top < length raw.now.shapes) × AreBelow raw.now top below.now }
    ensures place { (top : ℕ) → top < length raw.now.shapes → AreBelow raw.now top below.now
        → result ≡ raw_place raw.now top node }
    ensures within { (top : ℕ) → top < length raw.now.shapes → AreBelow raw.now top below.now
        → 0 < raw_below raw.now top node → result < raw_size raw.now top }
{
    let nodes = raw.nodes();
    let item = raw.shape(node).item;
    let mut place = 0;
    for other in 0..nodes {
        if raw.shape(other).item < item {
            place += below[other as usize];
        }
    }
    place
}

/// The place of a node among its parent's children.
pub(crate) fn child_place<R: Rank>(raw: &RawTree<R>, node: u32) -> u32
    requires below_root { 0 < node }
    requires node { node < length raw.now.shapes }
    ensures place { result ≡ shape_child_place raw.now.shapes node }
    ensures within { result < shape_children raw.now.shapes (shape_parent raw.now.shapes node) }
    ensures above { shape_parent raw.now.shapes node < node }
{
    // for the proof: the tree is well formed
    let _nodes = raw.nodes();
    let parent = raw.shape(node).parent;
    let mut place = 0;
    for other in 1..node {
        if raw.shape(other).parent == parent {
            place += 1;
        }
    }
    place
}
