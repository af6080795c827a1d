//! Well-formed trees, which the engines read.
ghost use Rattle.std.specs.Prelude.{◌≡◌, ℕ, ◌+◌, ◌<◌, Some, length, nat_lt, slice_get, slice_index};
ghost use Rattle.tdp_core.specs.TreeView.{tree_view, node_view, node_at, rows, number, child_count, child_place, parent, group_count, members, group_named, rank, best};
ghost use Rattle.tdp_core.specs.WellFormed.{IsFormed};
ghost use Rattle.tdp_core.specs.Solutions.{IsLeastKey};

use crate::parts::{NodeParts, NodeRow, NodeShape};
use rank_key::Rank;
use std::marker::Model;
use std::sync::ledger::Ledger;
use step_counter::Steps;

/// A well-formed tree. Contracts see the list of its nodes. Nodes, rows, groups and places in a
/// group count from 0, and so do the children of a node, in ascending order.
#[derive(Drop)]
pub struct Tree<R: Rank> {
    nodes: Vec<NodeParts<R>>,
}

impl<R: Rank> Model for Tree<R> {
    ghost use Rattle.std.specs.Prelude.{List};
    ghost use Rattle.tdp_core.specs.TreeView.{NodeView, tree_view};
    ghost use Rattle.tdp_core.specs.WellFormed.{IsFormed};

    ghost Value = { List (NodeView R) };

    ghost view = { λ t. tree_view t.nodes.items };

    ghost invariant = { λ t. IsFormed R.KEYS R.key (tree_view t.nodes.items) };
}

impl<R: Rank> Tree<R> {
    /// The tree of well-formed parts. It takes no memory.
    pub fn from_parts(nodes: Vec<NodeParts<R>>) -> Tree<R>
        requires { IsFormed R.KEYS R.key (tree_view nodes.items) }
        ensures { result ≡ tree_view nodes.items }
    {
        Tree { nodes }
    }

    /// The number of nodes.
    pub fn nodes(&self) -> u32
        ensures count { result ≡ length self.now }
        ensures formed { IsFormed R.KEYS R.key self.now }
    {
        self.nodes.len() as u32
    }

    /// A node as it is kept.
    #[inline(always)]
    fn parts(&self, node: u32) -> &NodeParts<R>
        requires { node < length self.now }
        ensures read { node_at self.now node ≡ node_view result.now }
        ensures formed { IsFormed R.KEYS R.key self.now }
    {
        &self.nodes[node as usize]
    }

    /// The shape of a node.
    pub fn shape(&self, node: u32) -> &NodeShape
        requires { node < length self.now }
        ensures { result.now ≡ (node_at self.now node).shape }
    {
        &self.parts(node).shape
    }

    /// The place of a node among the children of its parent, in ascending order from 0.
    pub fn child_place(&self, node: u32) -> u32
        requires some { 0 < node }
        requires node { node < length self.now }
        ensures place { result ≡ child_place self.now node }
        ensures within { result < child_count self.now (parent self.now node) }
    {
        let above = self.parts(node).shape.parent;
        let mut place = 0;
        for other in 1..node {
            if self.parts(other).shape.parent == above {
                place += 1;
            }
        }
        place
    }

    /// The number of rows of a node.
    pub fn len(&self, node: u32) -> u32
        requires { node < length self.now }
        ensures { result ≡ rows self.now node }
    {
        self.parts(node).rows.len() as u32
    }

    /// The number of groups of a node.
    pub fn groups(&self, node: u32) -> u32
        requires { node < length self.now }
        ensures { result ≡ group_count self.now node }
    {
        self.parts(node).groups.len() as u32
    }

    /// The number of rows of a group.
    pub fn group_len(&self, node: u32, group: u32) -> u32
        requires node { node < length self.now }
        requires group { group < group_count self.now node }
        ensures { result ≡ length (members self.now node group) }
    {
        self.parts(node).groups.group(group as usize).len() as u32
    }

    /// Whether the tree has a solution.
    pub fn live(&self) -> bool
        ensures live { result ≡ nat_lt 0 (group_count self.now 0) }
        ensures formed { IsFormed R.KEYS R.key self.now }
    {
        !self.nodes[0].groups.is_empty()
    }

    /// A row of a node. It takes one step.
    pub fn row_at<L: Ledger>(&self, node: u32, row: u32, steps: &mut Steps<L>) -> NodeRow<R>
        requires node { node < length self.now }
        requires row { row < rows self.now node }
        ensures row { slice_get (node_at self.now node).rows row ≡ Some result }
        ensures rank { R.key result.rank ≡ rank self.now R.KEYS R.key node row }
        ensures number { result.row ≡ number self.now node row }
        ensures counted { steps.new ≡ steps.old + 1 }
    {
        steps.tick();
        self.parts(node).rows.get(row as usize)
    }

    /// The group that a row names for a child of its node. It takes one step.
    pub fn group_of<L: Ledger>(&self, node: u32, row: u32, child: u32, steps: &mut Steps<L>) -> u32
        requires node { node < length self.now }
        requires row { row < rows self.now node }
        requires child { child < child_count self.now node }
        ensures named { result ≡ group_named self.now node row child }
        ensures counted { steps.new ≡ steps.old + 1 }
    {
        steps.tick();
        self.parts(node).to_child.get(row as usize, child as usize)
    }

    /// The row at a place of a group. It takes one step.
    pub fn member<L: Ledger>(&self, node: u32, group: u32, place: u32, steps: &mut Steps<L>) -> u32
        requires node { node < length self.now }
        requires group { group < group_count self.now node }
        requires place { place < length (members self.now node group) }
        ensures member { result ≡ slice_index (members self.now node group) place }
        ensures counted { steps.new ≡ steps.old + 1 }
    {
        steps.tick();
        self.parts(node).groups.group(group as usize)[place as usize]
    }

    /// The rank of a row's least subtree solution. It takes one step.
    pub fn best<L: Ledger>(&self, node: u32, row: u32, steps: &mut Steps<L>) -> R
        requires node { node < length self.now }
        requires row { row < rows self.now node }
        ensures best { R.key result ≡ best self.now R.KEYS R.key node row }
        ensures least { IsLeastKey self.now R.KEYS R.key node row (R.key result) }
        ensures counted { steps.new ≡ steps.old + 1 }
    {
        steps.tick();
        self.parts(node).best[row as usize]
    }
}
