//! Trees whose rows are not in groups yet.
ghost use Rattle.std.specs.Prelude.{◌≡◌, ℕ, ◌+◌, ◌<◌, ◌≤◌, Some, [], length, replicate, IfOk, OnOk, OnErr};
ghost use Rattle.std.specs.List.{All};
ghost use Rattle.tdp_model.specs.NodeRows.{most_node_rows};
ghost use Rattle.tdp_core.specs.RawRows.{AreWhole, rows_of};
ghost use Rattle.tdp_core.specs.RawView.{AreShapes, AreShapesHeld, IsRawFormed, RawRowFits, row_total, rows_at, with_row, with_rows, shape_at, shape_children, raw_len, raw_row_at, raw_rank, raw_number, own_link, child_link};

use crate::parts::{NodeRow, NodeShape};
use crate::raw_rows::{RawColumns, RawRows};
use hash_keys::Keys;
use rank_key::Rank;
use std::alloc::Global;
use std::marker::Model;
use step_counter::NoMemory;

/// A tree whose rows are not in groups yet: links say which rows belong together. Contracts see its
/// shapes and the rows of each node. Nodes and rows count from 0.
#[derive(Drop)]
pub struct RawTree<R: Rank> {
    shapes: Vec<NodeShape>,
    rows: Vec<RawRows<R>>,
    keys: Keys,
}

impl<R: Rank> Model for RawTree<R> {
    ghost use Rattle.tdp_core.specs.RawView.{RawView, IsRawFormed};

    ghost Value = { RawView R };

    ghost view = { λ t. record { shapes = t.shapes.items; rows = t.rows.items } };

    ghost invariant = { λ t. IsRawFormed R.KEYS R.key
        (record { shapes = t.shapes.items; rows = t.rows.items }) };
}

impl<R: Rank> RawTree<R> {
    /// A tree without rows, whose links are hashed with known keys. Its nodes must be in order,
    /// parents first, and their caps must be within what ranks hold. `NoMemory` if memory is
    /// refused.
    pub fn new(alloc: Global, shapes: &[NodeShape]) -> Result<RawTree<R>, NoMemory>
        requires shapes { AreShapes shapes.now }
        requires held { AreShapesHeld R.KEYS R.key shapes.now }
        ensures { IfOk result
            (λ t. t ≡ record { shapes = shapes.now; rows = replicate (length shapes.now) [] }) }
    {
        RawTree::with_keys(alloc, shapes, Keys::Known)
    }

    /// A tree without rows, whose links are hashed with these keys. Its nodes must be in order,
    /// parents first, and their caps must be within what ranks hold. `NoMemory` if memory is
    /// refused.
    pub fn with_keys(
        alloc: Global,
        shapes: &[NodeShape],
        keys: Keys,
    ) -> Result<RawTree<R>, NoMemory>
        requires shapes { AreShapes shapes.now }
        requires held { AreShapesHeld R.KEYS R.key shapes.now }
        ensures { IfOk result
            (λ t. t ≡ record { shapes = shapes.now; rows = replicate (length shapes.now) [] }) }
    {
        let rows = empty_rows(alloc, shapes.len())?;
        let shapes = Vec::from_slice(alloc, shapes)?;
        Ok(RawTree { shapes, rows, keys })
    }

    /// The keys with which the links are hashed.
    pub fn keys(&self) -> Keys {
        self.keys
    }

    /// Replaces the rows of a node by those of columns, which stay as they are. Takes no memory.
    pub fn fill_node(&mut self, node: u32, columns: RawColumns<R>)
        requires node { node < length self.old.shapes }
        requires whole { AreWhole columns }
        requires fits { All (RawRowFits R.KEYS R.key self.old.shapes node) (rows_of columns) }
        requires room { row_total self.old + length (rows_of columns) ≤ most_node_rows }
        ensures { self.new ≡ with_rows self.old node (rows_of columns) }
    {
        self.rows[node as usize] = RawRows::of(columns);
    }

    /// Takes all rows of a node out of the tree. Takes no memory.
    pub fn take_node(&mut self, node: u32) -> RawColumns<R>
        requires { node < length self.old.shapes }
        ensures rest { self.new ≡ with_rows self.old node [] }
        ensures whole { AreWhole result }
        ensures rows { rows_of result ≡ rows_at self.old node }
    {
        let alloc = *self.shapes.allocator();
        let none = RawRows::new(alloc);
        let rows = std::mem::replace(&mut self.rows[node as usize], none);
        rows.into_columns()
    }

    /// Appends a row to a node, with its own link and the link that it names for each child of the
    /// node, children in ascending order. After `NoMemory` the tree is as it was.
    pub fn add_row(
        &mut self,
        node: u32,
        row: NodeRow<R>,
        own: u32,
        children: &[u32],
    ) -> Result<(), NoMemory>
        requires node { node < length self.old.shapes }
        requires fits { RawRowFits R.KEYS R.key self.old.shapes node
            (record { row = row; own = own; children = children.now }) }
        requires room { row_total self.old < most_node_rows }
        ensures ok { OnOk result
            (self.new ≡ with_row self.old node
            (record { row = row; own = own; children = children.now })) }
        ensures err { OnErr result (self.new ≡ self.old) }
    {
        self.rows[node as usize].push(row, own, children)?;
        Ok(())
    }

    /// The number of nodes.
    pub fn nodes(&self) -> u32
        ensures count { result ≡ length self.now.shapes }
        ensures formed { IsRawFormed R.KEYS R.key self.now }
    {
        self.shapes.len() as u32
    }

    /// The shape of a node.
    pub fn shape(&self, node: u32) -> &NodeShape
        requires { node < length self.now.shapes }
        ensures { result.now ≡ shape_at self.now.shapes node }
    {
        &self.shapes[node as usize]
    }

    /// The number of rows of a node.
    pub fn len(&self, node: u32) -> u32
        requires { node < length self.now.shapes }
        ensures { result ≡ raw_len self.now node }
    {
        self.rows[node as usize].len() as u32
    }

    /// Row `i` of a node, from 0.
    pub fn row(&self, node: u32, i: u32) -> NodeRow<R>
        requires node { node < length self.now.shapes }
        requires row { i < raw_len self.now node }
        ensures row { raw_row_at self.now node i ≡ Some result }
        ensures rank { R.key result.rank ≡ raw_rank self.now R.KEYS R.key node i }
        ensures number { result.row ≡ raw_number self.now node i }
    {
        self.rows[node as usize].row(i as usize)
    }

    /// The own link of row `i` of a node, from 0.
    pub fn own(&self, node: u32, i: u32) -> u32
        requires node { node < length self.now.shapes }
        requires row { i < raw_len self.now node }
        ensures { result ≡ own_link self.now node i }
    {
        self.rows[node as usize].own(i as usize)
    }

    /// The link that row `i` of a node names for one of the node's children. Children count from 0
    /// in ascending order.
    pub fn link(&self, node: u32, i: u32, child: u32) -> u32
        requires node { node < length self.now.shapes }
        requires row { i < raw_len self.now node }
        requires child { child < shape_children self.now.shapes node }
        ensures { result ≡ child_link self.now node i child }
    {
        self.rows[node as usize].link(i as usize, child as usize)
    }
}

/// No rows, for this many nodes.
fn empty_rows<R: Rank>(alloc: Global, count: usize) -> Result<Vec<RawRows<R>>, NoMemory>
    ensures { IfOk result (λ rows. rows.items ≡ replicate count []) }
{
    let mut rows = Vec::with_capacity(alloc, count)?;
    while rows.len() < count {
        rows.push_reserved(RawRows::new(alloc));
    }
    Ok(rows)
}
