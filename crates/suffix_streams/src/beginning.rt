//! The streams of a tree at their start, when each has only its head.
ghost use Rattle.std.specs.Prelude.{◌≡◌, ℕ, ◌+◌, ◌*◌, ◌<◌, ◌≤◌, [], ◌∷◌, ◌++◌, length, IfOk, OnOk};
ghost use Rattle.tdp_core.specs.TreeView.{rows, row_count, group_count};
ghost use Rattle.tdp_core.specs.WellFormed.{IsFormed};
ghost use Rattle.suffix_streams.specs.StreamView.{IsNextHead};
ghost use Rattle.suffix_streams.specs.TreeStreams.{open_rows, lists_of};
ghost use Rattle.suffix_streams.specs.Beginnings.{AreChildren, IsEmptyNode, IsBegunIn, IsBegunFrom};

use crate::lists::list_with_room;
use crate::members::first_solution;
use crate::node::NodeStreams;
use crate::opened::RowProducts;
use crate::stream::Found;
use rank_key::Rank;
use std::alloc::Allocator;
use std::sync::ledger::Ledger;
use step_counter::{NoMemory, Steps};
use stream_store::{EntryId, Run, Store};
use take2_heap::HeapOf;
use tdp_core::Tree;

/// The children of a node, in ascending order.
fn children_of<R: Rank, A: Allocator + Clone>(
    alloc: &A,
    tree: &Tree<R>,
    node: u32,
) -> Result<Vec<u32, A>, NoMemory>
    requires { node < length tree.now }
    ensures { IfOk result (λ children. AreChildren tree.now node children.items) }
{
    let nodes = tree.nodes();
    let mut children = Vec::new(alloc.clone()?);
    for child in node + 1..nodes {
        if tree.shape(child).parent == node {
            children.push(child)?;
        }
    }
    Ok(children)
}

/// The number of rows whose products can be kept: all, if the node has several children, else 0.
fn rows_to_open(children: usize, rows: u32) -> u32
    ensures { result ≡ open_rows children rows }
{
    if children < 2 { 0 } else { rows }
}

/// A node without streams.
fn empty_node<R: Rank, A: Allocator + Clone>(
    alloc: &A,
    tree: &Tree<R>,
    node: u32,
) -> Result<NodeStreams<R, A>, NoMemory>
    requires { node < length tree.now }
    ensures { IfOk result (IsEmptyNode tree.now node) }
{
    let children = children_of(alloc, tree, node)?;
    let rows = rows_to_open(children.len(), tree.len(node));
    let products = RowProducts::with_rows(alloc, rows)?;
    let streams = list_with_room(alloc, tree.groups(node) as usize)?;
    Ok(NodeStreams {
        children,
        heads: Run::new(),
        streams,
        products,
    })
}

/// Adds all nodes of a tree, without streams, to a list that is empty. `NoMemory` if memory is
/// refused.
fn add_empty_nodes<R: Rank, A: Allocator + Clone>(
    alloc: &A,
    tree: &Tree<R>,
    nodes: &mut Vec<NodeStreams<R, A>, A>,
) -> Result<(), NoMemory>
    requires { nodes.old.items ≡ [] }
    ensures count { OnOk result (length nodes.new.items ≡ length tree.now) }
    ensures empty { OnOk result
        ((v : ℕ) → v < length tree.now → IsEmptyNode tree.now v (lists_of nodes.new.items v)) }
{
    for node in 0..tree.nodes() {
        let empty = empty_node(alloc, tree, node)?;
        nodes.push(empty)?;
    }
    Ok(())
}

impl<R: Rank, A: Allocator + Clone> NodeStreams<R, A> {
    /// Adds the stream of the next group. Its head comes after that of the group before it.
    /// `NoMemory` if memory is refused.
    fn add_stream(&mut self, head: EntryId) -> Result<(), NoMemory>
        requires { IsNextHead self.old.streams head }
        ensures { OnOk result
            (self.new ≡ record self.old {
              streams = self.old.streams
                  ++ record { head = head; queue = []; room = 0 } ∷ [];
            }) }
    {
        let own = self.streams.allocator().clone()?;
        self.streams.reserve(1)?;
        self.streams.push_reserved(HeapOf::new(own));
        self.heads.add(head);
        Ok(())
    }
}

/// Makes the stream of the next group of a node, and adds its head to the store: the first solution
/// of the group's first member. `NoMemory` if memory is refused.
fn begin_group<R: Rank, A: Allocator + Clone, L: Ledger>(
    tree: &Tree<R>,
    nodes: &mut Vec<NodeStreams<R, A>, A>,
    entries: &mut Store<Found<R>, A>,
    node: u32,
    group: u32,
    steps: &mut Steps<L>,
) -> Result<(), NoMemory>
    requires formed { IsFormed R.KEYS R.key tree.now }
    requires node { node < length tree.now }
    requires group { group < group_count tree.now node }
    requires begun { IsBegunIn R.KEYS R.key tree.now entries.old.entries nodes.old.items node
        group }
    requires heads { IsNextHead (lists_of nodes.old.items node).streams
        (length entries.old.entries) }
    ensures begun { OnOk result
        (IsBegunIn R.KEYS R.key tree.now entries.new.entries nodes.new.items node (group + 1)) }
    ensures heads { OnOk result
        (IsNextHead (lists_of nodes.new.items node).streams (length entries.new.entries)) }
    ensures cost { steps.new ≤ steps.old + 5 }
{
    let first = first_solution(tree, nodes.as_slice(), entries, node, group, 0, steps);
    entries.reserve(1)?;
    let head = entries.push_reserved(
        Found {
            node,
            group,
            solution: first,
        },
        steps,
    );
    nodes[node as usize].add_stream(head)
}

/// Makes the streams of a node. The streams of all later nodes must be there. `NoMemory` if memory
/// is refused.
fn begin_node<R: Rank, A: Allocator + Clone, L: Ledger>(
    tree: &Tree<R>,
    nodes: &mut Vec<NodeStreams<R, A>, A>,
    entries: &mut Store<Found<R>, A>,
    node: u32,
    steps: &mut Steps<L>,
) -> Result<(), NoMemory>
    requires formed { IsFormed R.KEYS R.key tree.now }
    requires node { node < length tree.now }
    requires begun { IsBegunFrom R.KEYS R.key tree.now entries.old.entries nodes.old.items
        (node + 1) }
    ensures begun { OnOk result
        (IsBegunFrom R.KEYS R.key tree.now entries.new.entries nodes.new.items node) }
    ensures cost { steps.new ≤ steps.old + 5 * rows tree.now node }
{
    for group in 0..tree.groups(node) {
        begin_group(tree, nodes, entries, node, group, steps)?;
    }
    Ok(())
}

/// Adds all nodes of a tree, each of whose streams has its head, to a list that is empty. `NoMemory`
/// if memory is refused.
pub(crate) fn begin_nodes<R: Rank, A: Allocator + Clone, L: Ledger>(
    alloc: &A,
    tree: &Tree<R>,
    nodes: &mut Vec<NodeStreams<R, A>, A>,
    entries: &mut Store<Found<R>, A>,
    steps: &mut Steps<L>,
) -> Result<(), NoMemory>
    requires nodes { nodes.old.items ≡ [] }
    requires entries { entries.old.entries ≡ [] }
    ensures formed { OnOk result (IsFormed R.KEYS R.key tree.now) }
    ensures begun { OnOk result
        (IsBegunFrom R.KEYS R.key tree.now entries.new.entries nodes.new.items 0) }
    ensures cost { steps.new ≤ steps.old + 16 * length tree.now * (1 + row_count tree.now) }
{
    add_empty_nodes(alloc, tree, nodes)?;
    for node in (0..tree.nodes()).rev() {
        begin_node(tree, nodes, entries, node, steps)?;
    }
    Ok(())
}
