//! The rows of one node that are kept, in groups.
ghost use Rattle.std.specs.Prelude.{◌≡◌, ◌≢◌, ◌+◌, ◌*◌, ◌<◌, ◌≤◌, ℕ, [], true, false, cond, map, length, slice_get, slice_index, slice_index_or, slice_set, IfOk, OnOk, Some, nat_eq};
ghost use Rattle.std.specs.List.{All};
ghost use Rattle.tdp_model.specs.NodeRows.{most_node_rows};
ghost use Rattle.indexmap.specs.IndexSet.{insert_key};
ghost use Rattle.tdp_core.specs.declared.parts.NodeRow.{NodeRow};
ghost use Rattle.tdp_core.specs.RawView.{RawView, raw_len, with_rows};
ghost use Rattle.tdp_core.specs.TreeView.{node_view};
ghost use Rattle.semi_join.specs.Reduction.{AreFew, AreKept, AreLater, ComeAfter, HasPlaceOf, IsReducedNode, IsSource, are_met, child_nodes, group_links, groups_met, links_of};

use crate::group_links::GroupLinks;
use hash_keys::Keys;
use rank_key::Rank;
use std::alloc::{AllocError, Global};
use std::sync::ledger::Ledger;
use step_counter::{NoMemory, Steps};
use tdp_core::{Groups, NamedGroups, NodeParts, NodeRows, RawColumns, RawTree};

/// A node with its rows in groups.
#[derive(Drop)]
pub(crate) struct GroupedNode<R> {
    pub parts: NodeParts<R>,
    /// The link of each group; its place is the number of the group.
    pub links: GroupLinks,
}

/// The rows of a node that are kept, before they are put into groups. Before that these lists have
/// all rows of the node, with links in the place of numbers: the rows that are kept move to the
/// front.
#[derive(Drop)]
struct KeptRows<R> {
    rows: NodeRows<R>,
    /// For each row the group of each child of the node.
    to_child: NamedGroups,
    /// For each row the number of its own group.
    numbers: Vec<u32>,
    /// The link of each group.
    links: GroupLinks,
}

/// The node with the rows that are kept, which are taken out of the raw tree. `later` has the links
/// of the groups of each later node, in the order of the nodes.
pub(crate) fn reduce_node<R: Rank, L: Ledger>(
    alloc: Global,
    raw: &mut RawTree<R>,
    node: u32,
    later: &[GroupLinks],
    steps: &mut Steps<L>,
) -> Result<GroupedNode<R>, NoMemory>
    requires node { node < length raw.old.shapes }
    requires later { AreLater raw.old node later.now }
    ensures reduced { IfOk result
        (λ r. IsReducedNode raw.old node (map links_of later.now) (node_view r.parts)) }
    ensures links { IfOk result
        (λ r. links_of r.links ≡ group_links raw.old node (map links_of later.now)) }
    ensures few { IfOk result (λ r. length (links_of r.links) ≤ most_node_rows) }
    ensures rest { raw.new ≡ with_rows raw.old node [] }
    ensures cost { steps.new ≤ steps.old + raw_len raw.old node * length raw.old.shapes }
{
    let shape = *raw.shape(node);
    let keys = raw.keys();
    // for the proof: each row names a link for each child
    let _nodes = raw.nodes();
    let columns = raw.take_node(node);
    let children = children_of(alloc, raw, node)?;
    let kept = keep_rows(alloc, keys, node, columns, &children, later, steps)?;
    match Groups::of_numbers(alloc, &kept.numbers, kept.links.len()) {
        Ok(groups) => {
            let KeptRows {
                rows,
                to_child,
                links,
                ..
            } = kept;
            let parts = NodeParts {
                shape,
                rows,
                to_child,
                groups,
                best: Vec::new(alloc),
            };
            Ok(GroupedNode { parts, links })
        }
        Err(refused) => {
            drop(kept);
            Err(refused)
        }
    }
}

/// The rows of a node that are kept, each with the number of its group, in the memory of the
/// columns.
fn keep_rows<R: Rank, L: Ledger>(
    alloc: Global,
    keys: Keys,
    node: u32,
    columns: RawColumns<R>,
    children: &[u32],
    later: &[GroupLinks],
    steps: &mut Steps<L>,
) -> Result<KeptRows<R>, NoMemory>
    requires { (raw : RawView R)
        × IsSource raw node later.now children.now columns.rows columns.owns.items
        columns.named.rows }
    ensures kept { IfOk result
        (λ kept. (raw : RawView R)
        → IsSource raw node later.now children.now columns.rows columns.owns.items
        columns.named.rows
        → AreKept raw node (map links_of later.now) kept.rows kept.to_child.rows
        (links_of kept.links) kept.numbers.items) }
    ensures cost { steps.new
        ≤ steps.old + length columns.rows * (length children.now + 1) }
{
    let RawColumns { rows, owns, named } = columns;
    let greatest = if node == 0 { 0 } else { greatest_of(&owns) };
    let links = GroupLinks::new(alloc, keys, rows.len() as u32, greatest)?;
    let mut kept = KeptRows {
        rows,
        to_child: named,
        numbers: owns,
        links,
    };
    let done = keep_in_place(&mut kept, node, children, later, steps);
    done.and(Ok(kept))
}

/// Replaces all rows of a node by those that are kept, each with the number of its group. It does
/// not own what it changes, so that an error leaves little to drop.
fn keep_in_place<R: Rank, L: Ledger>(
    kept: &mut KeptRows<R>,
    node: u32,
    children: &[u32],
    later: &[GroupLinks],
    steps: &mut Steps<L>,
) -> Result<(), NoMemory>
    requires source { (raw : RawView R)
        × IsSource raw node later.now children.now kept.old.rows kept.old.numbers.items
        kept.old.to_child.rows }
    requires none { links_of kept.old.links ≡ [] }
    ensures kept { OnOk result
        ((raw : RawView R)
        → IsSource raw node later.now children.now kept.old.rows kept.old.numbers.items
        kept.old.to_child.rows
        → AreKept raw node (map links_of later.now) kept.new.rows kept.new.to_child.rows
        (links_of kept.new.links) kept.new.numbers.items) }
    ensures cost { steps.new
        ≤ steps.old + length kept.old.rows * (length children.now + 1) }
{
    let count = kept.rows.len();
    let mut to = 0;
    for i in 0..count {
        if child_groups(&mut kept.to_child, i, to, node, children, later, steps) {
            let own = group_link_of(&kept.numbers, node, i);
            keep_row(kept, i, to, own, steps)?;
            to += 1;
        }
    }
    kept.rows.truncate(to);
    kept.numbers.truncate(to);
    kept.to_child.truncate(to);
    Ok(())
}

/// The greatest of some links; 0 if there are none.
fn greatest_of(links: &[u32]) -> u32 {
    let mut greatest = 0;
    for link in links {
        greatest = greatest.max(*link);
    }
    greatest
}

/// The link by which a row is put into its group: its own link, and at the root the same one for
/// all rows.
fn group_link_of(links: &[u32], node: u32, i: usize) -> u32
    requires { i < length links.now }
    ensures { result ≡ cond (nat_eq node 0) 0 (slice_index links.now i) }
{
    if node == 0 { 0 } else { links[i] }
}

/// Puts a row at the place after those that are kept before it, with the number of the group of its
/// link. A link that is new makes a new group.
#[inline(always)]
fn keep_row<R: Rank, L: Ledger>(
    kept: &mut KeptRows<R>,
    from: usize,
    to: usize,
    own: u32,
    steps: &mut Steps<L>,
) -> Result<(), NoMemory>
    requires from { from < length kept.old.rows }
    requires to { to ≤ from }
    requires numbers { length kept.old.numbers.items ≡ length kept.old.rows }
    requires few { length (links_of kept.old.links) ≤ most_node_rows }
    ensures rows { OnOk result
        ((row : NodeRow R) → slice_get kept.old.rows from ≡ Some row
        → kept.new.rows ≡ slice_set kept.old.rows to row) }
    ensures to_child { OnOk result (kept.new.to_child ≡ kept.old.to_child) }
    ensures links { OnOk result
        (links_of kept.new.links ≡ insert_key nat_eq (links_of kept.old.links) own) }
    ensures number { OnOk result
        (HasPlaceOf own (links_of kept.new.links) to kept.old.numbers.items
        kept.new.numbers.items) }
    ensures cost { steps.new ≤ steps.old + 1 }
{
    let number = kept.links.insert(own, steps)?;
    kept.numbers[to] = number;
    let row = kept.rows.get(from);
    kept.rows.set(to, row);
    Ok(())
}

/// The children of a node, in ascending order.
fn children_of<R: Rank>(alloc: Global, raw: &RawTree<R>, node: u32) -> Result<Vec<u32>, AllocError>
    requires { node < length raw.now.shapes }
    ensures { IfOk result (λ found. found.items ≡ child_nodes raw.now node) }
{
    let count = raw.nodes();
    let mut children = Vec::new(alloc);
    for later in node + 1..count {
        if raw.shape(later).parent == node {
            children.push(later)?;
        }
    }
    Ok(children)
}

/// Puts the numbers of the groups that a row names into the row at the place after those that are
/// kept before it, which may be the same one, and says whether each of these groups has a row left.
#[inline(always)]
fn child_groups<L: Ledger>(
    named: &mut NamedGroups,
    from: usize,
    to: usize,
    node: u32,
    children: &[u32],
    later: &[GroupLinks],
    steps: &mut Steps<L>,
) -> bool
    requires from { from < length named.old.rows }
    requires to { to ≤ from }
    requires wide { All (λ ks. length ks ≡ length children.now) named.old.rows }
    requires after { ComeAfter children.now node (length later.now) }
    requires few { AreFew (map links_of later.now) }
    ensures found { result ≡ true
        → are_met children.now node (map links_of later.now)
        (slice_index_or named.old.rows from []) (length children.now) ≡ true }
    ensures named { result ≡ true
        → slice_index_or named.new.rows to []
        ≡ groups_met children.now node (map links_of later.now)
        (slice_index_or named.old.rows from []) (length children.now) }
    ensures missing { result ≡ false
        → are_met children.now node (map links_of later.now)
        (slice_index_or named.old.rows from []) (length children.now) ≡ false }
    ensures others { named.new.rows
        ≡ slice_set named.old.rows to (slice_index_or named.new.rows to []) }
    ensures wide { All (λ ks. length ks ≡ length children.now) named.new.rows }
    ensures cost { steps.new ≤ steps.old + length children.now }
{
    for (place, child) in children.iter().enumerate() {
        let link = named.get(from, place);
        match later[(*child - node - 1) as usize].number_of(link, steps) {
            Some(number) => named.set(to, place, number as u32),
            None => return false,
        }
    }
    true
}
