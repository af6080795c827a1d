//! Raw trees, trees and groups, as they are read back.
ghost use Rattle.std.specs.Prelude.{◌≡◌, ℕ, ◌+◌, ◌^◌, ◌<◌, ◌≤◌, [], ◌∷◌, length, IfOk, OnOk};
ghost use Rattle.tdp_core.specs.RawView.{row_total, shape_children};
ghost use Rattle.tdp_core.specs.TreeView.{node_view, child_count, group_count, rows};

use crate::small_tree::small_tree;
use rank_key::{PackedRank, Rank, SumRank};
use std::alloc::Global;
use std::marker::Brand;
use std::sync::ledger::{Blank, Ledger};
use step_counter::{NoMemory, Steps};
use tdp_core::{Groups, NodeRow, NodeShape, RawTree, Tree};

/// Appends a row whose sums are 0.
fn add<R: Rank>(
    tree: &mut RawTree<R>,
    node: u32,
    number: u32,
    own: u32,
    children: &[u32],
) -> Result<(), NoMemory>
    requires slots { 16 ≤ R.ITEMS }
    requires number { number < 2 ^ 21 }
    requires node { node < length tree.old.shapes }
    requires children { length children.now ≡ shape_children tree.old.shapes node }
    requires room { row_total tree.old < 100 }
    ensures shapes { OnOk result (tree.new.shapes ≡ tree.old.shapes) }
    ensures room { OnOk result (row_total tree.new ≤ row_total tree.old + 1) }
{
    let count = tree.nodes();
    prove!(node < count);
    let rank = R::of_row(&[], tree.shape(node).item, number);
    let row = NodeRow { rank, row: number };
    tree.add_row(node, row, own, children)
}

/// A root of item 1 with one row, above a child of item 0 with two.
fn linked<R: Rank>(alloc: Global) -> Result<RawTree<R>, NoMemory>
    requires slots { 16 ≤ R.ITEMS }
    requires limit { 100 ≤ R.LIMIT }
    ensures nodes { IfOk result (λ t. length t.shapes ≡ 2) }
    ensures child { IfOk result (λ t. 0 < shape_children t.shapes 0) }
{
    let caps = [10; 8];
    let root = NodeShape {
        parent: 0,
        item: 1,
        caps,
    };
    let child = NodeShape {
        parent: 0,
        item: 0,
        caps,
    };
    let mut tree = RawTree::new(alloc, &[root, child])?;
    add(&mut tree, 0, 4, 9, &[7])?;
    add(&mut tree, 1, 1, 8, &[])?;
    add(&mut tree, 1, 3, 7, &[])?;
    Ok(tree)
}

/// Whether the rows of a node have these numbers and own links.
fn has_rows<R: Rank>(tree: &RawTree<R>, node: u32, rows: &[(u32, u32)]) -> bool
    requires { node < length tree.now.shapes }
{
    let count = tree.len(node);
    if count as usize != rows.len() {
        return false;
    }
    for i in 0..count {
        if (tree.row(node, i).row, tree.own(node, i)) != rows[i as usize] {
            return false;
        }
    }
    true
}

/// Whether the rows of a node name these links for its first child.
fn has_links<R: Rank>(tree: &RawTree<R>, node: u32, links: &[u32]) -> bool
    requires node { node < length tree.now.shapes }
    requires child { 0 < shape_children tree.now.shapes node }
{
    let count = tree.len(node);
    if count as usize != links.len() {
        return false;
    }
    for i in 0..count {
        if tree.link(node, i, 0) != links[i as usize] {
            return false;
        }
    }
    true
}

/// Whether that tree is read back.
fn is_linked<R: Rank>(tree: &RawTree<R>) -> bool
    requires nodes { length tree.now.shapes ≡ 2 }
    requires child { 0 < shape_children tree.now.shapes 0 }
{
    tree.nodes() == 2
        && tree.shape(0).item == 1
        && tree.shape(1).item == 0
        && has_rows(tree, 0, &[(4, 9)])
        && has_rows(tree, 1, &[(1, 8), (3, 7)])
        && has_links(tree, 0, &[7])
}

fn linked_is_read_back(alloc: Global) -> Result<bool, NoMemory> {
    let tree = linked::<SumRank>(alloc)?;
    Ok(is_linked(&tree))
}

#[test]
fn rows_of_a_raw_tree_are_read_back(rt: HostRuntime) {
    assert!(rt; linked_is_read_back(rt.alloc()) == Ok(true));
}

/// Whether the first group of a node has these members.
fn has_members<R: Rank, L: Ledger>(
    tree: &Tree<R>,
    node: u32,
    members: &[u32],
    steps: &mut Steps<L>,
) -> bool
    requires node { node < length tree.now }
    requires group { 0 < group_count tree.now node }
{
    let count = tree.group_len(node, 0);
    if count as usize != members.len() {
        return false;
    }
    for place in 0..count {
        if tree.member(node, 0, place, steps) != members[place as usize] {
            return false;
        }
    }
    true
}

/// Whether a node has one group, with these members.
fn has_group<R: Rank, L: Ledger>(
    tree: &Tree<R>,
    node: u32,
    members: &[u32],
    steps: &mut Steps<L>,
) -> bool
    requires { node < length tree.now }
{
    tree.groups(node) == 1 && has_members(tree, node, members, steps)
}

/// Whether the rows of a node have these numbers, and name these groups for its first child.
fn has_named<R: Rank, L: Ledger>(
    tree: &Tree<R>,
    node: u32,
    rows: &[(u32, u32)],
    steps: &mut Steps<L>,
) -> bool
    requires node { node < length tree.now }
    requires child { 0 < child_count tree.now node }
{
    let count = tree.len(node);
    if count as usize != rows.len() {
        return false;
    }
    for row in 0..count {
        let group = tree.group_of(node, row, 0, steps);
        if (tree.row_at(node, row, steps).row, group) != rows[row as usize] {
            return false;
        }
    }
    true
}

/// Whether the best of a row is more than the row's own rank.
fn adds<R: Rank, L: Ledger>(tree: &Tree<R>, node: u32, row: u32, steps: &mut Steps<L>) -> bool
    requires node { node < length tree.now }
    requires row { row < rows tree.now node }
{
    let own = tree.row_at(node, row, steps).rank;
    let best = tree.best(node, row, steps);
    R::less(&own, &best, steps)
}

/// Whether the best of each row of a node is greater than the row's own rank exactly in the rows
/// that `more` marks.
fn has_adds<R: Rank, L: Ledger>(
    tree: &Tree<R>,
    node: u32,
    more: &[bool],
    steps: &mut Steps<L>,
) -> bool
    requires { node < length tree.now }
{
    let count = tree.len(node);
    if count as usize != more.len() {
        return false;
    }
    for row in 0..count {
        if adds(tree, node, row, steps) != more[row as usize] {
            return false;
        }
    }
    true
}

fn has_two_nodes<R: Rank>(tree: &Tree<R>) -> bool
    requires { length tree.now ≡ 2 }
{
    tree.live() && tree.nodes() == 2 && tree.shape(1).parent == 0 && tree.child_place(1) == 0
}

/// Whether the small tree is read back.
fn is_small<R: Rank, L: Ledger>(tree: &Tree<R>, steps: &mut Steps<L>) -> bool
    requires nodes { length tree.now ≡ 2 }
    requires child { child_count tree.now 0 ≡ 1 }
{
    has_two_nodes(tree)
        && has_named(tree, 0, &[(4, 0)], steps)
        && has_group(tree, 0, &[0], steps)
        && has_group(tree, 1, &[1, 0], steps)
        && has_adds(tree, 0, &[true], steps)
        && has_adds(tree, 1, &[false, false], steps)
}

fn small_is_read<R: Rank, L: Ledger>(alloc: Global, blank: Blank) -> Result<bool, NoMemory>
    requires slots { 2 ≤ R.ITEMS }
    requires limit { 100 ≤ R.LIMIT }
    requires name { blank.name ≡ L.name }
    requires parts { blank.parts ≡ L.parts }
    requires share { 0 < L.parts }
{
    let mut steps: Steps<L> = Steps::new(blank);
    let tree: Tree<R> = small_tree(alloc, &mut steps)?;
    Ok(is_small(&tree, &mut steps))
}

#[test]
fn a_tree_of_two_nodes_is_read(rt: HostRuntime) {
    assert!(rt; small_is_read::<SumRank, Brand>(rt.alloc(), Blank::new(1)) == Ok(true));
    assert!(rt; small_is_read::<PackedRank, Brand>(rt.alloc(), Blank::new(1)) == Ok(true));
}

fn are_groups(groups: &Groups, members: &[&[u32]]) -> bool {
    if groups.len() != members.len() {
        return false;
    }
    for group in 0..members.len() {
        if groups.group(group) != members[group] {
            return false;
        }
    }
    true
}

/// Whether the members of one of four groups are exchanged, and a fifth group is pushed.
fn exchanges(groups: &mut Groups) -> Result<bool, NoMemory> {
    if groups.len() != 4 || groups.group(2).len() != 2 {
        return Ok(false);
    }
    groups.replace(2, &[2, 0]);
    groups.push(&[5])?;
    Ok(are_groups(groups, &[&[1], &[3], &[2, 0], &[], &[5]]))
}

fn groups_change(alloc: Global) -> Result<bool, NoMemory> {
    let mut groups = Groups::of_numbers(alloc, &[2, 0, 2, 1], 4)?;
    if !are_groups(&groups, &[&[1], &[3], &[0, 2], &[]]) {
        return Ok(false);
    }
    exchanges(&mut groups)
}

#[test]
fn groups_are_made_replaced_and_pushed(rt: HostRuntime) {
    assert!(rt; groups_change(rt.alloc()) == Ok(true));
    assert!(rt; Groups::new(rt.alloc()).is_empty());
}
