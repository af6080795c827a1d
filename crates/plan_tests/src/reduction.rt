//! What the reduction leaves of raw trees.
ghost use Rattle.std.specs.Prelude.{◌≡◌, ℕ, ◌+◌, ◌^◌, ◌<◌, ◌≤◌, length, IfOk, OnOk};
ghost use Rattle.plan_tests.specs.ChainTrees.{IsChain, chain_children};
ghost use Rattle.tdp_core.specs.RawView.{row_total};

use rank_key::{Rank, SumRank};
use semi_join::{Reduced, reduce};
use std::alloc::Global;
use std::marker::Brand;
use std::sync::ledger::{Blank, Ledger};
use step_counter::{NoMemory, Steps};
use tdp_core::{NodeParts, NodeRow, NodeShape, RawTree};

/// A tree without rows: three nodes, each below the one before.
fn chain<R: Rank>(alloc: Global) -> Result<RawTree<R>, NoMemory>
    requires slots { 16 ≤ R.ITEMS }
    requires limit { 2 ^ 127 ≤ R.LIMIT }
    ensures chain { IfOk result (λ t. IsChain t.shapes) }
    ensures empty { IfOk result (λ t. row_total t ≡ 0) }
{
    let caps = [0; 8];
    let first = NodeShape {
        parent: 0,
        item: 0,
        caps,
    };
    let second = NodeShape {
        parent: 0,
        item: 1,
        caps,
    };
    let third = NodeShape {
        parent: 1,
        item: 2,
        caps,
    };
    let tree = RawTree::new(alloc, &[first, second, third])?;
    Ok(tree)
}

/// Appends a row whose sums are 0.
fn add<R: Rank>(
    tree: &mut RawTree<R>,
    node: u32,
    number: u32,
    own: u32,
    children: &[u32],
) -> Result<(), NoMemory>
    requires slots { 16 ≤ R.ITEMS }
    requires limit { 2 ^ 127 ≤ R.LIMIT }
    requires chain { IsChain tree.old.shapes }
    requires node { node < 3 }
    requires number { number < 100 }
    requires children { length children.now ≡ chain_children node }
    requires room { row_total tree.old < 100 }
    ensures chain { OnOk result (IsChain tree.new.shapes) }
    ensures room { OnOk result (row_total tree.new ≤ row_total tree.old + 1) }
{
    let count = tree.nodes();
    prove!(node < count);
    let rank = R::of_row(&[], tree.shape(node).item, number);
    let row = NodeRow { rank, row: number };
    tree.add_row(node, row, own, children)
}

/// What the reduction leaves of a tree, with the steps counted by a ledger.
fn reduced_by<R: Rank, L: Ledger>(
    alloc: Global,
    raw: RawTree<R>,
    blank: Blank,
) -> Result<Reduced<R>, NoMemory>
    requires name { blank.name ≡ L.name }
    requires parts { blank.parts ≡ L.parts }
    requires share { 0 < L.parts }
{
    let mut steps: Steps<L> = Steps::new(blank);
    reduce(alloc, raw, &mut steps)
}

/// Whether the rows of a node have these numbers.
fn has_numbers<R: Rank>(parts: &NodeParts<R>, numbers: &[u32]) -> bool {
    if parts.rows.len() != numbers.len() {
        return false;
    }
    for place in 0..numbers.len() {
        if parts.rows.get(place).row != numbers[place] {
            return false;
        }
    }
    true
}

/// Whether these are the rows of each group of a node.
fn has_members<R: Rank>(parts: &NodeParts<R>, members: &[&[u32]]) -> bool {
    if parts.groups.len() != members.len() {
        return false;
    }
    for number in 0..members.len() {
        if parts.groups.group(number) != members[number] {
            return false;
        }
    }
    true
}

/// Whether the rows of a node, which has one child, name these groups.
fn has_named<R: Rank>(parts: &NodeParts<R>, named: &[u32]) -> bool {
    if parts.to_child.len() != named.len() {
        return false;
    }
    for row in 0..named.len() {
        if parts.to_child.width() != 1 || parts.to_child.get(row, 0) != named[row] {
            return false;
        }
    }
    true
}

/// Row 2 of the second node has no partner, and so row 6 of the root has none either.
fn link_partly<R: Rank>(tree: &mut RawTree<R>) -> Result<(), NoMemory>
    requires slots { 16 ≤ R.ITEMS }
    requires limit { 2 ^ 127 ≤ R.LIMIT }
    requires chain { IsChain tree.old.shapes }
    requires empty { row_total tree.old ≡ 0 }
{
    add(tree, 0, 4, 9, &[7])?;
    add(tree, 0, 6, 8, &[5])?;
    add(tree, 0, 7, 3, &[2])?;
    add(tree, 1, 1, 7, &[3])?;
    add(tree, 1, 2, 5, &[1])?;
    add(tree, 1, 5, 2, &[3])?;
    add(tree, 2, 0, 3, &[])?;
    add(tree, 2, 8, 3, &[])
}

/// What is left of that tree.
fn is_partly_linked<R: Rank>(nodes: &[NodeParts<R>]) -> bool {
    let [root, middle, last] = nodes else {
        return false;
    };
    has_numbers(root, &[4, 7])
        && has_named(root, &[0, 1])
        && has_members(root, &[&[0, 1]])
        && has_numbers(middle, &[1, 5])
        && has_named(middle, &[0, 0])
        && has_members(middle, &[&[0], &[1]])
        && has_members(last, &[&[0, 1]])
}

fn partly_linked_is_reduced<R: Rank, L: Ledger>(
    alloc: Global,
    blank: Blank,
) -> Result<bool, NoMemory>
    requires slots { 16 ≤ R.ITEMS }
    requires limit { 2 ^ 127 ≤ R.LIMIT }
    requires name { blank.name ≡ L.name }
    requires parts { blank.parts ≡ L.parts }
    requires share { 0 < L.parts }
{
    let mut raw: RawTree<R> = chain(alloc)?;
    link_partly(&mut raw)?;
    let reduced = reduced_by::<R, L>(alloc, raw, blank)?;
    Ok(is_partly_linked(reduced.nodes.as_slice()))
}

#[test]
fn rows_without_partner_go(rt: HostRuntime) {
    let reduced = partly_linked_is_reduced::<SumRank, Brand>(rt.alloc(), Blank::new(1));
    assert!(rt; reduced == Ok(true));
}

/// No row of the second node has a partner.
fn link_none<R: Rank>(tree: &mut RawTree<R>) -> Result<(), NoMemory>
    requires slots { 16 ≤ R.ITEMS }
    requires limit { 2 ^ 127 ≤ R.LIMIT }
    requires chain { IsChain tree.old.shapes }
    requires empty { row_total tree.old ≡ 0 }
{
    add(tree, 0, 4, 9, &[7])?;
    add(tree, 1, 1, 7, &[3])?;
    add(tree, 2, 8, 5, &[])
}

/// Whether the first two of three nodes are left without rows, and the root without groups.
fn is_emptied<R: Rank>(nodes: &[NodeParts<R>]) -> bool {
    let [root, middle, _last] = nodes else {
        return false;
    };
    root.rows.is_empty() && root.groups.is_empty() && middle.rows.is_empty()
}

fn unlinked_is_reduced<R: Rank, L: Ledger>(alloc: Global, blank: Blank) -> Result<bool, NoMemory>
    requires slots { 16 ≤ R.ITEMS }
    requires limit { 2 ^ 127 ≤ R.LIMIT }
    requires name { blank.name ≡ L.name }
    requires parts { blank.parts ≡ L.parts }
    requires share { 0 < L.parts }
{
    let mut raw: RawTree<R> = chain(alloc)?;
    link_none(&mut raw)?;
    let reduced = reduced_by::<R, L>(alloc, raw, blank)?;
    Ok(is_emptied(reduced.nodes.as_slice()))
}

#[test]
fn a_tree_without_solutions_is_emptied(rt: HostRuntime) {
    let reduced = unlinked_is_reduced::<SumRank, Brand>(rt.alloc(), Blank::new(1));
    assert!(rt; reduced == Ok(true));
}
