//! The numbers of bounds, row by row.
ghost use Rattle.std.specs.Prelude.{◌≡◌, ◌≤◌, ◌<◌, ℕ, List, [], length, map, nat_eq, position, slice_index_or, IfOk, OnOk, Some};
ghost use Rattle.tdp_model.specs.NodeRows.{most_node_rows};
ghost use Rattle.tdp_core.specs.RawView.{raw_len, shape_children};
ghost use Rattle.proof_check.specs.Lines.{AreNamed, AreNumbers, row_link};

use crate::bounded::NodeBounds;
use crate::groups::group_link;
use crate::subtree::child_place;
use link_index::HashedIndex;
use rank_key::Rank;
use std::alloc::{AllocError, Global};
use std::sync::ledger::Ledger;
use step_counter::Steps;
use tdp_core::RawTree;

/// The number of the group with this link, if it is there.
fn group_number<L: Ledger>(groups: &HashedIndex, link: u32, steps: &mut Steps<L>) -> Option<u32>
    requires { length groups.now ≤ most_node_rows }
    ensures { result ≡ position (nat_eq link) groups.now }
{
    match groups.number_of(link, steps) {
        Some(number) => Some(number as u32),
        None => None,
    }
}

/// The link of a row's own group, or, given the place of a child, of the group that the row names
/// there.
fn row_link<R: Rank>(raw: &RawTree<R>, node: u32, row: u32, child: Option<u32>) -> u32
    requires node { node < length raw.now.shapes }
    requires row { row < raw_len raw.now node }
    requires child { (q : ℕ) → child ≡ Some q → q < shape_children raw.now.shapes node }
    ensures { result ≡ row_link raw.now node row child }
{
    match child {
        None => group_link(raw, node, row),
        Some(child) => raw.link(node, row, child),
    }
}

/// For each row of a node the number of its own group, or, given the place of a child, of the group
/// that the row names there.
fn row_numbers<R: Rank, L: Ledger>(
    alloc: Global,
    raw: &RawTree<R>,
    node: u32,
    child: Option<u32>,
    groups: &HashedIndex,
    steps: &mut Steps<L>,
) -> Result<Vec<Option<u32>>, AllocError>
    requires node { node < length raw.now.shapes }
    requires child { (q : ℕ) → child ≡ Some q → q < shape_children raw.now.shapes node }
    requires groups { length groups.now ≤ most_node_rows }
    ensures { IfOk result
        (λ numbers. AreNumbers raw.now groups.now node child (raw_len raw.now node) numbers.items) }
{
    let count = raw.len(node);
    let mut numbers = Vec::with_capacity(alloc, count as usize)?;
    for row in 0..count {
        let link = row_link(raw, node, row, child);
        let number = group_number(groups, link, steps);
        numbers.push(number)?;
    }
    Ok(numbers)
}

/// Names the groups of a node for its rows and for those of its parent. The ranks of the bounds
/// stay.
pub(crate) fn name_groups<R: Rank, L: Ledger>(
    alloc: Global,
    raw: &RawTree<R>,
    node: u32,
    groups: &HashedIndex,
    bounds: &mut NodeBounds<R>,
    steps: &mut Steps<L>,
) -> Result<(), AllocError>
    requires node { node < length raw.now.shapes }
    requires groups { length groups.now ≤ most_node_rows }
    ensures named { OnOk result
        (AreNamed raw.now groups.now node bounds.new.own.items bounds.new.named.items) }
    ensures ranks { bounds.new.ranks ≡ bounds.old.ranks }
{
    let own = row_numbers(alloc, raw, node, None, groups, steps)?;
    bounds.own = own;
    if node > 0 {
        let parent = raw.shape(node).parent;
        let child = child_place(raw, node);
        let named = row_numbers(alloc, raw, parent, Some(child), groups, steps)?;
        bounds.named = named;
    }
    Ok(())
}

/// Names the groups of all nodes for their rows and for those of their parents. The ranks of the
/// bounds stay.
pub(crate) fn name_all<R: Rank, L: Ledger>(
    alloc: Global,
    raw: &RawTree<R>,
    groups: &[HashedIndex],
    bounds: &mut [NodeBounds<R>],
    steps: &mut Steps<L>,
) -> Result<(), AllocError>
    requires each_group { length groups.now ≡ length raw.now.shapes }
    requires each_node { length bounds.old ≡ length raw.now.shapes }
    requires few { (v : ℕ) → v < length raw.now.shapes
        → length (slice_index_or groups.now v []) ≤ most_node_rows }
    ensures named { OnOk result ((v : ℕ) → v < length raw.now.shapes
        → AreNamed raw.now (slice_index_or groups.now v []) v
        (slice_index_or (map (λ b. b.own.items) bounds.new) v [])
        (slice_index_or (map (λ b. b.named.items) bounds.new) v [])) }
    ensures ranks { map (λ b. b.ranks.items) bounds.new ≡ map (λ b. b.ranks.items) bounds.old }
{
    for node in 0..raw.nodes() {
        name_groups(
            alloc,
            raw,
            node,
            &groups[node as usize],
            &mut bounds[node as usize],
            steps,
        )?;
    }
    Ok(())
}
