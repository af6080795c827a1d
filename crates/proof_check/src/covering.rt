//! Rows compared with the bounds of their groups.
ghost use Rattle.std.specs.Prelude.{◌≡◌, ◌↔◌, ◌≤◌, ◌<◌, ℕ, true, false, List, [], Some, IsTrue, length, map};
ghost use Rattle.std.specs.Prelude.{option_map, slice_index_or, MatchOption};
ghost use Rattle.anyk_model.specs.Table.{Table};
ghost use Rattle.anyk_model.specs.Query.{Query as SelectQuery};
ghost use Rattle.join_tree.specs.Rerooting.{IsTree};
ghost use Rattle.tdp_core.specs.RawView.{raw_len, raw_number};
ghost use Rattle.proof_model.specs.Certificate.{Certificate};
ghost use Rattle.proof_model.specs.QueryProblem.{problem_in};
ghost use Rattle.proof_model.specs.Valid.{IsCovered};
ghost use Rattle.proof_check.specs.BoundedRows.{IsBounded, bound_ranks, named_bound, own_bound, rank_of_bound};
ghost use Rattle.proof_check.specs.Coverage.{AllCovered, HasWeakRow, IsFirstWeak};
ghost use Rattle.proof_check.specs.LowBounds.{IsBoundedTree, IsLow, OfEach};

use crate::bounded::BoundedTree;
use join_tree::JoinTree;
use rank_key::Rank;
use std::sync::ledger::Ledger;
use step_counter::Steps;

/// The first node with a row that is not covered: its own group has no bound, or one that is
/// greater than the rank of the row with the bounds that it names. Nodes count from 0.
pub(crate) fn first_weak<R: Rank, L: Ledger>(
    join: &JoinTree,
    tree: &BoundedTree<R>,
    steps: &mut Steps<L>,
) -> Option<u32>
    requires ordered { IsTree join.now.count join.now.atom join.now.parent }
    requires bounded { IsBoundedTree join.now R.KEYS R.key tree.now }
    ensures { OfEach join.now R.KEYS R.key tree.now (λ query tables c.
        MatchOption result
        ((v : ℕ) → v < (problem_in query tables join.now).nodes
        → AllCovered (problem_in query tables join.now) c v)
        (IsFirstWeak (problem_in query tables join.now) c)) }
{
    for node in 0..tree.raw.nodes() {
        if has_weak_row(join, tree, node, steps) {
            return Some(node);
        }
    }
    None
}

/// Whether some row of a node is not covered.
fn has_weak_row<R: Rank, L: Ledger>(
    join: &JoinTree,
    tree: &BoundedTree<R>,
    node: u32,
    steps: &mut Steps<L>,
) -> bool
    requires ordered { IsTree join.now.count join.now.atom join.now.parent }
    requires bounded { IsBoundedTree join.now R.KEYS R.key tree.now }
    requires node { node < length tree.now.raw.shapes }
    ensures covered { result ≡ false → OfEach join.now R.KEYS R.key tree.now (λ query tables c.
        AllCovered (problem_in query tables join.now) c node) }
    ensures weak { result ≡ true → OfEach join.now R.KEYS R.key tree.now (λ query tables c.
        HasWeakRow (problem_in query tables join.now) c node) }
{
    for row in 0..tree.raw.len(node) {
        if !is_covered(join, tree, node, row, steps) {
            return true;
        }
    }
    false
}

/// Whether a row's own group has a bound that is not greater than the rank of the row with the
/// bounds that it names. If it names a group without a bound, nothing is asked of it.
fn is_covered<R: Rank, L: Ledger>(
    join: &JoinTree,
    tree: &BoundedTree<R>,
    node: u32,
    row: u32,
    steps: &mut Steps<L>,
) -> bool
    requires ordered { IsTree join.now.count join.now.atom join.now.parent }
    requires bounded { IsBoundedTree join.now R.KEYS R.key tree.now }
    requires node { node < length tree.now.raw.shapes }
    requires row { row < raw_len tree.now.raw node }
    ensures { OfEach join.now R.KEYS R.key tree.now (λ query tables c.
        IsTrue result ↔ IsCovered (problem_in query tables join.now) c node
        (raw_number tree.now.raw node row)) }
{
    match low_bound(join, tree, node, row, steps) {
        None => true,
        Some(low) => match own_rank(tree, node, row) {
            None => false,
            Some(own) => !R::less(&low, &own, steps),
        },
    }
}

/// The rank of a row of a node together with the bounds of the groups that it names, one for each
/// child of the node. `None` exactly if one of these groups has no bound. Nodes and rows count from
/// 0.
pub fn low_bound<R: Rank, L: Ledger>(
    join: &JoinTree,
    tree: &BoundedTree<R>,
    node: u32,
    row: u32,
    steps: &mut Steps<L>,
) -> Option<R>
    requires ordered { IsTree join.now.count join.now.atom join.now.parent }
    requires bounded { IsBoundedTree join.now R.KEYS R.key tree.now }
    requires node { node < join.now.count }
    requires row { row < raw_len tree.now.raw node }
    ensures { (query : SelectQuery) (tables : List Table) (c : Certificate)
        → length query.order ≤ R.KEYS
        → IsBounded query tables join.now R.KEYS R.key c tree.now
        → IsLow query tables join.now R.KEYS c node (raw_number tree.now.raw node row)
        (option_map R.key result) }
{
    let mut low = tree.raw.row(node, row).rank;
    let nodes = tree.raw.nodes();
    for child in node + 1..nodes {
        if join.parent[child as usize] == node {
            let bound = named_rank(tree, child, row)?;
            low = R::join(low, bound, steps);
        }
    }
    Some(low)
}

/// The rank of the bound of a row's own group, if it has one.
fn own_rank<R: Rank>(tree: &BoundedTree<R>, node: u32, row: u32) -> Option<R>
    requires node { node < length tree.now.bounds }
    requires row { row < length (slice_index_or (map (λ b. b.own.items) tree.now.bounds) node []) }
    requires each { (b : ℕ) → own_bound tree.now node row ≡ Some b
        → b < length (bound_ranks tree.now node) }
    ensures { option_map R.key result
        ≡ option_map (rank_of_bound tree.now R.KEYS R.key node) (own_bound tree.now node row) }
{
    let bounds = &tree.bounds[node as usize];
    let number = bounds.own[row as usize]?;
    Some(bounds.ranks[number as usize])
}

/// The rank of the bound of the group of a node that a row of its parent names, if that group has
/// one. Nodes and rows count from 0.
pub fn named_rank<R: Rank>(tree: &BoundedTree<R>, node: u32, above: u32) -> Option<R>
    requires node { node < length tree.now.bounds }
    requires above { above
        < length (slice_index_or (map (λ b. b.named.items) tree.now.bounds) node []) }
    requires each { (b : ℕ) → named_bound tree.now node above ≡ Some b
        → b < length (bound_ranks tree.now node) }
    ensures { option_map R.key result
        ≡ option_map (rank_of_bound tree.now R.KEYS R.key node) (named_bound tree.now node above) }
{
    let bounds = &tree.bounds[node as usize];
    let number = bounds.named[above as usize]?;
    Some(bounds.ranks[number as usize])
}
