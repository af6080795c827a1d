//! What is known of an answer's key before the row of a node is chosen.
ghost use Rattle.std.specs.Prelude.{◌≡◌, ◌≤◌, ◌<◌, ℕ, [], length, map, option_map, slice_index, slice_index_or};
ghost use Rattle.std.specs.Prelude.{MatchOption};
ghost use Rattle.tdp_core.specs.RawView.{raw_len};
ghost use Rattle.proof_check.specs.BoundedRows.{bound_ranks, named_bound};
ghost use Rattle.proof_check.specs.Levels.{IsBase, IsOpenPlace, IsGroupOf, IsNoOpenPlace, IsReady, base_part};

use crate::bounded::BoundedTree;
use crate::covering::named_rank;
use join_tree::JoinTree;
use rank_key::Rank;
use std::sync::ledger::Ledger;
use step_counter::Steps;

/// Where a beginning may be left: at the group of some bound.
#[derive(Clone, Copy)]
pub(crate) struct OpenPlace<R> {
    /// The number of the group's bound.
    pub(crate) group: u32,
    /// The ranks of the rows before, and of the bounds of the other groups that these name.
    pub(crate) base: R,
}

/// The place at which a beginning may be left at a node. `None` if some group that is open then has
/// no bound.
pub(crate) fn open_place_of<R: Rank, L: Ledger>(
    join: &JoinTree,
    tree: &BoundedTree<R>,
    node: u32,
    start: &[u32; 16],
    steps: &mut Steps<L>,
) -> Option<OpenPlace<R>>
    requires ready { IsReady join.now tree.now R.KEYS R.key node }
    requires rows { (q : ℕ) → q < node → slice_index start.now q < raw_len tree.now.raw q }
    ensures { MatchOption result (IsNoOpenPlace join.now tree.now R.KEYS R.key node start.now)
        (IsOpenPlace join.now tree.now R.KEYS R.key node start.now) }
{
    let group = group_of(join, tree, node, start)?;
    let base = base_of(join, tree, node, start, steps)?;
    Some(OpenPlace { group, base })
}

/// The number of the bound of the group from which the row of a node is chosen, if there is one.
fn group_of<R: Rank>(
    join: &JoinTree,
    tree: &BoundedTree<R>,
    node: u32,
    start: &[u32; 16],
) -> Option<u32>
    requires ready { IsReady join.now tree.now R.KEYS R.key node }
    requires rows { (q : ℕ) → q < node → slice_index start.now q < raw_len tree.now.raw q }
    ensures { MatchOption result ((g : ℕ) → g < length (bound_ranks tree.now node)
        → IsGroupOf join.now tree.now R.KEYS R.key node start.now g → ⊥)
        (λ g. (g < length (bound_ranks tree.now node))
        × IsGroupOf join.now tree.now R.KEYS R.key node start.now g) }
{
    if node == 0 {
        return if bound_count(tree, node) == 0 {
            None
        } else {
            Some(0)
        };
    }
    let above = join.parent[node as usize];
    named_number(tree, node, start[above as usize])
}

/// How many bounds a node has.
pub(crate) fn bound_count<R: Rank>(tree: &BoundedTree<R>, node: u32) -> usize
    requires { node < length tree.now.bounds }
    ensures { result ≡ length (bound_ranks tree.now node) }
{
    tree.bounds[node as usize].ranks.len()
}

/// The number of the bound of the group of a node that a row of its parent names, if it has one.
fn named_number<R: Rank>(tree: &BoundedTree<R>, node: u32, above: u32) -> Option<u32>
    requires node { node < length tree.now.bounds }
    requires above { above
        < length (slice_index_or (map (λ b. b.named.items) tree.now.bounds) node []) }
    ensures { result ≡ named_bound tree.now node above }
{
    tree.bounds[node as usize].named[above as usize]
}

/// The ranks of the rows before a node together with the bounds of the other groups that these
/// name. `None` if one of these groups has no bound.
fn base_of<R: Rank, L: Ledger>(
    join: &JoinTree,
    tree: &BoundedTree<R>,
    node: u32,
    start: &[u32; 16],
    steps: &mut Steps<L>,
) -> Option<R>
    requires ready { IsReady join.now tree.now R.KEYS R.key node }
    requires rows { (q : ℕ) → q < node → slice_index start.now q < raw_len tree.now.raw q }
    ensures { IsBase join.now tree.now R.KEYS R.key node start.now (option_map R.key result) }
{
    let mut base = R::zero();
    for at in 0..tree.raw.nodes() {
        let part = base_part(join, tree, node, start, at)?;
        base = R::join(base, part, steps);
    }
    Some(base)
}

/// What one node gives to it.
fn base_part<R: Rank>(
    join: &JoinTree,
    tree: &BoundedTree<R>,
    node: u32,
    start: &[u32; 16],
    at: u32,
) -> Option<R>
    requires ready { IsReady join.now tree.now R.KEYS R.key node }
    requires at { at < join.now.count }
    requires rows { (q : ℕ) → q < node → slice_index start.now q < raw_len tree.now.raw q }
    ensures { option_map R.key result ≡ base_part join.now tree.now R.KEYS R.key node start.now at }
{
    if at < node {
        return Some(tree.raw.row(at, start[at as usize]).rank);
    }
    let above = join.parent[at as usize];
    if at == node || above >= node {
        return Some(R::zero());
    }
    named_rank(tree, at, start[above as usize])
}
