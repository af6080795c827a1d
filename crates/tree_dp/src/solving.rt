//! From parts in groups to a well-formed tree.
ghost use Rattle.std.specs.Prelude.{◌≡◌, ℕ, ◌+◌, ◌*◌, ◌<◌, ◌≤◌, ◌∷◌, length, map, OnOk, IfOk};
ghost use Rattle.tdp_core.specs.TreeView.{tree_view, node_at, rows, row_count};
ghost use Rattle.tdp_core.specs.WellFormed.{IsLaidOut};
ghost use Rattle.semi_join.specs.GroupedTrees.{IsGrouped};
ghost use Rattle.tree_dp.specs.Progress.{IsSolvedFrom, AreLeastsFrom};
ghost use Rattle.tree_dp.specs.SolvedTrees.{IsReordered, IsSolved};

use crate::bests::bests_of;
use crate::order::order_groups;
use rank_key::Rank;
use semi_join::Reduced;
use std::alloc::Global;
use std::sync::ledger::Ledger;
use step_counter::{NoMemory, Steps};
use tdp_core::{NodeParts, Tree};

/// The well-formed tree of parts whose rows are in groups: with the rank of each row's least
/// subtree solution, and each group in heap order by these ranks. It has the same solutions. For m
/// nodes and N rows it takes at most 4 * m * (1 + N) steps, even if memory is refused.
pub fn solve<R: Rank, L: Ledger>(
    alloc: Global,
    reduced: Reduced<R>,
    steps: &mut Steps<L>,
) -> Result<Tree<R>, NoMemory>
    requires { IsGrouped R.KEYS R.key (tree_view reduced.nodes.items) }
    ensures solved { IfOk result (λ tree. IsSolved (tree_view reduced.nodes.items) tree) }
    ensures cost { steps.new
        ≤ steps.old + 4 * length reduced.nodes.items
        * (1 + row_count (tree_view reduced.nodes.items)) }
{
    let mut nodes = reduced.nodes;
    solve_nodes(alloc, nodes.as_mut_slice(), steps)?;
    Ok(Tree::from_parts(nodes))
}

/// Finds the best of each row and orders each group, from the last node to the root.
fn solve_nodes<R: Rank, L: Ledger>(
    alloc: Global,
    nodes: &mut [NodeParts<R>],
    steps: &mut Steps<L>,
) -> Result<(), NoMemory>
    requires laid_out { IsLaidOut R.KEYS R.key (tree_view nodes.old) }
    ensures reordered { OnOk result
        ((v : ℕ) → IsReordered (node_at (tree_view nodes.old) v)
        (node_at (tree_view nodes.new) v)) }
    ensures solved { OnOk result (IsSolvedFrom R.KEYS R.key (tree_view nodes.new) 0) }
    ensures cost { steps.new
        ≤ steps.old + row_count (tree_view nodes.old) * (length nodes.old + 2) }
{
    let mut leasts: Vec<Vec<R>> = Vec::new(alloc);
    for node in (0..nodes.len()).rev() {
        let own = solve_node(alloc, nodes, node, &leasts, steps)?;
        leasts.insert(0, own)?;
    }
    Ok(())
}

/// Finds the best of each row of a node and orders its groups. The later nodes must be solved, and
/// `leasts` has the least rank of each of their groups, in the order of the nodes. Returns the
/// least rank of each group of this node.
fn solve_node<R: Rank, L: Ledger>(
    alloc: Global,
    nodes: &mut [NodeParts<R>],
    node: usize,
    leasts: &[Vec<R>],
    steps: &mut Steps<L>,
) -> Result<Vec<R>, NoMemory>
    requires node { node < length nodes.old }
    requires laid_out { IsLaidOut R.KEYS R.key (tree_view nodes.old) }
    requires solved { IsSolvedFrom R.KEYS R.key (tree_view nodes.old) (node + 1) }
    requires leasts { AreLeastsFrom R.KEYS R.key (tree_view nodes.old) (node + 1)
        (map (λ ls. ls.items) leasts.now) }
    ensures reordered { OnOk result
        ((v : ℕ) → IsReordered (node_at (tree_view nodes.old) v)
        (node_at (tree_view nodes.new) v)) }
    ensures solved { OnOk result (IsSolvedFrom R.KEYS R.key (tree_view nodes.new) node) }
    ensures leasts { IfOk result
        (λ own. AreLeastsFrom R.KEYS R.key (tree_view nodes.new) node
        (own.items ∷ map (λ ls. ls.items) leasts.now)) }
    ensures cost { steps.new
        ≤ steps.old + rows (tree_view nodes.old) node * (length nodes.old + 2) }
{
    let best = bests_of(alloc, nodes, node, leasts, steps)?;
    let parts = &mut nodes[node];
    let own = order_groups(alloc, &mut parts.groups, best.as_slice(), steps)?;
    parts.best = best;
    Ok(own)
}
