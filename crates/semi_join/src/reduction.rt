//! The reduction of a raw tree, from the last node up to the root.
ghost use Rattle.std.specs.Prelude.{◌≡◌, ◌+◌, ◌*◌, ◌≤◌, [], length, IfOk, OnOk};
ghost use Rattle.tdp_core.specs.RawView.{row_total};
ghost use Rattle.tdp_core.specs.TreeView.{tree_view};
ghost use Rattle.semi_join.specs.ReducedTrees.{IsReduced};

use crate::group_links::GroupLinks;
use crate::node::reduce_node;
use rank_key::Rank;
use std::alloc::Global;
use std::sync::ledger::Ledger;
use step_counter::{NoMemory, Steps};
use tdp_core::{NodeParts, RawTree};

/// Parts of a tree whose rows all extend to a solution of their subtree, with the rows of each node
/// in groups. The least rank of each row is not known yet, and the groups have no order.
#[derive(Drop)]
pub struct Reduced<R> {
    pub nodes: Vec<NodeParts<R>>,
}

/// Drops the rows that extend to no solution of their subtree, from the last node up to the root,
/// and puts those that are left into groups. Each look-up of a link that a row names and each
/// insertion of a link counts one step, whether links are found by a table or by hashing; laying
/// out the tables and the groups counts none. The rows that are left stay in the memory of the
/// raw rows. `NoMemory` if memory is refused.
pub fn reduce<R: Rank, L: Ledger>(
    alloc: Global,
    raw: RawTree<R>,
    steps: &mut Steps<L>,
) -> Result<Reduced<R>, NoMemory>
    ensures reduced { IfOk result
        (λ reduced. IsReduced R.KEYS R.key raw (tree_view reduced.nodes.items)) }
    ensures cost { steps.new ≤ steps.old + 2 * length raw.shapes * (1 + row_total raw) }
{
    let mut tree = raw;
    let mut nodes = Vec::new(alloc);
    let mut later = Vec::new(alloc);
    let reduced = reduce_nodes(alloc, &mut tree, &mut nodes, &mut later, steps);
    reduced.and(Ok(Reduced { nodes }))
}

/// Reduces the nodes of a raw tree, from the last one up to the root, and takes each one out of it.
/// `later` gets the links of the groups of each. It owns nothing that it fills, so that an error
/// leaves little to drop.
fn reduce_nodes<R: Rank, L: Ledger>(
    alloc: Global,
    tree: &mut RawTree<R>,
    nodes: &mut Vec<NodeParts<R>>,
    later: &mut Vec<GroupLinks>,
    steps: &mut Steps<L>,
) -> Result<(), NoMemory>
    requires nodes { nodes.old.items ≡ [] }
    requires later { later.old.items ≡ [] }
    ensures reduced { OnOk result (IsReduced R.KEYS R.key tree.old (tree_view nodes.new.items)) }
    ensures cost { steps.new
        ≤ steps.old + 2 * length tree.old.shapes * (1 + row_total tree.old) }
{
    for node in (0..tree.nodes()).rev() {
        let grouped = reduce_node(alloc, tree, node, later, steps)?;
        nodes.insert(0, grouped.parts)?;
        later.insert(0, grouped.links)?;
    }
    Ok(())
}
