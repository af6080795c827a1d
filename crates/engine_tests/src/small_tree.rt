//! A small tree for the tests of both engines.
ghost use Rattle.std.specs.Prelude.{◌≡◌, ◌≤◌, ◌<◌, [], ◌∷◌, length, IfOk};
ghost use Rattle.engine_tests.specs.SmallNodes.{small_shape, root_node, leaf_node};
ghost use Rattle.tdp_core.specs.TreeView.{node_view, child_count, group_count};
ghost use Rattle.tdp_core.specs.WellFormed.{IsTieFreeTree};

use rank_key::Rank;
use std::alloc::Global;
use std::sync::ledger::Ledger;
use step_counter::{NoMemory, Steps};
use tdp_core::{Groups, NamedGroups, NodeParts, NodeRow, NodeRows, NodeShape, Tree};

/// The rows of the small tree's answers, in their order.
pub(crate) const ANSWERS: &[[u32; 4]; 2] = &[[1, 4, 0, 0], [3, 4, 0, 0]];

fn one<T: Drop>(alloc: Global, first: T) -> Result<Vec<T>, NoMemory>
    ensures { IfOk result (λ v. v.items ≡ first ∷ []) }
{
    let mut items = Vec::new(alloc);
    items.push(first)?;
    Ok(items)
}

fn two<T: Drop>(alloc: Global, first: T, second: T) -> Result<Vec<T>, NoMemory>
    ensures { IfOk result (λ v. v.items ≡ first ∷ second ∷ []) }
{
    let mut items = one(alloc, first)?;
    items.push(second)?;
    Ok(items)
}

/// One row, with room for another.
fn one_row<R: Rank>(alloc: Global, first: NodeRow<R>) -> Result<NodeRows<R>, NoMemory>
    ensures { IfOk result (λ rows. rows ≡ first ∷ []) }
{
    let mut rows = NodeRows::with_capacity(alloc, 2)?;
    rows.push(first)?;
    Ok(rows)
}

/// Two rows, in this order.
fn two_rows<R: Rank>(
    alloc: Global,
    first: NodeRow<R>,
    second: NodeRow<R>,
) -> Result<NodeRows<R>, NoMemory>
    ensures { IfOk result (λ rows. rows ≡ first ∷ second ∷ []) }
{
    let mut rows = one_row(alloc, first)?;
    rows.push(second)?;
    Ok(rows)
}

fn one_group(alloc: Global, members: &[u32]) -> Result<Groups, NoMemory>
    ensures { IfOk result (λ groups. groups ≡ members.now ∷ []) }
{
    let mut groups = Groups::new(alloc);
    groups.push(members)?;
    Ok(groups)
}

/// One row, which names group 0 of the only child.
fn first_group_named(alloc: Global) -> Result<NamedGroups, NoMemory>
    ensures { IfOk result (λ named. named.rows ≡ (0 ∷ []) ∷ []) }
{
    let mut named = NamedGroups::new(alloc, 1, 1)?;
    named.push(&[0])?;
    Ok(named)
}

/// Two rows of a node without children.
fn none_named(alloc: Global) -> Result<NamedGroups, NoMemory>
    ensures { IfOk result (λ named. named.rows ≡ [] ∷ [] ∷ []) }
{
    let mut named = NamedGroups::new(alloc, 0, 2)?;
    named.push(&[])?;
    named.push(&[])?;
    Ok(named)
}

/// The shape of a node of this item, the root or a child of it.
fn shape_of(item: u32) -> NodeShape
    ensures { result ≡ small_shape item }
{
    NodeShape {
        parent: 0,
        item,
        caps: [10; 8],
    }
}

fn root_parts<R: Rank>(alloc: Global, top: R, whole: R) -> Result<NodeParts<R>, NoMemory>
    ensures { IfOk result (λ p. node_view p ≡ root_node top whole) }
{
    Ok(NodeParts {
        shape: shape_of(1),
        rows: one_row(alloc, NodeRow { rank: top, row: 4 })?,
        to_child: first_group_named(alloc)?,
        groups: one_group(alloc, &[0])?,
        best: one(alloc, whole)?,
    })
}

fn leaf_parts<R: Rank>(alloc: Global, later: R, sooner: R) -> Result<NodeParts<R>, NoMemory>
    ensures { IfOk result (λ p. node_view p ≡ leaf_node later sooner) }
{
    Ok(NodeParts {
        shape: shape_of(0),
        rows: two_rows(
            alloc,
            NodeRow {
                rank: later,
                row: 3,
            },
            NodeRow {
                rank: sooner,
                row: 1,
            },
        )?,
        to_child: none_named(alloc)?,
        groups: one_group(alloc, &[1, 0])?,
        best: two(alloc, later, sooner)?,
    })
}

/// A root with one row, above a child with two rows; the second is the lesser.
pub(crate) fn small_tree<R: Rank, L: Ledger>(
    alloc: Global,
    steps: &mut Steps<L>,
) -> Result<Tree<R>, NoMemory>
    requires slots { 2 ≤ R.ITEMS }
    requires limit { 100 ≤ R.LIMIT }
    ensures tie_free { IfOk result IsTieFreeTree }
    ensures nodes { IfOk result (λ t. length t ≡ 2) }
    ensures child { IfOk result (λ t. child_count t 0 ≡ 1) }
    ensures group { IfOk result (λ t. 0 < group_count t 0) }
{
    let top = R::of_row(&[], 1, 4);
    let later = R::of_row(&[], 0, 3);
    let sooner = R::of_row(&[], 0, 1);
    let whole = R::join(top, sooner, steps);
    let root = root_parts(alloc, top, whole)?;
    let leaf = leaf_parts(alloc, later, sooner)?;
    Ok(Tree::from_parts(two(alloc, root, leaf)?))
}
