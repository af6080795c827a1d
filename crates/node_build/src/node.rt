//! The rows of one node.
ghost use Rattle.std.specs.Prelude.{◌≡◌, ◌<◌, ◌≤◌, ◌+◌, ◌*◌, ℕ, [], length, slice_index, IfOk, OnOk};
ghost use Rattle.std.specs.List.{All};
ghost use Rattle.tdp_model.specs.NodeRows.{most_node_rows};
ghost use Rattle.rankings.specs.Order.{IsMember};
ghost use Rattle.tdp_core.specs.RawRows.{AreWhole, rows_of};
ghost use Rattle.tdp_core.specs.RawView.{row_total, rows_at};
ghost use Rattle.bound_query.specs.WeighedQuery.{Fits};
ghost use Rattle.bound_query.specs.Weights.{table_in};
ghost use Rattle.node_build.specs.PartialTrees.{HasOnlyMore};
ghost use Rattle.link_index.specs.NumberedLists.{AreMore};
ghost use Rattle.node_build.specs.Nodes.{IsJoinTreeOf, item_of};
ghost use Rattle.node_build.specs.Sources.{HasColumns, HasNodeRows, HasRow, HasShapes, IsReady, NameChildren, child_count, node_count};
ghost use Rattle.node_build.specs.RowSources.{AreRowsOf};

use crate::links::links_of;
use crate::shapes::ranks_of;
use crate::source::NodeSource;
use crate::table_row::TableRows;
use link_index::ListIndex;
use rank_key::Rank;
use std::alloc::Global;
use std::sync::ledger::Ledger;
use step_counter::{NoMemory, Steps};
use tdp_core::{NamedGroups, NodeRows, RawColumns, RawTree};

/// The links that rows of a node name for the node's children: a column for each child, in which
/// they stand in the order of the rows.
fn child_links<L: Ledger>(
    alloc: Global,
    source: &NodeSource<'_>,
    node: u32,
    rows: &TableRows<'_>,
    links: &mut ListIndex,
    steps: &mut Steps<L>,
) -> Result<NamedGroups, NoMemory>
    requires fits { Fits source.now.query.now source.now.tables.now }
    requires tree { IsJoinTreeOf source.now.query.now.query source.now.join.now }
    requires columns { HasColumns source.now }
    requires node { node < node_count source.now }
    requires rows { AreRowsOf source.now node rows.now }
    requires few { length rows.now.rows.now ≤ most_node_rows }
    requires links { length links.old ≡ node_count source.now }
    ensures more { OnOk result (AreMore links.old links.new) }
    ensures count { IfOk result (λ named. length named.rows ≡ length rows.now.rows.now) }
    ensures wide { IfOk result
        (λ named. All (λ children. length children ≡ child_count source.now node) named.rows) }
    ensures names { IfOk result
        (λ named. NameChildren source.now links.new node rows.now.rows.now named.rows) }
    ensures cost { steps.new
        ≤ steps.old + length rows.now.rows.now * child_count source.now node }
{
    let NodeSource { join, columns, .. } = *source;
    let mut lists = Vec::new(alloc);
    for child in 1..join.count as usize {
        if join.parent[child] != node {
            continue;
        }
        let above = columns.above[child].as_slice();
        let list = links_of(alloc, rows, above, links, child, steps)?;
        lists.push(list)?;
    }
    NamedGroups::of_columns(alloc, lists, rows.rows.len())
}

/// Some rows of a node as columns, with their links.
fn node_columns<R: Rank, L: Ledger>(
    alloc: Global,
    source: &NodeSource<'_>,
    node: u32,
    rows: &[u32],
    links: &mut ListIndex,
    steps: &mut Steps<L>,
) -> Result<RawColumns<R>, NoMemory>
    requires ready { IsReady source.now R.KEYS R.ITEMS R.LIMIT }
    requires columns { HasColumns source.now }
    requires node { node < node_count source.now }
    requires rows { (k : ℕ) → k < length rows.now
        → HasRow source.now node (slice_index rows.now k) }
    requires few { length rows.now ≤ most_node_rows }
    requires links { length links.old ≡ node_count source.now }
    ensures more { OnOk result (AreMore links.old links.new) }
    ensures whole { IfOk result (λ columns. AreWhole columns) }
    ensures wide { IfOk result
        (λ columns. All (λ children. length children ≡ child_count source.now node)
        columns.named.rows) }
    ensures rows { IfOk result
        (λ columns. HasNodeRows source.now R.KEYS R.key links.new node rows.now
        (rows_of columns)) }
    ensures cost { steps.new ≤ steps.old + length rows.now * node_count source.now }
{
    let NodeSource {
        query,
        tables,
        join,
        columns,
    } = *source;
    let table = query.table_of(join.atom[node as usize]);
    let own = columns.own[node as usize].as_slice();
    let of_table = TableRows {
        tables,
        table,
        rows,
    };
    let owns = links_of(alloc, &of_table, own, links, node as usize, steps)?;
    let named = child_links(alloc, source, node, &of_table, links, steps)?;
    let ranks = ranks_of(alloc, source, node, rows)?;
    let numbers = Vec::from_slice(alloc, rows)?;
    let rows = NodeRows::of(ranks, numbers);
    Ok(RawColumns { rows, owns, named })
}

/// Adds the rows of a node to the tree, with their links. `NoMemory` if memory is refused.
pub(crate) fn add_rows<R: Rank, L: Ledger>(
    alloc: Global,
    source: &NodeSource<'_>,
    node: u32,
    rows: &[u32],
    links: &mut ListIndex,
    tree: &mut RawTree<R>,
    steps: &mut Steps<L>,
) -> Result<(), NoMemory>
    requires ready { IsReady source.now R.KEYS R.ITEMS R.LIMIT }
    requires columns { HasColumns source.now }
    requires node { node < node_count source.now }
    requires rows { (row : ℕ) → IsMember row rows.now
        → (1 ≤ row) × (row ≤ length
        (table_in source.now.tables.now source.now.query.now.query.items
        (item_of source.now.join.now node)).rows) }
    requires links { length links.old ≡ node_count source.now }
    requires shapes { HasShapes source.now tree.old.shapes }
    requires each_node { length tree.old.rows ≡ node_count source.now }
    requires empty { rows_at tree.old node ≡ [] }
    requires room { row_total tree.old + length rows.now ≤ most_node_rows }
    ensures more { OnOk result (AreMore links.old links.new) }
    ensures others { OnOk result (HasOnlyMore node (length rows.now) tree.old tree.new) }
    ensures rows { OnOk result
        (HasNodeRows source.now R.KEYS R.key links.new node rows.now
        (rows_at tree.new node)) }
    ensures cost { steps.new ≤ steps.old + length rows.now * node_count source.now }
{
    let columns = node_columns(alloc, source, node, rows, links, steps)?;
    tree.fill_node(node, columns);
    Ok(())
}
