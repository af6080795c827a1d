//! Filling the raw tree, one node after another.
ghost use Rattle.std.specs.Prelude.{◌≡◌, ◌<◌, ◌≤◌, ◌+◌, ◌*◌, length, IfOk, OnOk};
ghost use Rattle.tdp_model.specs.NodeRows.{most_node_rows};
ghost use Rattle.std.specs.List.{sum_by};
ghost use Rattle.node_build.specs.PartialTrees.{AreFilled, IsFilledTree};
ghost use Rattle.node_build.specs.Nodes.{AreReady};
ghost use Rattle.node_build.specs.Rows.{HaveRows, lists_of};
ghost use Rattle.node_build.specs.Shapes.{AreShapesOf};
ghost use Rattle.node_build.specs.Sources.{HasColumns, HasShapes, IsReady, above_columns, node_count, own_columns};

use crate::columns::columns_of;
use crate::node::add_rows;
use crate::shapes::shapes_of;
use crate::source::NodeSource;
use bound_query::Query;
use join_tree::JoinTree;
use link_index::ListIndex;
use rank_key::Rank;
use std::alloc::Global;
use std::sync::ledger::Ledger;
use step_counter::{NoMemory, Steps};
use table_store::Tables;
use tdp_core::RawTree;

/// The raw tree with these rows of each node. `NoMemory` if memory is refused.
pub(crate) fn filled_tree<R: Rank, L: Ledger>(
    alloc: Global,
    query: &Query,
    tables: &Tables,
    join: &JoinTree,
    rows: &[Vec<u32>],
    steps: &mut Steps<L>,
) -> Result<RawTree<R>, NoMemory>
    requires ready { AreReady R.KEYS R.ITEMS R.LIMIT query.now tables.now join.now }
    requires rows { HaveRows query.now.query tables.now join.now join.now.count
        (lists_of rows.now) }
    requires room { sum_by length (lists_of rows.now) ≤ most_node_rows }
    ensures shapes { IfOk result
        (λ tree. AreShapesOf query.now tables.now join.now join.now.count tree.shapes) }
    ensures filled { IfOk result
        (λ tree. IsFilledTree query.now tables.now join.now R.KEYS R.key (lists_of rows.now) tree) }
    ensures cost { steps.new ≤ steps.old + sum_by length (lists_of rows.now) * join.now.count }
{
    let shapes = shapes_of(alloc, query, join)?;
    let keys = tables.keys();
    let mut tree = RawTree::with_keys(alloc, shapes.as_slice(), keys)?;
    let columns = columns_of(alloc, query, join)?;
    let mut links = ListIndex::new(alloc, join.count, keys)?;
    let source = NodeSource {
        query,
        tables,
        join,
        columns: &columns,
    };
    let added = add_nodes(alloc, &source, rows, &mut links, &mut tree, steps);
    added.and(Ok(tree))
}

/// Adds the rows of each node to a tree without rows. It owns nothing, so that a refusal of memory
/// leaves nothing to drop.
fn add_nodes<R: Rank, L: Ledger>(
    alloc: Global,
    source: &NodeSource<'_>,
    rows: &[Vec<u32>],
    links: &mut ListIndex,
    tree: &mut RawTree<R>,
    steps: &mut Steps<L>,
) -> Result<(), NoMemory>
    requires ready { IsReady source.now R.KEYS R.ITEMS R.LIMIT }
    requires columns { HasColumns source.now }
    requires rows { HaveRows source.now.query.now.query source.now.tables.now source.now.join.now
        (node_count source.now) (lists_of rows.now) }
    requires room { sum_by length (lists_of rows.now) ≤ most_node_rows }
    requires links { length links.old ≡ node_count source.now }
    requires shapes { HasShapes source.now tree.old.shapes }
    requires none { AreFilled source.now.query.now source.now.tables.now source.now.join.now
        (own_columns source.now) (above_columns source.now) R.KEYS R.key links.old 0
        (lists_of rows.now) tree.old }
    ensures shapes { OnOk result (HasShapes source.now tree.new.shapes) }
    ensures filled { OnOk result
        (IsFilledTree source.now.query.now source.now.tables.now source.now.join.now R.KEYS R.key
        (lists_of rows.now) tree.new) }
    ensures cost { steps.new
        ≤ steps.old + sum_by length (lists_of rows.now) * node_count source.now }
{
    for node in 0..source.join.count {
        let list = rows[node as usize].as_slice();
        add_rows(alloc, source, node, list, links, tree, steps)?;
    }
    Ok(())
}
