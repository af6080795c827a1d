//! The shapes of the nodes, and the ranks of their rows.
ghost use Rattle.std.specs.Prelude.{◌≡◌, ◌<◌, ◌≤◌, ℕ, List, length, take, IfOk, map, slice_index};
ghost use Rattle.anyk_model.specs.Table.{Table};
ghost use Rattle.rank_key.specs.Keys.{row_key};
ghost use Rattle.bound_query.specs.WeighedQuery.{Fits};
ghost use Rattle.bound_query.specs.Weights.{table_in};
ghost use Rattle.node_build.specs.Nodes.{AreReady, IsJoinTreeOf, IsRowAt, item_of, cap_at, row_parts};
ghost use Rattle.node_build.specs.Shapes.{AreShapesOf};
ghost use Rattle.node_build.specs.Sources.{HasRow, IsReady, rank_key_at};

use crate::source::NodeSource;
use bound_query::Query;
use join_tree::JoinTree;
use rank_key::Rank;
use std::alloc::Global;
use step_counter::NoMemory;
use table_store::Tables;
use tdp_core::NodeShape;

/// The greatest number of order keys of a query.
const MAX_KEYS: usize = 8;

/// The caps of an item, key by key; the unused places are 0.
fn caps_of(query: &Query, item: u32) -> [u128; MAX_KEYS]
    requires fits { (tables : List Table) × Fits query.now tables }
    requires item { item < length query.now.query.items }
    ensures { (tables : List Table) → Fits query.now tables → (i : ℕ)
        → slice_index result i ≡ cap_at query.now tables item i }
{
    let mut caps = [0; MAX_KEYS];
    for key in 0..query.keys() {
        caps[key as usize] = query.cap(item, key);
    }
    caps
}

/// The shapes of the nodes of a join tree.
pub(crate) fn shapes_of(
    alloc: Global,
    query: &Query,
    join: &JoinTree,
) -> Result<Vec<NodeShape>, NoMemory>
    requires fits { (tables : List Table) × Fits query.now tables }
    requires tree { IsJoinTreeOf query.now.query join.now }
    ensures { IfOk result
        (λ shapes. (tables : List Table) → Fits query.now tables
        → AreShapesOf query.now tables join.now join.now.count shapes.items) }
{
    let mut shapes = Vec::new(alloc);
    for node in 0..join.count as usize {
        let item = join.atom[node];
        shapes.push(NodeShape {
            parent: join.parent[node],
            item,
            caps: caps_of(query, item),
        })?;
    }
    Ok(shapes)
}

/// The parts of a row, key by key; the unused places are 0.
fn parts_of(query: &Query, tables: &Tables, item: u32, row: u32) -> [i128; MAX_KEYS]
    requires fits { Fits query.now tables.now }
    requires item { item < length query.now.query.items }
    requires first { 1 ≤ row }
    requires row { row ≤ length (table_in tables.now query.now.query.items item).rows }
    ensures { take (length query.now.query.order) result ≡ row_parts query.now tables.now item row }
{
    let mut parts = [0; MAX_KEYS];
    for key in 0..query.keys() {
        parts[key as usize] = query.part(tables, item, row, key);
    }
    parts
}

/// The rank of a row of a node: its parts, and its number in the slot of the node's item.
pub(crate) fn rank_of<R: Rank>(
    query: &Query,
    tables: &Tables,
    join: &JoinTree,
    node: u32,
    row: u32,
) -> R
    requires ready { AreReady R.KEYS R.ITEMS R.LIMIT query.now tables.now join.now }
    requires at { IsRowAt query.now.query tables.now join.now node row }
    ensures { R.key result
        ≡ row_key R.KEYS (row_parts query.now tables.now (item_of join.now node) row)
        (item_of join.now node) row }
{
    // for the proof: there are at most 16 items
    let _items = query.items();
    let item = join.atom[node as usize];
    // for the proof: a table has at most 1,048,576 rows
    let _rows = tables.len(query.table_of(item));
    if query.keys() == 1 {
        return R::of_row(&[query.part(tables, item, row, 0)], item, row);
    }
    let parts = parts_of(query, tables, item, row);
    R::of_row(&parts[..query.keys() as usize], item, row)
}

/// The ranks of some rows of a node, in their order.
pub(crate) fn ranks_of<R: Rank>(
    alloc: Global,
    source: &NodeSource<'_>,
    node: u32,
    rows: &[u32],
) -> Result<Vec<R>, NoMemory>
    requires ready { IsReady source.now R.KEYS R.ITEMS R.LIMIT }
    requires rows { (k : ℕ) → k < length rows.now
        → HasRow source.now node (slice_index rows.now k) }
    ensures { IfOk result
        (λ ranks. map R.key ranks.items
        ≡ map (rank_key_at source.now R.KEYS node) rows.now) }
{
    let NodeSource {
        query,
        tables,
        join,
        ..
    } = *source;
    let mut ranks = Vec::with_capacity(alloc, rows.len())?;
    for row in rows {
        ranks.push_reserved(rank_of(query, tables, join, node, *row));
    }
    Ok(ranks)
}
