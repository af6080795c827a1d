//! The rows of the nodes.
ghost use Rattle.std.specs.Prelude.{◌≡◌, ◌<◌, ◌≤◌, IfOk, length, map};
ghost use Rattle.bound_query.specs.WeighedQuery.{Fits};
ghost use Rattle.bound_query.specs.Weights.{table_in};
ghost use Rattle.node_build.specs.Nodes.{AreNodeRows, IsJoinTreeOf};
ghost use Rattle.node_build.specs.Rows.{HaveRows, lists_of};

use bound_query::Query;
use join_tree::JoinTree;
use std::alloc::Global;
use step_counter::NoMemory;
use table_store::Tables;

/// The rows of an item that pass, in ascending order.
fn passing_rows(
    alloc: Global,
    query: &Query,
    tables: &Tables,
    item: u32,
) -> Result<Vec<u32>, NoMemory>
    requires fits { Fits query.now tables.now }
    requires item { item < length query.now.query.items }
    ensures rows { IfOk result (λ rows. AreNodeRows query.now.query tables.now item rows.items) }
    ensures few { IfOk result
        (λ rows. length rows.items ≤ length (table_in tables.now query.now.query.items item).rows) }
    ensures limit { IfOk result (λ rows. length rows.items ≤ 1048576) }
{
    let count = tables.len(query.table_of(item));
    let mut rows = Vec::with_capacity(alloc, count as usize)?;
    for row in 1..count + 1 {
        if !query.passes(tables, item, row) {
            continue;
        }
        rows.push(row)?;
    }
    Ok(rows)
}

/// The rows of each node of a join tree.
pub(crate) fn rows_of_nodes(
    alloc: Global,
    query: &Query,
    tables: &Tables,
    join: &JoinTree,
) -> Result<Vec<Vec<u32>>, NoMemory>
    requires fits { Fits query.now tables.now }
    requires tree { IsJoinTreeOf query.now.query join.now }
    ensures rows { IfOk result
        (λ rows. HaveRows query.now.query tables.now join.now join.now.count
        (lists_of rows.items)) }
{
    let mut rows = Vec::new(alloc);
    for node in 0..join.count {
        let list = passing_rows(alloc, query, tables, join.atom[node as usize])?;
        rows.push(list)?;
    }
    Ok(rows)
}

/// The number of rows of each node.
pub(crate) fn counts_of(alloc: Global, rows: &[Vec<u32>]) -> Result<Vec<u64>, NoMemory>
    ensures { IfOk result (λ counts. counts.items ≡ map length (lists_of rows.now)) }
{
    let mut counts = Vec::new(alloc);
    for list in rows {
        counts.push(list.len() as u64)?;
    }
    Ok(counts)
}
