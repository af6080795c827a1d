//! The report of a plan's join tree, line by line.
ghost use Rattle.std.specs.Prelude.{◌≡◌, ◌<◌, ◌≤◌, ◌+◌, ◌++◌, IfOk, List, OnOk, codes, decimal, length, slice_index, ℕ};
ghost use Rattle.join_tree.specs.Rerooting.{IsTree};
ghost use Rattle.bound_query.specs.Report.{node_line, node_text, parent_number, report_of};
ghost use Rattle.bound_query.specs.JoinTreeView.{HasItems};
ghost use Rattle.plan_build.specs.Plan.{IsPlanFor, shape_of, shape_view};

use crate::plan::Plan;
use bound_query::Query;
use join_tree::JoinTree;
use query_select::name_text;
use rank_key::Rank;
use std::alloc::Global;
use step_counter::NoMemory;
use table_store::Tables;

/// The report of the join tree of a query's plan. Each node, in order, has a line with its number
/// from 1, its parent's number (0 for the first node), the number of rows of its item that pass,
/// and its item's alias as the canonical text writes names. The last line has the number of rows of
/// the tables of all items and of all nodes. `NoMemory` if memory is refused.
pub fn report<R: Rank>(
    alloc: Global,
    plan: &Plan<R>,
    query: &Query,
    tables: &Tables,
) -> Result<Vec<u8>, NoMemory>
    requires plan { IsPlanFor R.KEYS R.key query.now tables.now plan.now }
    ensures { IfOk result
        (λ text. text.items ≡ report_of query.now.query tables.now (shape_of plan.now)) }
{
    let mut text = Vec::new(alloc);
    for node in 0..plan.join.count as usize {
        push_node(alloc, &mut text, query, &plan.join, &plan.node_rows, node)?;
    }
    push_total(alloc, &mut text, plan.total)?;
    Ok(text)
}

/// Appends the line of one node.
fn push_node(
    alloc: Global,
    text: &mut Vec<u8>,
    query: &Query,
    join: &JoinTree,
    node_rows: &[u64],
    node: usize,
) -> Result<(), NoMemory>
    requires ordered { IsTree join.now.count join.now.atom join.now.parent }
    requires items { HasItems join.now.count join.now.atom (length query.now.query.items) }
    requires counted { length node_rows.now ≡ join.now.count }
    requires node { node < join.now.count }
    ensures { OnOk result
        (text.new.items ≡ text.old.items
        ++ node_line query.now.query (shape_view join.now node_rows.now) node) }
{
    let number = node as u32 + 1;
    let parent = parent_number(join, node);
    let rows = node_rows[node];
    let name = name_text(alloc, query.alias(join.atom[node]))?;
    push_line(alloc, text, number, parent, rows, &name)
}

/// The number of a node's parent from 1, or 0 for the first node.
fn parent_number(join: &JoinTree, node: usize) -> u32
    requires ordered { IsTree join.now.count join.now.atom join.now.parent }
    requires node { node < join.now.count }
    ensures { (node_rows : List ℕ) → result ≡ parent_number (shape_view join.now node_rows) node }
{
    if node == 0 { 0 } else { join.parent[node] + 1 }
}

/// Appends a node's line with these numbers and this name.
fn push_line(
    alloc: Global,
    text: &mut Vec<u8>,
    number: u32,
    parent: u32,
    rows: u64,
    name: &[u8],
) -> Result<(), NoMemory>
    ensures { OnOk result
        (text.new.items ≡ text.old.items ++ node_text number parent rows name.now) }
{
    let numbers = format!(in alloc; "node {number} parent {parent} rows {rows} item ")?;
    text.extend_from_slice(numbers.as_bytes())?;
    text.extend_from_slice(name)?;
    text.push(b'\n')?;
    Ok(())
}

/// Appends the last line.
fn push_total(alloc: Global, text: &mut Vec<u8>, total: u64) -> Result<(), NoMemory>
    ensures { OnOk result
        (text.new.items ≡ text.old.items ++ (codes "total " ++ (decimal total ++ codes "\n"))) }
{
    let line = format!(in alloc; "total {total}\n")?;
    text.extend_from_slice(line.as_bytes())?;
    Ok(())
}
