//! Links: one number for the values that a row has in some columns, the same for two rows exactly
//! if the values are.
ghost use Rattle.std.specs.Prelude.{◌≡◌, ◌<◌, ◌≤◌, ◌+◌, ℕ, length, replicate, slice_index, IfOk, OnOk};
ghost use Rattle.anyk_model.specs.Table.{table_at};
ghost use Rattle.link_index.specs.NumberedLists.{AreMore};
ghost use Rattle.node_build.specs.Links.{AreLinks};

use crate::table_row::{TableRow, TableRows};
use link_index::ListIndex;
use std::alloc::Global;
use std::sync::ledger::Ledger;
use step_counter::{NoMemory, Steps};

/// The links at a node of the values that rows have in some columns, in the order of the rows: the
/// value itself if there is one column, 0 if there is none, and the number of the list of values if
/// there are several. Each link counts one step. `NoMemory` if memory is refused.
pub(crate) fn links_of<L: Ledger>(
    alloc: Global,
    rows: &TableRows<'_>,
    columns: &[u32],
    links: &mut ListIndex,
    node: usize,
    steps: &mut Steps<L>,
) -> Result<Vec<u32>, NoMemory>
    requires columns { (k : ℕ) → k < length columns.now
        → slice_index columns.now k
        < length (table_at rows.now.tables.now rows.now.table).names }
    requires node { node < length links.old }
    ensures more { OnOk result (AreMore links.old links.new) }
    ensures links { IfOk result
        (λ numbers. AreLinks links.new node rows.now.tables.now
        (table_at rows.now.tables.now rows.now.table) rows.now.rows.now columns.now
        numbers.items) }
    ensures cost { steps.new ≤ steps.old + length rows.now.rows.now }
{
    match columns {
        [] => no_links(alloc, rows.rows.len(), steps),
        [column] => rows.values(alloc, *column, steps),
        _ => list_numbers(alloc, rows, columns, links, node, steps),
    }
}

/// The links of so many rows that have no column in common with others.
fn no_links<L: Ledger>(
    alloc: Global,
    count: usize,
    steps: &mut Steps<L>,
) -> Result<Vec<u32>, NoMemory>
    ensures links { IfOk result (λ numbers. numbers.items ≡ replicate count 0) }
    ensures cost { steps.new ≤ steps.old + count }
{
    let numbers = vec![in alloc; 0; count]?;
    for _row in 0..count {
        steps.tick();
    }
    Ok(numbers)
}

/// The numbers at a node of the lists of values that rows have in several columns.
fn list_numbers<L: Ledger>(
    alloc: Global,
    rows: &TableRows<'_>,
    columns: &[u32],
    links: &mut ListIndex,
    node: usize,
    steps: &mut Steps<L>,
) -> Result<Vec<u32>, NoMemory>
    requires columns { (k : ℕ) → k < length columns.now
        → slice_index columns.now k
        < length (table_at rows.now.tables.now rows.now.table).names }
    requires several { 2 ≤ length columns.now }
    requires node { node < length links.old }
    ensures more { OnOk result (AreMore links.old links.new) }
    ensures links { IfOk result
        (λ numbers. AreLinks links.new node rows.now.tables.now
        (table_at rows.now.tables.now rows.now.table) rows.now.rows.now columns.now
        numbers.items) }
    ensures cost { steps.new ≤ steps.old + length rows.now.rows.now }
{
    let TableRows {
        tables,
        table,
        rows,
    } = *rows;
    let mut numbers = Vec::with_capacity(alloc, rows.len())?;
    for row in rows {
        let of_table = TableRow {
            tables,
            table,
            row: *row,
        };
        let values = of_table.values(alloc, columns)?;
        let number = links.number_of(node, values, steps)?;
        numbers.push_reserved(number);
    }
    Ok(numbers)
}
