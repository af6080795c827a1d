//! Rows of a table, and their values in some columns.
ghost use Rattle.std.specs.Prelude.{◌≡◌, ◌<◌, ◌≤◌, ◌-◌, ◌+◌, ℕ, length, map, slice_index, IfOk};
ghost use Rattle.anyk_model.specs.Table.{field_at, table_at};
ghost use Rattle.table_store.specs.Values.{number_of};
ghost use Rattle.node_build.specs.Links.{values_in};

use smallvec::SmallVec;
use std::alloc::Global;
use std::sync::ledger::Ledger;
use step_counter::{NoMemory, Steps};
use table_store::Tables;

/// Some rows of one of the tables. Tables count from 0, and rows from 1.
#[derive(Clone, Copy)]
pub(crate) struct TableRows<'a> {
    pub tables: &'a Tables,
    pub table: u32,
    pub rows: &'a [u32],
    ghost known: { table < length tables.now },
    ghost first: { (k : ℕ) → k < length rows.now → 1 ≤ slice_index rows.now k },
    ghost rows_there: { (k : ℕ) → k < length rows.now
        → slice_index rows.now k ≤ length (table_at tables.now table).rows },
}

impl TableRows<'_> {
    /// The numbers of their fields in a column. Columns count from 0. Each row counts a step.
    pub(crate) fn values<L: Ledger>(
        &self,
        alloc: Global,
        column: u32,
        steps: &mut Steps<L>,
    ) -> Result<Vec<u32>, NoMemory>
        requires { column < length (table_at self.now.tables.now self.now.table).names }
        ensures values { IfOk result
            (λ values. values.items ≡ map
            (λ (row : ℕ). number_of self.now.tables.now
            (field_at (table_at self.now.tables.now self.now.table) (row - 1) column))
            self.now.rows.now) }
        ensures cost { steps.new ≤ steps.old + length self.now.rows.now }
    {
        let mut values = Vec::with_capacity(alloc, self.rows.len())?;
        for row in self.rows {
            steps.tick();
            values.push_reserved(self.tables.value(self.table, *row, column));
        }
        Ok(values)
    }
}

/// A row of one of the tables. Tables count from 0, and rows from 1.
#[derive(Clone, Copy)]
pub(crate) struct TableRow<'a> {
    pub tables: &'a Tables,
    pub table: u32,
    pub row: u32,
    ghost known: { table < length tables.now },
    ghost first: { 1 ≤ row },
    ghost row_there: { row ≤ length (table_at tables.now table).rows },
}

impl TableRow<'_> {
    /// The number of its field in a column. Columns count from 0.
    pub(crate) fn value(&self, column: u32) -> u32
        requires { column < length (table_at self.now.tables.now self.now.table).names }
        ensures { result ≡ number_of self.now.tables.now
            (field_at (table_at self.now.tables.now self.now.table) (self.now.row - 1) column) }
    {
        self.tables.value(self.table, self.row, column)
    }

    /// The numbers of its fields in some columns. `NoMemory` if memory is refused.
    pub(crate) fn values(
        &self,
        alloc: Global,
        columns: &[u32],
    ) -> Result<SmallVec<u32, 4>, NoMemory>
        requires { (k : ℕ) → k < length columns.now
            → slice_index columns.now k
            < length (table_at self.now.tables.now self.now.table).names }
        ensures { IfOk result (λ values. values.items ≡ values_in self.now.tables.now
            (table_at self.now.tables.now self.now.table) self.now.row columns.now) }
    {
        let mut values = SmallVec::with_capacity(alloc, columns.len())?;
        for column in columns {
            values.push(self.value(*column))?;
        }
        Ok(values)
    }
}
