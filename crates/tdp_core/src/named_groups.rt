//! The groups that the rows of a node name, in one block.
ghost use Rattle.std.specs.Prelude.{◌≡◌, ℕ, ◌+◌, ◌<◌, ◌≤◌, [], ◌∷◌, ◌++◌, length, slice_index, slice_index_or, slice_set, take, IfOk, OnOk, OnErr};
ghost use Rattle.std.specs.List.{All};
ghost use Rattle.std.specs.Vec.{vec_capacity, vec_len};
ghost use Rattle.tdp_model.specs.NodeRows.{most_node_rows};
ghost use Rattle.tdp_core.specs.NamedRows.{columns_in, row_across, rows_across};

use std::alloc::Global;
use std::marker::Model;
use step_counter::NoMemory;

/// For each row of a node the groups of the node's children that it names, children in ascending
/// order. Rows and children count from 0.
#[derive(Drop)]
pub struct NamedGroups {
    /// The groups that the rows name, row by row.
    named: Vec<u32>,
    /// The number of groups that each row names.
    width: usize,
    /// The number of rows.
    count: usize,
}

impl Model for NamedGroups {
    ghost use Rattle.std.specs.Prelude.{◌≡◌, ◌*◌, length};
    ghost use Rattle.tdp_core.specs.NamedRows.{NamedView, pieces};

    ghost Value = { NamedView };

    ghost view = { λ g. record { width = g.width; rows = pieces g.width g.count g.named.items } };

    ghost invariant = { λ g. length g.named.items ≡ g.count * g.width };
}

impl NamedGroups {
    /// No rows, with room for so many, each of which names so many groups.
    pub fn new(alloc: Global, width: usize, room: usize) -> Result<NamedGroups, NoMemory>
        ensures { IfOk result (λ named. named ≡ record { width = width; rows = [] }) }
    {
        let named = Vec::with_capacity(alloc, width.saturating_mul(room))?;
        Ok(NamedGroups {
            named,
            width,
            count: 0,
        })
    }

    /// No rows, of a node without children. Takes no memory.
    pub(crate) fn none(alloc: Global) -> NamedGroups
        ensures { result ≡ record { width = 0; rows = [] } }
    {
        NamedGroups {
            named: Vec::new(alloc),
            width: 0,
            count: 0,
        }
    }

    /// So many rows, for which a column for each child has the groups that they name. A single
    /// column is kept as it is.
    pub fn of_columns(
        alloc: Global,
        columns: Vec<Vec<u32>>,
        count: usize,
    ) -> Result<NamedGroups, NoMemory>
        requires long { All (λ column. length column ≡ count) (columns_in columns.items) }
        requires few { count ≤ most_node_rows }
        ensures { IfOk result
            (λ named. named ≡ record {
              width = length (columns_in columns.items);
              rows = rows_across (columns_in columns.items) count;
            }) }
    {
        match columns.len() {
            0 => Ok(NamedGroups {
                named: Vec::new(alloc),
                width: 0,
                count,
            }),
            1 => Ok(NamedGroups {
                named: only_column(alloc, columns),
                width: 1,
                count,
            }),
            _ => rows_by_rows(alloc, &columns, count),
        }
    }

    /// Appends the groups that one more row names. After `NoMemory` the rows are as before.
    pub fn push(&mut self, groups: &[u32]) -> Result<(), NoMemory>
        requires width { length groups.now ≡ self.old.width }
        requires few { length self.old.rows ≤ most_node_rows }
        ensures ok { OnOk result (self.new
            ≡ record { width = self.old.width; rows = self.old.rows ++ groups.now ∷ [] }) }
        ensures err { OnErr result (self.new ≡ self.old) }
    {
        self.named.reserve(groups.len())?;
        push_each(&mut self.named, groups);
        self.count += 1;
        Ok(())
    }

    /// Appends the groups that one more row names; a first row says how many each row names. After
    /// `NoMemory` the rows are as before.
    pub(crate) fn push_first_or_next(&mut self, groups: &[u32]) -> Result<(), NoMemory>
        requires same { All (λ row. length row ≡ length groups.now) self.old.rows }
        requires few { length self.old.rows ≤ most_node_rows }
        ensures ok { OnOk result (self.new.rows ≡ self.old.rows ++ groups.now ∷ []) }
        ensures err { OnErr result (self.new.rows ≡ self.old.rows) }
    {
        if self.count == 0 {
            self.width = groups.len();
            self.named.clear();
        }
        self.push(groups)
    }

    /// The number of rows.
    pub fn len(&self) -> usize
        ensures { result ≡ length self.now.rows }
    {
        self.count
    }

    /// The number of groups that each row names.
    pub fn width(&self) -> usize
        ensures width { result ≡ self.now.width }
        ensures each { (r : ℕ) → r < length self.now.rows
            → length (slice_index_or self.now.rows r []) ≡ result }
    {
        self.width
    }

    /// The group that a row names for one of the children.
    pub fn get(&self, row: usize, child: usize) -> u32
        requires row { row < length self.now.rows }
        requires child { child < length (slice_index_or self.now.rows row []) }
        ensures { result ≡ slice_index (slice_index_or self.now.rows row []) child }
    {
        self.named[row * self.width + child]
    }
    /// Replaces the group that a row names for one of the children.
    pub fn set(&mut self, row: usize, child: usize, group: u32)
        requires row { row < length self.old.rows }
        requires child { child < length (slice_index_or self.old.rows row []) }
        ensures { self.new ≡ record {
          width = self.old.width;
          rows = slice_set self.old.rows row
              (slice_set (slice_index_or self.old.rows row []) child group);
        } }
    {
        let place = row * self.width + child;
        self.named[place] = group;
    }

    /// Removes all rows but the first `count`.
    pub fn truncate(&mut self, count: usize)
        ensures { self.new
            ≡ record { width = self.old.width; rows = take count self.old.rows } }
    {
        if count < self.count {
            self.named.truncate(count * self.width);
            self.count = count;
        }
    }
}

/// Appends numbers to a list that has room for them, one by one: for the few links of a row a call
/// that copies memory takes longer.
fn push_each(list: &mut Vec<u32>, numbers: &[u32])
    requires { vec_len list.old + length numbers.now ≤ vec_capacity list.old }
    ensures { list.new.items ≡ list.old.items ++ numbers.now }
{
    for number in numbers {
        list.push_reserved(*number);
    }
}

/// The first column; none is left without one.
fn only_column(alloc: Global, columns: Vec<Vec<u32>>) -> Vec<u32>
    requires { length columns.items ≡ 1 }
    ensures { columns_in columns.items ≡ result.items ∷ [] }
{
    let mut columns = columns;
    columns.pop().unwrap_or(Vec::new(alloc))
}

/// The rows of these columns, row by row.
fn rows_by_rows(alloc: Global, columns: &[Vec<u32>], count: usize) -> Result<NamedGroups, NoMemory>
    requires long { All (λ column. length column ≡ count) (columns_in columns.now) }
    requires few { count ≤ most_node_rows }
    ensures { IfOk result
        (λ named. named ≡ record {
          width = length (columns_in columns.now);
          rows = rows_across (columns_in columns.now) count;
        }) }
{
    let mut named = NamedGroups::new(alloc, columns.len(), count)?;
    let mut row = Vec::new(alloc);
    for place in 0..count {
        read_across(columns, place, &mut row)?;
        named.push(&row)?;
    }
    Ok(named)
}

/// Replaces `row` by what stands at a place of each column.
fn read_across(columns: &[Vec<u32>], place: usize, row: &mut Vec<u32>) -> Result<(), NoMemory>
    requires { All (λ column. place < length column) (columns_in columns.now) }
    ensures { OnOk result (row.new.items ≡ row_across (columns_in columns.now) place) }
{
    row.clear();
    for column in columns {
        row.push(column[place])?;
    }
    Ok(())
}
