//! The rows of a node before they are put into groups.
ghost use Rattle.std.specs.Prelude.{◌≡◌, ◌<◌, ◌≤◌, Some, [], ◌∷◌, ◌++◌, length, map, slice_get, slice_index, slice_index_or, OnOk, OnErr};
ghost use Rattle.tdp_model.specs.NodeRows.{most_node_rows};
ghost use Rattle.std.specs.List.{All};
ghost use Rattle.tdp_core.specs.RawRows.{AreWhole, RawRowView, rows_of};

use crate::named_groups::NamedGroups;
use crate::node_rows::NodeRows;
use crate::parts::NodeRow;
use rank_key::Rank;
use std::alloc::Global;
use std::marker::Model;
use step_counter::NoMemory;

/// The rows of a node and their links as columns. Each row has its own link, by which rows of the
/// parent name it, and the link that it names for each child of its node, children in ascending
/// order.
#[derive(Drop)]
pub struct RawColumns<R> {
    pub rows: NodeRows<R>,
    /// For each row its own link.
    pub owns: Vec<u32>,
    /// For each row the links that it names.
    pub named: NamedGroups,
}

/// The rows of a node with their links.
#[derive(Drop)]
pub(crate) struct RawRows<R: Rank> {
    columns: RawColumns<R>,
}

impl<R: Rank> Model for RawRows<R> {
    ghost use Rattle.std.specs.Prelude.{List};
    ghost use Rattle.tdp_core.specs.RawRows.{AreWhole, RawRowView, rows_of};

    ghost Value = { List (RawRowView R) };

    ghost view = { λ t. rows_of t.columns };

    ghost invariant = { λ t. AreWhole t.columns };
}

impl<R: Rank> RawRows<R> {
    /// No rows. Takes no memory.
    pub(crate) fn new(alloc: Global) -> RawRows<R>
        ensures { result ≡ [] }
    {
        let rows = NodeRows::of(Vec::new(alloc), Vec::new(alloc));
        let owns = Vec::new(alloc);
        let named = NamedGroups::none(alloc);
        RawRows {
            columns: RawColumns { rows, owns, named },
        }
    }

    /// The rows of these columns. Takes no memory.
    pub(crate) fn of(columns: RawColumns<R>) -> RawRows<R>
        requires { AreWhole columns }
        ensures { result ≡ rows_of columns }
    {
        RawRows { columns }
    }

    /// Their columns. Takes no memory.
    pub(crate) fn into_columns(self) -> RawColumns<R>
        ensures whole { AreWhole result }
        ensures rows { rows_of result ≡ self }
    {
        self.columns
    }

    /// Appends a row, which names as many links as those before it. After `NoMemory` the rows are
    /// as before.
    pub(crate) fn push(
        &mut self,
        row: NodeRow<R>,
        own: u32,
        children: &[u32],
    ) -> Result<(), NoMemory>
        requires same { All (λ r. length r.children ≡ length children.now) self.old }
        requires few { length self.old ≤ most_node_rows }
        ensures ok { OnOk result
            (self.new ≡ self.old ++ record { row = row; own = own; children = children.now } ∷ []) }
        ensures err { OnErr result (self.new ≡ self.old) }
    {
        let columns = &mut self.columns;
        let count = columns.rows.len();
        columns.owns.reserve(1)?;
        columns.named.push_first_or_next(children)?;
        if let Err(refused) = columns.rows.push(row) {
            columns.named.truncate(count);
            return Err(refused);
        }
        columns.owns.push_reserved(own);
        Ok(())
    }

    /// The number of rows.
    pub(crate) fn len(&self) -> usize
        ensures { result ≡ length self.now }
    {
        self.columns.rows.len()
    }

    /// Row `i`, from 0.
    pub(crate) fn row(&self, i: usize) -> NodeRow<R>
        requires { i < length self.now }
        ensures { slice_get (map (λ r. r.row) self.now) i ≡ Some result }
    {
        self.columns.rows.get(i)
    }

    /// The own link of row `i`, from 0.
    pub(crate) fn own(&self, i: usize) -> u32
        requires { i < length self.now }
        ensures { result ≡ slice_index (map (λ r. r.own) self.now) i }
    {
        self.columns.owns[i]
    }

    /// The link that row `i` names for one of the children. Both count from 0.
    pub(crate) fn link(&self, i: usize, child: usize) -> u32
        requires row { i < length self.now }
        requires child { child < length (slice_index_or (map (λ r. r.children) self.now) i []) }
        ensures { result ≡ slice_index
            (slice_index_or (map (λ r. r.children) self.now) i []) child }
    {
        self.columns.named.get(i, child)
    }
}
