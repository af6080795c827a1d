//! The rows of a node, ranks and numbers apart.
ghost use Rattle.std.specs.Prelude.{◌≡◌, ◌==◌, ◌<◌, Some, [], ◌∷◌, ◌++◌, length, map, slice_get, slice_set, take, IfOk, OnOk, OnErr};
ghost use Rattle.tdp_core.specs.RankedRows.{ranked_rows};

use crate::parts::NodeRow;
use std::alloc::Global;
use std::marker::Model;
use step_counter::NoMemory;

/// The rows of a node. Ranks and numbers stand in lists of their own, since what reads the one
/// seldom needs the other.
#[derive(Drop)]
pub struct NodeRows<R> {
    ranks: Vec<R>,
    /// For each row its number in the table of the node's item.
    numbers: Vec<u32>,
}

impl<R> Model for NodeRows<R> {
    ghost use Rattle.std.specs.Prelude.{◌≡◌, List, length};
    ghost use Rattle.tdp_core.specs.declared.parts.NodeRow.{NodeRow};
    ghost use Rattle.tdp_core.specs.RankedRows.{ranked_rows};

    ghost Value = { List (NodeRow R) };

    ghost view = { λ t. ranked_rows t.ranks.items t.numbers.items };

    ghost invariant = { λ t. length t.numbers.items ≡ length t.ranks.items };
}

impl<R: Copy> NodeRows<R> {
    /// The rows with these ranks and these numbers, of which there are as many. Takes no memory.
    pub fn of(ranks: Vec<R>, numbers: Vec<u32>) -> NodeRows<R>
        requires { length numbers.items ≡ length ranks.items }
        ensures { result ≡ ranked_rows ranks.items numbers.items }
    {
        NodeRows { ranks, numbers }
    }

    /// No rows, with room for so many. `NoMemory` if memory is refused.
    pub fn with_capacity(alloc: Global, room: usize) -> Result<NodeRows<R>, NoMemory>
        ensures { IfOk result (λ rows. rows ≡ []) }
    {
        let ranks = Vec::with_capacity(alloc, room)?;
        let numbers = Vec::with_capacity(alloc, room)?;
        Ok(NodeRows { ranks, numbers })
    }

    /// Appends a row. After `NoMemory` the rows are as before.
    pub fn push(&mut self, row: NodeRow<R>) -> Result<(), NoMemory>
        ensures ok { OnOk result (self.new ≡ self.old ++ row ∷ []) }
        ensures err { OnErr result (self.new ≡ self.old) }
    {
        self.ranks.reserve(1)?;
        self.numbers.reserve(1)?;
        self.ranks.push_reserved(row.rank);
        self.numbers.push_reserved(row.row);
        Ok(())
    }

    /// The number of rows.
    pub fn len(&self) -> usize
        ensures { result ≡ length self.now }
    {
        self.numbers.len()
    }

    /// Whether there are no rows.
    pub fn is_empty(&self) -> bool
        ensures { result ≡ (length self.now == 0) }
    {
        self.numbers.is_empty()
    }

    /// Row `i`, from 0.
    pub fn get(&self, i: usize) -> NodeRow<R>
        requires { i < length self.now }
        ensures { slice_get self.now i ≡ Some result }
    {
        NodeRow {
            rank: self.ranks[i],
            row: self.numbers[i],
        }
    }

    /// The ranks of the rows.
    pub fn ranks(&self) -> &[R]
        ensures { result.now ≡ map (λ x. x.rank) self.now }
    {
        &self.ranks
    }

    /// Replaces row `i`, from 0.
    pub fn set(&mut self, i: usize, row: NodeRow<R>)
        requires { i < length self.old }
        ensures { self.new ≡ slice_set self.old i row }
    {
        self.ranks[i] = row.rank;
        self.numbers[i] = row.row;
    }

    /// Removes all rows but the first `count`.
    pub fn truncate(&mut self, count: usize)
        ensures { self.new ≡ take count self.old }
    {
        self.ranks.truncate(count);
        self.numbers.truncate(count);
    }
}
