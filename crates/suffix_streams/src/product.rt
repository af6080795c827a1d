//! The solutions of a row as sums of those of its children.
ghost use Rattle.std.specs.Prelude.{◌≡◌, ℕ, ◌+◌, ◌*◌, ◌^◌, ◌<◌, ◌≤◌, ◌↔◌, [], ◌∷◌, ◌++◌, cond, length, slice_index_or, IfOk, OnOk, OnErr, IsSome, IfSome, IsTrue};
ghost use Rattle.std.specs.List.Sorted.{IsPermutation};
ghost use Rattle.rank_key.specs.Bits.{bit_length};
ghost use Rattle.take2_heap.specs.Order.{IsMinHeap, IsLeast};
ghost use Rattle.take2_heap.specs.declared.entry.Entry.{Entry};
ghost use Rattle.suffix_streams.specs.Offers.{offers};
ghost use Rattle.suffix_streams.specs.declared.cell.Cell.{Cell};
ghost use Rattle.suffix_streams.specs.ProductView.{with_rank};

use crate::cell::Cell;
use crate::lists::list_of;
use crate::waiting::{offer, take};
use rank_key::Rank;
use std::alloc::Allocator;
use std::marker::Model;
use std::sync::ledger::Ledger;
use step_counter::{NoMemory, Steps};
use stream_store::EntryId;
use take2_heap::{Entry, HeapOf};

/// The solutions that a product found, in their order.
#[derive(Drop)]
enum Sums<R: Rank, A: Allocator> {
    /// Of a row's last product: their cells alone.
    Cells(Vec<Cell, A>),
    /// Of a product that is the left part of another one: each cell beside its rank, since a step
    /// writes both.
    Ranked(Vec<Entry<R, Cell>, A>),
}

/// The solutions of a row with its first children, as sums of those with one child less and of the
/// solutions of the last child's group. It has the cell of each solution that was found, at least
/// one, and a queue of the sums that were offered and are not found yet. A product that is the left
/// part of another one keeps the ranks of its solutions too.
#[derive(Drop)]
pub(crate) struct Product<R: Rank, A: Allocator> {
    /// The last solution found, as a sum, or `None` if no further one follows.
    last: Option<Entry<R, Cell>>,
    waiting: HeapOf<R, Cell, A>,
    /// It is beside `waiting`, since each step reads both, and before the queue of the row's next
    /// product, whose steps read it too.
    found: Sums<R, A>,
}

impl<R: Rank, A: Allocator> Model for Product<R, A> {
    ghost use Rattle.std.specs.Prelude.{◌≡◌, ◌-◌, ◌<◌, ◌^◌, None, [], length, min, IfSome, IfNone};
    ghost use Rattle.take2_heap.specs.Order.{IsLeast};
    ghost use Rattle.suffix_streams.specs.Offers.{offers};
    ghost use Rattle.suffix_streams.specs.ProductView.{ProductView};
    ghost use Rattle.suffix_streams.specs.Sums.{cells_of, ranks_of, spare_of};

    ghost Value = { ProductView R };

    ghost view = { λ p. record {
      found = cells_of p.found;
      ranks = ranks_of p.found;
      frontier = offers p.last None p.waiting.entries;
      room = min (spare_of p.found) (2 ^ 32 - 1 - length (cells_of p.found));
      frontier_room = p.waiting.spare;
    } };

    ghost invariant = { λ p. (0 < length (cells_of p.found))
        × (length (cells_of p.found) < 2 ^ 32)
        × IfSome p.last (λ e. IsLeast R.KEYS R.key e p.waiting.entries)
        × IfNone p.last (p.waiting.entries ≡ []) × (length p.waiting.entries < 2 ^ 64) };
}

impl<R: Rank, A: Allocator + Clone> Product<R, A> {
    /// The product whose first solution has this rank and this right part. `NoMemory` if memory is
    /// refused.
    pub(crate) fn new(
        alloc: &A,
        rank: R,
        right: EntryId,
        keeps_ranks: bool,
    ) -> Result<Product<R, A>, NoMemory>
        ensures found { IfOk result (λ p. p.found ≡ record { left = 0; right = right } ∷ []) }
        ensures ranks { IfOk result (λ p. p.ranks ≡ cond keeps_ranks (rank ∷ []) []) }
        ensures frontier { IfOk result
            (λ p. p.frontier ≡ record { rank = rank; tag = record { left = 0; right = right } }
            ∷ []) }
    {
        let first = Entry {
            rank,
            tag: Cell { left: 0, right },
        };
        let own = alloc.clone()?;
        let found = Sums::of(alloc, first, keeps_ranks)?;
        Ok(Product {
            last: Some(first),
            waiting: HeapOf::new(own),
            found,
        })
    }

    /// Makes room for one more solution, and for one more sum in the queue if `beside`: then the sum
    /// beside the last solution may enter. `NoMemory` if memory is
    /// refused, or if there are as many solutions as a place can name.
    pub(crate) fn reserve(&mut self, beside: bool) -> Result<(), NoMemory>
        ensures found { self.new.found ≡ self.old.found }
        ensures ranks { self.new.ranks ≡ self.old.ranks }
        ensures frontier { self.new.frontier ≡ self.old.frontier }
        ensures room { OnOk result (0 < self.new.room) }
        ensures frontier_room { OnOk result (IsTrue beside → 0 < self.new.frontier_room) }
    {
        if self.found.len() >= u32::MAX as usize {
            return Err(NoMemory);
        }
        self.found.reserve()?;
        self.waiting.reserve(beside as usize)
    }
}

impl<R: Rank, A: Allocator> Product<R, A> {
    /// The number of solutions that were found.
    pub(crate) fn len(&self) -> u32
        ensures { result ≡ length self.now.found }
    {
        self.found.len() as u32
    }

    /// The cell of the solution at a place, from 0.
    pub(crate) fn cell(&self, place: u32) -> Cell
        requires { place < length self.now.found }
        ensures { (d : Cell) → result ≡ slice_index_or self.now.found place d }
    {
        self.found.cell(place as usize)
    }

    /// The rank of the solution at a place, from 0. The product must keep ranks.
    pub(crate) fn rank(&self, place: u32) -> R
        requires { place < length self.now.ranks }
        ensures { (d : R) → result ≡ slice_index_or self.now.ranks place d }
    {
        self.found.rank(place as usize)
    }

    /// The last solution found, as a sum, or `None` if no further one follows.
    pub(crate) fn top(&self) -> Option<Entry<R, Cell>>
        ensures variant { IsSome result ↔ (0 < length self.now.frontier) }
        ensures top { IfSome result
            (λ e. (d : Entry R Cell) → e ≡ slice_index_or self.now.frontier 0 d) }
        ensures least { IfSome result (λ e. IsLeast R.KEYS R.key e self.now.frontier) }
    {
        self.last
    }

    /// Passes the last solution found, and keeps the one that follows, if there is one, in room
    /// that was made for it. `down` and `across` enter the frontier.
    pub(crate) fn step<L: Ledger>(
        &mut self,
        down: Option<Entry<R, Cell>>,
        across: Option<Entry<R, Cell>>,
        steps: &mut Steps<L>,
    )
        requires top { 0 < length self.old.frontier }
        requires frontier_room { IsSome across → 0 < self.old.frontier_room }
        requires room { 0 < self.old.room }
        ensures moved { (d : Entry R Cell)
            → IsPermutation (offers down across self.old.frontier)
            (slice_index_or self.old.frontier 0 d ∷ self.new.frontier) }
        ensures least { (d : Entry R Cell)
            → IsLeast R.KEYS R.key (slice_index_or self.old.frontier 0 d) self.old.frontier }
        ensures limit { length self.new.frontier ≤ 2 ^ 64 }
        ensures ended { length self.new.frontier ≡ 0
            → (self.new.found ≡ self.old.found) × (self.new.ranks ≡ self.old.ranks) }
        ensures found { (d : Entry R Cell) → 0 < length self.new.frontier
            → self.new.found
            ≡ self.old.found ++ (slice_index_or self.new.frontier 0 d).tag ∷ [] }
        ensures ranks { (d : Entry R Cell) → 0 < length self.new.frontier
            → self.new.ranks
            ≡ with_rank self.old.ranks (slice_index_or self.new.frontier 0 d).rank }
        ensures next { (d : Entry R Cell) → 0 < length self.new.frontier
            → IsLeast R.KEYS R.key (slice_index_or self.new.frontier 0 d) self.new.frontier }
        ensures cost { steps.new
            ≤ steps.old + 1 + 2 * bit_length (length self.old.frontier)
            + bit_length (length self.old.frontier + 1) }
    {
        offer(&mut self.waiting, across, steps);
        self.last = take(&mut self.waiting, down, steps);
        if let Some(sum) = self.last {
            self.found.push_reserved(sum);
        }
    }
}

impl<R: Rank, A: Allocator + Clone> Sums<R, A> {
    ghost use Rattle.suffix_streams.specs.Sums.{cells_of, ranks_of};

    /// This solution alone, with its rank if `keeps_ranks`. `NoMemory` if memory is refused.
    fn of(alloc: &A, sum: Entry<R, Cell>, keeps_ranks: bool) -> Result<Sums<R, A>, NoMemory>
        ensures cells { IfOk result (λ s. cells_of s ≡ sum.tag ∷ []) }
        ensures ranks { IfOk result (λ s. ranks_of s ≡ cond keeps_ranks (sum.rank ∷ []) []) }
    {
        if keeps_ranks {
            let sums = list_of(alloc, sum)?;
            Ok(Sums::Ranked(sums))
        } else {
            let cells = list_of(alloc, sum.tag)?;
            Ok(Sums::Cells(cells))
        }
    }
}

impl<R: Rank, A: Allocator> Sums<R, A> {
    ghost use Rattle.suffix_streams.specs.Sums.{cells_of, ranks_of, spare_of};

    /// The number of solutions.
    fn len(&self) -> usize
        ensures { result ≡ length (cells_of self.now) }
    {
        match self {
            Sums::Cells(cells) => cells.len(),
            Sums::Ranked(sums) => sums.len(),
        }
    }

    /// The cell of the solution at a place, from 0.
    fn cell(&self, place: usize) -> Cell
        requires { place < length (cells_of self.now) }
        ensures { (d : Cell) → result ≡ slice_index_or (cells_of self.now) place d }
    {
        match self {
            Sums::Cells(cells) => cells[place],
            Sums::Ranked(sums) => sums[place].tag,
        }
    }

    /// The rank of the solution at a place, from 0. Ranks must be kept.
    fn rank(&self, place: usize) -> R
        requires { place < length (ranks_of self.now) }
        ensures { (d : R) → result ≡ slice_index_or (ranks_of self.now) place d }
    {
        match self {
            Sums::Cells(_) => unreachable!(),
            Sums::Ranked(sums) => sums[place].rank,
        }
    }

    /// Makes room for one more solution. `NoMemory` if memory is refused.
    fn reserve(&mut self) -> Result<(), NoMemory>
        ensures cells { cells_of self.new ≡ cells_of self.old }
        ensures ranks { ranks_of self.new ≡ ranks_of self.old }
        ensures spare { OnOk result (0 < spare_of self.new) }
    {
        let reserved = match self {
            Sums::Cells(cells) => cells.reserve(1),
            Sums::Ranked(sums) => sums.reserve(1),
        };
        Ok(reserved?)
    }

    /// Adds one more solution to those that there are, in room that was made for it.
    fn push_reserved(&mut self, sum: Entry<R, Cell>)
        requires some { 0 < length (cells_of self.old) }
        requires spare { 0 < spare_of self.old }
        ensures cells { cells_of self.new ≡ cells_of self.old ++ sum.tag ∷ [] }
        ensures ranks { ranks_of self.new ≡ with_rank (ranks_of self.old) sum.rank }
    {
        match self {
            Sums::Cells(cells) => cells.push_reserved(sum.tag),
            Sums::Ranked(sums) => sums.push_reserved(sum),
        }
    }
}
