//! The data of one node of the tree.
ghost use Rattle.std.specs.Prelude.{◌≡◌, ℕ, ◌+◌, ◌*◌, ◌^◌, ◌<◌, ◌≤◌, ◌↔◌, None, [], ◌∷◌, ◌++◌, length, slice_set, slice_index, slice_index_or, OnOk, OnErr, IsSome, IfSome, IsTrue};
ghost use Rattle.std.specs.List.Sorted.{IsPermutation};
ghost use Rattle.rank_key.specs.Bits.{bit_length};
ghost use Rattle.take2_heap.specs.Order.{IsLeast};
ghost use Rattle.take2_heap.specs.declared.entry.Entry.{Entry};
ghost use Rattle.suffix_streams.specs.Offers.{offers};
ghost use Rattle.suffix_streams.specs.declared.cell.Cell.{Cell};
ghost use Rattle.suffix_streams.specs.declared.source.Source.{Source};
ghost use Rattle.suffix_streams.specs.ProductView.{with_rank};
ghost use Rattle.suffix_streams.specs.Firsts.{IsGiven, can_enter};
ghost use Rattle.suffix_streams.specs.NodeStreamsView.{HasHead, known_of, product_at, stream_at, with_product, with_queue};

use crate::cell::Cell;
use crate::opened::RowProducts;
use crate::product::Product;
use crate::source::Source;
use crate::stream::entering;
use crate::waiting::{offer, take};
use rank_key::Rank;
use std::alloc::Allocator;
use std::marker::Model;
use std::sync::ledger::Ledger;
use step_counter::{NoMemory, Steps};
use stream_store::{EntryId, Run};
use take2_heap::{Entry, HeapOf};

/// The data of one node: its children, the stream of each of its groups, and the products of those
/// of its rows of which a second solution was asked for.
#[derive(Drop)]
pub(crate) struct NodeStreams<R: Rank, A: Allocator> {
    pub(crate) children: Vec<u32, A>,
    /// The first entry of each group. They are one run of the store, so that none is kept for each
    /// group.
    pub(crate) heads: Run,
    /// For each group a queue of what was offered to its stream and is not given yet. The stream
    /// begins with the first solution of the group's first member. The first solution of each other
    /// member enters when the one of the member above it in the group's heap is passed, and a later
    /// solution when the one before it is passed. A queue of none takes no memory.
    pub(crate) streams: Vec<HeapOf<R, Source, A>, A>,
    pub(crate) products: RowProducts<R, A>,
}

impl<R: Rank, A: Allocator> Model for NodeStreams<R, A> {
    ghost use Rattle.std.specs.Prelude.{◌≡◌, length};
    ghost use Rattle.suffix_streams.specs.StreamView.{headed};
    ghost use Rattle.suffix_streams.specs.NodeStreamsView.{NodeStreamsView};

    ghost Value = { NodeStreamsView R };

    ghost view = { λ n. record {
      children = n.children.items;
      streams = headed n.heads.first n.streams.items;
      products = n.products;
    } };

    ghost invariant = { λ n. n.heads.count ≡ length n.streams.items };
}

impl<R: Rank, A: Allocator> NodeStreams<R, A> {
    /// The number of children of the node.
    pub(crate) fn child_count(&self) -> usize
        ensures { result ≡ length self.now.children }
    {
        self.children.len()
    }

    /// The child at a place, from 0. Children are in ascending order.
    pub(crate) fn child(&self, place: usize) -> u32
        requires place { place < length self.now.children }
        ensures { result ≡ slice_index self.now.children place }
    {
        self.children[place]
    }

    /// The first entry of a group.
    pub(crate) fn head(&self, group: u32) -> EntryId
        requires group { group < length self.now.streams }
        ensures { result ≡ (stream_at self.now group).head }
    {
        self.heads.get(group)
    }

    /// Whether an entry is the first one of a group. Its name alone tells, so nothing of the entry
    /// is read.
    pub(crate) fn is_head(&self, entry: EntryId) -> bool
        ensures { IsTrue result ↔ HasHead self.now entry }
    {
        self.heads.contains(entry)
    }

    /// The number of products of a row.
    pub(crate) fn product_count(&self, row: u32) -> usize
        ensures { result ≡ length (slice_index_or self.now.products row []) }
    {
        self.products.count_of(row)
    }

    /// Whether the products of a row are still to be made: the node has several children, and the
    /// row has no products.
    pub(crate) fn lacks_products(&self, row: u32) -> bool
        ensures { IsTrue result
            ↔ ((length (slice_index_or self.now.products row []) < length self.now.children)
            × (1 < length self.now.children)) }
    {
        let children = self.children.len();
        children > 1 && self.products.count_of(row) < children
    }

    /// The number of known solutions of a row with its first `count` children.
    pub(crate) fn known(&self, row: u32, count: usize) -> u32
        requires count { count ≤ length (slice_index_or self.now.products row []) }
        ensures { result ≡ known_of self.now row count }
    {
        if count == 0 {
            1
        } else {
            self.products.product(row, count - 1).len()
        }
    }

    /// The cell of a solution of a row with its first children up to number `child`, by its place
    /// from 0.
    pub(crate) fn cell(&self, row: u32, child: usize, place: u32) -> Cell
        requires child { child < length (slice_index_or self.now.products row []) }
        requires place { place < length (product_at self.now row child).found }
        ensures { (d : Cell)
            → result ≡ slice_index_or (product_at self.now row child).found place d }
    {
        self.products.product(row, child).cell(place)
    }

    /// The rank of this solution. The product must keep ranks.
    pub(crate) fn rank(&self, row: u32, child: usize, place: u32) -> R
        requires child { child < length (slice_index_or self.now.products row []) }
        requires place { place < length (product_at self.now row child).ranks }
        ensures { (d : R) → result ≡ slice_index_or (product_at self.now row child).ranks place d }
    {
        self.products.product(row, child).rank(place)
    }

    /// The last sum that a product found, or `None` if no further one follows.
    pub(crate) fn product_top(&self, row: u32, child: usize) -> Option<Entry<R, Cell>>
        requires child { child < length (slice_index_or self.now.products row []) }
        ensures variant { IsSome result ↔ (0 < length (product_at self.now row child).frontier) }
        ensures top { IfSome result
            (λ e. (d : Entry R Cell)
            → e ≡ slice_index_or (product_at self.now row child).frontier 0 d) }
        ensures least { IfSome result
            (λ e. IsLeast R.KEYS R.key e (product_at self.now row child).frontier) }
    {
        self.products.product(row, child).top()
    }

    /// Passes the last solution of a product, and keeps the one that follows, if there is one, in
    /// room that was made for it. `down` and `across` enter the product's frontier.
    pub(crate) fn step_product<L: Ledger>(
        &mut self,
        row: u32,
        child: usize,
        down: Option<Entry<R, Cell>>,
        across: Option<Entry<R, Cell>>,
        steps: &mut Steps<L>,
    )
        requires child { child < length (slice_index_or self.old.products row []) }
        requires top { 0 < length (product_at self.old row child).frontier }
        requires frontier_room { IsSome across
            → 0 < (product_at self.old row child).frontier_room }
        requires room { 0 < (product_at self.old row child).room }
        ensures changed { self.new
            ≡ with_product self.old row child (product_at self.new row child) }
        ensures moved { (d : Entry R Cell)
            → IsPermutation (offers down across (product_at self.old row child).frontier)
            (slice_index_or (product_at self.old row child).frontier 0 d
            ∷ (product_at self.new row child).frontier) }
        ensures least { (d : Entry R Cell)
            → IsLeast R.KEYS R.key (slice_index_or (product_at self.old row child).frontier 0 d)
            (product_at self.old row child).frontier }
        ensures limit { length (product_at self.new row child).frontier ≤ 2 ^ 64 }
        ensures ended { length (product_at self.new row child).frontier ≡ 0
            → ((product_at self.new row child).found ≡ (product_at self.old row child).found)
            × ((product_at self.new row child).ranks ≡ (product_at self.old row child).ranks) }
        ensures found { (d : Entry R Cell) → 0 < length (product_at self.new row child).frontier
            → (product_at self.new row child).found
            ≡ (product_at self.old row child).found
            ++ (slice_index_or (product_at self.new row child).frontier 0 d).tag ∷ [] }
        ensures ranks { (d : Entry R Cell) → 0 < length (product_at self.new row child).frontier
            → (product_at self.new row child).ranks
            ≡ with_rank (product_at self.old row child).ranks
            (slice_index_or (product_at self.new row child).frontier 0 d).rank }
        ensures next { (d : Entry R Cell) → 0 < length (product_at self.new row child).frontier
            → IsLeast R.KEYS R.key (slice_index_or (product_at self.new row child).frontier 0 d)
            (product_at self.new row child).frontier }
        ensures cost { steps.new
            ≤ steps.old + 1 + 2 * bit_length (length (product_at self.old row child).frontier)
            + bit_length (length (product_at self.old row child).frontier + 1) }
    {
        let product = self.products.product_mut(row, child);
        product.step(down, across, steps);
    }

    /// Gives the next solution of a group: the least of what was offered, with the next one of the
    /// row whose solution was given last and the first ones of the members below, if there are any.
    /// `None` if there is none.
    pub(crate) fn give<L: Ledger>(
        &mut self,
        group: u32,
        next: Option<Entry<R, Source>>,
        left: Option<Entry<R, Source>>,
        right: Option<Entry<R, Source>>,
        steps: &mut Steps<L>,
    ) -> Option<Entry<R, Source>>
        requires group { group < length self.old.streams }
        requires left_room { IsSome left → 0 < (stream_at self.old group).room }
        requires right_room { IsSome right → 1 < (stream_at self.old group).room }
        ensures changed { self.new
            ≡ with_queue self.old group (stream_at self.new group).queue
            (stream_at self.new group).room }
        ensures given { IsGiven R.KEYS R.key next left right (stream_at self.old group).queue
            (stream_at self.new group).queue result }
        ensures none { result ≡ None → self.new ≡ self.old }
        ensures cost { steps.new
            ≤ steps.old + 1 + 4 * bit_length (length (stream_at self.new group).queue + 1) }
    {
        let queue = &mut self.streams[group as usize];
        offer(queue, left, steps);
        offer(queue, right, steps);
        take(queue, next, steps)
    }
}

impl<R: Rank, A: Allocator + Clone> NodeStreams<R, A> {
    /// Sets the products of a row. `NoMemory` if memory is refused, and the node stays as it is then.
    pub(crate) fn set_products(
        &mut self,
        row: u32,
        products: Vec<Product<R, A>, A>,
    ) -> Result<(), NoMemory>
        requires row { row < length self.old.products }
        ensures set { OnOk result (self.new ≡ record self.old
            { products = slice_set self.old.products row products.items }) }
        ensures refused { OnErr result (self.new ≡ self.old) }
    {
        self.products.open(row, products)
    }

    /// Makes room for one more solution in a product. The first product of a row has one left part,
    /// so no sum is beside another there. `NoMemory` if memory is refused.
    pub(crate) fn reserve_product(&mut self, row: u32, child: usize) -> Result<(), NoMemory>
        requires child { child < length (slice_index_or self.old.products row []) }
        ensures changed { self.new
            ≡ with_product self.old row child (product_at self.new row child) }
        ensures found { (product_at self.new row child).found
            ≡ (product_at self.old row child).found }
        ensures ranks { (product_at self.new row child).ranks
            ≡ (product_at self.old row child).ranks }
        ensures frontier { (product_at self.new row child).frontier
            ≡ (product_at self.old row child).frontier }
        ensures room { OnOk result (0 < (product_at self.new row child).room) }
        ensures frontier_room { OnOk result
            (0 < child → 0 < (product_at self.new row child).frontier_room) }
    {
        let product = self.products.product_mut(row, child);
        product.reserve(child > 0)
    }

    /// Makes room in the queue of a group for the first solutions that can enter at once. `NoMemory`
    /// if memory is refused.
    pub(crate) fn reserve_queue(&mut self, group: u32, members: u32) -> Result<(), NoMemory>
        requires group { group < length self.old.streams }
        ensures changed { self.new
            ≡ with_queue self.old group (stream_at self.old group).queue
            (stream_at self.new group).room }
        ensures room { OnOk result (can_enter members ≤ (stream_at self.new group).room) }
    {
        let queue = &mut self.streams[group as usize];
        queue.reserve(entering(members))
    }
}
