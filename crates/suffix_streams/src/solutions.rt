//! The next solution of a stream, and the steps at the nodes below it.
ghost use Rattle.std.specs.Prelude.{◌≡◌, ◌≢◌, ℕ, ◌+◌, ◌*◌, ◌<◌, ◌≤◌, ◌↔◌, Option, cond, nat_eq, length, slice_set, slice_index, slice_index_or, IfOk, MatchOption, IfSome, OnOk, OnErr, IsOk, IsSome, IsTrue, IsFalse};
ghost use Rattle.take2_heap.specs.declared.entry.Entry.{Entry};
ghost use Rattle.tdp_core.specs.TreeView.{parent, rows, child_count, group_count, group_named, members, number as row_number};
ghost use Rattle.tdp_core.specs.WellFormed.{IsTieFreeTree};
ghost use Rattle.tdp_model.specs.Below.{is_below};
ghost use Rattle.rank_key.specs.Bits.{bit_length};
ghost use Rattle.suffix_streams.specs.Rankings.{child as child_node};
ghost use Rattle.suffix_streams.specs.declared.source.Source.{Source};
ghost use Rattle.suffix_streams.specs.TreeStreams.{IsStreams, node_of, next_of, node_size, lists_of, stream_of, product_of, products_of, part_known, row_known};
ghost use Rattle.suffix_streams.specs.NodeStreamsView.{HasHead, with_queue};
ghost use Rattle.suffix_streams.specs.Firsts.{AreFirstsGiven, can_enter};
ghost use Rattle.stream_store.specs.declared.linked.Linked.{Linked};
ghost use Rattle.suffix_streams.specs.declared.stream.Found.{Found};
ghost use Rattle.suffix_streams.specs.LastEntries.{IsLast, IsRowNext, IsRowTop};
ghost use Rattle.suffix_streams.specs.ProductTops.{IsStepReady};
ghost use Rattle.suffix_streams.specs.Refusals.{AreUnstepped};
ghost use Rattle.suffix_streams.specs.Growing.{IsStoreGrown, IsGrown, IsExtended, IsReached, IsAnswered, HasOtherProduct, AreQueuesGrown, IsWithinSteps, below_kids, kids_size};

use crate::cell::{Cell, RowPart, cell_beside};
use crate::members::firsts_below;
use crate::node::NodeStreams;
use crate::reads::{child_offer, make_products, offer_below, offered, row_offer};
use crate::source::Source;
use crate::stream::Found;
use rank_key::Rank;
use std::alloc::Allocator;
use std::sync::ledger::Ledger;
use step_counter::{NoMemory, Steps};
use stream_store::{EntryId, Store};
use take2_heap::Entry;
use tdp_core::Tree;

/// The subtree solutions that were found so far.
#[derive(Drop)]
pub(crate) struct Solutions<'t, R: Rank, A: Allocator + Clone> {
    pub(crate) tree: &'t Tree<R>,
    pub(crate) entries: Store<Found<R>, A>,
    pub(crate) nodes: Vec<NodeStreams<R, A>, A>,
}

impl<'t, R: Rank, A: Allocator + Clone> Solutions<'t, R, A> {
    /// The entry after `entry`, or `None` if it is the last of its group. `NoMemory` if memory is
    /// refused.
    #[cycle(growth)]
    pub(crate) fn after<L: Ledger>(
        &mut self,
        entry: EntryId,
        steps: &mut Steps<L>,
    ) -> Result<Option<EntryId>, NoMemory>
        requires formed { IsStreams R.KEYS R.key self.old.tree.now self.old.entries.entries
            self.old.nodes.items }
        requires tie_free { IsTieFreeTree self.old.tree.now }
        requires entry { entry < length self.old.entries.entries }
        ensures formed { IsStreams R.KEYS R.key self.new.tree.now self.new.entries.entries
            self.new.nodes.items }
        ensures tree { self.new.tree.now ≡ self.old.tree.now }
        ensures grown { IsGrown (parent self.old.tree.now)
            (node_of self.old.entries.entries entry) self.old.entries.entries self.old.nodes.items
            self.new.entries.entries self.new.nodes.items }
        ensures answer { IfOk result
            (IsAnswered R.KEYS R.key self.old.tree.now self.new.entries.entries entry) }
        ensures known { IsSome (next_of self.old.entries.entries entry)
            → (IsOk result) × (self.new ≡ self.old) × (steps.new ≤ steps.old + 4) }
        ensures queues { AreQueuesGrown
            (is_below (parent self.old.tree.now)
            (node_of self.old.entries.entries entry)) self.old.nodes.items self.new.nodes.items }
        ensures cost { IsWithinSteps self.old.tree.now self.old.nodes.items
            (is_below (parent self.old.tree.now) (node_of self.old.entries.entries entry))
            (λ b. 14 + 4 * b + 20
            * kids_size self.old.tree.now (node_of self.old.entries.entries entry)
            (child_count self.old.tree.now (node_of self.old.entries.entries entry))
            * (1 + b)) steps.old steps.new }
    {
        if let Some(next) = self.entries.next_of(entry, steps) {
            return Ok(Some(next));
        }
        let found = *self.entries.get(entry, steps);
        let (node, group, top) = (found.node, found.group, found.solution);
        self.open_row(node, group, top.tag.row, top.tag.place, steps)?;
        let next = self.row_after(node, group, &top, steps)?;
        Ok(self.advance(entry, node, group, &top, next, steps))
    }

    /// The solution of a row after `top`, which is the last of the group's stream and comes from an
    /// open row, or `None` if it is the row's last. Room is made for one more entry. If the node has
    /// one child, the row's solutions are those of the child's group, in their order. `NoMemory` if
    /// memory is refused, or if there are as many solutions as a place can name.
    #[cycle(growth)]
    fn row_after<L: Ledger>(
        &mut self,
        node: u32,
        group: u32,
        top: &Entry<R, Source>,
        steps: &mut Steps<L>,
    ) -> Result<Option<Entry<R, Source>>, NoMemory>
        requires formed { IsStreams R.KEYS R.key self.old.tree.now self.old.entries.entries
            self.old.nodes.items }
        requires tie_free { IsTieFreeTree self.old.tree.now }
        requires top { IsRowTop R.KEYS R.key self.old.tree.now self.old.entries.entries
            self.old.nodes.items node group top.now }
        ensures formed { IsStreams R.KEYS R.key self.new.tree.now self.new.entries.entries
            self.new.nodes.items }
        ensures tree { self.new.tree.now ≡ self.old.tree.now }
        ensures extended { IsExtended self.old.tree.now node top.now.tag.row
            (child_count self.old.tree.now node) self.old.entries.entries self.old.nodes.items
            self.new.entries.entries self.new.nodes.items }
        ensures next { IfOk result (IsRowNext R.KEYS R.key self.old.tree.now
            self.new.entries.entries self.new.nodes.items node top.now.tag) }
        ensures room { OnOk result (0 < self.new.entries.spare) }
        ensures queues { AreQueuesGrown
            (λ v. below_kids self.old.tree.now node (child_count self.old.tree.now node) v
            + cond (nat_eq v node) 1 0) self.old.nodes.items self.new.nodes.items }
        ensures cost { IsWithinSteps self.old.tree.now self.old.nodes.items
            (λ v. below_kids self.old.tree.now node (child_count self.old.tree.now node) v
            + cond (nat_eq v node) 1 0)
            (λ b. 20 * kids_size self.old.tree.now node (child_count self.old.tree.now node)
            * (1 + b)) steps.old (steps.new + 3 * child_count self.old.tree.now node) }
    {
        let Some(place) = top.tag.place.checked_add(1) else {
            return Err(NoMemory);
        };
        let count = self.nodes[node as usize].child_count();
        if count == 1 {
            let below = self.after(top.tag.cell.right, steps)?;
            self.entries.reserve(1)?;
            return Ok(child_offer(&self.entries, top, place, below, steps));
        }
        self.extend(node, top.tag.row, count, place, steps)?;
        let next = Source { place, ..top.tag };
        let nodes = self.nodes.as_slice();
        Ok(row_offer(self.tree, nodes, &self.entries, node, next, steps))
    }

    /// Finds the solution at `place` of a row with its first `count` children, unless it is known
    /// or there is none, and makes room for one more entry. `NoMemory` is returned only before the
    /// first change of a product of the node.
    #[cycle(growth)]
    fn extend<L: Ledger>(
        &mut self,
        node: u32,
        row: u32,
        count: usize,
        place: u32,
        steps: &mut Steps<L>,
    ) -> Result<(), NoMemory>
        requires formed { IsStreams R.KEYS R.key self.old.tree.now self.old.entries.entries
            self.old.nodes.items }
        requires tie_free { IsTieFreeTree self.old.tree.now }
        requires node { node < length self.old.tree.now }
        requires row { row < rows self.old.tree.now node }
        requires count { count ≤ length (products_of self.old.nodes.items node row) }
        requires place { place ≤ part_known self.old.nodes.items node row count }
        ensures formed { IsStreams R.KEYS R.key self.new.tree.now self.new.entries.entries
            self.new.nodes.items }
        ensures tree { self.new.tree.now ≡ self.old.tree.now }
        ensures extended { IsExtended self.old.tree.now node row count self.old.entries.entries
            self.old.nodes.items self.new.entries.entries self.new.nodes.items }
        ensures reached { OnOk result
            (IsReached R.KEYS R.key self.old.tree.now self.new.nodes.items node row count place) }
        ensures room { OnOk result (0 < self.new.entries.spare) }
        ensures refused { OnErr result
            (AreUnstepped node self.old.nodes.items self.new.nodes.items) }
        ensures queues { AreQueuesGrown
            (λ v. below_kids self.old.tree.now node count v
            + cond (nat_eq v node) 1 0) self.old.nodes.items self.new.nodes.items }
        ensures cost { IsWithinSteps self.old.tree.now self.old.nodes.items
            (λ v. below_kids self.old.tree.now node count v + cond (nat_eq v node) 1 0)
            (λ b. 20 * kids_size self.old.tree.now node count * (1 + b)) steps.old
            (steps.new + 6 * count) }
    {
        if place < self.nodes[node as usize].known(row, count) || count == 0 {
            return self.entries.reserve(1);
        }
        self.search(node, row, count, steps)
    }

    /// Finds one more solution of a row with its first `count` children, unless there is none, and
    /// makes room for one more entry. `NoMemory` is returned only before the first change of a
    /// product of the node.
    #[cycle(growth)]
    fn search<L: Ledger>(
        &mut self,
        node: u32,
        row: u32,
        count: usize,
        steps: &mut Steps<L>,
    ) -> Result<(), NoMemory>
        requires formed { IsStreams R.KEYS R.key self.old.tree.now self.old.entries.entries
            self.old.nodes.items }
        requires tie_free { IsTieFreeTree self.old.tree.now }
        requires node { node < length self.old.tree.now }
        requires row { row < rows self.old.tree.now node }
        requires some { 0 < count }
        requires count { count ≤ length (products_of self.old.nodes.items node row) }
        ensures formed { IsStreams R.KEYS R.key self.new.tree.now self.new.entries.entries
            self.new.nodes.items }
        ensures tree { self.new.tree.now ≡ self.old.tree.now }
        ensures extended { IsExtended self.old.tree.now node row count self.old.entries.entries
            self.old.nodes.items self.new.entries.entries self.new.nodes.items }
        ensures reached { OnOk result
            (IsReached R.KEYS R.key self.old.tree.now self.new.nodes.items node row count
            (part_known self.old.nodes.items node row count)) }
        ensures room { OnOk result (0 < self.new.entries.spare) }
        ensures refused { OnErr result
            (AreUnstepped node self.old.nodes.items self.new.nodes.items) }
        ensures queues { AreQueuesGrown
            (λ v. below_kids self.old.tree.now node count v
            + cond (nat_eq v node) 1 0) self.old.nodes.items self.new.nodes.items }
        ensures cost { IsWithinSteps self.old.tree.now self.old.nodes.items
            (λ v. below_kids self.old.tree.now node count v + cond (nat_eq v node) 1 0)
            (λ b. 20 * kids_size self.old.tree.now node count * (1 + b)) steps.old
            (steps.new + 6 * count) }
    {
        let child = count - 1;
        let Some(top) = self.nodes[node as usize].product_top(row, child) else {
            return self.entries.reserve(1);
        };
        let cell = top.tag;
        make_room(&mut self.nodes, node, row, child)?;
        let below = self.after(cell.right, steps)?;
        let beside = has_beside(self.nodes.as_slice(), node, child, cell.right);
        let (earlier, next) = self.left_search(node, row, child, &cell, beside);
        self.extend(node, row, earlier, next, steps)?;
        self.step(RowPart { node, row, child }, &top, below, beside, steps);
        Ok(())
    }
}

impl<'t, R: Rank, A: Allocator + Clone> Solutions<'t, R, A> {
    /// The search in the product before number `child` that a step from `cell` needs, as a number
    /// of children and a place. It is for the next left part if the step can go `beside` the cell,
    /// else for none.
    fn left_search(
        &self,
        node: u32,
        row: u32,
        child: usize,
        cell: &Cell,
        beside: bool,
    ) -> (usize, u32)
        requires node { node < length self.now.nodes.items }
        requires child { child ≤ length (products_of self.now.nodes.items node row) }
        requires left { cell.now.left < part_known self.now.nodes.items node row child }
        ensures beside { IsTrue beside → (result.0 ≡ child) × (result.1 ≡ cell.now.left + 1) }
        ensures apart { IsFalse beside → (result.0 ≡ 0) × (result.1 ≡ 0) }
    {
        if beside {
            prove!(cell.left < self.nodes[node as usize].known(row, child));
            (child, cell.left + 1)
        } else {
            (0, 0)
        }
    }

    /// Before a known solution of a row is passed, of which this is the place. If it is the first
    /// one, what follows needs room in the queue of the group, and the products of the row, one for
    /// each child if there are several. Both are made then, unless they are there already.
    /// `NoMemory` if memory is refused.
    fn open_row<L: Ledger>(
        &mut self,
        node: u32,
        group: u32,
        row: u32,
        place: u32,
        steps: &mut Steps<L>,
    ) -> Result<(), NoMemory>
        requires formed { IsStreams R.KEYS R.key self.old.tree.now self.old.entries.entries
            self.old.nodes.items }
        requires tie_free { IsTieFreeTree self.old.tree.now }
        requires node { node < length self.old.tree.now }
        requires group { group < group_count self.old.tree.now node }
        requires row { row < rows self.old.tree.now node }
        requires place { child_count self.old.tree.now node ≢ 1
            → place < row_known self.old.nodes.items node row }
        ensures formed { IsStreams R.KEYS R.key self.new.tree.now self.new.entries.entries
            self.new.nodes.items }
        ensures tree { self.new.tree.now ≡ self.old.tree.now }
        ensures entries { self.new.entries ≡ self.old.entries }
        ensures above { (v : ℕ) → v ≢ node
            → lists_of self.new.nodes.items v ≡ lists_of self.old.nodes.items v }
        ensures streams { (lists_of self.new.nodes.items node).streams
            ≡ (with_queue (lists_of self.old.nodes.items node) group
            (stream_of self.old.nodes.items node group).queue
            (stream_of self.new.nodes.items node group).room).streams }
        ensures room { OnOk result
            (place ≡ 0 → can_enter (length (members self.old.tree.now node group))
            ≤ (stream_of self.new.nodes.items node group).room) }
        ensures count { OnOk result (child_count self.old.tree.now node ≢ 1
            → length (products_of self.new.nodes.items node row)
            ≡ child_count self.old.tree.now node) }
        ensures queues { AreQueuesGrown (λ _. 0) self.old.nodes.items self.new.nodes.items }
        ensures cost { steps.new ≤ steps.old + 1 + 3 * child_count self.old.tree.now node }
    {
        if place > 0 {
            return Ok(());
        }
        let members = self.tree.group_len(node, group);
        make_queue_room(&mut self.nodes, node, group, members)?;
        if !self.nodes[node as usize].lacks_products(row) {
            return Ok(());
        }
        let products = make_products(
            self.nodes.allocator(),
            self.tree,
            self.nodes.as_slice(),
            &self.entries,
            node,
            row,
            steps,
        )?;
        self.nodes[node as usize].set_products(row, products)
    }

    /// Finds one more solution of a product, if there is one. `top` is the last one found, and
    /// `below` is the entry after its right part. `beside` says whether that right part is the
    /// first entry of the child's stream. It says nothing if the product is the row's first.
    fn step<L: Ledger>(
        &mut self,
        part: RowPart,
        top: &Entry<R, Cell>,
        below: Option<EntryId>,
        beside: bool,
        steps: &mut Steps<L>,
    )
        requires formed { IsStreams R.KEYS R.key self.old.tree.now self.old.entries.entries
            self.old.nodes.items }
        requires tie_free { IsTieFreeTree self.old.tree.now }
        requires node { part.node < length self.old.tree.now }
        requires row { part.row < rows self.old.tree.now part.node }
        requires child { part.child < length (products_of self.old.nodes.items part.node part.row) }
        requires step { IsStepReady R.KEYS R.key self.old.tree.now self.old.entries.entries
            self.old.nodes.items part.node part.row part.child top.now below beside }
        ensures formed { IsStreams R.KEYS R.key self.new.tree.now self.new.entries.entries
            self.new.nodes.items }
        ensures tree { self.new.tree.now ≡ self.old.tree.now }
        ensures entries { self.new.entries ≡ self.old.entries }
        ensures changed { HasOtherProduct self.old.nodes.items part.node part.row part.child self.new.nodes.items }
        ensures reached { IsReached R.KEYS R.key self.old.tree.now self.new.nodes.items part.node part.row
            (part.child + 1) (part_known self.old.nodes.items part.node part.row (part.child + 1)) }
        ensures queue { length (product_of self.new.nodes.items part.node part.row part.child).frontier
            ≤ length (product_of self.old.nodes.items part.node part.row part.child).frontier + 1 }
        ensures cost { steps.new
            ≤ steps.old + 9 + 3
            * bit_length (length (product_of self.old.nodes.items part.node part.row part.child).frontier + 1) }
    {
        let down = offer_below(&self.entries, top, below, steps);
        let known = self.nodes[part.node as usize].known(part.row, part.child);
        let across = cell_beside(&top.tag, beside, known);
        let across = offered(
            self.tree,
            self.nodes.as_slice(),
            &self.entries,
            part,
            across,
            steps,
        );
        self.nodes[part.node as usize].step_product(part.row, part.child, down, across, steps);
    }

    /// The solution that follows `top`, the last one of a group, or `None` if there is none. `next`
    /// is the solution of the row after `top`. If `top` is the first one of its row, the first
    /// solutions of the members below enter the queue.
    fn give<L: Ledger>(
        &mut self,
        node: u32,
        group: u32,
        top: &Entry<R, Source>,
        next: Option<Entry<R, Source>>,
        steps: &mut Steps<L>,
    ) -> Option<Entry<R, Source>>
        requires formed { IsStreams R.KEYS R.key self.old.tree.now self.old.entries.entries
            self.old.nodes.items }
        requires node { node < length self.old.tree.now }
        requires group { group < group_count self.old.tree.now node }
        requires room { top.now.tag.place ≡ 0
            → can_enter (length (members self.old.tree.now node group))
            ≤ (stream_of self.old.nodes.items node group).room }
        ensures tree { self.new.tree.now ≡ self.old.tree.now }
        ensures entries { self.new.entries ≡ self.old.entries }
        ensures changed { self.new.nodes.items
            ≡ slice_set self.old.nodes.items node (with_queue
            (lists_of self.old.nodes.items node) group
            (stream_of self.new.nodes.items node group).queue
            (stream_of self.new.nodes.items node group).room) }
        ensures given { AreFirstsGiven R.KEYS R.key self.old.tree.now self.old.entries.entries
            node group top.now.tag.member (top.now.tag.place + 1) next
            (stream_of self.old.nodes.items node group).queue
            (stream_of self.new.nodes.items node group).queue result }
        ensures none { result ≡ None → self.new.nodes.items ≡ self.old.nodes.items }
        ensures cost { steps.new
            ≤ steps.old + 9 + 4
            * bit_length (length (stream_of self.new.nodes.items node group).queue + 1) }
    {
        if top.tag.place > 0 {
            return self.nodes[node as usize].give(group, next, None, None, steps);
        }
        let (left, right) = firsts_below(
            self.tree,
            self.nodes.as_slice(),
            &self.entries,
            node,
            group,
            top.tag.member,
            steps,
        );
        self.nodes[node as usize].give(group, next, left, right, steps)
    }

    /// Links the solution that follows `top`, if there is one. `top` is the last solution of a group,
    /// which `last` stands for, and `next` is the solution of the row after it.
    fn advance<L: Ledger>(
        &mut self,
        last: EntryId,
        node: u32,
        group: u32,
        top: &Entry<R, Source>,
        next: Option<Entry<R, Source>>,
        steps: &mut Steps<L>,
    ) -> Option<EntryId>
        requires formed { IsStreams R.KEYS R.key self.old.tree.now self.old.entries.entries
            self.old.nodes.items }
        requires tie_free { IsTieFreeTree self.old.tree.now }
        requires last { IsLast self.old.entries.entries last node group }
        requires top { (x : Linked (Found R))
            → (slice_index_or self.old.entries.entries last x).value.solution ≡ top.now }
        requires row { top.now.tag.row
            ≡ slice_index (members self.old.tree.now node group) top.now.tag.member }
        requires number { top.now.tag.number
            ≡ row_number self.old.tree.now node top.now.tag.row }
        requires next { IsRowNext R.KEYS R.key self.old.tree.now self.old.entries.entries
            self.old.nodes.items node top.now.tag next }
        requires queue_room { top.now.tag.place ≡ 0
            → can_enter (length (members self.old.tree.now node group))
            ≤ (stream_of self.old.nodes.items node group).room }
        requires room { 0 < self.old.entries.spare }
        ensures formed { IsStreams R.KEYS R.key self.new.tree.now self.new.entries.entries
            self.new.nodes.items }
        ensures tree { self.new.tree.now ≡ self.old.tree.now }
        ensures store { IsStoreGrown node self.old.entries.entries self.new.entries.entries }
        ensures above { (v : ℕ) → v ≢ node
            → lists_of self.new.nodes.items v ≡ lists_of self.old.nodes.items v }
        ensures products { (lists_of self.new.nodes.items node).products
            ≡ (lists_of self.old.nodes.items node).products }
        ensures growth { (v : ℕ)
            → node_size self.new.entries.entries v
            ≤ node_size self.old.entries.entries v + cond (nat_eq v node) 1 0 }
        ensures answer { IsAnswered R.KEYS R.key self.old.tree.now self.new.entries.entries last
            result }
        ensures cost { steps.new
            ≤ steps.old + 11 + 4 * bit_length (length (members self.old.tree.now node group) + 1) }
    {
        let found = self.give(node, group, top, next, steps)?;
        let entry = self.entries.push_reserved(
            Found {
                node,
                group,
                solution: found,
            },
            steps,
        );
        self.entries.set_next(last, entry, steps);
        Some(entry)
    }
}

/// Makes room in the queue of a group for the first solutions that can enter at once. `NoMemory` if
/// memory is refused.
fn make_queue_room<R: Rank, A: Allocator + Clone>(
    nodes: &mut Vec<NodeStreams<R, A>, A>,
    node: u32,
    group: u32,
    members: u32,
) -> Result<(), NoMemory>
    requires node { node < length nodes.old.items }
    requires group { group < length (lists_of nodes.old.items node).streams }
    ensures changed { nodes.new.items
        ≡ slice_set nodes.old.items node (with_queue (lists_of nodes.old.items node) group
        (stream_of nodes.old.items node group).queue
        (stream_of nodes.new.items node group).room) }
    ensures room { OnOk result
        (can_enter members ≤ (stream_of nodes.new.items node group).room) }
{
    nodes[node as usize].reserve_queue(group, members)
}

/// Makes room for one more solution in a product of a row. `NoMemory` if memory is refused.
fn make_room<R: Rank, A: Allocator + Clone>(
    nodes: &mut Vec<NodeStreams<R, A>, A>,
    node: u32,
    row: u32,
    child: usize,
) -> Result<(), NoMemory>
    requires node { node < length nodes.old.items }
    requires child { child < length (products_of nodes.old.items node row) }
    ensures changed { HasOtherProduct nodes.old.items node row child nodes.new.items }
    ensures found { (product_of nodes.new.items node row child).found
        ≡ (product_of nodes.old.items node row child).found }
    ensures ranks { (product_of nodes.new.items node row child).ranks
        ≡ (product_of nodes.old.items node row child).ranks }
    ensures frontier { (product_of nodes.new.items node row child).frontier
        ≡ (product_of nodes.old.items node row child).frontier }
    ensures room { OnOk result (0 < (product_of nodes.new.items node row child).room) }
    ensures frontier_room { OnOk result (0 < child
        → 0 < (product_of nodes.new.items node row child).frontier_room) }
{
    nodes[node as usize].reserve_product(row, child)
}

/// Whether the sums with this right part have others beside them in a row's product number `child`,
/// from 0: whether the right part is the first entry of its stream. In a row's first product no sum
/// is beside another one, since there is one left part.
fn has_beside<R: Rank, A: Allocator>(
    nodes: &[NodeStreams<R, A>],
    node: u32,
    child: usize,
    right: EntryId,
) -> bool
    requires node { node < length nodes.now }
    requires child { child < length (lists_of nodes.now node).children }
    requires below { slice_index (lists_of nodes.now node).children child < length nodes.now }
    ensures { IsTrue result ↔ ((0 < child)
        × HasHead (lists_of nodes.now (slice_index (lists_of nodes.now node).children child))
        right) }
{
    if child == 0 {
        return false;
    }
    let child_node = nodes[node as usize].child(child);
    nodes[child_node as usize].is_head(right)
}
