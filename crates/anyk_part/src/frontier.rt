//! The queue of candidates, and the division of the region at its top by that region's best answer.
ghost use Rattle.std.specs.Prelude.{◌≡◌, ℕ, ◌+◌, ◌-◌, ◌*◌, ◌^◌, ◌<◌, ◌≤◌, true, false, List, ◌∷◌, cond, length, take, slice_index_or, OnOk, IsSome, IfSome, ◌↔◌};
ghost use Rattle.std.specs.List.{All};
ghost use Rattle.std.specs.List.Sorted.{IsPermutation};
ghost use Rattle.take2_heap.specs.Order.{IsLeast};
ghost use Rattle.rank_key.specs.Bits.{bit_length};
ghost use Rattle.tdp_model.specs.Regions.{in_region};
ghost use Rattle.tdp_core.specs.TreeView.{members};
ghost use Rattle.anyk_part.specs.Chains.{chain, IsChain};
ghost use Rattle.anyk_part.specs.Places.{ArePlaces};
ghost use Rattle.anyk_part.specs.Regions.{followers, region_at, held_by, IsEntry};
ghost use Rattle.anyk_part.specs.Walks.{CanChoose, IsAdvanced, IsDivided, IsSite, IsAt, IsChoice, gone};

use crate::candidate::{Candidate, ChosenRow, Descent, Deviation, Link};
use crate::paths::group_at;
use rank_key::Rank;
use std::alloc::Allocator;
use std::sync::ledger::Ledger;
use step_counter::{NoMemory, Steps};
use stream_store::{EntryId, Store};
use take2_heap::{Entry, HeapOf};
use tdp_core::Tree;

/// The candidates in heap order of their ranks, and the links of their prefixes.
#[derive(Drop)]
pub(crate) struct Frontier<R: Rank, A: Allocator + Clone> {
    pub queue: HeapOf<R, Candidate, A>,
    pub links: Store<Link, A>,
}

impl<R: Rank, A: Allocator + Clone> Frontier<R, A> {
    /// The rank of the queue's top, and where the division of its region starts.
    pub fn start(&self) -> Option<(R, Descent)>
        ensures variant { IsSome result ↔ (0 < length self.now.queue.entries) }
        ensures top { IfSome result
            (λ s. (d : Entry R Candidate) → slice_index_or self.now.queue.entries 0 d
            ≡ record {
              rank = s.0;
              tag = record { position = s.1.node; place = s.1.place; before = s.1.before };
            }) }
        ensures stands { IfSome result (λ s. s.1.top_stands ≡ true) }
        ensures limit { length self.now.queue.entries < 2 ^ 64 }
        ensures least { IfSome result (λ s. IsLeast R.KEYS R.key
            (record {
              rank = s.0;
              tag = record { position = s.1.node; place = s.1.place; before = s.1.before };
            })
            self.now.queue.entries) }
    {
        let entry = self.queue.peek()?;
        Some((entry.rank, entry.tag.start()))
    }

    /// Makes room for all that one answer over this many nodes can add. Returns `NoMemory` if
    /// memory is refused.
    pub fn make_room(&mut self, nodes: u32) -> Result<(), NoMemory>
        requires { nodes ≤ 16 }
        ensures entries { self.new.queue.entries ≡ self.old.queue.entries }
        ensures links { self.new.links.entries ≡ self.old.links.entries }
        ensures room { OnOk result (2 * nodes ≤ self.new.queue.spare) }
        ensures link_room { OnOk result (nodes ≤ self.new.links.spare) }
    {
        self.queue.reserve(2 * nodes as usize)?;
        self.links.reserve(nodes as usize)
    }

    /// The first `count` rows of a solution, by node; `last` names the link of the last of them.
    pub fn prefix<L: Ledger>(
        &self,
        count: u32,
        last: Option<EntryId>,
        steps: &mut Steps<L>,
    ) -> [u32; 16]
        requires count { count ≤ 16 }
        requires chained { IsChain self.now.links.entries count last }
        ensures rows { take count result ≡ chain self.now.links.entries count last }
        ensures cost { steps.new ≤ steps.old + count }
    {
        let mut chosen = [0; 16];
        let mut node = count as usize;
        let mut before = last;
        while let Some(id) = before {
            node -= 1;
            let link = *self.links.get(id, steps);
            chosen[node] = link.row;
            before = link.before;
        }
        chosen
    }

    /// Puts a candidate in place of the queue's top, or beside the others if the top is already
    /// gone.
    #[inline(always)]
    fn put<L: Ledger>(
        &mut self,
        rank: R,
        candidate: Candidate,
        top_stands: bool,
        steps: &mut Steps<L>,
    )
        requires top { top_stands ≡ true → 0 < length self.old.queue.entries }
        requires room { 0 < self.old.queue.spare }
        ensures replaced { (d : Entry R Candidate) → top_stands ≡ true → IsPermutation
            (record { rank = rank; tag = candidate } ∷ self.old.queue.entries)
            (slice_index_or self.old.queue.entries 0 d ∷ self.new.queue.entries) }
        ensures pushed { top_stands ≡ false → IsPermutation
            (record { rank = rank; tag = candidate }
            ∷ self.old.queue.entries) self.new.queue.entries }
        ensures links { self.new.links ≡ self.old.links }
        ensures room { self.old.queue.spare ≤ self.new.queue.spare + 1 }
        ensures cost { steps.new ≤ steps.old + 2 * bit_length (length self.old.queue.entries + 1) }
    {
        if top_stands {
            self.queue.replace_top(rank, candidate, steps);
        } else {
            self.queue.push_reserved(rank, candidate, steps);
        }
    }

    /// Puts in the candidate at one place of a site. It replaces the region being divided if that
    /// is still at the top of the queue.
    #[inline(always)]
    fn offer<L: Ledger>(
        &mut self,
        tree: &Tree<R>,
        site: &Deviation<R>,
        place: u32,
        top_stands: bool,
        steps: &mut Steps<L>,
    )
        requires site { IsSite R.KEYS R.key tree.now self.old.links.entries site.now }
        requires place { place < length (members tree.now site.now.node site.now.group) }
        requires entries { All
            (IsEntry R.KEYS R.key tree.now self.old.links.entries) self.old.queue.entries }
        requires top { top_stands ≡ true → 0 < length self.old.queue.entries }
        requires room { 0 < self.old.queue.spare }
        ensures entries { All
            (IsEntry R.KEYS R.key tree.now self.old.links.entries) self.new.queue.entries }
        ensures held { (s : List ℕ) →
            in_region (followers tree.now)
            (region_at tree.now
            (chain self.old.links.entries site.now.node site.now.before) place) s
            + held_by tree.now self.old.links.entries self.old.queue.entries s
            ≡ cond top_stands
            (held_by tree.now self.old.links.entries (take 1 self.old.queue.entries) s) 0
            + held_by tree.now self.old.links.entries self.new.queue.entries s }
        ensures links { self.new.links ≡ self.old.links }
        ensures room { self.old.queue.spare ≤ self.new.queue.spare + 1 }
        ensures length { length self.new.queue.entries ≤ length self.old.queue.entries + 1 }
        ensures cost { steps.new
            ≤ steps.old + 3 + 2 * bit_length (length self.old.queue.entries + 1) }
    {
        let row = tree.member(site.node, site.group, place, steps);
        let best = tree.best(site.node, row, steps);
        let rank = R::swap(site.total, site.best, best, steps);
        let candidate = Candidate::new(site.node, place, site.before);
        self.put(rank, candidate, top_stands, steps);
    }

    /// Chooses the row at one node, and puts in the candidates that deviate from it, if its group
    /// reaches that far.
    // Inlined, as are `put`, `offer` and `advance`: what they hand on is then in registers.
    #[inline(always)]
    fn choose<L: Ledger>(
        &mut self,
        tree: &Tree<R>,
        places: &[u32; 16],
        total: &R,
        walk: &Descent,
        chosen: &mut [u32; 16],
        steps: &mut Steps<L>,
    ) -> ChosenRow
        requires places { ArePlaces tree.now places.now }
        requires ready { CanChoose R.KEYS R.key tree.now total.now walk.now chosen.old
            self.old.links.entries self.old.queue.entries }
        requires room { 2 ≤ self.old.queue.spare }
        ensures choice { IsChoice R.KEYS R.key tree.now walk.now self.old.links.entries chosen.old
            self.old.queue.entries result chosen.new self.new.queue.entries }
        ensures links { self.new.links ≡ self.old.links }
        ensures room { self.old.queue.spare ≤ self.new.queue.spare + 2 }
        ensures cost { steps.new
            ≤ steps.old + 9 + 4 * bit_length (length self.old.queue.entries + 2) }
    {
        let group = group_at(tree, places, walk.node, chosen, steps);
        let size = tree.group_len(walk.node, group);
        let row = tree.member(walk.node, group, walk.place, steps);
        chosen[walk.node as usize] = row;
        let place = 2 * walk.place + 1;
        if place >= size {
            let top_stands = walk.top_stands;
            return ChosenRow { row, top_stands };
        }
        let best = tree.best(walk.node, row, steps);
        let site = Deviation {
            total: *total,
            best,
            node: walk.node,
            group,
            row,
            before: walk.before,
        };
        self.offer(tree, &site, place, walk.top_stands, steps);
        if place + 1 < size {
            self.offer(tree, &site, place + 1, false, steps);
        }
        let top_stands = false;
        ChosenRow { row, top_stands }
    }

    /// Chooses the row at a node that is not the last, and links it to the rows before it.
    #[inline(always)]
    fn advance<L: Ledger>(
        &mut self,
        tree: &Tree<R>,
        places: &[u32; 16],
        total: &R,
        walk: Descent,
        chosen: &mut [u32; 16],
        steps: &mut Steps<L>,
    ) -> Descent
        requires places { ArePlaces tree.now places.now }
        requires ready { CanChoose R.KEYS R.key tree.now total.now walk chosen.old
            self.old.links.entries self.old.queue.entries }
        requires room { 2 ≤ self.old.queue.spare }
        requires link_room { 1 ≤ self.old.links.spare }
        ensures advanced { IsAdvanced R.KEYS R.key tree.now total.now walk self.old.links.entries
            self.old.queue.entries result chosen.new self.new.links.entries
            self.new.queue.entries }
        ensures room { self.old.queue.spare ≤ self.new.queue.spare + 2 }
        ensures link_room { self.old.links.spare ≤ self.new.links.spare + 1 }
        ensures cost { steps.new
            ≤ steps.old + 10 + 4 * bit_length (length self.old.queue.entries + 2) }
    {
        let choice = self.choose(tree, places, total, &walk, chosen, steps);
        let link = Link {
            row: choice.row,
            before: walk.before,
        };
        let last = self.links.push_reserved(link, steps);
        Descent {
            node: walk.node + 1,
            place: 0,
            before: Some(last),
            top_stands: choice.top_stands,
        }
    }

    /// Chooses the best rows from the start of the top's region on, and replaces the top by the
    /// candidates that deviate from them.
    pub fn divide<L: Ledger>(
        &mut self,
        tree: &Tree<R>,
        places: &[u32; 16],
        total: &R,
        start: Descent,
        chosen: &mut [u32; 16],
        steps: &mut Steps<L>,
    )
        requires places { ArePlaces tree.now places.now }
        requires at { IsAt R.KEYS R.key tree.now total.now start chosen.old self.old.links.entries }
        requires node { start.node < length tree.now }
        requires stands { start.top_stands ≡ true }
        requires entries { All
            (IsEntry R.KEYS R.key tree.now self.old.links.entries) self.old.queue.entries }
        requires some { 0 < length self.old.queue.entries }
        requires room { 2 * length tree.now ≤ self.old.queue.spare }
        requires link_room { length tree.now ≤ self.old.links.spare }
        ensures divided { IsDivided R.KEYS R.key tree.now start self.old.links.entries
            self.old.queue.entries chosen.new self.new.links.entries self.new.queue.entries }
        ensures cost { steps.new
            ≤ steps.old + length tree.now
            * (10 + 4 * bit_length (length self.old.queue.entries + 2 * length tree.now))
            + 2 * bit_length (length self.old.queue.entries + 2 * length tree.now) }
    {
        let last = tree.nodes() - 1;
        let mut walk = start;
        while walk.node < last {
            walk = self.advance(tree, places, total, walk, chosen, steps);
        }
        let choice = self.choose(tree, places, total, &walk, chosen, steps);
        if choice.top_stands {
            self.queue.pop(steps);
        }
    }
}
