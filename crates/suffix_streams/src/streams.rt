//! The streams of a tree, one for each group of its nodes.
ghost use Rattle.std.specs.Prelude.{◌≡◌, ◌≢◌, ℕ, ◌+◌, ◌-◌, ◌*◌, ◌^◌, ◌<◌, ◌≤◌, Some, min, length, IfOk, IsOk, IsSome};
ghost use Rattle.rank_key.specs.Bits.{bit_length};
ghost use Rattle.tdp_core.specs.TreeView.{group_count, row_count};
ghost use Rattle.tdp_core.specs.WellFormed.{IsTieFreeTree};
ghost use Rattle.tdp_core.specs.AnswerView.{rows_of_key, counted};
ghost use Rattle.suffix_streams.specs.StreamsView.{IsStreamsView, entry_node, entry_group, entry_place, entry_key, size_of_node, ArePrefixes, AreKept, IsEntry, Follows};
ghost use Rattle.suffix_streams.specs.TreeStreams.{next_of};

use crate::beginning::begin_nodes;
use crate::solutions::Solutions;
use rank_key::Rank;
use std::alloc::Allocator;
use std::marker::Model;
use std::sync::ledger::Ledger;
use step_counter::{NoMemory, Steps};
use stream_store::{EntryId, Store};
use tdp_core::Tree;

/// For each node and group of a tree, numbered from 0, a list of linked entries. These are the
/// first subtree solutions of the group's ranking.
#[derive(Drop)]
pub struct Streams<'t, R: Rank, A: Allocator + Clone> {
    solutions: Solutions<'t, R, A>,
    calls: u64,
}

impl<'t, R: Rank, A: Allocator + Clone> Model for Streams<'t, R, A> {
    ghost use Rattle.suffix_streams.specs.StreamsView.{StreamsView, IsStreamsView};

    ghost Value = { StreamsView R };

    ghost view = { λ s. record {
      tree = s.solutions.tree.now;
      entries = s.solutions.entries.entries;
      nodes = s.solutions.nodes.items;
      calls = s.calls;
    } };

    ghost invariant = { λ s. IsStreamsView R.KEYS R.key
        (record {
          tree = s.solutions.tree.now;
          entries = s.solutions.entries.entries;
          nodes = s.solutions.nodes.items;
          calls = s.calls;
        }) };
}

impl<'t, R: Rank, A: Allocator + Clone> Streams<'t, R, A> {
    /// The streams of a tree, each with its head. It takes at most 16 * m * (1 + N) steps if the
    /// tree has m nodes and N rows. `NoMemory` if memory is refused.
    pub fn new<L: Ledger>(
        alloc: A,
        tree: &'t Tree<R>,
        steps: &mut Steps<L>,
    ) -> Result<Streams<'t, R, A>, NoMemory>
        requires { IsTieFreeTree tree.now }
        ensures tree { IfOk result (λ s. s.tree ≡ tree.now) }
        ensures calls { IfOk result (λ s. s.calls ≡ 0) }
        ensures prefixes { IfOk result (λ s. ArePrefixes R.KEYS R.key s) }
        ensures cost { steps.new ≤ steps.old + 16 * length tree.now * (1 + row_count tree.now) }
    {
        let of_entries = alloc.clone()?;
        let of_nodes = alloc.clone()?;
        let mut entries = Store::new(of_entries);
        let mut nodes = Vec::new(of_nodes);
        begin_nodes(&alloc, tree, &mut nodes, &mut entries, steps)?;
        let solutions = Solutions {
            tree,
            entries,
            nodes,
        };
        Ok(Streams {
            solutions,
            calls: 0,
        })
    }

    /// The first entry of a group of a node. It takes no step.
    pub fn head(&self, node: u32, group: u32) -> EntryId
        requires node { node < length self.now.tree }
        requires group { group < group_count self.now.tree node }
        ensures within { result < length self.now.entries }
        ensures node { entry_node self.now result ≡ node }
        ensures group { entry_group self.now result ≡ group }
        ensures place { entry_place self.now result ≡ 0 }
        ensures entry { IsEntry R.KEYS R.key self.now result }
    {
        self.solutions.nodes[node as usize].head(group)
    }

    /// The entry after `entry` in its group's ranking, or `None` if `entry` is the last. If the
    /// next entry is known, it takes at most 4 steps and no memory. `NoMemory` if memory is
    /// refused; streams may have grown then, and all entries stay. If the tree has m nodes and N
    /// rows, call number c takes at most 20 * m * (1 + b) steps, where N + c * m has b binary
    /// digits.
    pub fn after<L: Ledger>(
        &mut self,
        entry: EntryId,
        steps: &mut Steps<L>,
    ) -> Result<Option<EntryId>, NoMemory>
        requires { entry < length self.old.entries }
        ensures tree { self.new.tree ≡ self.old.tree }
        ensures prefixes { ArePrefixes R.KEYS R.key self.new }
        ensures kept { AreKept self.old self.new }
        ensures follows { IfOk result (Follows R.KEYS R.key self.new entry) }
        ensures known { IsSome (next_of self.old.entries entry)
            → (IsOk result) × (self.new ≡ record self.old { calls = counted self.old.calls })
            × (steps.new ≤ steps.old + 4) }
        ensures growth { (q : ℕ) → size_of_node self.new q ≤ size_of_node self.old q + 1 }
        ensures calls { self.new.calls ≡ counted self.old.calls }
        ensures cost { steps.new
            ≤ steps.old + 20 * length self.old.tree
            * (1 + bit_length (row_count self.old.tree
            + (self.old.calls + 1) * length self.old.tree)) }
    {
        self.calls = self.calls.saturating_add(1);
        self.solutions.after(entry, steps)
    }

    /// The row numbers, from 1, of the entry's subtree solution, by item, from 0. They are 0 at
    /// each item without a node in the subtree. They are read from entry to entry, in at most 4
    /// steps for each node of the subtree.
    pub fn rows_of<L: Ledger>(&self, entry: EntryId, steps: &mut Steps<L>) -> [u32; 16]
        requires { entry < length self.now.entries }
        ensures rows { result ≡ rows_of_key R.KEYS 16 (entry_key R.KEYS R.key self.now entry) }
        ensures cost { steps.new ≤ steps.old + 4 * length self.now.tree }
    {
        let mut numbers = [0; 16];
        self.solutions.add_entry_rows(entry, &mut numbers, steps);
        numbers
    }

    /// The rank of the entry's subtree solution. It takes one step.
    pub fn rank_of<L: Ledger>(&self, entry: EntryId, steps: &mut Steps<L>) -> R
        requires { entry < length self.now.entries }
        ensures rank { R.key result ≡ entry_key R.KEYS R.key self.now entry }
        ensures cost { steps.new ≤ steps.old + 4 }
    {
        self.solutions.entries.get(entry, steps).solution.rank
    }
}
