//! Numbers of lists of values, for links of several values.
ghost use Rattle.std.specs.Prelude.{◌≡◌, ◌<◌, ◌+◌, [], OnOk, IfOk, length, replicate};
ghost use Rattle.link_index.specs.NumberedLists.{AreMore, IsNumbered};

use hash_keys::Keys;
use indexmap::IndexSet;
use smallvec::SmallVec;
use std::alloc::Global;
use std::marker::Model;
use std::sync::ledger::Ledger;
use step_counter::{NoMemory, Steps};

/// For each node, lists of values. Contracts see them as a list for each node: the number of a list
/// of values is its place there, from 0. A list of at most 4 values is kept in place, a longer one
/// on the heap.
#[derive(Drop)]
pub struct ListIndex {
    sets: Vec<IndexSet<SmallVec<u32, 4>, Keys>>,
}

impl Model for ListIndex {
    ghost use Rattle.std.specs.Prelude.{ℕ, List};
    ghost use Rattle.link_index.specs.NumberedLists.{lists_in};

    ghost Value = { List (List (List ℕ)) };

    ghost view = { λ l. lists_in l.sets.items };
}

impl ListIndex {
    /// No lists, for this many nodes. They are hashed with these keys. `NoMemory` if memory is
    /// refused.
    pub fn new(alloc: Global, nodes: u32, keys: Keys) -> Result<ListIndex, NoMemory>
        ensures { IfOk result (λ lists. lists ≡ replicate nodes []) }
    {
        let mut sets = Vec::new(alloc);
        for _node in 0..nodes {
            sets.push(IndexSet::with_hasher(alloc, keys))?;
        }
        Ok(ListIndex { sets })
    }

    /// The number of a list of values at a node. A new list is added after the others. It counts
    /// one step, however many values there are. `NoMemory` if memory is refused, or if there are
    /// 2^32 lists.
    pub fn number_of<L: Ledger>(
        &mut self,
        node: usize,
        values: SmallVec<u32, 4>,
        steps: &mut Steps<L>,
    ) -> Result<u32, NoMemory>
        requires { node < length self.old }
        ensures more { OnOk result (AreMore self.old self.new) }
        ensures number { IfOk result (λ n. IsNumbered self.new node n values.items) }
        ensures cost { steps.new ≡ steps.old + 1 }
    {
        steps.tick();
        let (place, _) = self.sets[node].insert_full(values)?;
        let Ok(number) = u32::try_from(place) else {
            return Err(NoMemory);
        };
        Ok(number)
    }
}
