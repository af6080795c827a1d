//! Links that may be any numbers, found by hashing.
ghost use Rattle.std.specs.Prelude.{◌≡◌, ◌<◌, ◌≤◌, ◌+◌, [], OnOk, IfOk, length, nat_eq, position, slice_index};
ghost use Rattle.link_index.specs.LinkTable.{most_links};
ghost use Rattle.indexmap.specs.IndexSet.{insert_key};

use hash_keys::Keys;
use indexmap::IndexSet;
use std::alloc::Global;
use std::marker::Model;
use std::sync::ledger::Ledger;
use step_counter::{NoMemory, Steps};

/// Links that may be any numbers. Contracts see them as a list: the number of a link is its place
/// there, from 0.
#[derive(Drop)]
pub struct HashedIndex {
    set: IndexSet<u32, Keys>,
}

impl Model for HashedIndex {
    ghost use Rattle.std.specs.Prelude.{ℕ, List};

    ghost Value = { List ℕ };

    ghost view = { λ h. h.set.keys };
}

impl HashedIndex {
    /// No links. They are hashed with these keys.
    pub fn new(alloc: Global, keys: Keys) -> HashedIndex
        ensures { result ≡ [] }
    {
        HashedIndex {
            set: IndexSet::with_hasher(alloc, keys),
        }
    }

    /// The number of links.
    pub fn len(&self) -> usize
        ensures { result ≡ length self.now }
    {
        self.set.len()
    }

    /// The number of a link, or `None` if it is not there. It counts one step.
    pub fn number_of<L: Ledger>(&self, link: u32, steps: &mut Steps<L>) -> Option<usize>
        ensures number { result ≡ position (nat_eq link) self.now }
        ensures cost { steps.new ≡ steps.old + 1 }
    {
        steps.tick();
        self.set.get_index_of(&link)
    }

    /// The number of a link. A new link is added after the others. It counts one step. `NoMemory`
    /// if memory is refused.
    pub fn insert<L: Ledger>(&mut self, link: u32, steps: &mut Steps<L>) -> Result<u32, NoMemory>
        requires { length self.old ≤ most_links }
        ensures links { OnOk result (self.new ≡ insert_key nat_eq self.old link) }
        ensures within { IfOk result (λ n. n < length self.new) }
        ensures stands { IfOk result (λ n. slice_index self.new n ≡ link) }
        ensures cost { steps.new ≡ steps.old + 1 }
    {
        steps.tick();
        let (number, _) = self.set.insert_full(link)?;
        Ok(number as u32)
    }
}
