//! The links of a node's groups, with the number of each one's group.
ghost use Rattle.std.specs.Prelude.{◌≡◌, ◌<◌, ◌≤◌, ◌+◌, [], OnOk, IfOk, length, nat_eq, position, slice_index};
ghost use Rattle.tdp_model.specs.NodeRows.{most_node_rows};
ghost use Rattle.indexmap.specs.IndexSet.{insert_key};
ghost use Rattle.semi_join.specs.Reduction.{links_of};

use hash_keys::Keys;
use link_index::{DirectIndex, HashedIndex};
use std::alloc::Global;
use std::sync::ledger::Ledger;
use step_counter::{NoMemory, Steps};

/// The links of the groups of a node, numbered from 0 in the order in which they came. The number
/// of a link is that of its group.
#[derive(Drop)]
pub(crate) enum GroupLinks {
    /// Links that may be any numbers.
    Hashed(HashedIndex),
    /// Links that are small numbers.
    Direct(DirectIndex),
}

impl GroupLinks {
    /// No links, for a node with this many rows and this greatest link. They are found by a table
    /// if it is short compared with the rows, and else by hashing with these keys.
    pub(crate) fn new(
        alloc: Global,
        keys: Keys,
        rows: u32,
        greatest: u32,
    ) -> Result<GroupLinks, NoMemory>
        ensures { IfOk result (λ links. links_of links ≡ []) }
    {
        if greatest as u64 <= 4 * rows as u64 + 65_536 {
            let links = DirectIndex::new(alloc, greatest)?;
            return Ok(GroupLinks::Direct(links));
        }
        Ok(GroupLinks::Hashed(HashedIndex::new(alloc, keys)))
    }

    /// The number of links.
    pub(crate) fn len(&self) -> usize
        ensures { result ≡ length (links_of self.now) }
    {
        match self {
            GroupLinks::Hashed(links) => links.len(),
            GroupLinks::Direct(links) => links.len(),
        }
    }

    /// The number of a link, or `None` if it is not there. It counts one step.
    pub(crate) fn number_of<L: Ledger>(&self, link: u32, steps: &mut Steps<L>) -> Option<usize>
        ensures number { result ≡ position (nat_eq link) (links_of self.now) }
        ensures cost { steps.new ≡ steps.old + 1 }
    {
        match self {
            GroupLinks::Hashed(links) => links.number_of(link, steps),
            GroupLinks::Direct(links) => links.number_of(link, steps),
        }
    }

    /// The number of a link. A new link is added after the others. It counts one step.
    #[inline(always)]
    pub(crate) fn insert<L: Ledger>(
        &mut self,
        link: u32,
        steps: &mut Steps<L>,
    ) -> Result<u32, NoMemory>
        requires { length (links_of self.old) ≤ most_node_rows }
        ensures links { OnOk result
            (links_of self.new ≡ insert_key nat_eq (links_of self.old) link) }
        ensures within { IfOk result (λ n. n < length (links_of self.new)) }
        ensures stands { IfOk result (λ n. slice_index (links_of self.new) n ≡ link) }
        ensures cost { steps.new ≡ steps.old + 1 }
    {
        match self {
            GroupLinks::Hashed(links) => links.insert(link, steps),
            GroupLinks::Direct(links) => links.insert(link, steps),
        }
    }
}
