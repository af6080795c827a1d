//! Links that are small numbers, found by a table that has the number of each.
ghost use Rattle.std.specs.Prelude.{◌≡◌, ◌<◌, ◌≤◌, ◌^◌, ◌+◌, ℕ, [], OnOk, IfOk, length, nat_eq, position, slice_index, vec_len};
ghost use Rattle.link_index.specs.LinkTable.{most_links};
ghost use Rattle.indexmap.specs.IndexSet.{insert_key};

use std::alloc::Global;
use std::marker::Model;
use std::sync::ledger::Ledger;
use step_counter::{NoMemory, Steps};

/// Links that are small numbers. Contracts see them as a list: the number of a link is its place
/// there, from 0.
#[derive(Drop)]
pub struct DirectIndex {
    links: Vec<u32>,
    /// For each link its number plus 1, and 0 for a link that is not there.
    table: Vec<u32>,
}

impl Model for DirectIndex {
    ghost use Rattle.std.specs.Prelude.{ℕ, List};
    ghost use Rattle.link_index.specs.LinkTable.{IsTableOf};

    ghost Value = { List ℕ };

    ghost view = { λ d. d.links.items };

    ghost invariant = { λ d. IsTableOf d.table.items d.links.items };
}

impl DirectIndex {
    /// No links, and a table for links up to the greatest one. `NoMemory` if memory is refused.
    pub fn new(alloc: Global, greatest: u32) -> Result<DirectIndex, NoMemory>
        ensures { IfOk result (λ d. d ≡ []) }
    {
        let table = vec![in alloc; 0; greatest as usize + 1]?;
        Ok(DirectIndex {
            links: Vec::new(alloc),
            table,
        })
    }

    /// The number of links.
    pub fn len(&self) -> usize
        ensures { result ≡ length self.now }
    {
        self.links.len()
    }

    /// The number of a link, or `None` if it is not there. It counts one step.
    pub fn number_of<L: Ledger>(&self, link: u32, steps: &mut Steps<L>) -> Option<usize>
        ensures number { result ≡ position (nat_eq link) self.now }
        ensures cost { steps.new ≡ steps.old + 1 }
    {
        steps.tick();
        let place = link as usize;
        if place >= self.table.len() {
            return None;
        }
        let after = self.table[place] as usize;
        if after == 0 { None } else { Some(after - 1) }
    }

    /// The number of a link. A new link is added after the others, and a table that is too short
    /// for it grows. It counts one step. `NoMemory` if memory is refused.
    #[inline(always)]
    pub fn insert<L: Ledger>(&mut self, link: u32, steps: &mut Steps<L>) -> Result<u32, NoMemory>
        requires { length self.old ≤ most_links }
        ensures links { OnOk result (self.new ≡ insert_key nat_eq self.old link) }
        ensures within { IfOk result (λ n. n < length self.new) }
        ensures stands { IfOk result (λ n. slice_index self.new n ≡ link) }
        ensures cost { steps.new ≡ steps.old + 1 }
    {
        steps.tick();
        let place = link as usize;
        reach(&mut self.table, place)?;
        let after = self.table[place];
        if after > 0 {
            return Ok(after - 1);
        }
        let number = self.links.len() as u32;
        self.links.push(link)?;
        self.table[place] = number + 1;
        Ok(number)
    }
}

/// Makes a table long enough to have this place. New places in it are 0.
fn reach(table: &mut Vec<u32>, place: usize) -> Result<(), NoMemory>
    requires { place < 2 ^ 32 }
    ensures within { OnOk result (place < vec_len table.new) }
    ensures same { (i : ℕ) → slice_index table.new.items i ≡ slice_index table.old.items i }
{
    if place >= table.len() {
        table.resize(place + 1, 0)?;
    }
    Ok(())
}
