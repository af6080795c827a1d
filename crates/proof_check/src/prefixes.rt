//! How answers begin: the rows of the first nodes.
ghost use Rattle.std.specs.Prelude.{◌≡◌, ◌↔◌, ◌+◌, ◌<◌, ℕ, [], length, IfOk, OnOk, slice_index};
ghost use Rattle.proof_check.specs.Levels.{ArePrefixes, IsPairAt, IsTaken};
ghost use Rattle.proof_check.specs.PrefixNumbers.{IsAdding};

use crate::taken_rows::TakenRows;
use std::alloc::Global;
use step_counter::NoMemory;

/// The beginnings of the answers up to some node, each once. They are numbered from 0.
#[derive(Drop)]
pub(crate) struct Prefixes {
    /// For each answer the number of its beginning.
    pub(crate) numbers: Vec<usize>,
    /// For each number the places of an answer that begins so. Before the first node there is one
    /// beginning, also if there are no answers.
    pub(crate) starts: Vec<[u32; 16]>,
}

impl Prefixes {
    /// The one beginning before the first node.
    pub(crate) fn before_first(alloc: Global, places: &[[u32; 16]]) -> Result<Prefixes, NoMemory>
        ensures { IfOk result (λ p. ArePrefixes 0 places.now p.numbers.items p.starts.items) }
    {
        let numbers = vec![in alloc; 0; places.len()]?;
        let mut starts = Vec::new(alloc);
        starts.push([0; 16])?;
        Ok(Prefixes { numbers, starts })
    }

    /// The beginnings with one node more. `taken` gets the rows of this node that follow each
    /// beginning.
    pub(crate) fn with_node(
        &self,
        alloc: Global,
        places: &[[u32; 16]],
        node: usize,
        taken: &mut TakenRows,
    ) -> Result<Prefixes, NoMemory>
        requires node { node < 16 }
        requires empty { taken.old ≡ [] }
        requires prefixes { ArePrefixes node places.now self.now.numbers.items
            self.now.starts.items }
        ensures next { IfOk result
            (λ p. ArePrefixes (node + 1) places.now p.numbers.items p.starts.items) }
        ensures taken { OnOk result ((n r : ℕ) → ((k : ℕ)
            × IsPairAt taken.new k (n, r)) ↔ IsTaken node places.now self.now.numbers.items n r) }
    {
        let mut next = Prefixes {
            numbers: Vec::new(alloc),
            starts: Vec::new(alloc),
        };
        for i in 0..places.len() {
            next.add(&places[i], node, self.numbers[i], taken)?;
        }
        Ok(next)
    }

    /// Adds the beginning of one answer more, given its places and the number of its beginning
    /// before this node.
    fn add(
        &mut self,
        places: &[u32; 16],
        node: usize,
        before: usize,
        taken: &mut TakenRows,
    ) -> Result<(), NoMemory>
        requires node { node < 16 }
        ensures added { OnOk result (IsAdding node places.now before taken.old taken.new
            self.old.numbers.items self.new.numbers.items self.old.starts.items
            self.new.starts.items) }
    {
        let row = places[node];
        let (number, is_new) = taken.insert(before, row)?;
        if is_new {
            self.starts.push(*places)?;
        }
        self.numbers.push(number)?;
        Ok(())
    }
}
