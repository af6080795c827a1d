//! The rows that are taken: pairs of a beginning's number and a row.
ghost use Rattle.std.specs.Prelude.{◌≡◌, ◌↔◌, ◌<◌, ◌≤◌, ◌^◌, ℕ, [], ◌∷◌, ◌++◌, if◌then◌else◌, length, IfNone, IfOk, IfSome, IsTrue};
ghost use Rattle.proof_check.specs.Levels.{IsPairAt};
ghost use Rattle.proof_check.specs.PairKeys.{pair_of};

use hash_keys::Keys;
use indexmap::IndexSet;
use std::alloc::Global;
use std::marker::Model;
use step_counter::NoMemory;

/// Pairs of a beginning's number and a row that follows it in an answer. Contracts see them as a
/// list. Each pair is kept as one number, so that a look-up hashes one word.
#[derive(Drop)]
pub(crate) struct TakenRows {
    pairs: IndexSet<u64, Keys>,
}

impl Model for TakenRows {
    ghost use Rattle.std.specs.Prelude.{ℕ, List, map};
    ghost use Rattle.proof_check.specs.PairKeys.{pair_of};

    ghost Value = { List (ℕ × ℕ) };

    ghost view = { λ t. map pair_of t.pairs.keys };
}

impl TakenRows {
    /// No pairs. They are hashed with these keys.
    pub(crate) fn new(alloc: Global, keys: Keys) -> TakenRows
        ensures { result ≡ [] }
    {
        TakenRows {
            pairs: IndexSet::with_hasher(alloc, keys),
        }
    }

    /// Whether the row follows the beginning in an answer.
    pub(crate) fn has(&self, number: usize, row: u32) -> bool
        ensures { IsTrue result ↔ ((k : ℕ) × IsPairAt self.now k (number, row)) }
    {
        match key_of(number, row) {
            Some(key) => self.pairs.contains(&key),
            None => false,
        }
    }

    /// The number of a pair, from 0, and whether it is new. A new pair is added after the others.
    /// `NoMemory` if memory is refused, or if there are 2^32 beginnings.
    pub(crate) fn insert(&mut self, number: usize, row: u32) -> Result<(usize, bool), NoMemory>
        ensures added { IfOk result
            (λ r. self.new ≡ (if r.1 then self.old ++ (number, row) ∷ [] else self.old)) }
        ensures stands { IfOk result (λ r. IsPairAt self.new r.0 (number, row)) }
        ensures new { IfOk result
            (λ r. IsTrue r.1 → (k : ℕ) → IsPairAt self.old k (number, row) → ⊥) }
    {
        let Some(key) = key_of(number, row) else {
            return Err(NoMemory);
        };
        Ok(self.pairs.insert_full(key)?)
    }
}

/// The number that stands for a pair. `None` exactly if the beginning's number does not fit 32
/// bits.
fn key_of(number: usize, row: u32) -> Option<u64>
    ensures key { IfSome result (λ key. pair_of key ≡ (number, row)) }
    ensures none { IfNone result (2 ^ 32 ≤ number) }
{
    match u32::try_from(number) {
        Ok(number) => Some(row as u64 * 4_294_967_296 + number as u64),
        Err(_) => None,
    }
}
