//! Orders of items by their keys.
ghost use Rattle.std.specs.Prelude.{◌≡◌, ℕ, ◌+◌};
ghost use Rattle.tdp_model.specs.KeyTuple.{KeyOf};
ghost use Rattle.tdp_model.specs.KeyNumbers.{key_less};
ghost use Rattle.take2_heap.specs.declared.entry.Entry.{Entry};

use crate::entry::Entry;
use rank_key::Rank;
use std::sync::ledger::Ledger;
use step_counter::Steps;

/// An order of items by their keys, which may be elsewhere, as in a table of ranks. An item may
/// have no key.
pub trait KeyOrder<X> {
    ghost KEYS: { ℕ };

    ghost has_key: { Self → X → Type 0 };

    ghost key: { Self → X → KeyOf KEYS 16 };

    /// Whether item `a` is before `b`. Both must have keys. It takes one step.
    fn less<L: Ledger>(&self, a: &X, b: &X, steps: &mut Steps<L>) -> bool
        requires first { has_key self.now a.now }
        requires second { has_key self.now b.now }
        ensures order { result ≡ key_less KEYS 16 (key self.now a.now) (key self.now b.now) }
        ensures counted { steps.new ≡ steps.old + 1 };
}

/// The order of entries by the ranks that they hold.
pub(crate) struct ByRank;

impl<R: Rank, T: Copy> KeyOrder<Entry<R, T>> for ByRank {
    ghost KEYS = { R.KEYS };

    ghost has_key = { λ o e. Unit };

    ghost key = { λ o e. R.key e.rank };

    fn less<L: Ledger>(&self, a: &Entry<R, T>, b: &Entry<R, T>, steps: &mut Steps<L>) -> bool {
        R::less(&a.rank, &b.rank, steps)
    }
}
