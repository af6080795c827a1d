//! Answers, and what an engine is.
ghost use Rattle.std.specs.Prelude.{◌≡◌, ℕ, ◌+◌, ◌≤◌, List, [], ◌∷◌, IfOk, IfSome, IfNone, OnErr};
ghost use Rattle.tdp_model.specs.KeyNumbers.{numbers};
ghost use Rattle.tdp_core.specs.AnswerView.{AnswerView, counted};

use rank_key::Rank;
use std::sync::ledger::Ledger;
use step_counter::{NoMemory, Steps};

/// One answer: the row numbers of a solution, by item, and its rank.
#[derive(Clone, Copy)]
pub struct Answer<R> {
    pub rows: [u32; 16],
    pub rank: R,
}

/// An engine: it returns answers one by one. Contracts see the answers that are left, the number of
/// calls so far, which stays at its last value of 64 bits, and the greatest number of steps of the
/// next call.
pub trait Ranked {
    type Key: Rank;

    ghost rest: { Self → List AnswerView };

    ghost calls: { Self → ℕ };

    ghost due: { Self → ℕ };

    // what a bound on the steps depends on, beside the number of calls
    ghost size: { Self → List ℕ };

    // the greatest number of steps of one call, from the size and the number of calls before it
    ghost share: { List ℕ → ℕ → ℕ };

    /// The next answer, or `None` if none is left. If memory is refused no answer is lost.
    fn next<L: Ledger>(
        &mut self,
        steps: &mut Steps<L>,
    ) -> Result<Option<Answer<Self::Key>>, NoMemory>
        ensures found { IfOk result
            (λ o. IfSome o (λ a. rest self.old
            ≡ record { rows = a.rows; key = numbers Self.Key.KEYS 16 (Self.Key.key a.rank) }
            ∷ rest self.new)) }
        ensures end { IfOk result (λ o. IfNone o ((rest self.old ≡ []) × (rest self.new ≡ []))) }
        ensures refused { OnErr result (rest self.new ≡ rest self.old) }
        ensures counted { calls self.new ≡ counted (calls self.old) }
        ensures size { size self.new ≡ size self.old }
        ensures cost { steps.new ≤ steps.old + due self.old };

    ghost share_rises: { (s : List ℕ) (c d : ℕ) → c ≤ d → share s c ≤ share s d };

    ghost due_within: { (e : Self) → due e ≤ share (size e) (calls e) };
}
