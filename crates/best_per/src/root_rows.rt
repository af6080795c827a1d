//! The best answer of each row of the root, one after another.
ghost use Rattle.std.specs.Prelude.{◌≡◌, ℕ, ◌+◌, ◌*◌, ◌≤◌, List, [], ◌∷◌, length, IfOk, IfSome, IfNone, IsOk, OnErr};
ghost use Rattle.tdp_model.specs.KeyTuple.{KeyOf};
ghost use Rattle.tdp_model.specs.KeyNumbers.{numbers};
ghost use Rattle.tdp_core.specs.TreeView.{row_count};
ghost use Rattle.tdp_core.specs.WellFormed.{IsTieFreeTree};
ghost use Rattle.tdp_core.specs.AnswerView.{AnswerView, answers_of, counted};
ghost use Rattle.tdp_core.specs.Shares.{share_of, size_of};
ghost use Rattle.tdp_core.specs.RisingShares.{at_most_itself};
ghost use Rattle.tree_dp.specs.BestRanking.{IsBestRanking};

use crate::queue::{first_queue, offer};
use rank_key::Rank;
use std::alloc::Allocator;
use std::marker::Model;
use std::sync::ledger::Ledger;
use step_counter::{NoMemory, Steps};
use take2_heap::HeapOf;
use tdp_core::{Answer, Ranked, Tree};
use tree_dp::best_rows;

/// The best answer of each row of a tree's root, in order of rank. Contracts see the tree, the
/// answers that are left, and the number of calls so far.
///
/// All its memory is taken by `new`. Each call of `next` takes at most 24 * m * (1 + b) steps,
/// where m is the number of nodes, N the number of rows of all nodes, and b the number of binary
/// digits of N + m. Over a tree without a solution it takes none.
#[derive(Drop)]
pub struct BestPer<'t, R: Rank, A: Allocator> {
    tree: &'t Tree<R>,
    /// Places of the root's heap, each with the best rank of its row. They hold the rows that are
    /// left.
    queue: HeapOf<R, u32, A>,
    calls: u64,
}

impl<'t, R: Rank, A: Allocator> Model for BestPer<'t, R, A> {
    ghost use Rattle.tdp_core.specs.AnswerView.{answers_of};
    ghost use Rattle.best_per.specs.RootHeap.{BestView, rest_keys, IsQueue};

    ghost Value = { BestView R };

    ghost view = { λ s. record {
      tree = s.tree.now;
      calls = s.calls;
      rest = answers_of R.KEYS (rest_keys R.KEYS R.key s.tree.now s.queue.entries);
    } };

    ghost invariant = { λ s. IsQueue R.KEYS R.key s.tree.now s.queue.entries s.queue.spare };
}

impl<'t, R: Rank, A: Allocator> BestPer<'t, R, A> {
    /// The best answers of the root's rows, one for each row. It takes at most 16 * m * (1 + N)
    /// steps if the tree has m nodes and N rows in all. `NoMemory` if memory is refused.
    pub fn new<L: Ledger>(
        alloc: A,
        tree: &'t Tree<R>,
        steps: &mut Steps<L>,
    ) -> Result<BestPer<'t, R, A>, NoMemory>
        requires tie_free { IsTieFreeTree tree.now }
        ensures tree { IfOk result (λ b. b.tree ≡ tree.now) }
        ensures calls { IfOk result (λ b. b.calls ≡ 0) }
        ensures best { IfOk result (λ b. (ks : List (KeyOf R.KEYS 16))
            × IsBestRanking tree.now R.KEYS R.key ks × (b.rest ≡ answers_of R.KEYS ks)) }
        ensures cost { steps.new ≤ steps.old + 16 * (length tree.now * (1 + row_count tree.now)) }
    {
        let queue = first_queue(alloc, tree, steps)?;
        Ok(BestPer {
            tree,
            queue,
            calls: 0,
        })
    }
}

impl<'t, R: Rank, A: Allocator> Ranked for BestPer<'t, R, A> {
    type Key = R;

    ghost rest = { λ s. s.rest };

    ghost calls = { λ s. s.calls };

    ghost due = { λ s. share_of (size_of s.tree) 0 };

    ghost size = { λ s. size_of s.tree };

    ghost share = { λ s c. share_of s 0 };

    ghost share_rises = { λ s c d h. at_most_itself (share_of s 0) };

    ghost due_within = { λ e. at_most_itself (share_of (size_of e.tree) 0) };

    /// The best answer of the next row, or `None` after the last. It takes no memory, so it never
    /// returns an error.
    fn next<L: Ledger>(&mut self, steps: &mut Steps<L>) -> Result<Option<Answer<R>>, NoMemory>
        ensures total { IsOk result }
        ensures found { IfOk result (λ o. IfSome o (λ a. self.old.rest
            ≡ record { rows = a.rows; key = numbers R.KEYS 16 (R.key a.rank) } ∷ self.new.rest)) }
        ensures end { IfOk result (λ o. IfNone o ((self.old.rest ≡ []) × (self.new.rest ≡ []))) }
        ensures refused { OnErr result (self.new.rest ≡ self.old.rest) }
        ensures counted { self.new.calls ≡ counted self.old.calls }
        ensures size { size_of self.new.tree ≡ size_of self.old.tree }
        ensures cost { steps.new ≤ steps.old + share_of (size_of self.old.tree) 0 }
    {
        self.calls = self.calls.saturating_add(1);
        let Some(top) = self.queue.pop(steps) else {
            return Ok(None);
        };
        offer(&mut self.queue, self.tree, 2 * top.tag + 1, steps);
        offer(&mut self.queue, self.tree, 2 * top.tag + 2, steps);
        let row = self.tree.member(0, 0, top.tag, steps);
        let rows = best_rows(self.tree, row, steps);
        Ok(Some(Answer {
            rows,
            rank: top.rank,
        }))
    }
}
