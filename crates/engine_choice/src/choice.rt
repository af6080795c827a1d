//! The engine that was asked for.
ghost use Rattle.std.specs.Prelude.{◌≡◌, ◌+◌, ◌*◌, ◌≤◌, IfOk, List, None, Some, length};
ghost use Rattle.tdp_model.specs.KeyTuple.{KeyOf};
ghost use Rattle.tdp_core.specs.AnswerView.{answers_of};
ghost use Rattle.tdp_core.specs.RisingShares.{at_most_itself, shares_rise};
ghost use Rattle.tdp_core.specs.Shares.{share_of, size_of};
ghost use Rattle.tdp_core.specs.Solutions.{IsTreeRanking};
ghost use Rattle.tdp_core.specs.TreeView.{row_count};
ghost use Rattle.tdp_core.specs.WellFormed.{IsTieFreeTree};
ghost use Rattle.tree_dp.specs.BestRanking.{IsBestRanking};
ghost use Rattle.engine_choice.specs.Engines.{calls_of, kind_of_engine, rest_of, tree_of};

use crate::kind::EngineKind;
use anyk_part::Part;
use anyk_rec::Rec;
use best_per::BestPer;
use bumpalo::Bump;
use rank_key::Rank;
use std::alloc::Global;
use std::sync::ledger::Ledger;
use step_counter::{NoMemory, Steps};
use tdp_core::{Answer, Ranked, Tree};

/// One of the engines over a tree.
pub enum ChosenEngine<'t, R: Rank> {
    /// All answers, by regions.
    Part(Part<'t, R, Global>),
    /// All answers, by recursion. What it finds is in an arena, which outlives it.
    Rec(Rec<'t, R, &'t Bump>),
    /// The best answer of each row of the root.
    Best(BestPer<'t, R, Global>),
}

impl<'t, R: Rank> Drop for ChosenEngine<'t, R> {
    // By hand: what a derived one does is proved anew in each crate that drops an engine.
    fn drop(self) {
        match self {
            ChosenEngine::Part(part) => drop(part),
            ChosenEngine::Rec(rec) => drop(rec),
            ChosenEngine::Best(best) => drop(best),
        }
    }
}

/// Creates the named engine over `tree`, before its first answer. It takes at most 16 * m * (1 + N)
/// steps for m nodes with N rows in all, and returns `NoMemory` if memory is refused.
pub fn choose_engine<'t, R: Rank, L: Ledger>(
    alloc: Global,
    kind: EngineKind,
    tree: &'t Tree<R>,
    arena: &'t Bump,
    steps: &mut Steps<L>,
) -> Result<ChosenEngine<'t, R>, NoMemory>
    requires tie_free { IsTieFreeTree tree.now }
    ensures kind { IfOk result (λ e. kind_of_engine e ≡ Some kind) }
    ensures tree { IfOk result (λ e. tree_of e ≡ tree.now) }
    ensures calls { IfOk result (λ e. calls_of e ≡ 0) }
    ensures ranking { IfOk result
        (λ e. (ks : List (KeyOf R.KEYS 16)) × IsTreeRanking tree.now R.KEYS R.key ks
        × (rest_of R.KEYS R.key e ≡ answers_of R.KEYS ks)) }
    ensures cost { steps.new ≤ steps.old + 16 * (length tree.now * (1 + row_count tree.now)) }
{
    match kind {
        EngineKind::Part => {
            let part = Part::new(alloc, tree, steps)?;
            Ok(ChosenEngine::Part(part))
        }
        EngineKind::Rec => {
            let rec = Rec::new(arena, tree, steps)?;
            Ok(ChosenEngine::Rec(rec))
        }
    }
}

/// Creates the engine that gives the best answer of each row of the root of `tree`, before its
/// first answer. It takes at most 16 * m * (1 + N) steps for m nodes with N rows in all, and
/// returns `NoMemory` if memory is refused.
pub fn best_engine<'t, R: Rank, L: Ledger>(
    alloc: Global,
    tree: &'t Tree<R>,
    steps: &mut Steps<L>,
) -> Result<ChosenEngine<'t, R>, NoMemory>
    requires tie_free { IsTieFreeTree tree.now }
    ensures kind { IfOk result (λ e. kind_of_engine e ≡ None) }
    ensures tree { IfOk result (λ e. tree_of e ≡ tree.now) }
    ensures calls { IfOk result (λ e. calls_of e ≡ 0) }
    ensures best { IfOk result
        (λ e. (ks : List (KeyOf R.KEYS 16)) × IsBestRanking tree.now R.KEYS R.key ks
        × (rest_of R.KEYS R.key e ≡ answers_of R.KEYS ks)) }
    ensures cost { steps.new ≤ steps.old + 16 * (length tree.now * (1 + row_count tree.now)) }
{
    let best = BestPer::new(alloc, tree, steps)?;
    Ok(ChosenEngine::Best(best))
}

impl<'t, R: Rank> Ranked for ChosenEngine<'t, R> {
    type Key = R;

    ghost rest = { rest_of R.KEYS R.key };

    ghost calls = { calls_of };

    ghost due = { λ e. share_of (size_of (tree_of e)) (calls_of e) };

    ghost size = { λ e. size_of (tree_of e) };

    ghost share = { share_of };

    ghost share_rises = { shares_rise };

    ghost due_within = { λ e. at_most_itself (share_of (size_of (tree_of e)) (calls_of e)) };

    fn next<L: Ledger>(&mut self, steps: &mut Steps<L>) -> Result<Option<Answer<R>>, NoMemory> {
        match self {
            ChosenEngine::Part(part) => part.next(steps),
            ChosenEngine::Rec(rec) => rec.next(steps),
            ChosenEngine::Best(best) => best.next(steps),
        }
    }
}
