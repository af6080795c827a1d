//! The engine over a plan.
ghost use Rattle.std.specs.Prelude.{◌≡◌, ◌+◌, ◌*◌, ◌≤◌, IfOk, List, None, length};
ghost use Rattle.anyk_model.specs.Table.{Table};
ghost use Rattle.engine_choice.specs.AskedKind.{kind_asked, kind_named};
ghost use Rattle.engine_choice.specs.Engines.{calls_of, kind_of_engine, rest_of, tree_of};
ghost use Rattle.plan_build.specs.Plan.{IsPlanOf};
ghost use Rattle.bound_query.specs.WeighedQuery.{BoundQuery};
ghost use Rattle.tdp_core.specs.AnswerView.{answers_of};
ghost use Rattle.tdp_core.specs.Solutions.{IsTreeRanking};
ghost use Rattle.tdp_core.specs.TreeView.{row_count};
ghost use Rattle.tdp_model.specs.KeyTuple.{KeyOf};
ghost use Rattle.tdp_core.specs.WellFormed.{IsTieFreeTree};
ghost use Rattle.engine_choice.specs.AskedList.{IsAskedList};

use crate::choice::{ChosenEngine, best_engine, choose_engine};
use crate::kind::EngineKind;
use bumpalo::Bump;
use cmd_words::Engine;
use plan_build::Plan;
use rank_key::Rank;
use std::alloc::Global;
use std::sync::ledger::Ledger;
use step_counter::{NoMemory, Steps};

/// The engine over a plan, before its first answer: the one with this name on the command line, or,
/// if an item is named whose rows are asked for, the one that gives the best answer of each of its
/// rows. `NoMemory` if memory is refused.
pub fn engine_over<'t, R: Rank, L: Ledger>(
    alloc: Global,
    engine: Engine,
    plan: &'t Plan<R>,
    best: Option<u32>,
    arena: &'t Bump,
    steps: &mut Steps<L>,
) -> Result<ChosenEngine<'t, R>, NoMemory>
    requires tie_free { IsTieFreeTree plan.now.tree }
    ensures kind { IfOk result (λ e. kind_of_engine e ≡ kind_asked engine best) }
    ensures tree { IfOk result (λ e. tree_of e ≡ plan.now.tree) }
    ensures calls { IfOk result (λ e. calls_of e ≡ 0) }
    ensures asked { (bound : BoundQuery) (tables : List Table)
        → IsPlanOf R.KEYS R.key bound tables best plan.now
        → IfOk result (λ e. IsAskedList bound.query tables best (rest_of R.KEYS R.key e)) }
    // If no item is named, the ranking of the tree is left.
    ensures ranking { best ≡ None → IfOk result (λ e. (ks : List (KeyOf R.KEYS 16))
        × IsTreeRanking plan.now.tree R.KEYS R.key ks
        × (rest_of R.KEYS R.key e ≡ answers_of R.KEYS ks)) }
    ensures cost { steps.new ≤ steps.old
        + 16 * (length plan.now.tree * (1 + row_count plan.now.tree)) }
{
    let tree = plan.tree();
    // for the proof: the tree is well formed
    let _nodes = tree.nodes();
    match best {
        None => choose_engine(alloc, kind_of(engine), tree, arena, steps),
        Some(_) => best_engine(alloc, tree, steps),
    }
}

/// The kind of engine with this name on the command line.
fn kind_of(engine: Engine) -> EngineKind
    ensures kind { result ≡ kind_named engine }
{
    match engine {
        Engine::Part => EngineKind::Part,
        Engine::Rec => EngineKind::Rec,
    }
}
