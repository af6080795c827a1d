//! The command `prove`: the text of a certificate, by one write.
ghost use Rattle.std.specs.Prelude.{◌≡◌, None, List};
ghost use Rattle.anyk_model.specs.Table.{Table};
ghost use Rattle.plan_build.specs.Plan.{IsPlan, PlanView};
ghost use Rattle.proof_model.specs.ProofTexts.{IsProofText};
ghost use Rattle.bound_query.specs.WeighedQuery.{Fits};
ghost use Rattle.outer_io.specs.Printing.{PrintedSome};
ghost use Rattle.outer_io.specs.SinkState.{state_of};
ghost use Rattle.tdp_core.specs.AnswerView.{answers_of};
ghost use Rattle.tdp_core.specs.Solutions.{IsTreeRanking};
ghost use Rattle.tdp_model.specs.KeyTuple.{KeyOf};
ghost use Rattle.verdict.specs.Silence.{IsSilent};

use crate::once::print_once;
use bound_query::Query;
use bumpalo::Bump;
use cmd_words::Engine;
use engine_choice::engine_over;
use outer_io::{PrintFault, Sink};
use plan_build::Plan;
use rank_key::Rank;
use std::alloc::Global;
use std::sync::ledger::Ledger;
use step_counter::Steps;
use tdp_core::{Ranked, Tree};
use topk_proof::prove;

/// Prints the text of a certificate of the query's first answers, as many as the limit allows.
/// `NoMemory` if memory is refused, before anything is written, and `Write` if the write
/// failed.
pub fn print_certificate<R: Rank, S: Sink, L: Ledger>(
    alloc: Global,
    engine: Engine,
    plan: &Plan<R>,
    query: &Query,
    out: &mut S,
    steps: &mut Steps<L>,
) -> Result<(), PrintFault>
    requires plan { (tables : List Table) × Fits query.now tables
        × IsPlan R.KEYS R.key query.now tables plan.now }
    ensures printed { (tables : List Table) → Fits query.now tables
        → IsPlan R.KEYS R.key query.now tables plan.now
        → PrintedSome (IsProofText query.now.query tables) (state_of S.Sink out.old)
        (state_of S.Sink out.new) result }
    ensures silent { IsSilent (state_of S.Sink out.old) (state_of S.Sink out.new) result }
{
    let arena = Bump::new(alloc);
    let mut chosen = engine_over(alloc, engine, plan, None, &arena, steps)?;
    let printed = print_proof(alloc, query, plan.tree(), &mut chosen, out, steps);
    drop(chosen);
    printed
}

/// Prints the text of a certificate of the query's first answers, as many as the limit allows, by
/// one write. The tree is that of a plan of the query, and the engine has all answers left.
/// `NoMemory` if memory is refused, before anything is written, and `Write` if the write
/// failed.
pub fn print_proof<R: Rank, E: Ranked<Key = R>, S: Sink, L: Ledger>(
    alloc: Global,
    query: &Query,
    tree: &Tree<R>,
    engine: &mut E,
    out: &mut S,
    steps: &mut Steps<L>,
) -> Result<(), PrintFault>
    requires planned { (tables : List Table) × (plan : PlanView R) × Fits query.now tables
        × IsPlan R.KEYS R.key query.now tables plan × (plan.tree ≡ tree.now) }
    requires rest { (ks : List (KeyOf R.KEYS 16)) × IsTreeRanking tree.now R.KEYS R.key ks
        × (E.rest engine.old ≡ answers_of R.KEYS ks) }
    ensures printed { (tables : List Table) (plan : PlanView R) → Fits query.now tables
        → IsPlan R.KEYS R.key query.now tables plan → plan.tree ≡ tree.now
        → PrintedSome (IsProofText query.now.query tables) (state_of S.Sink out.old)
        (state_of S.Sink out.new) result }
    ensures silent { IsSilent (state_of S.Sink out.old) (state_of S.Sink out.new) result }
{
    let text = prove(alloc, query, tree, engine, steps)?;
    print_once(out, &text)
}
