//! The command `run` over several queries.
ghost use Rattle.std.specs.Prelude.{◌≤◌, ◌+◌, None, IfOk, length, ℕ};
ghost use Rattle.std.specs.List.{All};
ghost use Rattle.anyk_model.specs.Output.{cut};
ghost use Rattle.answer_print.specs.StyleView.{style_view};
ghost use Rattle.plan_build.specs.Plans.{ArePrepared, HavePlans};
ghost use Rattle.bound_query.specs.WeighedQuery.{Fits};
ghost use Rattle.outer_io.specs.Printing.{Printed};
ghost use Rattle.outer_io.specs.SinkState.{state_of};
ghost use Rattle.tdp_core.specs.WellFormed.{IsTieFreeTree};
ghost use Rattle.anyk_model.specs.TaggedRows.{branch_at};
ghost use Rattle.anyk_model.specs.Union.{union_of};
ghost use Rattle.anyk_model.specs.UnionOutput.{union_output_of};
ghost use Rattle.verdict.specs.AcceptedInput.{queries_in};
ghost use Rattle.verdict.specs.UnionBound.{KeepsUnionBound, KeepsUnionPace};
ghost use Rattle.anyk_top.specs.StartedEngines.{AreStarted, starts_of};

use crate::planned_query::PlannedQueries;
use answer_print::Style;
use bumpalo::Bump;
use cmd_words::Engine;
use command_output::print_union;
use engine_choice::{ChosenEngine, engine_over};
use outer_io::{PrintFault, Sink};
use plan_build::Plan;
use rank_key::Rank;
use std::alloc::Global;
use std::sync::ledger::Ledger;
use step_counter::{NoMemory, Steps};
use union_all::Merge;

/// Prints the header, and then the first members of the union of the queries' answers, as many as
/// the limit allows, each as soon as it is known. `Write` if a write failed, and `NoMemory` if
/// memory is refused.
pub fn print_union_run<R: Rank, S: Sink, L: Ledger>(
    alloc: Global,
    engine: Engine,
    style: &Style<'_>,
    asked: &PlannedQueries<'_, R>,
    out: &mut S,
    steps: &mut Steps<L>,
) -> Result<(), PrintFault>
    requires some { 1 ≤ length asked.now.queries.now }
    requires few { length asked.now.queries.now ≤ 8 }
    requires fits { All (λ q. Fits q asked.now.tables.now) asked.now.queries.now }
    requires plans { HavePlans R.KEYS R.key asked.now.tables.now asked.now.queries.now
        asked.now.plans.now }
    ensures printed { let all = queries_in asked.now.queries.now in
        Printed (state_of S.Sink out.old) (state_of S.Sink out.new)
        (union_output_of all asked.now.tables.now (style_view style.now)
        (cut (branch_at all 0).limit (union_of all asked.now.tables.now))) result }
    ensures bounded { let all = queries_in asked.now.queries.now in
        (before : ℕ) → ArePrepared all asked.now.tables.now before steps.old
        → KeepsUnionBound all asked.now.tables.now
        (cut (branch_at all 0).limit (union_of all asked.now.tables.now)) before steps.new }
    ensures paced { let all = queries_in asked.now.queries.now in
        (before : ℕ) → ArePrepared all asked.now.tables.now before steps.old
        → KeepsUnionPace all asked.now.tables.now
        (cut (branch_at all 0).limit (union_of all asked.now.tables.now))
        (style_view style.now) (S.written out.old) (S.written out.new) before steps.new }
{
    let arena = Bump::new(alloc);
    let engines = engines_over(alloc, engine, asked.plans, &arena, steps)?;
    let mut merge = Merge::new(alloc, asked.queries, asked.tables, engines, steps)?;
    print_union(
        alloc,
        asked.queries,
        asked.tables,
        style,
        asked.queries[0].limit(),
        &mut merge,
        out,
        steps,
    )
}

/// The engine over each plan, before its first answer. All take their memory from one arena.
/// `NoMemory` if memory is refused.
fn engines_over<'t, R: Rank, L: Ledger>(
    alloc: Global,
    engine: Engine,
    plans: &'t [Plan<R>],
    arena: &'t Bump,
    steps: &mut Steps<L>,
) -> Result<Vec<ChosenEngine<'t, R>>, NoMemory>
    requires tie_free { All (λ p. IsTieFreeTree p.tree) plans.now }
    ensures started { IfOk result (λ engines. AreStarted R.KEYS R.key plans.now engines.items) }
    ensures cost { steps.new ≤ steps.old + starts_of plans.now }
{
    let mut engines = Vec::with_capacity(alloc, plans.len())?;
    for plan in plans {
        let started = engine_over(alloc, engine, plan, None, arena, steps)?;
        engines.push(started)?;
    }
    Ok(engines)
}
