//! The command `load`.
ghost use Rattle.std.specs.Prelude.{ℕ};
ghost use Rattle.anyk_model.specs.Output.{cut};
ghost use Rattle.anyk_model.specs.BestList.{list_of};
ghost use Rattle.plan_build.specs.Plan.{IsPlanOf};
ghost use Rattle.bound_query.specs.WeighedQuery.{Fits};
ghost use Rattle.outer_io.specs.Printing.{Printed};
ghost use Rattle.outer_io.specs.SinkState.{state_of};
ghost use Rattle.bound_query.specs.RunBounds.{IsPrepared, KeepsBound};
ghost use Rattle.output_model.specs.Summary.{summary_text};
ghost use Rattle.verdict.specs.Silence.{IsSilent};

use crate::once::print_once;
use crate::planned_query::PlannedQuery;
use bumpalo::Bump;
use cmd_words::Engine;
use command_output::take_summary;
use engine_choice::engine_over;
use outer_io::{PrintFault, Sink};
use rank_key::Rank;
use std::alloc::Global;
use std::sync::ledger::Ledger;
use step_counter::Steps;

/// Takes the first answers of the query, as many as the limit allows, and then prints their
/// summary. `NoMemory` if memory is refused, before anything is written, and `Write` if the write
/// failed.
pub fn print_load<R: Rank, S: Sink, L: Ledger>(
    alloc: Global,
    engine: Engine,
    asked: &PlannedQuery<'_, R>,
    out: &mut S,
    steps: &mut Steps<L>,
) -> Result<(), PrintFault>
    requires fits { Fits asked.now.query.now asked.now.tables.now }
    requires plan { IsPlanOf R.KEYS R.key asked.now.query.now asked.now.tables.now asked.now.best
        asked.now.plan.now }
    ensures printed { Printed (state_of S.Sink out.old) (state_of S.Sink out.new)
        (summary_text asked.now.query.now.query asked.now.tables.now
        (cut asked.now.query.now.query.limit
        (list_of asked.now.query.now.query asked.now.tables.now asked.now.best))) result }
    ensures silent { IsSilent (state_of S.Sink out.old) (state_of S.Sink out.new) result }
    ensures bounded { (before : ℕ)
        → IsPrepared asked.now.query.now.query asked.now.tables.now before steps.old
        → KeepsBound asked.now.query.now.query asked.now.tables.now
        (list_of asked.now.query.now.query asked.now.tables.now asked.now.best) before steps.new }
{
    let arena = Bump::new(alloc);
    let mut chosen = engine_over(alloc, engine, asked.plan, asked.best, &arena, steps)?;
    let text = take_summary(alloc, asked.query, asked.tables, &mut chosen, steps);
    drop(chosen);
    print_once(out, &text?)
}
