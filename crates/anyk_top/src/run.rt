//! The command `run`.
ghost use Rattle.std.specs.Prelude.{ℕ};
ghost use Rattle.anyk_model.specs.Output.{cut, output_of};
ghost use Rattle.answer_print.specs.StyleView.{style_view};
ghost use Rattle.anyk_model.specs.BestList.{list_of};
ghost use Rattle.plan_build.specs.Plan.{IsPlanOf};
ghost use Rattle.bound_query.specs.WeighedQuery.{Fits};
ghost use Rattle.outer_io.specs.Printing.{Printed};
ghost use Rattle.outer_io.specs.SinkState.{state_of};
ghost use Rattle.bound_query.specs.RunBounds.{IsPrepared, KeepsBound, KeepsPace};

use crate::planned_query::PlannedQuery;
use answer_print::Style;
use bumpalo::Bump;
use cmd_words::Engine;
use command_output::print_ranking;
use engine_choice::engine_over;
use outer_io::{PrintFault, Sink};
use rank_key::Rank;
use std::alloc::Global;
use std::sync::ledger::Ledger;
use step_counter::Steps;

/// Prints the header, and then the first answers of the query, as many as the limit allows, each as
/// soon as it is known: of all its answers, or of the best answer of each row of the item, if one
/// is named. `Write` if a write failed, and `NoMemory` if memory is refused.
pub fn print_run<R: Rank, S: Sink, L: Ledger>(
    alloc: Global,
    engine: Engine,
    style: &Style<'_>,
    asked: &PlannedQuery<'_, R>,
    out: &mut S,
    steps: &mut Steps<L>,
) -> Result<(), PrintFault>
    requires fits { Fits asked.now.query.now asked.now.tables.now }
    requires plan { IsPlanOf R.KEYS R.key asked.now.query.now asked.now.tables.now asked.now.best
        asked.now.plan.now }
    ensures printed { Printed (state_of S.Sink out.old) (state_of S.Sink out.new)
        (output_of asked.now.query.now.query asked.now.tables.now (style_view style.now)
        (cut asked.now.query.now.query.limit
        (list_of asked.now.query.now.query asked.now.tables.now asked.now.best))) result }
    ensures bounded { (before : ℕ)
        → IsPrepared asked.now.query.now.query asked.now.tables.now before steps.old
        → KeepsBound asked.now.query.now.query asked.now.tables.now
        (list_of asked.now.query.now.query asked.now.tables.now asked.now.best) before steps.new }
    ensures paced { (before : ℕ)
        → IsPrepared asked.now.query.now.query asked.now.tables.now before steps.old
        → KeepsPace asked.now.query.now.query asked.now.tables.now
        (list_of asked.now.query.now.query asked.now.tables.now asked.now.best)
        (style_view style.now) (S.written out.old) (S.written out.new) before steps.new }
{
    let arena = Bump::new(alloc);
    let mut chosen = engine_over(alloc, engine, asked.plan, asked.best, &arena, steps)?;
    let printed = print_ranking(
        alloc,
        asked.query,
        asked.tables,
        style,
        &mut chosen,
        out,
        steps,
    );
    drop(chosen);
    printed
}
