//! The command `session`.
ghost use Rattle.std.specs.Prelude.{[], ℕ};
ghost use Rattle.anyk_model.specs.Output.{cut};
ghost use Rattle.answer_print.specs.StyleView.{style_view};
ghost use Rattle.anyk_model.specs.BestList.{list_of};
ghost use Rattle.plan_build.specs.Plan.{IsPlanOf};
ghost use Rattle.bound_query.specs.WeighedQuery.{Fits};
ghost use Rattle.outer_io.specs.Printing.{Printed};
ghost use Rattle.outer_io.specs.SinkState.{state_of};
ghost use Rattle.session_script.specs.Script.{KeepsRules};
ghost use Rattle.bound_query.specs.RunBounds.{IsPrepared};
ghost use Rattle.output_model.specs.Session.{session_text};
ghost use Rattle.verdict.specs.SessionBound.{KeepsSessionBound, KeepsSessionPace};

use crate::planned_query::PlannedQuery;
use answer_print::Style;
use bumpalo::Bump;
use cmd_words::Engine;
use command_output::print_session;
use engine_choice::engine_over;
use outer_io::{PrintFault, Sink};
use rank_key::Rank;
use session_script::Step;
use std::alloc::Global;
use std::sync::ledger::Ledger;
use step_counter::Steps;

/// Prints the header with the title of the cursors' names, and then what the steps of the script
/// print of the query's answers, as far as the limit allows, each as soon as it is known: of all of
/// them, or of the best answer of each row of the item, if one is named. `Write` if a write failed,
/// and `NoMemory` if memory is refused.
pub fn print_script<R: Rank, S: Sink, L: Ledger>(
    alloc: Global,
    engine: Engine,
    style: &Style<'_>,
    asked: &PlannedQuery<'_, R>,
    script: &[Step],
    out: &mut S,
    steps: &mut Steps<L>,
) -> Result<(), PrintFault>
    requires fits { Fits asked.now.query.now asked.now.tables.now }
    requires plan { IsPlanOf R.KEYS R.key asked.now.query.now asked.now.tables.now asked.now.best
        asked.now.plan.now }
    requires rules { KeepsRules [] script.now }
    ensures printed { Printed (state_of S.Sink out.old) (state_of S.Sink out.new)
        (session_text asked.now.query.now.query asked.now.tables.now (style_view style.now)
        (cut asked.now.query.now.query.limit
        (list_of asked.now.query.now.query asked.now.tables.now asked.now.best)) script.now) result }
    ensures bounded { (before : ℕ)
        → IsPrepared asked.now.query.now.query asked.now.tables.now before steps.old
        → KeepsSessionBound asked.now.query.now.query asked.now.tables.now
        (list_of asked.now.query.now.query asked.now.tables.now asked.now.best) script.now before
        steps.new }
    ensures paced { (before : ℕ)
        → IsPrepared asked.now.query.now.query asked.now.tables.now before steps.old
        → KeepsSessionPace asked.now.query.now.query asked.now.tables.now
        (list_of asked.now.query.now.query asked.now.tables.now asked.now.best)
        (style_view style.now) script.now (S.written out.old) (S.written out.new) before steps.new }
{
    let arena = Bump::new(alloc);
    let chosen = engine_over(alloc, engine, asked.plan, asked.best, &arena, steps)?;
    print_session(
        alloc,
        asked.query,
        asked.tables,
        style,
        chosen,
        script,
        out,
        steps,
    )
}
