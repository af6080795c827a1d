//! The summary of a query's answers.
ghost use Rattle.std.specs.Prelude.{◌≡◌, ◌+◌, ◌≤◌, IfOk};
ghost use Rattle.anyk_model.specs.Output.{cut};
ghost use Rattle.bound_query.specs.WeighedQuery.{Fits};
ghost use Rattle.bound_query.specs.Steps.{calls_for, steps_for};
ghost use Rattle.output_model.specs.Summary.{summary_text};
ghost use Rattle.witness_key.specs.WitnessKey.{AreCombinations, combinations_in};

use crate::first_and_last::take_ends;
use crate::summary_text::summary;
use bound_query::Query;
use std::alloc::Global;
use std::sync::ledger::Ledger;
use step_counter::{NoMemory, Steps};
use table_store::Tables;
use tdp_core::Ranked;

/// Takes the answers that the engine has left, as many as the limit allows, and gives the text of
/// their summary. `NoMemory` if memory is refused.
pub fn take_summary<E: Ranked, L: Ledger>(
    alloc: Global,
    query: &Query,
    tables: &Tables,
    engine: &mut E,
    steps: &mut Steps<L>,
) -> Result<Vec<u8>, NoMemory>
    requires fits { Fits query.now tables.now }
    requires rows { AreCombinations query.now.query tables.now (E.rest engine.old) }
    ensures text { IfOk result (λ text. text.items ≡ summary_text query.now.query tables.now
        (cut query.now.query.limit (combinations_in query.now.query (E.rest engine.old)))) }
    ensures bounded { steps.new ≤ steps.old
        + steps_for (λ n. E.share (E.size engine.old) (E.calls engine.old + n))
        (calls_for query.now.query.limit (combinations_in query.now.query (E.rest engine.old))) }
{
    // for the proof: there are at most 16 items
    let _items = query.items();
    let ends = take_ends(query.limit(), engine, steps)?;
    summary(alloc, query, tables, &ends)
}
