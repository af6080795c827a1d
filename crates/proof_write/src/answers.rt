//! The lines of the answers.
ghost use Rattle.std.specs.Prelude.{◌≡◌, ◌++◌, IfOk, not};
ghost use Rattle.std.specs.List.{flat_map};
ghost use Rattle.anyk_model.specs.Output.{cut};
ghost use Rattle.bound_query.specs.Steps.{reaches};
ghost use Rattle.witness_key.specs.WitnessKey.{combinations_in};
ghost use Rattle.proof_model.specs.Writing.{answer_text};

use bound_query::Query;
use proof_model::push_answer;
use std::alloc::Global;
use std::sync::ledger::Ledger;
use step_counter::{NoMemory, Steps};
use tdp_core::Ranked;

/// Appends the lines of the answers that the engine has left, as many as the limit allows. Returns
/// whether the engine ended before the limit. `NoMemory` if memory is refused.
pub fn push_answers<E: Ranked, L: Ledger>(
    alloc: Global,
    query: &Query,
    engine: &mut E,
    text: &mut Vec<u8>,
    steps: &mut Steps<L>,
) -> Result<bool, NoMemory>
    ensures appended { IfOk result (λ ended. text.new.items ≡ text.old.items
        ++ flat_map answer_text
        (cut query.now.query.limit (combinations_in query.now.query (E.rest engine.old)))) }
    ensures ended { IfOk result (λ ended. ended
        ≡ not (reaches query.now.query.limit
        (combinations_in query.now.query (E.rest engine.old)))) }
{
    let items = query.items() as usize;
    let most = query.limit().unwrap_or(u64::MAX);
    for _given in 0..most {
        let Some(answer) = engine.next(steps)? else {
            return Ok(true);
        };
        push_answer(alloc, text, &answer.rows[..items])?;
    }
    // not met without a limit: no memory holds 2^64 - 1 answers
    if query.limit().is_none() {
        return Err(NoMemory);
    }
    Ok(false)
}
