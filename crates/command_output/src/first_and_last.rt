//! The first and the last of the answers.
ghost use Rattle.std.specs.Prelude.{◌≡◌, ◌+◌, ◌++◌, ◌∷◌, ◌≤◌, ◌<◌, [], IfOk, List, length};
ghost use Rattle.anyk_model.specs.Output.{cut};
ghost use Rattle.bound_query.specs.Steps.{calls_for, steps_for};
ghost use Rattle.tdp_core.specs.AnswerView.{AnswerView};
ghost use Rattle.command_output.specs.Ends.{HasEnds};

use std::sync::ledger::Ledger;
use step_counter::{NoMemory, Steps};
use tdp_core::Ranked;

/// The number of answers, and the rows of the first and of the last of them.
#[derive(Drop)]
pub(crate) struct FirstAndLast {
    pub(crate) count: u64,
    pub(crate) first: Option<[u32; 16]>,
    pub(crate) last: Option<[u32; 16]>,
}

impl FirstAndLast {
    /// The ends of no answers.
    fn new() -> FirstAndLast
        ensures { HasEnds [] result }
    {
        FirstAndLast {
            count: 0,
            first: None,
            last: None,
        }
    }

    /// Adds one answer after the others.
    fn push(&mut self, rows: [u32; 16])
        requires { self.old.count < 18446744073709551615 }
        ensures { (given : List AnswerView) (answer : AnswerView) → HasEnds given self.old
            → answer.rows ≡ rows
            → HasEnds (given ++ answer ∷ []) self.new }
    {
        self.count += 1;
        self.first = self.first.or(Some(rows));
        self.last = Some(rows);
    }
}

/// Takes the answers from the engine, as many as the limit allows. `NoMemory` if memory is refused.
pub(crate) fn take_ends<E: Ranked, L: Ledger>(
    limit: Option<u64>,
    engine: &mut E,
    steps: &mut Steps<L>,
) -> Result<FirstAndLast, NoMemory>
    ensures ends { IfOk result (λ ends. HasEnds (cut limit (E.rest engine.old)) ends) }
    ensures bounded { steps.new ≤ steps.old
        + steps_for (λ n. E.share (E.size engine.old) (E.calls engine.old + n))
        (calls_for limit (E.rest engine.old)) }
{
    let mut ends = FirstAndLast::new();
    let most = limit.unwrap_or(u64::MAX);
    for _given in 0..most {
        let Some(answer) = engine.next(steps)? else {
            return Ok(ends);
        };
        ends.push(answer.rows);
    }
    // not met without a limit: no memory holds 2^64 - 1 answers
    if limit.is_none() {
        return Err(NoMemory);
    }
    Ok(ends)
}
