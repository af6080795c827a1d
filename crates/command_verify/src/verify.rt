//! The command `verify`.
ghost use Rattle.std.specs.Prelude.{◌≡◌, ◌∷◌, [], None, length};
ghost use Rattle.cmd_words.specs.ArgumentMeaning.{words_view};
ghost use Rattle.command_input.specs.Input.{loaded_of};
ghost use Rattle.bound_query.specs.Shape.{Shape};
ghost use Rattle.outer_io.specs.Printing.{Printed};
ghost use Rattle.outer_io.specs.SinkState.{state_of};
ghost use Rattle.verdict.specs.AcceptedInput.{found_of};
ghost use Rattle.verdict.specs.Output.{answers_text};
ghost use Rattle.command_input.specs.Tasks.{words_of};
ghost use Rattle.command_verify.specs.Verifications.{HasAnswers, IsShown};

use crate::checking::check_proof;
use crate::fault::check_refusal;
use crate::printing::print_listed;
use answer_print::Style;
use cmd_words::Words;
use command_input::Input;
use outer_io::{PrintFault, Sink};
use refusals::{Refusal, refused};
use std::alloc::Global;
use std::sync::ledger::Ledger;
use step_counter::Steps;

/// Checks the certificate of the input, and prints the answers that it lists. The result is an
/// error if the certificate is not valid, if a write failed, or if memory is refused.
pub fn verify_input<'a, S: Sink, L: Ledger>(
    alloc: Global,
    words: &Words,
    input: &Input,
    out: &mut S,
    steps: &mut Steps<L>,
) -> Result<(), Refusal<'a>>
    requires one { length input.now.queries ≡ 1 }
    requires unnamed { input.now.best ≡ None }
    ensures { IsShown (words_of (words_view words.now)) (loaded_of input.now)
        (state_of S.Sink out.old) (state_of S.Sink out.new) result }
{
    let query = &input.queries[0];
    match check_proof(alloc, query, &input.tables, &input.proof, steps) {
        Ok(answers) => refused(print_checked(alloc, words, input, &answers, out)),
        Err(fault) => Err(check_refusal(fault)),
    }
}

/// Prints the header, and the answers that the certificate lists.
fn print_checked<S: Sink>(
    alloc: Global,
    words: &Words,
    input: &Input,
    answers: &[[u32; 16]],
    out: &mut S,
) -> Result<(), PrintFault>
    requires { HasAnswers input.now answers.now }
    ensures { (shape : Shape) → Printed (state_of S.Sink out.old) (state_of S.Sink out.new)
        (answers_text (words_of (words_view words.now))
        (found_of (loaded_of input.now) (shape ∷ []))) result }
{
    let style = Style {
        ranks: words.ranks,
        rows: words.rows,
        cursor: None,
    };
    let query = &input.queries[0];
    print_listed(alloc, query, &input.tables, &style, answers, out)
}
