//! What a line says.

ghost use Rattle.std.specs.Prelude.{◌≡◌, option_map, IfOk};
ghost use Rattle.std.specs.Str.{bytes_eq};
ghost use Rattle.text_lines.specs.Parts.{parts};
ghost use Rattle.proof_model.specs.Forms.{answer_line, bound_line, last_line, line_of, numbers_line};
ghost use Rattle.proof_model.specs.ProofView.{line_view};

use crate::number::read_numbers;
use std::alloc::{AllocFailed, Global};
use text_lines::first_part;

/// What a line after the first one says.
#[derive(Drop)]
pub(crate) enum Line {
    /// A node, and its rows.
    Bound(u32, Vec<u32>),
    /// The rows of an answer.
    Answer(Vec<u32>),
    /// Whether there is no answer after those that are listed.
    Last(bool),
}

/// Whether a part is this word.
fn is_word(text: &[u8], word: &[u8]) -> bool
    ensures { result ≡ bytes_eq text.now word.now }
{
    text == word
}

/// The bound line of a node and its rows. `None` if there is no row.
fn bound(mut numbers: Vec<u32>) -> Option<Line>
    ensures { bound_line numbers.items ≡ option_map line_view result }
{
    if numbers.len() < 2 {
        return None;
    }
    let node = numbers.remove(0);
    Some(Line::Bound(node, numbers))
}

/// The answer line of these rows. `None` if there is no row.
fn answer(numbers: Vec<u32>) -> Option<Line>
    ensures { answer_line numbers.items ≡ option_map line_view result }
{
    if numbers.is_empty() {
        return None;
    }
    Some(Line::Answer(numbers))
}

/// The last line of this word. `None` if it is neither `more` nor `end`.
fn last(word: &[u8]) -> Option<Line>
    ensures { last_line word.now ≡ option_map line_view result }
{
    if is_word(word, b"more") {
        Some(Line::Last(false))
    } else if is_word(word, b"end") {
        Some(Line::Last(true))
    } else {
        None
    }
}

/// The line of this word and the numbers after it. `None` if it has no such form.
fn with_numbers(alloc: Global, word: &[u8], rest: &[u8]) -> Result<Option<Line>, AllocFailed<u32>>
    ensures { IfOk result
        (λ found. numbers_line word.now (parts rest.now) ≡ option_map line_view found) }
{
    let is_bound = is_word(word, b"bound");
    if !is_bound && !is_word(word, b"answer") {
        return Ok(None);
    }
    let Some(numbers) = read_numbers(alloc, rest)? else {
        return Ok(None);
    };
    if is_bound {
        Ok(bound(numbers))
    } else {
        Ok(answer(numbers))
    }
}

/// What a line says, or `None` if it has no form.
pub(crate) fn read_line(alloc: Global, text: &[u8]) -> Result<Option<Line>, AllocFailed<u32>>
    ensures { IfOk result (λ found. line_of text.now ≡ option_map line_view found) }
{
    let (word, rest) = first_part(text);
    match rest {
        None => Ok(last(word)),
        Some(rest) => with_numbers(alloc, word, rest),
    }
}
