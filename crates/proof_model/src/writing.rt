//! The text of a certificate, line by line.

ghost use Rattle.std.specs.Prelude.{◌≡◌, ◌++◌, IfOk, OnErr, OnOk};
ghost use Rattle.proof_model.specs.Writing.{answer_text, bound_text, header_text, last_text, spaced};

use std::alloc::Global;
use step_counter::NoMemory;
use text_lines::NumberText;

/// Appends numbers, with a space before each.
fn push_numbers(line: &mut Vec<u8>, numbers: &[u32]) -> Result<(), NoMemory>
    ensures { OnOk result (line.new.items ≡ line.old.items ++ spaced numbers.now) }
{
    for number in numbers {
        line.push(b' ')?;
        line.extend_from_slice(NumberText::of(*number).as_bytes())?;
    }
    Ok(())
}

/// The text of a bound line.
fn bound_line(alloc: Global, node: u32, rows: &[u32]) -> Result<Vec<u8>, NoMemory>
    ensures { IfOk result (λ line. line.items ≡ bound_text node rows.now) }
{
    let mut line = Vec::new(alloc);
    line.extend_from_slice(b"bound ")?;
    line.extend_from_slice(NumberText::of(node).as_bytes())?;
    push_numbers(&mut line, rows)?;
    line.push(b'\n')?;
    Ok(line)
}

/// The text of an answer line.
fn answer_line(alloc: Global, rows: &[u32]) -> Result<Vec<u8>, NoMemory>
    ensures { IfOk result (λ line. line.items ≡ answer_text rows.now) }
{
    let mut line = Vec::new(alloc);
    line.extend_from_slice(b"answer")?;
    push_numbers(&mut line, rows)?;
    line.push(b'\n')?;
    Ok(line)
}

/// Appends the first line. If memory is refused, `NoMemory`, and the text is as it was.
pub fn push_header(text: &mut Vec<u8>) -> Result<(), NoMemory>
    ensures appended { OnOk result (text.new.items ≡ text.old.items ++ header_text) }
    ensures kept { OnErr result (text.new.items ≡ text.old.items) }
{
    text.extend_from_slice(b"anyk-proof 1\n")?;
    Ok(())
}

/// Appends the line of a bound: its node, from 1, and its rows, from 1, in the order of the items.
/// If memory is refused, `NoMemory`, and the text is as it was.
pub fn push_bound(
    alloc: Global,
    text: &mut Vec<u8>,
    node: u32,
    rows: &[u32],
) -> Result<(), NoMemory>
    ensures appended { OnOk result (text.new.items ≡ text.old.items ++ bound_text node rows.now) }
    ensures kept { OnErr result (text.new.items ≡ text.old.items) }
{
    let line = bound_line(alloc, node, rows)?;
    text.extend_from_slice(&line)?;
    Ok(())
}

/// Appends the line of an answer: its rows, from 1, in the order of the items. If memory is
/// refused, `NoMemory`, and the text is as it was.
pub fn push_answer(alloc: Global, text: &mut Vec<u8>, rows: &[u32]) -> Result<(), NoMemory>
    ensures appended { OnOk result (text.new.items ≡ text.old.items ++ answer_text rows.now) }
    ensures kept { OnErr result (text.new.items ≡ text.old.items) }
{
    let line = answer_line(alloc, rows)?;
    text.extend_from_slice(&line)?;
    Ok(())
}

/// Appends the last line: `end` if there is no answer after those that are listed, and else `more`.
/// If memory is refused, `NoMemory`, and the text is as it was.
pub fn push_last(text: &mut Vec<u8>, ended: bool) -> Result<(), NoMemory>
    ensures appended { OnOk result (text.new.items ≡ text.old.items ++ last_text ended) }
    ensures kept { OnErr result (text.new.items ≡ text.old.items) }
{
    let line: &[u8] = if ended { b"end\n" } else { b"more\n" };
    text.extend_from_slice(line)?;
    Ok(())
}
