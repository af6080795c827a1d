//! From bytes to steps.

ghost use Rattle.std.specs.Prelude.{◌≡◌, ◌≤◌, [], length, IfErr, IfOk, MatchResult, Ok};
ghost use Rattle.std.specs.Str.Lines.{lines};
ghost use Rattle.session_script.specs.Forms.{SayEach, said_lines, NamesBadLine};
ghost use Rattle.session_script.specs.Script.{turn, steps_from, steps_of, names_after, IsScriptFault, KeepsRules};

use crate::lines::{count_lines, is_skipped};
use crate::name::Name;
use crate::open_names::{fault_of, follow};
use crate::script_fault::ScriptFault;
use crate::step::Step;
use crate::words::read_line;
use std::alloc::Global;
use text_lines::first_line;

/// The greatest number of lines.
pub const MAX_LINES: usize = 10000;

/// The step of one line, and the cursors that are open after it.
#[tactic(auto, unfolding(crate::specs::Script::turn))]
fn read_step(names: &mut Vec<Name>, line: &[u8], number: u32) -> Result<Step, ScriptFault>
    ensures value { MatchResult result (λ s. turn number names.old.items line.now ≡ Ok s)
        (λ e. IsScriptFault (turn number names.old.items line.now) e) }
    ensures after { IfOk result (λ s. names.new.items ≡ names_after s names.old.items) }
{
    let Some(step) = read_line(line) else {
        return Err(ScriptFault::BadLine(number));
    };
    if let Some(fault) = fault_of(names, &step, number) {
        return Err(fault);
    }
    follow(names, &step)?;
    Ok(step)
}

/// The steps of a script of at most `MAX_LINES` lines, or the fault of the first line that breaks a
/// rule.
fn read_steps(alloc: Global, bytes: &[u8]) -> Result<Vec<Step>, ScriptFault>
    requires { length (lines bytes.now) ≤ 10000 }
    ensures { MatchResult result (λ v. steps_from 1 [] (lines bytes.now) ≡ Ok v.items)
        (λ e. IsScriptFault (steps_from 1 [] (lines bytes.now)) e) }
{
    let mut steps = Vec::new(alloc);
    let mut names = Vec::new(alloc);
    let mut rest = bytes;
    let mut number = 0;
    'lines: while let Some((line, after)) = first_line(rest) {
        number += 1;
        rest = after;
        if is_skipped(line) {
            continue;
        }
        let step = read_step(&mut names, line, number)?;
        steps.push(step)?;
    }
    Ok(steps)
}

/// The steps of a script, in the order of its lines. A line feed ends a line, a carriage return
/// before it is dropped, and the last line may lack its end. Empty lines and lines that begin with
/// `#` are skipped. The fault is that of the first line that breaks a rule, or `TooManyLines`;
/// `NoMemory` if memory is refused.
pub fn read_script(alloc: Global, bytes: &[u8]) -> Result<Vec<Step>, ScriptFault>
    // The steps that the text says, or the reason why it says none.
    ensures value { MatchResult result (λ v. steps_of bytes.now ≡ Ok v.items)
        (λ e. IsScriptFault (steps_of bytes.now) e) }
    // Each line that is neither empty nor a comment says its step.
    ensures says { IfOk result (λ v. SayEach (said_lines (lines bytes.now)) v.items) }
    // A bad line is one that has no form of a step, and all lines before it say steps.
    ensures bad_line { IfErr result (λ e. NamesBadLine (lines bytes.now) e) }
    // Each name is open when it is used, and never more than 64 are.
    ensures keeps_rules { IfOk result (λ v. KeepsRules [] v.items) }
{
    if count_lines(bytes) > MAX_LINES {
        return Err(ScriptFault::TooManyLines);
    }
    read_steps(alloc, bytes)
}
