//! The command that the arguments ask for.
ghost use Rattle.std.specs.Prelude.{◌≡◌, Some, IfErr, IfOk, map};
ghost use Rattle.std.specs.String.{string_bytes};
ghost use Rattle.cmd_words.specs.Commands.{KeepsRange, command_view};
ghost use Rattle.verdict.specs.Words.{a_command};
ghost use Rattle.anyk_top.specs.CommandLine.{IsEarly, asked_in, command_asked};
ghost use Rattle.command_input.specs.Tasks.{command_of};

use cmd_words::{Command, Words, WordsFault, read_words};
use command_input::{MadeTables, Task};
use std::alloc::Global;
use step_counter::NoMemory;

/// The command that the arguments ask for. `Usage` if they are not a command, and `NoMemory` if
/// memory is refused.
pub(crate) fn read_task(alloc: Global, words: &[String]) -> Result<Task, WordsFault>
    ensures asked { IfOk result
        (λ task. asked_in (map string_bytes words.now) ≡ a_command (command_of task)) }
    ensures early { IfErr result
        (λ fault. IsEarly (asked_in (map string_bytes words.now)) fault) }
{
    match read_words(alloc, words) {
        Ok(command) => task_of(alloc, command),
        Err(fault) => Err(fault),
    }
}

/// The same for a command that was read. `NoMemory` if memory is refused.
fn task_of(alloc: Global, command: Command) -> Result<Task, WordsFault>
    requires { KeepsRange command }
    ensures asked { IfOk result
        (λ task. command_asked (Some (command_view command)) ≡ a_command (command_of task)) }
    ensures early { IfErr result
        (λ fault. IsEarly (command_asked (Some (command_view command))) fault) }
{
    match command {
        Command::Run(words) => Ok(Task::Run(words)),
        Command::Plan(words) => Ok(Task::Plan(words)),
        Command::Session(words) => session_of(words),
        Command::Load(engine, number, rows) => match MadeTables::new(alloc, number, rows) {
            Ok(made) => Ok(Task::Load(engine, made)),
            Err(NoMemory) => Err(WordsFault::NoMemory),
        },
        Command::Prove(words) => Ok(Task::Prove(words)),
        Command::Verify(words) => verify_of(words),
    }
}

/// The session that these words ask for. `Usage` if they name no script.
fn session_of(words: Words) -> Result<Task, WordsFault>
    ensures asked { IfOk result
        (λ task. command_asked (Some (command_view (Command.Session words)))
        ≡ a_command (command_of task)) }
    ensures early { IfErr result
        (λ fault. IsEarly (command_asked (Some (command_view (Command.Session words)))) fault) }
{
    let mut words = words;
    match words.script.take() {
        Some(script) => Ok(Task::Session { script, words }),
        None => Err(WordsFault::Usage),
    }
}

/// The check that these words ask for. `Usage` if they name no certificate.
fn verify_of(words: Words) -> Result<Task, WordsFault>
    ensures asked { IfOk result
        (λ task. command_asked (Some (command_view (Command.Verify words)))
        ≡ a_command (command_of task)) }
    ensures early { IfErr result
        (λ fault. IsEarly (command_asked (Some (command_view (Command.Verify words)))) fault) }
{
    let mut words = words;
    match words.proof.take() {
        Some(proof) => Ok(Task::Verify { proof, words }),
        None => Err(WordsFault::Usage),
    }
}
