//! The options and positional arguments of each command, as `clap` takes them.

ghost use Rattle.std.specs.Prelude.{◌≡◌, false, map, IfOk};
ghost use Rattle.clap.specs.Simple.{app_of, new_app};
ghost use Rattle.clap.specs.Walk.{rule_of};
ghost use Rattle.cmd_words.specs.CommandNames.{app_named};
ghost use Rattle.cmd_words.specs.TakenRules.{app_taking, rule_taken, with_rules};

use crate::name::{CommandName, FilesName};
use clap::{Arg, ArgAction, Command as Parser};
use std::alloc::{AllocError, Global};

/// What a command takes.
#[derive(Clone, Copy, Drop)]
pub struct Taking<'a> {
    /// The command's name.
    pub name: &'a str,
    /// Its options and positional arguments in their order.
    pub takes: &'static [Taken],
}

/// An option or a positional argument of a command.
#[derive(Clone, Copy, Drop)]
pub struct Taken {
    /// Its name, which is also that of its values.
    pub name: &'static str,
    /// What `clap` does where it meets it: `SetTrue` for a flag, `Set` for one value, and `Append`
    /// for one value or more.
    pub action: ArgAction,
    /// Whether it is an option, and what holds if it is not given.
    pub form: ArgumentForm,
}

/// Whether it is an option, and what holds if it is not given.
#[derive(Clone, Copy, Drop)]
pub enum ArgumentForm {
    /// An option.
    Option,
    /// An option that has this value if it is not given.
    Defaulted(&'static str),
    /// An option that is required.
    Required,
    /// A positional argument, which is required.
    Place,
}

/// `--engine E`, which is `part` if it is not given.
const ENGINE: Taken = Taken {
    name: "engine",
    action: ArgAction::Set,
    form: ArgumentForm::Defaulted("part"),
};

/// `--ranks`.
const RANKS: Taken = Taken {
    name: "ranks",
    action: ArgAction::SetTrue,
    form: ArgumentForm::Option,
};

/// `--rows`.
const ROWS: Taken = Taken {
    name: "rows",
    action: ArgAction::SetTrue,
    form: ArgumentForm::Option,
};

/// `--best-of ALIAS`.
const BEST_OF: Taken = Taken {
    name: "best-of",
    action: ArgAction::Set,
    form: ArgumentForm::Option,
};

/// `--script FILE`.
const SCRIPT: Taken = Taken {
    name: "script",
    action: ArgAction::Set,
    form: ArgumentForm::Required,
};

/// `--proof FILE`.
const PROOF: Taken = Taken {
    name: "proof",
    action: ArgAction::Set,
    form: ArgumentForm::Required,
};

/// `--number N` of `load`.
const NUMBER: Taken = Taken {
    name: "number",
    action: ArgAction::Set,
    form: ArgumentForm::Required,
};

/// `--rows N` of `load`.
const ROWS_OF_TABLES: Taken = Taken {
    name: "rows",
    action: ArgAction::Set,
    form: ArgumentForm::Required,
};

/// QUERYFILE.
const QUERY: Taken = Taken {
    name: "query",
    action: ArgAction::Set,
    form: ArgumentForm::Place,
};

/// TABLE=FILE, once or more.
const TABLES: Taken = Taken {
    name: "tables",
    action: ArgAction::Append,
    form: ArgumentForm::Place,
};

/// What `run` takes.
const RUN: Taking<'static> = Taking {
    name: "run",
    takes: &[ENGINE, RANKS, ROWS, BEST_OF, QUERY, TABLES],
};

/// What `session` takes.
const SESSION: Taking<'static> = Taking {
    name: "session",
    takes: &[ENGINE, RANKS, ROWS, BEST_OF, SCRIPT, QUERY, TABLES],
};

/// What `plan` takes.
const PLAN: Taking<'static> = Taking {
    name: "plan",
    takes: &[QUERY, TABLES],
};

/// What `prove` takes.
const PROVE: Taking<'static> = Taking {
    name: "prove",
    takes: &[ENGINE, QUERY, TABLES],
};

/// What `verify` takes.
const VERIFY: Taking<'static> = Taking {
    name: "verify",
    takes: &[RANKS, ROWS, PROOF, QUERY, TABLES],
};

/// What `load` takes.
const LOAD: Taking<'static> = Taking {
    name: "load",
    takes: &[ENGINE, NUMBER, ROWS_OF_TABLES],
};

/// What the command of this name takes.
fn taken_by<'a>(name: CommandName) -> Taking<'a>
    ensures { app_taking result ≡ app_named name }
{
    match name {
        CommandName::OverFiles(FilesName::Run) => RUN,
        CommandName::OverFiles(FilesName::Session) => SESSION,
        CommandName::OverFiles(FilesName::Plan) => PLAN,
        CommandName::OverFiles(FilesName::Prove) => PROVE,
        CommandName::OverFiles(FilesName::Verify) => VERIFY,
        CommandName::Load => LOAD,
    }
}

/// The command of this name, as `clap` has it. `AllocError` if memory is refused.
pub fn parser_for<'a>(alloc: Global, name: CommandName) -> Result<Parser<'a>, AllocError>
    ensures { IfOk result (λ parser. app_of parser ≡ app_named name) }
{
    let taking = taken_by(name);
    with_args(alloc, taking.name, taking.takes)
}

/// The command that takes these options and arguments. `AllocError` if memory is refused.
fn with_args<'a>(alloc: Global, name: &'a str, takes: &[Taken]) -> Result<Parser<'a>, AllocError>
    ensures { IfOk result (λ parser. app_of parser
        ≡ with_rules (new_app name.entry.now) (map rule_taken takes.now)) }
{
    let mut parser = Parser::new(alloc, name);
    for taken in takes {
        parser = parser.arg(arg(alloc, *taken))?;
    }
    Ok(parser)
}

/// The option or argument, as `clap` has it.
fn arg<'a>(alloc: Global, taken: Taken) -> Arg<'a>
    ensures rule { rule_of result ≡ rule_taken taken }
    ensures local { result.global ≡ false }
{
    let arg = Arg::new(alloc, taken.name).action(taken.action);
    match taken.form {
        ArgumentForm::Option => arg.long(taken.name),
        ArgumentForm::Defaulted(value) => arg.long(taken.name).default_value(value),
        ArgumentForm::Required => arg.long(taken.name).required(true),
        ArgumentForm::Place => arg.required(true),
    }
}
