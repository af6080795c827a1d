//! The names of the commands.

ghost use Rattle.std.specs.Prelude.{◌≡◌};
ghost use Rattle.cmd_words.specs.CommandNames.{name_of};

/// A command over the tables of files.
#[derive(Clone, Copy, Drop)]
pub enum FilesName {
    /// `run`.
    Run,
    /// `session`.
    Session,
    /// `plan`.
    Plan,
    /// `prove`.
    Prove,
    /// `verify`.
    Verify,
}

/// Which command it is.
#[derive(Clone, Copy, Drop)]
pub enum CommandName {
    /// A command over the tables of files.
    OverFiles(FilesName),
    /// `load`, which generates its tables.
    Load,
}

/// The command of this name.
pub fn command_named(name: &str) -> Option<CommandName>
    ensures { result ≡ name_of name.now }
{
    match name {
        "run" => Some(CommandName::OverFiles(FilesName::Run)),
        "session" => Some(CommandName::OverFiles(FilesName::Session)),
        "plan" => Some(CommandName::OverFiles(FilesName::Plan)),
        "prove" => Some(CommandName::OverFiles(FilesName::Prove)),
        "verify" => Some(CommandName::OverFiles(FilesName::Verify)),
        "load" => Some(CommandName::Load),
        _ => None,
    }
}
