//! The command that the arguments after the program's name give.
//!
//! The first argument names the command, and `clap` reads the others. The clauses say what they
//! mean in terms of `clap`'s own definitions of what it takes (`fault_of`) and of the values that
//! it gives (`matches_of`).
#![tactic(auto)]

mod arguments;
mod command;
mod fault;
mod name;
mod pairs;
mod parse;
mod reading;
mod texts;

pub use command::{Command, Engine, Words};
pub use fault::WordsFault;
pub use pairs::Named;
pub use reading::read_words;
