//! The commands, with what they ask for.
use crate::generated::MadeTables;
use cmd_words::{Engine, Words};

/// A command. All but `Verify` plan their queries.
#[derive(Drop)]
pub enum Task {
    /// Prints the answers of a query.
    Run(Words),
    /// Prints the join tree of a query.
    Plan(Words),
    /// Prints answers of a query as the script in this file asks for them.
    Session { script: String, words: Words },
    /// Prints a summary of the answers of a query over tables that are made from a number.
    Load(Engine, MadeTables),
    /// Prints a certificate of the answers of a query.
    Prove(Words),
    /// Prints the answers that the certificate in this file lists, if it is valid.
    Verify { proof: String, words: Words },
}
