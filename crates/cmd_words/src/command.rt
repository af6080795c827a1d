//! The commands, and what their arguments say.

use crate::pairs::Named;

/// Which engine enumerates the answers.
#[derive(Clone, Copy, PartialEq, Eq, Drop)]
pub enum Engine {
    /// The engine by regions, which divides the answers that are left.
    Part,
    /// The engine by recursion, which ranks the answers below each row.
    Rec,
}

/// What the arguments of a command over files say. An option that a command does not have keeps its
/// default.
#[derive(Drop)]
pub struct Words {
    /// `--engine`, or `part` if it is not given.
    pub engine: Engine,
    /// Whether `--ranks` is given.
    pub ranks: bool,
    /// Whether `--rows` is given.
    pub rows: bool,
    /// `--script`, which only `session` has.
    pub script: Option<String>,
    /// `--proof`, which only `verify` has.
    pub proof: Option<String>,
    /// The alias of `--best-of`, which only `run` and `session` have.
    pub best_of: Option<String>,
    /// The file of the query.
    pub query: String,
    /// The tables in the order of the arguments; no two have the same name.
    pub tables: Vec<Named>,
}

/// A command.
#[derive(Drop)]
pub enum Command {
    /// Writes the answers of a query.
    Run(Words),
    /// Prints answers of a query as a script says.
    Session(Words),
    /// Shows the join tree of a query.
    Plan(Words),
    /// Runs a query over generated tables: the engine, the generator's number from 0 to
    /// 2,147,483,647, and the rows of each table, from 1 to 100,000.
    Load(Engine, u32, u32),
    /// Writes a certificate of the answers of a query.
    Prove(Words),
    /// Writes the answers of a query if a certificate shows that they are.
    Verify(Words),
}
