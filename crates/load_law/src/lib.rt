//! That the command `load` is always accepted: its query is parsed, its tables have no flaw, and
//! its join is acyclic.
#![tactic(auto)]

ghost use Rattle.load_law.specs.Laws.{LoadAccepted, LoadEnds};

/// The input that `load` makes is accepted, for each number and each number of rows that the
/// command line takes.
pub fn load_accepted()
    ensures { LoadAccepted }
{}

/// A call of `load` ends with the status 0, or with 11 if its output failed, or with 12 if memory
/// ran out.
pub fn load_ends()
    ensures { LoadEnds }
{}
