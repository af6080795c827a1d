//! What the program does with each input, and what its output is: definitions, and laws about them.
#![tactic(auto)]

ghost use Rattle.verdict.specs.Laws.{OneLoading, OneOutput, OneVerdict};

/// An input is loaded in at most one way. The result is what is known of it once its query is bound
/// to its tables, or its first refusal before that.
pub fn one_loading()
    ensures { OneLoading }
{}

/// An input has at most one verdict: what is found of an accepted input, or its first refusal.
pub fn one_verdict()
    ensures { OneVerdict }
{}

/// An accepted input has at most one output.
pub fn one_output()
    ensures { OneOutput }
{}
