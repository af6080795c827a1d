//! Two worked rows, as laws: two tables of three rows each, joined in one column, of which the
//! three best answers are asked for, and the same tables in two queries, of which the four best
//! answers in one ranking are asked for.
#![tactic(auto)]

ghost use Rattle.std.specs.Prelude.{◌≤◌, ◌+◌, ℕ, Some, Ok};
ghost use Rattle.row_law.specs.Row.{row_asked, row_files};
ghost use Rattle.row_law.specs.UnionRow.{union_files};
ghost use Rattle.verdict.specs.Bound.{IsBounded};
ghost use Rattle.verdict.specs.AcceptedInput.{AcceptedInput};
ghost use Rattle.verdict.specs.Verdict.{IsVerdict};

/// The row is accepted.
pub fn row_accepted()
    ensures { (found : AcceptedInput) × IsVerdict row_asked row_files (Ok found) }
{}

/// A call over the files of the row that keeps the bound on counted steps takes at most 7,936 of
/// them: there are two items, 12 rows of tables and nodes, and three calls for answers.
pub fn row_steps()
    ensures { (before now : ℕ) → IsBounded row_asked (Some row_files) before now
        → now ≤ before + 7936 }
{}

/// The second row is accepted.
pub fn union_accepted()
    ensures { (found : AcceptedInput) × IsVerdict row_asked union_files (Ok found) }
{}

/// A call over the files of the second row that keeps the bound on counted steps takes at most
/// 2,816 of them: each query has one item and 6 rows of its table and its node. The first one has
/// three of the members and the second one has one, and each is called once more.
pub fn union_steps()
    ensures { (before now : ℕ) → IsBounded row_asked (Some union_files) before now
        → now ≤ before + 2816 }
{}
