//! The branch that has the first answer of all that are left.
ghost use Rattle.std.specs.Prelude.{◌≡◌, ◌+◌, ◌<◌, Some, if◌then◌else◌, length};
ghost use Rattle.union_all.specs.Firsts.{IsFirstBranch};
ghost use Rattle.union_all.specs.Merge.{AreBranches, lists_of, queries_of};

use crate::branch::Branch;
use crate::sums::has_less_sums;
use table_store::Tables;
use tdp_core::Ranked;

/// Whether the first answer of branch b comes before those of the branches before it, of which
/// `first` has the first.
fn is_sooner<E: Ranked + Drop>(
    branches: &[Branch<'_, E>],
    tables: &Tables,
    b: usize,
    first: Option<usize>,
) -> bool
    requires branches { AreBranches tables.now branches.now }
    requires inside { b < length branches.now }
    requires first { IsFirstBranch (queries_of branches.now) tables.now (lists_of branches.now) b first }
    ensures { IsFirstBranch (queries_of branches.now) tables.now (lists_of branches.now) (b + 1)
        (if result then Some b else first) }
{
    let branch = &branches[b];
    let Some(rows) = branch.head() else {
        return false;
    };
    let Some(first) = first else {
        return true;
    };
    let other = &branches[first];
    let Some(other_rows) = other.head() else {
        return true;
    };
    has_less_sums(branch.query(), &rows, other.query(), &other_rows, tables)
}

/// The branch that has the first answer of all that are left: the one with the least sums, and of
/// equal sums the earliest one. `None` if no branch has an answer left.
pub(crate) fn first_branch<E: Ranked + Drop>(
    branches: &[Branch<'_, E>],
    tables: &Tables,
) -> Option<usize>
    requires { AreBranches tables.now branches.now }
    ensures { IsFirstBranch (queries_of branches.now) tables.now (lists_of branches.now)
        (length branches.now) result }
{
    let mut first = None;
    for b in 0..branches.len() {
        if is_sooner(branches, tables, b, first) {
            first = Some(b);
        }
    }
    first
}
