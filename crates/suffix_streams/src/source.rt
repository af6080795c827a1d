//! The source of a solution of a group.

use crate::cell::Cell;

/// The source of a subtree solution of a group: a member of the group with its row, a place in the
/// ranking of that member's solutions, and the parts of the solution there. Members, rows and
/// places count from 0, and the row's number from 1.
#[derive(Clone, Copy)]
pub(crate) struct Source {
    /// The member of the group, from 0.
    pub(crate) member: u32,
    /// The place in the ranking of the member's solutions, from 0.
    pub(crate) place: u32,
    /// The member's row, from 0.
    pub(crate) row: u32,
    /// The row's number in its table, from 1.
    pub(crate) number: u32,
    /// The parts of the solution: one of the row with its children but the last, and one of the
    /// last child's group. It says nothing of a row without children.
    pub(crate) cell: Cell,
}
