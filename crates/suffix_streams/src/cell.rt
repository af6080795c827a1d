//! The cells of a product of two rankings, and which cells follow a cell.

ghost use Rattle.std.specs.Prelude.{◌≡◌, ℕ, ◌+◌, ◌<◌, ◌≤◌, IsTrue, MatchOption};
ghost use Rattle.suffix_streams.specs.Cells.{cell_down};

use stream_store::EntryId;

/// A solution of a row with its earlier children, by its place from 0, and a subtree solution of
/// the group of the next child.
#[derive(Clone, Copy)]
pub(crate) struct Cell {
    /// The place of the left solution, from 0.
    pub(crate) left: u32,
    /// The entry of the right solution.
    pub(crate) right: EntryId,
}

/// The cell below: the same left part, with the entry after the right part. `None` if there is no
/// such entry.
pub(crate) fn down_cell(cell: &Cell, below: Option<EntryId>) -> Option<Cell>
    ensures { result ≡ cell_down cell.now below }
{
    let right = below?;
    Some(Cell {
        left: cell.left,
        right,
    })
}

/// The cell beside this one, if the step can go there and the next left part is one of the `known`
/// ones.
pub(crate) fn cell_beside(cell: &Cell, beside: bool, known: u32) -> Option<Cell>
    requires { cell.now.left < known }
    ensures { MatchOption result (IsTrue beside → known ≤ cell.now.left + 1)
        (λ c. (IsTrue beside) × (cell.now.left + 1 < known)
        × (c ≡ record { left = cell.now.left + 1; right = cell.now.right })) }
{
    if beside && cell.left + 1 < known {
        Some(Cell {
            left: cell.left + 1,
            right: cell.right,
        })
    } else {
        None
    }
}

/// A row with its first children, up to the one before number `child`, or the product of that part
/// and the solutions of child number `child`. All count from 0.
#[derive(Clone, Copy)]
pub(crate) struct RowPart {
    /// The row's node.
    pub(crate) node: u32,
    pub(crate) row: u32,
    pub(crate) child: usize,
}
