//! The steps of a script.

use crate::name::Name;

/// What one line of a script does.
#[derive(Drop)]
pub enum Step {
    /// Opens a cursor of this name at the start of the list.
    Open(Name),
    /// Prints up to this many members from the cursor's place on, and moves it past them.
    Next(Name, u64),
    /// Opens a cursor of the second name at the place of the first.
    Fork(Name, Name),
    /// Moves the cursor back to the start of the list.
    Rewind(Name),
    /// Closes the cursor.
    Close(Name),
}
