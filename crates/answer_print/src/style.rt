//! What a record shows beside the selected columns.

/// The fields of a record beside the selected columns.
#[derive(Clone, Copy, Drop)]
pub struct Style<'a> {
    /// Whether it has the sums of the order keys.
    pub ranks: bool,
    /// Whether it has the row numbers of the items.
    pub rows: bool,
    /// The name of the cursor that gave the answer, as the first field.
    pub cursor: Option<&'a [u8]>,
}
