//! A certificate, as it is read.

/// A certificate of the first answers of a query. Neither its text nor its numbers need to be
/// right.
#[derive(Drop)]
pub struct Proof {
    /// The bounds, in the order of their lines.
    pub bounds: Vec<Bound>,
    /// The answers, in the order of their lines.
    pub answers: Vec<Listed>,
    /// Whether there is no answer after these.
    pub ended: bool,
}

/// A line `bound NODE ROW ..`.
#[derive(Drop)]
pub struct Bound {
    /// The number of the line, from 1.
    pub line: u32,
    /// The number of a node of the join tree, as the line writes it: nodes count from 1.
    pub node: u32,
    /// A row number for each item of the node's subtree, in the order of the items. Rows count from
    /// 1.
    pub rows: Vec<u32>,
}

/// A line `answer ROW ..`.
#[derive(Drop)]
pub struct Listed {
    /// The number of the line, from 1.
    pub line: u32,
    /// A row number for each item. Rows count from 1.
    pub rows: Vec<u32>,
}
