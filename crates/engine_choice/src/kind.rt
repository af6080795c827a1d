//! The names of the engines.

/// Which engine enumerates the answers.
#[derive(Clone, Copy, PartialEq, Eq, Drop)]
pub enum EngineKind {
    /// The engine by regions, which divides the answers that are left.
    Part,
    /// The engine by recursion, which ranks the answers below each row.
    Rec,
}
