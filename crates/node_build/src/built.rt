//! The result of building.

use rank_key::Rank;
use step_counter::NoMemory;
use tdp_core::RawTree;

/// The raw tree of a query.
#[derive(Drop)]
pub struct Built<R: Rank> {
    /// The nodes of the join tree in its order, each with the rows of its item that pass.
    pub tree: RawTree<R>,
    /// The number of rows of each node.
    pub rows_of: Vec<u64>,
    /// The number of rows of all nodes.
    pub used: u64,
}

/// Why there is no raw tree.
#[derive(Clone, Copy, PartialEq, Eq)]
pub enum BuildFault {
    /// All nodes together have more rows than this budget.
    TooManyRows(u64),
    NoMemory,
}

impl From<NoMemory> for BuildFault {
    ghost use Rattle.std.specs.Prelude.{◌≡◌};
    ghost use Rattle.node_build.specs.declared.built.BuildFault.TheVariants.{NoMemory};

    ghost from_gives = { λ _ e. e ≡ NoMemory };

    fn from(_error: NoMemory) -> Self {
        BuildFault::NoMemory
    }
}
