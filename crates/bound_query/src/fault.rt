//! Why a query has no join tree.

use step_counter::NoMemory;

/// The error of finding a query's join tree.
#[derive(Clone, Copy, PartialEq, Eq)]
pub enum ShapeFault {
    /// No join tree exists. The items that are left when there is no ear any more, as bits: item 1
    /// is the lowest.
    Cyclic(u16),
    /// Memory was refused.
    NoMemory,
}

impl From<NoMemory> for ShapeFault {
    ghost use Rattle.std.specs.Prelude.{◌≡◌};
    ghost use Rattle.bound_query.specs.declared.fault.ShapeFault.TheVariants.{NoMemory};

    ghost from_gives = { λ _ e. e ≡ NoMemory };

    fn from(_error: NoMemory) -> Self {
        ShapeFault::NoMemory
    }
}
