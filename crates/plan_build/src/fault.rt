//! Why a query has no plan.

use step_counter::NoMemory;

/// Why a query has no plan.
#[derive(Clone, Copy, PartialEq, Eq)]
pub enum PlanFault {
    /// No join tree exists. The items that are left when there is no ear any more, as bits: item 1
    /// is the lowest.
    Cyclic(u16),
    /// The nodes together have more rows than this number.
    TooManyRows(u64),
    /// Memory was refused.
    NoMemory,
}

impl From<NoMemory> for PlanFault {
    ghost use Rattle.std.specs.Prelude.{◌≡◌};
    ghost use Rattle.plan_build.specs.declared.fault.PlanFault.TheVariants.{NoMemory};

    ghost from_gives = { λ _ e. e ≡ NoMemory };

    fn from(_error: NoMemory) -> Self {
        PlanFault::NoMemory
    }
}
