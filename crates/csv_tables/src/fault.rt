//! Why the bytes of a file are not a table.
use std::alloc::{AllocError, AllocFailed};
use step_counter::NoMemory;

/// Why the bytes of a file are not a table, in the order in which a file is tested. Columns and
/// rows count from 1.
#[derive(Clone, Copy, PartialEq, Eq)]
pub enum TableFault {
    /// The file has no record.
    NoHeader,
    /// The header has more than 64 fields.
    TooManyColumns,
    /// The column with this number has the same name as an earlier one.
    DuplicateName(u32),
    /// There are more than 1,048,576 rows.
    TooManyRows,
    /// The row with this number has more or fewer fields than the header.
    Ragged(u32),
    /// Memory was refused.
    NoMemory,
}

impl From<NoMemory> for TableFault {
    ghost use Rattle.std.specs.Prelude.{◌≡◌};
    ghost use Rattle.csv_tables.specs.declared.fault.TableFault.TheVariants.{NoMemory as OutOfMemory};

    ghost from_gives = { λ _ e. e ≡ OutOfMemory };

    fn from(_error: NoMemory) -> Self {
        TableFault::NoMemory
    }
}

impl From<AllocError> for TableFault {
    ghost use Rattle.std.specs.Prelude.{◌≡◌};
    ghost use Rattle.csv_tables.specs.declared.fault.TableFault.TheVariants.{NoMemory as OutOfMemory};

    ghost from_gives = { λ _ e. e ≡ OutOfMemory };

    fn from(_error: AllocError) -> Self {
        TableFault::NoMemory
    }
}

impl<T: Drop> From<AllocFailed<T>> for TableFault {
    ghost use Rattle.std.specs.Prelude.{◌≡◌};
    ghost use Rattle.csv_tables.specs.declared.fault.TableFault.TheVariants.{NoMemory as OutOfMemory};

    ghost from_gives = { λ _ e. e ≡ OutOfMemory };

    fn from(_error: AllocFailed<T>) -> Self {
        TableFault::NoMemory
    }
}
