//! The packed rank: a number whose digits are a sum and four row numbers.
ghost use Rattle.std.specs.Prelude.{◌≡◌, ◌^◌, pos, slice_index_or, FitsSigned};
ghost use Rattle.std.specs.Int.{w128};
ghost use Rattle.std.specs.Ordering.{int_cmp};
ghost use Rattle.std.proofs.Common.{rules};
ghost use Rattle.rank_key.specs.Packed.{packed_key, number_of, unit_of};
ghost use Rattle.rank_key.specs.Digits.{number_fits, key_of_number, packed_slot};

use crate::rank::Rank;
use crate::sum::Sum;
use std::cmp::Ordering;
use std::sync::ledger::Ledger;
use step_counter::Steps;

/// The unit of the sum.
const SUM_UNIT: i128 = 1 << 84;

/// A rank with one sum, of 44 bits with a sign, and with the first four slots, of 21 bits each, for
/// a query of at most four items. All of them are in one number, and the sum has the greatest unit.
#[derive(Clone, Copy)]
pub struct PackedRank {
    number: Sum,
    ghost fits: { FitsSigned w128 number },
}

impl PackedRank {
    /// The order of two ranks: that of their numbers.
    pub(crate) fn compare(&self, other: &PackedRank) -> Ordering
        ensures { result ≡ int_cmp self.now.number other.now.number }
    {
        self.number.get().cmp(&other.number.get())
    }
}

/// The first sum, or 0 if there is none.
fn first_sum(sums: &[i128]) -> i128
    ensures { result ≡ slice_index_or sums.now 0 (pos 0) }
{
    match sums.first() {
        Some(sum) => *sum,
        None => 0,
    }
}

/// The unit of a slot. There are four, and 1 stands for the unit of all others, which are 0.
fn slot_unit(slot: u32) -> i128
    ensures { result ≡ unit_of slot }
{
    match slot {
        0 => 1 << 63,
        1 => 1 << 42,
        2 => 1 << 21,
        _ => 1,
    }
}

impl Rank for PackedRank {
    ghost KEYS = { 1 };

    ghost ITEMS = { 4 };

    ghost LIMIT = { 2 ^ 43 };

    ghost ROWS = { 2 ^ 21 };

    ghost key = { λ r. packed_key r.number };

    const KEYS: usize = 1;

    fn zero() -> Self {
        PackedRank {
            number: Sum::new(0),
        }
    }

    fn of_row(sums: &[i128], slot: u32, row: u32) -> Self {
        let number = first_sum(sums) * SUM_UNIT + i128::from(row) * slot_unit(slot);
        PackedRank {
            number: Sum::new(number),
        }
    }

    fn join<L: Ledger>(a: Self, b: Self, steps: &mut Steps<L>) -> Self {
        steps.tick();
        PackedRank {
            number: Sum::new(a.number.get() + b.number.get()),
        }
    }

    fn swap<L: Ledger>(total: Self, old: Self, new: Self, steps: &mut Steps<L>) -> Self {
        steps.tick();
        PackedRank {
            number: Sum::new(total.number.get() - old.number.get() + new.number.get()),
        }
    }

    fn less<L: Ledger>(a: &Self, b: &Self, steps: &mut Steps<L>) -> bool {
        steps.tick();
        a.number.get() < b.number.get()
    }

    ghost holds = { λ k within. (
      record {
        number = number_of k;
        fits = number_fits k within;
      },
      key_of_number k within,
    ) };

    ghost some_limit = { Prim.search rules };

    ghost below_rows = { λ r i l. packed_slot r.number i l };

    ghost rows_fit = { Prim.search rules };

    ghost rows_held = { Prim.search rules };
}
