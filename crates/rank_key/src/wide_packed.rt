//! The wide packed rank: a packed rank and three slots more, in a second number.
ghost use Rattle.std.specs.Prelude.{◌≡◌, ◌^◌, ◌<◌};
ghost use Rattle.std.proofs.Common.{rules};
ghost use Rattle.rank_key.specs.Packed.{packed_key, number_of};
ghost use Rattle.rank_key.specs.WidePacked.{front_of, rest_of, rest_unit_of, with_rest};
ghost use Rattle.rank_key.specs.Digits.{number_fits};
ghost use Rattle.rank_key.specs.WideDigits.{front_within, key_of_numbers, rest_below, wide_slot};

use crate::packed::PackedRank;
use crate::rank::Rank;
use std::cmp::Ordering;
use std::sync::ledger::Ledger;
use step_counter::Steps;

/// A rank with one sum, of 44 bits with a sign, and with the first seven slots, of 21 bits each,
/// for a query of at most seven items. The sum and four slots are a packed rank, and the other
/// three are the digits of a second number.
#[derive(Clone, Copy)]
pub struct WidePackedRank {
    front: PackedRank,
    rest: u64,
    ghost rest_fits: { rest < 2 ^ 63 },
}

/// The unit of a slot in the second number. It is 0 for all but three: the first four slots are in
/// the packed rank, and those after the seventh are 0.
fn rest_unit(slot: u32) -> u64
    ensures { result ≡ rest_unit_of slot }
{
    match slot {
        4 => 1 << 42,
        5 => 1 << 21,
        6 => 1,
        _ => 0,
    }
}

impl Rank for WidePackedRank {
    ghost KEYS = { 1 };

    ghost ITEMS = { 7 };

    ghost LIMIT = { 2 ^ 43 };

    ghost ROWS = { 2 ^ 21 };

    ghost key = { λ r. with_rest (packed_key r.front.number) r.rest };

    const KEYS: usize = 1;

    fn zero() -> Self {
        WidePackedRank {
            front: PackedRank::zero(),
            rest: 0,
        }
    }

    fn of_row(sums: &[i128], slot: u32, row: u32) -> Self {
        let in_front = if slot < 4 { row } else { 0 };
        WidePackedRank {
            front: PackedRank::of_row(sums, slot, in_front),
            rest: u64::from(row) * rest_unit(slot),
        }
    }

    fn join<L: Ledger>(a: Self, b: Self, steps: &mut Steps<L>) -> Self {
        WidePackedRank {
            front: PackedRank::join(a.front, b.front, steps),
            rest: a.rest + b.rest,
        }
    }

    fn swap<L: Ledger>(total: Self, old: Self, new: Self, steps: &mut Steps<L>) -> Self {
        WidePackedRank {
            front: PackedRank::swap(total.front, old.front, new.front, steps),
            rest: total.rest - old.rest + new.rest,
        }
    }

    fn less<L: Ledger>(a: &Self, b: &Self, steps: &mut Steps<L>) -> bool {
        steps.tick();
        match a.front.compare(&b.front) {
            Ordering::Less => true,
            Ordering::Equal => a.rest < b.rest,
            Ordering::Greater => false,
        }
    }

    ghost holds = { λ k within. (
      record {
        front = record {
          number = number_of k;
          fits = number_fits (front_of k) (front_within k within);
        };
        rest = rest_of k;
        rest_fits = rest_below k within;
      },
      key_of_numbers k within,
    ) };

    ghost some_limit = { Prim.search rules };

    ghost below_rows = { λ r i l. wide_slot r.front.number r.rest r.rest_fits i l };

    ghost rows_fit = { Prim.search rules };

    ghost rows_held = { Prim.search rules };
}
