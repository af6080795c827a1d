//! A sum of 128 bits in two halves.
ghost use Rattle.std.specs.Prelude.{◌≡◌};
ghost use Rattle.std.specs.Ordering.{int_cmp};

use std::cmp::Ordering;
use std::marker::Model;

/// A whole number of 128 bits with a sign. It is kept in two halves, so that a rank needs no more
/// room than its numbers take, at any place that is a multiple of 8.
#[derive(Clone, Copy)]
pub struct Sum {
    high: u64,
    low: u64,
}

impl Model for Sum {
    ghost use Rattle.std.specs.Prelude.{ℤ, ◌<◌, ◌^◌};
    ghost use Rattle.rank_key.specs.Sums.{sum_view, halves_of, halves_of_number};

    ghost Value = { ℤ };

    ghost view = { sum_view };

    ghost invariant = { λ s. (s.high < 2 ^ 64) × (s.low < 2 ^ 64) };

    ghost inverse = { halves_of };

    ghost inverse_ok = { halves_of_number };
}

impl Sum {
    /// The halves of a number.
    pub fn new(number: i128) -> Sum
        ensures { result ≡ number }
    {
        let bits = number.cast_unsigned();
        Sum {
            high: (bits >> 64) as u64,
            low: (bits % (1 << 64)) as u64,
        }
    }

    /// The number.
    pub fn get(self) -> i128
        ensures { result ≡ self }
    {
        (((self.high as u128) << 64) + self.low as u128).cast_signed()
    }

    /// The order of two numbers: that of the high halves with their sign, and then that of the low
    /// ones.
    pub fn compare(&self, other: &Sum) -> Ordering
        ensures { result ≡ int_cmp self.now other.now }
    {
        if self.high == other.high {
            self.low.cmp(&other.low)
        } else {
            self.high.cast_signed().cmp(&other.high.cast_signed())
        }
    }
}
