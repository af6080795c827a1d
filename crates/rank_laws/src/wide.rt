//! Ranks with all 16 slots: each key whose numbers fit is that of a rank.
ghost use Rattle.std.specs.Prelude.{◌≡◌, ℕ, ◌+◌, ◌<◌, ◌≤◌, length};
ghost use Rattle.tdp_model.specs.KeyTuple.{KeyOf, key_add};
ghost use Rattle.rank_key.specs.Keys.{IsInRange, row_key};

use rank_key::{FixedRank, Rank};
use std::sync::ledger::Ledger;
use step_counter::Steps;

/// The rank of one row, of any sums, any slot and any row number.
pub fn wide_row<const N: usize>(sums: &[i128], slot: u32, row: u32) -> FixedRank<N, 16>
    requires sums { length sums.now ≤ N }
    requires slot { slot < 16 }
    ensures { ⟦<FixedRank<N, 16> as Rank>⟧.key result ≡ row_key N sums.now slot row }
{
    Rank::of_row(sums, slot, row)
}

/// The sum of two ranks, if each of its numbers fits: sums 128 bits with a sign, slots 32 bits.
pub fn wide_join<const N: usize, L: Ledger>(
    a: FixedRank<N, 16>,
    b: FixedRank<N, 16>,
    steps: &mut Steps<L>,
) -> FixedRank<N, 16>
    requires { IsInRange N (key_add N 16 (⟦<FixedRank<N, 16> as Rank>⟧.key a)
        (⟦<FixedRank<N, 16> as Rank>⟧.key b)) }
    ensures sum { ⟦<FixedRank<N, 16> as Rank>⟧.key result
        ≡ key_add N 16 (⟦<FixedRank<N, 16> as Rank>⟧.key a.entry)
        (⟦<FixedRank<N, 16> as Rank>⟧.key b.entry) }
    ensures counted { steps.new ≡ steps.old + 1 }
{
    Rank::join(a, b, steps)
}

/// `total` with `new` in place of its part `old`, if each number of what is left without `old` and
/// of the result fits.
pub fn wide_swap<const N: usize, L: Ledger>(
    total: FixedRank<N, 16>,
    old: FixedRank<N, 16>,
    new: FixedRank<N, 16>,
    steps: &mut Steps<L>,
) -> FixedRank<N, 16>
    requires { (rest : KeyOf N 16)
        × (⟦<FixedRank<N, 16> as Rank>⟧.key total
        ≡ key_add N 16 rest (⟦<FixedRank<N, 16> as Rank>⟧.key old))
        × IsInRange N rest
        × IsInRange N (key_add N 16 rest (⟦<FixedRank<N, 16> as Rank>⟧.key new)) }
    ensures swapped { (rest : KeyOf N 16)
        → ⟦<FixedRank<N, 16> as Rank>⟧.key total.entry
        ≡ key_add N 16 rest (⟦<FixedRank<N, 16> as Rank>⟧.key old.entry)
        → ⟦<FixedRank<N, 16> as Rank>⟧.key result
        ≡ key_add N 16 rest (⟦<FixedRank<N, 16> as Rank>⟧.key new.entry) }
    ensures counted { steps.new ≡ steps.old + 1 }
{
    Rank::swap(total, old, new, steps)
}
