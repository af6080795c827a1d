//! What a rank can do: joining, exchanging a part and comparing, one counted step each.
ghost use Rattle.std.specs.Prelude.{◌≡◌, ℕ, ◌+◌, ◌^◌, ◌<◌, ◌≤◌, List, length};
ghost use Rattle.tdp_model.specs.KeyTuple.{KeyOf, key_add, key_none, slot_of};
ghost use Rattle.tdp_model.specs.KeyNumbers.{key_less};
ghost use Rattle.rank_key.specs.Keys.{KeyFits, CanSwap, IsHeld, IsInLimits, row_key};

use std::sync::ledger::Ledger;
use step_counter::Steps;

/// The number of row slots of a key.
pub const SLOTS: usize = 16;

/// A rank. Contracts see its key: `KEYS` sums and then 16 row slots, of which the rank holds the
/// first `ITEMS`: the others are 0. All slots are below `ROWS`. Each key whose sums are below
/// `LIMIT` in absolute value and whose slots are below `ROWS` is that of a rank. Ranks are used
/// through the calls of this trait alone, and none of them takes memory.
pub trait Rank: Copy {
    ghost KEYS: { ℕ };

    ghost ITEMS: { ℕ };

    ghost LIMIT: { ℕ };

    ghost ROWS: { ℕ };

    ghost key: { Self → KeyOf KEYS 16 };

    /// The number of sums of a rank.
    const KEYS: usize;

    /// The neutral element of `join`.
    fn zero() -> Self
        ensures { key result ≡ key_none KEYS 16 };

    /// The rank of one row: its sums, of which missing ones are 0, and its number in its slot.
    /// Slots count from 0, and the other slots are 0. Some rank must have this key.
    fn of_row(sums: &[i128], slot: u32, row: u32) -> Self
        requires sums { length sums.now ≤ KEYS }
        requires slot { slot < 16 }
        requires held { IsHeld KEYS key (row_key KEYS sums.now slot row) }
        ensures { key result ≡ row_key KEYS sums.now slot row };

    /// The sum of two ranks, number by number. It takes one step. The result must fit.
    fn join<L: Ledger>(a: Self, b: Self, steps: &mut Steps<L>) -> Self
        requires { KeyFits KEYS key (key_add KEYS 16 (key a) (key b)) }
        ensures sum { key result ≡ key_add KEYS 16 (key a) (key b) }
        ensures counted { steps.new ≡ steps.old + 1 };

    /// `total` with `new` in place of its part `old`, that is total - old + new. It takes one step.
    /// Both what is left without `old` and the result must fit.
    fn swap<L: Ledger>(total: Self, old: Self, new: Self, steps: &mut Steps<L>) -> Self
        requires { CanSwap KEYS key (key total) (key old) (key new) }
        ensures swapped { (rest : KeyOf KEYS 16) → key total ≡ key_add KEYS 16 rest (key old)
            → key result ≡ key_add KEYS 16 rest (key new) }
        ensures counted { steps.new ≡ steps.old + 1 };

    /// Whether `a` is before `b` in lexicographic order, the sums first. It takes one step.
    fn less<L: Ledger>(a: &Self, b: &Self, steps: &mut Steps<L>) -> bool
        ensures order { result ≡ key_less KEYS 16 (key a.now) (key b.now) }
        ensures counted { steps.new ≡ steps.old + 1 };

    ghost holds: { (k : KeyOf KEYS 16) → IsInLimits KEYS ITEMS LIMIT ROWS k → IsHeld KEYS key k };

    ghost some_limit: { 0 < LIMIT };

    ghost below_rows: { (r : Self) (i : ℕ) → i < 16 → slot_of KEYS 16 i (key r) < ROWS };

    // a row number is a `u32`
    ghost rows_fit: { ROWS ≤ 2 ^ 32 };

    // the row numbers of tables are below 2 ^ 21
    ghost rows_held: { 2 ^ 21 ≤ ROWS };
}
