//! The laws of joining and exchanging.
ghost use Rattle.std.specs.Prelude.{◌≡◌, ℕ, ◌+◌, ◌≤◌};
ghost use Rattle.std.specs.declared.cmp.Ordering.TheVariants.{Less, Equal, Greater};
ghost use Rattle.tdp_model.specs.KeyTuple.{KeyOf, key_add, key_below};
ghost use Rattle.tdp_model.specs.KeyNumbers.{key_less};
ghost use Rattle.rank_key.specs.Keys.{KeyFits, CanSwap};

use crate::order::compare;
use rank_key::Rank;
use std::cmp::Ordering;
use std::sync::ledger::Ledger;
use step_counter::Steps;

/// A rank joined with `zero`, on either side: the rank again.
pub fn joined_with_zero<R: Rank, L: Ledger>(rank: R, steps: &mut Steps<L>) -> (R, R)
    requires { KeyFits R.KEYS R.key (R.key rank) }
    ensures neutral_right { R.key result.0 ≡ R.key rank }
    ensures neutral_left { R.key result.1 ≡ R.key rank }
    ensures counted { steps.new ≡ steps.old + 2 }
{
    let right = R::join(rank, R::zero(), steps);
    let left = R::join(R::zero(), rank, steps);
    (right, left)
}

/// Two ranks joined in both orders: one key.
pub fn joined_both_ways<R: Rank, L: Ledger>(a: R, b: R, steps: &mut Steps<L>) -> (R, R)
    requires { KeyFits R.KEYS R.key (key_add R.KEYS 16 (R.key a) (R.key b)) }
    ensures commutative { R.key result.0 ≡ R.key result.1 }
    ensures counted { steps.new ≡ steps.old + 2 }
{
    let there = R::join(a, b, steps);
    let back = R::join(b, a, steps);
    (there, back)
}

/// Three ranks joined from the left and from the right: one key.
pub fn grouped_both_ways<R: Rank, L: Ledger>(a: R, b: R, c: R, steps: &mut Steps<L>) -> (R, R)
    requires left { KeyFits R.KEYS R.key (key_add R.KEYS 16 (R.key a) (R.key b)) }
    requires right { KeyFits R.KEYS R.key (key_add R.KEYS 16 (R.key b) (R.key c)) }
    requires whole { KeyFits R.KEYS R.key
        (key_add R.KEYS 16 (R.key a) (key_add R.KEYS 16 (R.key b) (R.key c))) }
    ensures associative { R.key result.0 ≡ R.key result.1 }
    ensures counted { steps.new ≡ steps.old + 4 }
{
    let left = R::join(a, b, steps);
    let from_left = R::join(left, c, steps);
    let right = R::join(b, c, steps);
    let from_right = R::join(a, right, steps);
    (from_left, from_right)
}

/// Whether one rank is before another after the same rank is joined to both: exactly if it was
/// before.
pub fn less_joined<R: Rank, L: Ledger>(a: R, b: R, part: R, steps: &mut Steps<L>) -> bool
    requires first { KeyFits R.KEYS R.key (key_add R.KEYS 16 (R.key a) (R.key part)) }
    requires second { KeyFits R.KEYS R.key (key_add R.KEYS 16 (R.key b) (R.key part)) }
    ensures monotone { result ≡ key_less R.KEYS 16 (R.key a) (R.key b) }
    ensures counted { steps.new ≡ steps.old + 3 }
{
    let first = R::join(a, part, steps);
    let second = R::join(b, part, steps);
    R::less(&first, &second, steps)
}

/// How two ranks compare after the same rank is joined to both. The result holds without that rank
/// too.
pub fn compare_joined<R: Rank, L: Ledger>(a: R, b: R, part: R, steps: &mut Steps<L>) -> Ordering
    requires first { KeyFits R.KEYS R.key (key_add R.KEYS 16 (R.key a) (R.key part)) }
    requires second { KeyFits R.KEYS R.key (key_add R.KEYS 16 (R.key b) (R.key part)) }
    ensures cancels_less { result ≡ Less → key_below R.KEYS 16 (R.key a) (R.key b) }
    ensures cancels_equal { result ≡ Equal → R.key a ≡ R.key b }
    ensures cancels_greater { result ≡ Greater → key_below R.KEYS 16 (R.key b) (R.key a) }
    ensures cost { steps.new ≤ steps.old + 4 }
{
    let first = R::join(a, part, steps);
    let second = R::join(b, part, steps);
    compare(&first, &second, steps)
}

/// A rest joined with an old part, and then the new part in place of the old one: the rest joined
/// with the new part.
pub fn swapped<R: Rank, L: Ledger>(rest: R, old: R, new: R, steps: &mut Steps<L>) -> R
    requires rest { KeyFits R.KEYS R.key (R.key rest) }
    requires before { KeyFits R.KEYS R.key (key_add R.KEYS 16 (R.key rest) (R.key old)) }
    requires after { KeyFits R.KEYS R.key (key_add R.KEYS 16 (R.key rest) (R.key new)) }
    ensures exchanged { R.key result ≡ key_add R.KEYS 16 (R.key rest) (R.key new) }
    ensures counted { steps.new ≡ steps.old + 2 }
{
    let total = R::join(rest, old, steps);
    R::swap(total, old, new, steps)
}

/// A total with one part replaced by another, and that undone: the total again.
pub fn swapped_back<R: Rank, L: Ledger>(total: R, old: R, new: R, steps: &mut Steps<L>) -> R
    requires swaps { CanSwap R.KEYS R.key (R.key total) (R.key old) (R.key new) }
    requires total { KeyFits R.KEYS R.key (R.key total) }
    ensures undone { R.key result ≡ R.key total }
    ensures counted { steps.new ≡ steps.old + 2 }
{
    let changed = R::swap(total, old, new, steps);
    R::swap(changed, new, old, steps)
}
