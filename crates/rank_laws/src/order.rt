//! The laws of comparing.
ghost use Rattle.std.specs.Prelude.{◌≡◌, ℕ, ◌+◌, ◌≤◌, true, false};
ghost use Rattle.std.specs.declared.cmp.Ordering.TheVariants.{Less, Equal, Greater};
ghost use Rattle.tdp_model.specs.KeyTuple.{KeyOf, key_below};
ghost use Rattle.tdp_model.specs.KeyNumbers.{key_less};

use rank_key::Rank;
use std::cmp::Ordering;
use std::sync::ledger::Ledger;
use step_counter::Steps;

/// Whether a rank is before itself; it never is.
pub fn is_before_itself<R: Rank, L: Ledger>(rank: &R, steps: &mut Steps<L>) -> bool
    ensures irreflexive { result ≡ false }
    ensures counted { steps.new ≡ steps.old + 1 }
{
    R::less(rank, rank, steps)
}

/// Whether the second of two ranks is before the first, given that the first is before the second;
/// it never is.
pub fn is_before_previous<R: Rank, L: Ledger>(first: &R, second: &R, steps: &mut Steps<L>) -> bool
    requires { key_less R.KEYS 16 (R.key first.now) (R.key second.now) ≡ true }
    ensures asymmetric { result ≡ false }
    ensures counted { steps.new ≡ steps.old + 1 }
{
    R::less(second, first, steps)
}

/// Whether the first of three ranks is before the last, given that each is before the next; it
/// always is.
pub fn is_before_last<R: Rank, L: Ledger>(
    first: &R,
    second: &R,
    third: &R,
    steps: &mut Steps<L>,
) -> bool
    requires first { key_less R.KEYS 16 (R.key first.now) (R.key second.now) ≡ true }
    requires second { key_less R.KEYS 16 (R.key second.now) (R.key third.now) ≡ true }
    ensures transitive { result ≡ true }
    ensures counted { steps.new ≡ steps.old + 1 }
{
    R::less(first, third, steps)
}

/// How two ranks compare. One of the three results always holds, and `Equal` means that their keys
/// are equal.
pub fn compare<R: Rank, L: Ledger>(a: &R, b: &R, steps: &mut Steps<L>) -> Ordering
    ensures less { result ≡ Less → key_below R.KEYS 16 (R.key a.now) (R.key b.now) }
    ensures equal { result ≡ Equal → R.key a.now ≡ R.key b.now }
    ensures greater { result ≡ Greater → key_below R.KEYS 16 (R.key b.now) (R.key a.now) }
    ensures cost { steps.new ≤ steps.old + 2 }
{
    if R::less(a, b, steps) {
        return Ordering::Less;
    }
    if R::less(b, a, steps) {
        return Ordering::Greater;
    }
    Ordering::Equal
}

/// The number of sums of a rank: the constant that code reads is the number that clauses name.
pub fn sum_count<R: Rank>() -> usize
    ensures constant { result ≡ R.KEYS }
{
    R::KEYS
}
