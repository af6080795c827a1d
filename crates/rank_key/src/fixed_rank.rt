//! Ranks as arrays of a fixed number of sums and of slots.
ghost use Rattle.std.specs.Prelude.{◌≡◌, ℕ, ◌+◌, ◌-◌, ◌^◌, ◌<◌, ◌≤◌, ℤ, pos, length, drop, ◌++◌, map, slice_set, All, FitsSigned};
ghost use Rattle.std.specs.Int.{FitsUnsigned, w32, w128};
ghost use Rattle.std.specs.Ordering.{int_cmp};
ghost use Rattle.std.specs.Cmp.Lexicographic.{slice_cmp};
ghost use Rattle.tdp_model.specs.KeyNumbers.{plus, key_of_lists};
ghost use Rattle.std.proofs.Common.{rules};
ghost use Rattle.rank_key.specs.KeyLists.{sums_of, slots_of, length_sums, length_slots, slots_end, slots_below, slot_below, key_of_lists_lem};
ghost use Rattle.rank_key.specs.Keys.{NoneAfter, minus};

use crate::rank::Rank;
use crate::sum::Sum;
use std::cmp::Ordering;
use std::sync::ledger::Ledger;
use step_counter::Steps;

/// A rank with `N` sums, which are before the slots and are compared first, and with the first `M`
/// slots. The fewer of both, the less memory it takes.
#[derive(Clone, Copy)]
pub struct FixedRank<const N: usize, const M: usize> {
    sums: [Sum; N],
    slots: [u32; M],
    ghost sums_len: { length sums ≡ N },
    ghost slots_len: { length slots ≡ M },
    ghost none_after: { NoneAfter 16 slots },
    ghost slots_fit: { All (λ s. s < 2 ^ 32) slots },
}

/// A rank with one sum, for an order by one key or by none.
pub type SumRank = FixedRank<1, 16>;

/// A rank with one sum and eight slots, for a query of at most eight items.
pub type MiddleSumRank = FixedRank<1, 8>;

/// A rank with eight sums, for an order by two to eight keys. Earlier keys are compared first.
pub type LexRank = FixedRank<8, 16>;

/// A rank with two sums and four slots, for a query of at most four items and an order by at most
/// two keys.
pub type SmallLexRank = FixedRank<2, 4>;

/// Adds sums to others, place by place.
fn add_sums(to: &mut [Sum], from: &[Sum])
    requires len { length to.old ≡ length from.now }
    requires fits { All (FitsSigned w128) (plus to.old from.now) }
    ensures { to.new ≡ plus to.old from.now }
{
    for place in 0..from.len() {
        to[place] = Sum::new(to[place].get() + from[place].get());
    }
}

/// The sums in place of the first ones.
fn copy_sums(to: &mut [Sum], from: &[i128])
    requires len { length from.now ≤ length to.old }
    ensures { to.new ≡ from.now ++ drop (length from.now) to.old }
{
    for place in 0..from.len() {
        to[place] = Sum::new(from[place]);
    }
}

/// Puts a number into a slot. Without such a slot there is nothing to put: the number is 0 then.
fn put_slot(slots: &mut [u32], slot: u32, row: u32)
    ensures { slots.new ≡ slice_set slots.old slot row }
{
    if (slot as usize) < slots.len() {
        slots[slot as usize] = row;
    }
}

/// Subtracts sums from others, place by place.
fn subtract_sums(to: &mut [Sum], from: &[Sum])
    requires len { length to.old ≡ length from.now }
    requires fits { All (FitsSigned w128) (minus to.old from.now) }
    ensures { to.new ≡ minus to.old from.now }
{
    for place in 0..from.len() {
        to[place] = Sum::new(to[place].get() - from[place].get());
    }
}

/// The order of two lists of sums: that of the first place at which they differ.
fn compare_sums(a: &[Sum], b: &[Sum]) -> Ordering
    requires { length a.now ≡ length b.now }
    ensures { result ≡ slice_cmp int_cmp a.now b.now }
{
    for place in 0..a.len() {
        let order = a[place].compare(&b[place]);
        if order.is_ne() {
            return order;
        }
    }
    Ordering::Equal
}

/// Subtracts slots from others, place by place.
fn subtract_slots(to: &mut [u32], from: &[u32])
    requires len { length to.old ≡ length from.now }
    requires fits { All (FitsUnsigned w32) (minus (map pos to.old) (map pos from.now)) }
    ensures { map pos to.new ≡ minus (map pos to.old) (map pos from.now) }
{
    for place in 0..from.len() {
        to[place] -= from[place];
    }
}

/// Adds slots to others, place by place.
fn add_slots(to: &mut [u32], from: &[u32])
    requires len { length to.old ≡ length from.now }
    requires fits { All (FitsUnsigned w32) (plus (map pos to.old) (map pos from.now)) }
    ensures { map pos to.new ≡ plus (map pos to.old) (map pos from.now) }
{
    for place in 0..from.len() {
        to[place] += from[place];
    }
}

impl<const N: usize, const M: usize> FixedRank<N, M> {
    /// The sum of two ranks by components.
    fn plus(self, other: Self) -> Self
        requires sums { All (FitsSigned w128) (plus self.sums other.sums) }
        requires slots { All (FitsUnsigned w32) (plus (map pos self.slots) (map pos other.slots)) }
        ensures sums { result.sums ≡ plus self.entry.sums other.entry.sums }
        ensures slots { map pos result.slots
            ≡ plus (map pos self.entry.slots) (map pos other.entry.slots) }
    {
        let mut sums = self.sums;
        let mut slots = self.slots;
        add_sums(&mut sums, &other.sums);
        add_slots(&mut slots, &other.slots);
        FixedRank { sums, slots }
    }

    /// The difference of two ranks by components.
    fn minus(self, other: Self) -> Self
        requires sums { All (FitsSigned w128) (minus self.sums other.sums) }
        requires slots { All (FitsUnsigned w32) (minus (map pos self.slots) (map pos other.slots)) }
        ensures sums { result.sums ≡ minus self.entry.sums other.entry.sums }
        ensures slots { map pos result.slots
            ≡ minus (map pos self.entry.slots) (map pos other.entry.slots) }
    {
        let mut sums = self.sums;
        let mut slots = self.slots;
        subtract_sums(&mut sums, &other.sums);
        subtract_slots(&mut slots, &other.slots);
        FixedRank { sums, slots }
    }
}

impl<const N: usize, const M: usize> Rank for FixedRank<N, M> {
    ghost KEYS = { N };

    ghost ITEMS = { M };

    ghost LIMIT = { 2 ^ 127 };

    ghost ROWS = { 2 ^ 32 };

    ghost key = { λ r. key_of_lists N 16 r.sums r.slots };

    const KEYS: usize = N;

    fn zero() -> Self {
        FixedRank {
            sums: [Sum::new(0); N],
            slots: [0; M],
        }
    }

    fn of_row(sums: &[i128], slot: u32, row: u32) -> Self {
        let mut rank = FixedRank {
            sums: [Sum::new(0); N],
            slots: [0; M],
        };
        copy_sums(&mut rank.sums, sums);
        put_slot(&mut rank.slots, slot, row);
        rank
    }

    fn join<L: Ledger>(a: Self, b: Self, steps: &mut Steps<L>) -> Self {
        steps.tick();
        a.plus(b)
    }

    fn swap<L: Ledger>(total: Self, old: Self, new: Self, steps: &mut Steps<L>) -> Self {
        steps.tick();
        total.minus(old).plus(new)
    }

    fn less<L: Ledger>(a: &Self, b: &Self, steps: &mut Steps<L>) -> bool {
        steps.tick();
        match compare_sums(&a.sums, &b.sums) {
            Ordering::Less => true,
            Ordering::Equal => a.slots.as_slice().cmp(&b.slots.as_slice()).is_lt(),
            Ordering::Greater => false,
        }
    }

    ghost holds = { λ k within. (
      record {
        sums = sums_of N M k;
        slots = slots_of N M k;
        sums_len = length_sums N M k;
        slots_len = length_slots N M k;
        none_after = slots_end N M k;
        slots_fit = slots_below N M k (2 ^ 32) (Prim.search rules) within.slots;
      },
      key_of_lists_lem N M k within.none,
    ) };

    ghost some_limit = { Prim.search rules };

    ghost below_rows = { λ r i l. slot_below N r.sums r.slots (2 ^ 32) r.slots_fit (Prim.search rules) i l };

    ghost rows_fit = { Prim.search rules };

    ghost rows_held = { Prim.search rules };
}
