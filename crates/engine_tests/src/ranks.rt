//! Ranks with one sum and with eight, and packed ones.
ghost use Rattle.std.specs.Prelude.{◌≡◌, ◌≤◌, ◌<◌};

use rank_key::{LexRank, PackedRank, Rank, SumRank, WidePackedRank, bits};
use std::marker::Brand;
use std::process::Abort;
use std::sync::ledger::{Blank, Ledger};
use std::test::Fail;
use step_counter::Steps;

/// Fails the test unless the first key is before the second, and the second not before the first.
fn expect_before<R: Rank, L: Ledger>(rt: &impl Abort, a: R, b: R, steps: &mut Steps<L>) {
    assert!(rt; R::less(&a, &b, steps));
    assert!(rt; !R::less(&b, &a, steps));
    assert!(rt; !R::less(&a, &a, steps));
}

fn adds_and_exchanges<R: Rank, L: Ledger>(rt: &impl Abort, blank: Blank)
    requires slots { 2 ≤ R.ITEMS }
    requires limit { 100 ≤ R.LIMIT }
    requires name { blank.name ≡ L.name }
    requires parts { blank.parts ≡ L.parts }
    requires some_part { 0 < blank.parts }
    requires keys { 0 < R.KEYS }
{
    let mut steps = Steps::<L>::new(blank);
    let five = R::of_row(&[5], 0, 3);
    let less_seven = R::of_row(&[-7], 1, 4);
    let nine = R::of_row(&[9], 1, 1);
    let first = R::join(five, less_seven, &mut steps);
    let second = R::join(five, nine, &mut steps);
    let exchanged = R::swap(first, less_seven, nine, &mut steps);
    expect_before(rt, first, second, &mut steps);
    assert!(rt; !R::less(&exchanged, &second, &mut steps));
    assert!(rt; !R::less(&second, &exchanged, &mut steps));
    // the sum is -2, and the slots are 3 and 4
    expect_before(rt, R::of_row(&[-2], 0, 3), first, &mut steps);
    expect_before(rt, first, R::of_row(&[-2], 0, 4), &mut steps);
    expect_before(rt, R::of_row(&[-3], 0, 9), first, &mut steps);
    expect_before(rt, first, R::zero(), &mut steps);
}

fn orders_lists<L: Ledger>(rt: &impl Abort, blank: Blank)
    requires name { blank.name ≡ L.name }
    requires parts { blank.parts ≡ L.parts }
    requires some_part { 0 < blank.parts }
{
    let mut steps = Steps::<L>::new(blank);
    let lesser = LexRank::of_row(&[1, 4], 3, 7);
    expect_before(rt, lesser, LexRank::of_row(&[1, 5], 0, 2), &mut steps);
    let last = LexRank::of_row(&[1, 5, 0, 0, 0, 0, 0, i128::MIN], 15, 1);
    expect_before(rt, last, LexRank::of_row(&[1, 5], 0, 2), &mut steps);
    let most = SumRank::of_row(&[i128::MAX], 0, u32::MAX);
    expect_before(rt, SumRank::of_row(&[], 15, 1), most, &mut steps);
}

/// The least and the greatest sum, and the last row number of a packed rank.
const LEAST: i128 = 1 - (1 << 43);

const MOST: i128 = (1 << 43) - 1;

const LAST: u32 = (1 << 21) - 1;

/// No slot of a packed rank reaches into the one before it, and the first of them not into the sum.
fn orders_packed<L: Ledger>(rt: &impl Abort, blank: Blank)
    requires name { blank.name ≡ L.name }
    requires parts { blank.parts ≡ L.parts }
    requires some_part { 0 < blank.parts }
{
    let mut steps = Steps::<L>::new(blank);
    for slot in 0..3 {
        let later = PackedRank::of_row(&[MOST], slot + 1, LAST);
        expect_before(rt, later, PackedRank::of_row(&[MOST], slot, 1), &mut steps);
    }
    let least = PackedRank::of_row(&[LEAST], 3, 1);
    expect_before(rt, least, PackedRank::of_row(&[LEAST], 0, LAST), &mut steps);
    let second = PackedRank::of_row(&[LEAST + 1], 3, 1);
    expect_before(
        rt,
        PackedRank::of_row(&[LEAST], 0, LAST),
        second,
        &mut steps,
    );
    let negative = PackedRank::of_row(&[-1], 0, LAST);
    expect_before(rt, negative, PackedRank::zero(), &mut steps);
}

#[test]
fn a_rank_with_one_sum_adds_and_exchanges(rt: HostRuntime) -> Result<(), Fail> {
    adds_and_exchanges::<SumRank, Brand>(&rt, Blank::new(1));
    Ok(())
}

#[test]
fn a_rank_with_eight_sums_adds_and_exchanges(rt: HostRuntime) -> Result<(), Fail> {
    adds_and_exchanges::<LexRank, Brand>(&rt, Blank::new(1));
    Ok(())
}

#[test]
fn a_packed_rank_adds_and_exchanges(rt: HostRuntime) -> Result<(), Fail> {
    adds_and_exchanges::<PackedRank, Brand>(&rt, Blank::new(1));
    Ok(())
}

#[test]
fn a_wide_packed_rank_adds_and_exchanges(rt: HostRuntime) -> Result<(), Fail> {
    adds_and_exchanges::<WidePackedRank, Brand>(&rt, Blank::new(1));
    Ok(())
}

#[test]
fn numbers_of_a_packed_rank_stay_apart(rt: HostRuntime) -> Result<(), Fail> {
    orders_packed::<Brand>(&rt, Blank::new(1));
    Ok(())
}

#[test]
fn earlier_sums_weigh_more_and_rows_break_ties(rt: HostRuntime) -> Result<(), Fail> {
    orders_lists::<Brand>(&rt, Blank::new(1));
    Ok(())
}

#[test]
fn counts_binary_digits(rt: HostRuntime) -> Result<(), Fail> {
    let table = [
        (0, 0),
        (1, 1),
        (7, 3),
        (8, 4),
        (12, 4),
        (18, 5),
        (u64::MAX, 64),
    ];
    for (number, digits) in table {
        assert_eq!(rt; bits(number), digits, "{number}");
    }
    Ok(())
}
