//! Entries leave heaps in order of rank.
ghost use Rattle.std.specs.Prelude.{◌≡◌, ◌^◌, ◌≤◌, ◌<◌};

use rank_key::{LexRank, PackedRank, Rank, SumRank};
use std::alloc::Global;
use std::marker::Brand;
use std::sync::ledger::{Blank, Ledger};
use step_counter::{NoMemory, Steps};
use take2_heap::{Entry, HeapOf, heapify};

/// What an entry was made of: its first sum and its row number.
type Made = (u32, u16);

const SIZES: &[u16] = &[0, 1, 2, 3, 1000];

/// The number after `number` in a sequence without visible order, with many equal ones.
fn scrambled(number: u32) -> u32 {
    number.wrapping_mul(1_664_525).wrapping_add(1_013_904_223) % 65_521
}

fn entry<R: Rank>(made: Made) -> Entry<R, Made>
    requires slots { 1 ≤ R.ITEMS }
    requires limit { 2 ^ 32 ≤ R.LIMIT }
    requires keys { 0 < R.KEYS }
{
    let (sum, row) = made;
    Entry {
        rank: R::of_row(&[i128::from(sum)], 0, u32::from(row)),
        tag: made,
    }
}

/// This many entries, in no order.
fn entries_of<R: Rank>(alloc: Global, count: u16) -> Result<Vec<Entry<R, Made>>, NoMemory>
    requires slots { 1 ≤ R.ITEMS }
    requires limit { 2 ^ 32 ≤ R.LIMIT }
    requires keys { 0 < R.KEYS }
{
    let mut entries = Vec::new(alloc);
    let mut number = 1;
    for row in 1..=count {
        number = scrambled(number);
        entries.push(entry((number % 500, row)))?;
    }
    Ok(entries)
}

/// Whether this many entries come out, each before the next.
fn ascends<R: Rank, L: Ledger>(
    heap: &mut HeapOf<R, Made, Global>,
    count: usize,
    steps: &mut Steps<L>,
) -> bool {
    let mut last = (0, 0);
    for _ in 0..count {
        let Some(next) = heap.pop(steps) else {
            return false;
        };
        if !(last < next.tag) {
            return false;
        }
        last = next.tag;
    }
    true
}

/// Whether exactly this many entries come out, each before the next.
fn drains<R: Rank, L: Ledger>(
    heap: &mut HeapOf<R, Made, Global>,
    count: usize,
    steps: &mut Steps<L>,
) -> bool {
    heap.len() == count
        && ascends(heap, count, steps)
        && heap.peek().is_none()
        && heap.pop(steps).is_none()
}

fn heapified<R: Rank, L: Ledger>(
    alloc: Global,
    count: u16,
    steps: &mut Steps<L>,
) -> Result<bool, NoMemory>
    requires slots { 1 ≤ R.ITEMS }
    requires limit { 2 ^ 32 ≤ R.LIMIT }
    requires keys { 0 < R.KEYS }
{
    let mut entries = entries_of::<R>(alloc, count)?;
    heapify(entries.as_mut_slice(), steps);
    let mut heap = HeapOf::from_heap(entries);
    Ok(drains(&mut heap, usize::from(count), steps))
}

/// A heap of these entries, pushed one by one.
fn heap_of<R: Rank, L: Ledger>(
    alloc: Global,
    entries: &[Entry<R, Made>],
    steps: &mut Steps<L>,
) -> Result<HeapOf<R, Made, Global>, NoMemory> {
    let mut heap = HeapOf::new(alloc);
    for entry in entries {
        heap.reserve(1)?;
        heap.push_reserved(entry.rank, entry.tag, steps);
    }
    Ok(heap)
}

fn pushed<R: Rank, L: Ledger>(
    alloc: Global,
    count: u16,
    steps: &mut Steps<L>,
) -> Result<bool, NoMemory>
    requires slots { 1 ≤ R.ITEMS }
    requires limit { 2 ^ 32 ≤ R.LIMIT }
    requires keys { 0 < R.KEYS }
{
    let entries = entries_of::<R>(alloc, count)?;
    let mut heap = heap_of(alloc, &entries, steps)?;
    Ok(drains(&mut heap, usize::from(count), steps))
}

/// Whether entries of each size leave in order of rank, both if made into a heap at once and if
/// pushed one by one.
fn all_drain<R: Rank, L: Ledger>(alloc: Global, steps: &mut Steps<L>) -> Result<bool, NoMemory>
    requires slots { 1 ≤ R.ITEMS }
    requires limit { 2 ^ 32 ≤ R.LIMIT }
    requires keys { 0 < R.KEYS }
{
    for count in SIZES {
        if !heapified::<R, L>(alloc, *count, steps)? || !pushed::<R, L>(alloc, *count, steps)? {
            return Ok(false);
        }
    }
    Ok(true)
}

fn leave_in_order<R: Rank, L: Ledger>(alloc: Global, blank: Blank) -> Result<bool, NoMemory>
    requires slots { 1 ≤ R.ITEMS }
    requires limit { 2 ^ 32 ≤ R.LIMIT }
    requires name { blank.name ≡ L.name }
    requires parts { blank.parts ≡ L.parts }
    requires share { 0 < L.parts }
    requires keys { 0 < R.KEYS }
{
    let mut steps: Steps<L> = Steps::new(blank);
    all_drain::<R, L>(alloc, &mut steps)
}

/// What replaces the top of two entries, the top that leaves, and the top that is there then.
const REPLACED: &[(Made, Made, Made)] = &[
    ((9, 1), (2, 1), (7, 1)),
    ((7, 2), (7, 1), (7, 2)),
    ((1, 1), (7, 2), (1, 1)),
];

/// Whether the top of two entries is this one.
fn has_top(heap: &HeapOf<SumRank, Made, Global>, made: Made) -> bool {
    match heap.peek() {
        Some(top) => top.tag == made,
        None => false,
    }
}

/// Whether a replaced top of two entries leaves, and the new top is there.
fn replaces<L: Ledger>(
    heap: &mut HeapOf<SumRank, Made, Global>,
    made: Made,
    out: Made,
    top: Made,
    steps: &mut Steps<L>,
) -> bool {
    if heap.len() != 2 {
        return false;
    }
    let one: Entry<SumRank, Made> = entry(made);
    heap.replace_top(one.rank, one.tag, steps).tag == out && has_top(heap, top)
}

fn all_replace<L: Ledger>(heap: &mut HeapOf<SumRank, Made, Global>, steps: &mut Steps<L>) -> bool {
    for (made, out, top) in REPLACED {
        if !replaces(heap, *made, *out, *top, steps) {
            return false;
        }
    }
    true
}

fn tops_are_replaced<L: Ledger>(alloc: Global, blank: Blank) -> Result<bool, NoMemory>
    requires name { blank.name ≡ L.name }
    requires parts { blank.parts ≡ L.parts }
    requires share { 0 < L.parts }
{
    let mut steps: Steps<L> = Steps::new(blank);
    let two: [Entry<SumRank, Made>; 2] = [entry((7, 1)), entry((2, 1))];
    let mut heap = heap_of(alloc, &two, &mut steps)?;
    Ok(all_replace(&mut heap, &mut steps))
}

#[test]
fn entries_leave_in_order_of_rank(rt: HostRuntime) {
    let by_sums = leave_in_order::<SumRank, Brand>(rt.alloc(), Blank::new(1));
    assert!(rt; by_sums == Ok(true));
    let by_lists = leave_in_order::<LexRank, Brand>(rt.alloc(), Blank::new(1));
    assert!(rt; by_lists == Ok(true));
    let packed = leave_in_order::<PackedRank, Brand>(rt.alloc(), Blank::new(1));
    assert!(rt; packed == Ok(true));
}

#[test]
fn a_replaced_top_sinks(rt: HostRuntime) {
    let sunken = tops_are_replaced::<Brand>(rt.alloc(), Blank::new(1));
    assert!(rt; sunken == Ok(true));
}
