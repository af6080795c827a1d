//! A store of linked entries compared with one vector.
ghost use Rattle.std.specs.Prelude.{◌≡◌, ℕ, ◌<◌, ◌≤◌, length, slice_index, EachIndex, OnOk};

use bumpalo::Bump;
use std::alloc::{Allocator, Global};
use std::marker::Brand;
use std::sync::ledger::{Blank, Ledger};
use step_counter::{NoMemory, Steps};
use stream_store::{EntryId, Run, Store};

/// Pushes the numbers below `count`, and keeps the names of their entries.
fn fill<A: Allocator + Clone, L: Ledger>(
    store: &mut Store<u64, A>,
    ids: &mut Vec<EntryId>,
    count: u64,
    steps: &mut Steps<L>,
) -> Result<(), NoMemory>
    requires { EachIndex ids.old.items
        (λ k. slice_index ids.old.items k < length store.old.entries) }
    ensures { OnOk result
        (EachIndex ids.new.items (λ k. slice_index ids.new.items k < length store.new.entries)) }
{
    for value in 0..count {
        let id = match store.push(value, steps) {
            Ok(id) => id,
            Err((_value, refused)) => return Err(refused),
        };
        ids.push(id)?;
    }
    Ok(())
}

/// What a store has to hold, in one vector: each entry's value, and the place of its next entry.
type Plain = Vec<(u64, Option<usize>)>;

/// Links the entry at one place to that at another, in the store and in the vector, if none follows
/// it yet.
fn link_both<A: Allocator + Clone, L: Ledger>(
    store: &mut Store<u64, A>,
    plain: &mut Plain,
    ids: &[EntryId],
    from: usize,
    to: usize,
    steps: &mut Steps<L>,
)
    requires { EachIndex ids.now (λ k. slice_index ids.now k < length store.old.entries) }
    ensures { length store.new.entries ≡ length store.old.entries }
{
    if from < ids.len() && to < ids.len() && from < plain.len() {
        if store.next_of(ids[from], steps).is_none() {
            store.set_next(ids[from], ids[to], steps);
            plain[from].1 = Some(to);
        }
    }
}

/// Whether each entry of the store is that of the vector.
fn agree<A: Allocator + Clone, L: Ledger>(
    store: &Store<u64, A>,
    plain: &Plain,
    ids: &[EntryId],
    steps: &mut Steps<L>,
) -> bool
    requires { EachIndex ids.now (λ k. slice_index ids.now k < length store.now.entries) }
{
    for (place, id) in ids.iter().enumerate() {
        let Some((value, next)) = plain.get(place).copied() else {
            return false;
        };
        let follower = next.and_then(|to| ids.get(to).copied());
        if *store.get(*id, steps) != value || store.next_of(*id, steps) != follower {
            return false;
        }
    }
    store.len() == plain.len()
}

/// Pushes three entries, and links two pairs of those in the store.
fn grow<A: Allocator + Clone, L: Ledger>(
    store: &mut Store<u64, A>,
    plain: &mut Plain,
    ids: &mut Vec<EntryId>,
    round: usize,
    steps: &mut Steps<L>,
) -> Result<(), NoMemory>
    requires few { round < 1000 }
    requires known { EachIndex ids.old.items
        (λ k. slice_index ids.old.items k < length store.old.entries) }
    ensures { OnOk result
        (EachIndex ids.new.items (λ k. slice_index ids.new.items k < length store.new.entries)) }
{
    store.reserve(round)?;
    fill(store, ids, 3, steps)?;
    plain.extend_from_slice(&[(0, None), (1, None), (2, None)])?;
    link_both(store, plain, ids.as_slice(), round, 2 * round + 1, steps);
    link_both(store, plain, ids.as_slice(), round / 2, round, steps);
    Ok(())
}

/// Whether a store and a vector that grow together agree.
fn agree_after<A: Allocator + Clone, L: Ledger>(
    store: &mut Store<u64, A>,
    alloc: Global,
    rounds: usize,
    steps: &mut Steps<L>,
) -> Result<bool, NoMemory>
    requires { rounds < 1000 }
{
    let mut ids = Vec::new(alloc);
    let mut plain: Plain = Vec::new(alloc);
    for round in 0..rounds {
        grow(store, &mut plain, &mut ids, round, steps)?;
    }
    Ok(agree(store, &plain, &ids, steps))
}

fn agrees_with_a_vector<L: Ledger>(alloc: Global, blank: Blank) -> Result<bool, NoMemory>
    requires name { blank.name ≡ L.name }
    requires parts { blank.parts ≡ L.parts }
    requires share { 0 < L.parts }
{
    let mut steps: Steps<L> = Steps::new(blank);
    let bump = Bump::new(alloc);
    agree_after(&mut Store::new(&bump), alloc, 40, &mut steps)
}

#[test]
fn the_store_agrees_with_one_vector(rt: HostRuntime) {
    let agrees = agrees_with_a_vector::<Brand>(rt.alloc(), Blank::new(1));
    assert!(rt; agrees == Ok(true));
}

/// Whether the entries are the numbers from 0, in their order.
fn counts_up<A: Allocator + Clone, L: Ledger>(
    store: &Store<u64, A>,
    ids: &[EntryId],
    steps: &mut Steps<L>,
) -> bool
    requires { EachIndex ids.now (λ k. slice_index ids.now k < length store.now.entries) }
{
    let mut expected = 0u64;
    for id in ids.iter() {
        if *store.get(*id, steps) != expected {
            return false;
        }
        expected = expected.wrapping_add(1);
    }
    true
}

/// Whether a run of the last two entries of three has these by their places, and not the first.
fn run_of_two<A: Allocator + Clone, L: Ledger>(
    store: &mut Store<u64, A>,
    steps: &mut Steps<L>,
) -> Result<bool, NoMemory> {
    store.reserve(3)?;
    let outside = store.push_reserved(0, steps);
    let first = store.push_reserved(1, steps);
    let second = store.push_reserved(2, steps);
    let mut run = Run::new();
    run.add(first);
    run.add(second);
    let named = run.get(0) == first && run.get(1) == second;
    Ok(named && run.len() == 2 && run.contains(second) && !run.contains(outside))
}

/// Whether this many entries, pushed into an empty store, are read back.
fn reads_back<A: Allocator + Clone, L: Ledger>(
    store: &mut Store<u64, A>,
    alloc: Global,
    count: u64,
    steps: &mut Steps<L>,
) -> Result<bool, NoMemory> {
    let mut ids = Vec::new(alloc);
    fill(store, &mut ids, count, steps)?;
    Ok(store.len() as u64 == count && counts_up(store, &ids, steps))
}

fn a_thousand_are_read_back<L: Ledger>(alloc: Global, blank: Blank) -> Result<bool, NoMemory>
    requires name { blank.name ≡ L.name }
    requires parts { blank.parts ≡ L.parts }
    requires share { 0 < L.parts }
{
    let mut steps: Steps<L> = Steps::new(blank);
    let bump = Bump::new(alloc);
    reads_back(&mut Store::new(&bump), alloc, 1000, &mut steps)
}

#[test]
fn a_thousand_entries_of_an_arena_are_read_back(rt: HostRuntime) {
    let read = a_thousand_are_read_back::<Brand>(rt.alloc(), Blank::new(1));
    assert!(rt; read == Ok(true));
}

fn a_run_is_read_back<L: Ledger>(alloc: Global, blank: Blank) -> Result<bool, NoMemory>
    requires name { blank.name ≡ L.name }
    requires parts { blank.parts ≡ L.parts }
    requires share { 0 < L.parts }
{
    let mut steps: Steps<L> = Steps::new(blank);
    run_of_two(&mut Store::new(alloc), &mut steps)
}

#[test]
fn a_run_has_its_entries_alone(rt: HostRuntime) {
    let has = a_run_is_read_back::<Brand>(rt.alloc(), Blank::new(1));
    assert!(rt; has == Ok(true));
}
