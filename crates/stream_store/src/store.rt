//! The store: reserving room, adding entries and linking them.
ghost use Rattle.std.specs.Prelude.{◌≡◌, ℕ, ◌+◌, ◌-◌, ◌^◌, ◌<◌, ◌≤◌, [], ◌∷◌, ◌++◌, length, slice_index_or, slice_set, IfOk, IfErr, OnOk, OnErr, IsOk};
ghost use Rattle.stream_store.specs.declared.linked.Linked.{Linked};
ghost use Rattle.stream_store.specs.Buckets.{joined, AreFilled, whole_room};

use crate::linked::{EntryId, Linked};
use crate::location::{FIRST_ROOM, location_of};
use std::alloc::Allocator;
use std::marker::Model;
use std::sync::ledger::Ledger;
use step_counter::{NoMemory, Steps};

/// The greatest number of entries for which room is made, so that the place of each fits 32 bits.
const MOST: usize = u32::MAX as usize;

/// A list of linked entries, and the number of entries for which room is reserved.
///
/// Bucket number k has room for 16 * 2^k entries. It gets all its memory at once, and no entry in
/// it is ever moved. Buckets that were made before a later one was refused are kept for later use.
/// Room for more than 2^32 - 1 entries is refused as memory is.
#[derive(Drop)]
pub struct Store<T, A: Allocator + Clone> {
    buckets: Vec<Vec<Linked<T>, A>, A>,
    /// The room of all buckets, in entries.
    made: usize,
    /// The room that is reserved, in entries, from the first place on.
    room: usize,
    len: usize,
}

impl<T, A: Allocator + Clone> Model for Store<T, A> {
    ghost use Rattle.std.specs.Prelude.{◌≡◌, ◌-◌, ◌^◌, ◌<◌, ◌≤◌};
    ghost use Rattle.stream_store.specs.Entries.{Entries};
    ghost use Rattle.stream_store.specs.Buckets.{joined, AreFilled, whole_room};

    ghost Value = { Entries T };

    ghost view = { λ s. record { entries = joined s.buckets.items; spare = s.room - s.len } };

    ghost invariant = { λ s. AreFilled 16 s.len s.buckets.items
        × (s.made ≡ whole_room 16 s.buckets.items) × (s.len ≤ s.room) × (s.room ≤ s.made)
        × (s.made < 2 ^ 32) };
}

impl<T, A: Allocator + Clone> Store<T, A> {
    /// An empty store without room, which will take its memory from `alloc`.
    pub fn new(alloc: A) -> Store<T, A>
        ensures entries { result.entries ≡ [] }
        ensures spare { result.spare ≡ 0 }
    {
        Store {
            buckets: Vec::new(alloc),
            made: 0,
            room: 0,
            len: 0,
        }
    }

    /// The number of entries.
    pub fn len(&self) -> usize
        ensures { result ≡ length self.now.entries }
    {
        self.len
    }

    /// Makes room for at least `count` more entries. After `NoMemory` the store is as it was.
    pub fn reserve(&mut self, count: usize) -> Result<(), NoMemory>
        ensures entries { self.new.entries ≡ self.old.entries }
        ensures ok { OnOk result (count ≤ self.new.spare) }
        ensures err { OnErr result (self.new ≡ self.old) }
        ensures grows { self.old.spare ≤ self.new.spare }
        ensures succeeds { count ≤ self.old.spare → IsOk result }
    {
        make_room(&mut self.buckets, &mut self.made, self.len, count)?;
        self.room = self.made;
        Ok(())
    }

    /// The number of entries for which room is reserved.
    fn spare(&self) -> usize
        ensures { result ≡ self.now.spare }
    {
        self.room - self.len
    }

    /// Adds an entry in reserved room, without a next entry. It takes one step and no memory.
    pub fn push_reserved<L: Ledger>(&mut self, value: T, steps: &mut Steps<L>) -> EntryId
        requires { 0 < self.old.spare }
        ensures id { result ≡ length self.old.entries }
        ensures entries { self.new.entries
            ≡ self.old.entries ++ record { value = value; next = None } ∷ [] }
        ensures spare { self.new.spare + 1 ≡ self.old.spare }
        ensures cost { steps.new ≡ steps.old + 1 }
    {
        steps.tick();
        let place = self.len;
        let spot = location_of(place);
        let bucket = &mut self.buckets[spot.bucket];
        bucket.push_reserved(Linked { value, next: None });
        self.len += 1;
        EntryId {
            place: place as u32,
        }
    }

    /// Adds an entry without a next entry. If memory is refused it returns the value, and the store
    /// is as it was. It takes one step in either case.
    pub fn push<L: Ledger>(
        &mut self,
        value: T,
        steps: &mut Steps<L>,
    ) -> Result<EntryId, (T, NoMemory)>
        ensures id { IfOk result (λ id. id ≡ length self.old.entries) }
        ensures entries { OnOk result
            (self.new.entries ≡ self.old.entries ++ record { value = value; next = None } ∷ []) }
        ensures spare { OnOk result (self.old.spare ≤ self.new.spare + 1) }
        ensures value { IfErr result (λ e. e.0 ≡ value) }
        ensures err { OnErr result (self.new ≡ self.old) }
        ensures cost { steps.new ≡ steps.old + 1 }
    {
        if self.spare() == 0 {
            if let Err(refused) = self.reserve(1) {
                steps.tick();
                return Err((value, refused));
            }
        }
        Ok(self.push_reserved(value, steps))
    }

    /// The entry of this name.
    fn entry(&self, id: EntryId) -> &Linked<T>
        requires { id < length self.now.entries }
        ensures { (d : Linked T) → slice_index_or self.now.entries id d ≡ result.now }
    {
        let spot = location_of(id.place as usize);
        let bucket = &self.buckets[spot.bucket];
        &bucket[spot.offset]
    }

    /// The value of an entry of this store. It takes one step.
    pub fn get<L: Ledger>(&self, id: EntryId, steps: &mut Steps<L>) -> &T
        requires { id < length self.now.entries }
        ensures value { (d : Linked T) → (slice_index_or self.now.entries id d).value ≡ result.now }
        ensures cost { steps.new ≡ steps.old + 1 }
    {
        steps.tick();
        &self.entry(id).value
    }

    /// The entry that follows an entry of this store, or `None` if none is set. It takes one step.
    pub fn next_of<L: Ledger>(&self, id: EntryId, steps: &mut Steps<L>) -> Option<EntryId>
        requires { id < length self.now.entries }
        ensures next { (d : Linked T) → (slice_index_or self.now.entries id d).next ≡ result }
        ensures cost { steps.new ≡ steps.old + 1 }
    {
        steps.tick();
        self.entry(id).next
    }

    /// Sets the entry that follows an entry, which is possible once for each. It takes one step.
    pub fn set_next<L: Ledger>(&mut self, id: EntryId, to: EntryId, steps: &mut Steps<L>)
        requires id { id < length self.old.entries }
        requires to { to < length self.old.entries }
        requires none { (d : Linked T) → (slice_index_or self.old.entries id d).next ≡ None }
        ensures entries { (d : Linked T)
            → self.new.entries ≡ slice_set self.old.entries id
            (record (slice_index_or self.old.entries id d) { next = Some to }) }
        ensures spare { self.new.spare ≡ self.old.spare }
        ensures cost { steps.new ≡ steps.old + 1 }
    {
        steps.tick();
        let spot = location_of(id.place as usize);
        let bucket = &mut self.buckets[spot.bucket];
        bucket[spot.offset].next = Some(to);
    }
}

/// Makes buckets until they have room for `count` entries after the first `len`.
fn make_room<T, A: Allocator + Clone>(
    buckets: &mut Vec<Vec<Linked<T>, A>, A>,
    made: &mut usize,
    len: usize,
    count: usize,
) -> Result<(), NoMemory>
    requires filled { AreFilled 16 len buckets.old.items }
    requires made { made.old ≡ whole_room 16 buckets.old.items }
    requires within { len ≤ made.old }
    requires small { made.old < 2 ^ 32 }
    ensures filled { AreFilled 16 len buckets.new.items }
    ensures made { made.new ≡ whole_room 16 buckets.new.items }
    ensures entries { joined buckets.new.items ≡ joined buckets.old.items }
    ensures ok { OnOk result (len + count ≤ made.new) }
    ensures grows { made.old ≤ made.new }
    ensures small { made.new < 2 ^ 32 }
    ensures succeeds { len + count ≤ made.old → IsOk result }
{
    while *made - len < count {
        make_bucket(buckets, made)?;
    }
    Ok(())
}

/// Makes the next bucket.
fn make_bucket<T, A: Allocator + Clone>(
    buckets: &mut Vec<Vec<Linked<T>, A>, A>,
    made: &mut usize,
) -> Result<(), NoMemory>
    requires made { made.old ≡ whole_room 16 buckets.old.items }
    requires small { made.old < 2 ^ 32 }
    ensures filled { (len : ℕ) → AreFilled 16 len buckets.old.items
        → AreFilled 16 len buckets.new.items }
    ensures made { made.new ≡ whole_room 16 buckets.new.items }
    ensures entries { joined buckets.new.items ≡ joined buckets.old.items }
    ensures ok { OnOk result (made.old < made.new) }
    ensures small { made.new < 2 ^ 32 }
    ensures err { OnErr result (made.new ≡ made.old) }
{
    let size = *made + FIRST_ROOM;
    let total = *made + size;
    if total > MOST {
        return Err(NoMemory);
    }
    let alloc = buckets.allocator().clone()?;
    buckets.reserve(1)?;
    buckets.push_reserved(Vec::with_capacity(alloc, size)?);
    *made = total;
    Ok(())
}
