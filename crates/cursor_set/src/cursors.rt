//! The set of cursors: opening, moving, forking, rewinding and closing.
ghost use Rattle.std.specs.Prelude.{◌≡◌, ℕ, ◌+◌, ◌≤◌, ◌<◌, Some, None, Ok, Err, false, true, replicate, IfOk, IfErr, IfSome, IfNone, OnErr, slice_get, length, position, is_none, IsSome, IsSomeAnd};
ghost use Rattle.tdp_model.specs.KeyNumbers.{numbers};
ghost use Rattle.cursor_set.specs.CursorSet.{CursorSet, Keeps, IsKnownAt, ArePlacesKnown, place_of, first_free, seen_of, with_place};
ghost use Rattle.cursor_set.specs.Faults.{RefusesNext, RefusesFork, refused_after};

use crate::cursor_id::{CursorFault, CursorId};
use crate::next_answer::fetch;
use std::alloc::Global;
use std::marker::Model;
use std::sync::ledger::Ledger;
use step_counter::Steps;
use tdp_core::{Answer, Ranked};

/// The greatest number of cursors that may be open at once.
pub const MAX_OPEN: usize = 64;

/// Cursors over the answers of one engine, which is called once for each answer. A cursor is a
/// place in the list of all answers, from 0. The set also counts its calls that were refused
/// memory; the count stays at 2^64 - 1 once it gets there.
#[derive(Drop)]
pub struct Cursors<E: Ranked> {
    engine: E,
    found: Vec<Answer<E::Key>>,
    ended: bool,
    places: [Option<usize>; MAX_OPEN],
    refused: u64,
}

impl<E: Ranked> Model for Cursors<E> {
    ghost use Rattle.std.specs.Prelude.{◌≡◌, ℕ, ◌≤◌, List, [], ◌++◌, length, map, All, IfSome, true, vec_len};
    ghost use Rattle.tdp_model.specs.KeyNumbers.{numbers};
    ghost use Rattle.cursor_set.specs.CursorSet.{CursorSet};

    ghost Value = { CursorSet };

    ghost view = { λ s. record {
      answers = map
          (λ a. record {
            rows = a.rows;
            key = numbers E.Key.KEYS 16
                (E.Key.key a.rank);
          }) s.found.items
          ++ E.rest s.engine;
      known = vec_len s.found;
      ended = s.ended;
      places = s.places;
      refused = s.refused;
      calls = E.calls s.engine;
      due = E.due s.engine;
      size = E.size s.engine;
    } };

    ghost invariant = { λ s. (s.ended ≡ true → E.rest s.engine ≡ [])
        × All (λ p. IfSome p (λ n. n ≤ vec_len s.found)) s.places };
}

impl<E: Ranked> Cursors<E> {
    /// A set over the answers that `engine` has left, with no open cursor. Takes no memory.
    pub fn new(alloc: Global, engine: E) -> Cursors<E>
        ensures set { result
            ≡ record {
              answers = E.rest engine;
              known = 0;
              ended = false;
              places = replicate 64 None;
              refused = 0;
              calls = E.calls engine;
              due = E.due engine;
              size = E.size engine;
            } }
    {
        Cursors {
            engine,
            found: Vec::new(alloc),
            ended: false,
            places: [None; MAX_OPEN],
            refused: 0,
        }
    }

    /// The number of calls on this set that were refused memory, at most 2^64 - 1.
    pub fn refused(&self) -> u64
        ensures count { result ≡ self.now.refused }
    {
        self.refused
    }

    /// Opens the cursor with the least number that is not open, at place 0. The one error is
    /// `TooMany`, if all are open.
    pub fn open(&mut self) -> Result<CursorId, CursorFault>
        ensures opened { IfOk result
            (λ id. (first_free self.old ≡ Some id.number)
            × (self.new ≡ with_place self.old id.number (Some 0))) }
        ensures place { IfOk result (λ id. place_of self.new id.number ≡ Some 0) }
        ensures refused { IfErr result
            (λ e. (e ≡ CursorFault.TooMany) × (first_free self.old ≡ None)
            × (self.new ≡ self.old)) }
    {
        let Some(number) = free_number(&self.places) else {
            return Err(CursorFault::TooMany);
        };
        self.places[number] = Some(0);
        Ok(CursorId { number })
    }

    /// The answer at a cursor's place, which then moves on by one. At the end of the list it is
    /// `None`, and the cursor stays. `Unknown` if the cursor is not open. The engine is called, and
    /// `NoMemory` can be returned, only if no cursor has been at this place before.
    pub fn next<L: Ledger>(
        &mut self,
        id: CursorId,
        steps: &mut Steps<L>,
    ) -> Result<Option<Answer<E::Key>>, CursorFault>
        ensures some { IfOk result
            (λ o. IfSome o (λ a. IsSomeAnd (place_of self.old id.number) (λ place.
            (slice_get self.old.answers place
            ≡ Some (record { rows = a.rows; key = numbers E.Key.KEYS 16 (E.Key.key a.rank) }))
            × (self.new.places ≡ (with_place self.old id.number (Some (place + 1))).places)
            × (place + 1 ≤ self.new.known)))) }
        ensures end { IfOk result
            (λ o. IfNone o ((place_of self.old id.number ≡ Some (length self.old.answers))
            × (self.new.places ≡ self.old.places) × (self.new.ended ≡ true))) }
        ensures refused { IfErr result
            (λ e. RefusesNext self.old id.number e × (self.new.places ≡ self.old.places)) }
        ensures counted { self.new.refused ≡ refused_after result self.old.refused }
        ensures kept { Keeps self.old self.new }
        ensures within { ArePlacesKnown self.new }
        ensures known { IsKnownAt self.old id.number
            → (self.new ≡ record self.old { places = self.new.places })
            × (steps.new ≤ steps.old + 4) }
        ensures grown { seen_of self.new ≤ seen_of self.old + 1 }
        ensures calls { self.new.calls ≤ self.old.calls + 1 }
        ensures cost { steps.new ≤ steps.old + self.old.due + 4 }
        ensures share { steps.new ≤ steps.old + E.share self.old.size self.old.calls + 4 }
    {
        let Some(place) = self.places[id.number] else {
            return Err(CursorFault::Unknown(id));
        };
        if place < self.found.len() {
            self.places[id.number] = Some(place + 1);
            return Ok(Some(self.found[place]));
        }
        if self.ended {
            return Ok(None);
        }
        match fetch(&mut self.engine, &mut self.found, steps) {
            Ok(Some(answer)) => {
                self.places[id.number] = Some(place + 1);
                Ok(Some(answer))
            }
            Ok(None) => {
                self.ended = true;
                Ok(None)
            }
            Err(_) => {
                self.refused = self.refused.saturating_add(1);
                Err(CursorFault::NoMemory)
            }
        }
    }

    /// Opens the cursor with the least number that is not open, at the place of another cursor.
    /// `Unknown` if that cursor is not open, else `TooMany` if all are open.
    pub fn fork(&mut self, id: CursorId) -> Result<CursorId, CursorFault>
        ensures forked { IfOk result
            (λ copy. IsSome (place_of self.old id.number) × (first_free self.old ≡ Some copy.number)
            × (self.new ≡ with_place self.old copy.number (place_of self.old id.number))) }
        ensures place { IfOk result
            (λ copy. place_of self.new copy.number ≡ place_of self.old id.number) }
        ensures refused { IfErr result
            (λ e. RefusesFork self.old id.number e × (self.new ≡ self.old)) }
    {
        let Some(place) = self.places[id.number] else {
            return Err(CursorFault::Unknown(id));
        };
        let Some(number) = free_number(&self.places) else {
            return Err(CursorFault::TooMany);
        };
        self.places[number] = Some(place);
        Ok(CursorId { number })
    }

    /// Moves a cursor to place 0. `Unknown` if it is not open.
    pub fn rewind(&mut self, id: CursorId) -> Result<(), CursorFault>
        ensures rewound { IfOk result
            (λ _. IsSome (place_of self.old id.number)
            × (self.new ≡ with_place self.old id.number (Some 0))) }
        ensures place { IfOk result (λ _. place_of self.new id.number ≡ Some 0) }
        ensures refused { IfErr result
            (λ e. (e ≡ CursorFault.Unknown id) × (place_of self.old id.number ≡ None)
            × (self.new ≡ self.old)) }
    {
        let Some(_) = self.places[id.number] else {
            return Err(CursorFault::Unknown(id));
        };
        self.places[id.number] = Some(0);
        Ok(())
    }

    /// Closes a cursor, whose number is then free. `Unknown` if it is not open.
    pub fn close(&mut self, id: CursorId) -> Result<(), CursorFault>
        ensures closed { IfOk result
            (λ _. IsSome (place_of self.old id.number)
            × (self.new ≡ with_place self.old id.number None)) }
        ensures refused { IfErr result
            (λ e. (e ≡ CursorFault.Unknown id) × (place_of self.old id.number ≡ None)
            × (self.new ≡ self.old)) }
    {
        let Some(_) = self.places[id.number] else {
            return Err(CursorFault::Unknown(id));
        };
        self.places[id.number] = None;
        Ok(())
    }
}

/// The least number that is not open.
fn free_number(places: &[Option<usize>]) -> Option<usize>
    ensures { result ≡ position is_none places.now }
{
    places.iter().position(Option::is_none)
}
