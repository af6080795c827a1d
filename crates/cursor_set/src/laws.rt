//! What callers of a set of cursors may rely on in any list of calls, as functions whose contracts
//! state it.

ghost use Rattle.std.specs.Prelude.{◌≡◌, ℕ, ◌+◌, ◌-◌, ◌^◌, ◌<◌, ◌≤◌, ◌⊎◌, Some, false, true, length, min};
ghost use Rattle.cursor_set.specs.CursorSet.{IsOpen, Keeps, place_of, with_place};

use crate::cursor_id::CursorId;
use crate::cursors::Cursors;
use std::sync::ledger::Ledger;
use step_counter::Steps;
use tdp_core::Ranked;

/// How far a cursor was driven.
#[derive(Clone, Copy, PartialEq, Eq)]
pub struct Driven {
    /// The number of answers it returned.
    pub given: u64,
    /// The number of calls that were refused memory.
    pub refused: u64,
    /// Whether it came to the end of the list.
    pub ended: bool,
}

/// Moves an open cursor on until `members` answers were returned, the end was met, or more than
/// `refusals` calls were refused memory. If `refusals` is the greatest `u64`, it stops when that
/// many were refused.
pub fn drive<E: Ranked, L: Ledger>(
    cursors: &mut Cursors<E>,
    id: CursorId,
    members: u64,
    refusals: u64,
    steps: &mut Steps<L>,
) -> Driven
    requires { IsOpen cursors.old id.number }
    ensures places { (place : ℕ) → place_of cursors.old id.number ≡ Some place
        → cursors.new.places
        ≡ (with_place cursors.old id.number (Some (place + result.given))).places }
    ensures kept { Keeps cursors.old cursors.new }
    ensures counted { cursors.new.refused
        ≡ min (cursors.old.refused + result.refused) (2 ^ 64 - 1) }
    ensures outcome { (place : ℕ) → place_of cursors.old id.number ≡ Some place →
        ((result.given ≡ members) × (result.ended ≡ false) × (result.refused ≤ refusals))
        ⊎ (((result.given < members) × (result.ended ≡ true) × (result.refused ≤ refusals)
        × (place + result.given ≡ length cursors.old.answers))
        ⊎ ((result.given < members) × (result.ended ≡ false)
        × (result.refused ≡ min (refusals + 1) (2 ^ 64 - 1)))) }
    ensures covered { (place : ℕ) → place_of cursors.old id.number ≡ Some place
        → place + members ≤ cursors.old.known → result.refused ≡ 0 }
    ensures after_end { cursors.old.ended ≡ true → result.refused ≡ 0 }
{
    // for the proof: the set's count of refused calls fits 64 bits
    let _before = cursors.refused();
    let mut given = 0;
    let mut refused = 0;
    while given < members {
        match cursors.next(id, steps) {
            Ok(Some(_)) => given += 1,
            Ok(None) => {
                return Driven {
                    given,
                    refused,
                    ended: true,
                };
            }
            Err(_) => {
                refused += 1;
                if refused > refusals || refused == u64::MAX {
                    return Driven {
                        given,
                        refused,
                        ended: false,
                    };
                }
            }
        }
    }
    Driven {
        given,
        refused,
        ended: false,
    }
}
