//! The open cursors by name, and the steps that open, move and close them.
ghost use Rattle.std.specs.Prelude.{◌≡◌, ℕ, IfNone, IfSome, IsSome, List, None, OnOk, Some};
ghost use Rattle.output_model.specs.Session.{Places, places_after, with_cursor};
ghost use Rattle.command_output.specs.OpenCursors.{AreOthers, HasCursor, HoldsCursors};
ghost use Rattle.command_output.specs.SessionRules.{CanStep, PrintsNothing};

use cursor_set::{CursorId, Cursors, MAX_OPEN};
use session_script::Step;
use step_counter::NoMemory;
use tdp_core::Ranked;

/// An open cursor: its name, and its place in the list, from 0.
#[derive(Clone, Copy, Drop)]
pub(crate) struct OpenCursor<'s> {
    pub(crate) name: &'s [u8],
    pub(crate) place: u64,
}

/// The open cursors. The index of each is its number in the set.
pub(crate) type OpenCursors<'s> = [Option<OpenCursor<'s>>; MAX_OPEN];

/// The cursor with this name and its place, or `None` if none is open under it.
pub(crate) fn cursor_of(cursors: &OpenCursors<'_>, name: &[u8]) -> Option<(CursorId, u64)>
    ensures found { IfSome result (λ found. HasCursor cursors.now found.0.number name.now found.1) }
    ensures unknown { IfNone result (AreOthers cursors.now name.now 64) }
{
    for number in 0..MAX_OPEN {
        if let Some(cursor) = cursors[number] {
            if cursor.name == name {
                return Some((CursorId { number }, cursor.place));
            }
        }
    }
    None
}

/// Takes a step that prints nothing: it opens, moves or closes a cursor. `NoMemory` if no more can
/// be opened. `next` is no such step, and does nothing here.
pub(crate) fn move_cursor<'s, E: Ranked>(
    set: &mut Cursors<E>,
    cursors: &mut OpenCursors<'s>,
    step: &'s Step,
) -> Result<(), NoMemory>
    ensures held { (members : List (List ℕ)) → (places : Places)
        → HoldsCursors set.old cursors.old places → CanStep places step.now → PrintsNothing step.now
        → OnOk result (HoldsCursors set.new cursors.new (places_after members places step.now)) }
    ensures only { set.new ≡ record set.old { places = set.new.places } }
{
    match step {
        Step::Open(name) => open(set, cursors, name.bytes()),
        Step::Fork(name, new) => fork(set, cursors, name.bytes(), new.bytes()),
        Step::Rewind(name) => rewind(set, cursors, name.bytes()),
        Step::Close(name) => close(set, cursors, name.bytes()),
        Step::Next(_, _) => Ok(()),
    }
}

/// Opens a cursor with a new name at the start of the list. `NoMemory` if no more can be opened.
fn open<'s, E: Ranked>(
    set: &mut Cursors<E>,
    cursors: &mut OpenCursors<'s>,
    name: &'s [u8],
) -> Result<(), NoMemory>
    ensures held { (places : Places) → HoldsCursors set.old cursors.old places
        → places name.entry.now ≡ None
        → OnOk result (HoldsCursors set.new cursors.new (with_cursor places name.entry.now (Some 0))) }
    ensures only { set.new ≡ record set.old { places = set.new.places } }
{
    // never refused: a script has at most 64 cursors open
    let Ok(id) = set.open() else {
        return Err(NoMemory);
    };
    cursors[id.number] = Some(OpenCursor { name, place: 0 });
    Ok(())
}

/// Opens a cursor with a new name at the place of another cursor. `NoMemory` if no more can be
/// opened.
fn fork<'s, E: Ranked>(
    set: &mut Cursors<E>,
    cursors: &mut OpenCursors<'s>,
    name: &[u8],
    new: &'s [u8],
) -> Result<(), NoMemory>
    ensures held { (places : Places) → HoldsCursors set.old cursors.old places → IsSome (places name.now)
        → places new.entry.now ≡ None
        → OnOk result (HoldsCursors set.new cursors.new
        (with_cursor places new.entry.now (places name.now))) }
    ensures only { set.new ≡ record set.old { places = set.new.places } }
{
    let Some((id, place)) = cursor_of(cursors, name) else {
        return Ok(());
    };
    // never refused: a script has at most 64 cursors open
    let Ok(copy) = set.fork(id) else {
        return Err(NoMemory);
    };
    cursors[copy.number] = Some(OpenCursor { name: new, place });
    Ok(())
}

/// Moves a cursor back to the start of the list.
fn rewind<'s, E: Ranked>(
    set: &mut Cursors<E>,
    cursors: &mut OpenCursors<'s>,
    name: &'s [u8],
) -> Result<(), NoMemory>
    ensures held { (places : Places) → HoldsCursors set.old cursors.old places
        → IsSome (places name.entry.now)
        → OnOk result (HoldsCursors set.new cursors.new (with_cursor places name.entry.now (Some 0))) }
    ensures only { set.new ≡ record set.old { places = set.new.places } }
{
    let Some((id, _)) = cursor_of(cursors, name) else {
        return Ok(());
    };
    let Ok(()) = set.rewind(id) else {
        return Ok(());
    };
    cursors[id.number] = Some(OpenCursor { name, place: 0 });
    Ok(())
}

/// Closes a cursor.
fn close<E: Ranked>(
    set: &mut Cursors<E>,
    cursors: &mut OpenCursors<'_>,
    name: &[u8],
) -> Result<(), NoMemory>
    ensures held { (places : Places) → HoldsCursors set.old cursors.old places → IsSome (places name.now)
        → OnOk result (HoldsCursors set.new cursors.new (with_cursor places name.now None)) }
    ensures only { set.new ≡ record set.old { places = set.new.places } }
{
    let Some((id, _)) = cursor_of(cursors, name) else {
        return Ok(());
    };
    let Ok(()) = set.close(id) else {
        return Ok(());
    };
    cursors[id.number] = None;
    Ok(())
}
