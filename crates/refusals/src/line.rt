//! The line that says why a run ended.
ghost use Rattle.std.specs.Prelude.{◌≡◌, ◌<◌, ◌+◌, ◌++◌, None, codes, decimal};
ghost use Rattle.refusals.specs.Reason.{BadWeight, branch_text, line_of, on_file, on_table, spaced, text_of};
ghost use Rattle.hyper_graph.specs.Graph.{is_in};
ghost use Rattle.hyper_graph.specs.Items.{items_of};
ghost use Rattle.refusals.specs.CycleText.{item_text};
ghost use Rattle.refusals.specs.Forms.{in_table};
ghost use Rattle.refusals.specs.RefusalReasons.{reason_of};
ghost use Rattle.outer_io.specs.SinkText.{Sent};
ghost use Rattle.outer_io.specs.SinkState.{state_of};

use crate::form::{Form, form_of};
use crate::piece::{Piece, write_pieces, write_text};
use crate::refusal::Refusal;
use outer_io::{Sink, Unwritten};

/// Writes the line of the refusal, with its line feed, as far as the sink takes it. It takes no
/// memory. The error says that the sink did not take all of it.
pub fn write_line<E: Sink>(err: &mut E, refusal: Refusal<'_>) -> Result<(), Unwritten>
    ensures { Sent (state_of E.Sink err.old) (state_of E.Sink err.new)
        (line_of (reason_of refusal.entry)) result }
{
    write_text(err, b"anyk: ")?;
    write_branch(err, refusal.branch())?;
    write_reason(err, refusal)?;
    write_text(err, b"\n")
}

/// Writes the branch, if there is one.
fn write_branch<E: Sink>(err: &mut E, branch: Option<u32>) -> Result<(), Unwritten>
    ensures { Sent (state_of E.Sink err.old) (state_of E.Sink err.new) (branch_text branch) result }
{
    match branch {
        Some(branch) => write_numbered(err, b"branch ", branch, b": "),
        None => write_text(err, b""),
    }
}

/// Writes the reason, without what stands before it and without the line feed.
fn write_reason<E: Sink>(err: &mut E, refusal: Refusal<'_>) -> Result<(), Unwritten>
    ensures { Sent (state_of E.Sink err.old) (state_of E.Sink err.new)
        (text_of (reason_of refusal.entry)) result }
{
    match form_of(refusal) {
        Form::Text(text) => write_text(err, text),
        Form::Numbered(before, number, after) => write_numbered(err, before, number, after),
        Form::At(place, at, what) => write_at(err, place, at, what),
        Form::OnTable(table, what) => write_on_table(err, table, what),
        Form::OnFile(file, what) => write_on_file(err, file, what),
        Form::InTable(table, before, number, after) => {
            write_in_table(err, table, before, number, after)
        }
        Form::BadWeight { item, row, column } => write_bad_weight(err, item, row, column),
        Form::Cyclic(core) => write_cyclic(err, core),
    }
}

/// Writes a text with a number in it.
fn write_numbered<'a, E: Sink>(
    err: &mut E,
    before: &'a [u8],
    number: u32,
    after: &'a [u8],
) -> Result<(), Unwritten>
    ensures { Sent (state_of E.Sink err.old) (state_of E.Sink err.new)
        (before.now ++ (decimal number ++ after.now)) result }
{
    let pieces = [
        Piece::Text(before),
        Piece::Number(number),
        Piece::Text(after),
    ];
    write_pieces(err, &pieces)
}

/// Writes a reason at a byte of the query, or at a line of the script or of the certificate.
fn write_at<'a, E: Sink>(
    err: &mut E,
    place: &'a [u8],
    at: u32,
    what: &'a [u8],
) -> Result<(), Unwritten>
    ensures { Sent (state_of E.Sink err.old) (state_of E.Sink err.new)
        (place.now ++ (decimal at ++ (codes ": " ++ what.now))) result }
{
    let pieces = [
        Piece::Text(place),
        Piece::Number(at),
        Piece::Text(b": "),
        Piece::Text(what),
    ];
    write_pieces(err, &pieces)
}

/// Writes a reason about a table.
fn write_on_table<'a, E: Sink>(
    err: &mut E,
    table: &'a [u8],
    what: &'a [u8],
) -> Result<(), Unwritten>
    ensures { Sent (state_of E.Sink err.old) (state_of E.Sink err.new)
        (on_table table.now what.now) result }
{
    let pieces = [
        Piece::Text(b"table "),
        Piece::Text(table),
        Piece::Text(b": "),
        Piece::Text(what),
    ];
    write_pieces(err, &pieces)
}

/// Writes a reason about a file.
fn write_on_file<'a, E: Sink>(err: &mut E, file: &'a str, what: &'a [u8]) -> Result<(), Unwritten>
    ensures { Sent (state_of E.Sink err.old) (state_of E.Sink err.new)
        (on_file file.now what.now) result }
{
    let pieces = [
        Piece::Text(b"file "),
        Piece::Text(file.as_bytes()),
        Piece::Text(what),
    ];
    write_pieces(err, &pieces)
}

/// Writes a reason about a table, with a number in it.
fn write_in_table<'a, E: Sink>(
    err: &mut E,
    table: &'a [u8],
    before: &'a [u8],
    number: u32,
    after: &'a [u8],
) -> Result<(), Unwritten>
    ensures { Sent (state_of E.Sink err.old) (state_of E.Sink err.new)
        (in_table table.now before.now number after.now) result }
{
    let pieces = [
        Piece::Text(b"table "),
        Piece::Text(table),
        Piece::Text(before),
        Piece::Number(number),
        Piece::Text(after),
    ];
    write_pieces(err, &pieces)
}

/// Writes that a field of an order column is not a weight.
fn write_bad_weight<E: Sink>(err: &mut E, item: u32, row: u32, column: u32) -> Result<(), Unwritten>
    ensures { Sent (state_of E.Sink err.old) (state_of E.Sink err.new)
        (text_of (BadWeight None item row column)) result }
{
    let pieces = [
        Piece::Text(b"item "),
        Piece::Number(item),
        Piece::Text(b": row "),
        Piece::Number(row),
        Piece::Text(b": column "),
        Piece::Number(column),
        Piece::Text(b": not a weight"),
    ];
    write_pieces(err, &pieces)
}

/// Writes that the query is cyclic, with its core.
fn write_cyclic<E: Sink>(err: &mut E, core: u16) -> Result<(), Unwritten>
    ensures { Sent (state_of E.Sink err.old) (state_of E.Sink err.new)
        (codes "cyclic query: items" ++ spaced (items_of core)) result }
{
    write_text(err, b"cyclic query: items")?;
    write_items(err, core)
}

/// Writes the items of a core, each with a space before it.
fn write_items<E: Sink>(err: &mut E, core: u16) -> Result<(), Unwritten>
    ensures { Sent (state_of E.Sink err.old) (state_of E.Sink err.new)
        (spaced (items_of core)) result }
{
    for place in 0..16 {
        write_item(err, core, place)?;
    }
    Ok(())
}

/// Writes the item with this number, from 0, if it is in the core.
fn write_item<E: Sink>(err: &mut E, core: u16, place: u32) -> Result<(), Unwritten>
    requires { place < 16 }
    ensures { Sent (state_of E.Sink err.old) (state_of E.Sink err.new)
        (item_text core place) result }
{
    if is_in(core, place) {
        write_numbered(err, b" ", place + 1, b"")
    } else {
        Ok(())
    }
}

/// Whether an item is in the core. Items count from 0.
fn is_in(core: u16, place: u32) -> bool
    requires { place < 16 }
    ensures { result ≡ is_in core place }
{
    (core >> place) & 1 == 1
}
