//! Writing a text in pieces, as far as a sink takes it.
ghost use Rattle.std.specs.Prelude.{◌≡◌};
ghost use Rattle.refusals.specs.Pieces.{text_of_piece, text_of_pieces};
ghost use Rattle.outer_io.specs.SinkText.{Sent};
ghost use Rattle.outer_io.specs.SinkState.{state_of};

use outer_io::{Sink, Unwritten, write_all};
use text_lines::write_digits;

/// A part of a text.
#[derive(Clone, Copy, Drop)]
pub(crate) enum Piece<'a> {
    /// These bytes.
    Text(&'a [u8]),
    /// A number in decimal.
    Number(u32),
}

/// Writes the pieces, one after another, as far as the sink takes them.
pub(crate) fn write_pieces<E: Sink>(err: &mut E, pieces: &[Piece<'_>]) -> Result<(), Unwritten>
    ensures { Sent (state_of E.Sink err.old) (state_of E.Sink err.new)
        (text_of_pieces pieces.now) result }
{
    for piece in pieces {
        write_piece(err, *piece)?;
    }
    Ok(())
}

/// Writes one piece.
fn write_piece<E: Sink>(err: &mut E, piece: Piece<'_>) -> Result<(), Unwritten>
    ensures { Sent (state_of E.Sink err.old) (state_of E.Sink err.new)
        (text_of_piece piece.entry) result }
{
    match piece {
        Piece::Text(text) => write_text(err, text),
        Piece::Number(number) => {
            let mut digits = [0u8; 20];
            let start = write_digits(u64::from(number), &mut digits);
            write_text(err, &digits[start..])
        }
    }
}

/// Writes one text.
pub(crate) fn write_text<E: Sink>(err: &mut E, text: &[u8]) -> Result<(), Unwritten>
    ensures { Sent (state_of E.Sink err.old) (state_of E.Sink err.new) text.now result }
{
    write_all(err, text)
}
