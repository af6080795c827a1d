//! Of which stream a part is.

ghost use Rattle.std.specs.Prelude.{◌≡◌};
ghost use Rattle.reply_parts.specs.Known.{mark_of};

/// Of which stream a part is.
#[derive(Clone, Copy, PartialEq, Eq, Drop)]
pub enum Mark {
    /// The output: `out `.
    Output,
    /// The messages: `err `.
    Errors,
}

/// The number of the stream of the output.
pub const OUTPUT: u8 = 1;

/// The number of the stream of the messages.
pub const ERRORS: u8 = 2;

/// The mark of the stream of this number.
pub(crate) fn mark_of(stream: u8) -> Mark
    ensures { result ≡ mark_of stream }
{
    if stream == ERRORS {
        Mark::Errors
    } else {
        Mark::Output
    }
}
