//! The text of a number, kept in place. The kit's crate `itoa` writes the digits.
ghost use Rattle.std.specs.Prelude.{◌≡◌, decimal};
ghost use Rattle.std.specs.Fmt.{signed_decimal};

use itoa::Integer;
use std::marker::Model;

/// The number of bytes of the longest text, that of the least `i128`.
const MOST: usize = 40;

/// The text of a number: its decimal digits, without leading zeros, and `-` before a negative one.
/// It takes no memory. Contracts see its bytes.
#[derive(Drop)]
pub struct NumberText {
    bytes: [u8; MOST],
    // Where the text begins. It ends where the buffer does.
    start: usize,
}

impl Model for NumberText {
    ghost use Rattle.std.specs.Prelude.{List, ℕ, drop, ◌≤◌};

    ghost Value = { List ℕ };

    ghost view = { λ t. drop t.start t.bytes };

    ghost invariant = { λ t. t.start ≤ 40 };
}

impl NumberText {
    /// The text of a number that is not negative.
    pub fn of(number: u32) -> NumberText
        ensures { result ≡ decimal number }
    {
        let mut bytes = [0; MOST];
        let start = number.write(&mut bytes);
        NumberText { bytes, start }
    }

    /// The text of a number that may be negative.
    pub fn of_signed(number: i128) -> NumberText
        ensures { result ≡ signed_decimal number }
    {
        let mut bytes = [0; MOST];
        let start = number.write(&mut bytes);
        NumberText { bytes, start }
    }

    /// The bytes of the text.
    pub fn as_bytes(&self) -> &[u8]
        ensures { result.now ≡ self.now }
    {
        &self.bytes[self.start..]
    }
}
