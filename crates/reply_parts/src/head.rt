//! The head of a part.

ghost use Rattle.std.specs.Prelude.{◌≡◌, ◌<◌};
ghost use Rattle.reply_parts.specs.Heads.{digit_of, end_word, head_of, word_of};

use crate::mark::Mark;

/// The number of bytes of a head.
pub(crate) const HEAD: usize = 13;

/// The digit of a number that counts so many.
fn digit(number: usize, unit: usize) -> u8
    requires { 0 < unit }
    ensures { result ≡ digit_of number unit }
{
    b'0' + (number / unit % 10) as u8
}

/// The head of a word and a number.
fn head(word: [u8; 4], number: usize) -> [u8; HEAD]
    ensures { result ≡ head_of word number }
{
    [
        word[0],
        word[1],
        word[2],
        word[3],
        digit(number, 10_000_000),
        digit(number, 1_000_000),
        digit(number, 100_000),
        digit(number, 10_000),
        digit(number, 1_000),
        digit(number, 100),
        digit(number, 10),
        digit(number, 1),
        b'\n',
    ]
}

/// The head of so many bytes.
pub(crate) fn part_head(mark: Mark, size: usize) -> [u8; HEAD]
    ensures { result ≡ head_of (word_of mark) size }
{
    match mark {
        Mark::Output => head(*b"out ", size),
        Mark::Errors => head(*b"err ", size),
    }
}

/// The head that ends a reply.
pub(crate) fn end_head(status: u8) -> [u8; HEAD]
    ensures { result ≡ head_of end_word status }
{
    head(*b"end ", usize::from(status))
}
