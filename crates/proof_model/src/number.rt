//! Numbers of at most 7 digits.

ghost use Rattle.std.specs.Prelude.{◌≡◌, ◌≤◌, length, option_map, IfOk, true};
ghost use Rattle.std.specs.List.{list_all};
ghost use Rattle.std.specs.Char.{is_ascii_digit};
ghost use Rattle.std.specs.Str.Parse.{digits_value};
ghost use Rattle.text_lines.specs.Parts.{parts};
ghost use Rattle.proof_model.specs.Forms.{number_of, numbers_of};

use std::alloc::{AllocFailed, Global};
use text_lines::first_part;

const MAX_DIGITS: usize = 7;

/// Whether each byte is a decimal digit.
fn are_digits(text: &[u8]) -> bool
    ensures { result ≡ list_all is_ascii_digit text.now }
{
    text.iter().all(|byte| byte.is_ascii_digit())
}

/// The number that at most 7 decimal digits write.
fn value(digits: &[u8]) -> u32
    requires digits { list_all is_ascii_digit digits.now ≡ true }
    requires few { length digits.now ≤ 7 }
    ensures { result ≡ digits_value 10 digits.now }
{
    let mut value: u32 = 0;
    for digit in digits {
        value = value * 10 + u32::from(digit.saturating_sub(b'0'));
    }
    value
}

/// The number that a text is, or `None` if it is none.
pub(crate) fn read_number(text: &[u8]) -> Option<u32>
    ensures { result ≡ number_of text.now }
{
    if text.is_empty() || text.len() > MAX_DIGITS || !are_digits(text) {
        return None;
    }
    if text.len() > 1 && text[0] == b'0' {
        return None;
    }
    Some(value(text))
}

/// The numbers that the parts of a text are, or `None` if one of them is none.
pub(crate) fn read_numbers(alloc: Global, text: &[u8]) -> Result<Option<Vec<u32>>, AllocFailed<u32>>
    ensures { IfOk result (λ found. numbers_of (parts text.now) ≡ option_map (λ v. v.items) found) }
{
    let mut numbers = Vec::new(alloc);
    let mut rest = Some(text);
    'parts: while let Some(more) = rest {
        let (part, after) = first_part(more);
        let Some(number) = read_number(part) else {
            return Ok(None);
        };
        numbers.push(number)?;
        rest = after;
    }
    Ok(Some(numbers))
}
