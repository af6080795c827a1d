//! Fields that are their own numbers.
ghost use Rattle.std.specs.Prelude.{◌≡◌, ◌≤◌, ◌<◌, ◌-◌, List, MatchBool, MatchOption, length, take, drop, ℕ};
ghost use Rattle.std.specs.Str.Parse.{AllDigits, digits_value};
ghost use Rattle.core.specs.Dec2flt.Digits.{IsEightBytes, IsEightDigits};
ghost use Rattle.core.specs.Int.Digits.{AllBelowBase, number_from_digits};
ghost use lib.Lanes.{number_l};
ghost use Rattle.table_store.specs.Values.{own_number};

/// The number of the first text. Each number below it belongs to the field that writes it.
pub const FIRST_TEXT: u32 = 2_147_483_648;

/// The most digits of a number below `FIRST_TEXT`.
const MAX_DIGITS: usize = 10;

/// The text of a word of zeros, as a number.
const ZEROS: u64 = 0x3030_3030_3030_3030;

/// The number of the field that lies from `start` to `end` in these bytes, as `own_number` gives it.
/// Up to eight bytes are read as one word, unless the bytes end before the word does.
#[inline(always)]
pub(crate) fn own_number_at(bytes: &[u8], start: usize, end: usize) -> Option<u32>
    requires order { start ≤ end }
    requires within { end ≤ length bytes.now }
    ensures { result ≡ own_number (take (end - start) (drop start bytes.now)) }
{
    let field = &bytes[start..end];
    if field.is_empty() || field.len() > 8 {
        return own_number(field);
    }
    let Some(word) = bytes[start..].first_chunk::<8>() else {
        return own_number(field);
    };
    own_number_of_first(word, field.len() as u32)
}

/// The number of the field that is the first `len` of eight bytes, as `own_number` gives it. What is
/// behind the field is shifted out of the word, so that zeros stand before its digits.
#[inline(always)]
fn own_number_of_first(bytes: &[u8; 8], len: u32) -> Option<u32>
    requires some { 0 < len }
    requires few { len ≤ 8 }
    ensures { result ≡ own_number (take len bytes.now) }
{
    let digits = (u64::from_le_bytes(*bytes) ^ ZEROS) << (64 - 8 * len);
    if !are_digits(digits) {
        return None;
    }
    if bytes[0] == b'0' && len > 1 {
        return None;
    }
    Some(value_of_eight(digits) as u32)
}

/// Whether no byte of a word is past 9. One that is past 9 gets its high bit by the sum, or has it
/// already, and no sum carries into the next byte.
#[inline(always)]
fn are_digits(word: u64) -> bool
    ensures { (bytes : List ℕ) → IsEightBytes bytes → word ≡ number_l 256 bytes
        → MatchBool result (AllBelowBase 10 bytes) (AllBelowBase 10 bytes → ⊥) }
{
    let past_nine = ((word & 0x7f7f_7f7f_7f7f_7f7f) + 0x7676_7676_7676_7676) | word;
    past_nine & 0x8080_8080_8080_8080 == 0
}

/// The number that eight digits write, the first of them in the lowest byte: each digit with the
/// next makes a pair, and each multiplication puts two pairs in their places.
#[inline(always)]
fn value_of_eight(word: u64) -> u64
    ensures { (digits : List ℕ) → IsEightDigits digits → word ≡ number_l 256 digits
        → result ≡ number_from_digits 10 digits }
{
    let pairs = word.wrapping_mul(10).wrapping_add(word >> 8);
    let odd = (pairs & 0x0000_00ff_0000_00ff).wrapping_mul(100 + (1_000_000 << 32));
    let even = ((pairs >> 16) & 0x0000_00ff_0000_00ff).wrapping_mul(1 + (10_000 << 32));
    odd.wrapping_add(even) >> 32
}

/// The number that a field writes as a decimal without a sign and without leading zeros, if it is
/// below `FIRST_TEXT`.
#[inline(never)]
pub fn own_number(field: &[u8]) -> Option<u32>
    ensures { result ≡ own_number field.now }
{
    if field.is_empty() || field.len() > MAX_DIGITS {
        return None;
    }
    if field[0] == b'0' && field.len() > 1 {
        return None;
    }
    let number = digits_value(field)?;
    if number >= FIRST_TEXT as u64 {
        return None;
    }
    Some(number as u32)
}

/// The number that a few digits write, if all of these bytes are digits.
fn digits_value(bytes: &[u8]) -> Option<u64>
    requires { length bytes.now ≤ 10 }
    ensures { MatchOption result (AllDigits 10 bytes.now → ⊥)
        (λ n. AllDigits 10 bytes.now × (n ≡ digits_value 10 bytes.now)) }
{
    let mut number: u64 = 0;
    for byte in bytes {
        // Past 9 for each byte that is no digit. At 64 bits, so that it is not widened again.
        let digit = (*byte as u64).wrapping_sub(b'0' as u64);
        if digit > 9 {
            return None;
        }
        number = number * 10 + digit;
    }
    Some(number)
}
