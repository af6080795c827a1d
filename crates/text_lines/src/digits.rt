//! A writer of a number's digits.
ghost use Rattle.std.specs.Prelude.{◌≡◌, ◌≤◌, ◌%◌, decimal, drop, false};
ghost use Rattle.std.specs.Fmt.{digit_glyph};

/// Writes the number's digits, without leading zeros, at the end of the buffer, and returns where
/// they begin, from 0. Every `u64` fits in twenty digits. It divides by ten, from the last digit to
/// the first.
pub fn write_digits(number: u64, digits: &mut [u8; 20]) -> usize
    ensures within { result ≤ 20 }
    ensures digits { drop result digits.new ≡ decimal number }
{
    let mut rest = number;
    let mut at = 20;
    'digits: while at > 0 {
        at -= 1;
        digits[at] = digit(rest);
        rest /= 10;
        if rest == 0 {
            return at;
        }
    }
    unreachable!()
}

/// The last digit of a number.
fn digit(number: u64) -> u8
    ensures { result ≡ digit_glyph false (number % 10) }
{
    b'0' + (number % 10) as u8
}
