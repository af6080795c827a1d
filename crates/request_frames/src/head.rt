//! The head of a frame.

ghost use Rattle.std.specs.Prelude.{◌≡◌, ℕ, length, MatchOption, IsTrue};
ghost use Rattle.std.specs.List.{list_all};
ghost use Rattle.std.specs.Char.{is_ascii_digit};
ghost use Rattle.request_frames.specs.Frames.{IsHead, value_of};

/// The length of a head, in bytes.
pub(crate) const HEAD: usize = 9;

/// The number of digits of a head.
const DIGITS: usize = 8;

/// The size that a head writes, or `None` if the bytes are no head.
pub(crate) fn size_in(head: &[u8]) -> Option<usize>
    requires { length head.now ≡ 9 }
    ensures { MatchOption result ((n : ℕ) → IsHead head.now n → ⊥) (λ n. IsHead head.now n) }
{
    if head[DIGITS] != b'\n' {
        return None;
    }
    number_in(&head[..DIGITS])
}

/// The number that these decimal digits write, or `None` if they are no digits.
fn number_in(digits: &[u8]) -> Option<usize>
    requires { length digits.now ≡ 8 }
    ensures { MatchOption result (IsTrue (list_all is_ascii_digit digits.now) → ⊥)
        (λ n. IsTrue (list_all is_ascii_digit digits.now) × (value_of digits.now ≡ n)) }
{
    let mut number: usize = 0;
    for digit in digits {
        if !digit.is_ascii_digit() {
            return None;
        }
        number = number * 10 + usize::from(digit.saturating_sub(b'0'));
    }
    Some(number)
}
