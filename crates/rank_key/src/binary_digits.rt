//! The length of a number in binary.
ghost use Rattle.std.specs.Prelude.{◌≡◌};
ghost use Rattle.rank_key.specs.Bits.{bit_length};

/// The number of binary digits of `n`; 0 has none.
pub fn bits(n: u64) -> u32
    ensures { result ≡ bit_length n }
{
    if n == 0 { 0 } else { n.ilog2() + 1 }
}
