//! Sets of up to 16 atoms, as bits: atom 0 is the lowest.

ghost use Rattle.std.specs.Prelude.{◌≡◌, ◌≢◌, ◌↔◌, ℕ, ◌<◌, ◌≤◌, IsTrue};
ghost use Rattle.hyper_graph.specs.Graph.{is_in, IsIn};

/// Whether an atom is in a set.
pub fn contains(set: u16, atom: u32) -> bool
    requires { atom < 16 }
    ensures { result ≡ is_in set atom }
{
    (set >> atom) & 1 == 1
}

/// The set without one atom.
pub fn without(set: u16, atom: u32) -> u16
    requires { atom < 16 }
    ensures { (a : ℕ) → IsIn result a ↔ (IsIn set a × (a ≢ atom)) }
{
    set & !(1 << atom)
}

/// The set of the first `count` atoms.
pub fn all_below(count: u32) -> u16
    requires some { 1 ≤ count }
    requires few { count ≤ 16 }
    ensures { (a : ℕ) → IsIn result a ↔ (a < count) }
{
    u16::MAX >> (16 - count)
}

/// The least atom of a set, or 16 if it is empty.
pub fn least(set: u16) -> u32
    ensures found { result < 16 → IsIn set result }
    ensures least { (a : ℕ) → IsIn set a → result ≤ a }
{
    set.trailing_zeros()
}

/// Whether two sets have an atom in common.
pub(crate) fn intersects(set: u16, other: u16) -> bool
    ensures { IsTrue result ↔ ((a : ℕ) × IsIn set a × IsIn other a) }
{
    set & other != 0
}
