//! What ear removal gives.

/// The course of ear removal: which atoms were removed, in which order and each below which atom,
/// and which are left. Atoms are numbered from 0.
#[derive(Clone, Copy, PartialEq, Eq)]
pub struct Ears {
    /// For each atom that was removed, the atom below which it hangs.
    pub parent: [u32; 16],
    /// The atoms that were removed, the earliest first.
    pub order: [u32; 16],
    /// The number of atoms that were removed.
    pub removed: u32,
    /// The atoms that are left, as bits: atom 0 is the lowest.
    pub core: u16,
}
