//! The entries of a heap.
/// An entry of a heap: a rank, by which entries are ordered, and a tag that goes with it and is
/// never compared.
#[derive(Clone, Copy)]
pub struct Entry<R, T> {
    pub rank: R,
    pub tag: T,
}
