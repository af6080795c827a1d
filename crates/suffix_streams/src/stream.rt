//! What the store has of the solutions of a group, and the room that the group's queue gets.
ghost use Rattle.std.specs.Prelude.{◌≡◌};
ghost use Rattle.suffix_streams.specs.Firsts.{can_enter};

use crate::source::Source;
use take2_heap::Entry;

/// A subtree solution of a group, as the store has it: its rank and its source, from which its rows
/// are read, with the node and the group that it is one of.
#[derive(Clone, Copy)]
pub(crate) struct Found<R> {
    pub(crate) solution: Entry<R, Source>,
    pub(crate) node: u32,
    pub(crate) group: u32,
}

/// The number of first solutions that enter the queue of a group when one is passed: at most those
/// of two members.
pub(crate) fn entering(members: u32) -> usize
    ensures { result ≡ can_enter members }
{
    let others = members.saturating_sub(1) as usize;
    if others < 2 { others } else { 2 }
}
