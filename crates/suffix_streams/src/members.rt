//! The first solutions of the members of a group. They are in heap order: the members below member
//! j are 2j + 1 and 2j + 2, and no first solution of theirs is before the one of j.
ghost use Rattle.std.specs.Prelude.{◌≡◌, ◌+◌, ◌*◌, ◌<◌, ◌≤◌, length, slice_index};
ghost use Rattle.tdp_core.specs.TreeView.{group_count, members};
ghost use Rattle.tdp_core.specs.WellFormed.{IsFormed};
ghost use Rattle.suffix_streams.specs.TreeStreams.{IsHeaded, IsStreams};
ghost use Rattle.suffix_streams.specs.Firsts.{IsFirstOf, IsFirstBelow};

use crate::node::NodeStreams;
use crate::reads::first_cell;
use crate::source::Source;
use crate::stream::Found;
use rank_key::Rank;
use std::alloc::Allocator;
use std::sync::ledger::Ledger;
use step_counter::Steps;
use stream_store::Store;
use take2_heap::Entry;
use tdp_core::Tree;

/// The first solution of a member of a group. It takes at most four steps.
pub(crate) fn first_solution<R: Rank, A: Allocator + Clone, L: Ledger>(
    tree: &Tree<R>,
    nodes: &[NodeStreams<R, A>],
    entries: &Store<Found<R>, A>,
    node: u32,
    group: u32,
    member: u32,
    steps: &mut Steps<L>,
) -> Entry<R, Source>
    requires formed { IsFormed R.KEYS R.key tree.now }
    requires node { node < length tree.now }
    requires group { group < group_count tree.now node }
    requires member { member < length (members tree.now node group) }
    requires headed { IsHeaded R.KEYS R.key tree.now entries.now.entries nodes.now node
        (slice_index (members tree.now node group) member) }
    ensures first { IsFirstOf R.KEYS R.key tree.now entries.now.entries node group member result }
    ensures cost { steps.new ≤ steps.old + 4 }
{
    let row = tree.member(node, group, member, steps);
    let number = tree.row_at(node, row, steps).row;
    let rank = tree.best(node, row, steps);
    let cell = first_cell(tree, nodes, entries, node, row, steps);
    Entry {
        rank,
        tag: Source {
            member,
            place: 0,
            row,
            number,
            cell,
        },
    }
}

/// The first solution of a member below another one, whose first solution was passed. `None` if
/// there is no such member.
fn first_below<R: Rank, A: Allocator + Clone, L: Ledger>(
    tree: &Tree<R>,
    nodes: &[NodeStreams<R, A>],
    entries: &Store<Found<R>, A>,
    node: u32,
    group: u32,
    member: u64,
    steps: &mut Steps<L>,
) -> Option<Entry<R, Source>>
    requires formed { IsStreams R.KEYS R.key tree.now entries.now.entries nodes.now }
    requires node { node < length tree.now }
    requires group { group < group_count tree.now node }
    ensures below { IsFirstBelow R.KEYS R.key tree.now entries.now.entries node group 1 member
        result }
    ensures cost { steps.new ≤ steps.old + 4 }
{
    if member >= tree.group_len(node, group) as u64 {
        return None;
    }
    Some(first_solution(tree, nodes, entries, node, group, member as u32, steps))
}

/// The first solutions of the two members below a member, whose first solution was passed.
pub(crate) fn firsts_below<R: Rank, A: Allocator + Clone, L: Ledger>(
    tree: &Tree<R>,
    nodes: &[NodeStreams<R, A>],
    entries: &Store<Found<R>, A>,
    node: u32,
    group: u32,
    member: u32,
    steps: &mut Steps<L>,
) -> (Option<Entry<R, Source>>, Option<Entry<R, Source>>)
    requires formed { IsStreams R.KEYS R.key tree.now entries.now.entries nodes.now }
    requires node { node < length tree.now }
    requires group { group < group_count tree.now node }
    ensures left { IsFirstBelow R.KEYS R.key tree.now entries.now.entries node group 1
        (2 * member + 1) result.0 }
    ensures right { IsFirstBelow R.KEYS R.key tree.now entries.now.entries node group 1
        (2 * member + 2) result.1 }
    ensures cost { steps.new ≤ steps.old + 8 }
{
    let left = 2 * member as u64 + 1;
    (
        first_below(tree, nodes, entries, node, group, left, steps),
        first_below(tree, nodes, entries, node, group, left + 1, steps),
    )
}
