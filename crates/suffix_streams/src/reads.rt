//! Reading entries and products, which changes nothing.
ghost use Rattle.std.specs.Prelude.{◌≡◌, ℕ, ◌+◌, ◌*◌, ◌<◌, ◌≤◌, length, slice_index_or, IfOk, OnOk, IfSome, IfNone};
ghost use Rattle.tdp_core.specs.TreeView.{child_count, group_named, rows};
ghost use Rattle.tdp_core.specs.WellFormed.{IsFormed, IsTieFreeTree};
ghost use Rattle.tdp_model.specs.KeyTuple.{key_add, key_none};
ghost use Rattle.tdp_model.specs.Product.{pair_key};
ghost use Rattle.suffix_streams.specs.Rankings.{child as child_node, part_list, group_list};
ghost use Rattle.suffix_streams.specs.declared.source.Source.{Source};
ghost use Rattle.suffix_streams.specs.Exchanges.{CanExchange, IsExchanged, IsChildOffer};
ghost use Rattle.suffix_streams.specs.Firsts.{HasFirstParts};
ghost use Rattle.suffix_streams.specs.TreeStreams.{lists_of, products_of, stream_of, part_known, row_known, pair_of, IsSumOf, IsStreams, IsHeaded, HasParts, IsCell, IsOffer, AreFreshTo, AreLefts};

use crate::cell::{Cell, RowPart, down_cell};
use crate::lists::list_with_room;
use crate::node::NodeStreams;
use crate::product::Product;
use crate::source::Source;
use crate::stream::Found;
use rank_key::Rank;
use std::alloc::Allocator;
use std::sync::ledger::Ledger;
use step_counter::{NoMemory, Steps};
use stream_store::{EntryId, Store};
use take2_heap::Entry;
use tdp_core::Tree;

/// The first entry of the group that a row names for a child of its node.
pub(crate) fn child_head<R: Rank, A: Allocator + Clone, L: Ledger>(
    tree: &Tree<R>,
    nodes: &[NodeStreams<R, A>],
    entries: &Store<Found<R>, A>,
    node: u32,
    row: u32,
    child: usize,
    steps: &mut Steps<L>,
) -> EntryId
    requires formed { IsFormed R.KEYS R.key tree.now }
    requires node { node < length tree.now }
    requires row { row < rows tree.now node }
    requires child { child < child_count tree.now node }
    requires headed { IsHeaded R.KEYS R.key tree.now entries.now.entries nodes.now node row }
    ensures head { result
        ≡ (stream_of nodes.now (child_node tree.now node child)
        (group_named tree.now node row child)).head }
    ensures within { result < length entries.now.entries }
    ensures cost { steps.new ≡ steps.old + 1 }
{
    let _store = entries;
    let group = tree.group_of(node, row, child as u32, steps);
    let child_node = nodes[node as usize].child(child);
    nodes[child_node as usize].head(group)
}

/// The parts of the first solution of a row: the first solution of the row with its children but
/// the last, and that of the last child's group. They say nothing if the node has no children.
pub(crate) fn first_cell<R: Rank, A: Allocator + Clone, L: Ledger>(
    tree: &Tree<R>,
    nodes: &[NodeStreams<R, A>],
    entries: &Store<Found<R>, A>,
    node: u32,
    row: u32,
    steps: &mut Steps<L>,
) -> Cell
    requires formed { IsFormed R.KEYS R.key tree.now }
    requires node { node < length tree.now }
    requires row { row < rows tree.now node }
    requires headed { IsHeaded R.KEYS R.key tree.now entries.now.entries nodes.now node row }
    ensures parts { HasFirstParts tree.now entries.now.entries node row result }
    ensures cost { steps.new ≤ steps.old + 1 }
{
    let children = nodes[node as usize].child_count();
    if children == 0 {
        return Cell {
            left: 0,
            right: EntryId::none(),
        };
    }
    let right = child_head(tree, nodes, entries, node, row, children - 1, steps);
    Cell { left: 0, right }
}

/// The products of a row, each with its first solution. `NoMemory` if memory is refused.
pub(crate) fn make_products<R: Rank, A: Allocator + Clone, L: Ledger>(
    alloc: &A,
    tree: &Tree<R>,
    nodes: &[NodeStreams<R, A>],
    entries: &Store<Found<R>, A>,
    node: u32,
    row: u32,
    steps: &mut Steps<L>,
) -> Result<Vec<Product<R, A>, A>, NoMemory>
    requires formed { IsFormed R.KEYS R.key tree.now }
    requires tie_free { IsTieFreeTree tree.now }
    requires node { node < length tree.now }
    requires row { row < rows tree.now node }
    requires headed { IsHeaded R.KEYS R.key tree.now entries.now.entries nodes.now node row }
    ensures fresh { IfOk result (λ products. AreFreshTo R.KEYS R.key tree.now nodes.now node row
        (child_count tree.now node) products.items) }
    ensures cost { steps.new ≤ steps.old + 1 + 3 * child_count tree.now node }
{
    let children = nodes[node as usize].child_count();
    let mut products = list_with_room(alloc, children)?;
    let mut rank = tree.row_at(node, row, steps).rank;
    for child in 0..children {
        let head = child_head(tree, nodes, entries, node, row, child, steps);
        rank = R::join(rank, entries.get(head, steps).solution.rank, steps);
        let product = Product::new(alloc, rank, head, child + 1 < children)?;
        products.push(product)?;
    }
    Ok(products)
}

/// The rank of a solution of a row with its first `count` children, at a known place.
fn part_rank<R: Rank, A: Allocator + Clone, L: Ledger>(
    tree: &Tree<R>,
    nodes: &[NodeStreams<R, A>],
    node: u32,
    row: u32,
    count: usize,
    place: u32,
    steps: &mut Steps<L>,
) -> R
    requires formed { IsFormed R.KEYS R.key tree.now }
    requires node { node < length tree.now }
    requires row { row < rows tree.now node }
    requires all_nodes { node < length nodes.now }
    requires count { count ≤ length (products_of nodes.now node row) }
    requires lefts { AreLefts R.KEYS R.key tree.now nodes.now node row count }
    requires place { place < part_known nodes.now node row count }
    ensures key { R.key result
        ≡ slice_index_or (part_list R.KEYS R.key tree.now node row count) place
        (key_none R.KEYS 16) }
    ensures cost { steps.new ≤ steps.old + 1 }
{
    if count == 0 {
        return tree.row_at(node, row, steps).rank;
    }
    nodes[node as usize].rank(row, count - 1, place)
}

/// The rank of the solution that a cell stands for.
fn cell_rank<R: Rank, A: Allocator + Clone, L: Ledger>(
    tree: &Tree<R>,
    nodes: &[NodeStreams<R, A>],
    entries: &Store<Found<R>, A>,
    part: RowPart,
    cell: &Cell,
    steps: &mut Steps<L>,
) -> R
    requires formed { IsFormed R.KEYS R.key tree.now }
    requires node { part.node < length tree.now }
    requires row { part.row < rows tree.now part.node }
    requires parts { HasParts R.KEYS R.key tree.now entries.now.entries nodes.now part.node part.row part.child }
    requires cell { IsCell R.KEYS R.key tree.now entries.now.entries nodes.now part.node part.row part.child
        cell.now }
    ensures key { R.key result
        ≡ pair_key (key_add R.KEYS 16) (key_none R.KEYS 16)
        (part_list R.KEYS R.key tree.now part.node part.row part.child)
        (group_list R.KEYS R.key tree.now (child_node tree.now part.node part.child)
        (group_named tree.now part.node part.row part.child)) (pair_of entries.now.entries cell.now) }
    ensures cost { steps.new ≤ steps.old + 3 }
{
    let left = part_rank(
        tree, nodes, part.node, part.row, part.child, cell.left, steps,
    );
    let right = entries.get(cell.right, steps);
    R::join(left, right.solution.rank, steps)
}

/// A cell with the rank of its solution, or `None` if there is no cell.
pub(crate) fn offered<R: Rank, A: Allocator + Clone, L: Ledger>(
    tree: &Tree<R>,
    nodes: &[NodeStreams<R, A>],
    entries: &Store<Found<R>, A>,
    part: RowPart,
    cell: Option<Cell>,
    steps: &mut Steps<L>,
) -> Option<Entry<R, Cell>>
    requires formed { IsFormed R.KEYS R.key tree.now }
    requires node { part.node < length tree.now }
    requires row { part.row < rows tree.now part.node }
    requires parts { HasParts R.KEYS R.key tree.now entries.now.entries nodes.now part.node part.row part.child }
    requires cell { IfSome cell
        (IsCell R.KEYS R.key tree.now entries.now.entries nodes.now part.node part.row part.child) }
    ensures offer { IsOffer R.KEYS R.key tree.now entries.now.entries part.node part.row part.child cell result }
    ensures cost { steps.new ≤ steps.old + 3 }
{
    let cell = cell?;
    let rank = cell_rank(tree, nodes, entries, part, &cell, steps);
    Some(Entry { rank, tag: cell })
}

/// The sum below a sum, if there is one: the one with the entry `below` as its right part. Its rank
/// is that of `top` with one part exchanged, so the left part is not read.
pub(crate) fn offer_below<R: Rank, A: Allocator + Clone, L: Ledger>(
    entries: &Store<Found<R>, A>,
    top: &Entry<R, Cell>,
    below: Option<EntryId>,
    steps: &mut Steps<L>,
) -> Option<Entry<R, Cell>>
    requires right { top.now.tag.right < length entries.now.entries }
    requires below { IfSome below (λ b. b < length entries.now.entries) }
    requires exchange { IfSome below
        (CanExchange R.KEYS R.key entries.now.entries top.now) }
    ensures offer { IsExchanged R.KEYS R.key entries.now.entries top.now below result }
    ensures cost { steps.new ≤ steps.old + 3 }
{
    let cell = down_cell(&top.tag, below)?;
    let old = entries.get(top.tag.right, steps).solution.rank;
    let new = entries.get(cell.right, steps).solution.rank;
    let rank = R::swap(top.rank, old, new, steps);
    Some(Entry { rank, tag: cell })
}

/// A known solution of a row with its first children up to number `child`, as a sum. The last one
/// found is the top of the product's frontier, unless no further one follows: its rank is there, so
/// its parts are not read.
fn known_sum<R: Rank, A: Allocator + Clone, L: Ledger>(
    tree: &Tree<R>,
    nodes: &[NodeStreams<R, A>],
    entries: &Store<Found<R>, A>,
    part: RowPart,
    place: u32,
    steps: &mut Steps<L>,
) -> Entry<R, Cell>
    requires formed { IsStreams R.KEYS R.key tree.now entries.now.entries nodes.now }
    requires node { part.node < length tree.now }
    requires row { part.row < rows tree.now part.node }
    requires child { part.child < length (products_of nodes.now part.node part.row) }
    requires place { place < part_known nodes.now part.node part.row (part.child + 1) }
    ensures sum { IsSumOf R.KEYS R.key tree.now entries.now.entries nodes.now part.node part.row part.child place
        result.tag }
    ensures key { R.key result.rank
        ≡ slice_index_or (part_list R.KEYS R.key tree.now part.node part.row (part.child + 1)) place
        (key_none R.KEYS 16) }
    ensures cost { steps.new ≤ steps.old + 3 }
{
    let lists = &nodes[part.node as usize];
    if lists.known(part.row, part.child + 1) == place + 1 {
        if let Some(top) = lists.product_top(part.row, part.child) {
            return top;
        }
    }
    let cell = lists.cell(part.row, part.child, place);
    let rank = cell_rank(tree, nodes, entries, part, &cell, steps);
    Entry { rank, tag: cell }
}

/// The solution of an opened row at the place of a source, whose parts are not known yet. `None` if
/// the solution is not known.
pub(crate) fn row_offer<R: Rank, A: Allocator + Clone, L: Ledger>(
    tree: &Tree<R>,
    nodes: &[NodeStreams<R, A>],
    entries: &Store<Found<R>, A>,
    node: u32,
    next: Source,
    steps: &mut Steps<L>,
) -> Option<Entry<R, Source>>
    requires formed { IsStreams R.KEYS R.key tree.now entries.now.entries nodes.now }
    requires node { node < length tree.now }
    requires row { next.row < rows tree.now node }
    requires opened { length (products_of nodes.now node next.row) ≡ child_count tree.now node }
    requires place { 0 < next.place }
    ensures none { IfNone result (row_known nodes.now node next.row ≤ next.place) }
    ensures source { IfSome result (λ e. (e.tag.member ≡ next.member) × (e.tag.place ≡ next.place)
        × (e.tag.row ≡ next.row) × (e.tag.number ≡ next.number)) }
    ensures known { IfSome result (λ e. next.place < row_known nodes.now node next.row) }
    ensures parts { IfSome result (λ e. (c : ℕ) → child_count tree.now node ≡ c + 1
        → IsSumOf R.KEYS R.key tree.now entries.now.entries nodes.now node next.row c next.place
        e.tag.cell) }
    ensures key { IfSome result (λ e. R.key e.rank
        ≡ slice_index_or (part_list R.KEYS R.key tree.now node next.row
        (length (products_of nodes.now node next.row))) next.place (key_none R.KEYS 16)) }
    ensures cost { steps.new ≤ steps.old + 3 * child_count tree.now node }
{
    let lists = &nodes[node as usize];
    let count = lists.child_count();
    if count == 0 || lists.known(next.row, count) <= next.place {
        return None;
    }
    let last = RowPart {
        node,
        row: next.row,
        child: count - 1,
    };
    let sum = known_sum(tree, nodes, entries, last, next.place, steps);
    Some(Entry {
        rank: sum.rank,
        tag: Source {
            cell: sum.tag,
            ..next
        },
    })
}

/// The solution after `top` of a row with one child, at this place: the one with the entry `below`
/// of the child's group as its part. `None` if there is no such entry.
pub(crate) fn child_offer<R: Rank, A: Allocator + Clone, L: Ledger>(
    entries: &Store<Found<R>, A>,
    top: &Entry<R, Source>,
    place: u32,
    below: Option<EntryId>,
    steps: &mut Steps<L>,
) -> Option<Entry<R, Source>>
    requires right { top.now.tag.cell.right < length entries.now.entries }
    requires below { IfSome below (λ b. b < length entries.now.entries) }
    requires exchange { IfSome below (CanExchange R.KEYS R.key entries.now.entries
        (record { rank = top.now.rank; tag = top.now.tag.cell })) }
    ensures offer { IsChildOffer R.KEYS R.key entries.now.entries top.now place below result }
    ensures cost { steps.new ≤ steps.old + 3 }
{
    let sum = Entry {
        rank: top.rank,
        tag: top.tag.cell,
    };
    let next = offer_below(entries, &sum, below, steps)?;
    Some(Entry {
        rank: next.rank,
        tag: Source {
            place,
            cell: next.tag,
            ..top.tag
        },
    })
}
