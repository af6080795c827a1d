//! Reading the rows of a solution, from entry to entry, each of which has the number of its own row.
//! Each row number is added at its item to the numbers that were read before.
ghost use Rattle.std.specs.Prelude.{◌≡◌, ℕ, ◌+◌, ◌*◌, ◌<◌, ◌≤◌, length, slice_index_or};
ghost use Rattle.tdp_core.specs.TreeView.{child_count, group_named, number as row_number, rank, rows};
ghost use Rattle.tdp_core.specs.WellFormed.{IsFormed, IsTieFreeTree};
ghost use Rattle.tdp_model.specs.KeyTuple.{key_add, key_none};
ghost use Rattle.tdp_model.specs.Product.{pair_key};
ghost use Rattle.suffix_streams.specs.Rankings.{child as child_node, part_list, group_list};
ghost use Rattle.suffix_streams.specs.TreeStreams.{IsKnownPart, IsSumOf, IsStreams, pair_of, node_of, group_of, place_of};
ghost use Rattle.suffix_streams.specs.Growing.{subtree_size, kids_size};
ghost use Rattle.suffix_streams.specs.RowNumbers.{AreAddable, AreAdded};

use crate::cell::{Cell, RowPart};
use crate::reads::child_head;
use crate::solutions::Solutions;
use rank_key::Rank;
use std::alloc::Allocator;
use std::sync::ledger::Ledger;
use step_counter::Steps;
use stream_store::EntryId;
use tdp_core::Tree;

impl<'t, R: Rank, A: Allocator + Clone> Solutions<'t, R, A> {
    /// Adds the row numbers of the subtree solution that an entry stands for. It takes at most 4
    /// steps for each node of the subtree.
    #[cycle(walk)]
    pub(crate) fn add_entry_rows<L: Ledger>(
        &self,
        entry: EntryId,
        numbers: &mut [u32; 16],
        steps: &mut Steps<L>,
    )
        requires formed { IsStreams R.KEYS R.key self.now.tree.now self.now.entries.entries
            self.now.nodes.items }
        requires tie_free { IsTieFreeTree self.now.tree.now }
        requires entry { entry < length self.now.entries.entries }
        requires fits { AreAddable R.KEYS numbers.old
            (slice_index_or (group_list R.KEYS R.key self.now.tree.now
            (node_of self.now.entries.entries entry) (group_of self.now.entries.entries entry))
            (place_of self.now.entries.entries entry) (key_none R.KEYS 16)) }
        ensures added { AreAdded R.KEYS numbers.old
            (slice_index_or (group_list R.KEYS R.key self.now.tree.now
            (node_of self.now.entries.entries entry) (group_of self.now.entries.entries entry))
            (place_of self.now.entries.entries entry) (key_none R.KEYS 16)) numbers.new }
        ensures cost { steps.new + 1
            ≤ steps.old + 4
            * subtree_size self.now.tree.now (node_of self.now.entries.entries entry) }
    {
        let found = self.entries.get(entry, steps);
        let solved = found.solution.tag;
        let row = solved.row;
        let count = self.nodes[found.node as usize].child_count();
        if count == 0 {
            add_own_row(self.tree, found.node, row, solved.number, numbers);
        } else {
            let part = RowPart {
                node: found.node,
                row,
                child: count - 1,
            };
            self.add_sum_rows(part, solved.number, &solved.cell, numbers, steps);
        }
    }

    /// Adds the row numbers of a solution of a row with its first children, at a known place.
    /// `number` is the row's own.
    #[cycle(walk)]
    fn add_part_rows<L: Ledger>(
        &self,
        part: RowPart,
        number: u32,
        place: u32,
        numbers: &mut [u32; 16],
        steps: &mut Steps<L>,
    )
        requires formed { IsStreams R.KEYS R.key self.now.tree.now self.now.entries.entries
            self.now.nodes.items }
        requires tie_free { IsTieFreeTree self.now.tree.now }
        requires node { part.node < length self.now.tree.now }
        requires row { part.row < rows self.now.tree.now part.node }
        requires number { number ≡ row_number self.now.tree.now part.node part.row }
        requires count { part.child ≤ child_count self.now.tree.now part.node }
        requires place { IsKnownPart self.now.nodes.items part.node part.row part.child place }
        requires fits { AreAddable R.KEYS numbers.old
            (slice_index_or (part_list R.KEYS R.key self.now.tree.now part.node part.row part.child) place
            (key_none R.KEYS 16)) }
        ensures added { AreAdded R.KEYS numbers.old
            (slice_index_or (part_list R.KEYS R.key self.now.tree.now part.node part.row part.child) place
            (key_none R.KEYS 16)) numbers.new }
        ensures cost { steps.new ≤ steps.old + 1 + 4 * kids_size self.now.tree.now part.node part.child }
    {
        let RowPart { node, row, .. } = part;
        let count = part.child;
        if count == 0 {
            add_own_row(self.tree, node, row, number, numbers);
        } else {
            let child = count - 1;
            let cell = self.part_cell(node, row, child, place, steps);
            self.add_sum_rows(RowPart { node, row, child }, number, &cell, numbers, steps);
        }
    }

    /// Adds the row numbers of the sum of a cell's parts: a known solution of a row with its first
    /// children, and an entry of the next child's group. `number` is the row's own.
    #[cycle(walk)]
    fn add_sum_rows<L: Ledger>(
        &self,
        part: RowPart,
        number: u32,
        cell: &Cell,
        numbers: &mut [u32; 16],
        steps: &mut Steps<L>,
    )
        requires formed { IsStreams R.KEYS R.key self.now.tree.now self.now.entries.entries
            self.now.nodes.items }
        requires tie_free { IsTieFreeTree self.now.tree.now }
        requires node { part.node < length self.now.tree.now }
        requires row { part.row < rows self.now.tree.now part.node }
        requires number { number ≡ row_number self.now.tree.now part.node part.row }
        requires child { part.child < child_count self.now.tree.now part.node }
        requires parts { (place : ℕ)
            × IsSumOf R.KEYS R.key self.now.tree.now self.now.entries.entries self.now.nodes.items
            part.node part.row part.child place cell.now }
        requires fits { AreAddable R.KEYS numbers.old
            (pair_key (key_add R.KEYS 16) (key_none R.KEYS 16)
            (part_list R.KEYS R.key self.now.tree.now part.node part.row part.child)
            (group_list R.KEYS R.key self.now.tree.now (child_node self.now.tree.now part.node part.child)
            (group_named self.now.tree.now part.node part.row part.child))
            (pair_of self.now.entries.entries cell.now)) }
        ensures added { AreAdded R.KEYS numbers.old
            (pair_key (key_add R.KEYS 16) (key_none R.KEYS 16)
            (part_list R.KEYS R.key self.now.tree.now part.node part.row part.child)
            (group_list R.KEYS R.key self.now.tree.now (child_node self.now.tree.now part.node part.child)
            (group_named self.now.tree.now part.node part.row part.child))
            (pair_of self.now.entries.entries cell.now)) numbers.new }
        ensures cost { steps.new
            ≤ steps.old + 4 * kids_size self.now.tree.now part.node (part.child + 1) }
    {
        self.add_part_rows(part, number, cell.left, numbers, steps);
        self.add_entry_rows(cell.right, numbers, steps);
    }

    /// The parts of a known solution of a row with its first `child + 1` children. If the row has
    /// no products, these are the first solutions.
    fn part_cell<L: Ledger>(
        &self,
        node: u32,
        row: u32,
        child: usize,
        place: u32,
        steps: &mut Steps<L>,
    ) -> Cell
        requires formed { IsStreams R.KEYS R.key self.now.tree.now self.now.entries.entries
            self.now.nodes.items }
        requires tie_free { IsTieFreeTree self.now.tree.now }
        requires node { node < length self.now.tree.now }
        requires row { row < rows self.now.tree.now node }
        requires child { child < child_count self.now.tree.now node }
        requires place { IsKnownPart self.now.nodes.items node row (child + 1) place }
        ensures sum { IsSumOf R.KEYS R.key self.now.tree.now self.now.entries.entries
            self.now.nodes.items node row child place result }
        ensures cost { steps.new ≤ steps.old + 1 }
    {
        let lists = &self.nodes[node as usize];
        if lists.product_count(row) == 0 {
            let right = child_head(
                self.tree,
                self.nodes.as_slice(),
                &self.entries,
                node,
                row,
                child,
                steps,
            );
            Cell { left: 0, right }
        } else {
            lists.cell(row, child, place)
        }
    }
}

/// Adds the row number of a row at the item of its node.
fn add_own_row<R: Rank>(tree: &Tree<R>, node: u32, row: u32, number: u32, numbers: &mut [u32; 16])
    requires formed { IsFormed R.KEYS R.key tree.now }
    requires node { node < length tree.now }
    requires row { row < rows tree.now node }
    requires number { number ≡ row_number tree.now node row }
    requires fits { AreAddable R.KEYS numbers.old (rank tree.now R.KEYS R.key node row) }
    ensures added { AreAdded R.KEYS numbers.old (rank tree.now R.KEYS R.key node row) numbers.new }
{
    numbers[tree.shape(node).item as usize] += number;
}
