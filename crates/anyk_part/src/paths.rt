//! The rows of one solution: the group at each node, and the row numbers by item.
ghost use Rattle.std.specs.Prelude.{◌≡◌, ℕ, ◌+◌, ◌<◌, ◌≤◌, length, take, slice_index};
ghost use Rattle.tdp_model.specs.KeyTuple.{key_add, key_none};
ghost use Rattle.tdp_model.specs.TreeProblem.{rows_key};
ghost use Rattle.tdp_core.specs.AnswerView.{rows_of_key};
ghost use Rattle.tdp_core.specs.TreeView.{parent, rows, rank, group_number};
ghost use Rattle.tdp_core.specs.WellFormed.{IsFormed, IsTieFreeTree};
ghost use Rattle.anyk_part.specs.Places.{ArePlaces};

use rank_key::Rank;
use std::sync::ledger::Ledger;
use step_counter::Steps;
use tdp_core::Tree;

/// The place of each node among the children of its parent, and 0 for the root.
pub(crate) fn child_places<R: Rank>(tree: &Tree<R>) -> [u32; 16]
    ensures { ArePlaces tree.now result }
{
    let mut places = [0; 16];
    for node in 1..tree.nodes() {
        places[node as usize] = tree.child_place(node);
    }
    places
}

/// The group of a node that the row chosen at its parent names.
pub(crate) fn group_at<R: Rank, L: Ledger>(
    tree: &Tree<R>,
    places: &[u32; 16],
    node: u32,
    chosen: &[u32; 16],
    steps: &mut Steps<L>,
) -> u32
    requires formed { IsFormed R.KEYS R.key tree.now }
    requires places { ArePlaces tree.now places.now }
    requires node { node < length tree.now }
    requires rows { (q : ℕ) → q < node → slice_index chosen.now q < rows tree.now q }
    ensures group { result
        ≡ group_number tree.now node (slice_index chosen.now (parent tree.now node)) }
    ensures cost { steps.new ≤ steps.old + 1 }
{
    if node == 0 {
        return 0;
    }
    let parent = tree.shape(node).parent;
    let row = chosen[parent as usize];
    tree.group_of(parent, row, places[node as usize], steps)
}

/// The row numbers of a solution, by item.
pub(crate) fn row_numbers<R: Rank, L: Ledger>(
    tree: &Tree<R>,
    chosen: &[u32; 16],
    steps: &mut Steps<L>,
) -> [u32; 16]
    requires tie_free { IsTieFreeTree tree.now }
    requires rows { (q : ℕ) → q < length tree.now → slice_index chosen.now q < rows tree.now q }
    ensures numbers { result
        ≡ rows_of_key R.KEYS 16
        (rows_key (key_add R.KEYS 16) (key_none R.KEYS 16) (rank tree.now R.KEYS R.key)
        (take (length tree.now) chosen.now)) }
    ensures cost { steps.new ≤ steps.old + length tree.now }
{
    let mut numbers = [0; 16];
    for node in 0..tree.nodes() {
        let row = tree.row_at(node, chosen[node as usize], steps);
        numbers[tree.shape(node).item as usize] = row.row;
    }
    numbers
}
