//! Subtree solutions, told by the places of their rows.
ghost use Rattle.std.specs.Prelude.{◌≡◌, ◌↔◌, ◌≤◌, ◌<◌, IsTrue, List, ℕ, length, MatchOption};
ghost use Rattle.anyk_model.specs.Table.{Table};
ghost use Rattle.anyk_model.specs.Query.{Query as SelectQuery};
ghost use Rattle.join_tree.specs.declared.tree.JoinTree.{JoinTree};
ghost use Rattle.tdp_core.specs.RawView.{raw_len, shape_parent};
ghost use Rattle.proof_model.specs.Problem.{IsSolutionAt, key_at};
ghost use Rattle.proof_model.specs.QueryProblem.{problem_in};
ghost use Rattle.proof_check.specs.BoundedRows.{HasProblemRows, query_key};
ghost use Rattle.proof_check.specs.Places.{ArePlacesOf, HasSolutionAt};
ghost use Rattle.proof_check.specs.Subtrees.{HasLinkOf};

use crate::searching::row_place;
use crate::subtree::{child_place, item_place, size, subtree};
use rank_key::Rank;
use std::sync::ledger::Ledger;
use step_counter::Steps;
use tdp_core::RawTree;

/// Whether a row of a node has the link that a row of the node's parent names. Both are told by
/// their places.
fn is_linked<R: Rank>(raw: &RawTree<R>, node: u32, above: u32, place: u32) -> bool
    requires below_root { 0 < node }
    requires node { node < length raw.now.shapes }
    requires above { above < raw_len raw.now (shape_parent raw.now.shapes node) }
    requires place { place < raw_len raw.now node }
    ensures { IsTrue result ↔ HasLinkOf raw.now node above place }
{
    // for the proof: the tree is well formed
    let _nodes = raw.nodes();
    let parent = raw.shape(node).parent;
    raw.own(node, place) == raw.link(parent, above, child_place(raw, node))
}

/// The places of the rows of a subtree solution of a node, by node, given a row for each item of
/// the subtree in the order of the items. `None` exactly if the rows are no solution. Nodes and
/// places count from 0, rows from 1, and at nodes outside of the subtree the place is 0.
pub fn solution_places<R: Rank>(raw: &RawTree<R>, node: u32, rows: &[u32]) -> Option<[u32; 16]>
    requires { node < length raw.now.shapes }
    ensures { (query : SelectQuery) (tables : List Table) (join : JoinTree)
        → HasProblemRows query tables join R.KEYS R.key raw.now
        → MatchOption result (IsSolutionAt (problem_in query tables join) node rows.now → ⊥)
        (ArePlacesOf query tables join raw.now node rows.now) }
{
    let nodes = raw.nodes();
    let below = subtree(raw, node);
    if rows.len() != size(raw, &below) as usize {
        return None;
    }
    let mut places = [0; 16];
    for at in node..nodes {
        if below[at as usize] == 0 {
            continue;
        }
        let row = rows[item_place(raw, &below, at) as usize];
        let place = row_place(raw, at, row)?;
        let above = places[raw.shape(at).parent as usize];
        if at > node && !is_linked(raw, at, above, place) {
            return None;
        }
        places[at as usize] = place;
    }
    Some(places)
}

/// The rank of a subtree solution of a node, given the places of its rows by node.
pub fn rank_of_places<R: Rank, L: Ledger>(
    raw: &RawTree<R>,
    node: u32,
    places: &[u32; 16],
    steps: &mut Steps<L>,
) -> R
    requires node { node < length raw.now.shapes }
    requires solution { HasSolutionAt R.KEYS R.key raw.now node places.now }
    ensures { (query : SelectQuery) (tables : List Table) (join : JoinTree) (rows : List ℕ)
        → length query.order ≤ R.KEYS → HasProblemRows query tables join R.KEYS R.key raw.now
        → ArePlacesOf query tables join raw.now node rows places.now
        → R.key result ≡ query_key query R.KEYS (key_at (problem_in query tables join) node rows) }
{
    let nodes = raw.nodes();
    let below = subtree(raw, node);
    let mut rank = R::zero();
    for at in 0..nodes {
        if below[at as usize] == 1 {
            let row = raw.row(at, places[at as usize]);
            rank = R::join(rank, row.rank, steps);
        }
    }
    rank
}
