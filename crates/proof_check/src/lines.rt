//! Bound lines, each a solution of its node's subtree.
ghost use Rattle.std.specs.Prelude.{◌≡◌, ◌≤◌, ◌<◌, [], List, ℕ, length, map, slice_index_or, suc, IfErr, IfOk, MatchOption};
ghost use Rattle.anyk_model.specs.Table.{Table};
ghost use Rattle.anyk_model.specs.Query.{Query as SelectQuery};
ghost use Rattle.join_tree.specs.declared.tree.JoinTree.{JoinTree};
ghost use Rattle.proof_model.specs.ProofView.{proof_view};
ghost use Rattle.proof_model.specs.Problem.{IsSolutionAt};
ghost use Rattle.proof_model.specs.QueryProblem.{problem_in};
ghost use Rattle.proof_check.specs.BoundedRows.{HasProblemRows};
ghost use Rattle.proof_check.specs.Faults.{TellsBadBound};
ghost use Rattle.proof_check.specs.Lines.{ArePlacedLines, HasProblem};
ghost use Rattle.proof_check.specs.Places.{ArePlacesOf};

use crate::bounded::NodeBounds;
use crate::places::{rank_of_places, solution_places};
use proof_model::{Bound, Proof, ProofFault};
use rank_key::Rank;
use std::alloc::{AllocError, Global};
use std::sync::ledger::Ledger;
use step_counter::Steps;
use tdp_core::RawTree;

/// The lines of a certificate as rows of a tree.
#[derive(Drop)]
pub(crate) struct PlacedLines<R> {
    /// For each line the place of its row at its node, from 0.
    pub tops: Vec<u32>,
    /// For each node the ranks of its lines. Nothing is named yet.
    pub bounds: Vec<NodeBounds<R>>,
}

/// The places of the rows of a line, by node. `None` exactly if there is no such node or the rows
/// are no solution of its subtree.
fn line_places<R: Rank>(raw: &RawTree<R>, bound: &Bound) -> Option<[u32; 16]>
    ensures { (query : SelectQuery) (tables : List Table) (join : JoinTree)
        → HasProblemRows query tables join R.KEYS R.key raw.now
        → MatchOption result
        ((v : ℕ) → bound.now.node ≡ suc v
        → IsSolutionAt (problem_in query tables join) v bound.now.rows.items → ⊥)
        (λ places. (v : ℕ) × (v < length raw.now.shapes) × (bound.now.node ≡ suc v)
        × ArePlacesOf query tables join raw.now v bound.now.rows.items places) }
{
    if bound.node == 0 || bound.node > raw.nodes() {
        return None;
    }
    solution_places(raw, bound.node - 1, bound.rows.as_slice())
}

/// For each node no bound.
fn no_bounds<R: Rank>(alloc: Global, nodes: u32) -> Result<Vec<NodeBounds<R>>, AllocError>
    ensures count { IfOk result (λ bounds. length bounds.items ≡ nodes) }
    ensures empty { IfOk result (λ bounds.
        (v : ℕ) → slice_index_or (map (λ b. b.ranks.items) bounds.items) v [] ≡ []) }
{
    let mut bounds = Vec::new(alloc);
    for _node in 0..nodes {
        let of_node = NodeBounds {
            own: Vec::new(alloc),
            named: Vec::new(alloc),
            ranks: Vec::new(alloc),
        };
        bounds.push(of_node)?;
    }
    Ok(bounds)
}

/// The lines of a certificate. `BadBound` exactly if some line is no solution of its node's
/// subtree, with the first such line, and `NoMemory` if memory is refused.
pub(crate) fn placed_lines<R: Rank, L: Ledger>(
    alloc: Global,
    raw: &RawTree<R>,
    proof: &Proof,
    steps: &mut Steps<L>,
) -> Result<PlacedLines<R>, ProofFault>
    requires problem { HasProblem R.KEYS R.key raw.now }
    ensures placed { IfOk result
        (λ lines. (query : SelectQuery) (tables : List Table) (join : JoinTree)
        → length query.order ≤ R.KEYS → HasProblemRows query tables join R.KEYS R.key raw.now
        → ArePlacedLines query tables join R.KEYS R.key raw.now (proof_view proof.now)
        (length proof.now.bounds.items)
        lines.tops.items (map (λ b. b.ranks.items) lines.bounds.items)) }
    ensures each_node { IfOk result (λ lines. length lines.bounds.items ≡ length raw.now.shapes) }
    ensures fault { IfErr result
        (λ told. (query : SelectQuery) (tables : List Table) (join : JoinTree)
        → length query.order ≤ R.KEYS → HasProblemRows query tables join R.KEYS R.key raw.now
        → TellsBadBound query tables join (proof_view proof.now) told) }
{
    let mut tops = Vec::new(alloc);
    let mut bounds = no_bounds(alloc, raw.nodes())?;
    for bound in &proof.bounds {
        let Some(places) = line_places(raw, bound) else {
            return Err(ProofFault::BadBound(bound.line));
        };
        let node = bound.node - 1;
        let rank = rank_of_places(raw, node, &places, steps);
        let top = places[node as usize];
        tops.push(top)?;
        let of_node = &mut bounds[node as usize];
        of_node.ranks.push(rank)?;
    }
    Ok(PlacedLines { tops, bounds })
}
