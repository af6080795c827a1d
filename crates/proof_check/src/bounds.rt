//! From a certificate to the bounds of groups.
ghost use Rattle.std.specs.Prelude.{◌≡◌, ◌≤◌, ◌<◌, ℕ, length, IfErr, IfOk, Ok};
ghost use Rattle.bound_query.specs.Shape.{IsShape, Shape};
ghost use Rattle.proof_model.specs.ProofView.{proof_view};
ghost use Rattle.proof_model.specs.Faults.{TellsFlaw};
ghost use Rattle.proof_check.specs.BoundedRows.{HasProblemRows, IsBounded};

use crate::bounded::BoundedTree;
use crate::groups::line_groups;
use crate::lines::{PlacedLines, placed_lines};
use crate::names::name_all;
use bound_query::Query;
use join_tree::JoinTree;
use proof_model::{Proof, ProofFault};
use rank_key::Rank;
use std::alloc::Global;
use std::sync::ledger::Ledger;
use step_counter::Steps;
use table_store::Tables;
use tdp_core::RawTree;

/// The rows of a query's nodes with the bounds of a certificate. `BadBound` and `BoundTwice`, each
/// exactly if it tells the first flaw. `NoMemory` if memory is refused.
pub fn with_bounds<R: Rank, L: Ledger>(
    alloc: Global,
    query: &Query,
    tables: &Tables,
    join: &JoinTree,
    raw: RawTree<R>,
    proof: &Proof,
    steps: &mut Steps<L>,
) -> Result<BoundedTree<R>, ProofFault>
    requires keys { length query.now.query.order ≤ R.KEYS }
    requires rows { HasProblemRows query.now.query tables.now join.now R.KEYS R.key raw }
    requires shape { (shape : Shape) × IsShape query.now.query tables.now (Ok shape) }
    ensures bounded { IfOk result
        (IsBounded query.now.query tables.now join.now R.KEYS R.key (proof_view proof.now)) }
    ensures fault { IfErr result
        (TellsFlaw query.now.query tables.now join.now (proof_view proof.now)) }
{
    // for the proof: the tree is well formed
    let _nodes = raw.nodes();
    let PlacedLines { tops, mut bounds } = placed_lines(alloc, &raw, proof, steps)?;
    let keys = tables.keys();
    let groups = line_groups(alloc, &raw, keys, proof, tops.as_slice(), steps)?;
    name_all(alloc, &raw, groups.as_slice(), bounds.as_mut_slice(), steps)?;
    Ok(BoundedTree { raw, bounds })
}
