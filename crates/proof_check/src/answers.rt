//! The answers, told by the places of their rows.
ghost use Rattle.std.specs.Prelude.{◌≡◌, ◌≤◌, ◌<◌, ℕ, length, option_map, IfErr, IfOk};
ghost use Rattle.bound_query.specs.WeighedQuery.{Fits};
ghost use Rattle.bound_query.specs.JoinTreeView.{HasItems, HasStoredTree};
ghost use Rattle.join_tree.specs.Rerooting.{IsTree};
ghost use Rattle.proof_model.specs.ProofView.{proof_view};
ghost use Rattle.proof_model.specs.Faults.{TellsFlaw};
ghost use Rattle.proof_check.specs.BoundedRows.{IsBounded};
ghost use Rattle.proof_check.specs.RowPlaces.{ArePlaced, IsLastKey};

use crate::bounded::BoundedTree;
use crate::count::is_count;
use crate::covering::first_weak;
use crate::order::last_rank;
use crate::solutions::answer_places;
use bound_query::Query;
use join_tree::JoinTree;
use proof_model::{Proof, ProofFault};
use rank_key::Rank;
use std::alloc::Global;
use std::sync::ledger::Ledger;
use step_counter::Steps;
use table_store::Tables;

/// The answers of a certificate.
#[derive(Drop)]
pub struct PlacedAnswers<R> {
    /// For each answer the place of its row at each node, from 0. Places past the last node are 0.
    pub places: Vec<[u32; 16]>,
    /// The rank of the last answer, if there is one.
    pub last: Option<R>,
}

/// The answers of a certificate whose bounds are found. `Weak`, `BadAnswer`, `Order` and `Count`,
/// each exactly if it tells the first flaw. `NoMemory` if memory is refused.
pub fn placed_answers<R: Rank, L: Ledger>(
    alloc: Global,
    query: &Query,
    tables: &Tables,
    join: &JoinTree,
    tree: &BoundedTree<R>,
    proof: &Proof,
    steps: &mut Steps<L>,
) -> Result<PlacedAnswers<R>, ProofFault>
    requires fits { Fits query.now tables.now }
    requires keys { length query.now.query.order ≤ R.KEYS }
    requires slots { length query.now.query.items ≤ R.ITEMS }
    requires tree { HasStoredTree query.now.query join.now }
    requires ordered { IsTree join.now.count join.now.atom join.now.parent }
    requires items { HasItems join.now.count join.now.atom (length query.now.query.items) }
    requires count { join.now.count ≡ length query.now.query.items }
    requires bounded { IsBounded query.now.query tables.now join.now R.KEYS R.key
        (proof_view proof.now) tree.now }
    ensures placed { IfOk result (λ answers.
        ArePlaced query.now.query tables.now join.now
        (proof_view proof.now) tree.now.raw answers.places.items) }
    ensures last { IfOk result (λ answers.
        IsLastKey query.now.query tables.now join.now R.KEYS (proof_view proof.now)
        (option_map R.key answers.last)) }
    ensures fault { IfErr result
        (TellsFlaw query.now.query tables.now join.now (proof_view proof.now)) }
{
    if let Some(node) = first_weak(join, tree, steps) {
        return Err(ProofFault::Weak(node + 1));
    }
    let places = answer_places(alloc, &tree.raw, proof)?;
    let last = last_rank(&tree.raw, proof, places.as_slice(), steps)?;
    if !is_count(query.limit(), proof.ended, places.len() as u64) {
        return Err(ProofFault::Count);
    }
    Ok(PlacedAnswers { places, last })
}
