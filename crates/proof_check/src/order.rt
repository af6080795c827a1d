//! The order of the answers.
ghost use Rattle.std.specs.Prelude.{◌≡◌, ◌≤◌, ◌<◌, true, None, Some, List, length, option_map, IfErr, IfOk};
ghost use Rattle.anyk_model.specs.Table.{Table};
ghost use Rattle.anyk_model.specs.Query.{Query as SelectQuery};
ghost use Rattle.join_tree.specs.declared.tree.JoinTree.{JoinTree};
ghost use Rattle.tdp_model.specs.KeyNumbers.{key_less};
ghost use Rattle.proof_model.specs.ProofView.{proof_view};
ghost use Rattle.proof_model.specs.QueryProblem.{problem_in};
ghost use Rattle.proof_check.specs.BoundedRows.{HasProblemRows};
ghost use Rattle.proof_check.specs.RowPlaces.{IsLastKey};
ghost use Rattle.proof_check.specs.Solutions.{AreAnswers, AreOrdered, HasAnswers, TellsBehind};

use crate::places::rank_of_places;
use proof_model::{Proof, ProofFault};
use rank_key::Rank;
use std::sync::ledger::Ledger;
use step_counter::Steps;
use tdp_core::RawTree;

/// The rank of the last answer, if there is one. `Order` exactly if an answer is not after the one
/// before it: the first one.
pub(crate) fn last_rank<R: Rank, L: Ledger>(
    raw: &RawTree<R>,
    proof: &Proof,
    places: &[[u32; 16]],
    steps: &mut Steps<L>,
) -> Result<Option<R>, ProofFault>
    requires some { 0 < length raw.now.shapes }
    requires answers { HasAnswers R.KEYS R.key raw.now (proof_view proof.now) places.now }
    ensures last { (query : SelectQuery) (tables : List Table) (join : JoinTree)
        → length query.order ≤ R.KEYS
        → HasProblemRows query tables join R.KEYS R.key raw.now
        → AreAnswers query tables join raw.now (proof_view proof.now) places.now
        → IfOk result (λ last. IsLastKey query tables join R.KEYS (proof_view proof.now)
        (option_map R.key last)) }
    ensures ordered { (query : SelectQuery) (tables : List Table) (join : JoinTree)
        → length query.order ≤ R.KEYS
        → HasProblemRows query tables join R.KEYS R.key raw.now
        → AreAnswers query tables join raw.now (proof_view proof.now) places.now
        → IfOk result (λ last. AreOrdered (problem_in query tables join) (proof_view proof.now)
        (length places.now)) }
    ensures fault { (query : SelectQuery) (tables : List Table) (join : JoinTree)
        → length query.order ≤ R.KEYS
        → HasProblemRows query tables join R.KEYS R.key raw.now
        → AreAnswers query tables join raw.now (proof_view proof.now) places.now
        → IfErr result (TellsBehind (problem_in query tables join) (proof_view proof.now)) }
{
    let mut last = None;
    for i in 0..places.len() {
        let rank = rank_of_places(raw, 0, &places[i], steps);
        if !is_after(last, rank, steps) {
            return Err(ProofFault::Order(proof.answers[i].line));
        }
        last = Some(rank);
    }
    Ok(last)
}

/// Whether a rank is after the one before it. It is if there is none.
fn is_after<R: Rank, L: Ledger>(before: Option<R>, rank: R, steps: &mut Steps<L>) -> bool
    ensures first { before ≡ None → result ≡ true }
    ensures next { (old : R) → before ≡ Some old
        → result ≡ key_less R.KEYS 16 (R.key old) (R.key rank) }
{
    match before {
        Some(old) => R::less(&old, &rank, steps),
        None => true,
    }
}
