//! Answers told by the places of their rows.
ghost use Rattle.std.specs.Prelude.{◌<◌, List, length, IfErr, IfOk};
ghost use Rattle.anyk_model.specs.Table.{Table};
ghost use Rattle.anyk_model.specs.Query.{Query as SelectQuery};
ghost use Rattle.join_tree.specs.declared.tree.JoinTree.{JoinTree};
ghost use Rattle.proof_model.specs.ProofView.{proof_view};
ghost use Rattle.proof_model.specs.QueryProblem.{problem_in};
ghost use Rattle.proof_check.specs.BoundedRows.{HasProblemRows};
ghost use Rattle.proof_check.specs.Solutions.{AreAnswers, TellsBad};

use crate::places::solution_places;
use proof_model::{Proof, ProofFault};
use rank_key::Rank;
use std::alloc::Global;
use tdp_core::RawTree;

/// The places of the rows of each answer, by node. `BadAnswer` exactly if an answer is no solution:
/// the first one. `NoMemory` if memory is refused.
pub(crate) fn answer_places<R: Rank>(
    alloc: Global,
    raw: &RawTree<R>,
    proof: &Proof,
) -> Result<Vec<[u32; 16]>, ProofFault>
    requires { 0 < length raw.now.shapes }
    ensures places { (query : SelectQuery) (tables : List Table) (join : JoinTree)
        → HasProblemRows query tables join R.KEYS R.key raw.now
        → IfOk result (λ places. AreAnswers query tables join raw.now
        (proof_view proof.now) places.items) }
    ensures fault { (query : SelectQuery) (tables : List Table) (join : JoinTree)
        → HasProblemRows query tables join R.KEYS R.key raw.now
        → IfErr result (TellsBad (problem_in query tables join) (proof_view proof.now)) }
{
    let mut places = Vec::with_capacity(alloc, proof.answers.len())?;
    for answer in &proof.answers {
        match solution_places(raw, 0, answer.rows.as_slice()) {
            Some(found) => places.push(found)?,
            None => return Err(ProofFault::BadAnswer(answer.line)),
        }
    }
    Ok(places)
}
