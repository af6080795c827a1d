//! The text of a certificate.
ghost use Rattle.std.specs.Prelude.{◌≡◌, List, IfOk};
ghost use Rattle.anyk_model.specs.Table.{Table};
ghost use Rattle.bound_query.specs.WeighedQuery.{Fits};
ghost use Rattle.tdp_model.specs.KeyTuple.{KeyOf};
ghost use Rattle.tdp_core.specs.AnswerView.{answers_of};
ghost use Rattle.tdp_core.specs.Solutions.{IsTreeRanking};
ghost use Rattle.plan_build.specs.Plan.{IsPlan, PlanView};
ghost use Rattle.proof_model.specs.ProofTexts.{IsProofText};

use crate::answers::push_answers;
use crate::bounds::push_bounds;
use bound_query::Query;
use proof_model::{push_header, push_last};
use rank_key::Rank;
use std::alloc::Global;
use std::sync::ledger::Ledger;
use step_counter::{NoMemory, Steps};
use tdp_core::{Ranked, Tree};

/// The text of a certificate of the first answers: the first solution of each group of the tree, in
/// order, and then as many answers as the limit allows. The tree is that of a plan of the query,
/// and the engine has all answers left. It is not called after the limit's number of answers.
/// `NoMemory` if memory is refused.
pub fn prove<R: Rank, E: Ranked<Key = R>, L: Ledger>(
    alloc: Global,
    query: &Query,
    tree: &Tree<R>,
    engine: &mut E,
    steps: &mut Steps<L>,
) -> Result<Vec<u8>, NoMemory>
    requires planned { (tables : List Table) × (plan : PlanView R) × Fits query.now tables
        × IsPlan R.KEYS R.key query.now tables plan × (plan.tree ≡ tree.now) }
    requires rest { (ks : List (KeyOf R.KEYS 16)) × IsTreeRanking tree.now R.KEYS R.key ks
        × (E.rest engine.old ≡ answers_of R.KEYS ks) }
    ensures written { (tables : List Table) (plan : PlanView R) → Fits query.now tables
        → IsPlan R.KEYS R.key query.now tables plan → plan.tree ≡ tree.now
        → IfOk result (λ text. IsProofText query.now.query tables text.items) }
{
    let mut text = Vec::new(alloc);
    push_header(&mut text)?;
    push_bounds(alloc, tree, &mut text, steps)?;
    let ended = push_answers(alloc, query, engine, &mut text, steps)?;
    push_last(&mut text, ended)?;
    Ok(text)
}
