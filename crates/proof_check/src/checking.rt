//! Whether a certificate is valid.
ghost use Rattle.std.specs.Prelude.{◌≡◌, ◌≤◌, ◌<◌, ℕ, length, map, take, IfErr, IfOk, OnOk, Ok};
ghost use Rattle.bound_query.specs.WeighedQuery.{Fits};
ghost use Rattle.bound_query.specs.Shape.{IsShape, Shape};
ghost use Rattle.bound_query.specs.JoinTreeView.{HasItems, HasStoredTree};
ghost use Rattle.join_tree.specs.Rerooting.{IsTree};
ghost use Rattle.node_build.specs.Nodes.{CapsBelow};
ghost use Rattle.proof_model.specs.ProofView.{proof_view};
ghost use Rattle.proof_model.specs.Faults.{TellsFlaw};
ghost use Rattle.proof_model.specs.QueryProblem.{problem_in};
ghost use Rattle.proof_model.specs.Valid.{IsValid};
ghost use Rattle.proof_check.specs.RowLists.{item_rows, list_at};
ghost use Rattle.proof_model.specs.declared.fault.ProofFault.TheVariants.{NoMemory};

use crate::answers::placed_answers;
use crate::bounded::BoundedTree;
use crate::bounding::bounded_tree;
use crate::choices::check_choices;
use bound_query::Query;
use join_tree::JoinTree;
use proof_model::{Listed, Proof, ProofFault};
use rank_key::Rank;
use std::alloc::Global;
use std::sync::ledger::Ledger;
use step_counter::Steps;
use table_store::Tables;

/// The answers of a certificate: for each the row of each item, from 1, and 0 past the last item.
/// Ok exactly if the certificate is valid and at most 4,194,304 rows of all nodes pass, and else
/// the first fault in the order of `ProofFault`. `NoMemory` if memory is refused.
pub fn verify<R: Rank, L: Ledger>(
    alloc: Global,
    query: &Query,
    tables: &Tables,
    join: &JoinTree,
    proof: &Proof,
    steps: &mut Steps<L>,
) -> Result<Vec<[u32; 16]>, ProofFault>
    requires fits { Fits query.now tables.now }
    requires keys { length query.now.query.order ≤ R.KEYS }
    requires slots { length query.now.query.items ≤ R.ITEMS }
    requires limit { CapsBelow R.LIMIT query.now tables.now }
    requires tree { HasStoredTree query.now.query join.now }
    requires ordered { IsTree join.now.count join.now.atom join.now.parent }
    requires items { HasItems join.now.count join.now.atom (length query.now.query.items) }
    requires count { join.now.count ≡ length query.now.query.items }
    ensures valid { OnOk result
        (IsValid (problem_in query.now.query tables.now join.now) (proof_view proof.now)
        query.now.query.limit) }
    ensures few { OnOk result ((shape : Shape) × IsShape query.now.query tables.now (Ok shape)) }
    ensures rows { IfOk result (λ found. item_rows query.now.query found.items ≡ map
        (λ a. a.rows) (proof_view proof.now).answers) }
    ensures fault { IfErr result
        (TellsFlaw query.now.query tables.now join.now (proof_view proof.now)) }
{
    let tree: BoundedTree<R> = bounded_tree(alloc, query, tables, join, proof, steps)?;
    let answers = placed_answers(alloc, query, tables, join, &tree, proof, steps)?;
    match check_choices(alloc, query, tables, join, &tree, &answers, proof, steps) {
        Ok(()) => rows_of(alloc, &proof.answers, join.count as usize),
        Err(fault) => Err(fault),
    }
}

/// The rows of each answer, one for each of so many items.
fn rows_of(alloc: Global, answers: &[Listed], items: usize) -> Result<Vec<[u32; 16]>, ProofFault>
    requires few { items ≤ 16 }
    requires each { (i : ℕ) → i < length answers.now
        → length (list_at (map (λ a. a.rows.items) answers.now) i)
        ≡ items }
    ensures rows { IfOk result
        (λ found. map (take items) found.items ≡ map (λ a. a.rows.items) answers.now) }
    ensures fault { IfErr result (λ fault. fault ≡ NoMemory) }
{
    let mut found = Vec::new(alloc);
    for i in 0..answers.len() {
        found.push(first_items(&answers[i].rows))?;
    }
    Ok(found)
}

/// These rows, and zeros after them.
fn first_items(rows: &[u32]) -> [u32; 16]
    requires { length rows.now ≤ 16 }
    ensures { take (length rows.now) result ≡ rows.now }
{
    let mut found = [0; 16];
    for i in 0..rows.len() {
        found[i] = rows[i];
    }
    found
}
