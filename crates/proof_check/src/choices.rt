//! Open choices, node by node.
ghost use Rattle.std.specs.Prelude.{◌≡◌, ◌≤◌, ◌<◌, ◌+◌, ℕ, true, false, length, option_map, IfErr, IfOk, OnOk};
ghost use Rattle.bound_query.specs.WeighedQuery.{Fits};
ghost use Rattle.bound_query.specs.JoinTreeView.{HasItems, HasStoredTree};
ghost use Rattle.join_tree.specs.Rerooting.{IsTree};
ghost use Rattle.proof_model.specs.ProofView.{proof_view};
ghost use Rattle.proof_check.specs.BoundedRows.{IsBounded};
ghost use Rattle.tdp_core.specs.RawView.{raw_len};
ghost use Rattle.proof_check.specs.LowBounds.{IsBoundedTree};
ghost use Rattle.proof_check.specs.RowPlaces.{ArePlaced, IsLastKey, place_at};
ghost use Rattle.proof_check.specs.Choices.{ArePassed, TellsMissed};
ghost use Rattle.proof_check.specs.Levels.{ArePrefixes, IsMissedAt, IsPassedAt, IsReady};

use crate::answers::PlacedAnswers;
use crate::bounded::BoundedTree;
use crate::deviations::leaves_after;
use crate::prefixes::Prefixes;
use crate::taken_rows::TakenRows;
use bound_query::Query;
use join_tree::JoinTree;
use proof_model::{Proof, ProofFault};
use rank_key::Rank;
use std::alloc::Global;
use std::sync::ledger::Ledger;
use step_counter::{NoMemory, Steps};
use table_store::Tables;

/// Tests that each way to leave the answers comes after the last one, and that there is none if the
/// certificate says `end`. `Missed` exactly if this is not so. `NoMemory` if memory is refused.
pub fn check_choices<R: Rank, L: Ledger>(
    alloc: Global,
    query: &Query,
    tables: &Tables,
    join: &JoinTree,
    tree: &BoundedTree<R>,
    answers: &PlacedAnswers<R>,
    proof: &Proof,
    steps: &mut Steps<L>,
) -> Result<(), ProofFault>
    requires fits { Fits query.now tables.now }
    requires keys { length query.now.query.order ≤ R.KEYS }
    requires slots { length query.now.query.items ≤ R.ITEMS }
    requires tree { HasStoredTree query.now.query join.now }
    requires ordered { IsTree join.now.count join.now.atom join.now.parent }
    requires items { HasItems join.now.count join.now.atom (length query.now.query.items) }
    requires count { join.now.count ≡ length query.now.query.items }
    requires bounded { IsBounded query.now.query tables.now join.now R.KEYS R.key
        (proof_view proof.now) tree.now }
    requires placed { ArePlaced query.now.query tables.now join.now
        (proof_view proof.now) tree.now.raw
        answers.now.places.items }
    requires last { IsLastKey query.now.query tables.now join.now R.KEYS (proof_view proof.now)
        (option_map R.key
        answers.now.last) }
    ensures passed { OnOk result
        (ArePassed query.now.query tables.now join.now (proof_view proof.now)) }
    ensures fault { IfErr result
        (TellsMissed query.now.query tables.now join.now (proof_view proof.now)) }
{
    if !proof.ended && answers.last.is_none() {
        return Ok(());
    }
    let last = if proof.ended { None } else { answers.last };
    match all_leave_after(alloc, *join, tree, &answers.places, &last, steps) {
        Ok(true) => Ok(()),
        Ok(false) => Err(ProofFault::Missed),
        Err(_) => Err(ProofFault::NoMemory),
    }
}

/// Whether each way to leave the answers comes after the last one, or there is none if there is no
/// last one. The answers are told by the places of their rows.
fn all_leave_after<R: Rank, L: Ledger>(
    alloc: Global,
    join: JoinTree,
    tree: &BoundedTree<R>,
    places: &[[u32; 16]],
    last: &Option<R>,
    steps: &mut Steps<L>,
) -> Result<bool, NoMemory>
    requires ordered { IsTree join.count join.atom join.parent }
    requires bounded { IsBoundedTree join R.KEYS R.key tree.now }
    requires within { (i q : ℕ) → i < length places.now → q < join.count
        → place_at places.now i q < raw_len tree.now.raw q }
    ensures room { length join.atom ≡ 16 }
    ensures passed { IfOk result (λ good. good ≡ true → (p : ℕ) → p < join.count
        → IsPassedAt join tree.now R.KEYS R.key places.now (option_map R.key last.now) p) }
    ensures missed { IfOk result (λ good. good ≡ false
        → IsMissedAt join tree.now R.KEYS R.key places.now (option_map R.key last.now)) }
{
    let mut prefixes = Prefixes::before_first(alloc, places)?;
    for node in 0..tree.raw.nodes() {
        match node_leaves_after(alloc, &join, tree, node, places, last, &mut prefixes, steps) {
            Ok(true) => {}
            Ok(false) => return Ok(false),
            Err(error) => return Err(error),
        }
    }
    Ok(true)
}

/// The same of the ways to leave them at one node. The beginnings get this node more.
fn node_leaves_after<R: Rank, L: Ledger>(
    alloc: Global,
    join: &JoinTree,
    tree: &BoundedTree<R>,
    node: u32,
    places: &[[u32; 16]],
    last: &Option<R>,
    prefixes: &mut Prefixes,
    steps: &mut Steps<L>,
) -> Result<bool, NoMemory>
    requires ready { IsReady join.now tree.now R.KEYS R.key node }
    requires within { (i q : ℕ) → i < length places.now → q < join.now.count
        → place_at places.now i q < raw_len tree.now.raw q }
    requires prefixes { ArePrefixes node places.now prefixes.old.numbers.items
        prefixes.old.starts.items }
    ensures prefixes { OnOk result
        (ArePrefixes (node + 1) places.now prefixes.new.numbers.items prefixes.new.starts.items) }
    ensures passed { IfOk result (λ good. good ≡ true
        → IsPassedAt join.now tree.now R.KEYS R.key places.now (option_map R.key last.now) node) }
    ensures missed { IfOk result (λ good. good ≡ false
        → IsMissedAt join.now tree.now R.KEYS R.key places.now (option_map R.key last.now)) }
{
    let keys = tree.raw.keys();
    let mut taken = TakenRows::new(alloc, keys);
    match prefixes.with_node(alloc, places, node as usize, &mut taken) {
        Ok(next) => {
            let starts = &prefixes.starts;
            let good = leaves_after(alloc, join, tree, node, starts, &taken, last, steps);
            drop(taken);
            *prefixes = next;
            good
        }
        Err(refused) => {
            drop(taken);
            Err(refused)
        }
    }
}
