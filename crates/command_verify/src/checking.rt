//! Whether a certificate is valid for the query of an input.
ghost use Rattle.std.specs.Prelude.{◌≡◌, ◌≤◌, IfOk, length};
ghost use Rattle.anyk_model.specs.Output.{cut};
ghost use Rattle.anyk_model.specs.Ranking.{ranking_of};
ghost use Rattle.join_tree.specs.Rerooting.{IsTree};
ghost use Rattle.node_build.specs.Nodes.{CapsBelow};
ghost use Rattle.proof_check.specs.RowLists.{item_rows};
ghost use Rattle.proof_model.specs.ProofView.{proof_view};
ghost use Rattle.bound_query.specs.WeighedQuery.{Fits};
ghost use Rattle.bound_query.specs.JoinTreeView.{HasItems, HasStoredTree};
ghost use Rattle.verdict.specs.StageResults.{Pure};
ghost use Rattle.command_verify.specs.Verifications.{IsCheckedFor, done_result_view};

use crate::fault::CheckFault;
use bound_query::{Query, tree_shape};
use join_tree::JoinTree;
use proof_check::verify;
use proof_model::Proof;
use rank_key::{LexRank, Rank, SumRank};
use std::alloc::Global;
use std::sync::ledger::Ledger;
use step_counter::Steps;
use table_store::Tables;

/// The answers that a certificate lists, which are the first answers of the query: for each a row
/// for each item, from 1, and 0 past the last item. `Cyclic` if the query has no join tree,
/// `TooManyRows` if its nodes have too many rows, and then the certificate's first flaw.
/// `NoMemory` if memory is refused.
pub(crate) fn check_proof<L: Ledger>(
    alloc: Global,
    query: &Query,
    tables: &Tables,
    proof: &Proof,
    steps: &mut Steps<L>,
) -> Result<Vec<[u32; 16]>, CheckFault>
    requires fits { Fits query.now tables.now }
    ensures checked { Pure (IsCheckedFor query.now.query tables.now (proof_view proof.now))
        (done_result_view result) }
    ensures answers { IfOk result (λ found. item_rows query.now.query found.items
        ≡ cut query.now.query.limit (ranking_of query.now.query tables.now)) }
{
    let join = match tree_shape(query) {
        Ok(join) => join,
        Err(fault) => return Err(CheckFault::Shape(fault)),
    };
    // for the proof: there are at most 16 items
    let _items = query.items();
    if query.keys() <= 1 {
        listed_answers::<SumRank, L>(alloc, query, tables, &join, proof, steps)
    } else {
        listed_answers::<LexRank, L>(alloc, query, tables, &join, proof, steps)
    }
}

/// The answers that a certificate lists, by one rank type.
fn listed_answers<R: Rank, L: Ledger>(
    alloc: Global,
    query: &Query,
    tables: &Tables,
    join: &JoinTree,
    proof: &Proof,
    steps: &mut Steps<L>,
) -> Result<Vec<[u32; 16]>, CheckFault>
    requires fits { Fits query.now tables.now }
    requires keys { length query.now.query.order ≤ R.KEYS }
    requires slots { length query.now.query.items ≤ R.ITEMS }
    requires limit { CapsBelow R.LIMIT query.now tables.now }
    requires tree { HasStoredTree query.now.query join.now }
    requires ordered { IsTree join.now.count join.now.atom join.now.parent }
    requires items { HasItems join.now.count join.now.atom (length query.now.query.items) }
    requires count { join.now.count ≡ length query.now.query.items }
    ensures checked { Pure (IsCheckedFor query.now.query tables.now (proof_view proof.now))
        (done_result_view result) }
    ensures answers { IfOk result (λ found. item_rows query.now.query found.items
        ≡ cut query.now.query.limit (ranking_of query.now.query tables.now)) }
{
    match verify::<R, L>(alloc, query, tables, join, proof, steps) {
        Ok(answers) => Ok(answers),
        Err(fault) => Err(CheckFault::Proof(fault)),
    }
}
