//! The bounds of a certificate beside the rows of a query.
ghost use Rattle.std.specs.Prelude.{◌≡◌, ◌≤◌, ◌<◌, ℕ, length, IfErr, IfOk};
ghost use Rattle.bound_query.specs.WeighedQuery.{Fits};
ghost use Rattle.bound_query.specs.JoinTreeView.{HasItems, HasStoredTree};
ghost use Rattle.join_tree.specs.Rerooting.{IsTree};
ghost use Rattle.node_build.specs.Nodes.{CapsBelow};
ghost use Rattle.proof_model.specs.ProofView.{proof_view};
ghost use Rattle.proof_model.specs.Faults.{TellsFlaw};
ghost use Rattle.proof_check.specs.BoundedRows.{IsBounded};

use crate::bounded::BoundedTree;
use crate::bounds::with_bounds;
use bound_query::Query;
use join_tree::JoinTree;
use node_build::{BuildFault, build};
use proof_model::{Proof, ProofFault};
use rank_key::Rank;
use std::alloc::Global;
use std::sync::ledger::Ledger;
use step_counter::Steps;
use table_store::Tables;

/// The greatest number of rows of all nodes of a join tree together.
const MAX_NODE_ROWS: u32 = 4_194_304;

/// The rows of a query's nodes with the bounds of a certificate. `TooManyRows` exactly if more than
/// 4,194,304 rows of all nodes pass; then `BadBound` and `BoundTwice`, each exactly if it tells the
/// first flaw. `NoMemory` if memory is refused.
pub fn bounded_tree<R: Rank, L: Ledger>(
    alloc: Global,
    query: &Query,
    tables: &Tables,
    join: &JoinTree,
    proof: &Proof,
    steps: &mut Steps<L>,
) -> Result<BoundedTree<R>, ProofFault>
    requires fits { Fits query.now tables.now }
    requires keys { length query.now.query.order ≤ R.KEYS }
    requires slots { length query.now.query.items ≤ R.ITEMS }
    requires limit { CapsBelow R.LIMIT query.now tables.now }
    requires tree { HasStoredTree query.now.query join.now }
    requires ordered { IsTree join.now.count join.now.atom join.now.parent }
    requires items { HasItems join.now.count join.now.atom (length query.now.query.items) }
    requires count { join.now.count ≡ length query.now.query.items }
    ensures bounded { IfOk result
        (IsBounded query.now.query tables.now join.now R.KEYS R.key (proof_view proof.now)) }
    ensures fault { IfErr result
        (TellsFlaw query.now.query tables.now join.now (proof_view proof.now)) }
{
    match build(alloc, query, tables, join, MAX_NODE_ROWS as u64, steps) {
        Ok(built) => {
            // for the proof: the tree is well formed
            let _nodes = built.tree.nodes();
            with_bounds(alloc, query, tables, join, built.tree, proof, steps)
        }
        Err(BuildFault::TooManyRows(_)) => Err(ProofFault::TooManyRows(MAX_NODE_ROWS)),
        Err(BuildFault::NoMemory) => Err(ProofFault::NoMemory),
    }
}
