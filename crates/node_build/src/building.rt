//! Building the raw tree of a query.
ghost use Rattle.std.specs.Prelude.{◌≡◌, ◌<◌, ◌≤◌, ◌+◌, ◌*◌, ◌^◌, length, map, sum, IfErr, IfOk};
ghost use Rattle.tdp_model.specs.NodeRows.{most_node_rows};
ghost use Rattle.tdp_core.specs.RawView.{row_total};
ghost use Rattle.tdp_core.specs.Solutions.{IsTieFreeRaw};
ghost use Rattle.anyk_model.specs.Query.{row_counts};
ghost use Rattle.bound_query.specs.KeyParts.{sum_of_all};
ghost use Rattle.bound_query.specs.WeighedQuery.{Fits};
ghost use Rattle.node_build.specs.Nodes.{CapsBelow, IsBuilt, IsJoinTreeOf, TellsFault};

use crate::built::{BuildFault, Built};
use crate::filling::filled_tree;
use crate::rows::{counts_of, rows_of_nodes};
use bound_query::Query;
use join_tree::JoinTree;
use rank_key::Rank;
use std::alloc::Global;
use std::sync::ledger::Ledger;
use step_counter::Steps;
use table_store::Tables;

/// The sum of some numbers.
fn sum_of(numbers: &[u64]) -> u64
    requires { sum numbers.now < 2 ^ 64 }
    ensures { result ≡ sum numbers.now }
{
    numbers.iter().sum()
}

/// The raw tree of a query over the tables to which it is bound. It has one node for each node of
/// the join tree, in the same order, with the rows of the node's item that pass, ascending.
/// `TooManyRows` exactly if all nodes together have more rows than the budget, and `NoMemory` if
/// memory is refused.
pub fn build<R: Rank, L: Ledger>(
    alloc: Global,
    query: &Query,
    tables: &Tables,
    join: &JoinTree,
    budget: u64,
    steps: &mut Steps<L>,
) -> Result<Built<R>, BuildFault>
    requires fits { Fits query.now tables.now }
    requires keys { length query.now.query.order ≤ R.KEYS }
    requires slots { length query.now.query.items ≤ R.ITEMS }
    requires limit { CapsBelow R.LIMIT query.now tables.now }
    requires tree { IsJoinTreeOf query.now.query join.now }
    requires budget { budget ≤ most_node_rows }
    ensures built { IfOk result
        (λ built. IsBuilt query.now tables.now R.KEYS R.key join.now built.tree) }
    ensures tie_free { IfOk result (λ built. IsTieFreeRaw built.tree) }
    ensures rows_of { IfOk result (λ built. built.rows_of.items ≡ map length built.tree.rows) }
    ensures used { IfOk result (λ built. built.used ≡ row_total built.tree) }
    ensures within { IfOk result (λ built. built.used ≤ budget) }
    ensures fewer { IfOk result
        (λ built. built.used ≤ sum_of_all (row_counts query.now.query.items tables.now)) }
    ensures refusal { IfErr result (TellsFault query.now tables.now join.now budget) }
    ensures cost { steps.new
        ≤ steps.old + length query.now.query.items
        * sum_of_all (row_counts query.now.query.items tables.now) }
{
    // for the proof: there are at most 16 tables, and each is sound
    let _count = tables.count();
    let rows = rows_of_nodes(alloc, query, tables, join)?;
    let rows_of = counts_of(alloc, rows.as_slice())?;
    let used = sum_of(rows_of.as_slice());
    if used > budget {
        return Err(BuildFault::TooManyRows(budget));
    }
    let tree = filled_tree(alloc, query, tables, join, rows.as_slice(), steps)?;
    Ok(Built {
        tree,
        rows_of,
        used,
    })
}
