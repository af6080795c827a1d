//! What is left of the conditions of trees and plans if their ranks have all 16 slots: a tree needs
//! its shapes, and a plan ranks with a sum for each order key.
ghost use Rattle.std.specs.Prelude.{◌≡◌, ◌≤◌, [], length, replicate, IfErr, IfOk};
ghost use Rattle.bound_query.specs.RunBounds.{IsPrepared};
ghost use Rattle.bound_query.specs.WeighedQuery.{Fits};
ghost use Rattle.node_build.specs.Nodes.{CapsBelow};
ghost use Rattle.plan_build.specs.Faults.{TellsFlaw};
ghost use Rattle.plan_build.specs.Plan.{IsPlan};
ghost use Rattle.tdp_core.specs.RawView.{AreShapes};

use crate::fault::PlanFault;
use crate::plan::{Plan, prepare};
use bound_query::Query;
use rank_key::{FixedRank, Rank};
use std::alloc::Global;
use std::sync::ledger::Ledger;
use step_counter::{NoMemory, Steps};
use table_store::Tables;
use tdp_core::{NodeShape, RawTree};

/// A tree without rows whose ranks have all 16 slots. `NoMemory` if memory is refused.
pub fn wide_tree<const N: usize>(
    alloc: Global,
    shapes: &[NodeShape],
) -> Result<RawTree<FixedRank<N, 16>>, NoMemory>
    requires { AreShapes shapes.now }
    ensures { IfOk result
        (λ t. t ≡ record { shapes = shapes.now; rows = replicate (length shapes.now) [] }) }
{
    RawTree::new(alloc, shapes)
}

/// What `build`, `prepare`, `prepare_at` and `verify` ask of ranks beyond a sum for each order key:
/// ranks with all 16 slots meet it for each query over the tables to which it is bound.
pub fn fits_wide_ranks<const N: usize>(query: &Query, tables: &Tables)
    requires { Fits query.now tables.now }
    ensures slots { length query.now.query.items ≤ ⟦<FixedRank<N, 16> as Rank>⟧.ITEMS }
    ensures limit { CapsBelow ⟦<FixedRank<N, 16> as Rank>⟧.LIMIT query.now tables.now }
{
    // for the proof: there are at most 16 items
    let _items = query.items();
}

/// The plan of a query over the tables to which it is bound, with ranks of all 16 slots. Its errors
/// and its steps are those of `prepare`.
pub fn prepare_wide<const N: usize, L: Ledger>(
    alloc: Global,
    query: &Query,
    tables: &Tables,
    steps: &mut Steps<L>,
) -> Result<Plan<FixedRank<N, 16>>, PlanFault>
    requires fits { Fits query.now tables.now }
    requires keys { length query.now.query.order ≤ N }
    ensures plan { IfOk result
        (IsPlan N ⟦<FixedRank<N, 16> as Rank>⟧.key query.now tables.now) }
    ensures refusal { IfErr result (TellsFlaw query.now.query tables.now) }
    ensures cost { IsPrepared query.now.query tables.now steps.old steps.new }
{
    fits_wide_ranks::<N>(query, tables);
    prepare(alloc, query, tables, steps)
}
