//! The command `plan`.
ghost use Rattle.plan_build.specs.Plan.{IsPlanFor, shape_of};
ghost use Rattle.bound_query.specs.Report.{report_of};
ghost use Rattle.outer_io.specs.Printing.{Printed};
ghost use Rattle.outer_io.specs.SinkState.{state_of};
ghost use Rattle.verdict.specs.Silence.{IsSilent};

use crate::once::print_once;
use bound_query::Query;
use outer_io::{PrintFault, Sink};
use plan_build::{Plan, report};
use rank_key::Rank;
use std::alloc::Global;
use table_store::Tables;

/// Prints the report of the plan's join tree. `NoMemory` if memory is refused, before anything is
/// written, and `Write` if the write failed.
pub fn print_report<R: Rank, S: Sink>(
    alloc: Global,
    plan: &Plan<R>,
    query: &Query,
    tables: &Tables,
    out: &mut S,
) -> Result<(), PrintFault>
    requires plan { IsPlanFor R.KEYS R.key query.now tables.now plan.now }
    ensures printed { Printed (state_of S.Sink out.old) (state_of S.Sink out.new)
        (report_of query.now.query tables.now (shape_of plan.now)) result }
    ensures silent { IsSilent (state_of S.Sink out.old) (state_of S.Sink out.new) result }
{
    let text = report(alloc, plan, query, tables)?;
    print_once(out, &text)
}
