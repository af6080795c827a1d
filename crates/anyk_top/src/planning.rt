//! The plans of the queries of an input.
ghost use Rattle.std.specs.Prelude.{◌≡◌, ◌<◌, ◌≤◌, None, true, IfOk, IfSome, length};
ghost use Rattle.std.specs.List.{All};
ghost use Rattle.command_input.specs.Input.{loaded_of};
ghost use Rattle.node_build.specs.Nodes.{CapsBelow};
ghost use Rattle.plan_build.specs.Plans.{ArePrepared, HavePlans};
ghost use Rattle.bound_query.specs.WeighedQuery.{Fits};
ghost use Rattle.refusals.specs.RefusalReasons.{reason_of};
ghost use Rattle.bound_query.specs.RunBounds.{IsPrepared};
ghost use Rattle.verdict.specs.AcceptedInput.{queries_in};
ghost use Rattle.verdict.specs.StageResults.{Pure};
ghost use Rattle.verdict.specs.Verdict.{AreStructures, IsShaped, IsStructure};
ghost use Rattle.anyk_top.specs.Plans.{ArePlans, plan_reason};
ghost use Rattle.anyk_top.specs.Plans.{plans_result_view, planned_result_view, several_result_view, shapes_result_view};

use bound_query::Query;
use command_input::Input;
use plan_build::{
    Plan, PlanFault, RankedPlan, have_packed_room, have_places, prepare, prepare_ranked,
};
use rank_key::{LexRank, MiddleSumRank, PackedRank, Rank, SumRank, WidePackedRank};
use refusals::Refusal;
use std::alloc::{AllocError, AllocFailed, Global};
use std::sync::ledger::Ledger;
use step_counter::Steps;
use table_store::Tables;

/// The plans of an input's queries, with the ranks that their order needs.
#[derive(Drop)]
pub enum Plans {
    /// The plan of the one query.
    One(RankedPlan),
    /// The plans of several queries in order, with ranks in one number.
    PackedSums(Vec<Plan<PackedRank>>),
    /// The plans of several queries in order, with ranks in two numbers, for at most seven items.
    WidePackedSums(Vec<Plan<WidePackedRank>>),
    /// The plans of several queries in order, with ranks of one sum, for at most eight items.
    MiddleSums(Vec<Plan<MiddleSumRank>>),
    /// The plans of several queries in order, with ranks of one sum, for up to 16 items.
    Sums(Vec<Plan<SumRank>>),
    /// The plans of several queries in order, with ranks of eight sums.
    Lexes(Vec<Plan<LexRank>>),
}

/// The plans of the input's queries, or the first refusal: `Cyclic` if a query has no join tree, and
/// `TooManyNodeRows` if more of its rows pass than the limit, in all nodes together.
pub fn plan_input<'a, L: Ledger>(
    alloc: Global,
    input: &Input,
    steps: &mut Steps<L>,
) -> Result<Plans, Refusal<'a>>
    ensures judged { Pure (IsShaped (loaded_of input.now))
        (planned_result_view (loaded_of input.now) result) }
    ensures plans { IfOk result (ArePlans input.now) }
    ensures cost { ArePrepared (queries_in input.now.queries) input.now.tables steps.old steps.new }
{
    match plans_of(alloc, input, steps) {
        Ok(plans) => Ok(plans),
        Err(unplanned) => Err(plan_refusal(unplanned.branch, unplanned.fault)),
    }
}

/// Why queries have no plans.
#[derive(Clone, Copy)]
struct Unplanned {
    /// The branch of the query that has none, from 1; none if no branch is told.
    branch: Option<u32>,
    /// What is wrong with it, or that memory was refused.
    fault: PlanFault,
}

impl From<AllocError> for Unplanned {
    ghost use Rattle.std.specs.Prelude.{◌≡◌};
    ghost use Rattle.plan_build.specs.declared.fault.PlanFault.TheVariants.{NoMemory};

    ghost from_gives = { λ _ u. u.fault ≡ NoMemory };

    fn from(_error: AllocError) -> Self {
        Unplanned {
            branch: None,
            fault: PlanFault::NoMemory,
        }
    }
}

impl<T: Drop> From<AllocFailed<T>> for Unplanned {
    ghost use Rattle.std.specs.Prelude.{◌≡◌};
    ghost use Rattle.plan_build.specs.declared.fault.PlanFault.TheVariants.{NoMemory};

    ghost from_gives = { λ _ u. u.fault ≡ NoMemory };

    fn from(_error: AllocFailed<T>) -> Self {
        Unplanned {
            branch: None,
            fault: PlanFault::NoMemory,
        }
    }
}

/// The plans of the input's queries, or the first fault in their order.
fn plans_of<L: Ledger>(
    alloc: Global,
    input: &Input,
    steps: &mut Steps<L>,
) -> Result<Plans, Unplanned>
    ensures shaped { Pure (IsShaped (loaded_of input.now))
        (plans_result_view (loaded_of input.now) result) }
    ensures plans { IfOk result (ArePlans input.now) }
    ensures cost { ArePrepared (queries_in input.now.queries) input.now.tables steps.old steps.new }
{
    let queries = input.queries.as_slice();
    let first = &queries[0];
    if queries.len() == 1 {
        return match prepare_ranked(alloc, first, &input.tables, input.best, steps) {
            Ok(plan) => Ok(Plans::One(plan)),
            Err(fault) => Err(Unplanned {
                branch: None,
                fault,
            }),
        };
    }
    if have_packed_room(queries, 4) {
        Ok(Plans::PackedSums(plans_for(alloc, input, steps)?))
    } else if have_packed_room(queries, 7) {
        Ok(Plans::WidePackedSums(plans_for(alloc, input, steps)?))
    } else if have_places(queries, 1, 8) {
        Ok(Plans::MiddleSums(plans_for(alloc, input, steps)?))
    } else if first.keys() <= 1 {
        Ok(Plans::Sums(plans_for(alloc, input, steps)?))
    } else {
        Ok(Plans::Lexes(plans_for(alloc, input, steps)?))
    }
}

/// The plans of the input's queries, of which there are several, by one rank type that has room for
/// each of them. The fault is that of the first query that has none, with its number.
fn plans_for<R: Rank, L: Ledger>(
    alloc: Global,
    input: &Input,
    steps: &mut Steps<L>,
) -> Result<Vec<Plan<R>>, Unplanned>
    requires several { 1 < length input.now.queries }
    requires keys { All (λ q. length q.query.order ≤ R.KEYS) input.now.queries }
    requires slots { R.ITEMS < 16 → All (λ q. length q.query.items ≤ R.ITEMS) input.now.queries }
    requires limit { All (λ q. CapsBelow R.LIMIT q input.now.tables) input.now.queries }
    ensures shaped { Pure (IsShaped (loaded_of input.now))
        (several_result_view (loaded_of input.now) result) }
    ensures plans { IfOk result
        (λ v. HavePlans R.KEYS R.key input.now.tables input.now.queries v.items) }
    ensures cost { ArePrepared (queries_in input.now.queries) input.now.tables steps.old steps.new }
{
    plans_over(alloc, &input.queries, &input.tables, steps)
}

/// The plan of each of several queries, by one rank type. The fault is that of the first query that
/// has none, with its number.
fn plans_over<R: Rank, L: Ledger>(
    alloc: Global,
    queries: &[Query],
    tables: &Tables,
    steps: &mut Steps<L>,
) -> Result<Vec<Plan<R>>, Unplanned>
    requires few { length queries.now ≤ 8 }
    requires fits { All (λ q. Fits q tables.now) queries.now }
    requires keys { All (λ q. length q.query.order ≤ R.KEYS) queries.now }
    requires slots { R.ITEMS < 16 → All (λ q. length q.query.items ≤ R.ITEMS) queries.now }
    requires limit { All (λ q. CapsBelow R.LIMIT q tables.now) queries.now }
    ensures shaped { let all = queries_in queries.now in
        Pure (AreStructures true 1 tables.now all) (shapes_result_view result) }
    ensures plans { IfOk result (λ v. HavePlans R.KEYS R.key tables.now queries.now v.items) }
    ensures cost { ArePrepared (queries_in queries.now) tables.now steps.old steps.new }
{
    let mut plans = Vec::with_capacity(alloc, queries.len())?;
    for query in queries {
        // for the proof: there are at most 16 items
        let _items = query.items();
        match prepare(alloc, query, tables, steps) {
            Ok(plan) => plans.push(plan)?,
            Err(fault) => {
                let branch = plans.len() as u32 + 1;
                return Err(Unplanned {
                    branch: Some(branch),
                    fault,
                });
            }
        }
    }
    Ok(plans)
}

/// The refusal of the query of this branch, from 1, or of the one query if no branch is told.
fn plan_refusal<'a>(branch: Option<u32>, fault: PlanFault) -> Refusal<'a>
    ensures { reason_of result ≡ plan_reason branch fault }
{
    match fault {
        PlanFault::Cyclic(core) => Refusal::Cyclic { branch, core },
        PlanFault::TooManyRows(_most) => Refusal::TooManyNodeRows,
        PlanFault::NoMemory => Refusal::NoMemory,
    }
}
