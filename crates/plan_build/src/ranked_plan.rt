//! The plan of a query, with ranks that have room for its order keys.
ghost use Rattle.std.specs.Prelude.{◌↔◌, ◌^◌, ◌<◌, ◌≤◌, IfErr, IfOk, IfSome, IsTrue, List, length};
ghost use Rattle.std.specs.List.{All};
ghost use Rattle.anyk_model.specs.Table.{Table};
ghost use Rattle.bound_query.specs.WeighedQuery.{Fits};
ghost use Rattle.node_build.specs.Nodes.{CapsBelow};
ghost use Rattle.bound_query.specs.RunBounds.{IsPrepared};
ghost use Rattle.plan_build.specs.Making.{FitsRanks};
ghost use Rattle.plan_build.specs.Plan.{IsPlanOf};
ghost use Rattle.plan_build.specs.Faults.{TellsFlaw};
ghost use Rattle.plan_build.specs.RankedPlan.{HasLeastRoom, HasPlaces, HasRoom, IsRankedPlan, packed_room};

use crate::fault::PlanFault;
use crate::plan::{Plan, prepare, prepare_at};
use bound_query::Query;
use rank_key::{LexRank, MiddleSumRank, PackedRank, Rank, SmallLexRank, SumRank, WidePackedRank};
use std::alloc::Global;
use std::sync::ledger::Ledger;
use step_counter::Steps;
use table_store::Tables;

/// The sums of packed ranks are below this in absolute value.
const PACKED_LIMIT: u128 = 1 << 43;

/// A query's plan, with the smallest ranks that have room for its order keys and its items.
#[derive(Drop)]
pub enum RankedPlan {
    /// Ranks of one sum below 2^43, for an order of at most one key, and of at most four items, in
    /// one number.
    Packed(Plan<PackedRank>),
    /// The same for at most seven items, in two numbers.
    WidePacked(Plan<WidePackedRank>),
    /// Ranks of one sum, for at most eight items.
    MiddleSum(Plan<MiddleSumRank>),
    /// Ranks of one sum, for up to 16 items.
    Sum(Plan<SumRank>),
    /// Ranks of two sums, for an order of at most two keys, and of at most four items.
    SmallLex(Plan<SmallLexRank>),
    /// Ranks of eight sums, for an order of up to eight keys, and of up to 16 items.
    Lex(Plan<LexRank>),
}

/// The plan of a query over the tables to which it is bound, with this item, counted from 0, at the
/// root if one is given, and with the smallest ranks that have room for the order keys and the
/// items. Its errors and its steps are those of `prepare`.
pub fn prepare_ranked<L: Ledger>(
    alloc: Global,
    query: &Query,
    tables: &Tables,
    item: Option<u32>,
    steps: &mut Steps<L>,
) -> Result<RankedPlan, PlanFault>
    requires fits { Fits query.now tables.now }
    requires item { IfSome item (λ i. i < length query.now.query.items) }
    ensures plan { IfOk result (IsRankedPlan query.now tables.now item) }
    ensures smallest { IfOk result (HasLeastRoom query.now tables.now) }
    ensures refusal { IfErr result (TellsFlaw query.now.query tables.now) }
    ensures cost { IsPrepared query.now.query tables.now steps.old steps.new }
{
    // for the proof: there are at most 8 order keys
    let _keys = query.keys();
    // for the proof: there are at most 16 items
    let _items = query.items();
    if has_packed_room(query, 4) {
        match prepare_of(alloc, query, tables, item, steps) {
            Ok(plan) => Ok(RankedPlan::Packed(plan)),
            Err(fault) => Err(fault),
        }
    } else if has_packed_room(query, 7) {
        match prepare_of(alloc, query, tables, item, steps) {
            Ok(plan) => Ok(RankedPlan::WidePacked(plan)),
            Err(fault) => Err(fault),
        }
    } else if has_places(query, 1, 8) {
        match prepare_of(alloc, query, tables, item, steps) {
            Ok(plan) => Ok(RankedPlan::MiddleSum(plan)),
            Err(fault) => Err(fault),
        }
    } else if has_places(query, 2, 4) {
        match prepare_of(alloc, query, tables, item, steps) {
            Ok(plan) => Ok(RankedPlan::SmallLex(plan)),
            Err(fault) => Err(fault),
        }
    } else if has_places(query, 1, 16) {
        match prepare_of(alloc, query, tables, item, steps) {
            Ok(plan) => Ok(RankedPlan::Sum(plan)),
            Err(fault) => Err(fault),
        }
    } else {
        match prepare_of(alloc, query, tables, item, steps) {
            Ok(plan) => Ok(RankedPlan::Lex(plan)),
            Err(fault) => Err(fault),
        }
    }
}

/// Whether packed ranks of so many slots have room for each of the queries.
pub fn have_packed_room(queries: &[Query], slots: u32) -> bool
    requires { (tables : List Table) × All (λ q. Fits q tables) queries.now }
    ensures { (tables : List Table) → All (λ q. Fits q tables) queries.now
        → IsTrue result ↔ All (λ q. HasRoom q tables (packed_room slots)) queries.now }
{
    for query in queries {
        if !has_packed_room(query, slots) {
            return false;
        }
    }
    true
}

/// Whether each of the queries has at most so many order keys, and at most so many items.
pub fn have_places(queries: &[Query], sums: u32, slots: u32) -> bool
    ensures { IsTrue result ↔ All (λ q. HasPlaces q sums slots) queries.now }
{
    for query in queries {
        if !has_places(query, sums, slots) {
            return false;
        }
    }
    true
}

/// Whether packed ranks of so many slots have room for the query.
fn has_packed_room(query: &Query, slots: u32) -> bool
    requires { (tables : List Table) × Fits query.now tables }
    ensures { (tables : List Table) → Fits query.now tables
        → IsTrue result ↔ HasRoom query.now tables (packed_room slots) }
{
    has_places(query, 1, slots) && has_small_sums(query)
}

/// Whether there are as many sums as order keys, and as many slots as items.
fn has_places(query: &Query, sums: u32, slots: u32) -> bool
    ensures { IsTrue result ↔ HasPlaces query.now sums slots }
{
    query.keys() <= sums && query.items() <= slots
}

/// Whether the caps of all items add up to less than 2^43, for an order of at most one key.
fn has_small_sums(query: &Query) -> bool
    requires fits { (tables : List Table) × Fits query.now tables }
    requires keys { length query.now.query.order ≤ 1 }
    ensures { (tables : List Table) → Fits query.now tables
        → IsTrue result ↔ CapsBelow (2 ^ 43) query.now tables }
{
    if query.keys() == 0 {
        return true;
    }
    let mut sum = 0;
    for item in 0..query.items() {
        sum += query.cap(item, 0);
    }
    sum < PACKED_LIMIT
}

/// The plan with this item at the root if one is given.
fn prepare_of<R: Rank, L: Ledger>(
    alloc: Global,
    query: &Query,
    tables: &Tables,
    item: Option<u32>,
    steps: &mut Steps<L>,
) -> Result<Plan<R>, PlanFault>
    requires ranks { FitsRanks R.KEYS R.ITEMS R.LIMIT query.now tables.now }
    requires item { IfSome item (λ i. i < length query.now.query.items) }
    ensures plan { IfOk result (IsPlanOf R.KEYS R.key query.now tables.now item) }
    ensures refusal { IfErr result (TellsFlaw query.now.query tables.now) }
    ensures cost { IsPrepared query.now.query tables.now steps.old steps.new }
{
    match item {
        Some(item) => prepare_at(alloc, query, tables, item, steps),
        None => prepare(alloc, query, tables, steps),
    }
}
