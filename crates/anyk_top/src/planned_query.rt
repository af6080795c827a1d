//! A query with its plan.
use bound_query::Query;
use plan_build::Plan;
use rank_key::Rank;
use table_store::Tables;

/// A query over its tables, with its plan, and the item of which each row's best answer is asked
/// for, if one is named.
#[derive(Drop)]
pub struct PlannedQuery<'p, R: Rank> {
    pub plan: &'p Plan<R>,
    pub query: &'p Query,
    pub tables: &'p Tables,
    /// From 0; none if no item is named.
    pub best: Option<u32>,
}

/// Several queries over the same tables, each with its plan at the same place.
#[derive(Drop)]
pub struct PlannedQueries<'p, R: Rank> {
    pub plans: &'p [Plan<R>],
    pub queries: &'p [Query],
    pub tables: &'p Tables,
}
