//! The plan of two tables that share a column, and a triangle.
ghost use Rattle.std.specs.Prelude.{◌≡◌, ◌^◌, ◌<◌, ◌≤◌, length};
ghost use Rattle.bound_query.specs.WeighedQuery.{Fits};
ghost use Rattle.tdp_core.specs.WellFormed.{IsTieFreeTree};

use crate::fixtures::{TWO, plan_of, query_of, read_two};
use bound_query::Query;
use plan_build::{Plan, PlanFault, prepare, prepare_at};
use rank_key::{Rank, SumRank};
use std::alloc::Global;
use std::marker::Brand;
use std::sync::ledger::{Blank, Ledger};
use step_counter::Steps;
use table_store::Tables;
use tdp_core::Tree;
use tree_dp::first;

/// Whether a rank has the sum 3: a key with the sum 3 and without rows is less than it, and a key
/// with the sum 4 is greater.
fn is_three<R: Rank, L: Ledger>(rank: &R, steps: &mut Steps<L>) -> bool
    requires slots { 16 ≤ R.ITEMS }
    requires limit { 2 ^ 127 ≤ R.LIMIT }
    requires keys { 1 ≤ R.KEYS }
{
    let least = R::of_row(&[3], 0, 0);
    let past = R::of_row(&[4], 0, 0);
    R::less(&least, rank, steps) && R::less(rank, &past, steps)
}

/// Whether the first two items have these rows in the first answer, and its sum is 3.
fn has_first<R: Rank, L: Ledger>(tree: &Tree<R>, rows: [u32; 2], steps: &mut Steps<L>) -> bool
    requires slots { 16 ≤ R.ITEMS }
    requires limit { 2 ^ 127 ≤ R.LIMIT }
    requires keys { 1 ≤ R.KEYS }
    requires tree { IsTieFreeTree tree.now }
{
    match first(tree, steps) {
        Some(answer) => answer.rows.starts_with(&rows) && is_three(&answer.rank, steps),
        None => false,
    }
}

/// Whether the plan of R and S has 12 rows and this first answer.
fn is_planned<R: Rank, L: Ledger>(alloc: Global, blank: Blank) -> bool
    requires slots { 16 ≤ R.ITEMS }
    requires limit { 2 ^ 127 ≤ R.LIMIT }
    requires keys { 1 ≤ R.KEYS }
    requires name { blank.name ≡ L.name }
    requires parts { blank.parts ≡ L.parts }
    requires some_part { 0 < blank.parts }
{
    let text = b"select R.a, S.c from R, S where R.b = S.b order by R.w + S.w limit 1";
    let mut steps = Steps::<L>::new(blank);
    let plan: Option<Plan<R>> = plan_of(alloc, TWO, text, &[0, 1], &mut steps);
    match plan {
        Some(plan) => plan.total() == 12 && has_first(plan.tree(), [2, 2], &mut steps),
        None => false,
    }
}

#[test]
fn plans_two_tables(rt: HostRuntime) {
    assert!(rt; is_planned::<SumRank, Brand>(rt.alloc(), Blank::new(1)));
}

/// Whether there is no plan, and three items are left.
fn leaves_three<R: Rank>(prepared: Result<Plan<R>, PlanFault>) -> bool {
    match prepared {
        Ok(_) => false,
        Err(fault) => fault == PlanFault::Cyclic(0b111),
    }
}

/// Whether the query is cyclic, with three items left, also with its last item at the root.
fn is_cyclic<R: Rank, L: Ledger>(
    alloc: Global,
    query: &Query,
    tables: &Tables,
    steps: &mut Steps<L>,
) -> bool
    requires slots { 16 ≤ R.ITEMS }
    requires limit { 2 ^ 127 ≤ R.LIMIT }
    requires fits { Fits query.now tables.now }
    requires order { length query.now.query.order ≤ R.KEYS }
{
    if query.items() != 3 {
        return false;
    }
    let whole = prepare::<R, L>(alloc, query, tables, steps);
    let rooted = prepare_at::<R, L>(alloc, query, tables, 2, steps);
    leaves_three(whole) && leaves_three(rooted)
}

/// Whether a triangle over the first table is cyclic.
fn is_triangle_cyclic<R: Rank, L: Ledger>(
    alloc: Global,
    tables: &Tables,
    steps: &mut Steps<L>,
) -> bool
    requires slots { 16 ≤ R.ITEMS }
    requires limit { 2 ^ 127 ≤ R.LIMIT }
    requires two { length tables.now ≡ 2 }
{
    let text = b"select A.a from R A, R B, R C where A.a = B.b and B.a = C.b and C.a = A.b";
    match query_of(alloc, tables, text, &[0, 0, 0], R::KEYS) {
        Some(query) => is_cyclic::<R, L>(alloc, &query, tables, steps),
        None => false,
    }
}

fn triangle_is_told<R: Rank, L: Ledger>(alloc: Global, blank: Blank) -> bool
    requires slots { 16 ≤ R.ITEMS }
    requires limit { 2 ^ 127 ≤ R.LIMIT }
    requires name { blank.name ≡ L.name }
    requires parts { blank.parts ≡ L.parts }
    requires some_part { 0 < blank.parts }
{
    let mut steps = Steps::<L>::new(blank);
    let mut tables = csv_tables::Tables::new(alloc);
    read_two(&mut tables, TWO).is_ok() && is_triangle_cyclic::<R, L>(alloc, &tables, &mut steps)
}

#[test]
fn tells_a_triangle(rt: HostRuntime) {
    assert!(rt; triangle_is_told::<SumRank, Brand>(rt.alloc(), Blank::new(1)));
}
