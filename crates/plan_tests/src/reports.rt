//! The reports of two tables that share a column, and of a table that is joined to itself.
ghost use Rattle.std.specs.Prelude.{◌≡◌, ◌<◌, ◌≤◌, IfSome, Option, length, ℕ};
ghost use Rattle.std.specs.List.{AllByRecursion};
ghost use Rattle.bound_query.specs.WeighedQuery.{Fits};
ghost use Rattle.plan_build.specs.Plan.{IsPlanFor};
ghost use Rattle.plan_build.specs.RankedPlan.{IsRankedPlan};

use crate::fixtures::{TWO, query_of, read_two};
use bound_query::Query;
use plan_build::{Plan, RankedPlan, prepare_ranked, report};
use rank_key::Rank;
use std::alloc::Global;
use std::marker::Brand;
use std::sync::ledger::{Blank, Ledger};
use step_counter::Steps;
use table_store::Tables;

/// Whether the plan's report is the expected one.
fn has_report<R: Rank>(
    alloc: Global,
    plan: &Plan<R>,
    query: &Query,
    tables: &Tables,
    expected: &[u8],
) -> bool
    requires plan { IsPlanFor R.KEYS R.key query.now tables.now plan.now }
{
    match report(alloc, plan, query, tables) {
        Ok(lines) => lines.as_slice() == expected,
        Err(_) => false,
    }
}

/// The same, by whichever ranks it is.
fn is_reported(
    alloc: Global,
    plan: &RankedPlan,
    query: &Query,
    tables: &Tables,
    expected: &[u8],
) -> bool
    requires plan { (item : Option ℕ) × IsRankedPlan query.now tables.now item plan.now }
{
    match plan {
        RankedPlan::Packed(plan) => has_report(alloc, plan, query, tables, expected),
        RankedPlan::WidePacked(plan) => has_report(alloc, plan, query, tables, expected),
        RankedPlan::MiddleSum(plan) => has_report(alloc, plan, query, tables, expected),
        RankedPlan::Sum(plan) => has_report(alloc, plan, query, tables, expected),
        RankedPlan::SmallLex(plan) => has_report(alloc, plan, query, tables, expected),
        RankedPlan::Lex(plan) => has_report(alloc, plan, query, tables, expected),
    }
}

/// The same of the plan of this query, with this item at the root if one is given.
fn reports_at<L: Ledger>(
    alloc: Global,
    query: &Query,
    tables: &Tables,
    item: Option<u32>,
    expected: &[u8],
    steps: &mut Steps<L>,
) -> bool
    requires fits { Fits query.now tables.now }
    requires item { IfSome item (λ i. i < length query.now.query.items) }
{
    match prepare_ranked(alloc, query, tables, item, steps) {
        Ok(plan) => is_reported(alloc, &plan, query, tables, expected),
        Err(_) => false,
    }
}

/// The same of the plan of this query, whichever item is at the root.
fn reports_query<L: Ledger>(
    alloc: Global,
    query: &Query,
    tables: &Tables,
    expected: &[u8],
    steps: &mut Steps<L>,
) -> bool
    requires fits { Fits query.now tables.now }
{
    for item in 0..query.items() {
        if !reports_at(alloc, query, tables, Some(item), expected, steps) {
            return false;
        }
    }
    reports_at(alloc, query, tables, None, expected, steps)
}

/// The same of the query of this text.
fn reports_text<L: Ledger>(
    alloc: Global,
    tables: &Tables,
    text: &[u8],
    which: &[u32],
    expected: &[u8],
    steps: &mut Steps<L>,
) -> bool
    requires few { length which.now ≤ 16 }
    requires known { AllByRecursion (λ t. t < length tables.now) which.now }
{
    match query_of(alloc, tables, text, which, 8) {
        Some(query) => reports_query(alloc, &query, tables, expected, steps),
        None => false,
    }
}

/// The same over R and S.
fn reports<L: Ledger>(
    alloc: Global,
    text: &[u8],
    which: &[u32],
    expected: &[u8],
    blank: Blank,
) -> bool
    requires few { length which.now ≤ 16 }
    requires known { AllByRecursion (λ t. t < 2) which.now }
    requires name { blank.name ≡ L.name }
    requires parts { blank.parts ≡ L.parts }
    requires some_part { 0 < blank.parts }
{
    let mut steps = Steps::<L>::new(blank);
    let mut tables = csv_tables::Tables::new(alloc);
    if read_two(&mut tables, TWO).is_err() {
        return false;
    }
    reports_text(alloc, &tables, text, which, expected, &mut steps)
}

#[test]
fn reports_a_path(rt: HostRuntime) {
    let text = b"select R.a, S.c from R, S where R.b = S.b order by R.w + S.w";
    let path = b"node 1 parent 0 rows 3 item R\nnode 2 parent 1 rows 3 item S\ntotal 12\n";
    assert!(rt; reports::<Brand>(rt.alloc(), text, &[0, 1], path, Blank::new(1)));
}

#[test]
fn reports_a_path_by_two_keys(rt: HostRuntime) {
    let text = b"select R.a, S.c from R, S where R.b = S.b order by R.w, S.w";
    let path = b"node 1 parent 0 rows 3 item R\nnode 2 parent 1 rows 3 item S\ntotal 12\n";
    assert!(rt; reports::<Brand>(rt.alloc(), text, &[0, 1], path, Blank::new(1)));
}

/// A table counts once for each item, and rows that fail the test by the constant are not node
/// rows.
#[test]
fn reports_a_table_joined_to_itself(rt: HostRuntime) {
    let text = b"select \"x y\".a from R \"x y\", R b where \"x y\".b = b.b and b.a = '2'";
    let twice = b"node 1 parent 0 rows 3 item \"x y\"\nnode 2 parent 1 rows 1 item b\ntotal 10\n";
    assert!(rt; reports::<Brand>(rt.alloc(), text, &[0, 0], twice, Blank::new(1)));
}

#[test]
fn reports_the_rows_with_a_constant(rt: HostRuntime) {
    let text = b"select R.a from R, S where R.a = S.c and S.b = 'y'";
    let one = b"node 1 parent 0 rows 3 item R\nnode 2 parent 1 rows 1 item S\ntotal 10\n";
    assert!(rt; reports::<Brand>(rt.alloc(), text, &[0, 1], one, Blank::new(1)));
}
