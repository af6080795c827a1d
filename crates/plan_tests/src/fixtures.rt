//! Small tables, small queries over them, and their plans.
ghost use Rattle.std.specs.Prelude.{◌≡◌, ◌^◌, ◌<◌, ◌≤◌, [], IfSome, OnOk, length};
ghost use Rattle.std.specs.List.{AllByRecursion};
ghost use Rattle.bound_query.specs.WeighedQuery.{Fits};
ghost use Rattle.tdp_core.specs.WellFormed.{IsTieFreeTree};

use bound_query::Query;
use csv_tables::TableFault;
use plan_build::{Plan, prepare, prepare_at};
use query_bind::bind;
use query_parse::parse;
use query_select::Select;
use rank_key::Rank;
use std::alloc::Global;
use std::sync::ledger::Ledger;
use step_counter::Steps;
use table_store::Tables;
use tdp_core::Answer;

/// The texts of two tables.
pub(crate) type Files = (&'static str, &'static str);

/// The tables R and S.
pub(crate) const TWO: Files = (
    "a,b,w\n1,x,3\n2,y,1\n3,x,1\n",
    "b,c,w\nx,p,5\ny,q,2\nx,q,4\n",
);

/// Reads the tables of two small files.
pub(crate) fn read_two(tables: &mut csv_tables::Tables, files: Files) -> Result<(), TableFault>
    requires { tables.old ≡ [] }
    ensures { OnOk result (length tables.new ≡ 2) }
{
    if files.0.len() > 1000 || files.1.len() > 1000 {
        return Err(TableFault::NoMemory);
    }
    tables.read(files.0.as_bytes())?;
    tables.read(files.1.as_bytes())?;
    Ok(())
}

/// The query bound to the tables; `which` names the table of each item. `None` if `which` has
/// another length than its items, or if it cannot be bound.
fn bound(alloc: Global, tables: &Tables, select: &Select, which: &[u32]) -> Option<Query>
    requires few { length which.now ≤ 16 }
    requires known { AllByRecursion (λ t. t < length tables.now) which.now }
    ensures fits { IfSome result (λ query. Fits query tables.now) }
{
    let items = select.items.as_slice().len();
    if items == 0 || items != which.len() || select.keys.as_slice().len() > 8 {
        return None;
    }
    bind(alloc, select, tables, which).ok()
}

/// The same for the query of this text.
fn bound_text(alloc: Global, tables: &Tables, text: &[u8], which: &[u32]) -> Option<Query>
    requires few { length which.now ≤ 16 }
    requires known { AllByRecursion (λ t. t < length tables.now) which.now }
    ensures fits { IfSome result (λ query. Fits query tables.now) }
{
    match parse(alloc, text) {
        Ok(select) => bound(alloc, tables, &select, which),
        Err(_) => None,
    }
}

/// The query of this text bound to the tables, if it has at most this many keys.
pub(crate) fn query_of(
    alloc: Global,
    tables: &Tables,
    text: &[u8],
    which: &[u32],
    keys: usize,
) -> Option<Query>
    requires few { length which.now ≤ 16 }
    requires known { AllByRecursion (λ t. t < length tables.now) which.now }
    ensures fits { IfSome result (λ query. Fits query tables.now) }
    ensures keys { IfSome result (λ query. length query.query.order ≤ keys) }
{
    let query = bound_text(alloc, tables, text, which)?;
    if query.keys() as usize > keys {
        return None;
    }
    Some(query)
}

/// The plan of the query of this text over the tables.
fn plan_over<R: Rank, L: Ledger>(
    alloc: Global,
    tables: &Tables,
    text: &[u8],
    which: &[u32],
    steps: &mut Steps<L>,
) -> Option<Plan<R>>
    requires slots { 16 ≤ R.ITEMS }
    requires limit { 2 ^ 127 ≤ R.LIMIT }
    requires few { length which.now ≤ 16 }
    requires known { AllByRecursion (λ t. t < length tables.now) which.now }
    ensures tie_free { IfSome result (λ plan. IsTieFreeTree plan.tree) }
{
    let query = query_of(alloc, tables, text, which, R::KEYS)?;
    match prepare(alloc, &query, tables, steps) {
        Ok(plan) => Some(plan),
        Err(_) => None,
    }
}

/// The plan of the query of this text over the tables of two files.
pub(crate) fn plan_of<R: Rank, L: Ledger>(
    alloc: Global,
    files: Files,
    text: &[u8],
    which: &[u32],
    steps: &mut Steps<L>,
) -> Option<Plan<R>>
    requires slots { 16 ≤ R.ITEMS }
    requires limit { 2 ^ 127 ≤ R.LIMIT }
    requires few { length which.now ≤ 16 }
    requires known { AllByRecursion (λ t. t < 2) which.now }
    ensures tie_free { IfSome result (λ plan. IsTieFreeTree plan.tree) }
{
    let mut tables = csv_tables::Tables::new(alloc);
    read_two(&mut tables, files).ok()?;
    plan_over(alloc, &tables, text, which, steps)
}

/// The plan of the query of this text over the tables, with this item at the root.
fn plan_over_at<R: Rank, L: Ledger>(
    alloc: Global,
    tables: &Tables,
    text: &[u8],
    which: &[u32],
    item: u32,
    steps: &mut Steps<L>,
) -> Option<Plan<R>>
    requires slots { 16 ≤ R.ITEMS }
    requires limit { 2 ^ 127 ≤ R.LIMIT }
    requires few { length which.now ≤ 16 }
    requires known { AllByRecursion (λ t. t < length tables.now) which.now }
    ensures tie_free { IfSome result (λ plan. IsTieFreeTree plan.tree) }
{
    let query = query_of(alloc, tables, text, which, R::KEYS)?;
    if item >= query.items() {
        return None;
    }
    match prepare_at(alloc, &query, tables, item, steps) {
        Ok(plan) => Some(plan),
        Err(_) => None,
    }
}

/// The plan of the query of this text over the tables of two files, with this item at the root.
pub(crate) fn plan_at<R: Rank, L: Ledger>(
    alloc: Global,
    files: Files,
    text: &[u8],
    which: &[u32],
    item: u32,
    steps: &mut Steps<L>,
) -> Option<Plan<R>>
    requires slots { 16 ≤ R.ITEMS }
    requires limit { 2 ^ 127 ≤ R.LIMIT }
    requires few { length which.now ≤ 16 }
    requires known { AllByRecursion (λ t. t < 2) which.now }
    ensures tie_free { IfSome result (λ plan. IsTieFreeTree plan.tree) }
{
    let mut tables = csv_tables::Tables::new(alloc);
    read_two(&mut tables, files).ok()?;
    plan_over_at(alloc, &tables, text, which, item, steps)
}

/// Whether there is an answer, and its first items have these rows.
pub(crate) fn has_rows<R: Rank>(answer: Option<Answer<R>>, rows: &[u32; 4]) -> bool {
    let Some(answer) = answer else {
        return false;
    };
    let all = answer.rows;
    all.starts_with(rows)
}
