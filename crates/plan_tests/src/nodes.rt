//! The raw trees of two tables, by the columns in which rows must agree.
ghost use Rattle.std.specs.Prelude.{◌≡◌, ◌^◌, ◌<◌, ◌≤◌, IfSome, List, length};
ghost use Rattle.anyk_model.specs.Table.{Table};
ghost use Rattle.bound_query.specs.WeighedQuery.{Fits};
ghost use Rattle.node_build.specs.Nodes.{IsJoinTreeOf};

use crate::fixtures::{TWO, query_of, read_two};
use bound_query::{Query, tree_shape};
use join_tree::JoinTree;
use node_build::{BuildFault, Built, build};
use rank_key::{LexRank, Rank};
use std::alloc::Global;
use std::marker::Brand;
use std::sync::ledger::{Blank, Ledger};
use step_counter::Steps;
use table_store::Tables;
use tdp_core::RawTree;

/// The join tree of a query.
fn tree_of_query(query: &Query) -> Option<JoinTree>
    requires fits { (tables : List Table) × Fits query.now tables }
    ensures { IfSome result (λ tree. IsJoinTreeOf query.now.query tree) }
{
    tree_shape(query).ok()
}

/// Whether the second and the third row of the second of two nodes have the link of its first row.
fn alike<R: Rank>(tree: &RawTree<R>) -> Option<(bool, bool)> {
    if tree.nodes() != 2 || tree.len(1) != 3 {
        return None;
    }
    let first = tree.own(1, 0);
    Some((tree.own(1, 1) == first, tree.own(1, 2) == first))
}

/// The rows of each of two nodes, the rows of both, and which rows of the second are alike.
type Counts = (u64, u64, u64, (bool, bool));

fn counts<R: Rank>(built: &Built<R>) -> Option<Counts> {
    let [first, second] = built.rows_of.as_slice() else {
        return None;
    };
    Some((*first, *second, built.used, alike(&built.tree)?))
}

/// These counts for a query within a budget.
fn counts_of<R: Rank, L: Ledger>(
    alloc: Global,
    query: &Query,
    tables: &Tables,
    budget: u64,
    steps: &mut Steps<L>,
) -> Result<Option<Counts>, BuildFault>
    requires slots { 16 ≤ R.ITEMS }
    requires limit { 2 ^ 127 ≤ R.LIMIT }
    requires fits { Fits query.now tables.now }
    requires keys { length query.now.query.order ≤ R.KEYS }
    requires budget { budget < 100 }
{
    let Some(join) = tree_of_query(query) else {
        return Ok(None);
    };
    let built = build::<R, L>(alloc, query, tables, &join, budget, steps)?;
    Ok(counts(&built))
}

/// The same for the query of this text over R and S.
fn counts_of_text<R: Rank, L: Ledger>(
    alloc: Global,
    tables: &Tables,
    text: &[u8],
    budget: u64,
    steps: &mut Steps<L>,
) -> Result<Option<Counts>, BuildFault>
    requires slots { 16 ≤ R.ITEMS }
    requires limit { 2 ^ 127 ≤ R.LIMIT }
    requires two { length tables.now ≡ 2 }
    requires budget { budget < 100 }
{
    match query_of(alloc, tables, text, &[0, 1], R::KEYS) {
        Some(query) => counts_of::<R, L>(alloc, &query, tables, budget, steps),
        None => Ok(None),
    }
}

fn built<R: Rank, L: Ledger>(
    alloc: Global,
    text: &[u8],
    budget: u64,
    blank: Blank,
) -> Result<Option<Counts>, BuildFault>
    requires slots { 16 ≤ R.ITEMS }
    requires limit { 2 ^ 127 ≤ R.LIMIT }
    requires budget { budget < 100 }
    requires name { blank.name ≡ L.name }
    requires parts { blank.parts ≡ L.parts }
    requires some_part { 0 < blank.parts }
{
    let mut steps = Steps::<L>::new(blank);
    let mut tables = csv_tables::Tables::new(alloc);
    if read_two(&mut tables, TWO).is_err() {
        return Ok(None);
    }
    counts_of_text::<R, L>(alloc, &tables, text, budget, &mut steps)
}

#[test]
fn rows_within_a_budget(rt: HostRuntime) {
    let text = b"select R.a, S.c from R, S where R.b = S.b order by R.w + S.w";
    let enough = built::<LexRank, Brand>(rt.alloc(), text, 6, Blank::new(1));
    assert!(rt; enough == Ok(Some((3, 3, 6, (false, true)))));
    let few = built::<LexRank, Brand>(rt.alloc(), text, 5, Blank::new(1));
    assert!(rt; few == Err(BuildFault::TooManyRows(5)));
}

#[test]
fn links_by_two_variables_and_by_none(rt: HostRuntime) {
    let text = b"select R.a, S.c from R, S where R.b = S.b and R.w = S.w";
    let two = built::<LexRank, Brand>(rt.alloc(), text, 6, Blank::new(1));
    assert!(rt; two == Ok(Some((3, 3, 6, (false, false)))));
    let text = b"select R.a, S.c from R, S";
    let none = built::<LexRank, Brand>(rt.alloc(), text, 6, Blank::new(1));
    assert!(rt; none == Ok(Some((3, 3, 6, (true, true)))));
}
