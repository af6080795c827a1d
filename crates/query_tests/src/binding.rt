//! What queries are bound to, and why some cannot be bound.
ghost use Rattle.std.specs.Prelude.{◌≡◌, ◌<◌, ◌≤◌, length};
ghost use Rattle.std.specs.List.{AllByRecursion};
ghost use Rattle.bound_query.specs.WeighedQuery.{Fits};

use crate::fixtures::{R, S, parse_small, read_two};
use bound_query::Query;
use query_bind::{BindFault, bind};
use query_select::select::Select;
use std::alloc::Global;
use table_store::Tables;

const PAIRS: &[u8] = b"p,q\n1,1\n1,2\n";

const FLAWED: &[u8] = b"a,b,w\n1,x,3\n2,y,12x\n";

const GREATEST: &[u8] = b"a,b,w\n1,x,170141183460469231731687303715884105727\n";

const LEAST: &[u8] = b"a,b,w\n1,x,-170141183460469231731687303715884105728\n";

const SUM: &[u8] = b"select R.a from R, S where R.b = S.b order by R.w + S.w";

/// What a bound query returns.
#[derive(Clone, Copy)]
struct Bound {
    // How many items, keys and variables there are.
    counts: [u32; 3],
    limit: Option<u64>,
    // The first selected columns, each with its item.
    columns: [Option<(u32, u32)>; 7],
    // The first two variables of each of three items, each with its column.
    variables: [[Option<(u32, u32)>; 2]; 3],
    // The items of each of three variables, as bits.
    graph: [u16; 3],
    // Whether the first two rows of each of three items pass.
    passes: [[bool; 2]; 3],
    // What the last row of each of two items adds to each of three keys.
    parts: [[i128; 3]; 2],
    // The most that a row of each of two items adds to each of three keys.
    caps: [[u128; 3]; 2],
}

fn columns(query: &Query) -> [Option<(u32, u32)>; 7] {
    let columns = query.columns();
    let mut first = [None; 7];
    for place in 0..7usize {
        first[place] = columns.get(place).copied();
    }
    first
}

fn variables(query: &Query, _tables: &Tables, item: u32) -> [Option<(u32, u32)>; 2]
    requires { Fits query.now _tables.now }
{
    if item >= query.items() {
        return [None; 2];
    }
    let variables = query.variables_of(item);
    [variables.get(0).copied(), variables.get(1).copied()]
}

fn graph(query: &Query, _tables: &Tables) -> [u16; 3]
    requires { Fits query.now _tables.now }
{
    let Ok(graph) = query.graph() else {
        return [0; 3];
    };
    let mut first = [0; 3];
    for variable in 0..3usize {
        first[variable] = graph.vars().get(variable).copied().unwrap_or(0);
    }
    first
}

/// Whether there is such a row, and it passes.
fn passes(query: &Query, tables: &Tables, item: u32, row: u32) -> bool
    requires { Fits query.now tables.now }
{
    if item >= query.items() || row == 0 {
        return false;
    }
    let table = query.table_of(item);
    table < tables.count() && row <= tables.len(table) && query.passes(tables, item, row)
}

/// What the last row of an item adds to a key, or 0 if there is none.
fn part(query: &Query, tables: &Tables, item: u32, key: u32) -> i128
    requires { Fits query.now tables.now }
{
    if item >= query.items() || key >= query.keys() {
        return 0;
    }
    let table = query.table_of(item);
    if table >= tables.count() || tables.len(table) == 0 {
        return 0;
    }
    query.part(tables, item, tables.len(table), key)
}

/// The most that a row of an item adds to a key, or 0 if there is no such item or key.
fn cap(query: &Query, _tables: &Tables, item: u32, key: u32) -> u128
    requires { Fits query.now _tables.now }
{
    if item >= query.items() || key >= query.keys() {
        return 0;
    }
    query.cap(item, key)
}

fn parts(query: &Query, tables: &Tables, item: u32) -> [i128; 3]
    requires { Fits query.now tables.now }
{
    [
        part(query, tables, item, 0),
        part(query, tables, item, 1),
        part(query, tables, item, 2),
    ]
}

fn caps(query: &Query, tables: &Tables, item: u32) -> [u128; 3]
    requires { Fits query.now tables.now }
{
    [
        cap(query, tables, item, 0),
        cap(query, tables, item, 1),
        cap(query, tables, item, 2),
    ]
}

fn tell(alloc: Global, query: &Query, tables: &Tables) -> Bound
    requires { Fits query.now tables.now }
{
    let mut variables_of = [[None; 2]; 3];
    let mut passing = [[false; 2]; 3];
    for item in 0..3u32 {
        variables_of[item as usize] = variables(query, tables, item);
        passing[item as usize] = [
            passes(query, tables, item, 1),
            passes(query, tables, item, 2),
        ];
    }
    Bound {
        counts: [query.items(), query.keys(), query.variables()],
        limit: query.limit(),
        columns: columns(query),
        variables: variables_of,
        graph: graph(query, tables),
        passes: passing,
        parts: [parts(query, tables, 0), parts(query, tables, 1)],
        caps: [caps(query, tables, 0), caps(query, tables, 1)],
    }
}

/// What a query bound to these tables returns, or why it is refused.
fn told_of(
    alloc: Global,
    select: &Select,
    tables: &Tables,
    which: &[u32],
) -> Result<Bound, BindFault>
    requires some { 1 ≤ length select.now.items }
    requires items { length select.now.items ≤ 16 }
    requires keys { length select.now.keys ≤ 8 }
    requires tables { length which.now ≡ length select.now.items }
    requires known { AllByRecursion (λ t. t < length tables.now) which.now }
{
    let query = bind(alloc, select, tables, which)?;
    Ok(tell(alloc, &query, tables))
}

fn told_over(
    alloc: Global,
    tables: &Tables,
    text: &[u8],
    which: &[u32],
) -> Option<Result<Bound, BindFault>>
    requires two { length tables.now ≡ 2 }
    requires few { length which.now ≤ 16 }
    requires known { AllByRecursion (λ t. t < 2) which.now }
{
    let select = parse_small(alloc, text, which.len())?;
    Some(told_of(alloc, &select, tables, which))
}

/// The same over the tables of two files.
fn told(
    alloc: Global,
    files: (&[u8], &[u8]),
    text: &[u8],
    which: &[u32],
) -> Option<Result<Bound, BindFault>>
    requires few { length which.now ≤ 16 }
    requires known { AllByRecursion (λ t. t < 2) which.now }
{
    let mut tables = csv_tables::Tables::new(alloc);
    read_two(&mut tables, files).ok()?;
    told_over(alloc, &tables, text, which)
}

/// What the query returns, if it can be bound.
fn told_if_bound(alloc: Global, files: (&[u8], &[u8]), text: &[u8], which: &[u32]) -> Option<Bound>
    requires few { length which.now ≤ 16 }
    requires known { AllByRecursion (λ t. t < 2) which.now }
{
    told(alloc, files, text, which)?.ok()
}

#[test]
fn binds_two_tables(rt: HostRuntime) {
    let text =
        b"select R.a, S.c from R, S where R.b = S.b order by R.w desc, S.w, R.w + R.w limit 3";
    let Some(told) = told_if_bound(rt.alloc(), (R, S), text, &[0, 1]) else {
        panic!(rt; "not bound");
    };
    assert!(rt; told.counts == [2, 3, 1] && told.limit == Some(3));
    let columns = [Some((0, 0)), Some((1, 1)), None, None, None, None, None];
    assert!(rt; told.columns == columns);
    assert!(rt; told.variables == [[Some((0, 1)), None], [Some((0, 0)), None], [None; 2]]);
    assert!(rt; told.graph == [3, 0, 0] && told.passes[0] == [true, true]);
    // An item's rows add nothing to a key that has no column of the item, and a column that is
    // named twice counts twice.
    assert!(rt; told.parts == [[-1, 0, 2], [0, 4, 0]]);
    assert!(rt; told.caps == [[3, 0, 6], [0, 5, 0]]);
}

#[test]
fn selects_all_columns(rt: HostRuntime) {
    let text = b"select * from R a, R b where a.b = b.b";
    let Some(told) = told_if_bound(rt.alloc(), (R, S), text, &[0, 0]) else {
        panic!(rt; "not bound");
    };
    let columns = [
        Some((0, 0)),
        Some((0, 1)),
        Some((0, 2)),
        Some((1, 0)),
        Some((1, 1)),
        Some((1, 2)),
        None,
    ];
    assert!(rt; told.columns == columns);
    assert!(rt; told.variables[1] == [Some((0, 1)), None]);
}

#[test]
fn a_triangle_has_three_variables(rt: HostRuntime) {
    let text = b"select A.p from T A, T B, T C where A.q = B.p and B.q = C.p and C.q = A.p";
    let Some(triangle) = told_if_bound(rt.alloc(), (PAIRS, S), text, &[0, 0, 0]) else {
        panic!(rt; "not bound");
    };
    assert!(rt; triangle.counts[2] == 3 && triangle.graph == [5, 3, 6]);
    assert!(rt; triangle.variables[2] == [Some((0, 1)), Some((2, 0))]);
}

#[test]
fn equalities_that_meet_late_make_one_class(rt: HostRuntime) {
    let text = b"select A.p from T A, T B, T C where C.q = B.q and A.q = C.p and B.q = A.q";
    let Some(late) = told_if_bound(rt.alloc(), (PAIRS, S), text, &[0, 0, 0]) else {
        panic!(rt; "not bound");
    };
    assert!(rt; late.counts[2] == 1 && late.graph == [7, 0, 0]);
    // Each item shows its first column of the class, and the last item has two.
    let shown = [
        [Some((0, 1)), None],
        [Some((0, 1)), None],
        [Some((0, 0)), None],
    ];
    assert!(rt; late.variables == shown);
    assert!(rt; late.passes == [[true, true], [true, true], [true, false]]);
}

#[test]
fn a_class_within_one_item_is_no_variable(rt: HostRuntime) {
    let Some(one) = told_if_bound(rt.alloc(), (PAIRS, S), b"select p from T where p = q", &[0])
    else {
        panic!(rt; "not bound");
    };
    assert!(rt; one.counts[2] == 0 && one.graph == [0; 3] && one.passes[0] == [true, false]);
}

#[test]
fn takes_constants_as_filters(rt: HostRuntime) {
    // The constant holds in both items, and their class is not a variable.
    let text = b"select R.a from R, S where R.b = S.b and S.b = 'x'";
    let Some(both) = told_if_bound(rt.alloc(), (R, S), text, &[0, 1]) else {
        panic!(rt; "not bound");
    };
    assert!(rt; both.counts[2] == 0);
    assert!(rt; both.passes == [[true, false], [true, false], [false, false]]);
    // Two different constants leave no row, and are not a fault.
    let text = b"select R.a from R where R.b = 'x' and R.b = 'y'";
    let Some(none) = told_if_bound(rt.alloc(), (R, S), text, &[0]) else {
        panic!(rt; "not bound");
    };
    assert!(rt; none.passes[0] == [false, false]);
}

/// Why the query is refused, if it is.
fn fault_of(alloc: Global, files: (&[u8], &[u8]), text: &[u8]) -> Option<BindFault> {
    told(alloc, files, text, &[0, 1])?.err()
}

#[test]
fn refuses_names(rt: HostRuntime) {
    for (text, fault) in [
        ("select w from R, S", BindFault::Ambiguous(7)),
        ("select R.a, T.b from R, S", BindFault::UnknownAlias(12)),
        (
            "select R.c from R, S where d = a",
            BindFault::UnknownColumn(7),
        ),
        ("select R.a from R, R", BindFault::DuplicateAlias(2)),
    ] {
        assert!(rt;
            fault_of(rt.alloc(), (R, S), text.as_bytes()) == Some(fault),
            "{text}"
        );
    }
}

#[test]
fn refuses_weights_and_their_sums(rt: HostRuntime) {
    let fault = BindFault::BadWeight {
        item: 1,
        row: 2,
        col: 3,
    };
    assert!(rt; fault_of(rt.alloc(), (FLAWED, S), SUM) == Some(fault));
    let fault = fault_of(rt.alloc(), (GREATEST, b"b,w\nx,1\n"), SUM);
    assert!(rt; fault == Some(BindFault::RankRange(1)));
    let text = b"select a from R, S order by R.w";
    let fault = fault_of(rt.alloc(), (LEAST, S), text);
    assert!(rt; fault == Some(BindFault::RankRange(1)));
    // Twice the greatest weight is out of range.
    let text = b"select a from R, S order by R.w desc, R.w + R.w";
    let fault = fault_of(rt.alloc(), (GREATEST, S), text);
    assert!(rt; fault == Some(BindFault::RankRange(2)));
}

/// What the last row of each of two items adds to the first key, and the most that a row adds.
fn weights(alloc: Global, files: (&[u8], &[u8]), text: &[u8]) -> Option<([i128; 2], [u128; 2])> {
    let told = told_if_bound(alloc, files, text, &[0, 1])?;
    Some((
        [told.parts[0][0], told.parts[1][0]],
        [told.caps[0][0], told.caps[1][0]],
    ))
}

#[test]
fn a_column_may_be_named_many_times(rt: HostRuntime) {
    for (text, parts, caps) in [
        (
            "select a from R, S order by R.w + R.w - R.w",
            [1i128, 0],
            [9u128, 0],
        ),
        ("select a from R, S order by R.w - R.w", [0, 0], [6, 0]),
        (
            "select a from R, S order by S.w - R.w - R.w + S.w - R.w",
            [-3, 8],
            [9, 10],
        ),
        (
            "select a from R, S order by R.w - S.w - S.w - R.w desc",
            [0, 8],
            [6, 10],
        ),
    ] {
        let told = weights(rt.alloc(), (R, S), text.as_bytes());
        assert!(rt; told == Some((parts, caps)), "{text}");
    }
}

#[test]
fn an_empty_weight_counts_zero(rt: HostRuntime) {
    let told = weights(rt.alloc(), (b"a,b,w\n1,x,-3\n2,y,\n", S), SUM);
    assert!(rt; told == Some(([0, 4], [3, 5])));
}

#[test]
fn takes_the_greatest_sums(rt: HostRuntime) {
    let greatest = 170141183460469231731687303715884105727;
    let most = 170141183460469231731687303715884105727;
    let told = weights(rt.alloc(), (GREATEST, b"b,w\nx,0\n"), SUM);
    assert!(rt; told == Some(([greatest, 0], [most, 0])));
    let text = b"select a from R, S order by R.w desc";
    let told = weights(rt.alloc(), (GREATEST, S), text);
    assert!(rt; told == Some(([-greatest, 0], [most, 0])));
    // A table without rows adds nothing.
    let told = weights(rt.alloc(), (GREATEST, b"b,w\n"), SUM);
    assert!(rt; told == Some(([greatest, 0], [most, 0])));
    // A column that no key names need not hold weights.
    let text = b"select R.a from R, S where R.b = S.b order by S.w";
    let told = weights(rt.alloc(), (FLAWED, S), text);
    assert!(rt; told == Some(([0, 4], [0, 5])));
}
