//! Answers as records: the header and a line of worked examples.
ghost use Rattle.std.specs.Prelude.{◌≡◌, IsTrue, length, take};
ghost use Rattle.anyk_model.specs.Query.{IsCombination, row_counts};
ghost use Rattle.bound_query.specs.WeighedQuery.{Fits};

use crate::fixtures::{R, S, query_of, read_two};
use answer_print::{Style, header, line};
use bound_query::Query;
use std::alloc::Global;
use table_store::Tables;

const SUM: &str = "select R.a, S.c from R, S where R.b = S.b order by R.w + S.w";

/// Whether each item has the row that is given for it.
pub(crate) fn are_rows(query: &Query, tables: &Tables, rows: &[u32; 16]) -> bool
    requires { Fits query.now tables.now }
    ensures { IsTrue result
        → IsCombination (row_counts query.now.query.items tables.now)
        (take (length query.now.query.items) rows.now) }
{
    for item in 0..query.items() {
        let row = rows[item as usize];
        if row == 0 || row > tables.len(query.table_of(item)) {
            return false;
        }
    }
    true
}

/// An answer, and what is printed of it.
#[derive(Clone, Copy)]
struct Case {
    first: &'static str,
    second: &'static str,
    query: &'static str,
    rows: (u32, u32),
    ranks: bool,
    numbers: bool,
    cursor: Option<&'static [u8]>,
    header: &'static str,
    line: &'static str,
}

fn style_of(case: &Case) -> Style<'static> {
    Style {
        ranks: case.ranks,
        rows: case.numbers,
        cursor: case.cursor,
    }
}

/// Whether the header is that of the case.
fn has_header(alloc: Global, query: &Query, tables: &Tables, case: &Case) -> bool
    requires { Fits query.now tables.now }
{
    match header(alloc, query, tables, &style_of(case)) {
        Ok(text) => text.as_slice() == case.header.as_bytes(),
        Err(_) => false,
    }
}

/// Whether the line is that of the case.
fn has_line(alloc: Global, query: &Query, tables: &Tables, rows: &[u32; 16], case: &Case) -> bool
    requires fits { Fits query.now tables.now }
    requires rows { IsCombination (row_counts query.now.query.items tables.now)
        (take (length query.now.query.items) rows.now) }
{
    match line(alloc, query, tables, rows, &style_of(case)) {
        Ok(text) => text.as_slice() == case.line.as_bytes(),
        Err(_) => false,
    }
}

/// Whether the header and the line of a query over these tables are printed.
fn is_printed(alloc: Global, query: &Query, tables: &Tables, case: &Case) -> bool
    requires { Fits query.now tables.now }
{
    let mut rows = [0; 16];
    rows[0] = case.rows.0;
    rows[1] = case.rows.1;
    are_rows(query, tables, &rows)
        && has_header(alloc, query, tables, case)
        && has_line(alloc, query, tables, &rows, case)
}

/// The same for the query of the case's text.
fn prints_over(alloc: Global, tables: &Tables, case: &Case) -> bool
    requires { length tables.now ≡ 2 }
{
    match query_of(alloc, tables, case.query, &[0, 1]) {
        Some(query) => is_printed(alloc, &query, tables, case),
        None => false,
    }
}

/// The same for the tables of the case's texts.
fn prints(alloc: Global, case: &Case) -> bool {
    let mut tables = csv_tables::Tables::new(alloc);
    read_two(&mut tables, case.first, case.second).is_ok() && prints_over(alloc, &tables, case)
}

/// The place of the first case that is printed in another way.
fn first_failing(alloc: Global, cases: &[Case]) -> Option<usize> {
    for (i, case) in cases.iter().enumerate() {
        if !prints(alloc, case) {
            return Some(i);
        }
    }
    None
}

const OF_STYLES: &[Case] = &[
    Case {
        first: R,
        second: S,
        query: SUM,
        rows: (3, 1),
        ranks: false,
        numbers: false,
        cursor: None,
        header: "a,c\n",
        line: "3,p\n",
    },
    Case {
        first: R,
        second: S,
        query: SUM,
        rows: (2, 2),
        ranks: true,
        numbers: true,
        cursor: None,
        header: "a,c,rank1,row1,row2\n",
        line: "2,q,3,2,2\n",
    },
    Case {
        first: "a,b,w\n1,x,3\n1,x,3\n",
        second: "b,c,w\nx,p,5\n",
        query: SUM,
        rows: (1, 1),
        ranks: false,
        numbers: true,
        cursor: None,
        header: "a,c,row1,row2\n",
        line: "1,p,1,1\n",
    },
    Case {
        first: "a,b,w\n1,x,3\n1,x,3\n",
        second: "b,c,w\nx,p,5\n",
        query: SUM,
        rows: (2, 1),
        ranks: false,
        numbers: true,
        cursor: None,
        header: "a,c,row1,row2\n",
        line: "1,p,2,1\n",
    },
    Case {
        first: R,
        second: S,
        query: SUM,
        rows: (1, 3),
        ranks: false,
        numbers: false,
        cursor: Some(b"first"),
        header: "cursor,a,c\n",
        line: "first,1,q\n",
    },
];

#[test]
fn prints_what_the_style_shows(rt: HostRuntime) {
    assert_eq!(rt; first_failing(rt.alloc(), OF_STYLES), None);
}

const OF_SUMS_AND_QUOTES: &[Case] = &[
    Case {
        first: R,
        second: S,
        query: "select R.a, S.c from R, S where R.b = S.b order by R.w desc, S.w",
        rows: (1, 3),
        ranks: true,
        numbers: false,
        cursor: None,
        header: "a,c,rank1,rank2\n",
        line: "1,q,3,4\n",
    },
    Case {
        first: "a,b,w\n1,x,170141183460469231731687303715884105727\n",
        second: "b,c,w\nx,p,0\n",
        query: SUM,
        rows: (1, 1),
        ranks: true,
        numbers: false,
        cursor: None,
        header: "a,c,rank1\n",
        line: "1,p,170141183460469231731687303715884105727\n",
    },
    Case {
        first: "a,b,w\n1,x,170141183460469231731687303715884105727\n",
        second: "b,c,w\nx,p,0\n",
        query: "select S.c from R, S order by S.w - R.w desc",
        rows: (1, 1),
        ranks: true,
        numbers: false,
        cursor: None,
        header: "c,rank1\n",
        line: "p,-170141183460469231731687303715884105727\n",
    },
    Case {
        first: "dst,price\n\"New York, NY\",350\n",
        second: "dst,say\nParis,\"a \"\"b\"\"\"\n",
        query: "select a.dst, b.say from f a, g b order by a.price",
        rows: (1, 1),
        ranks: true,
        numbers: false,
        cursor: Some(b"c_1"),
        header: "cursor,dst,say,rank1\n",
        line: "c_1,\"New York, NY\",\"a \"\"b\"\"\",350\n",
    },
];

#[test]
fn prints_sums_and_quotes(rt: HostRuntime) {
    assert_eq!(rt; first_failing(rt.alloc(), OF_SUMS_AND_QUOTES), None);
}
