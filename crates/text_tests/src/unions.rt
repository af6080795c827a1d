//! Members of a union as records: the header and the lines of a worked example.
ghost use Rattle.std.specs.Prelude.{◌≡◌, ◌≤◌, IfSome, length};
ghost use Rattle.std.specs.List.{All};
ghost use Rattle.bound_query.specs.WeighedQuery.{Fits};

use crate::fixtures::{R, S, query_of, read_two};
use crate::records::are_rows;
use answer_print::Style;
use bound_query::Query;
use std::alloc::Global;
use table_store::Tables;
use union_all::{Tagged, header_of, line_of};

/// A member of a union of queries with one item each, and its record.
#[derive(Clone, Copy)]
struct Member {
    branch: u32,
    row: u32,
    line: &'static str,
}

fn style() -> Style<'static> {
    Style {
        ranks: true,
        rows: true,
        cursor: None,
    }
}

/// The queries of two texts, each over one of the two tables.
fn two_queries(alloc: Global, tables: &Tables, first: &str, second: &str) -> Option<Vec<Query>>
    requires { length tables.now ≡ 2 }
    ensures some { IfSome result (λ queries. 1 ≤ length queries.items) }
    ensures fits { IfSome result (λ queries. All (λ q. Fits q tables.now) queries.items) }
{
    let first = query_of(alloc, tables, first, &[0])?;
    let second = query_of(alloc, tables, second, &[1])?;
    let mut queries = Vec::new(alloc);
    queries.push(first).ok()?;
    queries.push(second).ok()?;
    Some(queries)
}

/// Whether this is the header of the union.
fn has_header(alloc: Global, queries: &[Query], tables: &Tables, header: &str) -> bool
    requires some { 1 ≤ length queries.now }
    requires fits { All (λ q. Fits q tables.now) queries.now }
{
    match header_of(alloc, queries, tables, &style()) {
        Ok(text) => text.as_slice() == header.as_bytes(),
        Err(_) => false,
    }
}

/// Whether there is such a member, and it has this line.
fn has_member(alloc: Global, queries: &[Query], tables: &Tables, member: Member) -> bool
    requires { All (λ q. Fits q tables.now) queries.now }
{
    let branch = member.branch as usize;
    let mut rows = [0; 16];
    rows[0] = member.row;
    if branch >= queries.len() || !are_rows(&queries[branch], tables, &rows) {
        return false;
    }
    let tagged = Tagged {
        branch: member.branch,
        rows,
    };
    match line_of(alloc, &tagged, queries, tables, &style()) {
        Ok(text) => text.as_slice() == member.line.as_bytes(),
        Err(_) => false,
    }
}

/// Whether all members have their lines.
fn has_members(alloc: Global, queries: &[Query], tables: &Tables, members: &[Member]) -> bool
    requires { All (λ q. Fits q tables.now) queries.now }
{
    for member in members {
        if !has_member(alloc, queries, tables, *member) {
            return false;
        }
    }
    true
}

const HEADER: &str = "a,rank1,branch,row1\n";

const MEMBERS: &[Member] = &[
    Member {
        branch: 0,
        row: 2,
        line: "2,1,1,2\n",
    },
    Member {
        branch: 0,
        row: 3,
        line: "3,1,1,3\n",
    },
    Member {
        branch: 1,
        row: 2,
        line: "q,2,2,2\n",
    },
    Member {
        branch: 0,
        row: 1,
        line: "1,3,1,1\n",
    },
];

/// Whether the union of the two queries has this header and these members.
fn is_printed(alloc: Global, tables: &Tables) -> bool
    requires { length tables.now ≡ 2 }
{
    let first = "select R.a from R order by R.w";
    let second = "select S.c from S order by S.w";
    let Some(queries) = two_queries(alloc, tables, first, second) else {
        return false;
    };
    let queries = queries.as_slice();
    has_header(alloc, queries, tables, HEADER) && has_members(alloc, queries, tables, MEMBERS)
}

/// The same for the tables of the two files.
fn prints(alloc: Global) -> bool {
    let mut tables = csv_tables::Tables::new(alloc);
    read_two(&mut tables, R, S).is_ok() && is_printed(alloc, &tables)
}

#[test]
fn prints_members_of_a_union(rt: HostRuntime) {
    assert!(rt; prints(rt.alloc()));
}
