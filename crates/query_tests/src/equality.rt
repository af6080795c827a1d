//! When two queries are equal.
use query_parse::parse;
use query_select::Select;
use std::alloc::Global;

const QUERY: &str =
    "select R.a, S.c from R, S as T where R.b = T.b and T.c = 'x' order by R.w - T.w desc, R.a limit 3";

const SPREAD: &str =
    "select R . a ,\tS.c\nfrom R,S as T\r\nwhere R.b=T.b and T.c='x'\n order by R.w-T.w desc,  R.a limit  3 ";

/// Each differs in a name, a constant, a sign, a direction or a limit.
const OTHERS: &[&str] = &[
    "select R.A, S.c from R, S as T where R.b = T.b and T.c = 'x' order by R.w - T.w desc, R.a limit 3",
    "select R.a, S.c from R, S as T where R.b = T.b and T.c = 'y' order by R.w - T.w desc, R.a limit 3",
    "select R.a, S.c from R, S as T where R.b = T.b and T.c = 'x' order by R.w + T.w desc, R.a limit 3",
    "select R.a, S.c from R, S as T where R.b = T.b and T.c = 'x' order by R.w - T.w, R.a limit 3",
    "select R.a, S.c from R, S as T where R.b = T.b and T.c = 'x' order by R.w - T.w desc, R.a limit 4",
    "select R.a, S.c from R, S as T where R.b = T.b and T.c = 'x' order by R.w - T.w desc, R.a",
    "select * from R, S as T where R.b = T.b and T.c = 'x' order by R.w - T.w desc, R.a limit 3",
];

/// Whether the text is this query. `None` if it is not a query.
fn is_query(alloc: Global, query: &Select, text: &str) -> Option<bool> {
    match parse(alloc, text.as_bytes()) {
        Ok(other) => Some(*query == other),
        Err(_) => None,
    }
}

/// Whether each of the texts is another query.
fn are_others(alloc: Global, query: &Select, texts: &[&str]) -> bool {
    for text in texts {
        if is_query(alloc, query, text) != Some(false) {
            return false;
        }
    }
    true
}

fn is_spread(alloc: Global) -> bool {
    match parse(alloc, QUERY.as_bytes()) {
        Ok(query) => is_query(alloc, &query, SPREAD) == Some(true),
        Err(_) => false,
    }
}

fn others_differ(alloc: Global) -> bool {
    match parse(alloc, QUERY.as_bytes()) {
        Ok(query) => are_others(alloc, &query, OTHERS),
        Err(_) => false,
    }
}

/// Two texts that differ only in blanks are equal queries, which keep their own offsets.
#[test]
fn blanks_make_no_other_query(rt: HostRuntime) {
    assert!(rt; is_spread(rt.alloc()));
}

/// A query with another name, constant, sign, direction or limit is another query.
#[test]
fn other_parts_make_another_query(rt: HostRuntime) {
    assert!(rt; others_differ(rt.alloc()));
}
