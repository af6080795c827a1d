//! The faults of texts, and the texts of queries.
use query_parse::{ParseFault, Select, SelectList, Side, name_text, parse, parse_all, text};
use std::alloc::{AllocError, Global};

/// Whether a text is refused with this fault.
fn has_fault(alloc: Global, query: &[u8], fault: &ParseFault) -> bool {
    match parse(alloc, query) {
        Ok(_) => false,
        Err(found) => found == *fault,
    }
}

/// The same for a text of this many spaces.
fn have_fault(alloc: Global, spaces: usize, fault: &ParseFault) -> Result<bool, AllocError> {
    let text = vec![in alloc; b' '; spaces]?;
    Ok(has_fault(alloc, text.as_slice(), fault))
}

const FAULTS: &[(&str, ParseFault)] = &[
    ("select R.a from R where R.a < 1", ParseFault::Syntax(28)),
    ("select R.a R.b from R", ParseFault::Syntax(11)),
    ("select R.a from", ParseFault::Syntax(15)),
    ("", ParseFault::Syntax(0)),
    ("select a from R join S where a = b", ParseFault::Syntax(23)),
    ("select a from R inner S on a = b", ParseFault::Syntax(22)),
    ("select a from R where 1 = 2", ParseFault::Syntax(26)),
    ("select a from R limit 3order", ParseFault::Syntax(23)),
    ("select a from R;;", ParseFault::Syntax(16)),
    ("select a from union", ParseFault::Syntax(14)),
    // A quote without its end is a token of one byte.
    ("select a from R where a = 'x''", ParseFault::Syntax(29)),
    ("select a from R where a = '''", ParseFault::Syntax(28)),
    ("select \"a from R", ParseFault::Syntax(7)),
    (
        "select a1.a from R a1, R a2, R a3, R a4, R a5, R a6, R a7, R a8, R a9, R a10, R a11, R a12, R a13, R a14, R a15, R a16, R a17",
        ParseFault::TooManyItems,
    ),
    (
        "select a from R order by a, a, a, a, a, a, a, a, a limit 18446744073709551616",
        ParseFault::TooManyKeys,
    ),
    (
        "select R.a from R limit 18446744073709551616",
        ParseFault::LimitRange(24),
    ),
];

/// The place of the first text that has another fault, or none.
fn first_failing(alloc: Global, texts: &[(&str, ParseFault)]) -> Option<usize> {
    for (i, (query, fault)) in texts.iter().enumerate() {
        if !has_fault(alloc, query.as_bytes(), fault) {
            return Some(i);
        }
    }
    None
}

#[test]
fn faults_have_their_places(rt: HostRuntime) {
    let alloc = rt.alloc();
    assert_eq!(rt; first_failing(alloc, FAULTS), None);
    assert!(rt; have_fault(alloc, 65_537, &ParseFault::TooLong) == Ok(true));
    assert!(rt; have_fault(alloc, 65_536, &ParseFault::Syntax(65_536)) == Ok(true));
}

/// Whether a text of several queries is refused with this fault.
fn has_fault_of_all(alloc: Global, queries: &[u8], fault: &ParseFault) -> bool {
    match parse_all(alloc, queries) {
        Ok(_) => false,
        Err(found) => found == *fault,
    }
}

/// The same for one branch and this many more.
fn have_fault_of_all(alloc: Global, more: u32, fault: &ParseFault) -> Result<bool, AllocError> {
    let mut queries = String::from_str(alloc, "select a from R")?;
    for _ in 0..more {
        queries.push_str(" union all select a from R")?;
    }
    Ok(has_fault_of_all(alloc, queries.as_bytes(), fault))
}

const FAULTS_OF_ALL: &[(&str, ParseFault)] = &[
    ("", ParseFault::Syntax(0)),
    ("select R.a from R union", ParseFault::Syntax(23)),
    ("select R.a from R union all", ParseFault::Syntax(27)),
    (
        "select R.a from R union select S.c from S",
        ParseFault::Syntax(24),
    ),
    (
        "select R.a from R limit 1 union all select S.c from S",
        ParseFault::Syntax(26),
    ),
    (
        "select R.a from R; union all select S.c from S",
        ParseFault::Syntax(19),
    ),
    ("union all select S.c from S", ParseFault::Syntax(0)),
    (
        "select R.a from R union all union all select S.c from S",
        ParseFault::Syntax(28),
    ),
    (
        "select a from R, R, R, R, R, R, R, R, R union all select a from R, R, R, R, R, R, R, R limit 18446744073709551616",
        ParseFault::TooManyItems,
    ),
    (
        "select a from R union all select a from R order by a, a, a, a, a, a, a, a, a limit 18446744073709551616",
        ParseFault::TooManyKeys,
    ),
    (
        "select R.a from R union all select S.c from S limit 18446744073709551616",
        ParseFault::LimitRange(52),
    ),
];

/// The place of the first text of several queries that has another fault, or none.
fn first_failing_of_all(alloc: Global, texts: &[(&str, ParseFault)]) -> Option<usize> {
    for (i, (queries, fault)) in texts.iter().enumerate() {
        if !has_fault_of_all(alloc, queries.as_bytes(), fault) {
            return Some(i);
        }
    }
    None
}

#[test]
fn faults_of_several_queries_have_their_places(rt: HostRuntime) {
    let alloc = rt.alloc();
    assert_eq!(rt; first_failing_of_all(alloc, FAULTS_OF_ALL), None);
    assert!(rt; have_fault_of_all(alloc, 8, &ParseFault::TooManyBranches) == Ok(true));
}

/// How many items each branch has, if there are two.
fn items_of_two(branches: &[Select]) -> Option<[usize; 2]> {
    let [first, second] = branches else {
        return None;
    };
    Some([first.items.as_slice().len(), second.items.as_slice().len()])
}

/// Whether a text has two queries with these numbers of items, and this limit.
fn are_two(alloc: Global, queries: &str, items: [usize; 2], limit: Option<u64>) -> bool {
    match parse_all(alloc, queries.as_bytes()) {
        Ok(all) => items_of_two(all.branches.as_slice()) == Some(items) && all.limit == limit,
        Err(_) => false,
    }
}

const TWO_QUERIES: &[(&str, [usize; 2], Option<u64>)] = &[
    (
        "select a from R, S order by a Union ALL select b from T limit 007;",
        [2, 1],
        Some(7),
    ),
    (
        "select a from R union all select b from T join S on b = c order by b desc",
        [1, 2],
        None,
    ),
    (
        "select a from \"union\" union all select b from \"all\" x, R, S",
        [1, 3],
        None,
    ),
    // Sixteen items in all, or eight keys in each.
    (
        "select a from R, R, R, R, R, R, R, R union all select a from R, R, R, R, R, R, R, R",
        [8, 8],
        None,
    ),
    (
        "select a from R order by a, a, a, a, a, a, a, a union all select a from R order by a, a, a, a, a, a, a, a",
        [1, 1],
        None,
    ),
];

/// The place of the first text that has other queries, or none.
fn first_read_otherwise(alloc: Global, texts: &[(&str, [usize; 2], Option<u64>)]) -> Option<usize> {
    for (i, text) in texts.iter().enumerate() {
        let (queries, items, limit) = *text;
        if !are_two(alloc, queries, items, limit) {
            return Some(i);
        }
    }
    None
}

#[test]
fn two_queries_are_read(rt: HostRuntime) {
    assert_eq!(rt; first_read_otherwise(rt.alloc(), TWO_QUERIES), None);
}

/// Whether a text has one query, and it is read with this limit of the whole.
fn is_one_with_limit(alloc: Global, query: &str, limit: Option<u64>) -> bool {
    match parse_all(alloc, query.as_bytes()) {
        Ok(all) => all.branches.as_slice().len() == 1 && all.limit == limit,
        Err(_) => false,
    }
}

#[test]
fn one_query_is_read_as_one_branch(rt: HostRuntime) {
    let alloc = rt.alloc();
    assert!(rt; is_one_with_limit(alloc, "select a from R limit 3", Some(3)));
    assert!(rt; is_one_with_limit(alloc, "select a from R", None));
}

/// Where the selected columns and the items begin, if there are two of each.
fn places(select: &Select) -> Option<[u32; 4]> {
    let SelectList::Columns(list) = &select.list else {
        return None;
    };
    let [first, second] = list.as_slice() else {
        return None;
    };
    let [left, right] = select.items.as_slice() else {
        return None;
    };
    Some([first.at, second.at, left.at, right.at])
}

/// Whether the first item of a query is this table, and its last equality is with this constant.
fn names(select: &Select, table: &[u8], constant: &[u8]) -> bool {
    let [first, ..] = select.items.as_slice() else {
        return false;
    };
    let [.., last] = select.equalities.as_slice() else {
        return false;
    };
    match &last.right {
        Side::Constant(bytes) => first.table.bytes() == table && bytes.bytes() == constant,
        Side::Column(_) => false,
    }
}

const FLIGHTS: &str =
    "SeLeCt a.dst, \"b\".\"d st\" FROM flights AS a INNER JOIN flights b ON a.dst = b.src\n\twhere 'O''slo' = a.src oRDER by -a.price + b.price dESC, x aSc LIMIT 007;";

/// Whether the query over flights is read.
fn is_read(alloc: Global) -> bool {
    match parse(alloc, FLIGHTS.as_bytes()) {
        Ok(select) => {
            places(&select) == Some([7, 14, 30, 54]) && names(&select, b"flights", b"O'slo")
        }
        Err(_) => false,
    }
}

#[test]
fn a_query_is_read(rt: HostRuntime) {
    assert!(rt; is_read(rt.alloc()));
}

/// Whether this is the text that a query is written as.
fn has_text(alloc: Global, query: &Select, wanted: &str) -> bool {
    match text(alloc, query) {
        Ok(written) => written.as_slice() == wanted.as_bytes(),
        Err(_) => false,
    }
}

/// The same for the query of a text.
fn is_written_as(alloc: Global, query: &str, wanted: &str) -> bool {
    match parse(alloc, query.as_bytes()) {
        Ok(select) => has_text(alloc, &select, wanted),
        Err(_) => false,
    }
}

const WRITTEN: &[(&str, &str)] = &[
    (
        FLIGHTS,
        "select a.dst, b.\"d st\" from flights as a, flights as b where a.dst = b.src and a.src = 'O''slo' order by - a.price + b.price desc, x limit 7",
    ),
    (
        "select R.a, S.c from R, S where R.b = S.b order by R.w + S.w limit 3",
        "select R.a, S.c from R as R, S as S where R.b = S.b order by R.w + S.w limit 3",
    ),
    (
        "SELECT * FROM \"all\" x JOIN t ON x.\"a b\" = -3 ORDER BY -w DESC, +v LIMIT 007;",
        "select * from \"all\" as x, t as t where x.\"a b\" = '-3' order by - w desc, v limit 7",
    ),
    (
        "select a from R where 'it''s' = a and a = 12 order by a - b + c asc limit 18446744073709551615",
        "select a from R as R where a = 'it''s' and a = '12' order by a - b + c limit 18446744073709551615",
    ),
];

/// The place of the first query that is written in another way, or whose text is not written as it
/// is.
fn first_written_otherwise(alloc: Global, queries: &[(&str, &str)]) -> Option<usize> {
    for (i, (query, wanted)) in queries.iter().enumerate() {
        if !is_written_as(alloc, query, wanted) || !is_written_as(alloc, wanted, wanted) {
            return Some(i);
        }
    }
    None
}

#[test]
fn a_query_is_written(rt: HostRuntime) {
    assert_eq!(rt; first_written_otherwise(rt.alloc(), WRITTEN), None);
}

const NAMES: &[(&str, &str)] = &[
    ("R_1", "R_1"),
    ("order", "\"order\""),
    ("Union", "\"Union\""),
    ("a b", "\"a b\""),
    ("1a", "\"1a\""),
    ("", "\"\""),
];

fn is_name_written_as(alloc: Global, name: &str, wanted: &str) -> bool {
    match name_text(alloc, name.as_bytes()) {
        Ok(written) => written.as_slice() == wanted.as_bytes(),
        Err(_) => false,
    }
}

/// The place of the first name that is written in another way.
fn first_name_otherwise(alloc: Global, names: &[(&str, &str)]) -> Option<usize> {
    for (i, (name, wanted)) in names.iter().enumerate() {
        if !is_name_written_as(alloc, name, wanted) {
            return Some(i);
        }
    }
    None
}

#[test]
fn a_name_is_written(rt: HostRuntime) {
    assert_eq!(rt; first_name_otherwise(rt.alloc(), NAMES), None);
}
