//! Several queries in one file, joined by `union all`.
use super::cases::{Case, LEFT, RIGHT, RUN, first_failing, holds, over, repeated};
use std::alloc::{AllocError, Global};

const BEST_FOUR: &str =
    "select R.a from R order by R.w union all select S.c from S order by S.w limit 4";

const JOIN_AND_LEFT: &str =
    "select R.a, S.c from R, S where R.b = S.b order by R.w + S.w union all select R.a, R.b from R order by R.w";

const TWICE: &str = "select R.a from R order by R.w union all select R.a from R order by R.w";

const THREE: &str =
    "select R.a from R order by R.w union all select S.c from S order by S.w union all select R.b from R order by - R.w";

const DOWNWARDS: &str =
    "select R.a from R order by R.w desc union all select S.c from S order by S.w desc";

const TWO_KEYS: &str =
    "select S.c from S order by S.w desc, S.w union all select R.a from R order by R.w + R.w desc, - R.w";

const LATER_JOIN: &str =
    "select S.c from S order by S.w union all select R.a from R, S where R.b = S.b order by R.w + S.w";

const IN_ORDER: &[Case<'static>] = &[
    Case {
        words: "run --ranks --rows q.sql R=R.csv S=S.csv",
        query: BEST_FOUR,
        out: "a,rank1,branch,row1\n2,1,1,2\n3,1,1,3\nq,2,2,2\n1,3,1,1\n",
        ..RUN
    },
    // A branch with fewer items than another has empty fields in the place of the rows that it
    // lacks.
    Case {
        words: "run --ranks --rows q.sql R=R.csv S=S.csv",
        query: JOIN_AND_LEFT,
        out: "a,c,rank1,branch,row1,row2\n2,y,1,2,2,\n3,x,1,2,3,\n2,q,3,1,2,2\n1,x,3,2,1,\n3,q,5,1,3,3\n3,p,6,1,3,1\n1,q,7,1,1,3\n1,p,8,1,1,1\n",
        ..RUN
    },
    Case {
        words: "run --rows q.sql R=R.csv S=S.csv",
        query: LATER_JOIN,
        out: "c,branch,row1,row2\nq,1,2,\n2,2,2,2\nq,1,3,\np,1,1,\n3,2,3,3\n3,2,3,1\n1,2,1,3\n1,2,1,1\n",
        ..RUN
    },
    // If the sums are equal, the branch decides, and only then the rows.
    Case {
        words: "run --ranks --rows q.sql R=R.csv",
        query: TWICE,
        out: "a,rank1,branch,row1\n2,1,1,2\n3,1,1,3\n2,1,2,2\n3,1,2,3\n1,3,1,1\n1,3,2,1\n",
        ..RUN
    },
    Case {
        words: "run --ranks --rows q.sql R=R.csv S=S.csv",
        query: THREE,
        out: "a,rank1,branch,row1\nx,-3,3,1\ny,-1,3,2\nx,-1,3,3\n2,1,1,2\n3,1,1,3\nq,2,2,2\n1,3,1,1\nq,4,2,3\np,5,2,1\n",
        ..RUN
    },
    // The sums are shown as they are, and the greatest comes first.
    Case {
        words: "run --ranks q.sql R=R.csv S=S.csv",
        query: DOWNWARDS,
        out: "a,rank1\np,5\nq,4\n1,3\nq,2\n2,1\n3,1\n",
        ..RUN
    },
    Case {
        words: "run --ranks --rows q.sql R=R.csv S=S.csv",
        query: TWO_KEYS,
        out: "c,rank1,rank2,branch,row1\n1,6,-3,2,1\np,5,5,1,1\nq,4,4,1,3\n2,2,-1,2,2\n3,2,-1,2,3\nq,2,2,1,2\n",
        ..RUN
    },
];

#[test]
fn answers_of_all_branches_come_in_order(rt: HostRuntime) {
    assert!(rt; first_failing(rt.alloc(), IN_ORDER) == Ok(None));
}

const OF_FEW: &[Case<'static>] = &[
    // Without keys the branches come one after another.
    Case {
        words: "run --rows q.sql R=R.csv S=S.csv",
        query: "select S.c from S union all select R.a from R",
        out: "c,branch,row1\np,1,1\nq,1,2\nq,1,3\n1,2,1\n2,2,2\n3,2,3\n",
        ..RUN
    },
    // A branch without answers leaves those of the others.
    Case {
        query: "select S.c from S where S.c = 'z' union all select R.a from R",
        out: "c\n1\n2\n3\n",
        ..RUN
    },
    Case {
        query: "select R.a from R union all select S.c from S where S.c = 'z'",
        out: "a\n1\n2\n3\n",
        ..RUN
    },
    Case {
        words: "run --ranks --rows q.sql R=R.csv S=S.csv",
        query: JOIN_AND_LEFT,
        files: &[("R.csv", "a,b,w\n"), ("S.csv", "b,c,w\n")],
        out: "a,c,rank1,branch,row1,row2\n",
        ..RUN
    },
    Case {
        words: "run --ranks --rows q.sql R=R.csv S=S.csv",
        query: "select R.a from R order by R.w union all select S.c from S order by S.w limit 0",
        out: "a,rank1,branch,row1\n",
        ..RUN
    },
    // The limit is that of the whole.
    Case {
        words: "run q.sql --rows S=S.csv R=R.csv",
        query: "SELECT R.a FROM R ORDER BY R.w Union All SELECT S.c FROM S ORDER BY S.w LIMIT 003;",
        out: "a,branch,row1\n2,1,2\n3,1,3\nq,2,2\n",
        ..RUN
    },
    // One branch alone has no column for its number.
    Case {
        words: "run --rows q.sql R=R.csv",
        query: "select R.a from R order by R.w limit 2",
        out: "a,row1\n2,2\n3,3\n",
        ..RUN
    },
];

#[test]
fn branches_may_have_few_answers(rt: HostRuntime) {
    assert!(rt; first_failing(rt.alloc(), OF_FEW) == Ok(None));
}

const OF_WORDS: &[Case<'static>] = &[
    Case {
        query: "select R.a from R union",
        status: 3,
        err: "anyk: syntax error at byte 23\n",
        ..RUN
    },
    Case {
        query: "select R.a from R union all",
        status: 3,
        err: "anyk: syntax error at byte 27\n",
        ..RUN
    },
    Case {
        query: "select R.a from R union select S.c from S",
        status: 3,
        err: "anyk: syntax error at byte 24\n",
        ..RUN
    },
    // The limit and the semicolon are the last.
    Case {
        query: "select R.a from R limit 1 union all select S.c from S",
        status: 3,
        err: "anyk: syntax error at byte 26\n",
        ..RUN
    },
    Case {
        query: "select R.a from R; union all select S.c from S",
        status: 3,
        err: "anyk: syntax error at byte 19\n",
        ..RUN
    },
    // The other commands take one query.
    Case {
        words: "plan q.sql R=R.csv S=S.csv",
        query: "select R.a from R union all select S.c from S",
        status: 3,
        err: "anyk: syntax error at byte 18\n",
        ..RUN
    },
    Case {
        words: "session --script s.txt q.sql R=R.csv S=S.csv",
        query: "select R.a from R union all select S.c from S",
        files: &[("R.csv", LEFT), ("S.csv", RIGHT), ("s.txt", "open a\n")],
        status: 3,
        err: "anyk: syntax error at byte 18\n",
        ..RUN
    },
];

#[test]
fn union_has_its_places(rt: HostRuntime) {
    assert!(rt; first_failing(rt.alloc(), OF_WORDS) == Ok(None));
}

const NINE_AND_EIGHT: &str =
    "select R.a from R, R, R, R, R, R, R, R, R union all select R.a from R, R, R, R, R, R, R, R";

const EIGHT_AND_EIGHT: &str =
    "select a.a from R a,R b,R c,R d,R e,R f,R g,R h union all select a.c from S a,S b,S c,S d,S e,S f,S g,S h limit 1";

const NINE_KEYS: &str =
    "select R.a from R union all select R.a from R order by R.w, R.w, R.w, R.w, R.w, R.w, R.w, R.w, R.w";

const OF_LIMITS: &[Case<'static>] = &[
    Case {
        query: NINE_AND_EIGHT,
        status: 8,
        err: "anyk: more than 16 items\n",
        ..RUN
    },
    Case {
        query: EIGHT_AND_EIGHT,
        out: "a\n1\n",
        ..RUN
    },
    Case {
        query: NINE_KEYS,
        status: 8,
        err: "anyk: more than 8 order keys\n",
        ..RUN
    },
    Case {
        query: "select R.a from R union all select S.c from S limit 18446744073709551616",
        status: 8,
        err: "anyk: limit at byte 52 out of range\n",
        ..RUN
    },
];

#[test]
fn limits_are_those_of_the_whole(rt: HostRuntime) {
    assert!(rt; first_failing(rt.alloc(), OF_LIMITS) == Ok(None));
}

/// Whether a run of this query does this, with each engine.
fn is_told<'a>(
    alloc: Global,
    query: &'a str,
    status: u8,
    out: &'a str,
    err: &'a str,
) -> Result<bool, AllocError> {
    let words = "run --rows q.sql R=R.csv";
    let call = Case {
        query,
        ..over(words, RUN.files, status, out, err)
    };
    holds(alloc, &call)
}

fn eight_branches_are_answered(alloc: Global) -> Result<bool, AllocError> {
    let more = " union all select R.a from R";
    let query = repeated(alloc, "select R.a from R", more, 7, " limit 4")?;
    let out = "a,branch,row1\n1,1,1\n2,1,2\n3,1,3\n1,2,1\n";
    is_told(alloc, &query, 0, out, "")
}

/// They have 18 items too, which is tested later.
fn nine_branches_are_refused(alloc: Global) -> Result<bool, AllocError> {
    let more = " union all select a.a from R a, R b";
    let query = repeated(alloc, "select a.a from R a, R b", more, 8, "")?;
    is_told(alloc, &query, 8, "", "anyk: more than 8 branches\n")
}

#[test]
fn there_are_at_most_eight_branches(rt: HostRuntime) {
    let alloc = rt.alloc();
    assert!(rt; eight_branches_are_answered(alloc) == Ok(true));
    assert!(rt; nine_branches_are_refused(alloc) == Ok(true));
}

/// A line with a byte of the query needs no branch.
const AT_A_BYTE: &[Case<'static>] = &[
    Case {
        query: "select R.a from R union all select X.c from S",
        status: 4,
        err: "anyk: byte 35: unknown alias\n",
        ..RUN
    },
    Case {
        query: "select R.a from R union all select S.zz from S",
        status: 4,
        err: "anyk: byte 35: unknown column\n",
        ..RUN
    },
    Case {
        query: "select R.a from R union all select w from R, S",
        status: 4,
        err: "anyk: byte 35: ambiguous column\n",
        ..RUN
    },
    Case {
        query: "select R.a from R union all select T.c from T",
        status: 4,
        err: "anyk: byte 44: unknown table\n",
        ..RUN
    },
    // The aliases of one branch are unknown in another.
    Case {
        query: "select x.a from R x union all select x.c from S",
        status: 4,
        err: "anyk: byte 37: unknown alias\n",
        ..RUN
    },
];

const LEAST_WEIGHT: &str = "b,c,w\nx,p,-170141183460469231731687303715884105728\n";

const WITH_BRANCH: &[Case<'static>] = &[
    Case {
        query: "select R.a from R union all select S.c from S, S",
        status: 4,
        err: "anyk: branch 2: item 2: alias used twice\n",
        ..RUN
    },
    Case {
        query: "select R.a from R order by R.w union all select S.c from S order by S.c",
        status: 5,
        err: "anyk: branch 2: item 1: row 1: column 2: not a weight\n",
        ..RUN
    },
    Case {
        query: "select R.a from R order by R.w union all select S.c from S order by S.w",
        files: &[("R.csv", LEFT), ("S.csv", LEAST_WEIGHT)],
        status: 7,
        err: "anyk: branch 2: order key 1: rank may pass 128 bits\n",
        ..RUN
    },
    Case {
        words: "run q.sql R=R.csv",
        query: "select R.a from R order by R.w union all select R.a from R order by R.b",
        status: 5,
        err: "anyk: branch 2: item 1: row 1: column 2: not a weight\n",
        ..RUN
    },
];

#[test]
fn refusals_tell_the_branch(rt: HostRuntime) {
    let alloc = rt.alloc();
    assert!(rt; first_failing(alloc, AT_A_BYTE) == Ok(None));
    assert!(rt; first_failing(alloc, WITH_BRANCH) == Ok(None));
}

const SHAPE: Case<'static> = Case {
    status: 15,
    err: "anyk: branch 2: shape differs\n",
    ..RUN
};

const OF_SHAPE: &[Case<'static>] = &[
    Case {
        query: "select R.a, R.b from R union all select S.c from S",
        ..SHAPE
    },
    // Columns are counted as they are selected.
    Case {
        query: "select * from R, S union all select * from R",
        ..SHAPE
    },
    Case {
        query: "select * from R union all select S.b, S.c, S.w from S limit 4",
        out: "a,b,w\n1,x,3\n2,y,1\n3,x,1\nx,p,5\n",
        ..RUN
    },
    Case {
        query: "select R.a from R order by R.w union all select S.c from S order by S.w desc",
        ..SHAPE
    },
    Case {
        query: "select R.a from R order by R.w union all select S.c from S",
        ..SHAPE
    },
    Case {
        query: "select R.a from R union all select S.c from S union all select R.a from R order by R.w",
        err: "anyk: branch 3: shape differs\n",
        ..SHAPE
    },
    // The least branch is told.
    Case {
        query: "select R.a from R union all select S.c, S.b from S union all select R.a from R order by R.w",
        ..SHAPE
    },
];

#[test]
fn shapes_are_compared(rt: HostRuntime) {
    assert!(rt; first_failing(rt.alloc(), OF_SHAPE) == Ok(None));
}

const TRIANGLE: Case<'static> = Case {
    words: "run q.sql E1=E1.csv E2=E2.csv E3=E3.csv",
    query: "select E1.p, E1.q, E1.p from E1 union all select E1.p, E2.q, E3.r from E1, E2, E3 where E1.q = E2.q and E2.r = E3.r and E3.p = E1.p",
    files: &[
        ("E1.csv", "p,q\n1,2\n1,3\n"),
        ("E2.csv", "q,r\n2,4\n3,5\n"),
        ("E3.csv", "r,p\n4,1\n5,9\n"),
    ],
    status: 6,
    err: "anyk: branch 2: cyclic query: items 1 2 3\n",
    ..RUN
};

/// Each of these breaks two rules, and the refusal is of the one that is tested first.
const BY_STAGES: &[Case<'static>] = &[
    // Tables that no argument names, and the tables of all branches, come before the names.
    Case {
        query: "select R.zz from R union all select T.c from T",
        status: 4,
        err: "anyk: byte 45: unknown table\n",
        ..RUN
    },
    Case {
        words: "run q.sql R=R.csv T=T.csv",
        query: "select R.zz from R union all select T.c from T",
        files: &[("R.csv", LEFT), ("T.csv", "")],
        status: 5,
        err: "anyk: table T: no header\n",
        ..RUN
    },
    Case {
        query: "select S.c from S union all select R.a from R",
        files: &[("R.csv", ""), ("S.csv", "b,b\n")],
        status: 5,
        err: "anyk: table S: column 2: name used twice\n",
        ..RUN
    },
    // Names, weights and ranges of one branch come before the names of the next one.
    Case {
        query: "select R.a from R order by R.b union all select S.zz from S",
        status: 5,
        err: "anyk: branch 1: item 1: row 1: column 2: not a weight\n",
        ..RUN
    },
    // The shape comes after these, and before the structure.
    Case {
        query: "select R.a, R.b from R union all select S.c from S order by S.c",
        status: 5,
        err: "anyk: branch 2: item 1: row 1: column 2: not a weight\n",
        ..RUN
    },
    TRIANGLE,
    Case {
        query: "select E1.p, E2.q, E3.r from E1, E2, E3 where E1.q = E2.q and E2.r = E3.r and E3.p = E1.p union all select E1.p, E1.q from E1",
        status: 15,
        err: "anyk: branch 2: shape differs\n",
        ..TRIANGLE
    },
];

/// The best answer of each row is that of one query.
const OF_BEST: &[Case<'static>] = &[
    Case {
        words: "run --best-of R q.sql R=R.csv S=S.csv",
        query: "select R.a from R union all select S.c from S",
        status: 15,
        err: "anyk: several branches with --best-of\n",
        ..RUN
    },
    Case {
        words: "run --best-of X q.sql R=R.csv S=S.csv",
        query: "select R.a, R.b from R union all select S.c from S",
        ..SHAPE
    },
    Case {
        words: "run --best-of E1 q.sql E1=E1.csv E2=E2.csv E3=E3.csv",
        status: 15,
        err: "anyk: several branches with --best-of\n",
        ..TRIANGLE
    },
];

#[test]
fn refusals_come_in_their_order(rt: HostRuntime) {
    let alloc = rt.alloc();
    assert!(rt; first_failing(alloc, BY_STAGES) == Ok(None));
    assert!(rt; first_failing(alloc, OF_BEST) == Ok(None));
}

const ANSWERED: Case<'static> = Case {
    words: "run --ranks --rows q.sql R=R.csv S=S.csv",
    query: BEST_FOUR,
    out: "a,rank1,branch,row1\n2,1,1,2\n3,1,1,3\nq,2,2,2\n1,3,1,1\n",
    ..RUN
};

const UNWRITTEN: Case<'static> = Case {
    status: 11,
    err: "anyk: write failed\n",
    ..ANSWERED
};

/// The header is the first record, and each record is one write.
const WRITES: &[Case<'static>] = &[
    Case {
        unwritten: 1,
        out: "",
        ..UNWRITTEN
    },
    Case {
        unwritten: 2,
        out: "a,rank1,branch,row1\n",
        ..UNWRITTEN
    },
    Case {
        unwritten: 3,
        out: "a,rank1,branch,row1\n2,1,1,2\n",
        ..UNWRITTEN
    },
    Case {
        unwritten: 4,
        out: "a,rank1,branch,row1\n2,1,1,2\n3,1,1,3\n",
        ..UNWRITTEN
    },
    Case {
        unwritten: 5,
        out: "a,rank1,branch,row1\n2,1,1,2\n3,1,1,3\nq,2,2,2\n",
        ..UNWRITTEN
    },
    Case {
        stuck: 4,
        out: "a,rank1,branch,row1\n2,1,1,2\n3,1,1,3\n",
        ..UNWRITTEN
    },
    Case {
        unwritten: 6,
        ..ANSWERED
    },
    Case {
        most: 1,
        ..ANSWERED
    },
];

#[test]
fn failing_writes_end_a_union(rt: HostRuntime) {
    assert!(rt; first_failing(rt.alloc(), WRITES) == Ok(None));
}

const UNREAD: Case<'static> = Case {
    status: 10,
    out: "",
    err: "anyk: file q.sql: read failed\n",
    ..ANSWERED
};

const TWO_OF_LEFT: Case<'static> = Case {
    words: "run q.sql R=R.csv",
    query: TWICE,
    out: "a\n2\n3\n2\n3\n1\n1\n",
    ..RUN
};

/// Three calls for each file: the query's, and the tables in the order of their first use.
const READS: &[Case<'static>] = &[
    Case {
        unread: 1,
        ..UNREAD
    },
    Case {
        unread: 4,
        err: "anyk: file R.csv: read failed\n",
        ..UNREAD
    },
    Case {
        unread: 9,
        err: "anyk: file S.csv: read failed\n",
        ..UNREAD
    },
    Case {
        unread: 10,
        ..ANSWERED
    },
    Case {
        query: "select S.c from S union all select R.a from R",
        unread: 4,
        err: "anyk: file S.csv: read failed\n",
        ..UNREAD
    },
    // A table of two branches is read once.
    Case {
        unread: 7,
        ..TWO_OF_LEFT
    },
];

#[test]
fn failing_reads_end_a_union(rt: HostRuntime) {
    assert!(rt; first_failing(rt.alloc(), READS) == Ok(None));
}
