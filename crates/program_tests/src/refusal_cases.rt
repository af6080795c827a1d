//! Inputs that are refused: only the line of the refusal is written.
use super::cases::{Case, LEFT, RIGHT, RUN, first_failing};
use std::alloc::AllocError;

const OF_WORDS_AND_FILES: &[Case<'static>] = &[
    Case {
        words: "run q.sql R=R.csv R=R.csv",
        status: 2,
        err: "anyk: usage\n",
        ..RUN
    },
    Case {
        words: "run --engine best q.sql R=R.csv S=S.csv",
        status: 2,
        err: "anyk: usage\n",
        ..RUN
    },
    Case {
        words: "run --script s.txt q.sql R=R.csv S=S.csv",
        status: 2,
        err: "anyk: usage\n",
        ..RUN
    },
    Case {
        words: "plan --engine=rec q.sql R=R.csv S=S.csv",
        status: 2,
        err: "anyk: usage\n",
        ..RUN
    },
    Case {
        words: "run p.sql R=R.csv S=S.csv",
        status: 9,
        err: "anyk: file p.sql: not found\n",
        ..RUN
    },
    Case {
        words: "run q.sql R=R.csv S=S.csv",
        files: &[("R.csv", LEFT)],
        status: 9,
        err: "anyk: file S.csv: not found\n",
        ..RUN
    },
];

const SEVENTEEN: &str =
    "select a1.a from R a1, R a2, R a3, R a4, R a5, R a6, R a7, R a8, R a9, R a10, R a11, R a12, R a13, R a14, R a15, R a16, R a17";

const NINE_KEYS: &str = "select R.a from R order by R.w, R.w, R.w, R.w, R.w, R.w, R.w, R.w, R.w";

const OF_QUERIES: &[Case<'static>] = &[
    Case {
        query: "select R.a from R where R.a < 1",
        status: 3,
        err: "anyk: syntax error at byte 28\n",
        ..RUN
    },
    Case {
        query: "select R.a R.b from R",
        status: 3,
        err: "anyk: syntax error at byte 11\n",
        ..RUN
    },
    Case {
        query: "select R.a from",
        status: 3,
        err: "anyk: syntax error at byte 15\n",
        ..RUN
    },
    Case {
        query: "select R.a from R limit 18446744073709551616",
        status: 8,
        err: "anyk: limit at byte 24 out of range\n",
        ..RUN
    },
    Case {
        query: SEVENTEEN,
        status: 8,
        err: "anyk: more than 16 items\n",
        ..RUN
    },
    Case {
        query: NINE_KEYS,
        status: 8,
        err: "anyk: more than 8 order keys\n",
        ..RUN
    },
    Case {
        words: "run q.sql R=R.csv",
        status: 4,
        err: "anyk: byte 24: unknown table\n",
        ..RUN
    },
    Case {
        query: "select w from R, S",
        status: 4,
        err: "anyk: byte 7: ambiguous column\n",
        ..RUN
    },
    Case {
        query: "select R.a from R, R",
        status: 4,
        err: "anyk: item 2: alias used twice\n",
        ..RUN
    },
    Case {
        query: "select R.a, T.c from R, S",
        status: 4,
        err: "anyk: byte 12: unknown alias\n",
        ..RUN
    },
    Case {
        query: "select R.a, S.a from R, S",
        status: 4,
        err: "anyk: byte 12: unknown column\n",
        ..RUN
    },
];

const SIXTY_FIVE: &str =
    "c,c,c,c,c,c,c,c,c,c,c,c,c,c,c,c,c,c,c,c,c,c,c,c,c,c,c,c,c,c,c,c,c,c,c,c,c,c,c,c,c,c,c,c,c,c,c,c,c,c,c,c,c,c,c,c,c,c,c,c,c,c,c,c,c\n";

const OF_TABLES: &[Case<'static>] = &[
    Case {
        files: &[("R.csv", LEFT), ("S.csv", "")],
        status: 5,
        err: "anyk: table S: no header\n",
        ..RUN
    },
    Case {
        files: &[("R.csv", LEFT), ("S.csv", SIXTY_FIVE)],
        status: 8,
        err: "anyk: table S: more than 64 columns\n",
        ..RUN
    },
    Case {
        files: &[("R.csv", LEFT), ("S.csv", "b,b,w\n")],
        status: 5,
        err: "anyk: table S: column 2: name used twice\n",
        ..RUN
    },
    Case {
        files: &[("R.csv", LEFT), ("S.csv", "b,c,w\nx,p,5\nx\n")],
        status: 5,
        err: "anyk: table S: row 2: wrong number of fields\n",
        ..RUN
    },
    Case {
        files: &[
            ("R.csv", "a,b,w\n1,x,3\n2,y,12x\n3,x,1\n"),
            ("S.csv", RIGHT),
        ],
        status: 5,
        err: "anyk: item 1: row 2: column 3: not a weight\n",
        ..RUN
    },
    Case {
        files: &[
            (
                "R.csv",
                "a,b,w\n1,x,170141183460469231731687303715884105727\n",
            ),
            ("S.csv", "b,c,w\nx,p,1\n"),
        ],
        status: 7,
        err: "anyk: order key 1: rank may pass 128 bits\n",
        ..RUN
    },
];

const TRIANGLE: Case<'static> = Case {
    words: "run q.sql E1=E1.csv E2=E2.csv E3=E3.csv",
    query: "select E1.p, E2.q, E3.r from E1, E2, E3 where E1.q = E2.q and E2.r = E3.r and E3.p = E1.p",
    files: &[
        ("E1.csv", "p,q\n1,2\n1,3\n"),
        ("E2.csv", "q,r\n2,4\n3,5\n"),
        ("E3.csv", "r,p\n4,1\n5,9\n"),
    ],
    status: 6,
    err: "anyk: cyclic query: items 1 2 3\n",
    ..RUN
};

const TWO_CYCLES: Case<'static> = Case {
    words: "run q.sql A=A.csv B=B.csv C=C.csv D=D.csv E=E.csv",
    query: "select A.x, B.z, D.w from A, B, C, D, E where A.y = B.y and B.z = C.z and C.x = A.x and A.y = D.y and D.w = E.w and E.x = A.x",
    files: &[
        ("A.csv", "x,y\n1,2\n"),
        ("B.csv", "y,z\n2,3\n"),
        ("C.csv", "z,x\n3,1\n"),
        ("D.csv", "y,w\n2,4\n"),
        ("E.csv", "w,x\n4,1\n"),
    ],
    status: 6,
    err: "anyk: cyclic query: items 1 2 3 4 5\n",
    ..RUN
};

const OF_CYCLES: &[Case<'static>] = &[
    TRIANGLE,
    TWO_CYCLES,
    Case {
        words: "plan q.sql E1=E1.csv E2=E2.csv E3=E3.csv",
        ..TRIANGLE
    },
    Case {
        words: "plan q.sql A=A.csv B=B.csv C=C.csv D=D.csv E=E.csv",
        ..TWO_CYCLES
    },
    // The items that ear removal takes off are not in the core.
    Case {
        query: "select t.a from R s, R x, R y, R z, R t where x.a = y.b and y.a = z.b and z.a = x.b and s.w = x.w and t.w = s.w",
        status: 6,
        err: "anyk: cyclic query: items 2 3 4\n",
        ..RUN
    },
];

/// Each of these breaks two rules, and the refusal is of the one that is tested first.
const IN_ORDER: &[Case<'static>] = &[
    Case {
        words: "run q.sql R=T.csv",
        query: "select",
        status: 3,
        err: "anyk: syntax error at byte 6\n",
        ..RUN
    },
    Case {
        words: "run q.sql R=T.csv",
        status: 4,
        err: "anyk: byte 24: unknown table\n",
        ..RUN
    },
    Case {
        query: "select X.a from R, S",
        files: &[("R.csv", LEFT), ("S.csv", "")],
        status: 5,
        err: "anyk: table S: no header\n",
        ..RUN
    },
    Case {
        query: "select X.a from R, S order by R.w",
        files: &[("R.csv", "a,b,w\n1,x,y\n"), ("S.csv", RIGHT)],
        status: 4,
        err: "anyk: byte 7: unknown alias\n",
        ..RUN
    },
    Case {
        query: "select x.a from R x, R y, R z where x.a = y.b and y.a = z.b and z.a = x.b order by x.w",
        files: &[("R.csv", "a,b,w\n1,x,y\n")],
        status: 5,
        err: "anyk: item 1: row 1: column 3: not a weight\n",
        ..RUN
    },
    // A table that no item uses is not read.
    Case {
        words: "run q.sql R=R.csv S=S.csv T=T.csv",
        query: "select R.a from R",
        files: &[("R.csv", LEFT), ("S.csv", "")],
        out: "a\n1\n2\n3\n",
        ..RUN
    },
];

#[test]
fn words_and_files_are_refused(rt: HostRuntime) {
    assert!(rt; first_failing(rt.alloc(), OF_WORDS_AND_FILES) == Ok(None));
}

#[test]
fn queries_are_refused(rt: HostRuntime) {
    assert!(rt; first_failing(rt.alloc(), OF_QUERIES) == Ok(None));
}

#[test]
fn tables_are_refused(rt: HostRuntime) {
    assert!(rt; first_failing(rt.alloc(), OF_TABLES) == Ok(None));
}

#[test]
fn cycles_are_refused(rt: HostRuntime) {
    assert!(rt; first_failing(rt.alloc(), OF_CYCLES) == Ok(None));
}

#[test]
fn refusals_come_in_their_order(rt: HostRuntime) {
    assert!(rt; first_failing(rt.alloc(), IN_ORDER) == Ok(None));
}
