//! Certificates of the first answers: what `prove` writes, and what `verify` makes of a text.
use super::cases::{Case, LEFT, RIGHT, RUN, first_failing};
use std::alloc::AllocError;

const PROVE: &str = "prove q.sql R=R.csv S=S.csv";

const VERIFY: &str = "verify --proof p.txt q.sql R=R.csv S=S.csv";

const ALL: &str = "select R.a, S.c from R, S where R.b = S.b order by R.w + S.w";

const FIRST_TWO: &str = "select R.a, S.c from R, S where R.b = S.b order by R.w + S.w limit 2";

const FIRST_THREE: &str = "select R.a, S.c from R, S where R.b = S.b order by R.w + S.w limit 3";

const FIRST_ONE: &str = "select R.a, S.c from R, S where R.b = S.b order by R.w + S.w limit 1";

const NONE_WANTED: &str = "select R.a, S.c from R, S where R.b = S.b order by R.w + S.w limit 0";

const CROSSED: &str = "select R.a, S.c from R, S order by R.w + S.w limit 3";

const ALONE: &str = "select R.a from R order by R.w limit 2";

const SHOWN_TWO: &str =
    "anyk-proof 1\nbound 1 2 2\nbound 2 2\nbound 2 3\nanswer 2 2\nanswer 3 3\nmore\n";

const TWO_TABLES: &[Case<'static>] = &[
    Case {
        words: PROVE,
        query: FIRST_TWO,
        out: SHOWN_TWO,
        ..RUN
    },
    Case {
        words: PROVE,
        query: NONE_WANTED,
        out: "anyk-proof 1\nbound 1 2 2\nbound 2 2\nbound 2 3\nmore\n",
        ..RUN
    },
    // In a cross product each child has one group.
    Case {
        words: PROVE,
        query: CROSSED,
        out: "anyk-proof 1\nbound 1 2 2\nbound 2 2\nanswer 2 2\nanswer 3 2\nanswer 1 2\nmore\n",
        ..RUN
    },
    Case {
        words: "prove q.sql R=R.csv",
        query: ALONE,
        out: "anyk-proof 1\nbound 1 2\nanswer 2\nanswer 3\nmore\n",
        ..RUN
    },
    // The ranking ends before a limit.
    Case {
        words: PROVE,
        out: "anyk-proof 1\nbound 1 2 2\nbound 2 2\nbound 2 3\nanswer 2 2\nanswer 3 3\nanswer 3 1\nanswer 1 3\nanswer 1 1\nend\n",
        ..RUN
    },
];

#[test]
fn proves_the_first_answers(rt: HostRuntime) {
    assert!(rt; first_failing(rt.alloc(), TWO_TABLES) == Ok(None));
}

const ACCEPTED: &[Case<'static>] = &[
    Case {
        words: VERIFY,
        query: FIRST_TWO,
        files: &[("R.csv", LEFT), ("S.csv", RIGHT), ("p.txt", SHOWN_TWO)],
        out: "a,c\n2,q\n3,q\n",
        ..RUN
    },
    Case {
        words: "verify --ranks --proof p.txt --rows q.sql R=R.csv S=S.csv",
        query: FIRST_TWO,
        files: &[("R.csv", LEFT), ("S.csv", RIGHT), ("p.txt", SHOWN_TWO)],
        out: "a,c,rank1,row1,row2\n2,q,3,2,2\n3,q,5,3,3\n",
        ..RUN
    },
    // Bounds may come in any order, lines may end with a carriage return, and the last line needs
    // no end.
    Case {
        words: VERIFY,
        query: FIRST_TWO,
        files: &[
            ("R.csv", LEFT),
            ("S.csv", RIGHT),
            (
                "p.txt",
                "anyk-proof 1\r\nbound 2 3\r\nbound 1 2 2\r\nbound 2 2\r\nanswer 2 2\r\nanswer 3 3\r\nmore",
            ),
        ],
        out: "a,c\n2,q\n3,q\n",
        ..RUN
    },
    Case {
        words: VERIFY,
        query: NONE_WANTED,
        files: &[
            ("R.csv", LEFT),
            ("S.csv", RIGHT),
            (
                "p.txt",
                "anyk-proof 1\nbound 1 2 2\nbound 2 2\nbound 2 3\nmore\n",
            ),
        ],
        out: "a,c\n",
        ..RUN
    },
    Case {
        words: VERIFY,
        query: CROSSED,
        files: &[
            ("R.csv", LEFT),
            ("S.csv", RIGHT),
            (
                "p.txt",
                "anyk-proof 1\nbound 1 2 2\nbound 2 2\nanswer 2 2\nanswer 3 2\nanswer 1 2\nmore\n",
            ),
        ],
        out: "a,c\n2,q\n3,q\n1,q\n",
        ..RUN
    },
    Case {
        words: "verify --proof p.txt q.sql R=R.csv",
        query: ALONE,
        files: &[
            ("R.csv", LEFT),
            (
                "p.txt",
                "anyk-proof 1\nbound 1 2\nanswer 2\nanswer 3\nmore\n",
            ),
        ],
        out: "a\n2\n3\n",
        ..RUN
    },
    Case {
        words: VERIFY,
        query: ALL,
        files: &[
            ("R.csv", LEFT),
            ("S.csv", RIGHT),
            (
                "p.txt",
                "anyk-proof 1\nbound 1 2 2\nbound 2 2\nbound 2 3\nanswer 2 2\nanswer 3 3\nanswer 3 1\nanswer 1 3\nanswer 1 1\nend\n",
            ),
        ],
        out: "a,c\n2,q\n3,q\n3,p\n1,q\n1,p\n",
        ..RUN
    },
];

#[test]
fn verifies_what_is_valid(rt: HostRuntime) {
    assert!(rt; first_failing(rt.alloc(), ACCEPTED) == Ok(None));
}

const REFUSED: &[Case<'static>] = &[
    Case {
        words: VERIFY,
        query: FIRST_TWO,
        files: &[
            ("R.csv", LEFT),
            ("S.csv", RIGHT),
            (
                "p.txt",
                "anyk-proof 1\nbound 1 2 2\nbound 2 2\nbound 2 3\nanswer 2 2\nanswer 3 1\nmore\n",
            ),
        ],
        status: 14,
        err: "anyk: proof: unlisted answer\n",
        ..RUN
    },
    Case {
        words: VERIFY,
        query: FIRST_TWO,
        files: &[
            ("R.csv", LEFT),
            ("S.csv", RIGHT),
            (
                "p.txt",
                "anyk-proof 1\nbound 1 2 2\nbound 2 2\nbound 2 3\nanswer 3 3\nanswer 2 2\nmore\n",
            ),
        ],
        status: 14,
        err: "anyk: proof line 6: not in order\n",
        ..RUN
    },
    Case {
        words: VERIFY,
        query: FIRST_TWO,
        files: &[
            ("R.csv", LEFT),
            ("S.csv", RIGHT),
            (
                "p.txt",
                "anyk-proof 1\nbound 1 2 2\nbound 2 2\nanswer 2 2\nanswer 3 3\nmore\n",
            ),
        ],
        status: 14,
        err: "anyk: proof node 2: bound missing or too high\n",
        ..RUN
    },
    // Bounds are looked at before answers.
    Case {
        words: VERIFY,
        query: FIRST_THREE,
        files: &[
            ("R.csv", LEFT),
            ("S.csv", RIGHT),
            (
                "p.txt",
                "anyk-proof 1\nbound 2 2\nbound 2 3\nanswer 9 9\nmore\n",
            ),
        ],
        status: 14,
        err: "anyk: proof node 1: bound missing or too high\n",
        ..RUN
    },
    // Each answer is looked at before their order.
    Case {
        words: VERIFY,
        query: FIRST_THREE,
        files: &[
            ("R.csv", LEFT),
            ("S.csv", RIGHT),
            (
                "p.txt",
                "anyk-proof 1\nbound 1 2 2\nbound 2 2\nbound 2 3\nanswer 3 3\nanswer 2 2\nanswer 1 2\nmore\n",
            ),
        ],
        status: 14,
        err: "anyk: proof line 7: no answer\n",
        ..RUN
    },
    Case {
        words: VERIFY,
        query: FIRST_THREE,
        files: &[
            ("R.csv", LEFT),
            ("S.csv", RIGHT),
            (
                "p.txt",
                "anyk-proof 1\nbound 1 2 2\nbound 2 2\nbound 2 3\nanswer 3 3\nanswer 2 2\nmore\n",
            ),
        ],
        status: 14,
        err: "anyk: proof line 6: not in order\n",
        ..RUN
    },
    Case {
        words: VERIFY,
        query: FIRST_THREE,
        files: &[
            ("R.csv", LEFT),
            ("S.csv", RIGHT),
            (
                "p.txt",
                "anyk-proof 1\nbound 1 2 2\nbound 2 2\nbound 2 3\nanswer 3 3\nmore\n",
            ),
        ],
        status: 14,
        err: "anyk: proof: wrong number of answers\n",
        ..RUN
    },
    Case {
        words: VERIFY,
        query: FIRST_ONE,
        files: &[
            ("R.csv", LEFT),
            ("S.csv", RIGHT),
            (
                "p.txt",
                "anyk-proof 1\nbound 1 2 2\nbound 2 2\nbound 2 3\nanswer 3 3\nmore\n",
            ),
        ],
        status: 14,
        err: "anyk: proof: unlisted answer\n",
        ..RUN
    },
    // A bound that is none comes before one that is there twice.
    Case {
        words: VERIFY,
        query: FIRST_THREE,
        files: &[
            ("R.csv", LEFT),
            ("S.csv", RIGHT),
            (
                "p.txt",
                "anyk-proof 1\nbound 2 2\nbound 2 2\nbound 2 9\nmore\n",
            ),
        ],
        status: 14,
        err: "anyk: proof line 4: no solution\n",
        ..RUN
    },
    Case {
        words: VERIFY,
        query: FIRST_THREE,
        files: &[
            ("R.csv", LEFT),
            ("S.csv", RIGHT),
            (
                "p.txt",
                "anyk-proof 1\nbound 1 2 2\nbound 2 2\nbound 2 2\nmore\n",
            ),
        ],
        status: 14,
        err: "anyk: proof line 4: bound twice\n",
        ..RUN
    },
    Case {
        words: VERIFY,
        query: NONE_WANTED,
        files: &[
            ("R.csv", LEFT),
            ("S.csv", RIGHT),
            (
                "p.txt",
                "anyk-proof 1\nbound 1 2 2\nbound 2 2\nbound 2 3\nend\n",
            ),
        ],
        status: 14,
        err: "anyk: proof: unlisted answer\n",
        ..RUN
    },
];

#[test]
fn refuses_what_is_not_valid(rt: HostRuntime) {
    assert!(rt; first_failing(rt.alloc(), REFUSED) == Ok(None));
}

const FORMS: &[Case<'static>] = &[
    Case {
        words: VERIFY,
        query: FIRST_TWO,
        files: &[("R.csv", LEFT), ("S.csv", RIGHT), ("p.txt", "")],
        status: 14,
        err: "anyk: proof: bad header\n",
        ..RUN
    },
    Case {
        words: VERIFY,
        query: FIRST_TWO,
        files: &[
            ("R.csv", LEFT),
            ("S.csv", RIGHT),
            ("p.txt", "anyk-proof 2\nmore\n"),
        ],
        status: 14,
        err: "anyk: proof: bad header\n",
        ..RUN
    },
    Case {
        words: VERIFY,
        query: FIRST_TWO,
        files: &[
            ("R.csv", LEFT),
            ("S.csv", RIGHT),
            ("p.txt", "anyk-proof 1\n"),
        ],
        status: 14,
        err: "anyk: proof line 2: bad line\n",
        ..RUN
    },
    Case {
        words: VERIFY,
        query: FIRST_TWO,
        files: &[
            ("R.csv", LEFT),
            ("S.csv", RIGHT),
            ("p.txt", "anyk-proof 1\n\nmore\n"),
        ],
        status: 14,
        err: "anyk: proof line 2: bad line\n",
        ..RUN
    },
    Case {
        words: VERIFY,
        query: FIRST_TWO,
        files: &[
            ("R.csv", LEFT),
            ("S.csv", RIGHT),
            ("p.txt", "anyk-proof 1\n-- bounds\nmore\n"),
        ],
        status: 14,
        err: "anyk: proof line 2: bad line\n",
        ..RUN
    },
    Case {
        words: VERIFY,
        query: FIRST_TWO,
        files: &[
            ("R.csv", LEFT),
            ("S.csv", RIGHT),
            ("p.txt", "anyk-proof 1\nbound  2 2\nmore\n"),
        ],
        status: 14,
        err: "anyk: proof line 2: bad line\n",
        ..RUN
    },
    Case {
        words: VERIFY,
        query: FIRST_TWO,
        files: &[
            ("R.csv", LEFT),
            ("S.csv", RIGHT),
            ("p.txt", "anyk-proof 1\nbound 2 02\nmore\n"),
        ],
        status: 14,
        err: "anyk: proof line 2: bad line\n",
        ..RUN
    },
    Case {
        words: VERIFY,
        query: FIRST_TWO,
        files: &[
            ("R.csv", LEFT),
            ("S.csv", RIGHT),
            ("p.txt", "anyk-proof 1\nanswer 12345678\nmore\n"),
        ],
        status: 14,
        err: "anyk: proof line 2: bad line\n",
        ..RUN
    },
    Case {
        words: VERIFY,
        query: FIRST_TWO,
        files: &[
            ("R.csv", LEFT),
            ("S.csv", RIGHT),
            ("p.txt", "anyk-proof 1\nanswer 2 2\nbound 2 2\nmore\n"),
        ],
        status: 14,
        err: "anyk: proof line 3: bad line\n",
        ..RUN
    },
    Case {
        words: VERIFY,
        query: FIRST_TWO,
        files: &[
            ("R.csv", LEFT),
            ("S.csv", RIGHT),
            ("p.txt", "anyk-proof 1\nmore\nmore\n"),
        ],
        status: 14,
        err: "anyk: proof line 3: bad line\n",
        ..RUN
    },
    Case {
        words: VERIFY,
        query: FIRST_TWO,
        files: &[
            ("R.csv", LEFT),
            ("S.csv", RIGHT),
            ("p.txt", "anyk-proof 1\nmore\r"),
        ],
        status: 14,
        err: "anyk: proof line 2: bad line\n",
        ..RUN
    },
    // The form comes before the structure of the query.
    Case {
        words: "verify --proof p.txt q.sql R=R.csv",
        query: "select R.a from R, R as b, R as c where R.a = b.b and b.a = c.b and c.a = R.b order by R.w",
        files: &[("R.csv", LEFT), ("p.txt", "anyk-proof 1\nends\n")],
        status: 14,
        err: "anyk: proof line 2: bad line\n",
        ..RUN
    },
    Case {
        words: "verify --proof p.txt q.sql R=R.csv",
        query: "select R.a from R, R as b, R as c where R.a = b.b and b.a = c.b and c.a = R.b order by R.w",
        files: &[("R.csv", LEFT), ("p.txt", "anyk-proof 1\nend\n")],
        status: 6,
        err: "anyk: cyclic query: items 1 2 3\n",
        ..RUN
    },
    // The certificate comes before the names of tables.
    Case {
        words: "verify --proof p.txt q.sql R=R.csv",
        query: "select R.a from T as R",
        files: &[("R.csv", LEFT), ("p.txt", "no proof\n")],
        status: 14,
        err: "anyk: proof: bad header\n",
        ..RUN
    },
];

#[test]
fn refuses_what_has_no_form(rt: HostRuntime) {
    assert!(rt; first_failing(rt.alloc(), FORMS) == Ok(None));
}

const ELSEWHERE: &[Case<'static>] = &[
    Case {
        words: VERIFY,
        status: 9,
        err: "anyk: file p.txt: not found\n",
        ..RUN
    },
    // The query is parsed before the certificate is read.
    Case {
        words: VERIFY,
        query: "select R.a",
        status: 3,
        err: "anyk: syntax error at byte 10\n",
        ..RUN
    },
    Case {
        words: VERIFY,
        query: FIRST_TWO,
        files: &[("R.csv", LEFT), ("S.csv", RIGHT), ("p.txt", SHOWN_TWO)],
        unread: 4,
        status: 10,
        err: "anyk: file p.txt: read failed\n",
        ..RUN
    },
    Case {
        words: VERIFY,
        query: FIRST_TWO,
        files: &[("R.csv", LEFT), ("S.csv", RIGHT), ("p.txt", SHOWN_TWO)],
        unwritten: 2,
        status: 11,
        out: "a,c\n",
        err: "anyk: write failed\n",
        ..RUN
    },
    // One write has the whole certificate.
    Case {
        words: PROVE,
        query: FIRST_TWO,
        unwritten: 1,
        status: 11,
        err: "anyk: write failed\n",
        ..RUN
    },
    // One query is read alone.
    Case {
        words: PROVE,
        query: "select R.a from R union all select S.c from S",
        status: 3,
        err: "anyk: syntax error at byte 18\n",
        ..RUN
    },
];

#[test]
fn other_files_and_sinks_fail(rt: HostRuntime) {
    assert!(rt; first_failing(rt.alloc(), ELSEWHERE) == Ok(None));
}

/// Row 3 of A has no rows below it, and one group of each of the others is named by no row.
const PATH_FILES: &[(&str, &str)] = &[
    ("A.csv", "x,w\n1,1\n2,5\n3,0\n"),
    ("B.csv", "x,y,w\n1,a,2\n1,b,1\n2,a,1\n9,a,0\n3,c,0\n"),
    ("C.csv", "y,w\na,4\nb,9\na,6\nz,0\n"),
];

const PATH: &str =
    "select A.x, B.y, C.w from A, B, C where A.x = B.x and B.y = C.y order by A.w + B.w + C.w";

const PATH_THREE: &str =
    "select A.x, B.y, C.w from A, B, C where A.x = B.x and B.y = C.y order by A.w + B.w + C.w limit 3";

const MIDDLE_LAST: &str =
    "select A.x, B.y, C.w from A, C, B where A.x = B.x and B.y = C.y order by A.w + B.w + C.w limit 2";

const PROVE_PATH: &str = "prove q.sql A=A.csv B=B.csv C=C.csv";

const STAR: &str =
    "select H.k, M.a, N.b from H, M, N where H.k = M.k and H.k = N.k order by M.w + N.w limit 3";

const STAR_FILES: &[(&str, &str)] = &[
    ("H.csv", "k\nu\nv\n"),
    ("M.csv", "k,a,w\nu,1,0\nu,2,1\nv,3,0\n"),
    ("N.csv", "k,b,w\nu,7,1\nu,8,0\nv,9,0\nv,9,1\n"),
];

const TWO_KEYS: &str =
    "select D.g, E.r from D, E where D.g = E.g order by D.p desc, E.r + D.q limit 3";

const MORE_TABLES: &[Case<'static>] = &[
    Case {
        words: PROVE_PATH,
        query: PATH_THREE,
        files: PATH_FILES,
        out: "anyk-proof 1\nbound 1 1 1 1\nbound 2 1 1\nbound 2 3 1\nbound 2 4 1\nbound 3 1\nbound 3 2\nbound 3 4\nanswer 1 1 1\nanswer 1 1 3\nanswer 2 3 1\nmore\n",
        ..RUN
    },
    Case {
        words: PROVE_PATH,
        query: PATH,
        files: PATH_FILES,
        out: "anyk-proof 1\nbound 1 1 1 1\nbound 2 1 1\nbound 2 3 1\nbound 2 4 1\nbound 3 1\nbound 3 2\nbound 3 4\nanswer 1 1 1\nanswer 1 1 3\nanswer 2 3 1\nanswer 1 2 2\nanswer 2 3 3\nend\n",
        ..RUN
    },
    // Rows stand in the order of the items, and nodes in that of the join tree.
    Case {
        words: "prove q.sql A=A.csv C=C.csv B=B.csv",
        query: MIDDLE_LAST,
        files: PATH_FILES,
        out: "anyk-proof 1\nbound 1 1 1 1\nbound 2 1 1\nbound 2 1 3\nbound 2 1 4\nbound 3 1\nbound 3 2\nbound 3 4\nanswer 1 1 1\nanswer 1 3 1\nmore\n",
        ..RUN
    },
    // There is no answer, and groups that no row names have their bounds.
    Case {
        words: PROVE_PATH,
        query: PATH,
        files: &[
            ("A.csv", "x,w\n1,1\n2,5\n3,0\n"),
            ("B.csv", "x,y,w\n7,a,1\n"),
            ("C.csv", "y,w\na,4\nb,9\na,6\nz,0\n"),
        ],
        out: "anyk-proof 1\nbound 2 1 1\nbound 3 1\nbound 3 2\nbound 3 4\nend\n",
        ..RUN
    },
    Case {
        words: "prove q.sql H=H.csv M=M.csv N=N.csv",
        query: STAR,
        files: STAR_FILES,
        out: "anyk-proof 1\nbound 1 1 1 2\nbound 2 1\nbound 2 3\nbound 3 2\nbound 3 3\nanswer 1 1 2\nanswer 2 3 3\nanswer 1 1 1\nmore\n",
        ..RUN
    },
    Case {
        words: "prove q.sql D=D.csv E=E.csv",
        query: TWO_KEYS,
        files: &[
            ("D.csv", "g,p,q\n1,5,0\n1,5,0\n2,7,1\n"),
            ("E.csv", "g,r\n1,3\n2,3\n1,2\n"),
        ],
        out: "anyk-proof 1\nbound 1 3 2\nbound 2 2\nbound 2 3\nanswer 3 2\nanswer 1 3\nanswer 2 3\nmore\n",
        ..RUN
    },
];

#[test]
fn proves_over_more_tables(rt: HostRuntime) {
    assert!(rt; first_failing(rt.alloc(), MORE_TABLES) == Ok(None));
}

const PATHS: &[Case<'static>] = &[
    Case {
        words: "verify --proof p.txt q.sql A=A.csv B=B.csv C=C.csv",
        query: PATH_THREE,
        files: &[
            ("A.csv", "x,w\n1,1\n2,5\n3,0\n"),
            ("B.csv", "x,y,w\n1,a,2\n1,b,1\n2,a,1\n9,a,0\n3,c,0\n"),
            ("C.csv", "y,w\na,4\nb,9\na,6\nz,0\n"),
            (
                "p.txt",
                "anyk-proof 1\nbound 1 1 1 1\nbound 2 1 1\nbound 2 3 1\nbound 2 4 1\nbound 3 1\nbound 3 2\nbound 3 4\nanswer 1 1 1\nanswer 1 1 3\nanswer 2 3 1\nmore\n",
            ),
        ],
        out: "x,y,w\n1,a,4\n1,a,6\n2,a,4\n",
        ..RUN
    },
    Case {
        words: "verify --proof p.txt q.sql A=A.csv B=B.csv C=C.csv",
        query: PATH_THREE,
        files: &[
            ("A.csv", "x,w\n1,1\n2,5\n3,0\n"),
            ("B.csv", "x,y,w\n1,a,2\n1,b,1\n2,a,1\n9,a,0\n3,c,0\n"),
            ("C.csv", "y,w\na,4\nb,9\na,6\nz,0\n"),
            (
                "p.txt",
                "anyk-proof 1\nbound 2 1 1\nbound 1 1 1 1\nbound 2 3 1\nbound 2 4 1\nbound 3 1\nbound 3 2\nbound 3 4\nanswer 1 1 1\nanswer 1 1 3\nanswer 2 3 1\nmore\n",
            ),
        ],
        out: "x,y,w\n1,a,4\n1,a,6\n2,a,4\n",
        ..RUN
    },
    // Each bound is asked for.
    Case {
        words: "verify --proof p.txt q.sql A=A.csv B=B.csv C=C.csv",
        query: PATH_THREE,
        files: &[
            ("A.csv", "x,w\n1,1\n2,5\n3,0\n"),
            ("B.csv", "x,y,w\n1,a,2\n1,b,1\n2,a,1\n9,a,0\n3,c,0\n"),
            ("C.csv", "y,w\na,4\nb,9\na,6\nz,0\n"),
            (
                "p.txt",
                "anyk-proof 1\nbound 2 1 1\nbound 2 3 1\nbound 2 4 1\nbound 3 1\nbound 3 2\nbound 3 4\nanswer 1 1 1\nanswer 1 1 3\nanswer 2 3 1\nmore\n",
            ),
        ],
        status: 14,
        err: "anyk: proof node 1: bound missing or too high\n",
        ..RUN
    },
    Case {
        words: "verify --proof p.txt q.sql A=A.csv B=B.csv C=C.csv",
        query: PATH_THREE,
        files: &[
            ("A.csv", "x,w\n1,1\n2,5\n3,0\n"),
            ("B.csv", "x,y,w\n1,a,2\n1,b,1\n2,a,1\n9,a,0\n3,c,0\n"),
            ("C.csv", "y,w\na,4\nb,9\na,6\nz,0\n"),
            (
                "p.txt",
                "anyk-proof 1\nbound 1 1 1 1\nbound 2 3 1\nbound 2 4 1\nbound 3 1\nbound 3 2\nbound 3 4\nanswer 1 1 1\nanswer 1 1 3\nanswer 2 3 1\nmore\n",
            ),
        ],
        status: 14,
        err: "anyk: proof node 2: bound missing or too high\n",
        ..RUN
    },
    Case {
        words: "verify --proof p.txt q.sql A=A.csv B=B.csv C=C.csv",
        query: PATH_THREE,
        files: &[
            ("A.csv", "x,w\n1,1\n2,5\n3,0\n"),
            ("B.csv", "x,y,w\n1,a,2\n1,b,1\n2,a,1\n9,a,0\n3,c,0\n"),
            ("C.csv", "y,w\na,4\nb,9\na,6\nz,0\n"),
            (
                "p.txt",
                "anyk-proof 1\nbound 1 1 1 1\nbound 2 1 1\nbound 2 4 1\nbound 3 1\nbound 3 2\nbound 3 4\nanswer 1 1 1\nanswer 1 1 3\nanswer 2 3 1\nmore\n",
            ),
        ],
        status: 14,
        err: "anyk: proof node 2: bound missing or too high\n",
        ..RUN
    },
    Case {
        words: "verify --proof p.txt q.sql A=A.csv B=B.csv C=C.csv",
        query: PATH_THREE,
        files: &[
            ("A.csv", "x,w\n1,1\n2,5\n3,0\n"),
            ("B.csv", "x,y,w\n1,a,2\n1,b,1\n2,a,1\n9,a,0\n3,c,0\n"),
            ("C.csv", "y,w\na,4\nb,9\na,6\nz,0\n"),
            (
                "p.txt",
                "anyk-proof 1\nbound 1 1 1 1\nbound 2 1 1\nbound 2 3 1\nbound 3 1\nbound 3 2\nbound 3 4\nanswer 1 1 1\nanswer 1 1 3\nanswer 2 3 1\nmore\n",
            ),
        ],
        status: 14,
        err: "anyk: proof node 2: bound missing or too high\n",
        ..RUN
    },
    Case {
        words: "verify --proof p.txt q.sql A=A.csv B=B.csv C=C.csv",
        query: PATH_THREE,
        files: &[
            ("A.csv", "x,w\n1,1\n2,5\n3,0\n"),
            ("B.csv", "x,y,w\n1,a,2\n1,b,1\n2,a,1\n9,a,0\n3,c,0\n"),
            ("C.csv", "y,w\na,4\nb,9\na,6\nz,0\n"),
            (
                "p.txt",
                "anyk-proof 1\nbound 1 1 1 1\nbound 2 1 1\nbound 2 3 1\nbound 2 4 1\nbound 3 2\nbound 3 4\nanswer 1 1 1\nanswer 1 1 3\nanswer 2 3 1\nmore\n",
            ),
        ],
        status: 14,
        err: "anyk: proof node 3: bound missing or too high\n",
        ..RUN
    },
    Case {
        words: "verify --proof p.txt q.sql A=A.csv B=B.csv C=C.csv",
        query: PATH_THREE,
        files: &[
            ("A.csv", "x,w\n1,1\n2,5\n3,0\n"),
            ("B.csv", "x,y,w\n1,a,2\n1,b,1\n2,a,1\n9,a,0\n3,c,0\n"),
            ("C.csv", "y,w\na,4\nb,9\na,6\nz,0\n"),
            (
                "p.txt",
                "anyk-proof 1\nbound 1 1 1 1\nbound 2 1 1\nbound 2 3 1\nbound 2 4 1\nbound 3 1\nbound 3 4\nanswer 1 1 1\nanswer 1 1 3\nanswer 2 3 1\nmore\n",
            ),
        ],
        status: 14,
        err: "anyk: proof node 3: bound missing or too high\n",
        ..RUN
    },
    Case {
        words: "verify --proof p.txt q.sql A=A.csv B=B.csv C=C.csv",
        query: PATH_THREE,
        files: &[
            ("A.csv", "x,w\n1,1\n2,5\n3,0\n"),
            ("B.csv", "x,y,w\n1,a,2\n1,b,1\n2,a,1\n9,a,0\n3,c,0\n"),
            ("C.csv", "y,w\na,4\nb,9\na,6\nz,0\n"),
            (
                "p.txt",
                "anyk-proof 1\nbound 1 1 1 1\nbound 2 1 1\nbound 2 3 1\nbound 2 4 1\nbound 3 1\nbound 3 2\nanswer 1 1 1\nanswer 1 1 3\nanswer 2 3 1\nmore\n",
            ),
        ],
        status: 14,
        err: "anyk: proof node 3: bound missing or too high\n",
        ..RUN
    },
    Case {
        words: "verify --proof p.txt q.sql A=A.csv B=B.csv C=C.csv",
        query: PATH_THREE,
        files: &[
            ("A.csv", "x,w\n1,1\n2,5\n3,0\n"),
            ("B.csv", "x,y,w\n1,a,2\n1,b,1\n2,a,1\n9,a,0\n3,c,0\n"),
            ("C.csv", "y,w\na,4\nb,9\na,6\nz,0\n"),
            (
                "p.txt",
                "anyk-proof 1\nbound 1 1 1 1\nbound 2 1 3\nbound 2 3 1\nbound 2 4 1\nbound 3 1\nbound 3 2\nbound 3 4\nanswer 1 1 1\nanswer 1 1 3\nanswer 2 3 1\nmore\n",
            ),
        ],
        status: 14,
        err: "anyk: proof node 2: bound missing or too high\n",
        ..RUN
    },
    Case {
        words: "verify --proof p.txt q.sql A=A.csv B=B.csv C=C.csv",
        query: PATH_THREE,
        files: &[
            ("A.csv", "x,w\n1,1\n2,5\n3,0\n"),
            ("B.csv", "x,y,w\n1,a,2\n1,b,1\n2,a,1\n9,a,0\n3,c,0\n"),
            ("C.csv", "y,w\na,4\nb,9\na,6\nz,0\n"),
            (
                "p.txt",
                "anyk-proof 1\nbound 1 1 1 1\nbound 2 1 1\nbound 2 3 1\nbound 2 4 1\nbound 3 3\nbound 3 2\nbound 3 4\nanswer 1 1 1\nanswer 1 1 3\nanswer 2 3 1\nmore\n",
            ),
        ],
        status: 14,
        err: "anyk: proof node 3: bound missing or too high\n",
        ..RUN
    },
    Case {
        words: "verify --proof p.txt q.sql A=A.csv B=B.csv C=C.csv",
        query: PATH_THREE,
        files: &[
            ("A.csv", "x,w\n1,1\n2,5\n3,0\n"),
            ("B.csv", "x,y,w\n1,a,2\n1,b,1\n2,a,1\n9,a,0\n3,c,0\n"),
            ("C.csv", "y,w\na,4\nb,9\na,6\nz,0\n"),
            (
                "p.txt",
                "anyk-proof 1\nbound 1 1 1 1\nbound 2 1 1\nbound 2 3 1\nbound 2 4 1\nbound 3 1\nbound 3 3\nbound 3 2\nbound 3 4\nanswer 1 1 1\nanswer 1 1 3\nanswer 2 3 1\nmore\n",
            ),
        ],
        status: 14,
        err: "anyk: proof line 7: bound twice\n",
        ..RUN
    },
    // All rows of the first node are one group.
    Case {
        words: "verify --proof p.txt q.sql A=A.csv B=B.csv C=C.csv",
        query: PATH_THREE,
        files: &[
            ("A.csv", "x,w\n1,1\n2,5\n3,0\n"),
            ("B.csv", "x,y,w\n1,a,2\n1,b,1\n2,a,1\n9,a,0\n3,c,0\n"),
            ("C.csv", "y,w\na,4\nb,9\na,6\nz,0\n"),
            (
                "p.txt",
                "anyk-proof 1\nbound 1 1 1 1\nbound 1 2 3 1\nbound 2 1 1\nbound 2 3 1\nbound 2 4 1\nbound 3 1\nbound 3 2\nbound 3 4\nanswer 1 1 1\nanswer 1 1 3\nanswer 2 3 1\nmore\n",
            ),
        ],
        status: 14,
        err: "anyk: proof line 3: bound twice\n",
        ..RUN
    },
    Case {
        words: "verify --proof p.txt q.sql A=A.csv B=B.csv C=C.csv",
        query: PATH_THREE,
        files: &[
            ("A.csv", "x,w\n1,1\n2,5\n3,0\n"),
            ("B.csv", "x,y,w\n1,a,2\n1,b,1\n2,a,1\n9,a,0\n3,c,0\n"),
            ("C.csv", "y,w\na,4\nb,9\na,6\nz,0\n"),
            (
                "p.txt",
                "anyk-proof 1\nbound 1 1 1 1\nbound 2 1 1\nbound 2 3 1\nbound 2 5 1\nbound 3 1\nbound 3 2\nbound 3 4\nanswer 1 1 1\nanswer 1 1 3\nanswer 2 3 1\nmore\n",
            ),
        ],
        status: 14,
        err: "anyk: proof line 5: no solution\n",
        ..RUN
    },
    Case {
        words: "verify --proof p.txt q.sql A=A.csv B=B.csv C=C.csv",
        query: PATH_THREE,
        files: &[
            ("A.csv", "x,w\n1,1\n2,5\n3,0\n"),
            ("B.csv", "x,y,w\n1,a,2\n1,b,1\n2,a,1\n9,a,0\n3,c,0\n"),
            ("C.csv", "y,w\na,4\nb,9\na,6\nz,0\n"),
            (
                "p.txt",
                "anyk-proof 1\nbound 1 1 1 1\nbound 0 1 1\nbound 2 3 1\nbound 2 4 1\nbound 3 1\nbound 3 2\nbound 3 4\nanswer 1 1 1\nanswer 1 1 3\nanswer 2 3 1\nmore\n",
            ),
        ],
        status: 14,
        err: "anyk: proof line 3: no solution\n",
        ..RUN
    },
    Case {
        words: "verify --proof p.txt q.sql A=A.csv B=B.csv C=C.csv",
        query: PATH_THREE,
        files: &[
            ("A.csv", "x,w\n1,1\n2,5\n3,0\n"),
            ("B.csv", "x,y,w\n1,a,2\n1,b,1\n2,a,1\n9,a,0\n3,c,0\n"),
            ("C.csv", "y,w\na,4\nb,9\na,6\nz,0\n"),
            (
                "p.txt",
                "anyk-proof 1\nbound 1 1 1 1\nbound 2 1\nbound 2 3 1\nbound 2 4 1\nbound 3 1\nbound 3 2\nbound 3 4\nanswer 1 1 1\nanswer 1 1 3\nanswer 2 3 1\nmore\n",
            ),
        ],
        status: 14,
        err: "anyk: proof line 3: no solution\n",
        ..RUN
    },
];

#[test]
fn verifies_over_three_tables(rt: HostRuntime) {
    assert!(rt; first_failing(rt.alloc(), PATHS) == Ok(None));
}

const TIES: &[Case<'static>] = &[
    Case {
        words: "verify --proof p.txt q.sql H=H.csv M=M.csv N=N.csv",
        query: STAR,
        files: &[
            ("H.csv", "k\nu\nv\n"),
            ("M.csv", "k,a,w\nu,1,0\nu,2,1\nv,3,0\n"),
            ("N.csv", "k,b,w\nu,7,1\nu,8,0\nv,9,0\nv,9,1\n"),
            (
                "p.txt",
                "anyk-proof 1\nbound 1 1 1 2\nbound 2 1\nbound 2 3\nbound 3 2\nbound 3 3\nanswer 1 1 2\nanswer 2 3 3\nanswer 1 1 1\nmore\n",
            ),
        ],
        out: "k,a,b\nu,1,8\nv,3,9\nu,1,7\n",
        ..RUN
    },
    // An answer of the same sum comes before by its rows.
    Case {
        words: "verify --proof p.txt q.sql H=H.csv M=M.csv N=N.csv",
        query: STAR,
        files: &[
            ("H.csv", "k\nu\nv\n"),
            ("M.csv", "k,a,w\nu,1,0\nu,2,1\nv,3,0\n"),
            ("N.csv", "k,b,w\nu,7,1\nu,8,0\nv,9,0\nv,9,1\n"),
            (
                "p.txt",
                "anyk-proof 1\nbound 1 1 1 2\nbound 2 1\nbound 2 3\nbound 3 2\nbound 3 3\nanswer 1 1 2\nanswer 2 3 3\nanswer 1 2 2\nmore\n",
            ),
        ],
        status: 14,
        err: "anyk: proof: unlisted answer\n",
        ..RUN
    },
    Case {
        words: "verify --proof p.txt q.sql H=H.csv M=M.csv N=N.csv",
        query: STAR,
        files: &[
            ("H.csv", "k\nu\nv\n"),
            ("M.csv", "k,a,w\nu,1,0\nu,2,1\nv,3,0\n"),
            ("N.csv", "k,b,w\nu,7,1\nu,8,0\nv,9,0\nv,9,1\n"),
            (
                "p.txt",
                "anyk-proof 1\nbound 1 1 1 2\nbound 2 1\nbound 2 3\nbound 3 2\nbound 3 3\nanswer 1 1 2\nanswer 2 3 3\nanswer 2 3 4\nmore\n",
            ),
        ],
        status: 14,
        err: "anyk: proof: unlisted answer\n",
        ..RUN
    },
    Case {
        words: "verify --proof p.txt q.sql D=D.csv E=E.csv",
        query: TWO_KEYS,
        files: &[
            ("D.csv", "g,p,q\n1,5,0\n1,5,0\n2,7,1\n"),
            ("E.csv", "g,r\n1,3\n2,3\n1,2\n"),
            (
                "p.txt",
                "anyk-proof 1\nbound 1 3 2\nbound 2 2\nbound 2 3\nanswer 3 2\nanswer 1 3\nanswer 2 3\nmore\n",
            ),
        ],
        out: "g,r\n2,3\n1,2\n1,2\n",
        ..RUN
    },
    Case {
        words: "verify --proof p.txt q.sql D=D.csv E=E.csv",
        query: TWO_KEYS,
        files: &[
            ("D.csv", "g,p,q\n1,5,0\n1,5,0\n2,7,1\n"),
            ("E.csv", "g,r\n1,3\n2,3\n1,2\n"),
            (
                "p.txt",
                "anyk-proof 1\nbound 1 3 2\nbound 2 2\nbound 2 3\nanswer 3 2\nanswer 2 3\nanswer 1 3\nmore\n",
            ),
        ],
        status: 14,
        err: "anyk: proof line 7: not in order\n",
        ..RUN
    },
    Case {
        words: "verify --proof p.txt q.sql D=D.csv E=E.csv",
        query: TWO_KEYS,
        files: &[
            ("D.csv", "g,p,q\n1,5,0\n1,5,0\n2,7,1\n"),
            ("E.csv", "g,r\n1,3\n2,3\n1,2\n"),
            (
                "p.txt",
                "anyk-proof 1\nbound 1 3 2\nbound 2 2\nbound 2 3\nanswer 3 2\nanswer 1 3\nanswer 1 1\nmore\n",
            ),
        ],
        status: 14,
        err: "anyk: proof: unlisted answer\n",
        ..RUN
    },
];

#[test]
fn rows_decide_between_equal_sums(rt: HostRuntime) {
    assert!(rt; first_failing(rt.alloc(), TIES) == Ok(None));
}
