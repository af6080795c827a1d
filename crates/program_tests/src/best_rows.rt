//! The best answer of each row of an item.
use super::cases::{Case, LEFT, RIGHT, RUN, first_failing};
use std::alloc::AllocError;

const DOWNWARDS: &str = "select R.a, S.c from R, S where R.b = S.b order by R.w + S.w desc";

const OF_TWO_TABLES: &[Case<'static>] = &[
    Case {
        words: "run --best-of R q.sql R=R.csv S=S.csv",
        out: "a,c\n2,q\n3,q\n1,q\n",
        ..RUN
    },
    Case {
        words: "run --best-of S q.sql R=R.csv S=S.csv",
        out: "a,c\n2,q\n3,q\n3,p\n",
        ..RUN
    },
    Case {
        words: "run --best-of=R --ranks --rows q.sql R=R.csv S=S.csv",
        out: "a,c,rank1,row1,row2\n2,q,3,2,2\n3,q,5,3,3\n1,q,7,1,3\n",
        ..RUN
    },
    Case {
        words: "run --rows --ranks --best-of S q.sql R=R.csv S=S.csv",
        out: "a,c,rank1,row1,row2\n2,q,3,2,2\n3,q,5,3,3\n3,p,6,3,1\n",
        ..RUN
    },
    Case {
        words: "run --ranks --best-of R q.sql R=R.csv S=S.csv",
        query: DOWNWARDS,
        out: "a,c,rank1\n1,p,8\n3,p,6\n2,q,3\n",
        ..RUN
    },
    // One for each row, and not for each value.
    Case {
        words: "run --rows --best-of S q.sql R=R.csv S=S.csv",
        files: &[("R.csv", LEFT), ("S.csv", "b,c,w\nx,p,5\nx,p,5\n")],
        out: "a,c,row1,row2\n3,p,3,1\n3,p,3,2\n",
        ..RUN
    },
    Case {
        words: "run --ranks --rows --best-of b q.sql R=R.csv",
        query: "select a.a, b.a from R a, R b where a.b = b.b order by a.w - b.w",
        out: "a,a,rank1,row1,row2\n3,1,-2,3,1\n2,2,0,2,2\n3,3,0,3,3\n",
        ..RUN
    },
    // The alias of an item may be the empty text.
    Case {
        words: "run --best-of= q.sql R=R.csv",
        query: "select \"\".a from R as \"\" order by \"\".w",
        out: "a\n2\n3\n1\n",
        ..RUN
    },
    Case {
        words: "run --best-of R q.sql R=R.csv S=S.csv",
        query: "select R.a, S.c from R, S where R.b = S.b order by R.w + S.w limit 0",
        out: "a,c\n",
        ..RUN
    },
];

#[test]
fn each_row_has_its_best_answer(rt: HostRuntime) {
    assert!(rt; first_failing(rt.alloc(), OF_TWO_TABLES) == Ok(None));
}

const STAR: &str =
    "select L1.v, L2.v, L3.v from C, L1, L2, L3 where C.k = L1.k and C.k = L2.k and C.k = L3.k order by L1.w + L2.w + L3.w";

const CENTRE_AND_LEAVES: &[(&str, &str)] = &[
    ("C.csv", "k\nz\n"),
    ("L1.csv", "k,v,w\nz,1,0\nz,2,0\n"),
    ("L2.csv", "k,v,w\nz,3,0\nz,4,0\n"),
    ("L3.csv", "k,v,w\nz,5,0\n"),
];

const PATH: &str =
    "select R.a, S.c, T.d from R, S, T where R.b = S.b and S.c = T.c order by R.w + S.w + T.w";

const OF_MORE_TABLES: &[Case<'static>] = &[
    Case {
        words: "run --rows --best-of C q.sql C=C.csv L1=L1.csv L2=L2.csv L3=L3.csv",
        query: STAR,
        files: CENTRE_AND_LEAVES,
        out: "v,v,v,row1,row2,row3,row4\n1,3,5,1,1,1,1\n",
        ..RUN
    },
    Case {
        words: "run --rows --best-of L1 q.sql C=C.csv L1=L1.csv L2=L2.csv L3=L3.csv",
        query: STAR,
        files: CENTRE_AND_LEAVES,
        out: "v,v,v,row1,row2,row3,row4\n1,3,5,1,1,1,1\n2,3,5,1,2,1,1\n",
        ..RUN
    },
    Case {
        words: "run --rows --best-of L2 q.sql C=C.csv L1=L1.csv L2=L2.csv L3=L3.csv",
        query: STAR,
        files: CENTRE_AND_LEAVES,
        out: "v,v,v,row1,row2,row3,row4\n1,3,5,1,1,1,1\n1,4,5,1,1,2,1\n",
        ..RUN
    },
    Case {
        words: "run --ranks --rows --best-of S q.sql R=R.csv S=S.csv T=T.csv",
        query: PATH,
        files: &[
            ("R.csv", LEFT),
            ("S.csv", RIGHT),
            ("T.csv", "c,d,w\np,1,0\nq,2,3\nq,3,1\n"),
        ],
        out: "a,c,d,rank1,row1,row2,row3\n2,q,3,4,2,2,3\n3,p,1,6,3,1,1\n3,q,3,6,3,3,3\n",
        ..RUN
    },
    Case {
        words: "session --best-of R --script s.txt q.sql R=R.csv S=S.csv",
        files: &[
            ("R.csv", LEFT),
            ("S.csv", RIGHT),
            (
                "s.txt",
                "open a\nnext a 2\nfork a b\nnext b 1\nnext a 2\nrewind b\nnext b 3\nnext a 2\n",
            ),
        ],
        out: "cursor,a,c\na,2,q\na,3,q\nb,1,q\na,1,q\na\nb,2,q\nb,3,q\nb,1,q\na\n",
        ..RUN
    },
    Case {
        words: "session --ranks --engine rec --best-of S --script s.txt q.sql R=R.csv S=S.csv",
        query: "select R.a, S.c from R, S where R.b = S.b order by R.w + S.w limit 2",
        files: &[
            ("R.csv", LEFT),
            ("S.csv", RIGHT),
            (
                "s.txt",
                "open a\nnext a 9\nopen b\nnext b 1\nnext a 1\nrewind a\nnext a 1\n",
            ),
        ],
        out: "cursor,a,c,rank1\na,2,q,3\na,3,q,5\na\nb,2,q,3\na\na,2,q,3\n",
        ..RUN
    },
];

#[test]
fn the_item_may_stand_anywhere(rt: HostRuntime) {
    assert!(rt; first_failing(rt.alloc(), OF_MORE_TABLES) == Ok(None));
}

const TRIANGLE: &str =
    "select E1.p, E2.q, E3.r from E1, E2, E3 where E1.q = E2.q and E2.r = E3.r and E3.p = E1.p";

const EDGES: &[(&str, &str)] = &[
    ("E1.csv", "p,q\n1,2\n1,3\n"),
    ("E2.csv", "q,r\n2,4\n3,5\n"),
    ("E3.csv", "r,p\n4,1\n5,9\n"),
];

const OF_REFUSALS: &[Case<'static>] = &[
    Case {
        words: "run --best-of X q.sql R=R.csv S=S.csv",
        status: 4,
        err: "anyk: unknown alias in --best-of\n",
        ..RUN
    },
    // The table's name is no alias of an item that has another.
    Case {
        words: "run --best-of R q.sql R=R.csv",
        query: "select x.a from R x",
        status: 4,
        err: "anyk: unknown alias in --best-of\n",
        ..RUN
    },
    // Weights come before it, and the structure after it.
    Case {
        words: "run --best-of X q.sql R=R.csv S=S.csv",
        files: &[("R.csv", "a,b,w\n1,x,3\n2,y,12x\n"), ("S.csv", RIGHT)],
        status: 5,
        err: "anyk: item 1: row 2: column 3: not a weight\n",
        ..RUN
    },
    Case {
        words: "run --best-of X q.sql E1=E1.csv E2=E2.csv E3=E3.csv",
        query: TRIANGLE,
        files: EDGES,
        status: 4,
        err: "anyk: unknown alias in --best-of\n",
        ..RUN
    },
    Case {
        words: "run --best-of E1 q.sql E1=E1.csv E2=E2.csv E3=E3.csv",
        query: TRIANGLE,
        files: EDGES,
        status: 6,
        err: "anyk: cyclic query: items 1 2 3\n",
        ..RUN
    },
    Case {
        words: "session --best-of X --script s.txt q.sql R=R.csv S=S.csv",
        files: &[("R.csv", LEFT), ("S.csv", RIGHT), ("s.txt", "open a\n")],
        status: 4,
        err: "anyk: unknown alias in --best-of\n",
        ..RUN
    },
    Case {
        words: "plan --best-of R q.sql R=R.csv S=S.csv",
        status: 2,
        err: "anyk: usage\n",
        ..RUN
    },
];

#[test]
fn an_item_that_is_not_there_is_refused(rt: HostRuntime) {
    assert!(rt; first_failing(rt.alloc(), OF_REFUSALS) == Ok(None));
}
