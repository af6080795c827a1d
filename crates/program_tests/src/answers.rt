//! Queries that have answers.
use super::cases::{Case, FOUND, LEFT, RIGHT, RUN, first_failing};
use std::alloc::AllocError;

const OVER_TWO_TABLES: &[Case<'static>] = &[
    Case { out: FOUND, ..RUN },
    Case {
        words: "run --ranks q.sql R=R.csv S=S.csv",
        out: "a,c,rank1\n2,q,3\n3,q,5\n3,p,6\n1,q,7\n1,p,8\n",
        ..RUN
    },
    Case {
        query: "select R.a, S.c from R, S where R.b = S.b order by R.w + S.w limit 3",
        out: "a,c\n2,q\n3,q\n3,p\n",
        ..RUN
    },
    Case {
        words: "run --ranks --rows q.sql R=R.csv S=S.csv",
        query: "select R.a, S.c from R, S where R.b = S.b order by R.w + S.w limit 1",
        out: "a,c,rank1,row1,row2\n2,q,3,2,2\n",
        ..RUN
    },
    Case {
        query: "select R.a, S.c from R, S where R.b = S.b order by R.w + S.w limit 0",
        out: "a,c\n",
        ..RUN
    },
    Case {
        query: "select R.a, S.c from R, S where R.b = S.b order by R.w desc, S.w",
        out: "a,c\n1,q\n1,p\n2,q\n3,q\n3,p\n",
        ..RUN
    },
    Case {
        words: "run --ranks q.sql R=R.csv S=S.csv",
        query: "select R.a, S.c from R, S where R.b = S.b order by R.w desc, S.w",
        out: "a,c,rank1,rank2\n1,q,3,4\n1,p,3,5\n2,q,1,2\n3,q,1,4\n3,p,1,5\n",
        ..RUN
    },
    Case {
        query: "select R.a, S.c from R, S",
        out: "a,c\n1,p\n1,q\n1,q\n2,p\n2,q\n2,q\n3,p\n3,q\n3,q\n",
        ..RUN
    },
    Case {
        query: "select R.a from R where R.b = 'x' and R.b = 'y'",
        out: "a\n",
        ..RUN
    },
    Case {
        words: "run --engine=rec q.sql R=R.csv S=S.csv",
        out: FOUND,
        ..RUN
    },
    Case {
        words: "run q.sql --rows S=S.csv R=R.csv --ranks --engine rec",
        query: "select R.a, S.c from R, S where R.b = S.b order by R.w desc, S.w limit 1",
        out: "a,c,rank1,rank2,row1,row2\n1,q,3,4,1,3\n",
        ..RUN
    },
];

#[test]
fn answers_come_in_order(rt: HostRuntime) {
    assert!(rt; first_failing(rt.alloc(), OVER_TWO_TABLES) == Ok(None));
}

const GREATEST: &str = "a,b,w\n1,x,170141183460469231731687303715884105727\n";

const OVER_OTHER_TABLES: &[Case<'static>] = &[
    Case {
        files: &[("R.csv", LEFT), ("S.csv", "b,c,w\n")],
        out: "a,c\n",
        ..RUN
    },
    // An empty weight counts 0.
    Case {
        words: "run --ranks q.sql R=R.csv S=S.csv",
        files: &[("R.csv", LEFT), ("S.csv", "b,c,w\nx,p,")],
        out: "a,c,rank1\n3,p,1\n1,p,3\n",
        ..RUN
    },
    // Rows with the same bytes are two rows.
    Case {
        words: "run --rows q.sql R=R.csv S=S.csv",
        files: &[
            ("R.csv", "a,b,w\n1,x,3\n1,x,3\n"),
            ("S.csv", "b,c,w\nx,p,5\n"),
        ],
        out: "a,c,row1,row2\n1,p,1,1\n1,p,2,1\n",
        ..RUN
    },
    Case {
        words: "run --ranks q.sql R=R.csv S=S.csv",
        files: &[("R.csv", GREATEST), ("S.csv", "b,c,w\nx,p,0\n")],
        out: "a,c,rank1\n1,p,170141183460469231731687303715884105727\n",
        ..RUN
    },
    // A field that is not a weight matters only in an order key.
    Case {
        query: "select R.a, S.c from R, S where R.b = S.b order by S.w",
        files: &[
            ("R.csv", "a,b,w\n1,x,3\n2,y,12x\n3,x,1\n"),
            ("S.csv", RIGHT),
        ],
        out: "a,c\n2,q\n1,q\n3,q\n1,p\n3,p\n",
        ..RUN
    },
    // One byte order mark at the start is not a part of a name.
    Case {
        files: &[
            ("R.csv", LEFT),
            ("S.csv", "\u{feff}b,c,w\nx,p,5\ny,q,2\nx,q,4\n"),
        ],
        out: FOUND,
        ..RUN
    },
    Case {
        query: "select R.a, S.c from R, S where R.b = S.b order by R.w + S.w limit 1",
        files: &[("R.csv", LEFT), ("S.csv", "b,c,w\nx,\"p\nq\",5\n")],
        out: "a,c\n3,\"p\nq\"\n",
        ..RUN
    },
    Case {
        query: "select R.a, S.c from R, S where R.b = S.b",
        files: &[("R.csv", LEFT), ("S.csv", "b,c\r\nx,\"p,\"\"q\"\"\"\r\n")],
        out: "a,c\n1,\"p,\"\"q\"\"\"\n3,\"p,\"\"q\"\"\"\n",
        ..RUN
    },
    Case {
        words: "run q.sql R=R.csv",
        query: "select a.a, b.a from R a, R b where a.b = b.b",
        out: "a,a\n1,1\n1,3\n2,2\n3,1\n3,3\n",
        ..RUN
    },
    Case {
        words: "run q.sql C=C.csv L1=L1.csv L2=L2.csv L3=L3.csv",
        query: "select L1.v, L2.v, L3.v from C, L1, L2, L3 where C.k = L1.k and C.k = L2.k and C.k = L3.k order by L1.w + L2.w + L3.w",
        files: &[
            ("C.csv", "k\nz\n"),
            ("L1.csv", "k,v,w\nz,1,0\nz,2,0\n"),
            ("L2.csv", "k,v,w\nz,3,0\nz,4,0\n"),
            ("L3.csv", "k,v,w\nz,5,0\n"),
        ],
        out: "v,v,v\n1,3,5\n1,4,5\n2,3,5\n2,4,5\n",
        ..RUN
    },
    // Answers with equal sums are in the order of the row numbers, by items. The order of the join
    // tree does not count; it has the last item second.
    Case {
        words: "run --rows q.sql A=A.csv B=B.csv C=C.csv",
        query: "select B.b, C.c from A, B, C where A.x = C.x and B.y = C.y",
        files: &[
            ("A.csv", "x\np\n"),
            ("B.csv", "y,b\nu,1\nv,2\n"),
            ("C.csv", "x,y,c\np,v,1\np,u,2\n"),
        ],
        out: "b,c,row1,row2,row3\n1,2,1,1,2\n2,1,1,2,1\n",
        ..RUN
    },
];

#[test]
fn other_tables_are_joined(rt: HostRuntime) {
    assert!(rt; first_failing(rt.alloc(), OVER_OTHER_TABLES) == Ok(None));
}

const FLIGHTS: &str =
    "src,dst,price\nOslo,Paris,120\nOslo,Rome,200\nParis,Lima,700\nRome,Lima,640\nParis,\"New York, NY\",350\n";

const CHANGE: &str =
    "SELECT a.dst, b.dst FROM flights AS a JOIN flights AS b ON a.dst = b.src WHERE a.src = 'Oslo' ORDER BY a.price + b.price LIMIT 2;";

const WRITTEN_OTHERWISE: &[Case<'static>] = &[
    Case {
        words: "run q.sql flights=flights.csv",
        query: CHANGE,
        files: &[("flights.csv", FLIGHTS)],
        out: "dst,dst\nParis,\"New York, NY\"\nParis,Lima\n",
        ..RUN
    },
    Case {
        words: "run --ranks q.sql flights=flights.csv",
        query: CHANGE,
        files: &[("flights.csv", FLIGHTS)],
        out: "dst,dst,rank1\nParis,\"New York, NY\",470\nParis,Lima,820\n",
        ..RUN
    },
    Case {
        query: "SELECT\ta , \"c\"\r\nFROM R INNER JOIN S ON S.b = R.b ORDER BY R.w+S.w ASC",
        out: FOUND,
        ..RUN
    },
];

#[test]
fn queries_may_be_written_otherwise(rt: HostRuntime) {
    assert!(rt; first_failing(rt.alloc(), WRITTEN_OTHERWISE) == Ok(None));
}
