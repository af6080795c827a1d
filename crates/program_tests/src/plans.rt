//! Reports of join trees.
use super::cases::{Case, RUN, first_failing};
use std::alloc::AllocError;

const PLAN: Case<'static> = Case {
    words: "plan q.sql R=R.csv S=S.csv",
    out: "node 1 parent 0 rows 3 item R\nnode 2 parent 1 rows 3 item S\ntotal 12\n",
    ..RUN
};

const REPORTS: &[Case<'static>] = &[
    PLAN,
    // The limit does not matter.
    Case {
        query: "select R.a, S.c from R, S where R.b = S.b order by R.w + S.w limit 0",
        ..PLAN
    },
    Case {
        words: "plan q.sql C=C.csv L1=L1.csv L2=L2.csv L3=L3.csv",
        query: "select L1.v, L2.v, L3.v from C, L1, L2, L3 where C.k = L1.k and C.k = L2.k and C.k = L3.k order by L1.w + L2.w + L3.w",
        files: &[
            ("C.csv", "k\nz\n"),
            ("L1.csv", "k,v,w\nz,1,0\nz,2,0\n"),
            ("L2.csv", "k,v,w\nz,3,0\nz,4,0\n"),
            ("L3.csv", "k,v,w\nz,5,0\n"),
        ],
        out: "node 1 parent 0 rows 1 item C\nnode 2 parent 1 rows 2 item L1\nnode 3 parent 1 rows 2 item L2\nnode 4 parent 1 rows 1 item L3\ntotal 12\n",
        ..PLAN
    },
    Case {
        words: "plan q.sql A=A.csv B=B.csv C=C.csv",
        query: "select B.b, C.c from A, B, C where A.x = C.x and B.y = C.y",
        files: &[
            ("A.csv", "x\np\n"),
            ("B.csv", "y,b\nu,1\nv,2\n"),
            ("C.csv", "x,y,c\np,v,1\np,u,2\n"),
        ],
        out: "node 1 parent 0 rows 1 item A\nnode 2 parent 1 rows 2 item C\nnode 3 parent 2 rows 2 item B\ntotal 10\n",
        ..PLAN
    },
    // Only rows that pass count, and a name that cannot be bare is in quotes.
    Case {
        query: "select \"r 1\".a from R \"r 1\", S where \"r 1\".b = S.b and S.c = 'q' and \"r 1\".a = \"r 1\".w",
        out: "node 1 parent 0 rows 0 item \"r 1\"\nnode 2 parent 1 rows 2 item S\ntotal 8\n",
        ..PLAN
    },
    Case {
        query: "select R.a from R where R.a < 1",
        status: 3,
        out: "",
        err: "anyk: syntax error at byte 28\n",
        ..PLAN
    },
    Case {
        unwritten: 1,
        status: 11,
        out: "",
        err: "anyk: write failed\n",
        ..PLAN
    },
];

#[test]
fn plans_are_reported(rt: HostRuntime) {
    assert!(rt; first_failing(rt.alloc(), REPORTS) == Ok(None));
}
