//! Queries with as many items as a query may have.
use super::cases::{Case, RUN, first_failing};
use std::alloc::AllocError;

const STAR: &str =
    "select h.k, l1.v, l2.v, l3.v, l4.v, l5.v, l6.v, l7.v, l8.v, l9.v, l10.v, l11.v, l12.v, l13.v, l14.v, l15.v from H h, L l1, L l2, L l3, L l4, L l5, L l6, L l7, L l8, L l9, L l10, L l11, L l12, L l13, L l14, L l15 where h.k = l1.k and h.k = l2.k and h.k = l3.k and h.k = l4.k and h.k = l5.k and h.k = l6.k and h.k = l7.k and h.k = l8.k and h.k = l9.k and h.k = l10.k and h.k = l11.k and h.k = l12.k and h.k = l13.k and h.k = l14.k and h.k = l15.k order by l1.w + l2.w + l3.w + l4.w + l5.w + l6.w + l7.w + l8.w + l9.w + l10.w + l11.w + l12.w + l13.w + l14.w + l15.w limit 18";

/// A hub with two values that leaves have, and leaves with three rows: two for x, and one for y.
const HUB_AND_LEAVES: &[(&str, &str)] = &[
    ("H.csv", "k\nx\ny\nz\n"),
    ("L.csv", "k,v,w\nx,a,1\nx,b,2\ny,c,0\n"),
];

/// All c, all a, one b in each leaf from the last to the first, and then b in the last two.
const BEST: &str =
    "k,v,v,v,v,v,v,v,v,v,v,v,v,v,v,v,rank1\ny,c,c,c,c,c,c,c,c,c,c,c,c,c,c,c,0\nx,a,a,a,a,a,a,a,a,a,a,a,a,a,a,a,15\nx,a,a,a,a,a,a,a,a,a,a,a,a,a,a,b,16\nx,a,a,a,a,a,a,a,a,a,a,a,a,a,b,a,16\nx,a,a,a,a,a,a,a,a,a,a,a,a,b,a,a,16\nx,a,a,a,a,a,a,a,a,a,a,a,b,a,a,a,16\nx,a,a,a,a,a,a,a,a,a,a,b,a,a,a,a,16\nx,a,a,a,a,a,a,a,a,a,b,a,a,a,a,a,16\nx,a,a,a,a,a,a,a,a,b,a,a,a,a,a,a,16\nx,a,a,a,a,a,a,a,b,a,a,a,a,a,a,a,16\nx,a,a,a,a,a,a,b,a,a,a,a,a,a,a,a,16\nx,a,a,a,a,a,b,a,a,a,a,a,a,a,a,a,16\nx,a,a,a,a,b,a,a,a,a,a,a,a,a,a,a,16\nx,a,a,a,b,a,a,a,a,a,a,a,a,a,a,a,16\nx,a,a,b,a,a,a,a,a,a,a,a,a,a,a,a,16\nx,a,b,a,a,a,a,a,a,a,a,a,a,a,a,a,16\nx,b,a,a,a,a,a,a,a,a,a,a,a,a,a,a,16\nx,a,a,a,a,a,a,a,a,a,a,a,a,a,b,b,17\n";

const TREE: &str =
    "node 1 parent 0 rows 3 item h\nnode 2 parent 1 rows 3 item l1\nnode 3 parent 1 rows 3 item l2\nnode 4 parent 1 rows 3 item l3\nnode 5 parent 1 rows 3 item l4\nnode 6 parent 1 rows 3 item l5\nnode 7 parent 1 rows 3 item l6\nnode 8 parent 1 rows 3 item l7\nnode 9 parent 1 rows 3 item l8\nnode 10 parent 1 rows 3 item l9\nnode 11 parent 1 rows 3 item l10\nnode 12 parent 1 rows 3 item l11\nnode 13 parent 1 rows 3 item l12\nnode 14 parent 1 rows 3 item l13\nnode 15 parent 1 rows 3 item l14\nnode 16 parent 1 rows 3 item l15\ntotal 96\n";

const OF_SIXTEEN: &[Case<'static>] = &[
    Case {
        words: "run --ranks q.sql H=H.csv L=L.csv",
        query: STAR,
        files: HUB_AND_LEAVES,
        out: BEST,
        ..RUN
    },
    Case {
        words: "plan q.sql H=H.csv L=L.csv",
        query: STAR,
        files: HUB_AND_LEAVES,
        out: TREE,
        ..RUN
    },
    Case {
        query: "select a1.a from R a1, R a2, R a3, R a4, R a5, R a6, R a7, R a8, R a9, R a10, R a11, R a12, R a13, R a14, R a15, R a16 limit 1",
        files: &[("R.csv", "a,b,w\n1,x,3\n")],
        out: "a\n1\n",
        ..RUN
    },
];

#[test]
fn sixteen_items_are_joined(rt: HostRuntime) {
    assert!(rt; first_failing(rt.alloc(), OF_SIXTEEN) == Ok(None));
}
