//! Tables that are made from a number. The shelf has no file of them.
use super::cases::{Case, RUN, first_failing};
use std::alloc::AllocError;

/// Two rows in each table.
const PAIRS: Case<'static> = Case {
    words: "load --number 1 --rows 2",
    query: "",
    files: &[],
    out: "rows 8\nanswers 16\nfirst 1080\nlast 2695\n",
    ..RUN
};

const OF_NUMBERS: &[Case<'static>] = &[
    PAIRS,
    Case {
        words: "load --number 1 --rows 1",
        out: "rows 4\nanswers 1\nfirst 2319\nlast 2319\n",
        ..PAIRS
    },
    // More answers than could be formed and sorted.
    Case {
        words: "load --number 1 --rows 20000",
        out: "rows 80000\nanswers 100\nfirst 3\nlast 17\n",
        ..PAIRS
    },
    Case {
        words: "load --number 1 --rows 0",
        status: 2,
        out: "",
        err: "anyk: usage\n",
        ..PAIRS
    },
    Case {
        words: "load --number 2147483648 --rows 1",
        status: 2,
        out: "",
        err: "anyk: usage\n",
        ..PAIRS
    },
    Case {
        words: "load --number 01 --rows 2",
        status: 2,
        out: "",
        err: "anyk: usage\n",
        ..PAIRS
    },
    Case {
        words: "load --number 1 --rows=+2",
        status: 2,
        out: "",
        err: "anyk: usage\n",
        ..PAIRS
    },
    // Nothing is read.
    Case { unread: 1, ..PAIRS },
    Case {
        unwritten: 1,
        status: 11,
        out: "",
        err: "anyk: write failed\n",
        ..PAIRS
    },
];

#[test]
fn made_tables_are_summed_up(rt: HostRuntime) {
    assert!(rt; first_failing(rt.alloc(), OF_NUMBERS) == Ok(None));
}
