//! Files that cannot be read, output that cannot be written, and files that are cut off.
use super::cases::{Case, EVERY, FOUND, LEFT, RIGHT, RUN, first_failing, holds, named, over};
use std::alloc::{AllocError, Global};

const ANSWERED: Case<'static> = Case { out: FOUND, ..RUN };

const OF_QUERY: Case<'static> = Case {
    status: 10,
    err: "anyk: file q.sql: read failed\n",
    ..RUN
};

const OF_LEFT: Case<'static> = Case {
    err: "anyk: file R.csv: read failed\n",
    ..OF_QUERY
};

const OF_RIGHT: Case<'static> = Case {
    err: "anyk: file S.csv: read failed\n",
    ..OF_QUERY
};

/// The first calls open the query's file, read it and find its end. The calls for each table
/// follow.
const READS: &[Case<'static>] = &[
    Case {
        unread: 1,
        ..OF_QUERY
    },
    Case {
        unread: 2,
        ..OF_QUERY
    },
    Case {
        unread: 3,
        ..OF_QUERY
    },
    Case {
        unread: 4,
        ..OF_LEFT
    },
    Case {
        unread: 5,
        ..OF_LEFT
    },
    Case {
        unread: 6,
        ..OF_LEFT
    },
    Case {
        unread: 7,
        ..OF_RIGHT
    },
    Case {
        unread: 8,
        ..OF_RIGHT
    },
    Case {
        unread: 9,
        ..OF_RIGHT
    },
    Case {
        unread: 10,
        ..ANSWERED
    },
];

#[test]
fn failing_reads_end_a_run(rt: HostRuntime) {
    assert!(rt; first_failing(rt.alloc(), READS) == Ok(None));
}

const UNWRITTEN: Case<'static> = Case {
    status: 11,
    err: "anyk: write failed\n",
    ..RUN
};

/// A run that cannot write its record with one of these numbers ends there. The header is number 1.
const WRITES: &[Case<'static>] = &[
    Case {
        unwritten: 1,
        ..UNWRITTEN
    },
    Case {
        stuck: 1,
        ..UNWRITTEN
    },
    Case {
        unwritten: 2,
        out: "a,c\n",
        ..UNWRITTEN
    },
    Case {
        stuck: 2,
        out: "a,c\n",
        ..UNWRITTEN
    },
    Case {
        unwritten: 3,
        out: "a,c\n2,q\n",
        ..UNWRITTEN
    },
    Case {
        stuck: 3,
        out: "a,c\n2,q\n",
        ..UNWRITTEN
    },
    Case {
        unwritten: 4,
        out: "a,c\n2,q\n3,q\n",
        ..UNWRITTEN
    },
    Case {
        stuck: 4,
        out: "a,c\n2,q\n3,q\n",
        ..UNWRITTEN
    },
    Case {
        unwritten: 5,
        out: "a,c\n2,q\n3,q\n3,p\n",
        ..UNWRITTEN
    },
    Case {
        stuck: 5,
        out: "a,c\n2,q\n3,q\n3,p\n",
        ..UNWRITTEN
    },
    Case {
        unwritten: 6,
        out: "a,c\n2,q\n3,q\n3,p\n1,q\n",
        ..UNWRITTEN
    },
    Case {
        stuck: 6,
        out: "a,c\n2,q\n3,q\n3,p\n1,q\n",
        ..UNWRITTEN
    },
    Case {
        most: 1,
        ..ANSWERED
    },
    Case {
        query: "select",
        untold: &[1],
        status: 3,
        ..RUN
    },
];

#[test]
fn failing_writes_end_a_run(rt: HostRuntime) {
    assert!(rt; first_failing(rt.alloc(), WRITES) == Ok(None));
}

/// A call whose line cannot be written at all.
const UNTOLD: Case<'static> = Case {
    untold: EVERY,
    ..RUN
};

/// One call for each status, none of whose lines can be written.
const OF_STATUSES: &[Case<'static>] = &[
    Case {
        out: FOUND,
        ..UNTOLD
    },
    Case {
        words: "run",
        status: 2,
        ..UNTOLD
    },
    Case {
        query: "select",
        status: 3,
        ..UNTOLD
    },
    Case {
        query: "select R.none from R",
        status: 4,
        ..UNTOLD
    },
    Case {
        files: &[("R.csv", LEFT), ("S.csv", "")],
        status: 5,
        ..UNTOLD
    },
    Case {
        query: "select x.a from R x, R y, R z where x.a = y.a and y.b = z.b and z.w = x.w",
        status: 6,
        ..UNTOLD
    },
    Case {
        files: &[
            (
                "R.csv",
                "a,b,w\n1,x,170141183460469231731687303715884105727\n",
            ),
            ("S.csv", RIGHT),
        ],
        status: 7,
        ..UNTOLD
    },
    Case {
        query: "select R.a from R order by R.w, R.w, R.w, R.w, R.w, R.w, R.w, R.w, R.w",
        status: 8,
        ..UNTOLD
    },
    Case {
        files: &[("R.csv", LEFT)],
        status: 9,
        ..UNTOLD
    },
    Case {
        unread: 1,
        status: 10,
        ..UNTOLD
    },
    Case {
        unwritten: 1,
        status: 11,
        ..UNTOLD
    },
    Case {
        words: "verify --proof p.txt q.sql R=R.csv S=S.csv",
        files: &[("R.csv", LEFT), ("S.csv", RIGHT), ("p.txt", "more\n")],
        status: 14,
        ..UNTOLD
    },
    Case {
        query: "select R.a, R.b from R union all select S.c from S",
        status: 15,
        ..UNTOLD
    },
];

#[test]
fn a_line_that_cannot_be_written_changes_no_status(rt: HostRuntime) {
    assert!(rt; first_failing(rt.alloc(), OF_STATUSES) == Ok(None));
}

/// What a run does over a table that is cut off after each number of bytes from the first to the
/// second. A weight of which nothing is left is an empty field, which counts 0.
const CUT: &[(usize, usize, u8, &str, &str)] = &[
    (0, 0, 5, "", "anyk: table S: no header\n"),
    (1, 2, 4, "", "anyk: byte 12: unknown column\n"),
    (3, 4, 4, "", "anyk: byte 57: unknown column\n"),
    (5, 6, 0, "a,c\n", ""),
    (
        7,
        9,
        5,
        "",
        "anyk: table S: row 1: wrong number of fields\n",
    ),
    (10, 12, 0, "a,c\n3,p\n1,p\n", ""),
    (
        13,
        15,
        5,
        "",
        "anyk: table S: row 2: wrong number of fields\n",
    ),
    (16, 18, 0, "a,c\n2,q\n3,p\n1,p\n", ""),
    (
        19,
        21,
        5,
        "",
        "anyk: table S: row 3: wrong number of fields\n",
    ),
    (22, 22, 0, "a,c\n3,q\n1,q\n2,q\n3,p\n1,p\n", ""),
    (23, 24, 0, FOUND, ""),
];

/// Whether a run over the first `length` bytes of the table gives this status and these texts.
fn is_told(
    alloc: Global,
    length: usize,
    status: u8,
    out: &str,
    err: &str,
) -> Result<bool, AllocError> {
    let cut = RIGHT.get(..length).unwrap_or("");
    let files = [named("R.csv", LEFT), named("S.csv", cut)];
    holds(alloc, &over(RUN.words, &files, status, out, err))
}

/// The least of these lengths at which the run gives something else.
fn first_told_otherwise(
    alloc: Global,
    row: &(usize, usize, u8, &str, &str),
) -> Result<Option<usize>, AllocError> {
    let (first, last, status, out, err) = *row;
    for length in first..last.saturating_add(1) {
        if !is_told(alloc, length, status, out, err)? {
            return Ok(Some(length));
        }
    }
    Ok(None)
}

#[test]
fn cut_tables_are_told(rt: HostRuntime) {
    for row in CUT {
        assert!(rt;
            first_told_otherwise(rt.alloc(), row) == Ok(None),
            "from {} bytes",
            row.0
        );
    }
}
