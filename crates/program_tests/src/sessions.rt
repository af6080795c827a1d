//! Sessions: cursors over one list of answers.
use super::cases::{Case, LEFT, RIGHT, RUN, first_failing, holds, named, over, repeated};
use std::alloc::{AllocError, Global};

/// A session over the join of the two tables.
const SESSION: Case<'static> = Case {
    words: "session --script s.txt q.sql R=R.csv S=S.csv",
    ..RUN
};

const LIMITED: &str = "select R.a, S.c from R, S where R.b = S.b order by R.w + S.w limit 2";

const OF_MOVES: &[Case<'static>] = &[
    Case {
        files: &[
            ("R.csv", LEFT),
            ("S.csv", RIGHT),
            (
                "s.txt",
                "open a\nnext a 2\nfork a b\nnext b 1\nnext a 2\nrewind b\nnext b 3\nnext a 2\n",
            ),
        ],
        out: "cursor,a,c\na,2,q\na,3,q\nb,3,p\na,3,p\na,1,q\nb,2,q\nb,3,q\nb,3,p\na,1,p\na\n",
        ..SESSION
    },
    Case {
        words: "session --rows --ranks --script s.txt q.sql R=R.csv S=S.csv",
        query: LIMITED,
        files: &[
            ("R.csv", LEFT),
            ("S.csv", RIGHT),
            ("s.txt", "open a\nnext a 0\nnext a 9\nnext a 9\n"),
        ],
        out: "cursor,a,c,rank1,row1,row2\na,2,q,3,2,2\na,3,q,5,3,3\na\na\n",
        ..SESSION
    },
    Case {
        query: LIMITED,
        files: &[
            ("R.csv", LEFT),
            ("S.csv", RIGHT),
            ("s.txt", "open a\nnext a 0\nnext a 9\nnext a 9\n"),
        ],
        out: "cursor,a,c\na,2,q\na,3,q\na\na\n",
        ..SESSION
    },
    // A fork at the end is at the end too, and a rewind leads from there to the start.
    Case {
        files: &[
            ("R.csv", LEFT),
            ("S.csv", RIGHT),
            (
                "s.txt",
                "open a\nnext a 5\nfork a b\nnext b 1\nnext a 1\nfork b c\nnext c 0\nnext c 2\nrewind b\nnext b 2\nnext a 1\n",
            ),
        ],
        out: "cursor,a,c\na,2,q\na,3,q\na,3,p\na,1,q\na,1,p\nb\na\nc\nb,2,q\nb,3,q\na\n",
        ..SESSION
    },
    // A cursor that is closed and opened again is at the start.
    Case {
        files: &[
            ("R.csv", LEFT),
            ("S.csv", RIGHT),
            (
                "s.txt",
                "open a\nnext a 4\nclose a\nopen a\nnext a 1\nfork a b\nclose a\nnext b 1\nfork b a\nclose b\nopen b\nnext a 1\nnext b 6\nrewind b\nnext b 1",
            ),
        ],
        out: "cursor,a,c\na,2,q\na,3,q\na,3,p\na,1,q\na,2,q\nb,3,q\na,3,p\nb,2,q\nb,3,q\nb,3,p\nb,1,q\nb,1,p\nb\nb,2,q\n",
        ..SESSION
    },
    // Lines may end as in other systems, and empty lines and notes do nothing.
    Case {
        query: LIMITED,
        files: &[
            ("R.csv", LEFT),
            ("S.csv", RIGHT),
            ("s.txt", "# two of them\r\n\r\nopen a_1\r\nnext a_1 2\r\n"),
        ],
        out: "cursor,a,c\na_1,2,q\na_1,3,q\n",
        ..SESSION
    },
    Case {
        files: &[
            ("R.csv", LEFT),
            ("S.csv", "b,c,w\n"),
            ("s.txt", "open a\nnext a 1\nnext a 0\nfork a b\nnext b 2\n"),
        ],
        out: "cursor,a,c\na\nb\n",
        ..SESSION
    },
    Case {
        files: &[("R.csv", LEFT), ("S.csv", RIGHT), ("s.txt", "")],
        out: "cursor,a,c\n",
        ..SESSION
    },
];

#[test]
fn cursors_are_places_in_one_list(rt: HostRuntime) {
    assert!(rt; first_failing(rt.alloc(), OF_MOVES) == Ok(None));
}

const REFUSED: &[Case<'static>] = &[
    Case {
        files: &[("s.txt", "open a\nopen a\n")],
        status: 3,
        err: "anyk: script line 2: cursor exists\n",
        ..SESSION
    },
    Case {
        files: &[("s.txt", "open a\n\nfork a a\n")],
        status: 3,
        err: "anyk: script line 3: cursor exists\n",
        ..SESSION
    },
    Case {
        files: &[("s.txt", "open a\nclose a\nnext a 1\n")],
        status: 3,
        err: "anyk: script line 3: unknown cursor\n",
        ..SESSION
    },
    Case {
        files: &[("s.txt", "next a 1\n")],
        status: 3,
        err: "anyk: script line 1: unknown cursor\n",
        ..SESSION
    },
    Case {
        files: &[("s.txt", "open a b\n")],
        status: 3,
        err: "anyk: script line 1: bad line\n",
        ..SESSION
    },
    Case {
        files: &[("s.txt", "next a 1234567890\n")],
        status: 3,
        err: "anyk: script line 1: bad line\n",
        ..SESSION
    },
    Case {
        files: &[],
        status: 9,
        err: "anyk: file s.txt: not found\n",
        ..SESSION
    },
    // The text of the query is read before the script, and the script before the tables.
    Case {
        query: "select",
        files: &[("s.txt", "open\n")],
        status: 3,
        err: "anyk: syntax error at byte 6\n",
        ..SESSION
    },
    Case {
        query: "select X.a from X",
        files: &[("s.txt", "open\n")],
        status: 3,
        err: "anyk: script line 1: bad line\n",
        ..SESSION
    },
];

#[test]
fn scripts_that_break_a_rule_are_refused(rt: HostRuntime) {
    assert!(rt; first_failing(rt.alloc(), REFUSED) == Ok(None));
}

/// Lines that open `count` cursors with the names c1, c2 and so on, and then these lines.
fn opened(alloc: Global, count: u32, lines: &str) -> Result<String, AllocError> {
    let mut script = String::new(alloc);
    for number in 0..count {
        script.push_str(&format!(in alloc; "open c{number}\n")?)?;
    }
    script.push_str(lines)?;
    Ok(script)
}

/// Whether a session over the two tables that follows this script gives this status and these
/// texts.
fn follows(
    alloc: Global,
    script: &str,
    status: u8,
    out: &str,
    err: &str,
) -> Result<bool, AllocError> {
    let files = [
        named("R.csv", LEFT),
        named("S.csv", RIGHT),
        named("s.txt", script),
    ];
    holds(alloc, &over(SESSION.words, &files, status, out, err))
}

/// The same with the script that opens `count` cursors before these lines.
fn follows_opened(
    alloc: Global,
    count: u32,
    lines: &str,
    status: u8,
    out: &str,
    err: &str,
) -> Result<bool, AllocError> {
    let script = opened(alloc, count, lines)?;
    follows(alloc, &script, status, out, err)
}

#[test]
fn sixty_four_cursors_are_open_at_once(rt: HostRuntime) {
    let alloc = rt.alloc();
    let lines = "next c63 2\nnext c0 1\nclose c7\nfork c63 d\nnext d 1\nnext c1 1\n";
    let out = "cursor,a,c\nc63,2,q\nc63,3,q\nc0,2,q\nd,3,p\nc1,2,q\n";
    assert!(rt; follows_opened(alloc, 64, lines, 0, out, "") == Ok(true));
    let err = "anyk: script line 65: more than 64 cursors\n";
    assert!(rt; follows_opened(alloc, 65, "", 8, "", err) == Ok(true));
    assert!(rt; follows_opened(alloc, 64, "fork c1 d\n", 8, "", err) == Ok(true));
}

/// Whether a script of 10,000 lines, which takes the first answer again and again, gives this.
fn follows_rewinds(alloc: Global, out: &str) -> Result<bool, AllocError> {
    let rewinds = "next a 1\nrewind a\n";
    let script = repeated(alloc, "open a\n", rewinds, 4999, "next a 6\n")?;
    follows(alloc, &script, 0, out, "")
}

/// The first answer 4,999 times, and then all answers.
fn follows_ten_thousand_lines(alloc: Global) -> Result<bool, AllocError> {
    let all = "a,2,q\na,3,q\na,3,p\na,1,q\na,1,p\na\n";
    let out = repeated(alloc, "cursor,a,c\n", "a,2,q\n", 4999, all)?;
    follows_rewinds(alloc, &out)
}

/// Whether a script with one line more is refused.
fn refuses_one_line_more(alloc: Global) -> Result<bool, AllocError> {
    let script = repeated(alloc, "", "#\n", 10001, "")?;
    let err = "anyk: script: more than 10000 lines\n";
    follows(alloc, &script, 8, "", err)
}

#[test]
fn scripts_have_ten_thousand_lines(rt: HostRuntime) {
    assert!(rt; follows_ten_thousand_lines(rt.alloc()) == Ok(true));
    assert!(rt; refuses_one_line_more(rt.alloc()) == Ok(true));
}
