//! The lines of refusals, as text.
use outer_io::{MemSink, Unwritten};
use refusals::{Refusal, write_line};
use std::alloc::{AllocError, Global};

/// A refusal with its status and its line.
type Row = (Refusal<'static>, u8, &'static str);

/// Whether a sink gets this line, and the status is that of the row.
fn writes(err: &mut MemSink, row: &Row) -> bool {
    let (refusal, status, line) = *row;
    write_line(err, refusal).is_ok() && err.bytes() == line.as_bytes() && refusal.status() == status
}

/// The same for a sink that takes this many bytes a call.
fn writes_by(alloc: Global, row: &Row, most: usize) -> bool {
    match MemSink::new(alloc, 200, most, Vec::new(alloc), Vec::new(alloc)) {
        Ok(mut err) => writes(&mut err, row),
        Err(_) => false,
    }
}

/// The place of the first row whose line is written in another way, whole or three bytes a call.
fn first_failing(alloc: Global, rows: &[Row]) -> Option<usize> {
    for (i, row) in rows.iter().enumerate() {
        if !writes_by(alloc, row, 200) || !writes_by(alloc, row, 3) {
            return Some(i);
        }
    }
    None
}

const ON_THE_QUERY: &[Row] = &[
    (Refusal::Usage, 2, "anyk: usage\n"),
    (Refusal::Syntax(28), 3, "anyk: syntax error at byte 28\n"),
    (Refusal::BadLine(1), 3, "anyk: script line 1: bad line\n"),
    (
        Refusal::UnknownCursor(2),
        3,
        "anyk: script line 2: unknown cursor\n",
    ),
    (
        Refusal::CursorExists(10),
        3,
        "anyk: script line 10: cursor exists\n",
    ),
    (
        Refusal::UnknownTable(24),
        4,
        "anyk: byte 24: unknown table\n",
    ),
    (
        Refusal::DuplicateAlias {
            branch: None,
            item: 2,
        },
        4,
        "anyk: item 2: alias used twice\n",
    ),
    (Refusal::UnknownAlias(0), 4, "anyk: byte 0: unknown alias\n"),
    (
        Refusal::UnknownColumn(65_535),
        4,
        "anyk: byte 65535: unknown column\n",
    ),
    (Refusal::Ambiguous(7), 4, "anyk: byte 7: ambiguous column\n"),
    (
        Refusal::UnknownBest,
        4,
        "anyk: unknown alias in --best-of\n",
    ),
    (
        Refusal::Cyclic {
            branch: None,
            core: 7,
        },
        6,
        "anyk: cyclic query: items 1 2 3\n",
    ),
    (
        Refusal::Cyclic {
            branch: None,
            core: 0x8015,
        },
        6,
        "anyk: cyclic query: items 1 3 5 16\n",
    ),
    (
        Refusal::RankRange {
            branch: None,
            key: 1,
        },
        7,
        "anyk: order key 1: rank may pass 128 bits\n",
    ),
    (Refusal::TooLong, 8, "anyk: query longer than 65536 bytes\n"),
    (Refusal::TooManyBranches, 8, "anyk: more than 8 branches\n"),
    (Refusal::TooManyItems, 8, "anyk: more than 16 items\n"),
    (Refusal::TooManyKeys, 8, "anyk: more than 8 order keys\n"),
    (
        Refusal::LimitRange(24),
        8,
        "anyk: limit at byte 24 out of range\n",
    ),
];

#[test]
fn writes_lines_on_the_query(rt: HostRuntime) {
    assert_eq!(rt; first_failing(rt.alloc(), ON_THE_QUERY), None);
}

const ON_A_BRANCH: &[Row] = &[
    (
        Refusal::DuplicateAlias {
            branch: Some(2),
            item: 16,
        },
        4,
        "anyk: branch 2: item 16: alias used twice\n",
    ),
    (
        Refusal::BadWeight {
            branch: Some(1),
            item: 1,
            row: 1,
            column: 2,
        },
        5,
        "anyk: branch 1: item 1: row 1: column 2: not a weight\n",
    ),
    (
        Refusal::Cyclic {
            branch: Some(8),
            core: 7,
        },
        6,
        "anyk: branch 8: cyclic query: items 1 2 3\n",
    ),
    (
        Refusal::RankRange {
            branch: Some(2),
            key: 1,
        },
        7,
        "anyk: branch 2: order key 1: rank may pass 128 bits\n",
    ),
    (
        Refusal::BranchShape(2),
        15,
        "anyk: branch 2: shape differs\n",
    ),
    (
        Refusal::UnionBest,
        15,
        "anyk: several branches with --best-of\n",
    ),
];

const ON_A_CERTIFICATE: &[Row] = &[
    (Refusal::BadProofHeader, 14, "anyk: proof: bad header\n"),
    (
        Refusal::BadProofLine(2),
        14,
        "anyk: proof line 2: bad line\n",
    ),
    (
        Refusal::BadBound(3),
        14,
        "anyk: proof line 3: no solution\n",
    ),
    (
        Refusal::BoundTwice(4),
        14,
        "anyk: proof line 4: bound twice\n",
    ),
    (
        Refusal::WeakBound(16),
        14,
        "anyk: proof node 16: bound missing or too high\n",
    ),
    (Refusal::BadAnswer(5), 14, "anyk: proof line 5: no answer\n"),
    (
        Refusal::AnswerOrder(67108864),
        14,
        "anyk: proof line 67108864: not in order\n",
    ),
    (
        Refusal::AnswerCount,
        14,
        "anyk: proof: wrong number of answers\n",
    ),
    (Refusal::MissedAnswer, 14, "anyk: proof: unlisted answer\n"),
];

#[test]
fn writes_lines_on_a_certificate(rt: HostRuntime) {
    assert_eq!(rt; first_failing(rt.alloc(), ON_A_CERTIFICATE), None);
}

#[test]
fn writes_lines_on_a_branch(rt: HostRuntime) {
    assert_eq!(rt; first_failing(rt.alloc(), ON_A_BRANCH), None);
}

const ON_FILES_AND_LIMITS: &[Row] = &[
    (Refusal::NoHeader(b"S"), 5, "anyk: table S: no header\n"),
    (
        Refusal::DuplicateName {
            table: b"R",
            column: 2,
        },
        5,
        "anyk: table R: column 2: name used twice\n",
    ),
    (
        Refusal::Ragged {
            table: b"R",
            row: 1_048_576,
        },
        5,
        "anyk: table R: row 1048576: wrong number of fields\n",
    ),
    (
        Refusal::BadWeight {
            branch: None,
            item: 1,
            row: 2,
            column: 3,
        },
        5,
        "anyk: item 1: row 2: column 3: not a weight\n",
    ),
    (
        Refusal::TooLarge("big.csv"),
        8,
        "anyk: file big.csv longer than 67108864 bytes\n",
    ),
    (
        Refusal::TooManyColumns(b"R"),
        8,
        "anyk: table R: more than 64 columns\n",
    ),
    (
        Refusal::TooManyTableRows(b"R"),
        8,
        "anyk: table R: more than 1048576 rows\n",
    ),
    (
        Refusal::TooManyNodeRows,
        8,
        "anyk: more than 4194304 node rows\n",
    ),
    (
        Refusal::TooManyLines,
        8,
        "anyk: script: more than 10000 lines\n",
    ),
    (
        Refusal::TooManyOpen(65),
        8,
        "anyk: script line 65: more than 64 cursors\n",
    ),
    (Refusal::NoFile("S.csv"), 9, "anyk: file S.csv: not found\n"),
    (
        Refusal::ReadFault("S.csv"),
        10,
        "anyk: file S.csv: read failed\n",
    ),
    (Refusal::WriteFault, 11, "anyk: write failed\n"),
    (Refusal::NoMemory, 12, "anyk: out of memory\n"),
];

#[test]
fn writes_lines_on_files_and_limits(rt: HostRuntime) {
    assert_eq!(rt; first_failing(rt.alloc(), ON_FILES_AND_LIMITS), None);
}

/// Whether the line is cut by a sink that fails at its fourth call.
fn is_cut(err: &mut MemSink) -> bool {
    write_line(err, Refusal::NoFile("S.csv")) == Err(Unwritten { taken: 3 })
        && err.bytes() == b"anyk: fil".as_slice()
}

fn stops_at_a_fault(alloc: Global) -> Result<bool, AllocError> {
    let failing = vec![in alloc; 4]?;
    match MemSink::new(alloc, 200, 3, failing, Vec::new(alloc)) {
        Ok(mut err) => Ok(is_cut(&mut err)),
        Err(_) => Ok(false),
    }
}

#[test]
fn stops_where_the_sink_fails(rt: HostRuntime) {
    assert!(rt; stops_at_a_fault(rt.alloc()) == Ok(true));
}
