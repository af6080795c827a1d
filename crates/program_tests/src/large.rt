//! Tables that are longer than a table may be, by one row or by one byte.
use super::cases::{LEFT, holds, named, over, repeated};
use std::alloc::{AllocError, Global};

/// Whether a run over this second table is refused with this line.
fn is_refused(alloc: Global, right: &str, err: &str) -> Result<bool, AllocError> {
    let files = [named("R.csv", LEFT), named("S.csv", right)];
    let words = "run --engine=part q.sql R=R.csv S=S.csv";
    holds(alloc, &over(words, &files, 8, "", err))
}

/// One row more than a table may have.
fn many_rows_are_refused(alloc: Global) -> Result<bool, AllocError> {
    let table = repeated(alloc, "b\n", "1\n", 1048577, "")?;
    is_refused(alloc, &table, "anyk: table S: more than 1048576 rows\n")
}

#[test]
fn one_row_too_many_is_told(rt: HostRuntime) {
    assert!(rt; many_rows_are_refused(rt.alloc()) == Ok(true));
}

/// One byte more than a file may have, in pieces of 1024 bytes.
fn many_bytes_are_refused(alloc: Global, piece: &str) -> Result<bool, AllocError> {
    let table = repeated(alloc, "b", piece, 65536, "")?;
    let err = "anyk: file S.csv longer than 67108864 bytes\n";
    is_refused(alloc, &table, err)
}

fn many_pieces_are_refused(alloc: Global) -> Result<bool, AllocError> {
    let piece = repeated(alloc, "", "1\n", 512, "")?;
    many_bytes_are_refused(alloc, &piece)
}

#[test]
fn one_byte_too_many_is_told(rt: HostRuntime) {
    assert!(rt; many_pieces_are_refused(rt.alloc()) == Ok(true));
}
