//! Four generated tables in a row, whose join is too large to be formed and sorted. Their answers
//! were found without the program, from the least sums of what follows each value.
use super::cases::{Case, holds, named, over};
use make_input::{LOAD_QUERY, tables_of};
use std::alloc::{AllocError, Global};

const ANSWERS: &str =
    "a,e,rank1\n11,110,3\n142,1,4\n31,175,4\n91,175,4\n167,158,5\n31,75,6\n91,75,6\n11,43,6\n31,185,7\n91,185,7\n191,66,7\n91,20,8\n127,156,10\n8,13,10\n151,9,10\n183,94,11\n89,54,11\n190,156,11\n74,9,11\n120,156,12\n143,177,12\n194,198,12\n177,66,12\n75,98,12\n75,98,12\n123,156,12\n34,98,13\n120,3,13\n160,20,13\n123,3,13\n11,169,13\n151,73,13\n147,198,13\n151,13,13\n31,47,14\n91,47,14\n107,178,14\n135,152,14\n61,66,14\n191,188,14\n177,174,14\n64,87,14\n48,156,14\n48,18,14\n74,73,14\n38,20,14\n151,110,15\n30,98,15\n30,54,15\n43,158,15\n135,186,15\n143,198,15\n87,98,15\n177,175,15\n49,158,15\n144,54,15\n52,178,15\n183,74,15\n31,20,15\n166,87,15\n49,98,15\n49,98,15\n26,152,15\n136,152,15\n188,152,15\n171,96,15\n143,66,15\n35,156,16\n35,18,16\n18,1,16\n128,3,16\n181,175,16\n24,150,16\n117,1,16\n121,152,16\n107,104,16\n29,92,16\n32,55,16\n116,56,16\n183,122,16\n94,98,16\n133,14,16\n167,115,16\n50,57,16\n10,56,16\n26,34,16\n26,186,16\n184,11,16\n136,34,16\n136,186,16\n188,186,16\n107,98,16\n151,140,16\n162,140,17\n145,152,17\n74,50,17\n40,20,17\n121,186,17\n194,129,17\n177,198,17\n";

const RECORDS: &str =
    "cursor,a,e,rank1\na,11,110,3\na,142,1,4\na,31,175,4\na,91,175,4\na,167,158,5\na,31,75,6\na,91,75,6\na,11,43,6\na,31,185,7\na,91,185,7\na,191,66,7\na,91,20,8\na,127,156,10\na,8,13,10\na,151,9,10\na,183,94,11\na,89,54,11\na,190,156,11\na,74,9,11\na,120,156,12\na,143,177,12\na,194,198,12\na,177,66,12\na,75,98,12\na,75,98,12\na,123,156,12\na,34,98,13\na,120,3,13\na,160,20,13\na,123,3,13\na,11,169,13\na,151,73,13\na,147,198,13\na,151,13,13\na,31,47,14\na,91,47,14\na,107,178,14\na,135,152,14\na,61,66,14\na,191,188,14\na,177,174,14\na,64,87,14\na,48,156,14\na,48,18,14\na,74,73,14\na,38,20,14\na,151,110,15\na,30,98,15\na,30,54,15\na,43,158,15\na,135,186,15\na,143,198,15\na,87,98,15\na,177,175,15\na,49,158,15\na,144,54,15\na,52,178,15\na,183,74,15\na,31,20,15\na,166,87,15\na,49,98,15\na,49,98,15\na,26,152,15\na,136,152,15\na,188,152,15\na,171,96,15\na,143,66,15\na,35,156,16\na,35,18,16\na,18,1,16\na,128,3,16\na,181,175,16\na,24,150,16\na,117,1,16\na,121,152,16\na,107,104,16\na,29,92,16\na,32,55,16\na,116,56,16\na,183,122,16\na,94,98,16\na,133,14,16\na,167,115,16\na,50,57,16\na,10,56,16\na,26,34,16\na,26,186,16\na,184,11,16\na,136,34,16\na,136,186,16\na,188,186,16\na,107,98,16\na,151,140,16\na,162,140,17\na,145,152,17\na,74,50,17\na,40,20,17\na,121,186,17\na,194,129,17\na,177,198,17\n";

/// The text of the table at a place, from 0.
fn text_of(tables: &[Vec<u8>], place: usize) -> &str {
    match tables.get(place) {
        Some(bytes) => str::from_utf8(bytes).unwrap_or(""),
        None => "",
    }
}

/// Whether a call over these tables writes this, with each engine.
fn writes<'a>(
    alloc: Global,
    words: &'a str,
    tables: &'a [Vec<u8>],
    out: &'a str,
) -> Result<bool, AllocError> {
    let files = [
        named("P1.csv", text_of(tables, 0)),
        named("P2.csv", text_of(tables, 1)),
        named("P3.csv", text_of(tables, 2)),
        named("P4.csv", text_of(tables, 3)),
        named("s.txt", "open a\nnext a 100\n"),
    ];
    let call = Case {
        query: LOAD_QUERY,
        ..over(words, &files, 0, out, "")
    };
    holds(alloc, &call)
}

/// The same over the tables of 20,000 rows each that are made from the number 1.
fn writes_over_many_rows(alloc: Global, words: &str, out: &str) -> Result<bool, AllocError> {
    match tables_of(alloc, 1, 20000) {
        Ok(tables) => writes(alloc, words, &tables, out),
        Err(_) => Ok(false),
    }
}

#[test]
fn chains_are_not_formed(rt: HostRuntime) {
    let alloc = rt.alloc();
    let words = "run --ranks q.sql P1=P1.csv P2=P2.csv P3=P3.csv P4=P4.csv";
    assert!(rt; writes_over_many_rows(alloc, words, ANSWERS) == Ok(true));
    let words = "session --ranks --script s.txt q.sql P1=P1.csv P2=P2.csv P3=P3.csv P4=P4.csv";
    assert!(rt; writes_over_many_rows(alloc, words, RECORDS) == Ok(true));
}
