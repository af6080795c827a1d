//! The tables that `load` makes.
use make_input::{LOAD_QUERY, tables_of};
use std::alloc::Global;

const SMALL: &[&str] = &[
    "a,b,w\n0,0,758\n0,0,515\n",
    "b,c,w\n0,0,627\n0,0,419\n",
    "c,d,w\n0,0,86\n0,0,767\n",
    "d,e,w\n0,0,60\n0,0,543\n",
];

/// The length of each table, its beginning, and its end.
const LARGE: &[(usize, &str, &str)] = &[
    (1981, "a,b,w\n2,0,409\n2,1,718\n", "2,2,420\n1,0,954\n"),
    (1981, "b,c,w\n2,1,366\n0,1,422\n", "1,2,672\n0,2,95\n"),
    (1983, "c,d,w\n0,0,158\n0,2,961\n", "1,2,735\n0,1,557\n"),
    (1974, "d,e,w\n2,0,130\n1,0,25\n", "1,2,599\n0,0,429\n"),
];

/// Whether the tables are these texts.
fn are_texts(tables: &[Vec<u8>], texts: &[&str]) -> bool {
    if tables.len() != texts.len() {
        return false;
    }
    for i in 0..tables.len() {
        if tables[i].as_slice() != texts[i].as_bytes() {
            return false;
        }
    }
    true
}

fn has_ends(table: &[u8], length: usize, first: &str, last: &str) -> bool {
    table.len() == length && table.starts_with(first.as_bytes()) && table.ends_with(last.as_bytes())
}

/// Whether the tables have these lengths, beginnings and ends.
fn have_ends(tables: &[Vec<u8>], ends: &[(usize, &str, &str)]) -> bool {
    if tables.len() != ends.len() {
        return false;
    }
    for i in 0..tables.len() {
        let (length, first, last) = ends[i];
        if !has_ends(tables[i].as_slice(), length, first, last) {
            return false;
        }
    }
    true
}

fn small_are_texts(alloc: Global) -> bool {
    match tables_of(alloc, 1, 2) {
        Ok(tables) => are_texts(tables.as_slice(), SMALL),
        Err(_) => false,
    }
}

fn large_have_ends(alloc: Global) -> bool {
    match tables_of(alloc, 2_147_483_647, 250) {
        Ok(tables) => have_ends(tables.as_slice(), LARGE),
        Err(_) => false,
    }
}

#[test]
fn small_tables_are_as_worked_out(rt: HostRuntime) {
    assert!(rt; small_are_texts(rt.alloc()));
}

#[test]
fn larger_tables_have_more_values(rt: HostRuntime) {
    assert!(rt; large_have_ends(rt.alloc()));
    assert!(rt; LOAD_QUERY.ends_with("limit 100"));
}
