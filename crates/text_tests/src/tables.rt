//! Tables: worked files, and that each call succeeds with ample memory, which no clause says.
use answer_print::RecordWriter;
use csv_tables::{TableFault, Tables};
use std::alloc::Global;

/// A table, a row and a column.
type Place = (u32, u32, u32);

/// A call on tables, and what it returns.
#[derive(Clone, Copy)]
enum Call {
    Read(&'static str, Result<u32, TableFault>),
    Count(u32),
    Name(u32, u32, &'static str),
    Field(Place, &'static str),
    Weight(Place, Option<i128>),
    Number(Place, u32),
    // Whether two fields have the same number.
    Same(Place, Place, bool),
}

/// Reads one more table; a test reads few and small ones.
fn read(tables: &mut Tables, bytes: &[u8]) -> Result<u32, TableFault> {
    if tables.count() < 16 && bytes.len() <= 67_108_864 {
        tables.read(bytes)
    } else {
        Err(TableFault::NoMemory)
    }
}

/// Whether there is such a column, and it has this name.
fn has_name(tables: &Tables, table: u32, column: u32, text: &str) -> bool {
    table < tables.count()
        && column < tables.width(table)
        && tables.name(table, column) == text.as_bytes()
}

/// Whether there is such a field, and it has these bytes.
fn has_field(tables: &Tables, (table, row, column): Place, text: &str) -> bool {
    table < tables.count()
        && 1 <= row
        && row <= tables.len(table)
        && column < tables.width(table)
        && tables.field(table, row, column) == text.as_bytes()
}

/// Whether there is such a field, and it has this weight, or none.
fn has_weight(tables: &Tables, (table, row, column): Place, weight: Option<i128>) -> bool {
    table < tables.count()
        && 1 <= row
        && row <= tables.len(table)
        && column < tables.width(table)
        && tables.weight(table, row, column) == weight
}

/// The number of a field, if there is such a field.
fn number(tables: &Tables, (table, row, column): Place) -> Option<u32> {
    if table < tables.count()
        && 1 <= row
        && row <= tables.len(table)
        && column < tables.width(table)
    {
        Some(tables.value(table, row, column))
    } else {
        None
    }
}

/// Whether there are such fields, and whether they have the same number is as given.
fn are_same(tables: &Tables, first: Place, second: Place, same: bool) -> bool {
    match (number(tables, first), number(tables, second)) {
        (Some(first), Some(second)) => (first == second) == same,
        _ => false,
    }
}

fn returns(tables: &mut Tables, call: Call) -> bool {
    match call {
        Call::Read(text, outcome) => read(tables, text.as_bytes()) == outcome,
        call => shows(tables, call),
    }
}

/// Whether the tables that were read so far show what the call says.
fn shows(tables: &Tables, call: Call) -> bool {
    match call {
        Call::Read(..) => false,
        Call::Count(count) => tables.count() == count,
        Call::Name(table, column, text) => has_name(tables, table, column, text),
        Call::Field(place, text) => has_field(tables, place, text),
        Call::Weight(place, weight) => has_weight(tables, place, weight),
        Call::Number(place, found) => number(tables, place) == Some(found),
        Call::Same(first, second, same) => are_same(tables, first, second, same),
    }
}

/// The place of the first call, made on tables one after another, that returns something else.
fn first_failing_on(tables: &mut Tables, calls: &[Call]) -> Option<usize> {
    for (i, call) in calls.iter().enumerate() {
        if !returns(tables, *call) {
            return Some(i);
        }
    }
    None
}

/// The same, starting without a table.
fn first_failing(alloc: Global, calls: &[Call]) -> Option<usize> {
    first_failing_on(&mut Tables::new(alloc), calls)
}

const OF_TWO_TABLES: &[Call] = &[
    Call::Count(0),
    Call::Read("a,b,w\n1,x,3\n2,y,1\n3,x,1\n", Ok(0)),
    Call::Read("\u{feff}b,c\r\nx,\"p,q\"\r\ny,\"two\nlines\"\r\n", Ok(1)),
    Call::Count(2),
    Call::Field((0, 1, 0), "1"),
    Call::Field((0, 3, 1), "x"),
    Call::Field((0, 2, 2), "1"),
    Call::Field((1, 2, 0), "y"),
    Call::Field((1, 1, 1), "p,q"),
    Call::Field((1, 2, 1), "two\nlines"),
    Call::Name(0, 2, "w"),
    Call::Name(1, 0, "b"),
    Call::Same((0, 1, 1), (1, 1, 0), true),
    Call::Same((0, 1, 0), (0, 2, 2), true),
    Call::Same((0, 1, 1), (0, 2, 1), false),
    Call::Weight((0, 1, 2), Some(3)),
    Call::Weight((0, 1, 1), None),
];

#[test]
fn reads_tables(rt: HostRuntime) {
    assert_eq!(rt; first_failing(rt.alloc(), OF_TWO_TABLES), None);
}

/// A header of 64 commas, and so of 65 columns.
const TOO_WIDE: &str = ",,,,,,,,,,,,,,,,,,,,,,,,,,,,,,,,,,,,,,,,,,,,,,,,,,,,,,,,,,,,,,,,\n1\n";

/// A header with one comma less.
const WIDE: &str = ",,,,,,,,,,,,,,,,,,,,,,,,,,,,,,,,,,,,,,,,,,,,,,,,,,,,,,,,,,,,,,,\n1\n";

const OF_FLAWS: &[Call] = &[
    Call::Read("", Err(TableFault::NoHeader)),
    Call::Read(TOO_WIDE, Err(TableFault::TooManyColumns)),
    Call::Read(WIDE, Err(TableFault::DuplicateName(2))),
    Call::Read("a,b,w,b,a\n", Err(TableFault::DuplicateName(4))),
    Call::Read("b,c\n1,2\n1\n1,2,3\n", Err(TableFault::Ragged(2))),
    Call::Read("b,c\n1,2,3\n", Err(TableFault::Ragged(1))),
    Call::Count(0),
];

#[test]
fn refuses_the_first_flaw(rt: HostRuntime) {
    assert_eq!(rt; first_failing(rt.alloc(), OF_FLAWS), None);
}

const OF_A_REFUSAL: &[Call] = &[
    Call::Read("a,b\n1,x\n2,y\n", Ok(0)),
    Call::Read("a,b\n3,z\n4\n", Err(TableFault::Ragged(2))),
    Call::Count(1),
    Call::Field((0, 2, 1), "y"),
    // Two texts are known, so the next new one has the number of the third.
    Call::Read("a\nnew\n", Ok(1)),
    Call::Number((1, 1, 0), 2_147_483_650),
];

#[test]
fn a_refusal_adds_no_value(rt: HostRuntime) {
    assert_eq!(rt; first_failing(rt.alloc(), OF_A_REFUSAL), None);
}

const OF_WEIGHTS: &[Call] = &[
    Call::Read(
        "w\n-0\n+7\n\"\"\n-\n12x\n170141183460469231731687303715884105728\n-170141183460469231731687303715884105728\n",
        Ok(0),
    ),
    Call::Weight((0, 1, 0), Some(0)),
    Call::Weight((0, 2, 0), Some(7)),
    Call::Weight((0, 3, 0), Some(0)),
    Call::Weight((0, 4, 0), None),
    Call::Weight((0, 5, 0), None),
    Call::Weight((0, 6, 0), None),
    Call::Weight((0, 7, 0), Some(i128::MIN)),
    // 39 digits are a weight, and 40 are not.
    Call::Read(
        "w\n000000000000000000000000000000000000005\n0000000000000000000000000000000000000005\n",
        Ok(1),
    ),
    Call::Weight((1, 1, 0), Some(5)),
    Call::Weight((1, 2, 0), None),
];

#[test]
fn weighs(rt: HostRuntime) {
    assert_eq!(rt; first_failing(rt.alloc(), OF_WEIGHTS), None);
}

/// The fields of a record, and its text.
type Record = (&'static [&'static [u8]], &'static [u8]);

const RECORDS: &[Record] = &[
    (&[b"1", b"p"], b"1,p\n"),
    (&[b"p,q"], b"\"p,q\"\n"),
    (&[b"a", b"b\"c", b""], b"a,\"b\"\"c\",\n"),
    (&[b""], b"\"\"\n"),
    (
        &[b"first", b"second", b"third", b"-4"],
        b"first,second,third,-4\n",
    ),
];

/// Whether the fields are written, each of them.
fn are_pushed(records: &mut RecordWriter, fields: &[&[u8]]) -> bool {
    for field in fields {
        if records.push(field).is_err() {
            return false;
        }
    }
    true
}

fn is_written(records: &mut RecordWriter, fields: &[&[u8]], text: &[u8]) -> bool {
    records.begin();
    are_pushed(records, fields) && records.end().is_ok() && records.text() == text
}

/// Whether each of the records is written.
fn are_written(records: &mut RecordWriter, wanted: &[Record]) -> bool {
    for (fields, text) in wanted {
        if !is_written(records, fields, text) {
            return false;
        }
    }
    true
}

/// Whether the records are written this many times.
fn are_written_often(records: &mut RecordWriter, times: u32) -> bool {
    for _ in 0..times {
        if !are_written(records, RECORDS) {
            return false;
        }
    }
    true
}

/// Whether a record that was not ended is left out.
fn leaves_out(records: &mut RecordWriter) -> bool {
    records.begin();
    records.push(b"left out").is_ok() && are_written(records, RECORDS)
}

/// Whether records are written one after another that are together longer than what a writer keeps
/// of earlier ones.
fn writes_many(alloc: Global) -> bool {
    let mut records = RecordWriter::new(alloc);
    records.text().is_empty() && are_written_often(&mut records, 600) && leaves_out(&mut records)
}

#[test]
fn writes_records_one_after_the_other(rt: HostRuntime) {
    assert!(rt; writes_many(rt.alloc()));
}
