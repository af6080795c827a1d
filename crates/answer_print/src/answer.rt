//! The record of an answer.
ghost use Rattle.std.specs.Prelude.{◌≡◌, ◌<◌, ◌≤◌, ◌-◌, ◌++◌, ◌∷◌, [], List, ℕ, if◌then◌else◌, length, map, take, IfOk, IfSome, OnOk};
ghost use Rattle.std.specs.Fmt.{decimal, signed_decimal};
ghost use Rattle.anyk_model.specs.Output.{line_text};
ghost use Rattle.anyk_model.specs.Query.{IsCombination, row_counts, sum_of, term_value, value_of};
ghost use Rattle.anyk_model.specs.Table.{field_at, table_at};
ghost use Rattle.bound_query.specs.WeighedQuery.{Fits};
ghost use Rattle.bound_query.specs.NamedPlaces.{TermInside};
ghost use Rattle.bound_query.specs.StoredParts.{term_view};
ghost use Rattle.bound_query.specs.Weights.{column_size, key_at, most_sum};
ghost use Rattle.answer_print.specs.WrittenRecords.{HasFields};
ghost use Rattle.answer_print.specs.FirstSums.{IsFirstSum};
ghost use Rattle.answer_print.specs.StyleView.{style_view};

use crate::RecordWriter;
use crate::fields::{push_number, push_optional, push_signed};
use crate::style::Style;
use bound_query::{BoundTerm, Query};
use std::alloc::Global;
use step_counter::NoMemory;
use table_store::Tables;

/// The record of the answer with these rows, one for each item, counted from 1, as `write_line`
/// writes it. `NoMemory` if memory is refused.
pub fn line(
    alloc: Global,
    query: &Query,
    tables: &Tables,
    rows: &[u32; 16],
    style: &Style<'_>,
) -> Result<Vec<u8>, NoMemory>
    requires fits { Fits query.now tables.now }
    requires rows { IsCombination (row_counts query.now.query.items tables.now)
        (take (length query.now.query.items) rows.now) }
    ensures { IfOk result
        (λ text. text.items ≡ line_text query.now.query tables.now (style_view style.now)
        (take (length query.now.query.items) rows.now)) }
{
    let mut records = RecordWriter::new(alloc);
    write_line(&mut records, query, tables, rows, style)?;
    Ok(Vec::from_slice(alloc, records.text())?)
}

/// Writes the record of the answer with these rows, one for each item, counted from 1. Its fields
/// are the cursor's name if there is one, the selected columns, and the sums of the order keys and
/// the row numbers if they are shown. `NoMemory` if memory is refused; further records can be
/// written then.
pub fn write_line(
    records: &mut RecordWriter,
    query: &Query,
    tables: &Tables,
    rows: &[u32; 16],
    style: &Style<'_>,
) -> Result<(), NoMemory>
    requires fits { Fits query.now tables.now }
    requires rows { IsCombination (row_counts query.now.query.items tables.now)
        (take (length query.now.query.items) rows.now) }
    ensures { OnOk result
        (records.new.text ≡ line_text query.now.query tables.now (style_view style.now)
        (take (length query.now.query.items) rows.now)) }
{
    let first = first_sum(query, tables, rows, style);
    records.begin();
    push_optional(records, style.cursor)?;
    push_values(records, query, tables, rows)?;
    push_shown(records, query, tables, rows, style, first)?;
    records.end()
}

/// The sum of the first order key, if sums are shown. It is computed before the first field is
/// written, so that the rows of all items are read one right after the other: a processor then waits
/// once for those that its caches lack, and not for each when a field of it is written.
fn first_sum(query: &Query, tables: &Tables, rows: &[u32; 16], style: &Style<'_>) -> Option<i128>
    requires fits { Fits query.now tables.now }
    requires rows { IsCombination (row_counts query.now.query.items tables.now)
        (take (length query.now.query.items) rows.now) }
    ensures { IfSome result (IsFirstSum query.now.query tables.now
        (take (length query.now.query.items) rows.now)) }
{
    if !style.ranks || query.keys() == 0 {
        return None;
    }
    Some(key_sum(query, tables, rows, 0))
}

/// Writes the selected columns of the rows, one row for each item, counted from 1. `NoMemory` if
/// memory is refused.
pub fn push_values(
    records: &mut RecordWriter,
    query: &Query,
    tables: &Tables,
    rows: &[u32; 16],
) -> Result<(), NoMemory>
    requires fits { Fits query.now tables.now }
    requires rows { IsCombination (row_counts query.now.query.items tables.now)
        (take (length query.now.query.items) rows.now) }
    ensures { (fields : List (List ℕ)) → HasFields fields records.old.begun → OnOk result
        (HasFields (fields ++ map (value_of query.now.query tables.now
        (take (length query.now.query.items) rows.now)) query.now.query.list) records.new.begun) }
{
    for (item, place) in query.columns() {
        let table = query.table_of(*item);
        push_value(records, tables, table, rows[*item as usize], *place)?;
    }
    Ok(())
}

/// Writes a field of a table. One that is its own number is written from that number, so that its
/// bytes are not read. Tables and columns count from 0, and rows from 1. `NoMemory` if memory is
/// refused.
fn push_value(
    records: &mut RecordWriter,
    tables: &Tables,
    table: u32,
    row: u32,
    column: u32,
) -> Result<(), NoMemory>
    requires table { table < length tables.now }
    requires first { 1 ≤ row }
    requires row { row ≤ length (table_at tables.now table).rows }
    requires column { column < length (table_at tables.now table).names }
    ensures { (fields : List (List ℕ)) → HasFields fields records.old.begun → OnOk result
        (HasFields (fields ++ field_at (table_at tables.now table) (row - 1) column ∷ [])
        records.new.begun) }
{
    match tables.own_number(table, row, column) {
        Some(number) => push_number(records, number),
        None => records.push(tables.field(table, row, column)),
    }
}

/// Writes the numbers that the style shows, in decimal. `first` is the first sum, if it is known.
/// `NoMemory` if memory is refused.
fn push_shown(
    records: &mut RecordWriter,
    query: &Query,
    tables: &Tables,
    rows: &[u32; 16],
    style: &Style<'_>,
    first: Option<i128>,
) -> Result<(), NoMemory>
    requires fits { Fits query.now tables.now }
    requires rows { IsCombination (row_counts query.now.query.items tables.now)
        (take (length query.now.query.items) rows.now) }
    requires first { IfSome first (IsFirstSum query.now.query tables.now
        (take (length query.now.query.items) rows.now)) }
    ensures { let chosen = take (length query.now.query.items) rows.now in
        (fields : List (List ℕ)) → HasFields fields records.old.begun → OnOk result
        (HasFields (fields ++ ((if style.now.ranks then map
        (λ k. signed_decimal
        (sum_of query.now.query tables.now chosen k)) query.now.query.order else [])
        ++ (if style.now.rows then map decimal chosen else []))) records.new.begun) }
{
    if style.ranks {
        push_each_sum(records, query, tables, rows, first)?;
    }
    if style.rows {
        push_rows(records, query, rows)
    } else {
        Ok(())
    }
}

/// Writes the sums of the order keys over these rows, one for each item, counted from 1. `NoMemory`
/// if memory is refused.
pub fn push_sums(
    records: &mut RecordWriter,
    query: &Query,
    tables: &Tables,
    rows: &[u32; 16],
) -> Result<(), NoMemory>
    requires fits { Fits query.now tables.now }
    requires rows { IsCombination (row_counts query.now.query.items tables.now)
        (take (length query.now.query.items) rows.now) }
    ensures { let chosen = take (length query.now.query.items) rows.now in
        (fields : List (List ℕ)) → HasFields fields records.old.begun → OnOk result
        (HasFields (fields ++ map (λ k. signed_decimal
        (sum_of query.now.query tables.now chosen k)) query.now.query.order) records.new.begun) }
{
    push_each_sum(records, query, tables, rows, None)
}

/// Writes the sums of the order keys, as `push_sums` does, of which the first may be known.
#[inline(always)]
fn push_each_sum(
    records: &mut RecordWriter,
    query: &Query,
    tables: &Tables,
    rows: &[u32; 16],
    first: Option<i128>,
) -> Result<(), NoMemory>
    requires fits { Fits query.now tables.now }
    requires rows { IsCombination (row_counts query.now.query.items tables.now)
        (take (length query.now.query.items) rows.now) }
    requires first { IfSome first (IsFirstSum query.now.query tables.now
        (take (length query.now.query.items) rows.now)) }
    ensures { let chosen = take (length query.now.query.items) rows.now in
        (fields : List (List ℕ)) → HasFields fields records.old.begun → OnOk result
        (HasFields (fields ++ map (λ k. signed_decimal
        (sum_of query.now.query tables.now chosen k)) query.now.query.order) records.new.begun) }
{
    for key in 0..query.keys() {
        let sum = sum_at(query, tables, rows, first, key);
        push_signed(records, sum)?;
    }
    Ok(())
}

/// The sum of an order key, as `key_sum` returns it. `first` is that of the first key, if it is known.
#[inline(always)]
fn sum_at(query: &Query, tables: &Tables, rows: &[u32; 16], first: Option<i128>, key: u32) -> i128
    requires fits { Fits query.now tables.now }
    requires rows { IsCombination (row_counts query.now.query.items tables.now)
        (take (length query.now.query.items) rows.now) }
    requires first { IfSome first (IsFirstSum query.now.query tables.now
        (take (length query.now.query.items) rows.now)) }
    requires key { key < length query.now.query.order }
    ensures { result ≡ sum_of query.now.query tables.now
        (take (length query.now.query.items) rows.now) (key_at query.now.query.order key) }
{
    match first {
        Some(sum) if key == 0 => sum,
        _ => key_sum(query, tables, rows, key),
    }
}

/// Writes the row numbers of the items, counted from 1. `NoMemory` if memory is refused.
pub fn push_rows(
    records: &mut RecordWriter,
    query: &Query,
    rows: &[u32; 16],
) -> Result<(), NoMemory>
    ensures { (fields : List (List ℕ)) → HasFields fields records.old.begun → OnOk result
        (HasFields (fields ++ map decimal (take (length query.now.query.items) rows.now))
        records.new.begun) }
{
    let items = query.items() as usize;
    for row in &rows[..items] {
        push_number(records, *row)?;
    }
    Ok(())
}

/// The sum of an order key over the rows of the items, with the sign that the query gives it,
/// whether the key ascends or descends. Rows count from 1, and keys from 0.
pub fn key_sum(query: &Query, tables: &Tables, rows: &[u32; 16], key: u32) -> i128
    requires fits { Fits query.now tables.now }
    requires rows { IsCombination (row_counts query.now.query.items tables.now)
        (take (length query.now.query.items) rows.now) }
    requires key { key < length query.now.query.order }
    ensures { result ≡ sum_of query.now.query tables.now
        (take (length query.now.query.items) rows.now) (key_at query.now.query.order key) }
{
    let mut sum: i128 = 0;
    for term in query.terms(key) {
        sum += term_value(query, tables, rows, term);
    }
    sum
}

/// What a term of an order key adds at these rows: its weight, which is read from the tables,
/// negated if the term is subtracted.
fn term_value(query: &Query, tables: &Tables, rows: &[u32; 16], term: &BoundTerm) -> i128
    requires fits { Fits query.now tables.now }
    requires rows { IsCombination (row_counts query.now.query.items tables.now)
        (take (length query.now.query.items) rows.now) }
    requires inside { TermInside tables.now query.now.query.items (term_view term.now) }
    requires small { column_size tables.now query.now.query.items (term_view term.now).column
        ≤ most_sum }
    ensures { result ≡ term_value query.now.query tables.now
        (take (length query.now.query.items) rows.now) (term_view term.now) }
{
    let (item, place) = term.column;
    let table = query.table_of(item);
    let weight = tables
        .weight(table, rows[item as usize], place)
        .unwrap_or(0);
    if term.minus { -weight } else { weight }
}
