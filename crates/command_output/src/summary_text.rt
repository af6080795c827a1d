//! The text of the summary.
ghost use Rattle.std.specs.Prelude.{◌≡◌, ◌++◌, IfOk, IfSome, codes, decimal, length, option_map, string_bytes, take};
ghost use Rattle.anyk_model.specs.Query.{IsCombination, row_counts};
ghost use Rattle.bound_query.specs.WeighedQuery.{Fits};
ghost use Rattle.output_model.specs.Summary.{member_text, rows_in_all};
ghost use Rattle.command_output.specs.Ends.{ends_text};

use crate::first_and_last::FirstAndLast;
use answer_print::key_sum;
use bound_query::Query;
use std::alloc::Global;
use step_counter::NoMemory;
use table_store::Tables;

/// The summary of the answers with these ends. `NoMemory` if memory is refused.
pub(crate) fn summary(
    alloc: Global,
    query: &Query,
    tables: &Tables,
    ends: &FirstAndLast,
) -> Result<Vec<u8>, NoMemory>
    requires fits { Fits query.now tables.now }
    requires first { IfSome ends.now.first
        (λ rows. IsCombination (row_counts query.now.query.items tables.now)
        (take (length query.now.query.items) rows)) }
    requires last { IfSome ends.now.last
        (λ rows. IsCombination (row_counts query.now.query.items tables.now)
        (take (length query.now.query.items) rows)) }
    ensures { IfOk result (λ text. text.items ≡ ends_text query.now.query tables.now ends.now) }
{
    let rows = rows_in_all(tables);
    let count = ends.count;
    let first = sum_text(alloc, query, tables, &ends.first)?;
    let last = sum_text(alloc, query, tables, &ends.last)?;
    let text = format!(in alloc; "rows {rows}\nanswers {count}\nfirst {first}\nlast {last}\n")?;
    Ok(text.into_bytes())
}

/// The sum of the first order key over these rows, or `none` if there is no key or there are no
/// rows.
fn sum_text(
    alloc: Global,
    query: &Query,
    tables: &Tables,
    rows: &Option<[u32; 16]>,
) -> Result<String, NoMemory>
    requires fits { Fits query.now tables.now }
    requires rows { IfSome rows.now
        (λ rows. IsCombination (row_counts query.now.query.items tables.now)
        (take (length query.now.query.items) rows)) }
    ensures { IfOk result
        (λ text. string_bytes text
        ≡ member_text query.now.query tables.now
        (option_map (take (length query.now.query.items)) rows.now)) }
{
    match rows {
        Some(rows) if query.keys() > 0 => {
            let sum = key_sum(query, tables, rows, 0);
            Ok(format!(in alloc; "{sum}")?)
        }
        _ => Ok(String::from_str(alloc, "none")?),
    }
}

/// The number of rows of all tables.
fn rows_in_all(tables: &Tables) -> u32
    ensures { result ≡ rows_in_all tables.now }
{
    let mut sum = 0;
    for table in 0..tables.count() {
        sum += tables.len(table);
    }
    sum
}
