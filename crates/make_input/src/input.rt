//! The tables of `load`, made from a number, and their query.

ghost use Rattle.std.specs.Prelude.{◌≡◌, ◌+◌, ◌*◌, ◌^◌, ◌<◌, ◌≤◌, ◌++◌, ◌∷◌, [], map, IfOk, OnOk, codes};
ghost use Rattle.std.specs.String.{string_bytes};
ghost use Rattle.make_input.specs.Input.{next_draw, draw, row_text, rows_text, table_text, files, load_query};

use std::alloc::{AllocError, Global};
use step_counter::NoMemory;

/// The query over the four tables P1 to P4: the 100 least sums of weights along their chain of
/// joins.
pub const LOAD_QUERY: &str =
    "select P1.a, P4.e from P1, P2, P3, P4 where P1.b = P2.b and P2.c = P3.c and P3.d = P4.d order by P1.w + P2.w + P3.w + P4.w limit 100";

/// The bytes of the file of `LOAD_QUERY`. `NoMemory` if memory is refused.
pub fn query_of(alloc: Global) -> Result<Vec<u8>, NoMemory>
    ensures { IfOk result (λ bytes. bytes.items ≡ load_query) }
{
    let text = String::from_str(alloc, LOAD_QUERY)?;
    Ok(text.into_bytes())
}

/// The generator's state: the number that it started with, or the last draw.
#[derive(Drop)]
struct Generator {
    last: u32,
    ghost in_range: { last < 2 ^ 31 },
}

impl Generator {
    /// The next draw.
    fn next(&mut self) -> u32
        ensures value { result ≡ next_draw self.old.last }
        ensures after { self.new.last ≡ next_draw self.old.last }
    {
        let next = (1103515245 * u64::from(self.last) + 12345) % 2147483648;
        self.last = next as u32;
        self.last
    }
}

/// One more row, of two draws: two values below the modulus, and a weight below 1000.
#[tactic(auto, unfolding(crate::specs::Input::draw, crate::specs::Input::row_text))]
fn push_row(text: &mut String, modulus: u32, draws: &mut Generator) -> Result<(), AllocError>
    requires { 1 ≤ modulus }
    ensures text { IfOk result
        (λ _. string_bytes text.new ≡ string_bytes text.old ++ row_text modulus draws.old.last) }
    ensures after { draws.new.last ≡ draw draws.old.last 2 }
{
    let value = draws.next() / 128;
    let first = (value / 4096) % modulus;
    let second = (value % 4096) % modulus;
    let weight = (draws.next() / 65536) % 1000;
    writeln!(text, "{first},{second},{weight}")
}

/// One more table after the others: a header, and `rows` rows.
#[tactic(auto, unfolding(crate::specs::Input::draw, crate::specs::Input::rows_text))]
fn push_table(
    alloc: Global,
    tables: &mut Vec<Vec<u8>>,
    header: &str,
    modulus: u32,
    rows: u32,
    draws: &mut Generator,
) -> Result<(), NoMemory>
    requires { 1 ≤ modulus }
    ensures pushed { OnOk result (map (λ f. f.items) tables.new.items
        ≡ map (λ f. f.items) tables.old.items
        ++ table_text header.now modulus rows draws.old.last ∷ []) }
    ensures after { OnOk result (draws.new.last ≡ draw draws.old.last (2 * rows)) }
{
    let mut text = String::from_str(alloc, header)?;
    for _row in 0..rows {
        push_row(&mut text, modulus, draws)?;
    }
    tables.push(text.into_bytes())?;
    Ok(())
}

/// The files of the tables P1 to P4, made in this order with `rows` rows each, from this number.
/// The values of their join fields are at most a hundredth of `rows`. `NoMemory` if memory is
/// refused.
pub fn tables_of(alloc: Global, number: u32, rows: u32) -> Result<Vec<Vec<u8>>, NoMemory>
    requires small { number < 2 ^ 31 }
    requires some_rows { 1 ≤ rows }
    requires few_rows { rows ≤ 100000 }
    ensures { IfOk result (λ v. map (λ f. f.items) v.items ≡ files number rows) }
{
    let modulus = rows / 100 + 1;
    let mut draws = Generator { last: number };
    let mut tables = Vec::new(alloc);
    push_table(alloc, &mut tables, "a,b,w\n", modulus, rows, &mut draws)?;
    push_table(alloc, &mut tables, "b,c,w\n", modulus, rows, &mut draws)?;
    push_table(alloc, &mut tables, "c,d,w\n", modulus, rows, &mut draws)?;
    push_table(alloc, &mut tables, "d,e,w\n", modulus, rows, &mut draws)?;
    Ok(tables)
}
