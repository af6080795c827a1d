//! The tables that are made from a number.
ghost use Rattle.std.specs.Prelude.{◌≡◌, ◌∷◌, ◌++◌, ◌^◌, ◌<◌, ◌≤◌, [], IfOk, OnOk, map};
ghost use Rattle.cmd_words.specs.NamedPairs.{named_pair};
ghost use Rattle.make_input.specs.Input.{table_files};

use cmd_words::Named;
use std::alloc::Global;
use step_counter::NoMemory;

/// Four tables that are made from a number, with the name of each table and of its file.
#[derive(Drop)]
pub struct MadeTables {
    /// The number, below 2^31.
    pub number: u32,
    /// The number of rows of each table, from 1 to 100,000.
    pub rows: u32,
    /// The names of the tables, P1 to P4, and of their files.
    pub named: Vec<Named>,
    ghost small: { number < 2 ^ 31 },
    ghost some_rows: { 1 ≤ rows },
    ghost few_rows: { rows ≤ 100000 },
    ghost names: { map named_pair named.items ≡ table_files },
}

impl MadeTables {
    /// The tables P1 to P4 of this number, with `rows` rows each. `NoMemory` if memory is refused.
    pub fn new(alloc: Global, number: u32, rows: u32) -> Result<MadeTables, NoMemory>
        requires small { number < 2 ^ 31 }
        requires some_rows { 1 ≤ rows }
        requires few_rows { rows ≤ 100000 }
        ensures number { IfOk result (λ made. made.number ≡ number) }
        ensures rows { IfOk result (λ made. made.rows ≡ rows) }
    {
        let named = made_names(alloc)?;
        Ok(MadeTables {
            number,
            rows,
            named,
        })
    }
}

/// The four tables that are made, each with the name of its file.
fn made_names(alloc: Global) -> Result<Vec<Named>, NoMemory>
    ensures { IfOk result (λ named. map named_pair named.items ≡ table_files) }
{
    let mut named = Vec::new(alloc);
    push_named(alloc, &mut named, "P1", "P1.csv")?;
    push_named(alloc, &mut named, "P2", "P2.csv")?;
    push_named(alloc, &mut named, "P3", "P3.csv")?;
    push_named(alloc, &mut named, "P4", "P4.csv")?;
    Ok(named)
}

/// Puts a table and its file after the others.
fn push_named(
    alloc: Global,
    named: &mut Vec<Named>,
    table: &str,
    file: &str,
) -> Result<(), NoMemory>
    ensures { OnOk result
        (map named_pair named.new.items
        ≡ map named_pair named.old.items ++ (table.now, file.now) ∷ []) }
{
    let table = String::from_str(alloc, table)?;
    let file = String::from_str(alloc, file)?;
    named.push(Named { table, file })?;
    Ok(())
}
