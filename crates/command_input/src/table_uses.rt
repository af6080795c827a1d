//! The tables that the items use.
ghost use Rattle.std.specs.Prelude.{◌≡◌, ◌+◌, ◌≤◌, ◌++◌, IfOk, OnOk, List, find, length, map, option_map, position};
ghost use Rattle.std.specs.List.{position_or_len};
ghost use Rattle.std.specs.Str.{bytes_eq};
ghost use Rattle.std.specs.String.{string_bytes};
ghost use Rattle.query_select.specs.declared.select.ItemRef.{ItemRef as Item};
ghost use Rattle.cmd_words.specs.NamedPairs.{named_pair};
ghost use Rattle.refusals.specs.RefusalReasons.{reason_of};
ghost use Rattle.verdict.specs.Loading.{all_items, table_numbers, unknown_table};
ghost use Rattle.session_script.specs.Script.{unless};
ghost use Rattle.verdict.specs.Stages.{Is};
ghost use Rattle.verdict.specs.StageResults.{Pure};
ghost use Rattle.command_input.specs.Entries.{HasUses, tables_of, with_entry};
ghost use Rattle.command_input.specs.StageViews.{said_as, used_as, uses_reason};

use cmd_words::Named;
use query_select::select::{ItemRef, Select};
use refusals::Refusal;
use std::alloc::{AllocFailed, Global};
use step_counter::NoMemory;

/// The tables that items use.
#[derive(Drop)]
pub(crate) struct TableUses<'a> {
    /// The first entry that names each table, in the order of the tables' first use.
    pub(crate) firsts: Vec<&'a Named>,
    /// For each item the number of its table, which is its place among `firsts`, from 0.
    pub(crate) numbers: Vec<u32>,
}

/// Why the tables of items are not known.
#[derive(Clone, Copy)]
enum UsesFault {
    /// No entry names the table of the item at this offset.
    UnknownTable(u32),
    /// Memory was refused.
    NoMemory,
}

impl From<NoMemory> for UsesFault {
    ghost use Rattle.std.specs.Prelude.{◌≡◌};
    ghost use Rattle.command_input.specs.declared.table_uses.UsesFault.TheVariants.{NoMemory as OutOfMemory};

    ghost from_gives = { λ _ e. e ≡ OutOfMemory };

    fn from(_error: NoMemory) -> Self {
        UsesFault::NoMemory
    }
}

impl<T: Drop> From<AllocFailed<T>> for UsesFault {
    ghost use Rattle.std.specs.Prelude.{◌≡◌};
    ghost use Rattle.command_input.specs.declared.table_uses.UsesFault.TheVariants.{NoMemory as OutOfMemory};

    ghost from_gives = { λ _ e. e ≡ OutOfMemory };

    fn from(_error: AllocFailed<T>) -> Self {
        UsesFault::NoMemory
    }
}

/// The refusal for tables that are not known.
fn uses_refusal<'a>(fault: UsesFault) -> Refusal<'a>
    ensures { reason_of result ≡ uses_reason fault }
{
    match fault {
        UsesFault::UnknownTable(at) => Refusal::UnknownTable(at),
        UsesFault::NoMemory => Refusal::NoMemory,
    }
}

/// The tables that the items of all selects use. `UnknownTable` at the first item whose table has
/// no entry, and `NoMemory` if memory is refused.
pub(crate) fn uses_of<'a>(
    alloc: Global,
    named: &'a [Named],
    selects: &[Select],
) -> Result<TableUses<'a>, Refusal<'a>>
    requires { length (all_items selects.now) ≤ 16 }
    ensures known { let words = map named_pair named.now in
        Pure (Is (unless (unknown_table words (all_items selects.now)) selects.now))
        (said_as selects.now result) }
    ensures used { IfOk result (λ uses. HasUses (map named_pair named.now) (all_items selects.now)
        (map (λ e. named_pair e.now) uses.firsts.items) uses.numbers.items) }
{
    let mut uses = TableUses {
        firsts: Vec::new(alloc),
        numbers: Vec::new(alloc),
    };
    for select in selects {
        match add_uses(named, select.items.as_slice(), &mut uses) {
            Ok(()) => {}
            Err(fault) => return Err(uses_refusal(fault)),
        }
    }
    Ok(uses)
}

/// Adds the tables that these items use. `UnknownTable` at the first item whose table has no entry,
/// and `NoMemory` if memory is refused.
fn add_uses<'a>(
    named: &'a [Named],
    items: &[ItemRef],
    uses: &mut TableUses<'a>,
) -> Result<(), UsesFault>
    requires { length uses.old.firsts.items + length items.now ≤ 16 }
    ensures known { let words = map named_pair named.now in
        Pure (Is (unless (unknown_table words items.now) items.now)) (used_as items.now result) }
    ensures used { (earlier : List Item) → HasUses (map named_pair named.now) earlier
        (map (λ e. named_pair e.now) uses.old.firsts.items) uses.old.numbers.items
        → OnOk result (HasUses (map named_pair named.now) (earlier ++ items.now)
        (map (λ e. named_pair e.now) uses.new.firsts.items) uses.new.numbers.items) }
{
    for item in items {
        let Some(entry) = entry_of(named, item.table.bytes()) else {
            return Err(UsesFault::UnknownTable(item.at));
        };
        let number = number_of(&mut uses.firsts, entry)?;
        uses.numbers.push(number)?;
    }
    Ok(())
}

/// The first entry for this table, if there is one.
fn entry_of<'a>(named: &'a [Named], table: &[u8]) -> Option<&'a Named>
    ensures { option_map (λ e. e.now) result
        ≡ find (λ e. bytes_eq (string_bytes e.table) table.now) named.now }
{
    for entry in named {
        if entry.table.as_bytes() == table {
            return Some(entry);
        }
    }
    None
}

/// The number of the entry's table, which is its place among `firsts`, from 0. If none of them names
/// the table, the entry is added after them.
fn number_of<'a>(firsts: &mut Vec<&'a Named>, entry: &'a Named) -> Result<u32, NoMemory>
    requires { length firsts.old.items ≤ 16 }
    ensures firsts { OnOk result (map (λ e. named_pair e.now) firsts.new.items
        ≡ with_entry (map (λ e. named_pair e.now) firsts.old.items) (named_pair entry.now)) }
    ensures number { IfOk result (λ number. number
        ≡ position_or_len (λ e. bytes_eq (string_bytes e.now.table) (string_bytes entry.now.table))
        firsts.new.items) }
{
    let number = firsts.len();
    for place in 0..number {
        if firsts[place].table.as_str() == entry.table.as_str() {
            return Ok(place as u32);
        }
    }
    firsts.push(entry)?;
    Ok(number as u32)
}

/// For each item of all selects the number of its table, which is the place among these of the first
/// entry that names it, from 0. `UnknownTable` at the first item whose table has no entry, and
/// `NoMemory` if memory is refused.
pub(crate) fn numbers_of<'a>(
    alloc: Global,
    named: &[Named],
    selects: &[Select],
) -> Result<Vec<u32>, Refusal<'a>>
    requires { length named.now ≤ 16 }
    ensures known { let words = map named_pair named.now in
        Pure (Is (unless (unknown_table words (all_items selects.now)) selects.now))
        (said_as selects.now result) }
    ensures numbers { let names = tables_of (map named_pair named.now) in
        IfOk result (λ numbers. numbers.items ≡ table_numbers names (all_items selects.now)) }
{
    let mut numbers = Vec::new(alloc);
    for select in selects {
        match add_numbers(named, select.items.as_slice(), &mut numbers) {
            Ok(()) => {}
            Err(fault) => return Err(uses_refusal(fault)),
        }
    }
    Ok(numbers)
}

/// Puts the numbers of these items' tables after the others. `UnknownTable` at the first item whose
/// table has no entry, and `NoMemory` if memory is refused.
fn add_numbers(named: &[Named], items: &[ItemRef], numbers: &mut Vec<u32>) -> Result<(), UsesFault>
    requires { length named.now ≤ 16 }
    ensures known { let words = map named_pair named.now in
        Pure (Is (unless (unknown_table words items.now) items.now)) (used_as items.now result) }
    ensures numbers { let names = tables_of (map named_pair named.now) in
        OnOk result (numbers.new.items ≡ numbers.old.items ++ table_numbers names items.now) }
{
    for item in items {
        let Some(number) = place_of(named, item.table.bytes()) else {
            return Err(UsesFault::UnknownTable(item.at));
        };
        numbers.push(number)?;
    }
    Ok(())
}

/// The place of the first entry for this table, from 0, if there is one.
fn place_of(named: &[Named], table: &[u8]) -> Option<u32>
    requires { length named.now ≤ 16 }
    ensures { result ≡ position (λ e. bytes_eq (string_bytes e.table) table.now) named.now }
{
    for place in 0..named.len() {
        if named[place].table.as_bytes() == table {
            return Some(place as u32);
        }
    }
    None
}
