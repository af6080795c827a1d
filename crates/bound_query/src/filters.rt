//! The tests of an item's rows, which select the rows that pass.
ghost use Rattle.std.specs.Prelude.{◌≡◌, ◌≤◌, ◌<◌, ◌-◌, ◌↔◌, length, map, IsTrue};
ghost use Rattle.std.specs.List.{AllByRecursion};
ghost use Rattle.anyk_model.specs.Table.{field_at, table_at};
ghost use Rattle.bound_query.specs.Filters.{HasConstants, HasEqual};
ghost use Rattle.bound_query.specs.FilterViews.{constant_view, filter_view};

use query_select::name::Bytes;
use table_store::Tables;

/// A place of an item, and the constant that it must have.
#[derive(Drop)]
pub struct Constant {
    pub place: u32,
    pub bytes: Bytes,
}

/// The tests of an item's rows: places that must be equal, and constants that places must have.
#[derive(Drop)]
pub struct Filter {
    pub pairs: Vec<(u32, u32)>,
    pub constants: Vec<Constant>,
}

/// Whether a row has the same bytes in both places of each pair.
fn has_pairs(pairs: &[(u32, u32)], tables: &Tables, table: u32, row: u32) -> bool
    requires table { table < length tables.now }
    requires first { 1 ≤ row }
    requires row { row ≤ length (table_at tables.now table).rows }
    requires left { AllByRecursion (λ p. p.0 < length (table_at tables.now table).names) pairs.now }
    requires right { AllByRecursion
        (λ p. p.1 < length (table_at tables.now table).names) pairs.now }
    ensures { IsTrue result ↔ HasEqual (field_at (table_at tables.now table) (row - 1)) pairs.now }
{
    for &(first, place) in pairs {
        if tables.field(table, row, first) != tables.field(table, row, place) {
            return false;
        }
    }
    true
}

/// Whether a row has each constant at its place.
fn has_constants(constants: &[Constant], tables: &Tables, table: u32, row: u32) -> bool
    requires table { table < length tables.now }
    requires first { 1 ≤ row }
    requires row { row ≤ length (table_at tables.now table).rows }
    requires places { AllByRecursion
        (λ c. c.place < length (table_at tables.now table).names) constants.now }
    ensures { IsTrue result
        ↔ HasConstants (field_at (table_at tables.now table) (row - 1))
        (map constant_view constants.now) }
{
    for constant in constants {
        if tables.field(table, row, constant.place) != constant.bytes.bytes() {
            return false;
        }
    }
    true
}

/// Whether a row passes the tests of its item.
pub(crate) fn stands(filter: &Filter, tables: &Tables, table: u32, row: u32) -> bool
    requires table { table < length tables.now }
    requires first { 1 ≤ row }
    requires row { row ≤ length (table_at tables.now table).rows }
    requires left { AllByRecursion
        (λ p. p.0 < length (table_at tables.now table).names) filter.now.pairs.items }
    requires right { AllByRecursion
        (λ p. p.1 < length (table_at tables.now table).names) filter.now.pairs.items }
    requires places { AllByRecursion
        (λ c. c.place < length (table_at tables.now table).names) filter.now.constants.items }
    ensures { IsTrue result
        ↔ (HasEqual (field_at (table_at tables.now table) (row - 1)) (filter_view filter.now).pairs
        × HasConstants (field_at (table_at tables.now table) (row - 1))
        (filter_view filter.now).constants) }
{
    has_pairs(filter.pairs.as_slice(), tables, table, row)
        && has_constants(filter.constants.as_slice(), tables, table, row)
}
