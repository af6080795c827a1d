//! Small tables, and small queries over them.
ghost use Rattle.std.specs.Prelude.{◌≡◌, ◌<◌, [], IfSome, OnOk, length};
ghost use Rattle.std.specs.List.{AllByRecursion};
ghost use Rattle.bound_query.specs.WeighedQuery.{Fits};

use bound_query::Query;
use csv_tables::TableFault;
use query_bind::bind;
use query_parse::parse;
use query_select::Select;
use std::alloc::Global;
use table_store::Tables;

pub(crate) const R: &str = "a,b,w\n1,x,3\n2,y,1\n3,x,1\n";

pub(crate) const S: &str = "b,c,w\nx,p,5\ny,q,2\nx,q,4\n";

/// Reads the tables of two small files.
pub(crate) fn read_two(
    tables: &mut csv_tables::Tables,
    first: &str,
    second: &str,
) -> Result<(), TableFault>
    requires { tables.old ≡ [] }
    ensures { OnOk result (length tables.new ≡ 2) }
{
    if first.len() > 1000 || second.len() > 1000 {
        return Err(TableFault::NoMemory);
    }
    tables.read(first.as_bytes())?;
    tables.read(second.as_bytes())?;
    Ok(())
}

/// The query bound to the tables; `which` names the table of each item. `None` if `which` has
/// another length than its items, or if it cannot be bound.
fn bound(alloc: Global, tables: &Tables, select: &Select, which: &[u32]) -> Option<Query>
    requires { AllByRecursion (λ t. t < length tables.now) which.now }
    ensures { IfSome result (λ query. Fits query tables.now) }
{
    let items = select.items.as_slice().len();
    if items == 0 || items > 16 || which.len() != items || select.keys.as_slice().len() > 8 {
        return None;
    }
    bind(alloc, select, tables, which).ok()
}

/// The query of this text bound to the tables; `which` names the table of each item.
pub(crate) fn query_of(alloc: Global, tables: &Tables, text: &str, which: &[u32]) -> Option<Query>
    requires { AllByRecursion (λ t. t < length tables.now) which.now }
    ensures { IfSome result (λ query. Fits query tables.now) }
{
    match parse(alloc, text.as_bytes()) {
        Ok(select) => bound(alloc, tables, &select, which),
        Err(_) => None,
    }
}
