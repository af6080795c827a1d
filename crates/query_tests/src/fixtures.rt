//! Two small tables and a small query, of sizes that binding takes.
ghost use Rattle.std.specs.Prelude.{◌≡◌, ◌≤◌, [], length, IfSome, OnOk};

use csv_tables::{TableFault, Tables};
use query_parse::parse;
use query_select::select::Select;
use std::alloc::Global;

pub(crate) const R: &[u8] = b"a,b,w\n1,x,3\n2,y,1\n3,x,1\n";

pub(crate) const S: &[u8] = b"b,c,w\nx,p,5\ny,q,2\nx,q,4\n";

/// Reads the tables of two small files.
pub(crate) fn read_two(tables: &mut Tables, files: (&[u8], &[u8])) -> Result<(), TableFault>
    requires { tables.old ≡ [] }
    ensures { OnOk result (length tables.new ≡ 2) }
{
    if files.0.len() > 1000 || files.1.len() > 1000 {
        return Err(TableFault::NoMemory);
    }
    tables.read(files.0)?;
    tables.read(files.1)?;
    Ok(())
}

/// A query with this many items, and at least one, that can be bound.
pub(crate) fn parse_small(alloc: Global, text: &[u8], items: usize) -> Option<Select>
    requires few { items ≤ 16 }
    ensures some { IfSome result (λ made. 1 ≤ length made.items) }
    ensures items { IfSome result (λ made. length made.items ≡ items) }
    ensures keys { IfSome result (λ made. length made.keys ≤ 8) }
{
    let select = parse(alloc, text).ok()?;
    if items == 0 || select.items.as_slice().len() != items || select.keys.as_slice().len() > 8 {
        return None;
    }
    Some(select)
}
