//! The answers of a query over two tables, by a cursor and a fork of it.
ghost use Rattle.std.specs.Prelude.{◌≡◌, ◌<◌, ◌≤◌, [], IfSome, OnOk, length};
ghost use Rattle.bound_query.specs.WeighedQuery.{Fits};
ghost use Rattle.tdp_core.specs.WellFormed.{IsTieFreeTree};

use anyk_part::Part;
use bound_query::Query;
use csv_tables::TableFault;
use cursor_set::{CursorFault, CursorId, Cursors};
use plan_build::{Plan, prepare_wide};
use query_bind::bind;
use query_parse::parse;
use query_select::Select;
use rank_key::SumRank;
use std::alloc::Global;
use std::sync::ledger::{Blank, Ledger};
use step_counter::Steps;
use table_store::Tables;
use tdp_core::Ranked;

const TRAINS: &str = "train,city,price\nRE10,Hamar,219\nRE11,Drammen,129\nRE15,Hamar,199\n";

const HOTELS: &str = "city,hotel,price\nHamar,Astoria,890\nHamar,Victoria,1090\nDrammen,Park,990\n";

const QUERY: &str = "select t.train, h.hotel from trains t, hotels h \
    where t.city = h.city order by t.price + h.price";

/// The rows of the first answers, each a row of the first table and one of the second, from 1. `None`
/// if a text is refused, or memory.
pub(crate) fn first_answers<L: Ledger>(alloc: Global, blank: Blank) -> Option<[[u32; 2]; 4]>
    requires name { blank.name ≡ L.name }
    requires parts { blank.parts ≡ L.parts }
    requires some_part { 0 < blank.parts }
{
    let mut steps = Steps::<L>::new(blank);
    let plan = plan_of(alloc, &mut steps)?;
    let engine = Part::new(alloc, plan.tree(), &mut steps).ok()?;
    let mut cursors = Cursors::new(alloc, engine);
    walk(&mut cursors, &mut steps).ok()
}

/// The plan of the query over the two tables.
fn plan_of<L: Ledger>(alloc: Global, steps: &mut Steps<L>) -> Option<Plan<SumRank>>
    ensures { IfSome result (λ plan. IsTieFreeTree plan.tree) }
{
    let mut tables = csv_tables::Tables::new(alloc);
    read_two(&mut tables).ok()?;
    let query = query_over(alloc, &tables)?;
    match prepare_wide::<1, L>(alloc, &query, &tables, steps) {
        Ok(plan) => Some(plan),
        Err(_) => None,
    }
}

/// Reads the two tables.
fn read_two(tables: &mut csv_tables::Tables) -> Result<(), TableFault>
    requires { tables.old ≡ [] }
    ensures { OnOk result (length tables.new ≡ 2) }
{
    tables.read(TRAINS.as_bytes())?;
    tables.read(HOTELS.as_bytes())?;
    Ok(())
}

/// The query bound to the tables, which its items name in their order.
fn query_over(alloc: Global, tables: &Tables) -> Option<Query>
    requires { length tables.now ≡ 2 }
    ensures fits { IfSome result (λ query. Fits query tables.now) }
    ensures keys { IfSome result (λ query. length query.query.order ≤ 1) }
{
    let select = parse(alloc, QUERY.as_bytes()).ok()?;
    let query = bound(alloc, tables, &select)?;
    if query.keys() > 1 {
        return None;
    }
    Some(query)
}

/// The same for a query that is parsed. The first item is over table 0, and the second over table 1.
fn bound(alloc: Global, tables: &Tables, select: &Select) -> Option<Query>
    requires { length tables.now ≡ 2 }
    ensures { IfSome result (λ query. Fits query tables.now) }
{
    if select.items.as_slice().len() != 2 || select.keys.as_slice().len() > 8 {
        return None;
    }
    bind(alloc, select, tables, &[0, 1]).ok()
}

/// Two answers of a cursor, and the one after them twice: by a fork of the cursor and by itself.
fn walk<E: Ranked, L: Ledger>(
    cursors: &mut Cursors<E>,
    steps: &mut Steps<L>,
) -> Result<[[u32; 2]; 4], CursorFault> {
    let first = cursors.open()?;
    let one = rows_of(cursors, first, steps)?;
    let two = rows_of(cursors, first, steps)?;
    let other = cursors.fork(first)?;
    let three = rows_of(cursors, other, steps)?;
    let again = rows_of(cursors, first, steps)?;
    Ok([one, two, three, again])
}

/// The rows of the next answer of a cursor, and zeros at the end.
fn rows_of<E: Ranked, L: Ledger>(
    cursors: &mut Cursors<E>,
    id: CursorId,
    steps: &mut Steps<L>,
) -> Result<[u32; 2], CursorFault> {
    match cursors.next(id, steps)? {
        Some(answer) => Ok([answer.rows[0], answer.rows[1]]),
        None => Ok([0, 0]),
    }
}
