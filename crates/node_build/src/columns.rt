//! The columns in which the rows of a node and of its parent must agree.
ghost use Rattle.std.specs.Prelude.{◌<◌, ℕ, List, length, IfOk, IfSome, IfNone};
ghost use Rattle.anyk_model.specs.Table.{Table};
ghost use Rattle.rankings.specs.Order.{IsMember};
ghost use Rattle.bound_query.specs.Classes.{HasVariable};
ghost use Rattle.bound_query.specs.WeighedQuery.{Fits};
ghost use Rattle.node_build.specs.Columns.{AreShared, HaveColumns};
ghost use Rattle.node_build.specs.Nodes.{IsJoinTreeOf};
ghost use Rattle.node_build.specs.Rows.{lists_of};

use bound_query::Query;
use join_tree::JoinTree;
use std::alloc::Global;
use step_counter::NoMemory;

/// For each node after the first, the columns of its item, and for each of these the column of the
/// same variable in its parent's item.
#[derive(Drop)]
pub(crate) struct Columns {
    pub own: Vec<Vec<u32>>,
    pub above: Vec<Vec<u32>>,
}

/// The column of a variable among those of an item.
fn place_of(variables: &[(u32, u32)], number: u32) -> Option<u32>
    ensures found { IfSome result (λ place. IsMember (number, place) variables.now) }
    ensures missing { IfNone result ((place : ℕ) → IsMember (number, place) variables.now → ⊥) }
{
    for variable in variables {
        if variable.0 == number {
            return Some(variable.1);
        }
    }
    None
}

/// The columns of the variables that both items have.
fn shared_columns(
    alloc: Global,
    query: &Query,
    item: u32,
    other: u32,
) -> Result<(Vec<u32>, Vec<u32>), NoMemory>
    requires fits { (tables : List Table) × Fits query.now tables }
    requires item { item < length query.now.query.items }
    requires other { other < length query.now.query.items }
    ensures { IfOk result (λ columns. AreShared query.now item other
        (λ v. HasVariable query.now.query.equalities query.now.variables item v.0 v.1)
        columns.0.items columns.1.items) }
{
    let others = query.variables_of(other);
    let mut columns = Vec::new(alloc);
    let mut other_columns = Vec::new(alloc);
    for variable in query.variables_of(item) {
        let Some(place) = place_of(others, variable.0) else {
            continue;
        };
        columns.push(variable.1)?;
        other_columns.push(place)?;
    }
    Ok((columns, other_columns))
}

/// The columns of each node of a join tree. The first node has none.
pub(crate) fn columns_of(alloc: Global, query: &Query, join: &JoinTree) -> Result<Columns, NoMemory>
    requires fits { (tables : List Table) × Fits query.now tables }
    requires tree { IsJoinTreeOf query.now.query join.now }
    ensures { IfOk result
        (λ columns. HaveColumns query.now join.now join.now.count (lists_of columns.own.items)
        (lists_of columns.above.items)) }
{
    let mut own = Vec::new(alloc);
    let mut above = Vec::new(alloc);
    own.push(Vec::new(alloc))?;
    above.push(Vec::new(alloc))?;
    for node in 1..join.count as usize {
        let item = join.atom[node];
        let other = join.atom[join.parent[node] as usize];
        let (columns, other_columns) = shared_columns(alloc, query, item, other)?;
        own.push(columns)?;
        above.push(other_columns)?;
    }
    Ok(Columns { own, above })
}
