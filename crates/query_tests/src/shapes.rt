//! A path, two items that share one column, and a triangle.
ghost use Rattle.std.specs.Prelude.{◌≡◌, ◌<◌, ◌≤◌, length};
ghost use Rattle.std.specs.List.{AllByRecursion};

use crate::fixtures::{R, S, parse_small, read_two};
use bound_query::{ShapeFault, tree_shape};
use join_tree::JoinTree;
use query_bind::bind;
use query_select::select::Select;
use std::alloc::Global;
use table_store::Tables;

/// The number of nodes, the first two items, and the parent of the second.
fn told(tree: &JoinTree) -> [u32; 4] {
    [tree.count, tree.atom[0], tree.atom[1], tree.parent[1]]
}

/// What the join tree of a query tells, where it can be bound.
fn tree_of_select(
    alloc: Global,
    tables: &Tables,
    select: &Select,
    which: &[u32],
) -> Option<Result<[u32; 4], ShapeFault>>
    requires some { 1 ≤ length select.now.items }
    requires items { length select.now.items ≤ 16 }
    requires keys { length select.now.keys ≤ 8 }
    requires tables { length which.now ≡ length select.now.items }
    requires known { AllByRecursion (λ t. t < length tables.now) which.now }
{
    let Ok(query) = bind(alloc, select, tables, which) else {
        return None;
    };
    match tree_shape(&query) {
        Ok(tree) => Some(Ok(told(&tree))),
        Err(fault) => Some(Err(fault)),
    }
}

/// The same of the query of a text.
fn tree_of_text(
    alloc: Global,
    tables: &Tables,
    text: &[u8],
    which: &[u32],
) -> Option<Result<[u32; 4], ShapeFault>>
    requires two { length tables.now ≡ 2 }
    requires few { length which.now ≤ 16 }
    requires known { AllByRecursion (λ t. t < 2) which.now }
{
    let select = parse_small(alloc, text, which.len())?;
    tree_of_select(alloc, tables, &select, which)
}

/// The same over R and S.
fn tree(alloc: Global, text: &[u8], which: &[u32]) -> Option<Result<[u32; 4], ShapeFault>>
    requires few { length which.now ≤ 16 }
    requires known { AllByRecursion (λ t. t < 2) which.now }
{
    let mut tables = csv_tables::Tables::new(alloc);
    read_two(&mut tables, (R, S)).ok()?;
    tree_of_text(alloc, &tables, text, which)
}

#[test]
fn hangs_items_into_trees(rt: HostRuntime) {
    let text = b"select R.a, S.c from R, S where R.b = S.b order by R.w, S.w";
    assert!(rt; tree(rt.alloc(), text, &[0, 1]) == Some(Ok([2, 0, 1, 0])));
    let text = b"select R.a from R, S where R.a = S.c and S.b = 'y'";
    assert!(rt; tree(rt.alloc(), text, &[0, 1]) == Some(Ok([2, 0, 1, 0])));
    // No item of a triangle is an ear.
    let text = b"select A.a from R A, R B, R C where A.a = B.b and B.a = C.b and C.a = A.b";
    let cycle = ShapeFault::Cyclic(0b111);
    assert!(rt; tree(rt.alloc(), text, &[0, 0, 0]) == Some(Err(cycle)));
}
