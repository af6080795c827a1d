//! The join tree of a query.
ghost use Rattle.std.specs.Prelude.{◌≡◌, IfErr, IfOk, List, length};
ghost use Rattle.anyk_model.specs.Table.{Table};
ghost use Rattle.join_tree.specs.Rerooting.{IsTree};
ghost use Rattle.bound_query.specs.WeighedQuery.{Fits};
ghost use Rattle.bound_query.specs.JoinTreeView.{HasItems, HasStoredTree, TellsCycle};

use crate::Query;
use crate::fault::ShapeFault;
use join_tree::{JoinTree, ears, tree_of};

/// The join tree of a query, by ear removal. Its atoms are the items, from 0. `Cyclic` exactly if
/// there is none, and `NoMemory` if memory is refused.
pub fn tree_shape(query: &Query) -> Result<JoinTree, ShapeFault>
    requires fits { (tables : List Table) × Fits query.now tables }
    ensures tree { IfOk result (λ tree. HasStoredTree query.now.query tree) }
    ensures ordered { IfOk result (λ tree. IsTree tree.count tree.atom tree.parent) }
    ensures count { IfOk result (λ tree. tree.count ≡ length query.now.query.items) }
    ensures items { IfOk result
        (λ tree. HasItems tree.count tree.atom (length query.now.query.items)) }
    ensures refusal { IfErr result (TellsCycle query.now.query) }
{
    let graph = query.graph()?;
    let ears = ears(&graph);
    match tree_of(&ears) {
        Some(tree) => Ok(tree),
        None => Err(ShapeFault::Cyclic(ears.core)),
    }
}
