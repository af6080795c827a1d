//! The plan of a query.
ghost use Rattle.std.specs.Prelude.{◌≡◌, ◌≤◌, ◌+◌, ◌*◌, ◌<◌, List, length, IfErr, IfOk, Ok};
ghost use Rattle.anyk_model.specs.Query.{row_counts};
ghost use Rattle.anyk_model.specs.Table.{Table};
ghost use Rattle.bound_query.specs.KeyParts.{sum_of_all};
ghost use Rattle.bound_query.specs.WeighedQuery.{Fits};
ghost use Rattle.join_tree.specs.Rerooting.{IsTree};
ghost use Rattle.bound_query.specs.JoinTreeView.{HasStoredTree};
ghost use Rattle.node_build.specs.Nodes.{CapsBelow, IsJoinTreeOf};
ghost use Rattle.bound_query.specs.RunBounds.{IsPrepared};
ghost use Rattle.plan_build.specs.Making.{AreNodes, FitsRanks, IsPlanOver, IsStored};
ghost use Rattle.plan_build.specs.Plan.{IsPlan, IsPlanAt};
ghost use Rattle.plan_build.specs.Faults.{TellsFlaw};

use crate::fault::PlanFault;
use crate::node_rows::in_order;
use bound_query::{Query, ShapeFault, tree_shape};
use join_tree::{JoinTree, reroot};
use node_build::{BuildFault, Built, build};
use rank_key::Rank;
use semi_join::reduce;
use std::alloc::Global;
use std::marker::Model;
use std::sync::ledger::Ledger;
use step_counter::Steps;
use table_store::Tables;
use tdp_core::Tree;
use tree_dp::solve;

/// The greatest number of rows of all nodes of a join tree together.
const MAX_NODE_ROWS: u64 = 4_194_304;

/// A query's tree problem, prepared for ranked enumeration, with its join tree. Contracts see the
/// two trees, the number of rows of each node before the reduction, and the number of rows of the
/// tables of all items and of all nodes.
#[derive(Drop)]
pub struct Plan<R: Rank> {
    tree: Tree<R>,
    pub(crate) join: JoinTree,
    pub(crate) node_rows: Vec<u64>,
    pub(crate) total: u64,
}

impl<R: Rank> Model for Plan<R> {
    ghost use Rattle.plan_build.specs.Plan.{PlanView};

    ghost Value = { PlanView R };

    ghost view = { λ p. record
        { tree = p.tree; join = p.join; node_rows = p.node_rows.items; total = p.total } };
}

impl<R: Rank> Plan<R> {
    /// The tree, one node for each item.
    pub fn tree(&self) -> &Tree<R>
        ensures { result.now ≡ self.now.tree }
    {
        &self.tree
    }

    /// The number of rows of the tables of all items and of the nodes of the tree before its
    /// reduction. A table is counted once for each item.
    pub fn total(&self) -> u64
        ensures { result ≡ self.now.total }
    {
        self.total
    }
}

/// The plan of a query over the tables to which it is bound. `Cyclic` exactly if no join tree
/// exists, `TooManyRows` exactly if more than 4,194,304 rows of all nodes pass, and `NoMemory` if
/// memory is refused.
pub fn prepare<R: Rank, L: Ledger>(
    alloc: Global,
    query: &Query,
    tables: &Tables,
    steps: &mut Steps<L>,
) -> Result<Plan<R>, PlanFault>
    requires fits { Fits query.now tables.now }
    requires keys { length query.now.query.order ≤ R.KEYS }
    requires slots { length query.now.query.items ≤ R.ITEMS }
    requires limit { CapsBelow R.LIMIT query.now tables.now }
    ensures plan { IfOk result (IsPlan R.KEYS R.key query.now tables.now) }
    ensures refusal { IfErr result (TellsFlaw query.now.query tables.now) }
    ensures cost { IsPrepared query.now.query tables.now steps.old steps.new }
{
    let join = join_tree_of(query)?;
    plan_over(alloc, query, tables, &join, &join, steps)
}

/// The plan with this item at the root of the tree, counted from 0. Its errors and its steps are
/// those of `prepare`.
pub fn prepare_at<R: Rank, L: Ledger>(
    alloc: Global,
    query: &Query,
    tables: &Tables,
    item: u32,
    steps: &mut Steps<L>,
) -> Result<Plan<R>, PlanFault>
    requires fits { Fits query.now tables.now }
    requires keys { length query.now.query.order ≤ R.KEYS }
    requires slots { length query.now.query.items ≤ R.ITEMS }
    requires limit { CapsBelow R.LIMIT query.now tables.now }
    requires item { item < length query.now.query.items }
    ensures plan { IfOk result (IsPlanAt R.KEYS R.key query.now tables.now item) }
    ensures refusal { IfErr result (TellsFlaw query.now.query tables.now) }
    ensures cost { IsPrepared query.now.query tables.now steps.old steps.new }
{
    let tree = join_tree_of(query)?;
    let rooted = reroot(&tree, item);
    plan_over(alloc, query, tables, &tree, &rooted, steps)
}

/// The plan of a query whose tree has the nodes of `over`, any join tree of the query. What is kept
/// of the query's shape is in the order of `join`, the join tree that ear removal gives.
fn plan_over<R: Rank, L: Ledger>(
    alloc: Global,
    query: &Query,
    tables: &Tables,
    join: &JoinTree,
    over: &JoinTree,
    steps: &mut Steps<L>,
) -> Result<Plan<R>, PlanFault>
    requires ranks { FitsRanks R.KEYS R.ITEMS R.LIMIT query.now tables.now }
    requires stored { IsStored query.now.query join.now }
    requires over { IsJoinTreeOf query.now.query over.now }
    requires over_ordered { IsTree over.now.count over.now.atom over.now.parent }
    ensures plan { IfOk result
        (IsPlanOver R.KEYS R.key query.now tables.now join.now over.now) }
    ensures refusal { IfErr result (TellsFlaw query.now.query tables.now) }
    ensures cost { IsPrepared query.now.query tables.now steps.old steps.new }
{
    let built = nodes_of(alloc, query, tables, over, steps)?;
    let total = rows_of_tables(query, tables) + built.used;
    let node_rows = in_order(built.rows_of, over, join);
    let reduced = reduce(alloc, built.tree, steps)?;
    let tree = solve(alloc, reduced, steps)?;
    // for the proof: the tree is well formed
    let _nodes = tree.nodes();
    Ok(Plan {
        tree,
        join: *join,
        node_rows,
        total,
    })
}

/// The join tree of the query. `Cyclic` if there is none.
fn join_tree_of(query: &Query) -> Result<JoinTree, PlanFault>
    requires fits { (tables : List Table) × Fits query.now tables }
    ensures tree { IfOk result (IsStored query.now.query) }
    ensures refusal { IfErr result
        (λ fault. (tables : List Table) → TellsFlaw query.now.query tables fault) }
{
    match tree_shape(query) {
        Ok(tree) => Ok(tree),
        Err(ShapeFault::Cyclic(core)) => Err(PlanFault::Cyclic(core)),
        Err(ShapeFault::NoMemory) => Err(PlanFault::NoMemory),
    }
}

/// The nodes of the join tree with their rows and links. `TooManyRows` if more than 4,194,304 rows
/// pass.
fn nodes_of<R: Rank, L: Ledger>(
    alloc: Global,
    query: &Query,
    tables: &Tables,
    join: &JoinTree,
    steps: &mut Steps<L>,
) -> Result<Built<R>, PlanFault>
    requires ranks { FitsRanks R.KEYS R.ITEMS R.LIMIT query.now tables.now }
    requires tree { IsJoinTreeOf query.now.query join.now }
    requires acyclic { (other : JoinTree) × HasStoredTree query.now.query other
        × (other.count ≡ length query.now.query.items) }
    ensures nodes { IfOk result
        (λ built. AreNodes R.KEYS R.key query.now tables.now join.now built.tree
        built.rows_of.items built.used) }
    ensures refusal { IfErr result (TellsFlaw query.now.query tables.now) }
    ensures cost { steps.new
        ≤ steps.old + length query.now.query.items
        * sum_of_all (row_counts query.now.query.items tables.now) }
{
    match build(alloc, query, tables, join, MAX_NODE_ROWS, steps) {
        Ok(built) => {
            // for the proof: the tree is well formed
            let _nodes = built.tree.nodes();
            Ok(built)
        }
        Err(BuildFault::TooManyRows(budget)) => Err(PlanFault::TooManyRows(budget)),
        Err(BuildFault::NoMemory) => Err(PlanFault::NoMemory),
    }
}

/// The number of rows of the tables of all items. A table is counted once for each item.
fn rows_of_tables(query: &Query, tables: &Tables) -> u64
    requires fits { Fits query.now tables.now }
    ensures rows { result ≡ sum_of_all (row_counts query.now.query.items tables.now) }
    ensures few { result ≤ 16777216 }
{
    let mut rows = 0;
    for item in 0..query.items() {
        rows += tables.len(query.table_of(item)) as u64;
    }
    rows
}
