//! What the nodes of a raw tree are filled from.

use crate::columns::Columns;
use bound_query::Query;
use join_tree::JoinTree;
use table_store::Tables;

/// A query over its tables, its join tree, and the columns in which rows must agree.
#[derive(Clone, Copy)]
pub(crate) struct NodeSource<'a> {
    pub query: &'a Query,
    pub tables: &'a Tables,
    pub join: &'a JoinTree,
    pub columns: &'a Columns,
}
