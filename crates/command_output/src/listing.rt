//! What the records of a session are made from.

use answer_print::Style;
use bound_query::Query;
use std::alloc::Global;
use table_store::Tables;

/// The query, its tables and what a record shows, and the allocator.
#[derive(Drop)]
pub(crate) struct Listing<'p> {
    pub(crate) alloc: Global,
    pub(crate) query: &'p Query,
    pub(crate) tables: &'p Tables,
    pub(crate) style: &'p Style<'p>,
}
