//! A query whose names are bound to the columns of tables: its readers, its hypergraph, its join
//! tree, and the bound on the steps that its answers take.
//!
//! The equalities of a query put columns into classes. A class without a constant that has columns
//! in two items is a variable. The variables and items are the edges and nodes of the hypergraph of
//! the query (Beeri, Fagin, Maier and Yannakakis, On the desirability of acyclic database schemes,
//! 1983). The join tree is found by ear removal (Graham, "On the universal relation", 1979; Yu and
//! Ozsoyoglu, "An algorithm for tree-query membership of a distributed query", 1979). A query
//! without one is cyclic.
#![tactic(auto)]

mod bound;
mod fault;
mod filters;
mod item_sets;
mod laws;
mod query;
mod selection;
mod shape;
mod shape_laws;
mod step_laws;

pub use bound::{
    BoundEquality, BoundItem, BoundKey, BoundSide, BoundTerm, ItemWeights, Variables, part_at,
};
pub use fault::ShapeFault;
pub use filters::{Constant, Filter};
pub use laws::{agree_at_least_columns, caps_bound_parts, parts_add_up, witnesses_pass_and_agree};
pub use query::Query;
pub use selection::Selection;
pub use shape::tree_shape;
pub use shape_laws::one_shape;
pub use step_laws::{shares_add_up, small_costs};
