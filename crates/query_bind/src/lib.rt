//! Binding the names of a query to the columns of tables: what its references mean, what rows add
//! to its order keys, and the variables that its equalities make.
//!
//! Names are looked up as in SQL. The classes of equal columns are kept by quick find (Sedgewick
//! and Wayne, Algorithms), where the label of a class is its least column.
#![tactic(auto)]

mod bind_select;
mod binding;
mod classes;
mod fault;
mod filters;
mod laws;
mod names;
mod tallies;
mod variables;
mod weighing;

pub use bind_select::bind;
pub use bound_query::Query;
pub use fault::BindFault;
pub use laws::first_in_text_order;
