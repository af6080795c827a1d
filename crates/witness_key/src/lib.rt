//! The witnesses of a query by the keys of ranks, and by the rows of the nodes of a join tree. No
//! code.
//!
//! A rank has room for more sums and more rows than a query has, and what is left of it is 0 in
//! every witness of one query. So ranks are in the order of the query's own keys.
//!
//! Rows that pass, and that agree along each link of a join tree, agree wherever they have a
//! variable in common: that is what makes an acyclic query easy (Beeri, Fagin, Maier and
//! Yannakakis, "On the desirability of acyclic database schemes", 1983). So they are a witness, and
//! their keys add up to its key.
#![tactic(auto)]

mod key_laws;
mod tree_laws;

pub use key_laws::{
    answers_tell_combinations, both_orders_agree, keys_tell_witnesses, ranking_tells_combinations,
    rankings_agree,
};
pub use tree_laws::{keys_add_up, links_make_witnesses};
