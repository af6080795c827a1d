//! Certificates checked against a query and its tables, without a queue and without an engine.
//!
//! What a valid certificate is stands in `proof_model`, and that it shows the first answers in
//! `laws`. The rows of the query's nodes are built in `bounding` alone. All that checks them takes
//! a raw tree that has the rows of the query's problem.
//!
//! A bound line is a solution of its node's subtree, and stands for the group of its row there.
//! Each row gets the number of its own group's bound and those of the groups that it names, so that
//! no link is looked up twice. A bound that is not too high is tested with the bounds of the
//! children's groups, as in dynamic programming over trees. An answer is tested to be a solution
//! that comes after the one before it.
//!
//! The open choices are the ways to leave the answers: the parts of Lawler's procedure ("A
//! procedure for computing the K best solutions to discrete optimization problems", 1972), each
//! with the bounds of the groups that it leaves open. They are gone through node by node. Of the
//! rows of a group only those are sorted that may come before the last answer, and each beginning
//! of an answer walks them as far as the first one that it does not take, so that no heap is
//! needed.
#![tactic(auto)]

mod answers;
mod bounded;
mod bounding;
mod bounds;
mod checking;
mod choices;
mod count;
mod covering;
mod deviations;
mod groups;
mod laws;
mod lines;
mod names;
mod offers;
mod open_places;
mod order;
mod places;
mod prefixes;
mod searching;
mod solutions;
mod subtree;
mod taken_rows;

pub use answers::{PlacedAnswers, placed_answers};
pub use bounded::{BoundedTree, NodeBounds};
pub use bounding::bounded_tree;
pub use bounds::with_bounds;
pub use checking::verify;
pub use choices::check_choices;
pub use covering::{low_bound, named_rank};
pub use laws::{answers_begin_ranking, solutions_are_witnesses, written_is_valid};
pub use places::{rank_of_places, solution_places};
