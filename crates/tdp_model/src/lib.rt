//! The mathematics of ranked enumeration over tree problems. It has no code that runs.
//!
//! Keys, trees of rows whose groups are heaps, the regions of their solutions and the division of a
//! region, the streams of subtree solutions and their products. A region loses its best solution
//! and splits into disjoint regions, as Lawler ("A procedure for computing the K best solutions to
//! discrete optimization problems", 1972) and Murty ("An algorithm for ranking all the assignments
//! in order of increasing cost", 1968) divide a problem. That each step offers two places of a
//! heap, and that streams are shared below a row, is from Tziavelis et al., "Optimal Algorithms for
//! Ranked Enumeration of Answers to Full Conjunctive Queries", PVLDB 2020. Each function here is a
//! law, which its clause states, and takes no step.
#![tactic(auto)]

mod tree_laws;

pub use tree_laws::{
    keys_are_ordered, one_ranking, queue_begins, queue_goes_on, ranking_exists, root_ranking,
    some_tree,
};
