//! Tree problems of ranked enumeration: trees whose nodes have rows, with the rows of each node in
//! groups that the rows of its parent name, and engines that return the solutions one by one.
//!
//! They are the tree-based dynamic programs of Tziavelis and others, "Optimal Algorithms for Ranked
//! Enumeration of Answers to Full Conjunctive Queries", PVLDB 2020.
#![tactic(auto)]

mod groups;
mod named_groups;
mod node_rows;
mod parts;
mod ranked;
mod raw_rows;
mod raw_tree;
mod tree;

pub use groups::Groups;
pub use named_groups::NamedGroups;
pub use node_rows::NodeRows;
pub use parts::{NodeParts, NodeRow, NodeShape};
pub use ranked::{Answer, Ranked};
pub use raw_rows::RawColumns;
pub use raw_tree::RawTree;
pub use tree::Tree;
