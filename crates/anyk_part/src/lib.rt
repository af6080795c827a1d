//! The answers of a tree one by one in order of rank, from a queue of candidates: disjoint regions
//! of the answers that are left.
//!
//! The method is anyK-part of Tziavelis and others, "Optimal Algorithms for Ranked Enumeration of
//! Answers to Full Conjunctive Queries", PVLDB 2020, in its Take2 form. Lawler (1972) and Murty
//! (1968) divide a problem by its best solution into disjoint problems; here the region at the
//! queue's top is divided by its best answer, node by node. The rows of a group are in heap order.
//! At each node the row at place j of its group leaves its two children in that order, at places 2j
//! + 1 and 2j + 2, as the candidates that deviate there. The rank of each is one exchange of ranks
//! away. The candidates share the rows that they begin with, as chains of links in a store.
#![tactic(auto)]

mod candidate;
mod frontier;
mod part;
mod paths;

pub use part::Part;
