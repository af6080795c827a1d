//! The laws of ranks, for code that knows only that its type is a rank.
//!
//! Ranks are a strictly ordered commutative group without differences: `less` is a strict total
//! order, `join` is associative and commutative with `zero` as its neutral element, and joining the
//! same rank to two others keeps their order. These are the conditions under which ranked
//! enumeration is correct (Tziavelis et al., "Optimal Algorithms for Ranked Enumeration of Answers
//! to Full Conjunctive Queries", PVLDB 2020). Each function here uses a rank only through its
//! trait, and each of its clauses is one law. Ranks with all 16 slots have one law more: that some
//! rank has a key asks nothing but that its numbers fit.
#![tactic(auto)]

mod addition;
mod order;
mod wide;

pub use addition::{
    compare_joined, grouped_both_ways, joined_both_ways, joined_with_zero, less_joined, swapped,
    swapped_back,
};
pub use order::{compare, is_before_itself, is_before_last, is_before_previous, sum_count};
pub use wide::{wide_join, wide_row, wide_swap};
