//! Tests of what is made of a query over tables before its answers are printed: nodes, reduction,
//! least keys, the plan and its report, the answers of both engines, the best answer of each row of
//! the root, a cursor driven over each, and each engine in an arena that refuses memory. They are
//! worked examples over the public calls of those crates. They have a crate of their own, so that
//! none of those is proved twice for its tests.
#![tactic(auto)]

#[cfg(test)]
mod driving;
#[cfg(test)]
mod fixtures;
#[cfg(test)]
mod nodes;
#[cfg(test)]
mod plans;
#[cfg(test)]
mod reduction;
#[cfg(test)]
mod refusal_cases;
#[cfg(test)]
mod reports;
#[cfg(test)]
mod root_rows;
#[cfg(test)]
mod solving;
#[cfg(test)]
mod witnesses;
