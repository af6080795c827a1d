//! Tests of whole calls of the program, over files in memory and sinks that fail at given calls.
//! What each call must do was worked out by hand. The tests are in a crate of their own, so that
//! the top call is not proved twice for its tests.
#![tactic(auto)]

#[cfg(test)]
mod answers;
#[cfg(test)]
mod best_rows;
#[cfg(test)]
mod cases;
#[cfg(test)]
mod chains;
#[cfg(test)]
mod faults;
#[cfg(test)]
mod large;
#[cfg(test)]
mod loads;
#[cfg(test)]
mod plans;
#[cfg(test)]
mod proofs;
#[cfg(test)]
mod refusal_cases;
#[cfg(test)]
mod sessions;
#[cfg(test)]
mod stars;
#[cfg(test)]
mod steps;
#[cfg(test)]
mod unions;
