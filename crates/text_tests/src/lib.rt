//! Tests of what is read and of what is written: files and sinks, framed requests, replies as parts,
//! the words of the command line, scripts, tables, those that `load` makes, inputs over tables,
//! digits, the records of the output, and the lines of refusals. They are worked examples over the
//! public calls of those crates, in a crate of their own so that none of those is proved twice for
//! its tests.
#![tactic(auto)]

#[cfg(test)]
mod fixtures;
#[cfg(test)]
mod frames;
#[cfg(test)]
mod inputs;
#[cfg(test)]
mod numbers;
#[cfg(test)]
mod outside;
#[cfg(test)]
mod over_tables;
#[cfg(test)]
mod records;
#[cfg(test)]
mod refusal_cases;
#[cfg(test)]
mod replies;
#[cfg(test)]
mod scripts;
#[cfg(test)]
mod tables;
#[cfg(test)]
mod unions;
#[cfg(test)]
mod words;
