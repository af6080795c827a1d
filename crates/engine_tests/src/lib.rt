//! Tests of tree problems and of what enumerates their answers: ranks, heaps, linked entries,
//! indexes of links, the trees themselves, anyK-rec with the streams below it, and cursors over an
//! engine. They are worked examples over the public calls of those crates. They have a crate of
//! their own, so that none of those is proved twice for its tests. anyK-part is tested in
//! plan_tests, over the plans of queries.
#![tactic(auto)]

#[cfg(test)]
mod answers;
#[cfg(test)]
mod cursors;
#[cfg(test)]
mod heaps;
#[cfg(test)]
mod indexes;
#[cfg(test)]
mod ranks;
#[cfg(test)]
mod recursion;
#[cfg(test)]
mod small_tree;
#[cfg(test)]
mod stores;
#[cfg(test)]
mod trees;
