//! Tests of the query language and of what is made of a query: parsing, binding, hypergraphs, the
//! join tree and its shape. They are worked examples over the public calls of those crates. They
//! have a crate of their own, so that none of those is proved twice for its tests.
#![tactic(auto)]

#[cfg(test)]
mod binding;
#[cfg(test)]
mod equality;
#[cfg(test)]
mod fixtures;
#[cfg(test)]
mod graphs;
#[cfg(test)]
mod parsing;
#[cfg(test)]
mod shapes;
#[cfg(test)]
mod trees;
