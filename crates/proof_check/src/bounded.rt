//! A tree of rows with the bounds of their groups.
use rank_key::Rank;
use std::marker::Model;
use tdp_core::RawTree;

/// The bounds of a node, numbered from 0, and the rows by which they are found. Rows count from 0.
#[derive(Drop)]
pub struct NodeBounds<R> {
    /// For each row of the node the number of its group's bound, if there is one.
    pub own: Vec<Option<u32>>,
    /// For each row of the parent the number of the bound of the group that it names, if there is
    /// one. Empty at the root.
    pub named: Vec<Option<u32>>,
    /// The rank of each bound.
    pub ranks: Vec<R>,
}

/// The rows of each node of a query that pass, and the bounds of a certificate.
#[derive(Drop)]
pub struct BoundedTree<R: Rank> {
    pub raw: RawTree<R>,
    pub bounds: Vec<NodeBounds<R>>,
}

impl<R: Rank> Model for BoundedTree<R> {
    ghost use Rattle.proof_check.specs.BoundedRows.{BoundedView};

    ghost Value = { BoundedView R };

    ghost view = { λ t. record { raw = t.raw; bounds = t.bounds.items } };
}
