//! The parts of a query once their names are bound.
ghost use Rattle.std.specs.Prelude.{◌≡◌, get_or, pos};

use query_select::name::{Bytes, Identifier};

/// An item of the from-list.
#[derive(Drop)]
pub struct BoundItem {
    /// The number of its table, from 0.
    pub table: u32,
    /// The name that the query gives it.
    pub alias: Identifier,
}

/// What a column is equated with: a column of an item, or a constant.
#[derive(Drop)]
pub enum BoundSide {
    Column((u32, u32)),
    Constant(Bytes),
}

/// Two sides that must be equal: a column, with its item, and what it is equated with.
#[derive(Drop)]
pub struct BoundEquality {
    /// The item and the place of the column, both from 0.
    pub left: (u32, u32),
    /// The column or the constant that it is equated with.
    pub right: BoundSide,
}

/// A column that an order key adds or subtracts.
#[derive(Drop)]
pub struct BoundTerm {
    pub minus: bool,
    pub column: (u32, u32),
}

/// An order key.
#[derive(Drop)]
pub struct BoundKey {
    pub terms: Vec<BoundTerm>,
    pub descending: bool,
}

/// What an item adds to an order key: the greatest absolute part that its columns allow, and the
/// part of each of its rows. There are no parts if the item has no column in the key.
#[derive(Drop)]
pub struct ItemWeights {
    pub cap: u128,
    pub parts: Vec<i128>,
}

/// The part at a place, from 0, or 0 if no parts are kept.
pub fn part_at(parts: &[i128], place: usize) -> i128
    ensures { result ≡ get_or parts.now place (pos 0) }
{
    if place < parts.len() { parts[place] } else { 0 }
}

/// The variables of a query, each by its least column, and the variables of each item by number,
/// each with the place of its first column there.
#[derive(Drop)]
pub struct Variables {
    pub least: Vec<(u32, u32)>,
    pub of_items: Vec<Vec<(u32, u32)>>,
}
