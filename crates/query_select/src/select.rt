//! The parts of a query.

use crate::name::{Bytes, Identifier};
use crate::sequence::Sequence;

/// A column, with the alias before it if one was written.
#[derive(Drop)]
pub struct ColumnRef {
    /// The alias before it.
    pub alias: Option<Identifier>,
    /// The name of the column.
    pub column: Identifier,
    /// The offset of its first token, in bytes, from 0.
    pub at: u32,
}

/// The columns that a query selects.
#[derive(Drop)]
pub enum SelectList {
    /// All columns of all items, in the order of the from-list.
    Star,
    /// These columns, at least one.
    Columns(Sequence<ColumnRef>),
}

/// A table in the from-list.
#[derive(Drop)]
pub struct ItemRef {
    /// The name of the table.
    pub table: Identifier,
    /// The alias, or the table's name if no alias was written.
    pub alias: Identifier,
    /// The offset of the table's name, in bytes, from 0.
    pub at: u32,
}

/// What a column is equated with.
#[derive(Drop)]
pub enum Side {
    Column(ColumnRef),
    Constant(Bytes),
}

/// Two sides that must be equal. A constant is on the right, wherever it was written.
#[derive(Drop)]
pub struct Equality {
    /// The column on the left.
    pub left: ColumnRef,
    /// The column or the constant on the right.
    pub right: Side,
}

/// A column that is added to an order key, or subtracted.
#[derive(Drop)]
pub struct Term {
    /// Whether it is subtracted.
    pub minus: bool,
    /// The column.
    pub column: ColumnRef,
}

/// An order key: a sum of columns.
#[derive(Drop)]
pub struct KeyRef {
    /// The columns of the sum.
    pub terms: Sequence<Term>,
    /// Whether greater sums come first.
    pub descending: bool,
}

/// A query. The equalities are in the order of the text, and those of an `on` are where it is
/// written.
#[derive(Drop)]
pub struct Select {
    /// The selected columns.
    pub list: SelectList,
    /// The from-list.
    pub items: Sequence<ItemRef>,
    /// The equalities of the joins and of the where list.
    pub equalities: Sequence<Equality>,
    /// The order keys, the first one first.
    pub keys: Sequence<KeyRef>,
    /// The greatest number of answers, if there is a limit.
    pub limit: Option<u64>,
}

/// One or more queries, each without a limit of its own: the branches of a union.
#[derive(Drop)]
pub struct SelectAll {
    /// The branches, in the order of the text.
    pub branches: Sequence<Select>,
    /// The greatest number of answers of all branches together, if there is a limit.
    pub limit: Option<u64>,
}
