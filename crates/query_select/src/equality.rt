//! Equality of queries and of their parts, without their offsets.

ghost use Rattle.std.specs.Prelude.{◌≡◌, ◌↔◌, IsTrue};
ghost use Rattle.std.specs.Str.{bytes_eq};
ghost use Rattle.std.specs.Cmp.Lexicographic.{lists_per, pointwise};
ghost use Rattle.query_select.specs.Placeless.{AreOne, same_column, same_equality, same_item, same_key, same_list, same_select, same_side, same_term};
ghost use Rattle.query_select.specs.Placeless.{placeless, placeless_column, placeless_equality, placeless_item, placeless_key, placeless_list, placeless_side, placeless_term};
ghost use Rattle.query_select.specs.SameLaws.{bytes_laws, laws_of, column_tells, equality_tells, item_tells, key_tells, list_tells, select_tells, side_tells, term_tells};

use crate::name::{Bytes, Identifier};
use crate::select::{ColumnRef, Equality, ItemRef, KeyRef, Select, SelectList, Side, Term};
use crate::sequence::Sequence;

impl PartialEq for Identifier {
    ghost eq = { bytes_eq };

    ghost laws = { bytes_laws };

    fn eq(&self, other: &Identifier) -> bool {
        self.bytes() == other.bytes()
    }
}

impl PartialEq for Bytes {
    ghost eq = { bytes_eq };

    ghost laws = { bytes_laws };

    fn eq(&self, other: &Bytes) -> bool {
        self.bytes() == other.bytes()
    }
}

impl<T: PartialEq> PartialEq for Sequence<T> {
    ghost eq = { pointwise T.eq };

    ghost laws = { lists_per T.laws };

    fn eq(&self, other: &Sequence<T>) -> bool {
        self.as_slice() == other.as_slice()
    }
}

impl PartialEq for ColumnRef {
    ghost eq = { same_column };

    ghost laws = { laws_of same_column placeless_column column_tells };

    fn eq(&self, other: &ColumnRef) -> bool {
        self.alias == other.alias && self.column == other.column
    }
}

impl PartialEq for SelectList {
    ghost eq = { same_list };

    ghost laws = { laws_of same_list placeless_list list_tells };

    fn eq(&self, other: &SelectList) -> bool {
        match (self, other) {
            (SelectList::Star, SelectList::Star) => true,
            (SelectList::Columns(these), SelectList::Columns(those)) => these == those,
            _ => false,
        }
    }
}

impl PartialEq for ItemRef {
    ghost eq = { same_item };

    ghost laws = { laws_of same_item placeless_item item_tells };

    fn eq(&self, other: &ItemRef) -> bool {
        self.table == other.table && self.alias == other.alias
    }
}

impl PartialEq for Side {
    ghost eq = { same_side };

    ghost laws = { laws_of same_side placeless_side side_tells };

    fn eq(&self, other: &Side) -> bool {
        match (self, other) {
            (Side::Column(this), Side::Column(that)) => this == that,
            (Side::Constant(this), Side::Constant(that)) => this == that,
            _ => false,
        }
    }
}

impl PartialEq for Equality {
    ghost eq = { same_equality };

    ghost laws = { laws_of same_equality placeless_equality equality_tells };

    fn eq(&self, other: &Equality) -> bool {
        self.left == other.left && self.right == other.right
    }
}

impl PartialEq for Term {
    ghost eq = { same_term };

    ghost laws = { laws_of same_term placeless_term term_tells };

    fn eq(&self, other: &Term) -> bool {
        self.minus == other.minus && self.column == other.column
    }
}

impl PartialEq for KeyRef {
    ghost eq = { same_key };

    ghost laws = { laws_of same_key placeless_key key_tells };

    fn eq(&self, other: &KeyRef) -> bool {
        self.terms == other.terms && self.descending == other.descending
    }
}

impl PartialEq for Select {
    ghost eq = { same_select };

    ghost laws = { laws_of same_select placeless select_tells };

    /// Whether the two are the same query, at whatever offsets their parts are.
    fn eq(&self, other: &Select) -> bool
        ensures value { result ≡ same_select self.now other.now }
        // They are equal exactly if they are the same except for the offsets.
        ensures but_for_offsets { IsTrue result ↔ AreOne self.now other.now }
    {
        have_same_parts(self, other)
    }
}

/// Whether two queries agree in each part, apart from the offsets.
fn have_same_parts(this: &Select, that: &Select) -> bool
    ensures { result ≡ same_select this.now that.now }
{
    this.list == that.list
        && this.items == that.items
        && this.equalities == that.equalities
        && this.keys == that.keys
        && this.limit == that.limit
}
