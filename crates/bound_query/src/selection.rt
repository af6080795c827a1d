//! A query with a column for each reference, before its weights.
ghost use Rattle.std.specs.Prelude.{◌≡◌, ◌<◌, ◌≤◌, length, map};
ghost use Rattle.bound_query.specs.Items.{item_at};
ghost use Rattle.bound_query.specs.StoredParts.{column_view, equality_view, items_view, key_view, term_view};
ghost use Rattle.bound_query.specs.Weights.{key_at};

use crate::bound::{BoundEquality, BoundItem, BoundKey, BoundTerm};
use std::marker::Model;

/// A query whose names are bound to the columns of tables.
#[derive(Drop)]
pub struct Selection {
    items: Vec<BoundItem>,
    equalities: Vec<BoundEquality>,
    keys: Vec<BoundKey>,
    list: Vec<(u32, u32)>,
    limit: Option<u64>,
}

impl Model for Selection {
    ghost use Rattle.anyk_model.specs.Query.{Query};

    ghost Value = { Query };

    ghost use Rattle.bound_query.specs.SelectionView.{selection_view, IsSmall};

    ghost view = { selection_view };

    ghost invariant = { IsSmall };
}

impl Selection {
    /// A query of these parts.
    pub fn new(
        items: Vec<BoundItem>,
        equalities: Vec<BoundEquality>,
        keys: Vec<BoundKey>,
        list: Vec<(u32, u32)>,
        limit: Option<u64>,
    ) -> Selection
        requires items { length items.items ≤ 16 }
        requires keys { length keys.items ≤ 8 }
        ensures { result
            ≡ record {
              items = items_view items.items;
              equalities = map equality_view equalities.items;
              order = map key_view keys.items;
              list = map column_view list.items;
              limit = limit;
            } }
    {
        Selection {
            items,
            equalities,
            keys,
            list,
            limit,
        }
    }

    /// The items as they are stored.
    pub fn bound_items(&self) -> &[BoundItem]
        ensures items { items_view result.now ≡ self.now.items }
        ensures few { length result.now ≤ 16 }
    {
        self.items.as_slice()
    }

    /// The order keys as they are stored.
    pub fn bound_keys(&self) -> &[BoundKey]
        ensures keys { map key_view result.now ≡ self.now.order }
        ensures few { length result.now ≤ 8 }
    {
        self.keys.as_slice()
    }

    /// The number of items.
    pub fn items(&self) -> u32
        ensures items { result ≡ length self.now.items }
        ensures limit { result ≤ 16 }
    {
        self.items.len() as u32
    }

    /// The number of order keys.
    pub fn keys(&self) -> u32
        ensures keys { result ≡ length self.now.order }
        ensures limit { result ≤ 8 }
    {
        self.keys.len() as u32
    }

    /// The greatest number of answers, if there is a limit.
    pub fn limit(&self) -> Option<u64>
        ensures { result ≡ self.now.limit }
    {
        self.limit
    }

    /// The number of an item's table.
    pub fn table_of(&self, item: u32) -> u32
        requires { item < length self.now.items }
        ensures { result ≡ (item_at self.now.items item).table }
    {
        self.items[item as usize].table
    }

    /// The name that the query gives an item.
    pub fn alias(&self, item: u32) -> &[u8]
        requires { item < length self.now.items }
        ensures { result.now ≡ (item_at self.now.items item).alias }
    {
        self.items[item as usize].alias.bytes()
    }

    /// The equalities, each with its columns.
    pub fn equalities(&self) -> &[BoundEquality]
        ensures { map equality_view result.now ≡ self.now.equalities }
    {
        self.equalities.as_slice()
    }

    /// The selected columns, each with its item before it.
    pub fn columns(&self) -> &[(u32, u32)]
        ensures { map column_view result.now ≡ self.now.list }
    {
        self.list.as_slice()
    }

    /// The terms of an order key.
    pub fn terms(&self, key: u32) -> &[BoundTerm]
        requires { key < length self.now.order }
        ensures { map term_view result.now ≡ (key_at self.now.order key).terms }
    {
        self.keys[key as usize].terms.as_slice()
    }

    /// Whether an order key descends.
    pub fn descending(&self, key: u32) -> bool
        requires { key < length self.now.order }
        ensures { result ≡ (key_at self.now.order key).descending }
    {
        self.keys[key as usize].descending
    }
}
