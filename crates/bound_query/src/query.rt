//! A bound query, and its readers.
ghost use Rattle.std.specs.Prelude.{◌≡◌, ◌↔◌, IsTrue, ◌<◌, ◌≤◌, List, length, map, IfOk};
ghost use Rattle.anyk_model.specs.Table.{Table};
ghost use Rattle.bound_query.specs.Items.{item_at};
ghost use Rattle.bound_query.specs.Graph.{IsGraphOf};
ghost use Rattle.bound_query.specs.StoredParts.{column_view, equality_view, lists_view, term_view};
ghost use Rattle.bound_query.specs.Classes.{AreVariablesOf, Passes};
ghost use Rattle.bound_query.specs.FilterViews.{filter_view};
ghost use Rattle.bound_query.specs.WeighedQuery.{Fits, variables_at};
ghost use Rattle.bound_query.specs.WeighedView.{weighed_view};
ghost use Rattle.bound_query.specs.Weights.{cap_of, key_at, part_of, table_in};

use crate::bound::{BoundEquality, BoundTerm, ItemWeights, Variables, part_at};
use crate::filters::{Filter, stands};
use crate::item_sets::item_sets;
use crate::selection::Selection;
use hyper_graph::Graph;
use std::alloc::Global;
use std::marker::Model;
use step_counter::NoMemory;
use table_store::Tables;

/// A query whose names are bound to the columns of tables, with its weights, its variables and the
/// tests of its rows. Items, keys, columns and tables count from 0.
#[derive(Drop)]
pub struct Query {
    selection: Selection,
    weighed: Vec<Vec<ItemWeights>>,
    variables: Variables,
    filters: Vec<Filter>,
    alloc: Global,
}

impl Model for Query {
    ghost use Rattle.bound_query.specs.WeighedQuery.{BoundQuery};

    ghost Value = { BoundQuery };

    ghost use Rattle.bound_query.specs.QueryView.{query_view};

    ghost view = { query_view };
}

impl Query {
    /// The query of a selection, with what its items add to its keys, its variables and the tests
    /// of its rows.
    pub fn new(
        alloc: Global,
        selection: Selection,
        weighed: Vec<Vec<ItemWeights>>,
        variables: Variables,
        filters: Vec<Filter>,
    ) -> Query
        ensures { result
            ≡ record {
              query = selection;
              weighed = map weighed_view weighed.items;
              variables = map column_view variables.least.items;
              lists = lists_view variables.of_items.items;
              filters = map filter_view filters.items;
            } }
    {
        Query {
            selection,
            weighed,
            variables,
            filters,
            alloc,
        }
    }

    /// The number of items.
    pub fn items(&self) -> u32
        ensures items { result ≡ length self.now.query.items }
        ensures limit { result ≤ 16 }
    {
        self.selection.items()
    }

    /// The number of order keys.
    pub fn keys(&self) -> u32
        ensures keys { result ≡ length self.now.query.order }
        ensures limit { result ≤ 8 }
    {
        self.selection.keys()
    }

    /// The greatest number of answers, if there is a limit.
    pub fn limit(&self) -> Option<u64>
        ensures { result ≡ self.now.query.limit }
    {
        self.selection.limit()
    }

    /// The number of an item's table.
    pub fn table_of(&self, item: u32) -> u32
        requires { item < length self.now.query.items }
        ensures { result ≡ (item_at self.now.query.items item).table }
    {
        self.selection.table_of(item)
    }

    /// The name that the query gives an item.
    pub fn alias(&self, item: u32) -> &[u8]
        requires { item < length self.now.query.items }
        ensures { result.now ≡ (item_at self.now.query.items item).alias }
    {
        self.selection.alias(item)
    }

    /// The equalities, each with its columns.
    pub fn equalities(&self) -> &[BoundEquality]
        ensures { map equality_view result.now ≡ self.now.query.equalities }
    {
        self.selection.equalities()
    }

    /// The selected columns, each with its item before it.
    pub fn columns(&self) -> &[(u32, u32)]
        ensures { map column_view result.now ≡ self.now.query.list }
    {
        self.selection.columns()
    }

    /// The terms of an order key.
    pub fn terms(&self, key: u32) -> &[BoundTerm]
        requires { key < length self.now.query.order }
        ensures { map term_view result.now ≡ (key_at self.now.query.order key).terms }
    {
        self.selection.terms(key)
    }

    /// Whether an order key descends.
    pub fn descending(&self, key: u32) -> bool
        requires { key < length self.now.query.order }
        ensures { result ≡ (key_at self.now.query.order key).descending }
    {
        self.selection.descending(key)
    }

    /// Whether a row of an item passes: its columns of one class are equal to each other and to
    /// each constant of the class. Rows count from 1.
    pub fn passes(&self, tables: &Tables, item: u32, row: u32) -> bool
        requires fits { Fits self.now tables.now }
        requires item { item < length self.now.query.items }
        requires first { 1 ≤ row }
        requires row { row ≤ length (table_in tables.now self.now.query.items item).rows }
        ensures { IsTrue result ↔ Passes self.now.query tables.now item row }
    {
        let table = self.selection.table_of(item);
        stands(&self.filters[item as usize], tables, table, row)
    }

    /// What a row of an item adds to a key, negated if the order descends. Rows count from 1.
    pub fn part(&self, tables: &Tables, item: u32, row: u32, key: u32) -> i128
        requires fits { Fits self.now tables.now }
        requires item { item < length self.now.query.items }
        requires first { 1 ≤ row }
        requires row { row ≤ length (table_in tables.now self.now.query.items item).rows }
        requires key { key < length self.now.query.order }
        ensures { result ≡ part_of tables.now self.now.query.items item row
            (key_at self.now.query.order key) }
    {
        let parts = &self.weighed[key as usize][item as usize].parts;
        part_at(parts.as_slice(), row as usize - 1)
    }

    /// The greatest absolute part that the columns of an item allow. The query fits some tables.
    pub fn cap(&self, item: u32, key: u32) -> u128
        requires fits { (tables : List Table) × Fits self.now tables }
        requires item { item < length self.now.query.items }
        requires key { key < length self.now.query.order }
        ensures { (tables : List Table) → Fits self.now tables
            → result ≡ cap_of tables self.now.query.items item (key_at self.now.query.order key) }
    {
        self.weighed[key as usize][item as usize].cap
    }

    /// The number of variables. The query fits some tables.
    pub fn variables(&self) -> u32
        requires fits { (tables : List Table) × Fits self.now tables }
        ensures count { result ≡ length self.now.variables }
        ensures limit { result ≤ 1024 }
    {
        self.variables.least.len() as u32
    }

    /// The variables of an item, by ascending number, each with its least column there. The query
    /// fits some tables.
    pub fn variables_of(&self, item: u32) -> &[(u32, u32)]
        requires fits { (tables : List Table) × Fits self.now tables }
        requires item { item < length self.now.query.items }
        ensures value { result.now ≡ variables_at self.now.lists item }
        ensures variables { AreVariablesOf self.now.query.equalities self.now.variables item
            result.now }
    {
        self.variables.of_items[item as usize].as_slice()
    }

    /// The hypergraph: an atom for each item, and for each variable the items that have it. The
    /// query fits some tables. `NoMemory` if memory is refused.
    pub fn graph(&self) -> Result<Graph, NoMemory>
        requires fits { (tables : List Table) × Fits self.now tables }
        ensures { IfOk result (λ g. IsGraphOf self.now.query g) }
    {
        let atoms = self.items();
        let count = self.variables();
        let sets = item_sets(self.alloc, self.variables.of_items.as_slice(), count)?;
        Graph::new(self.alloc, atoms, sets.as_slice())
    }
}
