//! The products of a node's rows, with lists for opened rows only.
ghost use Rattle.std.specs.Prelude.{◌≡◌, ℕ, ◌<◌, [], length, slice_set, slice_index_or, IfOk, OnOk, OnErr};
ghost use Rattle.std.specs.Borrow.{Lends, sem};
ghost use Rattle.suffix_streams.specs.ProductView.{ProductView};

use crate::product::Product;
use rank_key::Rank;
use std::alloc::Allocator;
use std::marker::Model;
use step_counter::NoMemory;

/// The list of products of each row of a node. A row has none until it is opened, and takes 4 bytes
/// until then.
#[derive(Drop)]
pub(crate) struct RowProducts<R: Rank, A: Allocator> {
    /// The number of each row's list, from 1, or 0 if the row was not opened.
    opened: Vec<u32, A>,
    /// The lists, in the order in which their rows were opened.
    lists: Vec<Vec<Product<R, A>, A>, A>,
}

impl<R: Rank, A: Allocator> Model for RowProducts<R, A> {
    ghost use Rattle.std.specs.Prelude.{List, length, map};
    ghost use Rattle.suffix_streams.specs.OpenedRows.{list_numbered, HaveOwnLists};
    ghost use Rattle.suffix_streams.specs.ProductView.{ProductView};

    ghost Value = { List (List (ProductView R)) };

    ghost view = { λ p. map (list_numbered (map (λ l. l.items) p.lists.items)) p.opened.items };

    ghost invariant = { λ p. HaveOwnLists p.opened.items (length p.lists.items) };
}

impl<R: Rank, A: Allocator + Clone> RowProducts<R, A> {
    /// A number of rows, none of which is opened. `NoMemory` if memory is refused.
    pub(crate) fn with_rows(alloc: &A, rows: u32) -> Result<RowProducts<R, A>, NoMemory>
        ensures count { IfOk result (λ p. length p ≡ rows) }
        ensures none { IfOk result (λ p. (r : ℕ) → slice_index_or p r [] ≡ []) }
    {
        let of_rows = alloc.clone()?;
        let of_lists = alloc.clone()?;
        let opened = vec![in of_rows; 0; rows as usize]?;
        Ok(RowProducts {
            opened,
            lists: Vec::new(of_lists),
        })
    }

    /// Opens a row: from now on it has these products. `NoMemory` if memory is refused, and no row
    /// changes then.
    pub(crate) fn open(&mut self, row: u32, products: Vec<Product<R, A>, A>) -> Result<(), NoMemory>
        requires row { row < length self.old }
        ensures opened { OnOk result (self.new ≡ slice_set self.old row products.items) }
        ensures refused { OnErr result (self.new ≡ self.old) }
    {
        let count = self.lists.len();
        if count >= u32::MAX as usize {
            return Err(NoMemory);
        }
        self.lists.reserve(1)?;
        self.lists.push_reserved(products);
        self.opened[row as usize] = count as u32 + 1;
        Ok(())
    }
}

impl<R: Rank, A: Allocator> RowProducts<R, A> {
    ghost use Rattle.suffix_streams.specs.contracts.opened.RowProducts.{the_row};
    ghost use Rattle.suffix_streams.specs.contracts.product.Product.{the_row as product_row};

    /// The number of products of a row.
    pub(crate) fn count_of(&self, row: u32) -> usize
        ensures { result ≡ length (slice_index_or self.now row []) }
    {
        match self.opened.get(row as usize) {
            Some(&number) if number > 0 => self.lists[number as usize - 1].len(),
            _ => 0,
        }
    }

    /// A product of a row. Products count from 0.
    pub(crate) fn product(&self, row: u32, child: usize) -> &Product<R, A>
        requires { child < length (slice_index_or self.now row []) }
        ensures { (d : ProductView R)
            → result.now ≡ slice_index_or (slice_index_or self.now row []) child d }
    {
        let list = self.opened[row as usize] as usize - 1;
        &self.lists[list][child]
    }

    /// A product of a row, to change. Products count from 0.
    pub(crate) fn product_mut(&mut self, row: u32, child: usize) -> &mut Product<R, A>
        requires { child < length (slice_index_or self.old row []) }
        ensures* writes_back { sem 𝓛 (Lends (the_row R.row A.row R.Rank A.Allocator)
            (product_row R.row A.row R.Rank A.Allocator) self.entry result
            (λ w. slice_set self.old row (slice_set (slice_index_or self.old row []) child w))) }
        ensures value { (d : ProductView R)
            → result.now ≡ slice_index_or (slice_index_or self.old row []) child d }
    {
        let list = self.opened[row as usize] as usize - 1;
        &mut self.lists[list][child]
    }
}
