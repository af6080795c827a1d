//! The order of a node's rows.
ghost use Rattle.std.specs.Prelude.{ℕ, ◌<◌, length};
ghost use Rattle.tree_dp.specs.Orders.{key_at};

use rank_key::Rank;
use std::sync::ledger::Ledger;
use step_counter::Steps;
use take2_heap::KeyOrder;

/// The order of a node's rows by their ranks, which are compared where they are, in a list.
#[derive(Drop)]
pub(crate) struct RowOrder<'a, R> {
    pub(crate) best: &'a [R],
}

impl<'a, R: Rank> KeyOrder<u32> for RowOrder<'a, R> {
    ghost KEYS = { R.KEYS };

    ghost has_key = { λ order row. row < length order.best.now };

    ghost key = { λ order row. key_at R.KEYS R.key order.best.now row };

    fn less<L: Ledger>(&self, a: &u32, b: &u32, steps: &mut Steps<L>) -> bool {
        R::less(&self.best[*a as usize], &self.best[*b as usize], steps)
    }
}
