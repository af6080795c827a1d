//! Rows found by their numbers.
ghost use Rattle.std.specs.Prelude.{◌≡◌, ◌≢◌, ℕ, ◌<◌, length, IfNone, IfSome};
ghost use Rattle.tdp_core.specs.RawView.{raw_len, raw_number};
ghost use Rattle.proof_check.specs.Subtrees.{AreAscending};

use rank_key::Rank;
use tdp_core::RawTree;

/// The place of a row of a node, from 0. The place where a row stands if none before it is missing
/// is read first, and else the node's rows are searched by halves. If these ascend, `None` exactly
/// if the node does not have the row.
pub(crate) fn row_place<R: Rank>(raw: &RawTree<R>, node: u32, row: u32) -> Option<u32>
    requires { node < length raw.now.shapes }
    ensures within { IfSome result (λ i. i < raw_len raw.now node) }
    ensures number { IfSome result (λ i. raw_number raw.now node i ≡ row) }
    ensures absent { IfNone result (AreAscending raw.now node
        → (i : ℕ) → i < raw_len raw.now node → raw_number raw.now node i ≢ row) }
{
    let count = raw.len(node);
    if row > 0 && row <= count {
        let place = row - 1;
        if raw.row(node, place).row == row {
            return Some(place);
        }
    }
    let mut low = 0;
    let mut high = count;
    while low < high {
        let middle = low + (high - low) / 2;
        let number = raw.row(node, middle).row;
        if number == row {
            return Some(middle);
        }
        if number < row {
            low = middle + 1;
        } else {
            high = middle;
        }
    }
    None
}
