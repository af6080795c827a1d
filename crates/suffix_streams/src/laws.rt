//! What the lists that contracts speak of are.
ghost use Rattle.std.specs.Prelude.{ℕ, ◌<◌, length};
ghost use Rattle.rankings.specs.Order.{IsRanking};
ghost use Rattle.tdp_model.specs.KeyTuple.{KeyOf, key_below};
ghost use Rattle.suffix_streams.specs.Rankings.{GroupSolution, group_list};

use rank_key::Rank;
use tdp_core::Tree;

/// The list of a group of a node is the ranking of the group's subtree solutions.
pub fn group_lists_are_rankings<R: Rank>(tree: &Tree<R>)
    ensures { (node group : ℕ) → node < length tree.now
        → IsRanking (KeyOf R.KEYS 16) (key_below R.KEYS 16)
        (GroupSolution R.KEYS R.key tree.now node group)
        (group_list R.KEYS R.key tree.now node group) }
{
    let _tree = tree;
}
