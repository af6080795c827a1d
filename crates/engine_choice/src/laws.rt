//! The best solutions of the rows of a tree's root, and the best list of a query.
ghost use Rattle.std.specs.Prelude.{◌≡◌, ◌≤◌, List, length, map};
ghost use Rattle.tdp_model.specs.KeyTuple.{KeyOf};
ghost use Rattle.tdp_core.specs.TreeView.{NodeView, item};
ghost use Rattle.tdp_core.specs.WellFormed.{IsFormed, IsTieFreeTree};
ghost use Rattle.anyk_model.specs.Table.{Table};
ghost use Rattle.anyk_model.specs.Query.{Query};
ghost use Rattle.anyk_model.specs.Ranking.{ranking_of};
ghost use Rattle.tree_dp.specs.BestRanking.{IsBestRanking};
ghost use Rattle.witness_key.specs.WitnessKey.{witness_key};
ghost use Rattle.anyk_model.specs.BestList.{best_list};
ghost use Rattle.engine_choice.specs.BestKey.{RanksWitnesses};

use rank_key::Rank;

/// If a tree ranks the witnesses of a query, then the best keys of its root's rows, in ascending
/// order, are the keys of the best list of the root's item.
pub fn bests_agree<R: Rank>()
    ensures { (query : Query) (tables : List Table) (tree : List (NodeView R))
        (ks : List (KeyOf R.KEYS 16)) → length query.order ≤ R.KEYS → length query.items ≤ 16
        → IsFormed R.KEYS R.key tree → IsTieFreeTree tree
        → RanksWitnesses R.KEYS R.key query tables tree → IsBestRanking tree R.KEYS R.key ks
        → ks ≡ map (witness_key R.KEYS query tables)
        (best_list (item tree 0) (ranking_of query tables)) }
{}
