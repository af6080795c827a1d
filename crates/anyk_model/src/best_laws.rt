//! The laws of the best answer of each row: of all answers that have a row of an item, the first
//! one in a query's ranking.

ghost use Rattle.std.specs.Prelude.{◌↔◌, List, ℕ};
ghost use Rattle.rankings.specs.Order.{IsAscending, IsMember, IsRanking};
ghost use Rattle.anyk_model.specs.Table.{Table};
ghost use Rattle.anyk_model.specs.Query.{Query};
ghost use Rattle.anyk_model.specs.Ranking.{Precedes, ranking_of};
ghost use Rattle.anyk_model.specs.BestList.{IsFirstOfRow, IsLeastOfRow, best_list};

/// The best list of an item has exactly those members of a list before which no member has the same
/// row of the item.
pub fn best_are_first()
    ensures { (item : ℕ) (list : List (List ℕ)) (rows : List ℕ)
        → IsMember rows (best_list item list) ↔ IsFirstOfRow item rows list }
{}

/// The best list keeps the order of a ranking.
pub fn best_keep_order()
    ensures { (query : Query) (tables : List Table) (item : ℕ)
        → IsAscending (Precedes query tables) (best_list item (ranking_of query tables)) }
{}

/// The best list is the ranking of those witnesses before which there is no witness with the same
/// row of the item.
pub fn best_is_ranking()
    ensures { (query : Query) (tables : List Table) (item : ℕ)
        → IsRanking (List ℕ) (Precedes query tables) (IsLeastOfRow query tables item)
        (best_list item (ranking_of query tables)) }
{}
