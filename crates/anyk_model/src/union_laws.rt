//! The laws of the union of several queries over the same tables.

ghost use Rattle.std.specs.Prelude.{◌≡◌, ◌↔◌, ◌<◌, [], ◌∷◌, List, length, map, ℕ};
ghost use Rattle.anyk_model.specs.Table.{Table};
ghost use Rattle.anyk_model.specs.Query.{Query};
ghost use Rattle.anyk_model.specs.Ranking.{IsBefore, ranking_of};
ghost use Rattle.anyk_model.specs.TaggedRows.{HaveKeys, IsUnionRanking, PrecedesTagged, Tagged, tagged, tagged_key};
ghost use Rattle.anyk_model.specs.Union.{left_of, union_of};

/// A union has at most one ranking.
pub fn one_union()
    ensures { (queries : List Query) (tables : List Table) (a b : List Tagged)
        → IsUnionRanking queries tables a → IsUnionRanking queries tables b → a ≡ b }
{}

/// Each union has a ranking: the list of the branches' witnesses in the order of the union.
pub fn the_union()
    ensures { (queries : List Query) (tables : List Table)
        → IsUnionRanking queries tables (union_of queries tables) }
{}

/// The union of one branch is the ranking of that branch.
pub fn union_of_one()
    ensures { (query : Query) (tables : List Table)
        → union_of (query ∷ []) tables ≡ map (tagged 0) (ranking_of query tables) }
{}

/// Of the branches' rankings the union is left.
pub fn left_is_union()
    ensures { (queries : List Query) (tables : List Table)
        → left_of queries tables (map (λ query. ranking_of query tables) queries)
        ≡ union_of queries tables }
{}

/// If all branches have as many order keys, members are in the order of their keys, as one list.
pub fn keys_agree()
    ensures { (keys : ℕ) (queries : List Query) (tables : List Table) (a b : Tagged)
        → HaveKeys keys queries → a.branch < length queries → b.branch < length queries
        → PrecedesTagged queries tables a b
        ↔ IsBefore (tagged_key queries tables a) (tagged_key queries tables b) }
{}
