//! The laws of the keys of ranks that stand for the witnesses of a query.
ghost use Rattle.std.specs.Prelude.{◌≡◌, ◌≤◌, ◌↔◌, ℕ, List, length, map};
ghost use Rattle.std.specs.List.{AllByRecursion};
ghost use Rattle.rankings.specs.Order.{IsRanking};
ghost use Rattle.tdp_model.specs.KeyTuple.{KeyOf, key_below};
ghost use Rattle.anyk_model.specs.Table.{Table};
ghost use Rattle.anyk_model.specs.Query.{IsCombination, Query, row_counts};
ghost use Rattle.anyk_model.specs.Ranking.{Precedes, ranking_of};
ghost use Rattle.witness_key.specs.WitnessKey.{AreCombinations, IsWitnessKey, answers_of_ranking, combinations_in, witness_key};

/// The ranks of two combinations are in the order of the query's own keys.
pub fn both_orders_agree()
    ensures { (d : ℕ) (query : Query) (tables : List Table) (a b : List ℕ) → length query.order ≤ d
        → length query.items ≤ 16
        → length a ≡ length query.items → length b ≡ length query.items
        → key_below d 16 (witness_key d query tables a) (witness_key d query tables b)
        ↔ Precedes query tables a b }
{}

/// No two combinations have the same key.
pub fn keys_tell_witnesses()
    ensures { (d : ℕ) (query : Query) (tables : List Table) (a b : List ℕ) → length query.items ≤ 16
        → length a ≡ length query.items → length b ≡ length query.items
        → witness_key d query tables a ≡ witness_key d query tables b → a ≡ b }
{}

/// The ranking of the witnesses' keys is the list of the keys of the ranked witnesses.
pub fn rankings_agree()
    ensures { (d : ℕ) (query : Query) (tables : List Table) (keys : List (KeyOf d 16))
        → length query.order ≤ d → length query.items ≤ 16
        → IsRanking (KeyOf d 16) (key_below d 16) (IsWitnessKey d query tables) keys
        → keys ≡ map (witness_key d query tables) (ranking_of query tables) }
{}

/// The combinations that the answers of a list of combinations stand for are the list itself.
pub fn answers_tell_combinations()
    ensures { (d : ℕ) (query : Query) (tables : List Table) (list : List (List ℕ))
        → length query.items ≤ 16
        → AllByRecursion (IsCombination (row_counts query.items tables)) list
        → (combinations_in query (answers_of_ranking d query tables list) ≡ list)
        × AreCombinations query tables (answers_of_ranking d query tables list) }
{}

/// The combinations that the answers of the ranking stand for are the ranking itself.
pub fn ranking_tells_combinations()
    ensures { (d : ℕ) (query : Query) (tables : List Table) → length query.items ≤ 16
        → (combinations_in query (answers_of_ranking d query tables (ranking_of query tables))
        ≡ ranking_of query tables)
        × AreCombinations query tables
        (answers_of_ranking d query tables (ranking_of query tables)) }
{}
