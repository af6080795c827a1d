//! The law of the rankings of queries: they can be merged.
ghost use Rattle.std.specs.Prelude.{List, map};
ghost use Rattle.anyk_model.specs.Table.{Table};
ghost use Rattle.anyk_model.specs.Query.{Query};
ghost use Rattle.anyk_model.specs.Ranking.{ranking_of};
ghost use Rattle.union_all.specs.Merge.{AreLeft};

/// The rankings of queries can be merged: each has combinations of its own query, in order.
pub fn rankings_are_left()
    ensures { (queries : List Query) (tables : List Table)
        → AreLeft queries tables (map (λ query. ranking_of query tables) queries) }
{}
