//! What a plan of a query is: a tree problem whose solutions are the query's witnesses.
//! Definitions, and laws about them.
ghost use Rattle.std.specs.Prelude.{◌≡◌, ℕ, List, map};
ghost use Rattle.anyk_model.specs.Query.{Query};
ghost use Rattle.anyk_model.specs.Table.{Table};
ghost use Rattle.tdp_core.specs.AnswerView.{answers_of};
ghost use Rattle.tdp_model.specs.KeyTuple.{KeyOf};
ghost use Rattle.witness_key.specs.WitnessKey.{answers_of_ranking, witness_key};

/// If the keys that an engine gives are those of a list of witnesses, its answers are the answers
/// of this list.
pub fn keys_tell_answers()
    ensures { (d : ℕ) (query : Query) (tables : List Table) (list : List (List ℕ))
        (keys : List (KeyOf d 16)) → keys ≡ map (witness_key d query tables) list
        → answers_of d keys ≡ answers_of_ranking d query tables list }
{}
