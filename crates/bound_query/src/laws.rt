//! Laws of bound queries that the definitions alone give.
ghost use Rattle.std.specs.Prelude.{◌≡◌, ◌↔◌, ◌<◌, ◌≤◌, List, length, ℕ, nat_abs};
ghost use Rattle.anyk_model.specs.Table.{Table};
ghost use Rattle.anyk_model.specs.Query.{Column, IsCombination, IsWitness, Item, OrderKey, Query, rank_of, row_counts};
ghost use Rattle.bound_query.specs.Classes.{AreVariables, PassAndAgree, PassAndAgreeAtLeast};
ghost use Rattle.bound_query.specs.NamedPlaces.{NamesExist, KeyInside};
ghost use Rattle.bound_query.specs.KeyParts.{caps_sum, parts_sum};
ghost use Rattle.bound_query.specs.WeighedQuery.{BoundQuery, Fits};
ghost use Rattle.bound_query.specs.Weights.{cap_of, key_at, most_sum, part_of, terms_size};

/// A combination of rows is a witness exactly if each row passes its item, and the rows of any two
/// items agree on each variable that both have.
pub fn witnesses_pass_and_agree()
    ensures { (query : Query) (tables : List Table) (rows : List ℕ) → NamesExist query tables
        → IsWitness query tables rows
        ↔ (IsCombination (row_counts query.items tables) rows × PassAndAgree query tables rows) }
{}

/// The parts of the rows of a combination add up to the sum by which the key is compared.
pub fn parts_add_up()
    ensures { (query : Query) (tables : List Table) (rows : List ℕ) (key : OrderKey)
        → KeyInside tables query.items key
        → parts_sum tables query.items rows key ≡ rank_of query tables rows key }
{}

/// A cap bounds the parts of its item's rows, and the caps of all items add up to the sum of the
/// greatest weights. In a bound query that sum is at most 2^127 - 1 for each key.
pub fn caps_bound_parts()
    ensures bound { (tables : List Table) (items : List Item) (row item : ℕ) (key : OrderKey)
        → nat_abs (part_of tables items item row key) ≤ cap_of tables items item key }
    ensures sum { (tables : List Table) (items : List Item) (key : OrderKey)
        → KeyInside tables items key
        → caps_sum tables items key ≡ terms_size tables items key.terms }
    ensures limit { (bound : BoundQuery) (tables : List Table) (key : ℕ) → Fits bound tables
        → key < length bound.query.order
        → caps_sum tables bound.query.items (key_at bound.query.order key) ≤ most_sum }
{}

/// If the variables are known, rows pass and agree exactly if they pass and agree at the least
/// columns of each variable.
pub fn agree_at_least_columns()
    ensures { (query : Query) (tables : List Table) (rows : List ℕ) (variables : List Column)
        → AreVariables query.equalities variables
        → PassAndAgree query tables rows ↔ PassAndAgreeAtLeast query tables variables rows }
{}
