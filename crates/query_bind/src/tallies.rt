//! The columns of an order key, each once, with the number of times that the key adds and subtracts
//! it. A key may name a column any number of times; what is done for each row then depends only on
//! the distinct columns.
ghost use Rattle.std.specs.Prelude.{◌≡◌, ◌<◌, ◌+◌, ◌^◌, ◌++◌, ◌∷◌, [], List, map, IfOk, OnOk, MatchOption};
ghost use Rattle.anyk_model.specs.Query.{Term};
ghost use Rattle.bound_query.specs.KeyParts.{sum_of_all};
ghost use Rattle.bound_query.specs.StoredParts.{term_view};
ghost use Rattle.query_bind.specs.Tallies.{AreTalliesOnce, IsTallyOf, columns_of, tally_size, with_one};
ghost use Rattle.rankings.specs.Order.{IsMember};

use bound_query::BoundTerm;
use std::alloc::{AllocError, Global};

/// A column of an order key, with the number of times that it is added and subtracted.
#[derive(Clone, Copy)]
pub(crate) struct Tally {
    pub(crate) column: (u32, u32),
    pub(crate) plus: u64,
    pub(crate) minus: u64,
}

/// A tally with one more term.
fn counted(tally: Tally, minus: bool) -> Tally
    requires { tally.plus + tally.minus + 1 < 2 ^ 64 }
    ensures { result ≡ with_one minus tally }
{
    let column = tally.column;
    if minus {
        Tally {
            column,
            plus: tally.plus,
            minus: tally.minus + 1,
        }
    } else {
        Tally {
            column,
            plus: tally.plus + 1,
            minus: tally.minus,
        }
    }
}

/// The place of a column among tallies, from 0, if it has one.
fn place_of(tallies: &[Tally], column: (u32, u32)) -> Option<usize>
    ensures { MatchOption result (IsMember column (columns_of tallies.now) → ⊥)
        (λ place. IsTallyOf column tallies.now place) }
{
    for i in 0..tallies.len() {
        if tallies[i].column == column {
            return Some(i);
        }
    }
    None
}

/// Counts one more term.
fn count(tallies: &mut Vec<Tally>, term: &BoundTerm) -> Result<(), AllocError>
    requires { sum_of_all (map (tally_size (λ c. 1)) tallies.old.items) + 1 < 2 ^ 64 }
    ensures { OnOk result ((terms : List Term) → AreTalliesOnce terms tallies.old.items
        → AreTalliesOnce (terms ++ term_view term.now ∷ []) tallies.new.items) }
{
    let column = term.column;
    match place_of(tallies.as_slice(), column) {
        Some(place) => {
            tallies[place] = counted(tallies[place], term.minus);
            Ok(())
        }
        None => {
            let fresh = Tally {
                column,
                plus: 0,
                minus: 0,
            };
            tallies.push(counted(fresh, term.minus))?;
            Ok(())
        }
    }
}

/// The columns of these terms, each once, in the order in which they are first named.
pub(crate) fn tallies_of(alloc: Global, terms: &[BoundTerm]) -> Result<Vec<Tally>, AllocError>
    ensures { IfOk result (λ v. AreTalliesOnce (map term_view terms.now) v.items) }
{
    let mut tallies = Vec::new(alloc);
    for term in terms {
        count(&mut tallies, term)?;
    }
    Ok(tallies)
}
