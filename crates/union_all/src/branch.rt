//! One branch of a union, with the first of its answers at hand.
ghost use Rattle.std.specs.Prelude.{◌≡◌, ◌+◌, ◌≤◌, ℕ, [], ◌∷◌, List, length, option_map, take, IfOk, IfSome, IfNone, MatchOption, OnErr, OnOk};
ghost use Rattle.union_all.specs.Merge.{HasCalled, HasGrown};

use bound_query::Query;
use rank_key::Rank;
use std::marker::Model;
use std::sync::ledger::Ledger;
use step_counter::{NoMemory, Steps};
use tdp_core::{Answer, Ranked};

/// A branch: its query, the engine of its answers, and the rows of the first answer that is left.
/// Contracts see the query, the combinations that are left, and the engine.
#[derive(Drop)]
pub(crate) struct Branch<'q, E: Ranked> {
    query: &'q Query,
    engine: E,
    head: Option<[u32; 16]>,
}

impl<'q, E: Ranked> Model for Branch<'q, E> {
    ghost use Rattle.std.specs.Prelude.{◌≡◌, ◌++◌, [], None, length};
    ghost use Rattle.witness_key.specs.WitnessKey.{combinations_in};
    ghost use Rattle.union_all.specs.Merge.{BranchView, first_of};

    ghost Value = { BranchView };

    ghost view = { λ s. record {
      bound = s.query.now;
      left = first_of (length s.query.now.query.items) s.head
          ++ combinations_in s.query.now.query (E.rest s.engine);
      engine = record { calls = E.calls s.engine; due = E.due s.engine; size = E.size s.engine };
    } };

    ghost invariant = { λ s. s.head ≡ None → E.rest s.engine ≡ [] };
}

impl<'q, E: Ranked + Drop> Branch<'q, E> {
    /// The query.
    pub(crate) fn query(&self) -> &'q Query
        ensures { result.now ≡ self.now.bound }
    {
        self.query
    }

    /// The rows of the first answer that is left, or `None` if none is left.
    pub(crate) fn head(&self) -> Option<[u32; 16]>
        ensures { MatchOption result (self.now.left ≡ []) (λ rows. (later : List (List ℕ))
            × (self.now.left ≡ take (length self.now.bound.query.items) rows ∷ later)) }
    {
        self.head
    }

    /// Takes out the first answer that is left, and returns its rows, or `None` if none is left.
    /// The engine is called for the next one before. `NoMemory` if memory is refused; no answer is
    /// lost then.
    pub(crate) fn take<L: Ledger>(
        &mut self,
        steps: &mut Steps<L>,
    ) -> Result<Option<[u32; 16]>, NoMemory>
        ensures found { IfOk result (λ o. IfSome o (λ rows. (self.old.left
            ≡ take (length self.old.bound.query.items) rows ∷ self.new.left)
            × HasCalled self.old.engine self.new.engine)) }
        ensures end { IfOk result
            (λ o. IfNone o ((self.old.left ≡ []) × (self.new ≡ self.old)
            × (steps.new ≡ steps.old))) }
        ensures refused { OnErr result
            ((self.new.left ≡ self.old.left) × HasCalled self.old.engine self.new.engine) }
        ensures bound { self.new.bound ≡ self.old.bound }
        ensures cost { steps.new ≤ steps.old + self.old.engine.due }
        ensures share { steps.new ≤ steps.old + E.share self.old.engine.size self.old.engine.calls }
    {
        let Some(rows) = self.head else {
            return Ok(None);
        };
        let next = self.engine.next(steps)?;
        self.head = rows_of(next);
        Ok(Some(rows))
    }
}

/// Appends the branch of the answers that an engine has left. The engine is called once, for the
/// first of them. `NoMemory` if memory is refused.
pub(crate) fn push_begun<'q, E: Ranked + Drop, L: Ledger>(
    branches: &mut Vec<Branch<'q, E>>,
    query: &'q Query,
    engine: E,
    steps: &mut Steps<L>,
) -> Result<(), NoMemory>
    ensures grown { OnOk result (HasGrown E.rest
        (λ e. record { calls = E.calls e; due = E.due e; size = E.size e })
        query.now engine branches.old.items branches.new.items) }
    ensures cost { steps.new ≤ steps.old + E.due engine }
{
    let mut engine = engine;
    let first = engine.next(steps)?;
    let head = rows_of(first);
    let branch = Branch {
        query,
        engine,
        head,
    };
    branches.push(branch)?;
    Ok(())
}

/// The rows of an answer, if there is one.
fn rows_of<R: Rank>(answer: Option<Answer<R>>) -> Option<[u32; 16]>
    ensures { result ≡ option_map (λ a. a.rows) answer }
{
    match answer {
        Some(answer) => Some(answer.rows),
        None => None,
    }
}
