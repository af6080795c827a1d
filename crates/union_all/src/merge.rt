//! The members of a union, one by one.
ghost use Rattle.std.specs.Prelude.{◌≡◌, ◌+◌, ◌≤◌, [], ◌∷◌, List, length, map, IfOk, IfSome, IfNone, OnErr, OnOk};
ghost use Rattle.std.specs.List.{All, sum_by};
ghost use Rattle.bound_query.specs.WeighedQuery.{Fits};
ghost use Rattle.anyk_model.specs.TaggedRows as union;
ghost use Rattle.anyk_model.specs.Union.{left_of};
ghost use Rattle.union_all.specs.Firsts.{tagged_view};
ghost use Rattle.union_all.specs.Merge.{AreBegun, AreLeft, HaveBegun, IsCalled, rests_of};

use crate::branch::{Branch, push_begun};
use crate::firsts::first_branch;
use crate::tagged::Tagged;
use bound_query::Query;
use std::alloc::Global;
use std::marker::Model;
use std::sync::ledger::Ledger;
use step_counter::{NoMemory, Steps};
use table_store::Tables;
use tdp_core::Ranked;

/// The union of the answers that several engines have left, one for each branch. Contracts see the
/// branches' queries, the members that are left, and the engines.
#[derive(Drop)]
pub struct Merge<'q, E: Ranked> {
    tables: &'q Tables,
    branches: Vec<Branch<'q, E>>,
}

impl<'q, E: Ranked> Model for Merge<'q, E> {
    ghost use Rattle.anyk_model.specs.Union.{left_of};
    ghost use Rattle.union_all.specs.Merge.{AreBranches, MergeView, engines_of, lists_of, queries_of};

    ghost Value = { MergeView };

    ghost view = { λ s. record {
      queries = queries_of s.branches.items;
      rest = left_of (queries_of s.branches.items) s.tables.now (lists_of s.branches.items);
      engines = engines_of s.branches.items;
    } };

    ghost invariant = { λ s. AreBranches s.tables.now s.branches.items };
}

impl<'q, E: Ranked + Drop> Merge<'q, E> {
    /// The union of what the engines have left, each of the query at its place. There are at most 8
    /// queries. Each engine is called once, for its first answer. `NoMemory` if memory is refused;
    /// the engines are dropped then.
    pub fn new<L: Ledger>(
        alloc: Global,
        queries: &'q [Query],
        tables: &'q Tables,
        engines: Vec<E>,
        steps: &mut Steps<L>,
    ) -> Result<Merge<'q, E>, NoMemory>
        requires few { length queries.now ≤ 8 }
        requires fits { All (λ q. Fits q tables.now) queries.now }
        requires each { length engines.items ≡ length queries.now }
        requires left { AreLeft (map (λ q. q.query) queries.now) tables.now
            (rests_of E.rest (map (λ q. q.query) queries.now) engines.items) }
        ensures queries { IfOk result (λ m. m.queries ≡ map (λ q. q.query) queries.now) }
        ensures rest { IfOk result
            (λ m. m.rest ≡ left_of m.queries tables.now (rests_of E.rest m.queries engines.items)) }
        ensures engines { IfOk result (λ m. AreBegun
            (map (λ e. record { calls = E.calls e; due = E.due e; size = E.size e }) engines.items)
            m.engines) }
        ensures cost { steps.new ≤ steps.old + sum_by (λ e. E.due e) engines.items }
    {
        let mut branches = Vec::new(alloc);
        begin(&mut branches, queries, engines, steps)?;
        Ok(Merge { tables, branches })
    }

    /// The next member, or `None` if none is left. The engine of the member's branch is called for
    /// the next answer before the member is taken out. `NoMemory` if memory is refused; no member
    /// is lost then.
    pub fn next<L: Ledger>(&mut self, steps: &mut Steps<L>) -> Result<Option<Tagged>, NoMemory>
        ensures found { IfOk result
            (λ o. IfSome o (λ t. (self.old.rest ≡ tagged_view self.old.queries t ∷ self.new.rest)
            × IsCalled E.share self.old self.new t.branch steps.old steps.new)) }
        ensures end { IfOk result
            (λ o. IfNone o ((self.old.rest ≡ []) × (self.new ≡ self.old)
            × (steps.new ≡ steps.old))) }
        ensures refused { OnErr result
            ((m : union.Tagged) × (later : List union.Tagged) × (self.old.rest ≡ m ∷ later)
            × (self.new.rest ≡ self.old.rest)
            × IsCalled E.share self.old self.new m.branch steps.old steps.new) }
    {
        let Some(first) = first_branch(self.branches.as_slice(), self.tables) else {
            return Ok(None);
        };
        let Some(rows) = self.branches[first].take(steps)? else {
            return Ok(None);
        };
        Ok(Some(Tagged {
            branch: first as u32,
            rows,
        }))
    }
}

/// Appends to no branches a branch for each query, over the engine at its place.
fn begin<'q, E: Ranked + Drop, L: Ledger>(
    branches: &mut Vec<Branch<'q, E>>,
    queries: &'q [Query],
    engines: Vec<E>,
    steps: &mut Steps<L>,
) -> Result<(), NoMemory>
    requires none { branches.old.items ≡ [] }
    requires each { length engines.items ≡ length queries.now }
    ensures begun { OnOk result (HaveBegun E.rest
        (λ e. record { calls = E.calls e; due = E.due e; size = E.size e })
        queries.now engines.items branches.new.items) }
    ensures cost { steps.new ≤ steps.old + sum_by (λ e. E.due e) engines.items }
{
    for engine in engines {
        let query = &queries[branches.len()];
        push_begun(branches, query, engine, steps)?;
    }
    Ok(())
}
