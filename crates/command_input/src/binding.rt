//! An input, and the binding of its queries to its tables.
ghost use Rattle.std.specs.Prelude.{◌≡◌, ◌<◌, ◌≤◌, ◌+◌, ℕ, List, [], None, IfOk, IfSome, length, option_map, position};
ghost use Rattle.std.specs.List.{All, AllByRecursion};
ghost use Rattle.std.specs.Str.{bytes_eq};
ghost use Rattle.anyk_model.specs.Query.{Item};
ghost use Rattle.bound_query.specs.WeighedQuery.{Fits};
ghost use Rattle.refusals.specs.Reason.{BranchShape};
ghost use Rattle.refusals.specs.RefusalReasons.{reason_of};
ghost use Rattle.verdict.specs.AcceptedInput.{queries_in};
ghost use Rattle.verdict.specs.Faults.{of_bind};
ghost use Rattle.verdict.specs.Loading.{SideInput as SideInputView, all_items, are_several, best_in, bound_from, first_uses};
ghost use Rattle.verdict.specs.Loading.{have_directions, have_one_shape, odd_branch, table_numbers, told_branch};
ghost use Rattle.session_script.specs.Script.{unless};
ghost use Rattle.verdict.specs.Stages.{Is, then_by};
ghost use Rattle.verdict.specs.StageResults.{Pure};
ghost use Rattle.verdict.specs.Verdict.{IsBoundInput};
ghost use Rattle.command_input.specs.Limits.{AreWithinLimits};
ghost use Rattle.command_input.specs.BoundInputs.{IsBoundTo, IsWhole, IsWholeOver, bound_result_view, selects_bound_view};
ghost use Rattle.command_input.specs.StageViews.{BindsEach, item_result_view, queries_result_view};
ghost use Rattle.command_input.specs.InputFiles.{sought_view};

use crate::input_files::InputFiles;
use bound_query::Query;
use proof_model::Proof;
use query_bind::{BindFault, bind};
use query_select::select::Select;
use refusals::Refusal;
use session_script::Step;
use std::alloc::Global;
use std::marker::Model;
use table_store::Tables;

/// An input before its structure is found. The queries fit the tables and have as many order keys
/// each, a query has the item if one is named, and the steps keep the rules of scripts.
#[derive(Drop)]
pub struct Input {
    /// The query of each branch, bound to the tables; one query if there are no branches.
    pub queries: Vec<Query>,
    /// The tables, in the order of their first use.
    pub tables: Tables,
    /// The item of which each row's best answer is asked for, from 0; none if no item is named.
    pub best: Option<u32>,
    /// The steps of the script; none if there is no script.
    pub script: Vec<Step>,
    /// The certificate; the empty one if there is none.
    pub proof: Proof,
}

impl Model for Input {
    ghost use Rattle.command_input.specs.Input.{InputView, IsSound};
    ghost use Rattle.proof_model.specs.ProofView.{proof_view};

    ghost Value = { InputView };

    ghost view = { λ a.
        record {
          queries = a.queries.items;
          tables = a.tables;
          best = a.best;
          steps = a.script.items;
          proof = proof_view a.proof;
        } };

    ghost invariant = { λ a. IsSound
        (record {
          queries = a.queries.items;
          tables = a.tables;
          best = a.best;
          steps = a.script.items;
          proof = proof_view a.proof;
        }) };
}

impl Input {
    /// The tables alone.
    pub fn into_tables(self) -> Tables
        ensures { result ≡ self.tables }
    {
        self.tables
    }
}

/// The queries of the branches, bound to the tables.
#[derive(Drop)]
pub(crate) struct BoundInput {
    /// The query of each branch; one query if there are no branches.
    pub(crate) queries: Vec<Query>,
    /// The tables, in the order of their first use.
    pub(crate) tables: Tables,
    /// The item of which each row's best answer is asked for, from 0; none if no item is named.
    pub(crate) best: Option<u32>,
}

/// The queries of the branches, bound to tables that stay where they are.
#[derive(Drop)]
pub(crate) struct BoundSelects {
    /// The query of each branch; one query if there are no branches.
    pub(crate) queries: Vec<Query>,
    /// The item of which each row's best answer is asked for, from 0; none if no item is named.
    pub(crate) best: Option<u32>,
}

/// These selects, bound to the tables. `which` has the number of the table of each item of all
/// selects, from 0. The error is the refusal for the first fault of binding, `BranchShape` for the
/// first branch that is not of the first one's shape, `UnknownBest` if no item has the alias that is
/// named, `UnionBest` if an item is named and there are several branches, or `NoMemory`.
pub(crate) fn bound_to<'a>(
    alloc: Global,
    sought: &InputFiles<'a>,
    selects: &[Select],
    tables: Tables,
    which: &[u32],
) -> Result<BoundInput, Refusal<'a>>
    requires limits { AreWithinLimits selects.now }
    requires numbers { let items = all_items selects.now in
        which.now ≡ table_numbers (first_uses items) items }
    requires known { AllByRecursion (λ t. t < length tables) which.now }
    ensures bound { let asked = sought_view sought.now in (beside : SideInputView)
        → Pure (IsBoundInput asked selects.now tables beside) (bound_result_view beside result) }
    ensures whole { IfOk result IsWhole }
    ensures branches { IfOk result (λ bound. length bound.queries.items ≡ length selects.now) }
    ensures unnamed { sought.now.best_of ≡ None → IfOk result (λ bound. bound.best ≡ None) }
{
    let bound = bound_over(alloc, sought.best_of, selects, &tables, which)?;
    Ok(BoundInput {
        queries: bound.queries,
        tables,
        best: bound.best,
    })
}

/// These selects, bound to the tables, with the item that has this alias. `which` has the number of
/// the table of each item of all selects, from 0: its place among names of any kind that the tables
/// have. The error is as that of `bound_to`.
pub(crate) fn bound_over<'a>(
    alloc: Global,
    best_of: Option<&str>,
    selects: &[Select],
    tables: &Tables,
    which: &[u32],
) -> Result<BoundSelects, Refusal<'a>>
    requires limits { AreWithinLimits selects.now }
    requires as_many { length which.now ≡ length (all_items selects.now) }
    requires known { AllByRecursion (λ t. t < length tables.now) which.now }
    ensures bound { let alias = option_map (λ alias. alias.now) best_of.entry in
        (names : List (List ℕ)) (beside : SideInputView)
        → which.now ≡ table_numbers names (all_items selects.now)
        → Pure (IsBoundTo names alias tables.now selects.now beside)
        (selects_bound_view tables.now beside result) }
    ensures whole { IfOk result (IsWholeOver tables.now) }
    ensures branches { IfOk result (λ bound. length bound.queries.items ≡ length selects.now) }
    ensures unnamed { best_of.entry ≡ None → IfOk result (λ bound. bound.best ≡ None) }
{
    let queries = bind_queries(alloc, selects, tables, which)?;
    let best = best_item(&queries, best_of)?;
    Ok(BoundSelects { queries, best })
}

/// The queries of these selects over the tables, or the refusal for the first fault of binding.
fn bind_queries<'a>(
    alloc: Global,
    selects: &[Select],
    tables: &Tables,
    which: &[u32],
) -> Result<Vec<Query>, Refusal<'a>>
    requires limits { AreWithinLimits selects.now }
    requires as_many { length which.now ≡ length (all_items selects.now) }
    requires known { AllByRecursion (λ t. t < length tables.now) which.now }
    ensures bound { (names : List (List ℕ))
        → which.now ≡ table_numbers names (all_items selects.now)
        → Pure (Is (bound_from names tables.now (are_several selects.now) 1 selects.now))
        (queries_result_view result) }
    ensures count { IfOk result (λ queries. length queries.items ≡ length selects.now) }
    ensures fits { IfOk result (λ queries. All (λ q. Fits q tables.now) queries.items) }
{
    let mut queries = Vec::new(alloc);
    match bind_each(alloc, selects, tables, which, &mut queries) {
        Ok(()) => Ok(queries),
        Err(fault) => {
            let branch = told_branch(selects.len() > 1, queries.len());
            Err(bind_refusal(branch, fault))
        }
    }
}

/// Binds these selects to the tables, up to the first fault, which is that of the select after
/// those of the queries.
fn bind_each(
    alloc: Global,
    selects: &[Select],
    tables: &Tables,
    which: &[u32],
    queries: &mut Vec<Query>,
) -> Result<(), BindFault>
    requires limits { AreWithinLimits selects.now }
    requires as_many { length which.now ≡ length (all_items selects.now) }
    requires known { AllByRecursion (λ t. t < length tables.now) which.now }
    requires none { queries.old.items ≡ [] }
    ensures { BindsEach selects.now tables.now which.now queries.new.items result }
{
    let mut rest = which;
    for select in selects {
        let (own, later) = rest.split_at(select.items.as_slice().len());
        let query = bind(alloc, select, tables, own)?;
        queries.push(query)?;
        rest = later;
    }
    Ok(())
}

/// The number of the branch that comes after these, from 1, if there are several.
fn told_branch(several: bool, before: usize) -> Option<u32>
    requires { before < 8 }
    ensures { result ≡ told_branch several (before + 1) }
{
    if several {
        Some(before as u32 + 1)
    } else {
        None
    }
}

/// The number of the first branch, from 2, that is not of the shape of branch 1.
fn odd_branch(queries: &[Query]) -> Option<u32>
    requires some { 1 ≤ length queries.now }
    requires few { length queries.now ≤ 8 }
    ensures { option_map BranchShape result ≡ odd_branch (queries_in queries.now) }
{
    for branch in 1..queries.len() {
        if !have_one_shape(&queries[0], &queries[branch]) {
            return Some(branch as u32 + 1);
        }
    }
    None
}

/// Whether the two have as many selected columns, and keys of the same directions.
fn have_one_shape(a: &Query, b: &Query) -> bool
    ensures { result ≡ have_one_shape a.now.query b.now.query }
{
    a.columns().len() == b.columns().len() && have_directions(a, b)
}

/// Whether the two have as many order keys, and each in the same direction.
fn have_directions(a: &Query, b: &Query) -> bool
    ensures { result ≡ have_directions a.now.query.order b.now.query.order }
{
    if a.keys() != b.keys() {
        return false;
    }
    for key in 0..a.keys() {
        if a.descending(key) != b.descending(key) {
            return false;
        }
    }
    true
}

/// The number of the item with this alias, from 0; none if no alias is named. `BranchShape` for the
/// first branch that is not of the first one's shape, `UnionBest` if there are several branches, and
/// `UnknownBest` if no item has the alias.
fn best_item<'a>(queries: &[Query], best_of: Option<&str>) -> Result<Option<u32>, Refusal<'a>>
    requires some { 1 ≤ length queries.now }
    requires few { length queries.now ≤ 8 }
    ensures best { let alias = option_map (λ alias. alias.now) best_of.entry in
        let shown = queries_in queries.now in
        Pure (Is (then_by (unless (odd_branch shown) shown) (best_in alias)))
        (item_result_view result) }
    ensures item { IfOk result (λ best. IfSome best
        (λ item. AllByRecursion (λ q. item < length q.query.items) queries.now)) }
    ensures unnamed { best_of.entry ≡ None → IfOk result (λ best. best ≡ None) }
{
    if let Some(branch) = odd_branch(queries) {
        return Err(Refusal::BranchShape(branch));
    }
    let Some(alias) = best_of else {
        return Ok(None);
    };
    if queries.len() > 1 {
        return Err(Refusal::UnionBest);
    }
    match item_of(&queries[0], alias.as_bytes()) {
        Some(item) => Ok(Some(item)),
        None => Err(Refusal::UnknownBest),
    }
}

/// The number of the item with this alias, from 0.
fn item_of(query: &Query, alias: &[u8]) -> Option<u32>
    ensures first { result
        ≡ position (λ (item : Item). bytes_eq item.alias alias.now) query.now.query.items }
    ensures within { IfSome result (λ item. item < length query.now.query.items) }
{
    for item in 0..query.items() {
        if query.alias(item) == alias {
            return Some(item);
        }
    }
    None
}

/// The refusal for a fault of binding, in a branch if there are several.
fn bind_refusal<'a>(branch: Option<u32>, fault: BindFault) -> Refusal<'a>
    ensures { reason_of result ≡ of_bind branch fault }
{
    match fault {
        BindFault::DuplicateAlias(item) => Refusal::DuplicateAlias { branch, item },
        BindFault::UnknownAlias(at) => Refusal::UnknownAlias(at),
        BindFault::UnknownColumn(at) => Refusal::UnknownColumn(at),
        BindFault::Ambiguous(at) => Refusal::Ambiguous(at),
        BindFault::BadWeight { item, row, col } => Refusal::BadWeight {
            branch,
            item,
            row,
            column: col,
        },
        BindFault::RankRange(key) => Refusal::RankRange { branch, key },
        BindFault::NoMemory => Refusal::NoMemory,
    }
}
