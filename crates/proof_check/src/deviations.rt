//! The ways to leave the answers at one node.
ghost use Rattle.std.specs.Prelude.{◌≡◌, ◌≤◌, ◌<◌, ℕ, List, [], Option, None, Some, true, false};
ghost use Rattle.tdp_model.specs.NodeRows.{most_node_rows};
ghost use Rattle.std.specs.Prelude.{IfOk, OnOk, length, map, option_map, unwrap_or};
ghost use Rattle.std.specs.Prelude.{slice_index, slice_index_or, slice_set, vec_len};
ghost use Rattle.tdp_model.specs.KeyTuple.{KeyOf};
ghost use Rattle.tdp_core.specs.RawView.{raw_len};
ghost use Rattle.proof_check.specs.BoundedRows.{bound_ranks};
ghost use Rattle.proof_check.specs.Levels.{AreOpenPlaces, AreGroups, AreLeast, AreLists, CanLeave, FitsGroup, FitSums};
ghost use Rattle.proof_check.specs.Levels.{IsFirstEarly, IsFirstPast, IsLesser, IsListed, IsPast, IsReady, IsWay};
ghost use Rattle.proof_check.specs.Levels.{list_at, own_bounds};

use crate::bounded::BoundedTree;
use crate::offers::{Offer, first_open, is_past, offers_of};
use crate::open_places::{OpenPlace, bound_count, open_place_of};
use crate::taken_rows::TakenRows;
use join_tree::JoinTree;
use rank_key::Rank;
use std::alloc::Global;
use std::sync::ledger::Ledger;
use step_counter::{NoMemory, Steps};
use tdp_core::Groups;

/// Whether each way to leave the answers at a node comes after the last one, or there is none if
/// there is no last one. `starts` are the answers' beginnings before the node, and `taken` the rows
/// that follow them.
pub(crate) fn leaves_after<R: Rank, L: Ledger>(
    alloc: Global,
    join: &JoinTree,
    tree: &BoundedTree<R>,
    node: u32,
    starts: &[[u32; 16]],
    taken: &TakenRows,
    last: &Option<R>,
    steps: &mut Steps<L>,
) -> Result<bool, NoMemory>
    requires ready { IsReady join.now tree.now R.KEYS R.key node }
    requires rows { (n q : ℕ) → n < length starts.now → q < node
        → slice_index (list_at starts.now n) q < raw_len tree.now.raw q }
    ensures passed { IfOk result (λ good. good ≡ true → (n i : ℕ) (k : KeyOf R.KEYS 16)
        → IsWay join.now tree.now R.KEYS R.key node starts.now taken.now n i k
        → IsPast R.KEYS (option_map R.key last.now) k) }
    ensures missed { IfOk result (λ good. good ≡ false → (n : ℕ) × ((i : ℕ) × ((k : KeyOf R.KEYS 16)
        × IsWay join.now tree.now R.KEYS R.key node starts.now taken.now n i k
        × (IsPast R.KEYS (option_map R.key last.now) k → ⊥)))) }
{
    let branches = branches_of(alloc, join, tree, node, starts, steps)?;
    let lists = lists_of(alloc, join, tree, node, &branches, last, steps)?;
    Ok(branches_leave_after(&branches, &lists, taken, last, steps))
}

/// For each group the offers that the least of what is known for its beginnings asks for.
fn lists_of<R: Rank, L: Ledger>(
    alloc: Global,
    join: &JoinTree,
    tree: &BoundedTree<R>,
    node: u32,
    branches: &[Option<OpenPlace<R>>],
    last: &Option<R>,
    steps: &mut Steps<L>,
) -> Result<Vec<Vec<Offer<R>>>, NoMemory>
    requires ready { IsReady join.now tree.now R.KEYS R.key node }
    requires branches { (n : ℕ) (b : OpenPlace R) → n < length branches.now
        → slice_index_or branches.now n None ≡ Some b
        → CanLeave join.now tree.now R.KEYS R.key node b }
    ensures { IfOk result (λ lists. (n : ℕ) (b : OpenPlace R) → n < length branches.now
        → slice_index_or branches.now n None ≡ Some b
        → IsListed join.now tree.now R.KEYS R.key node (option_map R.key last.now) b
        (map (λ l. l.items) lists.items)) }
{
    let count = bound_count(tree, node);
    let groups = rows_by_bound(alloc, own_numbers(tree, node), count)?;
    let least = least_of(alloc, branches, count, steps)?;
    lists_by_group(alloc, join, tree, node, &groups, &least, last, steps)
}

/// The same, given the rows of each group and the least that is known for it.
fn lists_by_group<R: Rank, L: Ledger>(
    alloc: Global,
    join: &JoinTree,
    tree: &BoundedTree<R>,
    node: u32,
    groups: &Groups,
    least: &[Option<R>],
    last: &Option<R>,
    steps: &mut Steps<L>,
) -> Result<Vec<Vec<Offer<R>>>, NoMemory>
    requires ready { IsReady join.now tree.now R.KEYS R.key node }
    requires groups { AreGroups (own_bounds tree.now node) (length least.now) groups.now }
    requires fits { (g : ℕ) (k : R) → slice_index_or least.now g None ≡ Some k
        → FitsGroup join.now tree.now R.KEYS R.key node g (R.key k) }
    ensures { IfOk result (λ lists. AreLists join.now tree.now R.KEYS R.key node
        (option_map R.key last.now) groups.now least.now (length least.now)
        (map (λ l. l.items) lists.items)) }
{
    let mut lists = Vec::new(alloc);
    for group in 0..least.len() {
        let rows = groups.group(group);
        let offers = offers_of(alloc, join, tree, node, rows, least[group], last, steps)?;
        lists.push(offers)?;
    }
    Ok(lists)
}

/// Whether each beginning that may be left is left after the last answer, given the offers of each
/// group.
fn branches_leave_after<R: Rank, L: Ledger>(
    branches: &[Option<OpenPlace<R>>],
    lists: &[Vec<Offer<R>>],
    taken: &TakenRows,
    last: &Option<R>,
    steps: &mut Steps<L>,
) -> bool
    requires group { (n : ℕ) (b : OpenPlace R) → n < length branches.now
        → slice_index_or branches.now n None ≡ Some b → b.group < length lists.now }
    requires fits { (n : ℕ) (b : OpenPlace R) → n < length branches.now
        → slice_index_or branches.now n None ≡ Some b
        → FitSums R.KEYS R.key b (map (λ l. l.items) lists.now) }
    ensures passed { result ≡ true → (n : ℕ) (b : OpenPlace R) → n < length branches.now
        → slice_index_or branches.now n None ≡ Some b
        → IsFirstPast R.KEYS R.key taken.now n (option_map R.key last.now) b
        (map (λ l. l.items) lists.now) }
    ensures missed { result ≡ false → (n : ℕ) × ((b : OpenPlace R) × (n < length branches.now)
        × (slice_index_or branches.now n None ≡ Some b)
        × IsFirstEarly R.KEYS R.key taken.now n (option_map R.key last.now) b
        (map (λ l. l.items) lists.now)) }
{
    for number in 0..branches.len() {
        if !branch_leaves_after(number, branches[number], lists, taken, last, steps) {
            return false;
        }
    }
    true
}

/// The same of one beginning.
fn branch_leaves_after<R: Rank, L: Ledger>(
    number: usize,
    branch: Option<OpenPlace<R>>,
    lists: &[Vec<Offer<R>>],
    taken: &TakenRows,
    last: &Option<R>,
    steps: &mut Steps<L>,
) -> bool
    requires group { (b : OpenPlace R) → branch ≡ Some b → b.group < length lists.now }
    requires fits { (b : OpenPlace R) → branch ≡ Some b
        → FitSums R.KEYS R.key b (map (λ l. l.items) lists.now) }
    ensures passed { result ≡ true → (b : OpenPlace R) → branch ≡ Some b
        → IsFirstPast R.KEYS R.key taken.now number (option_map R.key last.now) b
        (map (λ l. l.items) lists.now) }
    ensures missed { result ≡ false → (b : OpenPlace R) × (branch ≡ Some b)
        × IsFirstEarly R.KEYS R.key taken.now number (option_map R.key last.now) b
        (map (λ l. l.items) lists.now) }
{
    let Some(branch) = branch else {
        return true;
    };
    let offers = &lists[branch.group as usize];
    let Some(offer) = first_open(offers, taken, number) else {
        return true;
    };
    let rank = R::join(branch.base, offer.low, steps);
    is_past(last, &rank, steps)
}

/// The numbers of the bounds of the rows' groups at a node.
fn own_numbers<'a, R: Rank>(tree: &'a BoundedTree<R>, node: u32) -> &'a [Option<u32>]
    requires { node < length tree.now.bounds }
    ensures { result.now ≡ own_bounds tree.now node }
{
    tree.bounds[node as usize].own.as_slice()
}

/// The rows by the bounds of their groups. Those without a bound come last.
fn rows_by_bound(alloc: Global, own: &[Option<u32>], count: usize) -> Result<Groups, NoMemory>
    requires few { length own.now ≤ most_node_rows }
    requires within { (i b : ℕ) → i < length own.now → slice_index_or own.now i None ≡ Some b
        → b < count }
    ensures { IfOk result (AreGroups own.now count) }
{
    let Ok(none) = u32::try_from(count) else {
        return Err(NoMemory);
    };
    let mut numbers = Vec::new(alloc);
    for i in 0..own.len() {
        let number = own[i].unwrap_or(none);
        numbers.push(number)?;
    }
    Groups::of_numbers(alloc, &numbers, count + 1)
}

/// For each beginning whether it may be left at a node, and how.
fn branches_of<R: Rank, L: Ledger>(
    alloc: Global,
    join: &JoinTree,
    tree: &BoundedTree<R>,
    node: u32,
    starts: &[[u32; 16]],
    steps: &mut Steps<L>,
) -> Result<Vec<Option<OpenPlace<R>>>, NoMemory>
    requires ready { IsReady join.now tree.now R.KEYS R.key node }
    requires rows { (n q : ℕ) → n < length starts.now → q < node
        → slice_index (list_at starts.now n) q < raw_len tree.now.raw q }
    ensures count { IfOk result (λ branches. vec_len branches ≡ length starts.now) }
    ensures each { IfOk result
        (λ branches. AreOpenPlaces join.now tree.now R.KEYS R.key node starts.now branches.items) }
{
    let mut branches = Vec::new(alloc);
    for n in 0..starts.len() {
        let branch = open_place_of(join, tree, node, &starts[n], steps);
        branches.push(branch)?;
    }
    Ok(branches)
}

/// For each group the least of what is known for the beginnings that may be left at it.
fn least_of<R: Rank, L: Ledger>(
    alloc: Global,
    branches: &[Option<OpenPlace<R>>],
    count: usize,
    steps: &mut Steps<L>,
) -> Result<Vec<Option<R>>, NoMemory>
    requires within { (n : ℕ) (b : OpenPlace R) → n < length branches.now
        → slice_index_or branches.now n None
        ≡ Some b → b.group < count }
    ensures count { IfOk result (λ least. vec_len least ≡ count) }
    ensures least { IfOk result
        (λ least. AreLeast R.KEYS R.key (length branches.now) branches.now least.items) }
{
    let mut least = nothing_known(alloc, count)?;
    for n in 0..branches.len() {
        let branch = branches[n];
        match branch {
            None => {}
            Some(branch) => lower(&mut least, branch.group, branch.base, steps),
        }
    }
    Ok(least)
}

/// Nothing for this many groups.
fn nothing_known<R: Rank>(alloc: Global, count: usize) -> Result<Vec<Option<R>>, NoMemory>
    ensures count { IfOk result (λ least. length least.items ≡ count) }
    ensures none { IfOk result (λ least. (g : ℕ) → slice_index_or least.items g None ≡ None) }
{
    let mut least = Vec::new(alloc);
    for _group in 0..count {
        least.push(None)?;
    }
    Ok(least)
}

/// Puts what is known for a beginning in the place of what is known for its group, if it is less.
fn lower<R: Rank, L: Ledger>(least: &mut Vec<Option<R>>, group: u32, base: R, steps: &mut Steps<L>)
    requires there { group < vec_len least.old }
    ensures { (now : R) × (least.new.items ≡ slice_set least.old.items group (Some now))
        × IsLesser R.KEYS R.key (slice_index_or least.old.items group None) base now }
{
    let place = group as usize;
    let now = lesser(least[place], base, steps);
    least[place] = Some(now);
}

/// The lesser of what is known for a group, if anything is, and of what is known for a beginning.
fn lesser<R: Rank, L: Ledger>(known: Option<R>, base: R, steps: &mut Steps<L>) -> R
    ensures { IsLesser R.KEYS R.key known base result }
{
    match known {
        None => base,
        Some(known) => {
            if R::less(&base, &known, steps) {
                base
            } else {
                known
            }
        }
    }
}
