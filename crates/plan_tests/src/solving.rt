//! Raw trees that are reduced and solved, and their first answers.
ghost use Rattle.std.specs.Prelude.{◌≡◌, ℕ, ◌+◌, ◌^◌, ◌<◌, ◌≤◌, length, unsigned_abs, IfOk, OnOk};
ghost use Rattle.tdp_core.specs.RawView.{row_total};
ghost use Rattle.tdp_core.specs.WellFormed.{IsTieFreeTree};
ghost use Rattle.plan_tests.specs.SampleTrees.{IsSample, sample_children};

use rank_key::{Rank, SumRank};
use semi_join::reduce;
use std::alloc::Global;
use std::marker::Brand;
use std::sync::ledger::{Blank, Ledger};
use step_counter::{NoMemory, Steps};
use tdp_core::{NodeRow, NodeShape, RawTree, Tree};
use tree_dp::{first, solve};

/// A root with two children, without rows.
pub(crate) fn branching<R: Rank>(alloc: Global) -> Result<RawTree<R>, NoMemory>
    requires slots { 16 ≤ R.ITEMS }
    requires limit { 2 ^ 127 ≤ R.LIMIT }
    ensures sample { IfOk result IsSample }
    ensures empty { IfOk result (λ t. row_total t ≡ 0) }
{
    let caps = [100; 8];
    let root = NodeShape {
        parent: 0,
        item: 0,
        caps,
    };
    let left = NodeShape {
        parent: 0,
        item: 1,
        caps,
    };
    let right = NodeShape {
        parent: 0,
        item: 2,
        caps,
    };
    RawTree::new(alloc, &[root, left, right])
}

/// Appends a row with one sum, whose number is its place at the node.
pub(crate) fn add<R: Rank>(
    tree: &mut RawTree<R>,
    node: u32,
    sum: i128,
    own: u32,
    children: &[u32],
) -> Result<(), NoMemory>
    requires slots { 16 ≤ R.ITEMS }
    requires limit { 2 ^ 127 ≤ R.LIMIT }
    requires keys { 1 ≤ R.KEYS }
    requires sample { IsSample tree.old }
    requires node { node < 3 }
    requires sum { unsigned_abs sum ≤ 100 }
    requires children { length children.now ≡ sample_children node }
    requires room { row_total tree.old < 100 }
    ensures sample { OnOk result (IsSample tree.new) }
    ensures room { OnOk result (row_total tree.new ≤ row_total tree.old + 1) }
{
    let number = tree.len(node);
    let rank = R::of_row(&[sum], tree.shape(node).item, number);
    tree.add_row(node, NodeRow { rank, row: number }, own, children)
}

/// The solutions have the sums 5 + 4 + 3, 5 + 2 + 3 and 1 + 9 + 3, each twice.
fn add_six_solutions<R: Rank>(tree: &mut RawTree<R>) -> Result<(), NoMemory>
    requires slots { 16 ≤ R.ITEMS }
    requires limit { 2 ^ 127 ≤ R.LIMIT }
    requires keys { 1 ≤ R.KEYS }
    requires sample { IsSample tree.old }
    requires empty { row_total tree.old ≡ 0 }
    ensures { OnOk result (IsSample tree.new) }
{
    add(tree, 0, 5, 0, &[1, 1])?;
    add(tree, 0, 1, 0, &[2, 1])?;
    add(tree, 1, 9, 2, &[])?;
    add(tree, 1, 4, 1, &[])?;
    add(tree, 1, 2, 1, &[])?;
    add(tree, 2, 3, 1, &[])?;
    add(tree, 2, 3, 1, &[])
}

fn six_solutions<R: Rank>(alloc: Global) -> Result<RawTree<R>, NoMemory>
    requires slots { 16 ≤ R.ITEMS }
    requires limit { 2 ^ 127 ≤ R.LIMIT }
    requires keys { 1 ≤ R.KEYS }
    ensures { IfOk result IsSample }
{
    let mut tree = branching(alloc)?;
    add_six_solutions(&mut tree)?;
    Ok(tree)
}

/// The root's row names a link that no row of the right child has.
fn add_no_solution<R: Rank>(tree: &mut RawTree<R>) -> Result<(), NoMemory>
    requires slots { 16 ≤ R.ITEMS }
    requires limit { 2 ^ 127 ≤ R.LIMIT }
    requires keys { 1 ≤ R.KEYS }
    requires sample { IsSample tree.old }
    requires empty { row_total tree.old ≡ 0 }
    ensures { OnOk result (IsSample tree.new) }
{
    add(tree, 0, 5, 0, &[1, 2])?;
    add(tree, 1, 4, 1, &[])?;
    add(tree, 2, 3, 1, &[])
}

fn no_solution<R: Rank>(alloc: Global) -> Result<RawTree<R>, NoMemory>
    requires slots { 16 ≤ R.ITEMS }
    requires limit { 2 ^ 127 ≤ R.LIMIT }
    requires keys { 1 ≤ R.KEYS }
    ensures { IfOk result IsSample }
{
    let mut tree = branching(alloc)?;
    add_no_solution(&mut tree)?;
    Ok(tree)
}

/// The tree that a raw one is reduced to and solved as.
pub(crate) fn tree_of<R: Rank, L: Ledger>(
    alloc: Global,
    raw: RawTree<R>,
    steps: &mut Steps<L>,
) -> Result<Tree<R>, NoMemory>
    requires { IsSample raw }
    ensures tie_free { IfOk result IsTieFreeTree }
    ensures nodes { IfOk result (λ t. length t ≡ 3) }
{
    let reduced = reduce(alloc, raw, steps)?;
    solve(alloc, reduced, steps)
}

/// Whether the two ranks are the same.
fn same<R: Rank, L: Ledger>(a: &R, b: &R, steps: &mut Steps<L>) -> bool {
    !R::less(a, b, steps) && !R::less(b, a, steps)
}

/// Whether the least solutions of the root's two rows have the sums 10 and 13.
fn has_bests<R: Rank, L: Ledger>(tree: &Tree<R>, steps: &mut Steps<L>) -> bool
    requires slots { 16 ≤ R.ITEMS }
    requires limit { 2 ^ 127 ≤ R.LIMIT }
    requires keys { 1 ≤ R.KEYS }
    requires nodes { length tree.now ≡ 3 }
{
    if tree.len(0) != 2 {
        return false;
    }
    let first = tree.best(0, 0, steps);
    let second = tree.best(0, 1, steps);
    let ten = R::of_row(&[10], 1, 2);
    let thirteen = R::of_row(&[13], 0, 1);
    same(&first, &ten, steps) && same(&second, &thirteen, steps)
}

/// Whether the first answer has the sum 10, with row 2 of item 1.
fn has_first<R: Rank, L: Ledger>(tree: &Tree<R>, steps: &mut Steps<L>) -> bool
    requires slots { 16 ≤ R.ITEMS }
    requires limit { 2 ^ 127 ≤ R.LIMIT }
    requires keys { 1 ≤ R.KEYS }
    requires tree { IsTieFreeTree tree.now }
{
    let Some(answer) = first(tree, steps) else {
        return false;
    };
    let ten = R::of_row(&[10], 1, 2);
    answer.rows == [0, 2, 0, 0, 0, 0, 0, 0, 0, 0, 0, 0, 0, 0, 0, 0]
        && same(&answer.rank, &ten, steps)
}

fn six_are_solved<R: Rank, L: Ledger>(alloc: Global, blank: Blank) -> Result<(bool, bool), NoMemory>
    requires slots { 16 ≤ R.ITEMS }
    requires limit { 2 ^ 127 ≤ R.LIMIT }
    requires keys { 1 ≤ R.KEYS }
    requires name { blank.name ≡ L.name }
    requires parts { blank.parts ≡ L.parts }
    requires share { 0 < L.parts }
{
    let mut steps: Steps<L> = Steps::new(blank);
    let raw: RawTree<R> = six_solutions(alloc)?;
    let tree = tree_of(alloc, raw, &mut steps)?;
    Ok((has_bests(&tree, &mut steps), has_first(&tree, &mut steps)))
}

#[test]
fn the_least_solution_is_the_best_of_its_row_and_comes_first(rt: HostRuntime) {
    let solved = six_are_solved::<SumRank, Brand>(rt.alloc(), Blank::new(1));
    assert!(rt; solved == Ok((true, true)));
}

/// Whether the tree has no solution, and no first answer.
fn has_none<R: Rank, L: Ledger>(tree: &Tree<R>, steps: &mut Steps<L>) -> bool
    requires { IsTieFreeTree tree.now }
{
    !tree.live() && first(tree, steps).is_none()
}

fn none_is_solved<R: Rank, L: Ledger>(alloc: Global, blank: Blank) -> Result<bool, NoMemory>
    requires slots { 16 ≤ R.ITEMS }
    requires limit { 2 ^ 127 ≤ R.LIMIT }
    requires keys { 1 ≤ R.KEYS }
    requires name { blank.name ≡ L.name }
    requires parts { blank.parts ≡ L.parts }
    requires share { 0 < L.parts }
{
    let mut steps: Steps<L> = Steps::new(blank);
    let raw: RawTree<R> = no_solution(alloc)?;
    let tree = tree_of(alloc, raw, &mut steps)?;
    Ok(has_none(&tree, &mut steps))
}

#[test]
fn a_tree_without_solution_has_no_answer(rt: HostRuntime) {
    assert!(rt; none_is_solved::<SumRank, Brand>(rt.alloc(), Blank::new(1)) == Ok(true));
}
