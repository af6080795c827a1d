//! The best answer of each row of a tree's root.
ghost use Rattle.std.specs.Prelude.{◌≡◌, ◌+◌, ◌^◌, ◌<◌, ◌≤◌, IfOk, OnOk, length};
ghost use Rattle.std.specs.List.{AllByRecursion};
ghost use Rattle.tdp_core.specs.RawView.{row_total};
ghost use Rattle.tdp_core.specs.WellFormed.{IsTieFreeTree};
ghost use Rattle.plan_tests.specs.SampleTrees.{IsSample};

use crate::fixtures::{Files, TWO, plan_at, plan_of};
use crate::solving::{add, branching, tree_of};
use crate::witnesses::{OF_FOUR_ITEMS, gives_all};
use best_per::BestPer;
use plan_build::Plan;
use rank_key::{LexRank, Rank, SumRank};
use std::alloc::Global;
use std::marker::Brand;
use std::sync::ledger::{Blank, Ledger};
use step_counter::{NoMemory, Steps};
use tdp_core::{RawTree, Tree};

/// Whether the best answers of the root's rows have these rows, and no other comes.
fn gives<R: Rank, L: Ledger>(
    alloc: Global,
    tree: &Tree<R>,
    expected: &[[u32; 4]],
    steps: &mut Steps<L>,
) -> Result<bool, NoMemory>
    requires tie_free { IsTieFreeTree tree.now }
{
    let mut engine = BestPer::new(alloc, tree, steps)?;
    gives_all(&mut engine, expected, steps)
}

/// The rows of the root, of which the last names a group that the first child has not.
fn add_root_rows<R: Rank>(tree: &mut RawTree<R>) -> Result<(), NoMemory>
    requires slots { 16 ≤ R.ITEMS }
    requires limit { 2 ^ 127 ≤ R.LIMIT }
    requires keys { 1 ≤ R.KEYS }
    requires sample { IsSample tree.old }
    requires room { row_total tree.old ≡ 0 }
    ensures sample { OnOk result (IsSample tree.new) }
    ensures room { OnOk result (row_total tree.new ≤ 7) }
{
    add(tree, 0, 5, 0, &[1, 1])?;
    add(tree, 0, 1, 0, &[2, 1])?;
    add(tree, 0, 4, 0, &[2, 1])?;
    add(tree, 0, -2, 0, &[1, 1])?;
    add(tree, 0, 5, 0, &[1, 1])?;
    add(tree, 0, 0, 0, &[2, 1])?;
    add(tree, 0, 0, 0, &[3, 1])
}

/// The rows of both children.
fn add_leaf_rows<R: Rank>(tree: &mut RawTree<R>) -> Result<(), NoMemory>
    requires slots { 16 ≤ R.ITEMS }
    requires limit { 2 ^ 127 ≤ R.LIMIT }
    requires keys { 1 ≤ R.KEYS }
    requires sample { IsSample tree.old }
    requires room { row_total tree.old ≤ 7 }
    ensures sample { OnOk result (IsSample tree.new) }
{
    add(tree, 1, 9, 2, &[])?;
    add(tree, 1, 4, 1, &[])?;
    add(tree, 1, 2, 1, &[])?;
    add(tree, 2, 3, 1, &[])?;
    add(tree, 2, 3, 1, &[])
}

fn six_rows<R: Rank>(alloc: Global) -> Result<RawTree<R>, NoMemory>
    requires slots { 16 ≤ R.ITEMS }
    requires limit { 2 ^ 127 ≤ R.LIMIT }
    requires keys { 1 ≤ R.KEYS }
    ensures { IfOk result IsSample }
{
    let mut tree = branching(alloc)?;
    add_root_rows(&mut tree)?;
    add_leaf_rows(&mut tree)?;
    Ok(tree)
}

fn six_are_given<R: Rank, L: Ledger>(alloc: Global, blank: Blank) -> Result<bool, NoMemory>
    requires slots { 16 ≤ R.ITEMS }
    requires limit { 2 ^ 127 ≤ R.LIMIT }
    requires keys { 1 ≤ R.KEYS }
    requires name { blank.name ≡ L.name }
    requires parts { blank.parts ≡ L.parts }
    requires share { 0 < L.parts }
{
    let mut steps: Steps<L> = Steps::new(blank);
    let raw: RawTree<R> = six_rows(alloc)?;
    let tree = tree_of(alloc, raw, &mut steps)?;
    // the sums 3, 10 twice, 12, 13 and 16
    let expected = [
        [3, 2, 0, 0],
        [0, 2, 0, 0],
        [4, 2, 0, 0],
        [5, 0, 0, 0],
        [1, 0, 0, 0],
        [2, 0, 0, 0],
    ];
    gives(alloc, &tree, &expected, &mut steps)
}

#[test]
fn each_row_of_the_root_has_its_best(rt: HostRuntime) {
    assert!(rt; six_are_given::<SumRank, Brand>(rt.alloc(), Blank::new(1)) == Ok(true));
}

/// Whether the root of the tree is this item.
fn has_root<R: Rank>(tree: &Tree<R>, item: u32) -> bool {
    tree.nodes() > 0 && tree.shape(0).item == item
}

/// Whether the plan with this item at the root has it there, and the best answers of its rows have
/// these rows.
fn gives_at<R: Rank, L: Ledger>(
    alloc: Global,
    files: Files,
    text: &[u8],
    which: &[u32],
    item: u32,
    expected: &[[u32; 4]],
    blank: Blank,
) -> bool
    requires slots { 16 ≤ R.ITEMS }
    requires limit { 2 ^ 127 ≤ R.LIMIT }
    requires few { length which.now ≤ 16 }
    requires known { AllByRecursion (λ t. t < 2) which.now }
    requires name { blank.name ≡ L.name }
    requires parts { blank.parts ≡ L.parts }
    requires share { 0 < L.parts }
{
    let mut steps = Steps::<L>::new(blank);
    let plan: Option<Plan<R>> = plan_at(alloc, files, text, which, item, &mut steps);
    match plan {
        Some(plan) => {
            let tree = plan.tree();
            has_root(tree, item) && gives(alloc, tree, expected, &mut steps) == Ok(true)
        }
        None => false,
    }
}

#[test]
fn each_item_of_two_tables_can_be_the_root(rt: HostRuntime) {
    let alloc = rt.alloc();
    let text = b"select R.a, S.c from R, S where R.b = S.b order by R.w + S.w";
    let first = [[2, 2, 0, 0], [3, 3, 0, 0], [1, 3, 0, 0]];
    assert!(rt; gives_at::<SumRank, Brand>(alloc, TWO, text, &[0, 1], 0, &first, Blank::new(1)));
    assert!(rt; gives_at::<LexRank, Brand>(alloc, TWO, text, &[0, 1], 0, &first, Blank::new(1)));
    let second = [[2, 2, 0, 0], [3, 3, 0, 0], [3, 1, 0, 0]];
    assert!(rt; gives_at::<SumRank, Brand>(alloc, TWO, text, &[0, 1], 1, &second, Blank::new(1)));
    assert!(rt; gives_at::<LexRank, Brand>(alloc, TWO, text, &[0, 1], 1, &second, Blank::new(1)));
}

/// The sums are -2, 0 three times, and 2.
#[test]
fn each_item_of_a_table_joined_to_itself_can_be_the_root(rt: HostRuntime) {
    let alloc = rt.alloc();
    let text = b"select a.a, b.a from R a, R b where a.b = b.b order by a.w - b.w";
    let first = [[3, 1, 0, 0], [1, 1, 0, 0], [2, 2, 0, 0]];
    assert!(rt; gives_at::<SumRank, Brand>(alloc, TWO, text, &[0, 0], 0, &first, Blank::new(1)));
    let second = [[3, 1, 0, 0], [2, 2, 0, 0], [3, 3, 0, 0]];
    assert!(rt; gives_at::<SumRank, Brand>(alloc, TWO, text, &[0, 0], 1, &second, Blank::new(1)));
}

/// Whether the query of four items gives these as the best answers of the rows of this item.
fn gives_of_four<L: Ledger>(alloc: Global, item: u32, expected: &[[u32; 4]], blank: Blank) -> bool
    requires name { blank.name ≡ L.name }
    requires parts { blank.parts ≡ L.parts }
    requires share { 0 < L.parts }
{
    let text =
        b"select A.v from T A, U B, T C, U D where A.k = B.k and B.m = D.m and D.l = C.l order by A.w + B.w + C.v + D.w";
    let which = [0, 1, 0, 1];
    gives_at::<SumRank, L>(alloc, OF_FOUR_ITEMS, text, &which, item, expected, blank)
}

#[test]
fn each_item_of_four_can_be_the_root(rt: HostRuntime) {
    let alloc = rt.alloc();
    let least = [2, 1, 2, 2];
    assert!(rt; gives_of_four::<Brand>(alloc, 0, &[least, [1, 1, 2, 2]], Blank::new(1)));
    assert!(rt; gives_of_four::<Brand>(alloc, 1, &[least], Blank::new(1)));
    let third = [least, [2, 1, 1, 2], [2, 1, 4, 2], [2, 1, 3, 2]];
    assert!(rt; gives_of_four::<Brand>(alloc, 2, &third, Blank::new(1)));
    assert!(rt; gives_of_four::<Brand>(alloc, 3, &[least], Blank::new(1)));
}

/// Whether the plan of a query without answers gives none.
fn none_are_planned<R: Rank, L: Ledger>(alloc: Global, blank: Blank) -> bool
    requires slots { 16 ≤ R.ITEMS }
    requires limit { 2 ^ 127 ≤ R.LIMIT }
    requires name { blank.name ≡ L.name }
    requires parts { blank.parts ≡ L.parts }
    requires share { 0 < L.parts }
{
    let text = b"select R.a from R where R.b = 'x' and R.b = 'y'";
    let mut steps = Steps::<L>::new(blank);
    let plan: Option<Plan<R>> = plan_of(alloc, TWO, text, &[0], &mut steps);
    match plan {
        Some(plan) => gives(alloc, plan.tree(), &[], &mut steps) == Ok(true),
        None => false,
    }
}

#[test]
fn no_row_has_a_best_without_answers(rt: HostRuntime) {
    assert!(rt; none_are_planned::<SumRank, Brand>(rt.alloc(), Blank::new(1)));
}
