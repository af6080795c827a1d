//! Answers of small queries, in their order, by both engines.
ghost use Rattle.std.specs.Prelude.{◌≡◌, ◌^◌, ◌<◌, ◌≤◌, length};
ghost use Rattle.std.specs.List.{AllByRecursion};
ghost use Rattle.tdp_core.specs.WellFormed.{IsTieFreeTree};

use crate::fixtures::{Files, TWO, has_rows, plan_of};
use anyk_part::Part;
use anyk_rec::Rec;
use bumpalo::Bump;
use plan_build::Plan;
use rank_key::{LexRank, Rank, SumRank};
use std::alloc::Global;
use std::marker::Brand;
use std::sync::ledger::{Blank, Ledger};
use step_counter::{NoMemory, Steps};
use tdp_core::{Ranked, Tree};

/// Whether the first items have these rows in the answers, and no other comes.
pub(crate) fn gives_all<E: Ranked, L: Ledger>(
    engine: &mut E,
    expected: &[[u32; 4]],
    steps: &mut Steps<L>,
) -> Result<bool, NoMemory> {
    for rows in expected {
        if !has_rows(engine.next(steps)?, rows) {
            return Ok(false);
        }
    }
    Ok(engine.next(steps)?.is_none())
}

/// The same for the engine by regions, with candidates as long as there are answers.
fn is_emptied<R: Rank, L: Ledger>(
    engine: &mut Part<'_, R, Global>,
    expected: &[[u32; 4]],
    steps: &mut Steps<L>,
) -> Result<bool, NoMemory> {
    let waits = engine.candidates() > 0;
    if !gives_all(engine, expected, steps)? {
        return Ok(false);
    }
    Ok(waits != expected.is_empty() && engine.candidates() == 0)
}

/// The same over a tree.
fn regions_give<R: Rank, L: Ledger>(
    alloc: Global,
    tree: &Tree<R>,
    expected: &[[u32; 4]],
    steps: &mut Steps<L>,
) -> Result<bool, NoMemory>
    requires tie_free { IsTieFreeTree tree.now }
{
    let mut engine = Part::new(alloc, tree, steps)?;
    is_emptied(&mut engine, expected, steps)
}

/// Whether the engine by recursion over the tree, in an arena, returns these answers.
fn recursion_gives<R: Rank, L: Ledger>(
    arena: &Bump,
    tree: &Tree<R>,
    expected: &[[u32; 4]],
    steps: &mut Steps<L>,
) -> Result<bool, NoMemory>
    requires tie_free { IsTieFreeTree tree.now }
{
    let mut engine = Rec::new(arena, tree, steps)?;
    gives_all(&mut engine, expected, steps)
}

/// Whether both engines do.
fn both_give<R: Rank, L: Ledger>(
    alloc: Global,
    tree: &Tree<R>,
    expected: &[[u32; 4]],
    steps: &mut Steps<L>,
) -> Result<bool, NoMemory>
    requires tie_free { IsTieFreeTree tree.now }
{
    if !regions_give(alloc, tree, expected, steps)? {
        return Ok(false);
    }
    let arena = Bump::new(alloc);
    recursion_gives(&arena, tree, expected, steps)
}

/// The same over the plan of the query of this text.
fn gives<R: Rank, L: Ledger>(
    alloc: Global,
    files: Files,
    text: &[u8],
    which: &[u32],
    expected: &[[u32; 4]],
    blank: Blank,
) -> bool
    requires slots { 16 ≤ R.ITEMS }
    requires limit { 2 ^ 127 ≤ R.LIMIT }
    requires few { length which.now ≤ 16 }
    requires known { AllByRecursion (λ t. t < 2) which.now }
    requires name { blank.name ≡ L.name }
    requires parts { blank.parts ≡ L.parts }
    requires share { 0 < L.parts }
{
    let mut steps = Steps::<L>::new(blank);
    let plan: Option<Plan<R>> = plan_of(alloc, files, text, which, &mut steps);
    match plan {
        Some(plan) => both_give(alloc, plan.tree(), expected, &mut steps) == Ok(true),
        None => false,
    }
}

#[test]
fn gives_witnesses_by_their_sums(rt: HostRuntime) {
    let alloc = rt.alloc();
    let text = b"select R.a, S.c from R, S where R.b = S.b order by R.w + S.w";
    let rows = [
        [2, 2, 0, 0],
        [3, 3, 0, 0],
        [3, 1, 0, 0],
        [1, 3, 0, 0],
        [1, 1, 0, 0],
    ];
    assert!(rt; gives::<SumRank, Brand>(alloc, TWO, text, &[0, 1], &rows, Blank::new(1)));
    assert!(rt; gives::<LexRank, Brand>(alloc, TWO, text, &[0, 1], &rows, Blank::new(1)));
}

#[test]
fn gives_witnesses_by_several_keys(rt: HostRuntime) {
    let text = b"select R.a, S.c from R, S where R.b = S.b order by R.w desc, S.w";
    let rows = [
        [1, 3, 0, 0],
        [1, 1, 0, 0],
        [2, 2, 0, 0],
        [3, 3, 0, 0],
        [3, 1, 0, 0],
    ];
    assert!(rt; gives::<LexRank, Brand>(rt.alloc(), TWO, text, &[0, 1], &rows, Blank::new(1)));
}

#[test]
fn gives_ties_by_row_numbers(rt: HostRuntime) {
    let text = b"select a.a, b.a from R a, R b where a.b = b.b";
    let rows = [
        [1, 1, 0, 0],
        [1, 3, 0, 0],
        [2, 2, 0, 0],
        [3, 1, 0, 0],
        [3, 3, 0, 0],
    ];
    assert!(rt; gives::<SumRank, Brand>(rt.alloc(), TWO, text, &[0, 0], &rows, Blank::new(1)));
}

/// Two tables with the same five columns.
const FIVE: Files = (
    "a,b,c,d,e\n1,2,3,4,5\n1,2,3,4,6\n5,4,3,2,1\n",
    "a,b,c,d,e\n5,4,3,2,1\n1,2,3,4,5\n1,2,3,5,5\n1,2,3,4,5\n",
);

#[test]
fn gives_rows_that_agree_in_five_columns(rt: HostRuntime) {
    let text = b"select R.a from R, S where R.a = S.a and R.b = S.b and R.c = S.c \
        and R.d = S.d and R.e = S.e";
    let rows = [[1, 2, 0, 0], [1, 4, 0, 0], [3, 1, 0, 0]];
    assert!(rt; gives::<SumRank, Brand>(rt.alloc(), FIVE, text, &[0, 1], &rows, Blank::new(1)));
}

#[test]
fn gives_all_pairs_without_equalities(rt: HostRuntime) {
    let text = b"select R.a, S.c from R, S";
    let rows = [
        [1, 1, 0, 0],
        [1, 2, 0, 0],
        [1, 3, 0, 0],
        [2, 1, 0, 0],
        [2, 2, 0, 0],
        [2, 3, 0, 0],
        [3, 1, 0, 0],
        [3, 2, 0, 0],
        [3, 3, 0, 0],
    ];
    assert!(rt; gives::<SumRank, Brand>(rt.alloc(), TWO, text, &[0, 1], &rows, Blank::new(1)));
}

#[test]
fn gives_none_where_none_holds(rt: HostRuntime) {
    let alloc = rt.alloc();
    let text = b"select R.a from R where R.b = 'x' and R.b = 'y'";
    assert!(rt; gives::<SumRank, Brand>(alloc, TWO, text, &[0], &[], Blank::new(1)));
    let text = b"select R.a from R where R.b = 'x'";
    let rows = [[1, 0, 0, 0], [3, 0, 0, 0]];
    assert!(rt; gives::<SumRank, Brand>(alloc, TWO, text, &[0], &rows, Blank::new(1)));
}

/// One row of B, of weight 5, is joined with two of A, of weights 3 and 0, and with one of D, of
/// weight 1, which is joined with four of C, of weights 4, 2, 7 and 5.
pub(crate) const OF_FOUR_ITEMS: Files = (
    "k,l,v,w\nx,q,4,3\nx,q,2,0\ny,q,7,0\ny,q,5,0\n",
    "k,l,m,w\nx,n,j,5\nz,q,j,1\n",
);

#[test]
fn gives_answers_of_four_items(rt: HostRuntime) {
    let text =
        b"select A.v from T A, U B, T C, U D where A.k = B.k and B.m = D.m and D.l = C.l order by A.w + B.w + C.v + D.w";
    // the sums 8, 10, 11 twice, 13 twice, 14 and 16
    let rows = [
        [2, 1, 2, 2],
        [2, 1, 1, 2],
        [1, 1, 2, 2],
        [2, 1, 4, 2],
        [1, 1, 1, 2],
        [2, 1, 3, 2],
        [1, 1, 4, 2],
        [1, 1, 3, 2],
    ];
    let which = [0, 1, 0, 1];
    assert!(rt;
        gives::<SumRank, Brand>(
            rt.alloc(),
            OF_FOUR_ITEMS,
            text,
            &which,
            &rows,
            Blank::new(1)
        )
    );
}
