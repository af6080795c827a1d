//! A cursor driven over each engine, on the plan of two tables.
ghost use Rattle.std.specs.Prelude.{◌≡◌, ◌≤◌, ◌^◌, ◌<◌};
ghost use Rattle.tdp_core.specs.WellFormed.{IsTieFreeTree};

use crate::fixtures::{TWO, plan_of};
use anyk_part::Part;
use anyk_rec::Rec;
use bumpalo::Bump;
use cursor_set::laws::{Driven, drive};
use cursor_set::{CursorFault, Cursors};
use plan_build::Plan;
use rank_key::{Rank, SumRank};
use std::alloc::Global;
use std::marker::Brand;
use std::sync::ledger::{Blank, Ledger};
use step_counter::{NoMemory, Steps};
use tdp_core::{Ranked, Tree};

const WHOLE: Driven = Driven {
    given: 5,
    refused: 0,
    ended: true,
};

/// Whether 9 members take a cursor to the end, and again from the start.
fn is_driven_twice<E: Ranked, L: Ledger>(
    cursors: &mut Cursors<E>,
    steps: &mut Steps<L>,
) -> Result<bool, CursorFault> {
    let id = cursors.open()?;
    if drive(cursors, id, 9, 0, steps) != WHOLE {
        return Ok(false);
    }
    cursors.rewind(id)?;
    Ok(drive(cursors, id, 9, 0, steps) == WHOLE)
}

/// The same for a cursor over an engine.
fn drives<E: Ranked + Drop, L: Ledger>(alloc: Global, engine: E, steps: &mut Steps<L>) -> bool {
    let mut cursors = Cursors::new(alloc, engine);
    is_driven_twice(&mut cursors, steps) == Ok(true)
}

/// The same for the engine by regions over the tree.
fn regions_drive<R: Rank, L: Ledger>(
    alloc: Global,
    tree: &Tree<R>,
    steps: &mut Steps<L>,
) -> Result<bool, NoMemory>
    requires tie_free { IsTieFreeTree tree.now }
{
    let engine = Part::new(alloc, tree, steps)?;
    Ok(drives(alloc, engine, steps))
}

/// The same for the engine by recursion over the tree, in an arena.
fn recursion_drives<R: Rank, L: Ledger>(
    alloc: Global,
    arena: &Bump,
    tree: &Tree<R>,
    steps: &mut Steps<L>,
) -> Result<bool, NoMemory>
    requires tie_free { IsTieFreeTree tree.now }
{
    let engine = Rec::new(arena, tree, steps)?;
    Ok(drives(alloc, engine, steps))
}

/// The same for both engines.
fn both_drive<R: Rank, L: Ledger>(
    alloc: Global,
    tree: &Tree<R>,
    steps: &mut Steps<L>,
) -> Result<bool, NoMemory>
    requires tie_free { IsTieFreeTree tree.now }
{
    if !regions_drive(alloc, tree, steps)? {
        return Ok(false);
    }
    let arena = Bump::new(alloc);
    recursion_drives(alloc, &arena, tree, steps)
}

/// Both engines over the plan of R and S.
fn both_drive_over_two_tables<R: Rank, L: Ledger>(alloc: Global, blank: Blank) -> bool
    requires slots { 16 ≤ R.ITEMS }
    requires limit { 2 ^ 127 ≤ R.LIMIT }
    requires name { blank.name ≡ L.name }
    requires parts { blank.parts ≡ L.parts }
    requires some_part { 0 < blank.parts }
{
    let text = b"select R.a, S.c from R, S where R.b = S.b order by R.w + S.w";
    let mut steps = Steps::<L>::new(blank);
    let plan: Option<Plan<R>> = plan_of(alloc, TWO, text, &[0, 1], &mut steps);
    match plan {
        Some(plan) => both_drive(alloc, plan.tree(), &mut steps) == Ok(true),
        None => false,
    }
}

#[test]
fn each_engine_is_driven_to_its_end_and_from_the_front_again(rt: HostRuntime) {
    assert!(rt; both_drive_over_two_tables::<SumRank, Brand>(rt.alloc(), Blank::new(1)));
}
