//! Each engine over an arena that refuses each allocation in turn, by itself and under a cursor that
//! is driven.
ghost use Rattle.std.specs.Prelude.{◌≡◌, ◌^◌, ◌<◌, ◌≤◌, length};
ghost use Rattle.std.specs.List.{AllByRecursion};
ghost use Rattle.tdp_core.specs.WellFormed.{IsTieFreeTree};

use crate::fixtures::{Files, TWO, has_rows, plan_of};
use anyk_part::Part;
use anyk_rec::Rec;
use bumpalo::Bump;
use cursor_set::laws::drive;
use cursor_set::{CursorFault, CursorId, Cursors};
use plan_build::Plan;
use rank_key::{Rank, SumRank};
use std::alloc::Global;
use std::marker::Brand;
use std::sync::ledger::{Blank, Ledger};
use step_counter::{NoMemory, Steps};
use tdp_core::{Answer, Ranked, Tree};

/// The least number of bytes of a new chunk of an arena.
const CHUNK: usize = 448;

/// The number of refusals in one call after which the test gives up.
const TRIES: usize = 200;

/// Lets the arena take more memory after each refusal: an engine that was not made leaves what it
/// took in the arena.
fn allow_more(arena: &Bump, refused: usize) {
    let limit = arena.allocation_limit().unwrap_or(0);
    let more = refused.saturating_add(1).saturating_mul(64);
    arena.set_allocation_limit(Some(limit.saturating_add(more)));
}

/// What is called over the arena.
#[derive(Clone, Copy)]
enum Called {
    Regions,
    Recursion,
    CursorOverRegions,
    CursorOverRecursion,
}

const ALL: &[Called] = &[
    Called::Regions,
    Called::Recursion,
    Called::CursorOverRegions,
    Called::CursorOverRecursion,
];

/// The engine by regions over the tree, in an arena that is allowed more memory until it is enough.
fn regions_in<'t, 'a, R: Rank, L: Ledger>(
    arena: &'a Bump,
    tree: &'t Tree<R>,
    steps: &mut Steps<L>,
) -> Result<Part<'t, R, &'a Bump>, NoMemory>
    requires tie_free { IsTieFreeTree tree.now }
{
    for refused in 0..TRIES {
        match Part::new(arena, tree, steps) {
            Ok(engine) => return Ok(engine),
            Err(_) => allow_more(arena, refused),
        }
    }
    Err(NoMemory)
}

/// The same by recursion.
fn recursion_in<'t, 'a, R: Rank, L: Ledger>(
    arena: &'a Bump,
    tree: &'t Tree<R>,
    steps: &mut Steps<L>,
) -> Result<Rec<'t, R, &'a Bump>, NoMemory>
    requires tie_free { IsTieFreeTree tree.now }
{
    for refused in 0..TRIES {
        match Rec::new(arena, tree, steps) {
            Ok(engine) => return Ok(engine),
            Err(_) => allow_more(arena, refused),
        }
    }
    Err(NoMemory)
}

/// The next answer, and how often memory was refused before it came. At first the arena may take no
/// memory.
fn next_in<E: Ranked, L: Ledger>(
    engine: &mut E,
    arena: &Bump,
    steps: &mut Steps<L>,
) -> Result<(Option<Answer<E::Key>>, usize), NoMemory> {
    arena.set_allocation_limit(Some(arena.allocated_bytes()));
    for refused in 0..TRIES {
        match engine.next(steps) {
            Ok(answer) => return Ok((answer, refused)),
            Err(_) => allow_more(arena, refused),
        }
    }
    Err(NoMemory)
}

/// How often memory was refused while the engine returned all its answers, if these are the wanted
/// rows of the first four items.
fn refusals_of_engine<E: Ranked, L: Ledger>(
    engine: &mut E,
    arena: &Bump,
    wanted: &[[u32; 4]],
    steps: &mut Steps<L>,
) -> Result<Option<usize>, NoMemory> {
    let mut refusals: usize = 0;
    for rows in wanted {
        let (answer, refused) = next_in(engine, arena, steps)?;
        refusals = refusals.saturating_add(refused);
        if !has_rows(answer, rows) {
            return Ok(None);
        }
    }
    let (end, _) = next_in(engine, arena, steps)?;
    Ok(if end.is_none() { Some(refusals) } else { None })
}

/// The members of a driven cursor, and how many calls were refused before it met the end. A drive
/// that may be refused twice stops at the third refusal, and tells as many as the set counts. The
/// next one begins at the front again, with more memory.
fn refusals_of_drives<E: Ranked, L: Ledger>(
    cursors: &mut Cursors<E>,
    id: CursorId,
    arena: &Bump,
    steps: &mut Steps<L>,
) -> Result<Option<(u64, u64)>, CursorFault> {
    for tried in 0..TRIES {
        cursors.rewind(id)?;
        let before = cursors.refused();
        let driven = drive(cursors, id, 9, 2, steps);
        let counted = cursors.refused();
        if before.saturating_add(driven.refused) != counted {
            return Ok(None);
        }
        if driven.ended {
            return Ok(Some((driven.given, counted)));
        }
        if driven.refused != 3 {
            return Ok(None);
        }
        allow_more(arena, tried);
    }
    Ok(None)
}

/// Whether the members from the front are the wanted rows.
fn are_members<E: Ranked, L: Ledger>(
    cursors: &mut Cursors<E>,
    id: CursorId,
    wanted: &[[u32; 4]],
    steps: &mut Steps<L>,
) -> Result<bool, CursorFault> {
    cursors.rewind(id)?;
    for rows in wanted {
        let member = cursors.next(id, steps)?;
        if !has_rows(member, rows) {
            return Ok(false);
        }
    }
    Ok(cursors.next(id, steps)?.is_none())
}

/// How many calls of a driven cursor were refused memory, if its members are the wanted rows.
fn refusals_of_cursor<E: Ranked, L: Ledger>(
    cursors: &mut Cursors<E>,
    arena: &Bump,
    wanted: &[[u32; 4]],
    steps: &mut Steps<L>,
) -> Result<Option<usize>, CursorFault> {
    let id = cursors.open()?;
    arena.set_allocation_limit(Some(arena.allocated_bytes()));
    let Some((given, refused)) = refusals_of_drives(cursors, id, arena, steps)? else {
        return Ok(None);
    };
    if given != wanted.len() as u64 || !are_members(cursors, id, wanted, steps)? {
        return Ok(None);
    }
    Ok(Some(refused as usize))
}

/// The same for a set of cursors over the engine.
fn refusals_under<E: Ranked + Drop, L: Ledger>(
    alloc: Global,
    engine: E,
    arena: &Bump,
    wanted: &[[u32; 4]],
    steps: &mut Steps<L>,
) -> Result<Option<usize>, NoMemory> {
    let mut cursors = Cursors::new(alloc, engine);
    match refusals_of_cursor(&mut cursors, arena, wanted, steps) {
        Ok(refusals) => Ok(refusals),
        Err(_) => Err(NoMemory),
    }
}

/// The same for the engine by regions over the tree, under a cursor or by itself.
fn refusals_by_regions<'t, 'a, R: Rank, L: Ledger>(
    alloc: Global,
    arena: &'a Bump,
    tree: &'t Tree<R>,
    under_cursor: bool,
    wanted: &[[u32; 4]],
    steps: &mut Steps<L>,
) -> Result<Option<usize>, NoMemory>
    requires tie_free { IsTieFreeTree tree.now }
{
    let mut engine = regions_in(arena, tree, steps)?;
    if under_cursor {
        return refusals_under(alloc, engine, arena, wanted, steps);
    }
    refusals_of_engine(&mut engine, arena, wanted, steps)
}

/// The same for the engine by recursion.
fn refusals_by_recursion<'t, 'a, R: Rank, L: Ledger>(
    alloc: Global,
    arena: &'a Bump,
    tree: &'t Tree<R>,
    under_cursor: bool,
    wanted: &[[u32; 4]],
    steps: &mut Steps<L>,
) -> Result<Option<usize>, NoMemory>
    requires tie_free { IsTieFreeTree tree.now }
{
    let mut engine = recursion_in(arena, tree, steps)?;
    if under_cursor {
        return refusals_under(alloc, engine, arena, wanted, steps);
    }
    refusals_of_engine(&mut engine, arena, wanted, steps)
}

/// The same for what is called over the arena.
fn refusals_over<'t, 'a, R: Rank, L: Ledger>(
    alloc: Global,
    arena: &'a Bump,
    tree: &'t Tree<R>,
    called: Called,
    wanted: &[[u32; 4]],
    steps: &mut Steps<L>,
) -> Result<Option<usize>, NoMemory>
    requires tie_free { IsTieFreeTree tree.now }
{
    match called {
        Called::Regions => refusals_by_regions(alloc, arena, tree, false, wanted, steps),
        Called::Recursion => refusals_by_recursion(alloc, arena, tree, false, wanted, steps),
        Called::CursorOverRegions => refusals_by_regions(alloc, arena, tree, true, wanted, steps),
        Called::CursorOverRecursion => {
            refusals_by_recursion(alloc, arena, tree, true, wanted, steps)
        }
    }
}

/// The same over an arena from which this many bytes are already taken.
fn refusals_in<R: Rank, L: Ledger>(
    alloc: Global,
    tree: &Tree<R>,
    taken: usize,
    called: Called,
    wanted: &[[u32; 4]],
    steps: &mut Steps<L>,
) -> Result<Option<usize>, NoMemory>
    requires tie_free { IsTieFreeTree tree.now }
{
    let arena = Bump::new(alloc);
    let _filler: Vec<u8, &Bump> = Vec::with_capacity(&arena, taken)?;
    arena.set_allocation_limit(Some(arena.allocated_bytes()));
    refusals_over(alloc, &arena, tree, called, wanted, steps)
}

/// How often memory was refused in all runs, if the wanted rows came in each. What the arena has
/// taken before a run moves the places of the refusals.
fn refusals_in_all<R: Rank, L: Ledger>(
    alloc: Global,
    tree: &Tree<R>,
    called: Called,
    wanted: &[[u32; 4]],
    steps: &mut Steps<L>,
) -> Result<Option<usize>, NoMemory>
    requires tie_free { IsTieFreeTree tree.now }
{
    let mut refusals: usize = 0;
    for eighth in 0..CHUNK / 8 {
        let Some(run) = refusals_in(alloc, tree, 8 * eighth, called, wanted, steps)? else {
            return Ok(None);
        };
        refusals = refusals.saturating_add(run);
    }
    Ok(Some(refusals))
}

/// Whether memory was refused more than 50 times over the plan of the query of this text, and the
/// wanted rows came in each run.
fn comes_back<R: Rank, L: Ledger>(
    alloc: Global,
    files: Files,
    text: &[u8],
    which: &[u32],
    called: Called,
    wanted: &[[u32; 4]],
    blank: Blank,
) -> bool
    requires slots { 16 ≤ R.ITEMS }
    requires limit { 2 ^ 127 ≤ R.LIMIT }
    requires few { length which.now ≤ 16 }
    requires known { AllByRecursion (λ t. t < 2) which.now }
    requires name { blank.name ≡ L.name }
    requires parts { blank.parts ≡ L.parts }
    requires some_part { 0 < blank.parts }
{
    let mut steps = Steps::<L>::new(blank);
    let plan: Option<Plan<R>> = plan_of(alloc, files, text, which, &mut steps);
    let Some(plan) = plan else {
        return false;
    };
    match refusals_in_all(alloc, plan.tree(), called, wanted, &mut steps) {
        Ok(Some(refusals)) => refusals > 50,
        _ => false,
    }
}

#[test]
fn a_join_comes_back_after_each_refusal(rt: HostRuntime) {
    let text = b"select R.a, S.c from R, S where R.b = S.b order by R.w + S.w";
    let wanted = [
        [2, 2, 0, 0],
        [3, 3, 0, 0],
        [3, 1, 0, 0],
        [1, 3, 0, 0],
        [1, 1, 0, 0],
    ];
    for called in ALL {
        let blank = Blank::new(1);
        assert!(rt;
            comes_back::<SumRank, Brand>(rt.alloc(), TWO, text, &[0, 1], *called, &wanted, blank)
        );
    }
}

/// A row of C is joined with each pair of two rows of L, and with the row of C itself.
const OF_A_STAR: Files = ("k,v,w\nz,5,0\n", "k,v,w\nz,1,0\nz,2,0\n");

#[test]
fn a_star_comes_back_after_each_refusal(rt: HostRuntime) {
    let text =
        b"select L1.v, L2.v, L3.v from C, L L1, L L2, C L3 where C.k = L1.k and C.k = L2.k and C.k = L3.k order by L1.w + L2.w + L3.w";
    let wanted = [[1, 1, 1, 1], [1, 1, 2, 1], [1, 2, 1, 1], [1, 2, 2, 1]];
    let which = [0, 1, 1, 0];
    for called in ALL {
        let blank = Blank::new(1);
        assert!(rt;
            comes_back::<SumRank, Brand>(
                rt.alloc(),
                OF_A_STAR,
                text,
                &which,
                *called,
                &wanted,
                blank
            )
        );
    }
}
