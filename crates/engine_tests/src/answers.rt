//! Compares the rows of items 0 to 3 with what an engine returns, and with the solutions of
//! streams.
ghost use Rattle.std.specs.Prelude.{◌<◌, length};
ghost use Rattle.tdp_core.specs.TreeView.{group_count};

use rank_key::Rank;
use std::alloc::Allocator;
use std::sync::ledger::Ledger;
use step_counter::{NoMemory, Steps};
use suffix_streams::Streams;
use tdp_core::Ranked;

/// The rows of all items, if only these four have one.
fn of_four(rows: &[u32; 4]) -> [u32; 16] {
    [
        rows[0], rows[1], rows[2], rows[3], 0, 0, 0, 0, 0, 0, 0, 0, 0, 0, 0, 0,
    ]
}

/// Whether the next answer has these rows.
fn next_has<E: Ranked, L: Ledger>(
    engine: &mut E,
    rows: &[u32; 4],
    steps: &mut Steps<L>,
) -> Result<bool, NoMemory> {
    match engine.next(steps)? {
        Some(answer) => Ok(answer.rows == of_four(rows)),
        None => Ok(false),
    }
}

/// Whether the answers have these rows, and there are no others.
pub(crate) fn gives_all<E: Ranked, L: Ledger>(
    engine: &mut E,
    expected: &[[u32; 4]],
    steps: &mut Steps<L>,
) -> Result<bool, NoMemory> {
    for rows in expected {
        if !next_has(engine, rows, steps)? {
            return Ok(false);
        }
    }
    Ok(engine.next(steps)?.is_none())
}

/// Whether the root has two solutions with these rows, and then no more.
pub(crate) fn links_two<R: Rank, A: Allocator + Clone, L: Ledger>(
    streams: &mut Streams<'_, R, A>,
    expected: &[[u32; 4]; 2],
    steps: &mut Steps<L>,
) -> Result<bool, NoMemory>
    requires root { 0 < length streams.old.tree }
    requires group { 0 < group_count streams.old.tree 0 }
{
    let first = streams.head(0, 0);
    let rows = streams.rows_of(first, steps);
    let Some(second) = streams.after(first, steps)? else {
        return Ok(false);
    };
    Ok(
        rows == of_four(&expected[0])
            && streams.rows_of(second, steps) == of_four(&expected[1])
            && streams.after(second, steps)?.is_none(),
    )
}
