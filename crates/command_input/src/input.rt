//! The stages of loading, one after another.
ghost use Rattle.std.specs.Prelude.{◌≡◌, None, false, IfErr, IfOk, length};
ghost use Rattle.refusals.specs.RefusalReasons.{reason_of};
ghost use Rattle.verdict.specs.Loading.{SideInput as SideInputView};
ghost use Rattle.verdict.specs.StageResults.{Staged, TellsOne, shelved};
ghost use Rattle.verdict.specs.Verdict.{IsAccompanied, IsLoadedOn, IsSelected};
ghost use Rattle.verdict.specs.Words.{IsNamed};
ghost use Rattle.command_input.specs.Limits.{AreWithinLimits};
ghost use Rattle.command_input.specs.StageViews.{input_result_view};
ghost use Rattle.command_input.specs.InputFiles.{sought_view};
ghost use Rattle.command_input.specs.FilesRead.{IsAccompaniedTurn, IsSelectedTurn, IsTurn};
ghost use Rattle.command_input.specs.BoundInputs.{IsWhole, bound_result_view};

use crate::binding::{BoundInput, Input, bound_to};
use crate::file::load;
use crate::input_files::InputFiles;
use crate::query::{parse_refusal, read_selects};
use crate::side_input::read_side_input;
use crate::table_uses::uses_of;
use crate::tables::read_tables;
use hash_keys::Keys;
use outer_io::Shelf;
use query_select::select::Select;
use refusals::Refusal;
use std::alloc::Global;

/// The input that is in the query file, in the file of the script or of the certificate, if there
/// is one, and in the tables' files, or its first refusal. The tables are hashed with these keys.
pub fn read_files<'a, F: Shelf>(
    alloc: Global,
    sought: &InputFiles<'a>,
    shelf: &mut F,
    keys: Keys,
) -> Result<Input, Refusal<'a>>
    ensures staged { let asked = sought_view sought.now in
        Staged (IsLoadedOn asked) (IsTurn asked)
        (shelved F.Shelf shelf.old) (shelved F.Shelf shelf.new) (input_result_view result) }
    ensures tells { IfErr result
        (λ refusal. TellsOne (IsNamed (sought_view sought.now)) (reason_of refusal)) }
    // If several branches are not allowed, there is one query, and if no item is named, there is
    // none.
    ensures alone { sought.now.several ≡ false → IfOk result (λ input. length input.queries ≡ 1) }
    ensures unnamed { sought.now.best_of ≡ None → IfOk result (λ input. input.best ≡ None) }
{
    let bytes = load(alloc, shelf, sought.query)?;
    match read_selects(alloc, sought.several, &bytes) {
        Ok(selects) => select_input(alloc, sought, &selects, shelf, keys),
        Err(fault) => Err(parse_refusal(fault)),
    }
}

/// The stages after the query, or each of its branches, was parsed.
fn select_input<'a, F: Shelf>(
    alloc: Global,
    sought: &InputFiles<'a>,
    selects: &[Select],
    shelf: &mut F,
    keys: Keys,
) -> Result<Input, Refusal<'a>>
    requires { AreWithinLimits selects.now }
    ensures staged { let asked = sought_view sought.now in
        Staged (λ files. IsAccompanied asked files selects.now)
        (λ files. IsAccompaniedTurn asked files selects.now)
        (shelved F.Shelf shelf.old) (shelved F.Shelf shelf.new) (input_result_view result) }
    ensures tells { IfErr result
        (λ refusal. TellsOne (IsNamed (sought_view sought.now)) (reason_of refusal)) }
    ensures branches { IfOk result (λ input. length input.queries ≡ length selects.now) }
    ensures unnamed { sought.now.best_of ≡ None → IfOk result (λ input. input.best ≡ None) }
{
    let beside = read_side_input(alloc, sought.aside, shelf)?;
    let bound = load_bound(alloc, sought, selects, shelf, keys)?;
    Ok(Input {
        queries: bound.queries,
        tables: bound.tables,
        best: bound.best,
        script: beside.script,
        proof: beside.proof,
    })
}

/// The stages after the script or the certificate was read, on which they do not depend.
fn load_bound<'a, F: Shelf>(
    alloc: Global,
    sought: &InputFiles<'a>,
    selects: &[Select],
    shelf: &mut F,
    keys: Keys,
) -> Result<BoundInput, Refusal<'a>>
    requires { AreWithinLimits selects.now }
    ensures staged { let asked = sought_view sought.now in (beside : SideInputView)
        → Staged (λ files. IsSelected asked files selects.now beside)
        (λ files. IsSelectedTurn asked files selects.now)
        (shelved F.Shelf shelf.old) (shelved F.Shelf shelf.new) (bound_result_view beside result) }
    ensures tells { IfErr result
        (λ refusal. TellsOne (IsNamed (sought_view sought.now)) (reason_of refusal)) }
    ensures whole { IfOk result IsWhole }
    ensures branches { IfOk result (λ bound. length bound.queries.items ≡ length selects.now) }
    ensures unnamed { sought.now.best_of ≡ None → IfOk result (λ bound. bound.best ≡ None) }
{
    let uses = uses_of(alloc, sought.named, selects)?;
    let tables = read_tables(alloc, &uses.firsts, shelf, keys)?;
    bound_to(alloc, sought, selects, tables, &uses.numbers)
}
