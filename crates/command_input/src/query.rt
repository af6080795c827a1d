//! The query of the query file, or its branches.
ghost use Rattle.std.specs.Prelude.{◌≡◌, false, IfOk, length, map};
ghost use Rattle.refusals.specs.RefusalReasons.{reason_of};
ghost use Rattle.verdict.specs.Faults.{of_parse};
ghost use Rattle.verdict.specs.Loading.{IsReading, branches_of};
ghost use Rattle.verdict.specs.StageResults.{Pure};
ghost use Rattle.command_input.specs.Limits.{AreWithinLimits, limited};
ghost use Rattle.command_input.specs.StageViews.{selects_result_view};

use query_parse::fault::ParseFault;
use query_parse::{parse, parse_all};
use query_select::select::{Select, SelectAll};
use refusals::Refusal;
use std::alloc::Global;

/// The query that these bytes write, or its branches if it may have several.
pub(crate) fn read_selects(
    alloc: Global,
    several: bool,
    bytes: &[u8],
) -> Result<Vec<Select>, ParseFault>
    ensures parsed { Pure (IsReading several bytes.now) (selects_result_view result) }
    ensures limits { IfOk result (λ selects. AreWithinLimits selects.items) }
    // If several branches are not allowed, there is one.
    ensures alone { several ≡ false → IfOk result (λ selects. length selects.items ≡ 1) }
{
    if several {
        let all = parse_all(alloc, bytes)?;
        return Ok(with_limit(all));
    }
    let select = parse(alloc, bytes)?;
    let mut selects = Vec::new(alloc);
    selects.push(select)?;
    Ok(selects)
}

/// The branches, each with the limit of the whole.
fn with_limit(all: SelectAll) -> Vec<Select>
    ensures { result.items ≡ branches_of all }
{
    let SelectAll { branches, limit } = all;
    let mut selects = branches.into_vec();
    set_limits(selects.as_mut_slice(), limit);
    selects
}

/// Gives each select this limit.
fn set_limits(selects: &mut [Select], limit: Option<u64>)
    ensures { selects.new ≡ map (limited limit) selects.old }
{
    for select in selects.iter_mut() {
        select.limit = limit;
    }
}

/// The refusal for a fault of a query's text.
pub(crate) fn parse_refusal<'a>(fault: ParseFault) -> Refusal<'a>
    ensures { reason_of result ≡ of_parse fault }
{
    match fault {
        ParseFault::TooLong => Refusal::TooLong,
        ParseFault::Syntax(at) => Refusal::Syntax(at),
        ParseFault::TooManyBranches => Refusal::TooManyBranches,
        ParseFault::TooManyItems => Refusal::TooManyItems,
        ParseFault::TooManyKeys => Refusal::TooManyKeys,
        ParseFault::LimitRange(at) => Refusal::LimitRange(at),
        ParseFault::NoMemory => Refusal::NoMemory,
    }
}
