//! From bytes to a query, or to several.

ghost use Rattle.std.specs.Prelude.{◌≡◌, ◌<◌, ◌≤◌, ◌^◌, IfOk, Result, length, nat_lt};
ghost use Rattle.std.specs.List.{AllByRecursion, list_any};
ghost use Rattle.std.specs.Option.{SomeIff};
ghost use Rattle.query_parse.specs.Parse.{decimal, items_in, Agree, LimitNumber, Limits, LimitsAll, Parses, ParsesAll};
ghost use Rattle.query_parse.specs.Reading.{some_lexeme};
ghost use Rattle.query_select.specs.TextOrder.{columns_of, AreInTextOrder, ItemsAreInTextOrder};
ghost use Rattle.query_parse.specs.declared.fault.ParseFault.{ParseFault};
ghost use Rattle.query_select.specs.declared.select.Select.{Select};
ghost use Rattle.query_select.specs.declared.select.SelectAll.{SelectAll};

use crate::fault::ParseFault;
use crate::reader::{ClauseReader, ended, several};
use query_select::select::{Select, SelectAll};
use query_select::sequence::Sequence;
use query_select::{Token, tokens};
use std::alloc::Global;

/// The greatest length of a query, in bytes.
pub const MAX_BYTES: usize = 65536;
/// The greatest number of branches.
pub const MAX_BRANCHES: usize = 8;
/// The greatest number of from-items, of all branches together.
pub const MAX_ITEMS: usize = 16;
/// The greatest number of order keys of a branch.
pub const MAX_KEYS: usize = 8;

/// The value of decimal digits, or `None` if it does not fit.
#[tactic(auto, unfolding(crate::specs::Parse::decimal_from))]
fn number(digits: &[u8]) -> Option<u64>
    ensures { SomeIff result (decimal digits.now < 2 ^ 64) (decimal digits.now) }
{
    let mut value: u64 = 0;
    for digit in digits {
        let digit = u64::from(digit.saturating_sub(b'0'));
        value = value.checked_mul(10)?.checked_add(digit)?;
    }
    Some(value)
}

/// The number of the limit's digits. The error is their offset, if the number does not fit.
fn limit_number(digits: Option<Token<'_>>) -> Result<Option<u64>, u32>
    ensures { LimitNumber (some_lexeme digits.entry) result }
{
    match digits {
        None => Ok(None),
        Some(digits) => match number(digits.body) {
            Some(limit) => Ok(Some(limit)),
            None => Err(digits.at),
        },
    }
}

/// The limit. The error is the first of the limits on a query that is passed.
fn limit(select: &Select, digits: Option<Token<'_>>) -> Result<Option<u64>, ParseFault>
    ensures { Limits select.now (some_lexeme digits.entry) result }
{
    if select.items.as_slice().len() > MAX_ITEMS {
        return Err(ParseFault::TooManyItems);
    }
    if select.keys.as_slice().len() > MAX_KEYS {
        return Err(ParseFault::TooManyKeys);
    }
    match limit_number(digits) {
        Ok(limit) => Ok(limit),
        Err(at) => Err(ParseFault::LimitRange(at)),
    }
}

/// Whether the branches have too many items, all of them together.
fn have_many_items(branches: &[Select]) -> bool
    ensures { result ≡ nat_lt 16 (items_in branches.now) }
{
    let mut spare = MAX_ITEMS;
    for branch in branches {
        let count = branch.items.as_slice().len();
        if count > spare {
            return true;
        }
        spare -= count;
    }
    false
}

/// Whether some branch has too many order keys.
fn have_many_keys(branches: &[Select]) -> bool
    ensures { result ≡ list_any (λ (s : Select). nat_lt 8 (length s.keys)) branches.now }
{
    for branch in branches {
        if branch.keys.as_slice().len() > MAX_KEYS {
            return true;
        }
    }
    false
}

/// The limit of several queries. The error is the first of the limits on them that is passed.
#[tactic(auto, using(crate::proofs::Limited::many_keys_there, crate::proofs::Limited::few_keys_each))]
fn limit_all(branches: &[Select], digits: Option<Token<'_>>) -> Result<Option<u64>, ParseFault>
    ensures { LimitsAll branches.now (some_lexeme digits.entry) result }
{
    if branches.len() > MAX_BRANCHES {
        return Err(ParseFault::TooManyBranches);
    }
    if have_many_items(branches) {
        return Err(ParseFault::TooManyItems);
    }
    if have_many_keys(branches) {
        return Err(ParseFault::TooManyKeys);
    }
    match limit_number(digits) {
        Ok(limit) => Ok(limit),
        Err(at) => Err(ParseFault::LimitRange(at)),
    }
}

/// The query that the bytes write. Each fault is returned exactly if it holds and none before it
/// does, in the order of `ParseFault`. Only `NoMemory` may be returned at any point.
pub fn parse(alloc: Global, bytes: &[u8]) -> Result<Select, ParseFault>
    // Each result is true of the bytes.
    ensures sound { Parses bytes.now result }
    // No other result is true of them, unless memory runs out.
    ensures exact { (other : Result Select ParseFault) → Parses bytes.now other
        → Agree other result }
    // The column references are in the order of the text.
    ensures ordered { IfOk result (λ select. AreInTextOrder (columns_of select)) }
    // So are the from-items.
    ensures items_ordered { IfOk result (λ select. ItemsAreInTextOrder select.items) }
{
    if bytes.len() > MAX_BYTES {
        return Err(ParseFault::TooLong);
    }
    let tokens = tokens(alloc, bytes)?;
    let end = bytes.len() as u32;
    let (mut select, digits) = ended(Select::read(alloc, tokens.as_slice(), end), end)?;
    select.limit = limit(&select, digits)?;
    Ok(select)
}

/// The queries that the bytes write, with `UNION ALL` between them, as the branches of one. The
/// items of all branches are counted together, and the order keys of each branch alone. Each fault
/// is returned exactly if it holds and none before it does, in the order of `ParseFault`. Only
/// `NoMemory` may be returned at any point.
pub fn parse_all(alloc: Global, bytes: &[u8]) -> Result<SelectAll, ParseFault>
    // Each result is true of the bytes.
    ensures sound { ParsesAll bytes.now result }
    // No other result is true of them, unless memory runs out.
    ensures exact { (other : Result SelectAll ParseFault) → ParsesAll bytes.now other
        → Agree other result }
    // The column references of each branch are in the order of the text.
    ensures ordered { IfOk result
        (λ all. AllByRecursion (λ s. AreInTextOrder (columns_of s)) all.branches) }
    // So are its from-items.
    ensures items_ordered { IfOk result
        (λ all. AllByRecursion (λ s. ItemsAreInTextOrder s.items) all.branches) }
    // There is at least one branch.
    ensures some { IfOk result (λ all. 1 ≤ length all.branches) }
    // Each branch has at least one item, and is within the limits on one query.
    ensures filled { IfOk result (λ all.
        AllByRecursion (λ s. (1 ≤ length s.items) × ((length s.items ≤ 16) × (length s.keys ≤ 8)))
        all.branches) }
{
    if bytes.len() > MAX_BYTES {
        return Err(ParseFault::TooLong);
    }
    let tokens = tokens(alloc, bytes)?;
    let end = bytes.len() as u32;
    let (branches, digits) = ended(several(alloc, tokens.as_slice(), end), end)?;
    let limit = limit_all(branches.as_slice(), digits)?;
    let branches = Sequence::from_vec(branches);
    Ok(SelectAll { branches, limit })
}
