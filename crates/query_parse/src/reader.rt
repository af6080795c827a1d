//! Reading the grammar, token by token.

ghost use Rattle.std.specs.Prelude.{◌≡◌, ◌++◌, ◌∷◌, [], Some, None, true, IfOk, Option, List, ℕ};
ghost use Rattle.std.specs.Option.{option_map};
ghost use Rattle.query_select.specs.Lexeme.{Lexeme, lexeme, lexemes};
ghost use Rattle.query_parse.specs.Reading.{Gives, column_of, Added, Made, Follows, Passes, Leads, found, expect_at, optional_at, place_of, column_at, next_column_at, undoubled, undoubled_from, side_at, condition_at, next_condition_at, alias_at, item_at, joined_item_at, next_item_at, put_after, put_next, sign_at, next_term_at, key_at, next_key_at, order_at, limit_at, selection_at, sources_at, branch_at, Ended, next_branch_at, some_lexeme, Read, Next, Steps, several_at, first_term_at};
ghost use Rattle.query_select.specs.declared.select.Side.TheVariants.{Constant};

use crate::fault::ParseFault;
use query_select::name::{Bytes, Identifier};
use query_select::select::{ColumnRef, Equality, ItemRef, KeyRef, Select, SelectList, Side, Term};
use query_select::sequence::Sequence;
use query_select::{Kind, Token};
use std::alloc::{AllocError, Global};
use step_counter::NoMemory;

/// The offset of the next token, or of the query's end.
fn place(tokens: &[Token<'_>], end: u32) -> u32
    ensures { result ≡ place_of end (lexemes tokens.now) }
{
    match tokens {
        [] => end,
        [token, ..] => token.at,
    }
}

/// Reads a token of this kind. `Syntax` at the first token if it is of another kind.
#[tactic(auto, unfolding(crate::specs::Reading::expect_at))]
fn expect<'a, 't>(
    tokens: &'t [Token<'a>],
    end: u32,
    kind: Kind,
) -> Result<(Token<'a>, &'t [Token<'a>]), ParseFault>
    ensures { Gives end (λ x. (lexeme x.0, lexemes x.1.now)) result
        (expect_at kind (lexemes tokens.now)) }
{
    match tokens {
        [token, rest @ ..] if token.kind == kind => Ok((*token, rest)),
        _ => Err(ParseFault::Syntax(place(tokens, end))),
    }
}

/// Reads a token of this kind, if the first token is one.
#[tactic(auto, unfolding(crate::specs::Reading::optional_at))]
fn optional<'a, 't>(tokens: &'t [Token<'a>], kind: Kind) -> (Option<Token<'a>>, &'t [Token<'a>])
    ensures { optional_at kind (lexemes tokens.now) ≡ (some_lexeme result.0, lexemes result.1.now) }
{
    match tokens {
        [token, rest @ ..] if token.kind == kind => (Some(*token), rest),
        _ => (None, tokens),
    }
}

/// The tokens after one of this kind, if the first token is one.
fn after<'a, 't>(tokens: &'t [Token<'a>], kind: Kind) -> Option<&'t [Token<'a>]>
    ensures { Follows (λ r. lexemes r.now) kind (lexemes tokens.now) result }
{
    match tokens {
        [token, rest @ ..] if token.kind == kind => Some(rest),
        _ => None,
    }
}

/// The tokens after one of this kind. `Syntax` at the first token if it is of another kind.
fn skip<'a, 't>(
    tokens: &'t [Token<'a>],
    end: u32,
    kind: Kind,
) -> Result<&'t [Token<'a>], ParseFault>
    ensures { Passes end (λ r. lexemes r.now) kind (lexemes tokens.now) result }
{
    match after(tokens, kind) {
        Some(rest) => Ok(rest),
        None => Err(ParseFault::Syntax(place(tokens, end))),
    }
}

/// Puts what was read after the others of a list, and returns the tokens after it.
fn add<'a, 't, T: Drop>(
    list: &mut Vec<T>,
    read: Result<(T, &'t [Token<'a>]), ParseFault>,
) -> Result<&'t [Token<'a>], ParseFault>
    ensures { Added (λ x. x ∷ []) list.old.items list.new.items read.entry result }
{
    match read {
        Ok((thing, rest)) => {
            list.push(thing)?;
            Ok(rest)
        }
        Err(fault) => Err(fault),
    }
}

/// Puts all that was read after the others of a list, and returns the tokens after it.
fn add_all<'a, 't, T: Drop>(
    list: &mut Vec<T>,
    read: Result<(Vec<T>, &'t [Token<'a>]), ParseFault>,
) -> Result<&'t [Token<'a>], ParseFault>
    ensures { Added (λ v. v.items) list.old.items list.new.items read.entry result }
{
    match read {
        Ok((mut things, rest)) => {
            list.append(&mut things)?;
            Ok(rest)
        }
        Err(fault) => Err(fault),
    }
}

/// What was made of the tokens before these.
fn made<'a, 't, T>(
    thing: Result<T, NoMemory>,
    rest: &'t [Token<'a>],
) -> Result<(T, &'t [Token<'a>]), ParseFault>
    ensures { Made (λ x. x) (λ r. lexemes r.now) thing (lexemes rest.now) result }
{
    match thing {
        Ok(thing) => Ok((thing, rest)),
        Err(error) => Err(ParseFault::from(error)),
    }
}

/// The column of a name, with the alias before it if there is one.
fn column_ref(
    alloc: Global,
    alias: Option<Token<'_>>,
    name: Token<'_>,
) -> Result<ColumnRef, NoMemory>
    ensures { IfOk result (λ c. c ≡ column_of (some_lexeme alias.entry) (lexeme name.entry)) }
{
    match alias {
        None => {
            let column = Identifier::from_slice(alloc, name.body)?;
            Ok(ColumnRef {
                alias: None,
                column,
                at: name.at,
            })
        }
        Some(alias) => {
            let at = alias.at;
            let alias = Some(Identifier::from_slice(alloc, alias.body)?);
            let column = Identifier::from_slice(alloc, name.body)?;
            Ok(ColumnRef { alias, column, at })
        }
    }
}

/// What was read, as something that was found.
fn found<T>(read: Result<T, ParseFault>) -> Result<Option<T>, ParseFault>
    ensures { result ≡ found read }
{
    match read {
        Ok(thing) => Ok(Some(thing)),
        Err(fault) => Err(fault),
    }
}

/// A part of a query that is read by itself.
pub(crate) trait ClauseReader: Drop {
    /// What reading one gives.
    ghost one_at: { List Lexeme → Read Self };

    /// Reads one.
    fn read<'a, 't>(
        alloc: Global,
        tokens: &'t [Token<'a>],
        end: u32,
    ) -> Result<(Self, &'t [Token<'a>]), ParseFault>
        ensures { Gives end (λ x. (x.0, lexemes x.1.now)) result (one_at (lexemes tokens.now)) };
}

/// What a query has lists of, with a sign or a word before each except the first.
pub(crate) trait ListReader: ClauseReader {
    /// What looking for a further one gives.
    ghost next_at: { List Lexeme → Next Self };

    /// Reads what comes before a further one. `None` if there is no further one.
    fn separator<'a, 't>(
        tokens: &'t [Token<'a>],
        end: u32,
    ) -> Result<Option<&'t [Token<'a>]>, ParseFault>
        ensures { Leads end (λ r. lexemes r.now) Self.one_at (next_at (lexemes tokens.now))
            result };
}

/// Reads a thing and all further ones.
pub(crate) fn several<'a, 't, T: ListReader>(
    alloc: Global,
    tokens: &'t [Token<'a>],
    end: u32,
) -> Result<(Vec<T>, &'t [Token<'a>]), ParseFault>
    requires { Steps T.next_at }
    ensures { Gives end (λ x. (x.0.items, lexemes x.1.now)) result
        (several_at T.one_at T.next_at (lexemes tokens.now)) }
{
    let mut list = Vec::new(alloc);
    let mut rest = add(&mut list, T::read(alloc, tokens, end))?;
    while let Some(after) = T::separator(rest, end)? {
        rest = add(&mut list, T::read(alloc, after, end))?;
    }
    Ok((list, rest))
}

impl ClauseReader for ColumnRef {
    ghost one_at = { column_at };

    #[tactic(auto, unfolding(crate::specs::Reading::column_at))]
    fn read<'a, 't>(
        alloc: Global,
        tokens: &'t [Token<'a>],
        end: u32,
    ) -> Result<(ColumnRef, &'t [Token<'a>]), ParseFault> {
        let (first, rest) = expect(tokens, end, Kind::Name)?;
        let Some(rest) = after(rest, Kind::Dot) else {
            return made(column_ref(alloc, None, first), rest);
        };
        let (second, rest) = expect(rest, end, Kind::Name)?;
        made(column_ref(alloc, Some(first), second), rest)
    }
}

/// Column references with commas between them.
impl ListReader for ColumnRef {
    ghost next_at = { next_column_at };

    #[tactic(auto, unfolding(crate::specs::Reading::next_column_at))]
    fn separator<'a, 't>(
        tokens: &'t [Token<'a>],
        _end: u32,
    ) -> Result<Option<&'t [Token<'a>]>, ParseFault> {
        Ok(after(tokens, Kind::Comma))
    }
}

impl ClauseReader for Equality {
    ghost one_at = { condition_at };

    #[tactic(auto, unfolding(crate::specs::Reading::condition_at))]
    fn read<'a, 't>(
        alloc: Global,
        tokens: &'t [Token<'a>],
        end: u32,
    ) -> Result<(Equality, &'t [Token<'a>]), ParseFault> {
        let (left, rest) = side(alloc, tokens, end)?;
        let rest = skip(rest, end, Kind::Equals)?;
        match left {
            Side::Column(left) => match side(alloc, rest, end) {
                Ok((right, rest)) => Ok((Equality { left, right }, rest)),
                Err(fault) => Err(fault),
            },
            Side::Constant(bytes) => match ColumnRef::read(alloc, rest, end) {
                Ok((left, rest)) => {
                    let right = Side::Constant(bytes);
                    Ok((Equality { left, right }, rest))
                }
                Err(fault) => Err(fault),
            },
        }
    }
}

/// Conditions with `and` between them.
impl ListReader for Equality {
    ghost next_at = { next_condition_at };

    #[tactic(auto, unfolding(crate::specs::Reading::next_condition_at))]
    fn separator<'a, 't>(
        tokens: &'t [Token<'a>],
        _end: u32,
    ) -> Result<Option<&'t [Token<'a>]>, ParseFault> {
        Ok(after(tokens, Kind::And))
    }
}

impl ClauseReader for Term {
    ghost one_at = { first_term_at };

    #[tactic(auto, unfolding(crate::specs::Reading::term_at))]
    fn read<'a, 't>(
        alloc: Global,
        tokens: &'t [Token<'a>],
        end: u32,
    ) -> Result<(Term, &'t [Token<'a>]), ParseFault> {
        let (minus, rest) = sign(tokens);
        let minus = minus.unwrap_or(false);
        let (column, rest) = ColumnRef::read(alloc, rest, end)?;
        Ok((Term { minus, column }, rest))
    }
}

/// The columns of an order key, with their signs. The first may have none.
impl ListReader for Term {
    ghost next_at = { next_term_at };

    #[tactic(auto, unfolding(crate::specs::Reading::next_term_at))]
    fn separator<'a, 't>(
        tokens: &'t [Token<'a>],
        _end: u32,
    ) -> Result<Option<&'t [Token<'a>]>, ParseFault> {
        match sign(tokens) {
            (Some(_), _) => Ok(Some(tokens)),
            (None, _) => Ok(None),
        }
    }
}

impl ClauseReader for KeyRef {
    ghost one_at = { key_at };

    #[tactic(auto, unfolding(crate::specs::Reading::key_at, crate::specs::Reading::terms_at, crate::specs::Reading::direction_at))]
    fn read<'a, 't>(
        alloc: Global,
        tokens: &'t [Token<'a>],
        end: u32,
    ) -> Result<(KeyRef, &'t [Token<'a>]), ParseFault> {
        let (terms, rest) = several(alloc, tokens, end)?;
        let terms = Sequence::from_vec(terms);
        if let Some(rest) = after(rest, Kind::Desc) {
            let descending = true;
            return Ok((KeyRef { terms, descending }, rest));
        }
        let (_, rest) = optional(rest, Kind::Asc);
        let descending = false;
        Ok((KeyRef { terms, descending }, rest))
    }
}

/// Order keys with commas between them.
impl ListReader for KeyRef {
    ghost next_at = { next_key_at };

    #[tactic(auto, unfolding(crate::specs::Reading::next_key_at))]
    fn separator<'a, 't>(
        tokens: &'t [Token<'a>],
        _end: u32,
    ) -> Result<Option<&'t [Token<'a>]>, ParseFault> {
        Ok(after(tokens, Kind::Comma))
    }
}

impl ClauseReader for Select {
    ghost one_at = { branch_at };

    #[tactic(auto, unfolding(crate::specs::Reading::branch_at))]
    fn read<'a, 't>(
        alloc: Global,
        tokens: &'t [Token<'a>],
        end: u32,
    ) -> Result<(Select, &'t [Token<'a>]), ParseFault> {
        let (list, rest) = selection(alloc, tokens, end)?;
        let items = Vec::new(alloc);
        let on = Vec::new(alloc);
        let mut found = FromItems { items, on };
        let rest = found.read_all(alloc, rest, end)?;
        match order_clause(alloc, rest, end) {
            Ok((keys, rest)) => {
                let FromItems { items, on } = found;
                let select = Select {
                    list,
                    items: Sequence::from_vec(items),
                    equalities: Sequence::from_vec(on),
                    keys: Sequence::from_vec(keys),
                    limit: None,
                };
                Ok((select, rest))
            }
            Err(fault) => Err(fault),
        }
    }
}

/// Queries up to their order keys, without their limits, with `union all` between them.
impl ListReader for Select {
    ghost next_at = { next_branch_at true };

    #[tactic(auto, unfolding(crate::specs::Reading::next_branch_at))]
    fn separator<'a, 't>(
        tokens: &'t [Token<'a>],
        end: u32,
    ) -> Result<Option<&'t [Token<'a>]>, ParseFault> {
        let Some(rest) = after(tokens, Kind::Union) else {
            return Ok(None);
        };
        found(skip(rest, end, Kind::All))
    }
}

/// Copies a byte of a string, except for the second quote of two. Returns whether the byte is the
/// first of two quotes.
#[tactic(auto, unfolding(crate::specs::Reading::undoubled_from))]
fn push_undoubled(bytes: &mut Vec<u8>, byte: u8, second: bool) -> Result<bool, AllocError>
    ensures { IfOk result
        (λ next. (rest : List ℕ)
        → bytes.new.items ++ undoubled_from next rest
        ≡ bytes.old.items ++ undoubled_from second (byte ∷ rest)) }
{
    let is_quote = byte == b'\'';
    if is_quote && second {
        return Ok(false);
    }
    bytes.push(byte)?;
    Ok(is_quote)
}

/// The bytes that a string stands for, with each two quotes as one.
#[tactic(auto, unfolding(crate::specs::Reading::undoubled_from))]
fn undoubled_text(alloc: Global, body: &[u8]) -> Result<Vec<u8>, AllocError>
    ensures { IfOk result (λ v. v.items ≡ undoubled body.now) }
{
    let mut bytes = Vec::new(alloc);
    let mut second = false;
    for byte in body {
        second = push_undoubled(&mut bytes, *byte, second)?;
    }
    Ok(bytes)
}

/// The digits with a minus before them.
fn negative(alloc: Global, digits: &[u8]) -> Result<Vec<u8>, AllocError>
    ensures { IfOk result (λ v. v.items ≡ 45 ∷ digits.now) }
{
    let mut bytes = Vec::new(alloc);
    bytes.push(b'-')?;
    bytes.extend_from_slice(digits)?;
    Ok(bytes)
}

/// A constant of these bytes.
fn constant<'a, 't>(
    bytes: Result<Vec<u8>, AllocError>,
    rest: &'t [Token<'a>],
) -> Result<(Side, &'t [Token<'a>]), ParseFault>
    ensures { Made (λ v. Constant v.items) (λ r. lexemes r.now) bytes (lexemes rest.now) result }
{
    match bytes {
        Ok(bytes) => Ok((Side::Constant(Bytes::from_vec(bytes)), rest)),
        Err(error) => Err(ParseFault::from(error)),
    }
}

/// Reads one side of a condition: a column or a constant.
#[tactic(auto, unfolding(crate::specs::Reading::side_at))]
fn side<'a, 't>(
    alloc: Global,
    tokens: &'t [Token<'a>],
    end: u32,
) -> Result<(Side, &'t [Token<'a>]), ParseFault>
    ensures { Gives end (λ x. (x.0, lexemes x.1.now)) result (side_at (lexemes tokens.now)) }
{
    if let (Some(text), rest) = optional(tokens, Kind::Text) {
        return constant(undoubled_text(alloc, text.body), rest);
    }
    if let Some(rest) = after(tokens, Kind::Minus) {
        let (digits, rest) = expect(rest, end, Kind::Digits)?;
        return constant(negative(alloc, digits.body), rest);
    }
    if let (Some(digits), rest) = optional(tokens, Kind::Digits) {
        return constant(Vec::from_slice(alloc, digits.body), rest);
    }
    match ColumnRef::read(alloc, tokens, end) {
        Ok((column, rest)) => Ok((Side::Column(column), rest)),
        Err(fault) => Err(fault),
    }
}

/// Reads a table and its alias.
#[tactic(auto, unfolding(crate::specs::Reading::item_at))]
fn item<'a, 't>(
    alloc: Global,
    tokens: &'t [Token<'a>],
    end: u32,
) -> Result<(ItemRef, &'t [Token<'a>]), ParseFault>
    ensures { Gives end (λ x. (x.0, lexemes x.1.now)) result (item_at (lexemes tokens.now)) }
{
    let (table, rest) = expect(tokens, end, Kind::Name)?;
    let at = table.at;
    let (alias, rest) = alias(rest, end, table)?;
    let table = Identifier::from_slice(alloc, table.body)?;
    let alias = Identifier::from_slice(alloc, alias.body)?;
    Ok((ItemRef { table, alias, at }, rest))
}

/// The alias after a table, or the table's own name.
fn alias<'a, 't>(
    tokens: &'t [Token<'a>],
    end: u32,
    table: Token<'a>,
) -> Result<(Token<'a>, &'t [Token<'a>]), ParseFault>
    ensures { Gives end (λ x. (lexeme x.0, lexemes x.1.now)) result
        (alias_at (lexeme table.entry) (lexemes tokens.now)) }
{
    if let Some(rest) = after(tokens, Kind::As) {
        return expect(rest, end, Kind::Name);
    }
    if let (Some(alias), rest) = optional(tokens, Kind::Name) {
        return Ok((alias, rest));
    }
    Ok((table, tokens))
}

/// The from-items, and the equalities of their ON.
#[derive(Drop)]
struct FromItems {
    items: Vec<ItemRef>,
    on: Vec<Equality>,
}

impl FromItems {
    /// Reads an item, `on` and its conditions, and puts them after the others.
    #[tactic(auto, unfolding(crate::specs::Reading::joined_item_at, crate::specs::Reading::conditions_at))]
    fn read_joined<'a, 't>(
        &mut self,
        alloc: Global,
        tokens: &'t [Token<'a>],
        end: u32,
    ) -> Result<&'t [Token<'a>], ParseFault>
        ensures { Gives end (λ x. ((self.new.items.items, self.new.on.items), lexemes x.now)) result
            (put_after (self.old.items.items, self.old.on.items)
            (joined_item_at (lexemes tokens.now))) }
    {
        let rest = add(&mut self.items, item(alloc, tokens, end))?;
        let rest = skip(rest, end, Kind::On)?;
        add_all(&mut self.on, several(alloc, rest, end))
    }

    /// Reads a further item, if a comma or a `join` comes before it, and puts it after the others.
    #[tactic(auto, using(crate::proofs::Putting::found_put), unfolding(crate::specs::Reading::next_item_at, crate::specs::Reading::inner_item_at))]
    fn read_next<'a, 't>(
        &mut self,
        alloc: Global,
        tokens: &'t [Token<'a>],
        end: u32,
    ) -> Result<Option<&'t [Token<'a>]>, ParseFault>
        ensures { Gives end
            (λ x. ((self.new.items.items, self.new.on.items), option_map (λ r. lexemes r.now) x))
            result
            (put_next (self.old.items.items, self.old.on.items)
            (next_item_at (lexemes tokens.now))) }
    {
        if let Some(rest) = after(tokens, Kind::Comma) {
            return found(add(&mut self.items, item(alloc, rest, end)));
        }
        if let Some(rest) = after(tokens, Kind::Inner) {
            let rest = skip(rest, end, Kind::Join)?;
            return found(self.read_joined(alloc, rest, end));
        }
        if let Some(rest) = after(tokens, Kind::Join) {
            return found(self.read_joined(alloc, rest, end));
        }
        Ok(None)
    }

    /// Reads `from`, the items and the `where`. The conditions of the `where` come after those of
    /// the joins.
    #[tactic(auto, unfolding(crate::specs::Reading::sources_at))]
    fn read_all<'a, 't>(
        &mut self,
        alloc: Global,
        tokens: &'t [Token<'a>],
        end: u32,
    ) -> Result<&'t [Token<'a>], ParseFault>
        requires no_items { self.old.items.items ≡ [] }
        requires no_conditions { self.old.on.items ≡ [] }
        ensures { Gives end (λ x. ((self.new.items.items, self.new.on.items), lexemes x.now)) result
            (sources_at (lexemes tokens.now)) }
    {
        let rest = skip(tokens, end, Kind::From)?;
        let mut rest = add(&mut self.items, item(alloc, rest, end))?;
        while let Some(after) = self.read_next(alloc, rest, end)? {
            rest = after;
        }
        match after(rest, Kind::Where) {
            Some(rest) => add_all(&mut self.on, several(alloc, rest, end)),
            None => Ok(rest),
        }
    }
}

/// Whether there is a sign, and whether it is a minus.
#[tactic(auto, unfolding(crate::specs::Reading::sign_at))]
fn sign<'a, 't>(tokens: &'t [Token<'a>]) -> (Option<bool>, &'t [Token<'a>])
    ensures { sign_at (lexemes tokens.now) ≡ (result.0, lexemes result.1.now) }
{
    if let Some(rest) = after(tokens, Kind::Minus) {
        return (Some(true), rest);
    }
    if let Some(rest) = after(tokens, Kind::Plus) {
        return (Some(false), rest);
    }
    (None, tokens)
}

/// Reads `order by` and its keys, if there is an `order`.
#[tactic(auto, unfolding(crate::specs::Reading::order_at, crate::specs::Reading::keys_at))]
fn order_clause<'a, 't>(
    alloc: Global,
    tokens: &'t [Token<'a>],
    end: u32,
) -> Result<(Vec<KeyRef>, &'t [Token<'a>]), ParseFault>
    ensures { Gives end (λ x. (x.0.items, lexemes x.1.now)) result (order_at (lexemes tokens.now)) }
{
    let Some(rest) = after(tokens, Kind::Order) else {
        return Ok((Vec::new(alloc), tokens));
    };
    let rest = skip(rest, end, Kind::By)?;
    several(alloc, rest, end)
}

/// Reads `limit` and its digits, if there is a `limit`.
#[tactic(auto, unfolding(crate::specs::Reading::limit_at))]
fn limit_clause<'a, 't>(
    tokens: &'t [Token<'a>],
    end: u32,
) -> Result<(Option<Token<'a>>, &'t [Token<'a>]), ParseFault>
    ensures { Gives end (λ x. (some_lexeme x.0, lexemes x.1.now)) result
        (limit_at (lexemes tokens.now)) }
{
    let Some(rest) = after(tokens, Kind::Limit) else {
        return Ok((None, tokens));
    };
    match expect(rest, end, Kind::Digits) {
        Ok((digits, rest)) => Ok((Some(digits), rest)),
        Err(fault) => Err(fault),
    }
}

/// Reads `select`, and what is selected: `*`, or column references.
#[tactic(auto, unfolding(crate::specs::Reading::selection_at, crate::specs::Reading::list_at, crate::specs::Reading::columns_at))]
fn selection<'a, 't>(
    alloc: Global,
    tokens: &'t [Token<'a>],
    end: u32,
) -> Result<(SelectList, &'t [Token<'a>]), ParseFault>
    ensures { Gives end (λ x. (x.0, lexemes x.1.now)) result (selection_at (lexemes tokens.now)) }
{
    let tokens = skip(tokens, end, Kind::Select)?;
    if let Some(rest) = after(tokens, Kind::Star) {
        return Ok((SelectList::Star, rest));
    }
    match several(alloc, tokens, end) {
        Ok((columns, rest)) => Ok((SelectList::Columns(Sequence::from_vec(columns)), rest)),
        Err(fault) => Err(fault),
    }
}

/// What was read, with the limit's digits after it. Nothing but a `;` may be left after them.
#[tactic(auto, unfolding(crate::specs::Reading::finish_at))]
pub(crate) fn ended<'a, 't, T: Drop>(
    read: Result<(T, &'t [Token<'a>]), ParseFault>,
    end: u32,
) -> Result<(T, Option<Token<'a>>), ParseFault>
    ensures { Ended end (λ r. lexemes r.now) some_lexeme read.entry result }
{
    let (thing, rest) = read?;
    let (digits, rest) = limit_clause(rest, end)?;
    let (_, rest) = optional(rest, Kind::Semicolon);
    if rest.is_empty() {
        Ok((thing, digits))
    } else {
        Err(ParseFault::Syntax(place(rest, end)))
    }
}
