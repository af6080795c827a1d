//! The canonical text.

ghost use Rattle.std.specs.Prelude.{◌≡◌, ◌++◌, ◌∷◌, [], IfOk, OnOk, List, ℕ, ◌≤◌, length};
ghost use Rattle.query_parse.specs.Parse.{IsParsed};
ghost use Rattle.query_parse.specs.ReadBack.{ReadsBack};
ghost use Rattle.query_parse.specs.Text.{doubled, column_text, columns_text, list_text, item_text, items_text, constant_text, side_text, equality_text, where_text, first_term_text, term_text, terms_text, key_text, order_text, limit_text, text_of};

use query_select::push_name;
use query_select::select::{ColumnRef, Equality, ItemRef, KeyRef, Select, SelectList, Side, Term};
use std::alloc::Global;
use step_counter::NoMemory;

/// Appends a column reference.
#[tactic(auto, unfolding(crate::specs::Text::column_text))]
fn push_column(text: &mut Vec<u8>, column: &ColumnRef) -> Result<(), NoMemory>
    ensures { OnOk result (text.new.items ≡ text.old.items ++ column_text column.now) }
{
    if let Some(alias) = &column.alias {
        push_name(text, alias.bytes())?;
        text.push(b'.')?;
    }
    push_name(text, column.column.bytes())
}

/// Appends column references with commas between them.
#[tactic(auto, unfolding(crate::specs::Text::columns_text))]
fn push_columns(text: &mut Vec<u8>, columns: &[ColumnRef]) -> Result<(), NoMemory>
    ensures { OnOk result (text.new.items ≡ text.old.items ++ columns_text columns.now) }
{
    let [first, others @ ..] = columns else {
        return Ok(());
    };
    push_column(text, first)?;
    for column in others {
        text.extend_from_slice(b", ")?;
        push_column(text, column)?;
    }
    Ok(())
}

/// Appends what is selected.
#[tactic(auto, unfolding(crate::specs::Text::list_text))]
fn push_list(text: &mut Vec<u8>, list: &SelectList) -> Result<(), NoMemory>
    ensures { OnOk result (text.new.items ≡ text.old.items ++ list_text list.now) }
{
    match list {
        SelectList::Star => {
            text.extend_from_slice(b"*")?;
            Ok(())
        }
        SelectList::Columns(columns) => push_columns(text, columns.as_slice()),
    }
}

/// Appends an item with its alias.
#[tactic(auto, unfolding(crate::specs::Text::item_text))]
fn push_item(text: &mut Vec<u8>, item: &ItemRef) -> Result<(), NoMemory>
    ensures { OnOk result (text.new.items ≡ text.old.items ++ item_text item.now) }
{
    push_name(text, item.table.bytes())?;
    text.extend_from_slice(b" as ")?;
    push_name(text, item.alias.bytes())
}

/// Appends items with commas between them.
#[tactic(auto, unfolding(crate::specs::Text::items_text))]
fn push_items(text: &mut Vec<u8>, items: &[ItemRef]) -> Result<(), NoMemory>
    ensures { OnOk result (text.new.items ≡ text.old.items ++ items_text items.now) }
{
    let [first, others @ ..] = items else {
        return Ok(());
    };
    push_item(text, first)?;
    for item in others {
        text.extend_from_slice(b", ")?;
        push_item(text, item)?;
    }
    Ok(())
}

/// Appends a byte of a string, a quote as two.
fn push_text_byte(text: &mut Vec<u8>, byte: u8) -> Result<(), NoMemory>
    ensures { OnOk result (text.new.items ≡ text.old.items ++ doubled (byte ∷ [])) }
{
    if byte == b'\'' {
        text.push(byte)?;
    }
    text.push(byte)?;
    Ok(())
}

/// Appends the bytes of a string, each quote as two.
fn push_doubled(text: &mut Vec<u8>, bytes: &[u8]) -> Result<(), NoMemory>
    ensures { OnOk result (text.new.items ≡ text.old.items ++ doubled bytes.now) }
{
    for byte in bytes {
        push_text_byte(text, *byte)?;
    }
    Ok(())
}

/// Appends a constant as a string.
fn push_constant(text: &mut Vec<u8>, bytes: &[u8]) -> Result<(), NoMemory>
    ensures { OnOk result (text.new.items ≡ text.old.items ++ constant_text bytes.now) }
{
    text.push(b'\'')?;
    push_doubled(text, bytes)?;
    text.push(b'\'')?;
    Ok(())
}

/// Appends one side of an equality.
#[tactic(auto, unfolding(crate::specs::Text::side_text))]
fn push_side(text: &mut Vec<u8>, side: &Side) -> Result<(), NoMemory>
    ensures { OnOk result (text.new.items ≡ text.old.items ++ side_text side.now) }
{
    match side {
        Side::Column(column) => push_column(text, column),
        Side::Constant(bytes) => push_constant(text, bytes.bytes()),
    }
}

/// Appends an equality.
#[tactic(auto, unfolding(crate::specs::Text::equality_text))]
fn push_equality(text: &mut Vec<u8>, equality: &Equality) -> Result<(), NoMemory>
    ensures { OnOk result (text.new.items ≡ text.old.items ++ equality_text equality.now) }
{
    push_column(text, &equality.left)?;
    text.extend_from_slice(b" = ")?;
    push_side(text, &equality.right)
}

/// Appends `where` and the equalities, if there are any.
#[tactic(auto, unfolding(crate::specs::Text::where_text))]
fn push_where(text: &mut Vec<u8>, equalities: &[Equality]) -> Result<(), NoMemory>
    ensures { OnOk result (text.new.items ≡ text.old.items ++ where_text equalities.now) }
{
    let [first, others @ ..] = equalities else {
        return Ok(());
    };
    text.extend_from_slice(b" where ")?;
    push_equality(text, first)?;
    for equality in others {
        text.extend_from_slice(b" and ")?;
        push_equality(text, equality)?;
    }
    Ok(())
}

/// Appends the first term of an order key, with its minus.
#[tactic(auto, unfolding(crate::specs::Text::first_term_text))]
fn push_first_term(text: &mut Vec<u8>, term: &Term) -> Result<(), NoMemory>
    ensures { OnOk result (text.new.items ≡ text.old.items ++ first_term_text term.now) }
{
    if term.minus {
        text.extend_from_slice(b"- ")?;
    }
    push_column(text, &term.column)
}

/// Appends a later term of an order key, with its sign.
#[tactic(auto, unfolding(crate::specs::Text::term_text))]
fn push_term(text: &mut Vec<u8>, term: &Term) -> Result<(), NoMemory>
    ensures { OnOk result (text.new.items ≡ text.old.items ++ term_text term.now) }
{
    if term.minus {
        text.extend_from_slice(b" - ")?;
    } else {
        text.extend_from_slice(b" + ")?;
    }
    push_column(text, &term.column)
}

/// Appends the terms of an order key.
#[tactic(auto, unfolding(crate::specs::Text::terms_text))]
fn push_terms(text: &mut Vec<u8>, terms: &[Term]) -> Result<(), NoMemory>
    ensures { OnOk result (text.new.items ≡ text.old.items ++ terms_text terms.now) }
{
    let [first, others @ ..] = terms else {
        return Ok(());
    };
    push_first_term(text, first)?;
    for term in others {
        push_term(text, term)?;
    }
    Ok(())
}

/// Appends an order key with its direction.
#[tactic(auto, unfolding(crate::specs::Text::key_text))]
fn push_key(text: &mut Vec<u8>, key: &KeyRef) -> Result<(), NoMemory>
    ensures { OnOk result (text.new.items ≡ text.old.items ++ key_text key.now) }
{
    push_terms(text, key.terms.as_slice())?;
    if key.descending {
        text.extend_from_slice(b" desc")?;
    }
    Ok(())
}

/// Appends `order by` and the keys, if there are any.
#[tactic(auto, unfolding(crate::specs::Text::order_text))]
fn push_order(text: &mut Vec<u8>, keys: &[KeyRef]) -> Result<(), NoMemory>
    ensures { OnOk result (text.new.items ≡ text.old.items ++ order_text keys.now) }
{
    let [first, others @ ..] = keys else {
        return Ok(());
    };
    text.extend_from_slice(b" order by ")?;
    push_key(text, first)?;
    for key in others {
        text.extend_from_slice(b", ")?;
        push_key(text, key)?;
    }
    Ok(())
}

/// Appends `limit` and its number, if there is one.
#[tactic(auto, unfolding(crate::specs::Text::limit_text))]
fn push_limit(alloc: Global, text: &mut Vec<u8>, limit: Option<u64>) -> Result<(), NoMemory>
    ensures { OnOk result (text.new.items ≡ text.old.items ++ limit_text limit) }
{
    if let Some(limit) = limit {
        let digits = limit.to_string(alloc)?;
        text.extend_from_slice(b" limit ")?;
        text.extend_from_slice(digits.as_bytes())?;
    }
    Ok(())
}

/// The canonical text of a query.
#[tactic(auto, unfolding(crate::specs::Text::text_of))]
fn write_select(alloc: Global, select: &Select) -> Result<Vec<u8>, NoMemory>
    ensures { IfOk result (λ v. v.items ≡ text_of select.now) }
{
    let mut text = Vec::from_slice(alloc, b"select ")?;
    push_list(&mut text, &select.list)?;
    text.extend_from_slice(b" from ")?;
    push_items(&mut text, select.items.as_slice())?;
    push_where(&mut text, select.equalities.as_slice())?;
    push_order(&mut text, select.keys.as_slice())?;
    push_limit(alloc, &mut text, select.limit)?;
    Ok(text)
}

/// The canonical text of a query. Keywords are in lower case. There is one space between tokens,
/// except around `.` and before `,`. Names are bare if that is possible. Each item has its alias,
/// all equalities are in the where list, and constants are strings. There is `desc` but no `asc`,
/// and there is no `;` and no line end. `NoMemory` if memory is refused.
pub fn text(alloc: Global, select: &Select) -> Result<Vec<u8>, NoMemory>
    ensures text { IfOk result (λ v. v.items ≡ text_of select.now) }
    // If the query was read from some bytes, the text is read as that query again, unless it is too
    // long.
    ensures reads_back { IfOk result
        (λ v. (bytes : List ℕ) → IsParsed bytes select.now → length v.items ≤ 65536
        → ReadsBack v.items select.now) }
{
    write_select(alloc, select)
}
