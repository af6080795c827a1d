//! A name as the canonical text writes it.

ghost use Rattle.std.specs.Prelude.{◌≡◌, ◌++◌, IfOk, OnOk};
ghost use Rattle.std.specs.List.{list_all};
ghost use Rattle.query_select.specs.Kinds.{same};
ghost use Rattle.query_select.specs.Tokens.{is_word_byte, kind_of_word};
ghost use Rattle.query_select.specs.Text.{is_bare, name_text_of};

use crate::scanner::{begins_word, word_kind, word_len};
use crate::token::Kind;
use std::alloc::Global;
use step_counter::NoMemory;

/// Whether a word is a name.
fn is_no_keyword(word: &[u8]) -> bool
    ensures { result ≡ same (kind_of_word word.now) Kind.Name }
{
    word_kind(word) == Kind::Name
}

/// Whether all bytes go on a word.
fn go_on_word(bytes: &[u8]) -> bool
    ensures { result ≡ list_all is_word_byte bytes.now }
{
    word_len(bytes) == bytes.len()
}

/// Whether a name can stand without quotes.
fn is_bare_name(name: &[u8]) -> bool
    ensures { result ≡ is_bare name.now }
{
    match name {
        [] => false,
        [first, rest @ ..] => begins_word(*first) && go_on_word(rest) && is_no_keyword(name),
    }
}

/// A name as the canonical text writes it: bare if that is possible, else between quotes.
/// `NoMemory` if memory is refused.
pub fn name_text(alloc: Global, name: &[u8]) -> Result<Vec<u8>, NoMemory>
    ensures { IfOk result (λ v. v.items ≡ name_text_of name.now) }
{
    let mut text = Vec::new(alloc);
    push_name(&mut text, name)?;
    Ok(text)
}

/// Appends a name to a text, as the canonical text writes it. `NoMemory` if memory is refused.
pub fn push_name(text: &mut Vec<u8>, name: &[u8]) -> Result<(), NoMemory>
    ensures { OnOk result (text.new.items ≡ text.old.items ++ name_text_of name.now) }
{
    if is_bare_name(name) {
        text.extend_from_slice(name)?;
        return Ok(());
    }
    text.push(b'"')?;
    text.extend_from_slice(name)?;
    text.push(b'"')?;
    Ok(())
}
