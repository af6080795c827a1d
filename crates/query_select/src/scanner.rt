//! The tokens of a query's bytes.

ghost use Rattle.std.specs.Prelude.{◌≡◌, ◌<◌, ◌≤◌, ◌++◌, length, take, map, IfOk, IfSome, ℕ, Some, None, ◌==◌, ◌∷◌};
ghost use Rattle.std.specs.List.{prefix_len, position};
ghost use Rattle.std.specs.Str.{bytes_eq};
ghost use Rattle.std.specs.Char.{is_ascii_digit, to_ascii_lowercase};
ghost use Rattle.query_select.specs.Keywords.{kind_among};
ghost use Rattle.query_select.specs.Lexeme.{lexemes};
ghost use Rattle.query_select.specs.Scans.{scan_view};
ghost use Rattle.query_select.specs.Tokens.{is_blank, is_letter, is_word_byte, kind_of_word, kind_of_sign, closing, scan_of, quoted_scan, tokens_of};

use crate::token::{Kind, Token};
use std::alloc::Global;
use step_counter::NoMemory;

/// Whether a byte stands between tokens.
fn is_blank_byte(byte: u8) -> bool
    ensures { result ≡ is_blank byte }
{
    byte == b' ' || byte == b'\t' || byte == b'\n' || byte == b'\r'
}

/// Whether a word can begin with this byte: a letter or an underscore.
pub(crate) fn begins_word(byte: u8) -> bool
    ensures { result ≡ is_letter byte }
{
    byte.is_ascii_alphabetic() || byte == b'_'
}

/// Whether a word can go on with this byte: a letter, an underscore or a digit.
fn goes_on_word(byte: u8) -> bool
    ensures { result ≡ is_word_byte byte }
{
    byte.is_ascii_alphanumeric() || byte == b'_'
}

/// The number of bytes at the front that go on a word.
pub(crate) fn word_len(bytes: &[u8]) -> usize
    ensures { result ≡ prefix_len is_word_byte bytes.now }
{
    for (i, byte) in bytes.iter().enumerate() {
        if !goes_on_word(*byte) {
            return i;
        }
    }
    bytes.len()
}

/// The number of digits at the front.
fn digits_len(bytes: &[u8]) -> usize
    ensures { result ≡ prefix_len is_ascii_digit bytes.now }
{
    for (i, byte) in bytes.iter().enumerate() {
        if !byte.is_ascii_digit() {
            return i;
        }
    }
    bytes.len()
}

/// The place of the quote that ends a quoted name, from 0.
fn name_len(bytes: &[u8]) -> Option<usize>
    ensures value { result ≡ position (λ x. x == 34) bytes.now }
    ensures within { IfSome result (λ n. n < length bytes.now) }
{
    for (i, byte) in bytes.iter().enumerate() {
        if *byte == b'"' {
            return Some(i);
        }
    }
    None
}

/// The place of the quote that ends a string, from 0. Two quotes one after the other end none.
#[tactic(auto, using(crate::proofs::Strings::closing_from_start), unfolding(crate::proofs::Strings::closing_from))]
fn text_len(bytes: &[u8]) -> Option<usize>
    ensures value { result ≡ closing bytes.now }
    ensures within { IfSome result (λ n. n < length bytes.now) }
{
    let mut end = None;
    let mut half = false;
    for (i, byte) in bytes.iter().enumerate() {
        let is_quote = *byte == b'\'';
        if half && !is_quote {
            return end;
        }
        if is_quote && !half {
            end = Some(i);
        }
        half = is_quote && !half;
    }
    end
}

/// Whether a word is this keyword, in letters of either case.
fn is_keyword(word: &[u8], keyword: &[u8]) -> bool
    ensures { result ≡ bytes_eq (map to_ascii_lowercase word.now)
        (map to_ascii_lowercase keyword.now) }
{
    word.eq_ignore_ascii_case(keyword)
}

/// The keywords.
const KEYWORDS: &[(&[u8], Kind)] = &[
    (b"select", Kind::Select),
    (b"from", Kind::From),
    (b"where", Kind::Where),
    (b"and", Kind::And),
    (b"order", Kind::Order),
    (b"by", Kind::By),
    (b"limit", Kind::Limit),
    (b"asc", Kind::Asc),
    (b"desc", Kind::Desc),
    (b"as", Kind::As),
    (b"join", Kind::Join),
    (b"inner", Kind::Inner),
    (b"on", Kind::On),
    (b"union", Kind::Union),
    (b"all", Kind::All),
];

/// The first of these keywords that a word is, or else a name.
fn kind_among(keywords: &[(&[u8], Kind)], word: &[u8]) -> Kind
    ensures { result ≡ kind_among keywords.now word.now }
{
    for (keyword, kind) in keywords {
        if is_keyword(word, keyword) {
            return *kind;
        }
    }
    Kind::Name
}

/// The keyword that a word is, or else a name.
#[tactic(auto, unfolding(crate::specs::Tokens::kind_of_word))]
pub(crate) fn word_kind(word: &[u8]) -> Kind
    ensures { result ≡ kind_of_word word.now }
{
    kind_among(KEYWORDS, word)
}

/// The kind of a sign, `Stray` for a byte that is none.
fn sign_kind(byte: u8) -> Kind
    ensures { result ≡ kind_of_sign byte }
{
    match byte {
        b',' => Kind::Comma,
        b'.' => Kind::Dot,
        b'=' => Kind::Equals,
        b'+' => Kind::Plus,
        b'-' => Kind::Minus,
        b'*' => Kind::Star,
        b';' => Kind::Semicolon,
        _ => Kind::Stray,
    }
}

/// A token at the front of some bytes, and the number of bytes that it takes.
#[derive(Clone, Copy)]
struct Scanned<'a> {
    kind: Kind,
    body: &'a [u8],
    len: usize,
}

/// A token between two quotes, or a stray one if the second quote is missing.
fn quoted<'a>(kind: Kind, inside: &'a [u8], end: Option<usize>) -> Scanned<'a>
    requires within { IfSome end (λ n. n < length inside.now) }
    ensures { scan_view result ≡ quoted_scan kind inside.now end }
{
    match end {
        Some(len) => Scanned {
            kind,
            body: &inside[..len],
            len: len + 2,
        },
        None => Scanned {
            kind: Kind::Stray,
            body: &inside[..0],
            len: 1,
        },
    }
}

/// The longest token at the front.
#[tactic(auto, unfolding(crate::specs::Tokens::scan_of))]
fn scan(bytes: &[u8]) -> Scanned<'_>
    requires some { 0 < length bytes.now }
    ensures value { scan_view result ≡ scan_of bytes.now }
{
    let (first, inside) = (bytes[0], &bytes[1..]);
    if begins_word(first) {
        let body = &bytes[..word_len(bytes)];
        return Scanned {
            kind: word_kind(body),
            body,
            len: body.len(),
        };
    }
    if first.is_ascii_digit() {
        let body = &bytes[..digits_len(bytes)];
        return Scanned {
            kind: Kind::Digits,
            body,
            len: body.len(),
        };
    }
    match first {
        b'"' => quoted(Kind::Name, inside, name_len(inside)),
        b'\'' => quoted(Kind::Text, inside, text_len(inside)),
        _ => Scanned {
            kind: sign_kind(first),
            body: &bytes[..0],
            len: 1,
        },
    }
}

/// The tokens of a query that is not too long. `NoMemory` if memory is refused.
pub fn tokens(alloc: Global, bytes: &[u8]) -> Result<Vec<Token<'_>>, NoMemory>
    requires short { length bytes.now ≤ 65536 }
    ensures { IfOk result (λ v. lexemes v.items ≡ tokens_of bytes.now) }
{
    let mut tokens = Vec::new(alloc);
    let mut at = 0;
    while at < bytes.len() {
        if is_blank_byte(bytes[at]) {
            at += 1;
        } else {
            let Scanned { kind, body, len } = scan(&bytes[at..]);
            tokens.push(Token {
                kind,
                at: at as u32,
                body,
            })?;
            at += len;
        }
    }
    Ok(tokens)
}
