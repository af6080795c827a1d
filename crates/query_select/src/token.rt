//! The tokens into which the bytes of a query are cut.

/// The kind of a token.
#[derive(Clone, Copy, PartialEq, Eq)]
pub enum Kind {
    Select,
    From,
    Where,
    And,
    Order,
    By,
    Limit,
    Asc,
    Desc,
    As,
    Join,
    Inner,
    On,
    Union,
    All,
    /// A word that is not a keyword, or a quoted name.
    Name,
    /// A string between single quotes.
    Text,
    Digits,
    Comma,
    Dot,
    Equals,
    Plus,
    Minus,
    Star,
    Semicolon,
    /// A byte that begins no token, or a quote without its end.
    Stray,
}

/// A token. Its body is the bytes that it stands for: a name without its quotes, or a string
/// without its outer quotes but with each `'` inside as it is written.
#[derive(Clone, Copy)]
pub struct Token<'a> {
    /// The kind of the token.
    pub kind: Kind,
    /// The offset at which it begins, in bytes, from 0.
    pub at: u32,
    /// The bytes that it stands for.
    pub body: &'a [u8],
}
