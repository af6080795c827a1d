//! Laws of the tokens of any bytes that the definitions alone give.

ghost use Rattle.std.specs.Prelude.{◌≡◌, ◌↔◌, List, ℕ};
ghost use Rattle.query_select.specs.Lexeme.{Lexeme};
ghost use Rattle.query_select.specs.Tokens.{scan_of, stray, tokens_of};
ghost use Rattle.query_parse.specs.TokenForms.{AreTokens, NoToken, ScansLongest};

/// A scan gives the longest form of a token that begins the bytes. It gives a stray byte exactly if
/// no form begins them.
pub fn scans_are_longest()
    ensures longest { (bytes : List ℕ) → ScansLongest bytes (scan_of bytes) }
    ensures stray { (bytes : List ℕ) → NoToken bytes ↔ (scan_of bytes ≡ stray) }
{}

/// The tokens of some bytes are cut off from left to right. Blanks separate them, and each is the
/// longest form that begins at its place. A byte at which no form begins is a stray token.
pub fn tokens_are_longest()
    ensures { (bytes : List ℕ) (tokens : List Lexeme)
        → AreTokens 0 bytes tokens ↔ (tokens ≡ tokens_of bytes) }
{}
