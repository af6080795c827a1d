//! The lines of a text, and the parts of a line.

ghost use Rattle.std.specs.Prelude.{◌≡◌, ◌<◌, ◌==◌, [], ◌∷◌, length, MatchOption, IfSome};
ghost use Rattle.std.specs.List.{position};
ghost use Rattle.std.specs.Str.Lines.{lines, strip_carriage_return};
ghost use Rattle.text_lines.specs.Parts.{parts, parts_after};

/// The place of the first line feed, from 0.
fn line_end(bytes: &[u8]) -> Option<usize>
    ensures { result ≡ position (λ x. x == 10) bytes.now }
{
    bytes.iter().position(|byte| *byte == b'\n')
}

/// The line without a carriage return at its end.
fn without_return(line: &[u8]) -> &[u8]
    ensures { result.now ≡ strip_carriage_return line.now }
{
    if !line.is_empty() && line[line.len() - 1] == b'\r' {
        return &line[..line.len() - 1];
    }
    line
}

/// The first line without its end, and what is after that end. A line feed ends a line, a carriage
/// return before it is dropped, and the last line may lack its end. `None` if there are no bytes.
pub fn first_line(bytes: &[u8]) -> Option<(&[u8], &[u8])>
    // The first of the lines, and those after it.
    ensures value { MatchOption result (lines bytes.now ≡ [])
        (λ x. lines bytes.now ≡ x.0.now ∷ lines x.1.now) }
    // Fewer bytes are left.
    ensures shorter { IfSome result (λ x. length x.1.now < length bytes.now) }
{
    if let Some(end) = line_end(bytes) {
        return Some((without_return(&bytes[..end]), &bytes[end + 1..]));
    }
    if bytes.is_empty() {
        return None;
    }
    Some((bytes, &bytes[bytes.len()..]))
}

/// The place of the first space, from 0.
fn space(line: &[u8]) -> Option<usize>
    ensures { result ≡ position (λ x. x == 32) line.now }
{
    line.iter().position(|byte| *byte == b' ')
}

/// The part before the first space, and what is after that space. If there is no space, the part is
/// the whole line.
pub fn first_part(line: &[u8]) -> (&[u8], Option<&[u8]>)
    // The first of the parts, and those after it.
    ensures { parts line.now ≡ result.0.now ∷ parts_after result.1 }
{
    match space(line) {
        Some(at) => (&line[..at], Some(&line[at + 1..])),
        None => (line, None),
    }
}
