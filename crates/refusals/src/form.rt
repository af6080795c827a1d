//! The forms that reasons are written in.
ghost use Rattle.std.specs.Prelude.{◌≡◌};
ghost use Rattle.refusals.specs.Forms.{text_of_form};
ghost use Rattle.refusals.specs.Reason.{text_of};
ghost use Rattle.refusals.specs.RefusalReasons.{reason_of};

use crate::refusal::Refusal;

/// The form of a reason, with what is filled in.
#[derive(Clone, Copy, Drop)]
pub(crate) enum Form<'a> {
    /// This text.
    Text(&'a [u8]),
    /// A number between two texts.
    Numbered(&'a [u8], u32, &'a [u8]),
    /// A text at a byte of the query, or at a line of the script or of the certificate.
    At(&'a [u8], u32, &'a [u8]),
    /// A text about a table.
    OnTable(&'a [u8], &'a [u8]),
    /// A text about a file.
    OnFile(&'a str, &'a [u8]),
    /// A number between two texts, about a table.
    InTable(&'a [u8], &'a [u8], u32, &'a [u8]),
    /// A field of an order column is not a weight.
    BadWeight { item: u32, row: u32, column: u32 },
    /// The query is cyclic, with this core.
    Cyclic(u16),
}

/// The form of a refusal's reason, without what stands before it and without the line feed.
pub(crate) fn form_of<'a>(refusal: Refusal<'a>) -> Form<'a>
    ensures { text_of_form result ≡ text_of (reason_of refusal.entry) }
{
    match refusal {
        Refusal::Usage => Form::Text(b"usage"),
        Refusal::Syntax(at) => Form::Numbered(b"syntax error at byte ", at, b""),
        Refusal::BadLine(line) => Form::At(b"script line ", line, b"bad line"),
        Refusal::UnknownCursor(line) => Form::At(b"script line ", line, b"unknown cursor"),
        Refusal::CursorExists(line) => Form::At(b"script line ", line, b"cursor exists"),
        Refusal::UnknownTable(at) => Form::At(b"byte ", at, b"unknown table"),
        Refusal::DuplicateAlias { item, .. } => Form::Numbered(
            b"item ",
            item,
            b": alias used twice",
        ),
        Refusal::UnknownAlias(at) => Form::At(b"byte ", at, b"unknown alias"),
        Refusal::UnknownColumn(at) => Form::At(b"byte ", at, b"unknown column"),
        Refusal::Ambiguous(at) => Form::At(b"byte ", at, b"ambiguous column"),
        Refusal::UnknownBest => Form::Text(b"unknown alias in --best-of"),
        Refusal::NoHeader(table) => Form::OnTable(table, b"no header"),
        Refusal::DuplicateName { table, column } => Form::InTable(
            table,
            b": column ",
            column,
            b": name used twice",
        ),
        Refusal::Ragged { table, row } => Form::InTable(
            table,
            b": row ",
            row,
            b": wrong number of fields",
        ),
        Refusal::BadWeight {
            item,
            row,
            column,
            ..
        } => Form::BadWeight { item, row, column },
        Refusal::Cyclic { core, .. } => Form::Cyclic(core),
        Refusal::RankRange { key, .. } => Form::Numbered(
            b"order key ",
            key,
            b": rank may pass 128 bits",
        ),
        Refusal::TooLong => Form::Text(b"query longer than 65536 bytes"),
        Refusal::TooManyBranches => Form::Text(b"more than 8 branches"),
        Refusal::TooManyItems => Form::Text(b"more than 16 items"),
        Refusal::TooManyKeys => Form::Text(b"more than 8 order keys"),
        Refusal::LimitRange(at) => Form::Numbered(b"limit at byte ", at, b" out of range"),
        Refusal::TooLarge(file) => Form::OnFile(file, b" longer than 67108864 bytes"),
        Refusal::TooManyColumns(table) => Form::OnTable(table, b"more than 64 columns"),
        Refusal::TooManyTableRows(table) => Form::OnTable(table, b"more than 1048576 rows"),
        Refusal::TooManyNodeRows => Form::Text(b"more than 4194304 node rows"),
        Refusal::TooManyLines => Form::Text(b"script: more than 10000 lines"),
        Refusal::TooManyOpen(line) => Form::At(b"script line ", line, b"more than 64 cursors"),
        Refusal::NoFile(file) => Form::OnFile(file, b": not found"),
        Refusal::ReadFault(file) => Form::OnFile(file, b": read failed"),
        Refusal::WriteFault => Form::Text(b"write failed"),
        Refusal::NoMemory => Form::Text(b"out of memory"),
        Refusal::BadProofHeader => Form::Text(b"proof: bad header"),
        Refusal::BadProofLine(line) => Form::At(b"proof line ", line, b"bad line"),
        Refusal::BadBound(line) => Form::At(b"proof line ", line, b"no solution"),
        Refusal::BoundTwice(line) => Form::At(b"proof line ", line, b"bound twice"),
        Refusal::WeakBound(node) => Form::Numbered(
            b"proof node ",
            node,
            b": bound missing or too high",
        ),
        Refusal::BadAnswer(line) => Form::At(b"proof line ", line, b"no answer"),
        Refusal::AnswerOrder(line) => Form::At(b"proof line ", line, b"not in order"),
        Refusal::AnswerCount => Form::Text(b"proof: wrong number of answers"),
        Refusal::MissedAnswer => Form::Text(b"proof: unlisted answer"),
        Refusal::BranchShape(_) => Form::Text(b"shape differs"),
        Refusal::UnionBest => Form::Text(b"several branches with --best-of"),
    }
}
