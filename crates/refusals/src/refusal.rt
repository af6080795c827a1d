//! Why a run ended before its output was complete.
ghost use Rattle.std.specs.Prelude.{◌≡◌};
ghost use Rattle.refusals.specs.Reason.{branch_of, status_of};
ghost use Rattle.refusals.specs.RefusalReasons.{reason_of};

/// Why a run ended before its output was complete. Branches, items, keys, columns, rows, the nodes
/// of the join tree, and the lines of a script and of a certificate count from 1. The branch is
/// given only if the query has several. An offset is that of a byte of the query, from 0. Tables
/// and files have the names that the command line gives them.
#[derive(Clone, Copy, Drop)]
pub enum Refusal<'a> {
    /// The arguments are not a command.
    Usage,
    /// The query is not in the grammar. The offset is that of the first token that does not fit.
    Syntax(u32),
    /// This line of the script is not a step.
    BadLine(u32),
    /// This line of the script names a cursor that is not open.
    UnknownCursor(u32),
    /// This line of the script opens a cursor that is already open.
    CursorExists(u32),
    /// The command line gives no file for the table at this offset.
    UnknownTable(u32),
    /// The item has the same alias as an earlier one.
    DuplicateAlias {
        branch: Option<u32>,
        item: u32,
    },
    /// No item has the alias of the column at this offset.
    UnknownAlias(u32),
    /// There is no column as named at this offset.
    UnknownColumn(u32),
    /// The column at this offset is in several items.
    Ambiguous(u32),
    /// No item has the alias of `--best-of`.
    UnknownBest,
    /// The table's file has no record.
    NoHeader(&'a [u8]),
    /// The column has the same name as an earlier one.
    DuplicateName {
        table: &'a [u8],
        column: u32,
    },
    /// The row has more or fewer fields than the header.
    Ragged {
        table: &'a [u8],
        row: u32,
    },
    /// A field of an order column is not a weight.
    BadWeight {
        branch: Option<u32>,
        item: u32,
        row: u32,
        column: u32,
    },
    /// The query is cyclic. The items of its core are bits, and bit 0 is item 1.
    Cyclic {
        branch: Option<u32>,
        core: u16,
    },
    /// The sum of the greatest weights of this order key is too great.
    RankRange {
        branch: Option<u32>,
        key: u32,
    },
    /// The query has too many bytes.
    TooLong,
    /// The query has too many branches.
    TooManyBranches,
    /// The query has too many items.
    TooManyItems,
    /// The query has too many order keys.
    TooManyKeys,
    /// The number of the limit at this offset is too great.
    LimitRange(u32),
    /// The file has too many bytes.
    TooLarge(&'a str),
    /// The table has too many columns.
    TooManyColumns(&'a [u8]),
    /// The table has too many rows.
    TooManyTableRows(&'a [u8]),
    /// The nodes of the join tree have too many rows.
    TooManyNodeRows,
    /// The script has too many lines.
    TooManyLines,
    /// This line of the script opens one cursor too many.
    TooManyOpen(u32),
    /// There is no file of this name.
    NoFile(&'a str),
    /// The file of this name could not be read.
    ReadFault(&'a str),
    /// The output could not be written.
    WriteFault,
    /// Memory was refused.
    NoMemory,
    /// The first line of the certificate is missing, or another one than that of certificates.
    BadProofHeader,
    /// This line of the certificate has no form, or stands at a place where it cannot.
    BadProofLine(u32),
    /// The bound on this line of the certificate is no subtree solution of its node.
    BadBound(u32),
    /// An earlier line of the certificate has a bound for the group of the bound on this line.
    BoundTwice(u32),
    /// A row of this node of the join tree asks for a bound that the certificate does not have.
    WeakBound(u32),
    /// The answer on this line of the certificate is no answer of the query.
    BadAnswer(u32),
    /// The answer on this line of the certificate is not after the one before it.
    AnswerOrder(u32),
    /// The certificate has not as many answers as its last line says.
    AnswerCount,
    /// The certificate does not show that no other answer comes as early as its last one.
    MissedAnswer,
    /// The branch differs from the first one in its number of selected columns, in its number of
    /// order keys, or in the direction of a key.
    BranchShape(u32),
    /// The query has several branches, and an item is named for the best answer of each of its
    /// rows.
    UnionBest,
}

impl<'a> Refusal<'a> {
    /// The exit status of the program after this refusal.
    pub fn status(self) -> u8
        ensures { result ≡ status_of (reason_of self.entry) }
    {
        match self {
            Refusal::Usage => 2,
            Refusal::Syntax(_)
            | Refusal::BadLine(_)
            | Refusal::UnknownCursor(_)
            | Refusal::CursorExists(_) => 3,
            Refusal::UnknownTable(_)
            | Refusal::DuplicateAlias { .. }
            | Refusal::UnknownAlias(_)
            | Refusal::UnknownColumn(_)
            | Refusal::Ambiguous(_)
            | Refusal::UnknownBest => 4,
            Refusal::NoHeader(_)
            | Refusal::DuplicateName { .. }
            | Refusal::Ragged { .. }
            | Refusal::BadWeight { .. } => 5,
            Refusal::Cyclic { .. } => 6,
            Refusal::RankRange { .. } => 7,
            Refusal::TooLong
            | Refusal::TooManyBranches
            | Refusal::TooManyItems
            | Refusal::TooManyKeys
            | Refusal::LimitRange(_)
            | Refusal::TooLarge(_)
            | Refusal::TooManyColumns(_)
            | Refusal::TooManyTableRows(_)
            | Refusal::TooManyNodeRows
            | Refusal::TooManyLines
            | Refusal::TooManyOpen(_) => 8,
            Refusal::NoFile(_) => 9,
            Refusal::ReadFault(_) => 10,
            Refusal::WriteFault => 11,
            Refusal::NoMemory => 12,
            Refusal::BadProofHeader
            | Refusal::BadProofLine(_)
            | Refusal::BadBound(_)
            | Refusal::BoundTwice(_)
            | Refusal::WeakBound(_)
            | Refusal::BadAnswer(_)
            | Refusal::AnswerOrder(_)
            | Refusal::AnswerCount
            | Refusal::MissedAnswer => 14,
            Refusal::BranchShape(_) | Refusal::UnionBest => 15,
        }
    }

    /// The branch that the line of this refusal names, from 1, if it names one.
    pub(crate) fn branch(self) -> Option<u32>
        ensures { result ≡ branch_of (reason_of self.entry) }
    {
        match self {
            Refusal::DuplicateAlias { branch, .. }
            | Refusal::BadWeight { branch, .. }
            | Refusal::Cyclic { branch, .. }
            | Refusal::RankRange { branch, .. } => branch,
            Refusal::BranchShape(branch) => Some(branch),
            _ => None,
        }
    }
}
