//! Certificates of the first answers of a query: the text of one is read and written here, and here
//! it is said when one is valid, and what a valid one shows.
//!
//! The text has a first line `anyk-proof 1`; lines `bound NODE ROW ..`; lines `answer ROW ..`; a last
//! line `more` or `end`. One space is between two parts, and a number has 1 to 7 digits. Lines are
//! split as `str::lines` of Rust's library splits them, but in bytes. An answer with a text that
//! shows that it is right, and that is easily checked, is what McConnell, Mehlhorn, Naher and
//! Schweitzer call certifying ("Certifying algorithms", 2011).
//!
//! A certificate has a bound for each group of rows, and the answers. Each row is compared with the
//! bounds of the groups below it, as in dynamic programming over trees. Each way to leave the
//! listed answers is compared by its rows and the bounds of the groups that it leaves open: these
//! ways are the parts of Lawler's procedure ("A procedure for computing the K best solutions to
//! discrete optimization problems", 1972). So a certificate is checked with no queue and no engine.
//! That it then shows the first answers is proved here; its form is this project's own.
#![tactic(auto)]

ghost use Rattle.proof_model.specs.Theorems.{AnswersAreFirst, FullIsValid, OneFirstFlaw, OneText};
ghost use Rattle.proof_model.specs.Theorems.{SumsFit, UnlistedComeAfter, ValidHasNoFlaw, WideKeysAgree};

mod fault;
mod line;
mod number;
mod proof;
mod reading;
mod text_laws;
mod writing;

pub use fault::ProofFault;
pub use proof::{Bound, Listed, Proof};
pub use reading::read_proof;
pub use text_laws::written_is_read;
pub use writing::{push_answer, push_bound, push_header, push_last};

/// Of a valid certificate each solution is listed, or it comes after the last answer.
pub fn unlisted_come_after()
    ensures { UnlistedComeAfter }
{}

/// The keys of a valid certificate's answers are those that the limit leaves of the ranking of all
/// solutions.
pub fn answers_are_first()
    ensures { AnswersAreFirst }
{}

/// A valid certificate has no flaw.
pub fn valid_has_no_flaw()
    ensures { ValidHasNoFlaw }
{}

/// One flaw at most is the first one of a certificate.
pub fn one_first_flaw()
    ensures { OneFirstFlaw }
{}

/// A certificate is valid if each group with a solution has its least bound, and its answers are
/// the first solutions.
pub fn full_is_valid()
    ensures { FullIsValid }
{}

/// Keys with room for more sums are added and compared as the keys that they stand for.
pub fn wide_keys_agree()
    ensures { WideKeysAgree }
{}

/// In a sum of keys of rows, at most one of each node, each sum fits 128 bits with a sign, and each
/// slot 32 bits without one.
pub fn sums_fit()
    ensures { SumsFit }
{}

/// At most one text is the one that is written for a query over its tables.
pub fn one_text()
    ensures { OneText }
{}
