//! What a certificate shows of a query, in the query's own words. No code.
//!
//! The solutions of the tree problem of a query are its witnesses, row by row and key by key. So
//! the answers of a valid certificate are how the ranking of the query begins. And the certificate
//! that is written for the ranking is read as it was, and is valid.
ghost use Rattle.proof_check.specs.Laws.{AnswersBeginRanking, SolutionsAreWitnesses, WrittenIsValid};

/// The solutions of the tree problem of a query are its witnesses, with the same keys.
pub fn solutions_are_witnesses()
    ensures { SolutionsAreWitnesses }
{}

/// The answers of a valid certificate are those that the limit leaves of the ranking of the query,
/// and all of the ranking if the certificate says `end`.
pub fn answers_begin_ranking()
    ensures { AnswersBeginRanking }
{}

/// The text that is written for a query over its tables is read as a certificate, and it is valid.
pub fn written_is_valid()
    ensures { WrittenIsValid }
{}
