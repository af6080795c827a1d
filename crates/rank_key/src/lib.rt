//! Ranks: the keys by which answers are ordered, as values that are only added, exchanged and
//! compared, in counted steps.
//!
//! A key has one sum for each order key and then 16 row slots, one for each item of a query. A rank
//! holds a key of which no slot after its last one is in use, so the ranks of a query of few items
//! are small. Ranks are compared lexicographically, so that two answers with equal sums are ordered
//! by their row numbers. An order by sums is fit for ranked enumeration because it is total and
//! adding keeps it (Tziavelis et al., "Optimal Algorithms for Ranked Enumeration of Answers to Full
//! Conjunctive Queries", PVLDB 2020): `rank_laws` states these laws for generic callers. The number
//! of binary digits of a count, which bounds the steps of a heap, is here too.
//!
//! Most ranks are arrays of sums and slots. Those of one sum and four slots also come packed in one
//! number of 128 bits. A key's numbers are digits of it, the sum first: joining is one addition,
//! exchanging a part one subtraction and one addition, and comparing one comparison. That keys of
//! digits are compared as numbers is the base of radix sorting (Knuth, "The Art of Computer
//! Programming", volume 3, 5.2.5). Those of one sum and seven slots have their last three slots in
//! a second number.
#![tactic(auto)]

mod binary_digits;
mod fixed_rank;
mod packed;
mod rank;
mod sum;
mod wide_packed;

pub use binary_digits::bits;
pub use fixed_rank::{FixedRank, LexRank, MiddleSumRank, SmallLexRank, SumRank};
pub use packed::PackedRank;
pub use rank::{Rank, SLOTS};
pub use sum::Sum;
pub use wide_packed::WidePackedRank;
