//! How the shares of preparation and of calls for answers add up to the bound on counted steps.
//!
//! A counted step is one comparison, sum or exchange of ranks, one counted read of a tree, one
//! index look-up or insertion, or one counted call on a stored entry. The bound is the delay of
//! ranked enumeration in Tziavelis and others, "Optimal Algorithms for Ranked Enumeration of
//! Answers to Full Conjunctive Queries", PVLDB 2020, with its constants.
ghost use Rattle.std.specs.Prelude.{◌≡◌, ◌≤◌, ◌+◌, ◌*◌, ℕ};
ghost use Rattle.rank_key.specs.Bits.{bit_length};
ghost use Rattle.bound_query.specs.Steps.{cost, steps_for};

/// The bound on small inputs: one item without rows and without calls, and two items with 12 rows
/// and three calls.
pub fn small_costs()
    ensures none { cost 1 0 0 ≡ 64 }
    ensures few { cost 2 12 3 ≡ 7936 }
{}

/// Preparation, the start of an engine, and c calls for answers keep the bound together, each
/// within its share. There are l items, b rows of tables and nodes, and n rows of the tree.
pub fn shares_add_up()
    ensures { (l b n c : ℕ) (share : ℕ → ℕ) → 1 ≤ l → n ≤ b
        → ((k : ℕ) → share k ≤ 24 * (l * (1 + bit_length (n + (k + 1) * l))))
        → 16 * (l * l * (1 + b)) + 16 * (l * (1 + n)) + steps_for share c ≤ cost l b c }
{}
