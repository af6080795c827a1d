//! The sums by which members of different branches are compared.
ghost use Rattle.std.specs.Prelude.{◌≡◌, ◌<◌, length, map};
ghost use Rattle.anyk_model.specs.Query.{rank_of};
ghost use Rattle.anyk_model.specs.Ranking.{is_before};
ghost use Rattle.bound_query.specs.WeighedQuery.{Fits};
ghost use Rattle.bound_query.specs.Weights.{key_at};
ghost use Rattle.union_all.specs.Rows.{HasRows, rows_of};

use answer_print::key_sum;
use bound_query::Query;
use table_store::Tables;

/// The sum of an order key over the rows of the items, as it is compared: negated if the key
/// descends.
fn compared_sum(query: &Query, tables: &Tables, rows: &[u32; 16], key: u32) -> i128
    requires fits { Fits query.now tables.now }
    requires rows { HasRows query.now tables.now rows.now }
    requires key { key < length query.now.query.order }
    ensures { result ≡ rank_of query.now.query tables.now (rows_of query.now rows.now)
        (key_at query.now.query.order key) }
{
    let sum = key_sum(query, tables, rows, key);
    if query.descending(key) { -sum } else { sum }
}

/// Whether the sums of one combination come before those of another one, key by key.
pub(crate) fn has_less_sums(
    one: &Query,
    rows: &[u32; 16],
    other: &Query,
    other_rows: &[u32; 16],
    tables: &Tables,
) -> bool
    requires fits { Fits one.now tables.now }
    requires rows { HasRows one.now tables.now rows.now }
    requires other_fits { Fits other.now tables.now }
    requires other_rows { HasRows other.now tables.now other_rows.now }
    ensures { result ≡ is_before
        (map (rank_of one.now.query tables.now (rows_of one.now rows.now)) one.now.query.order)
        (map (rank_of other.now.query tables.now
        (rows_of other.now other_rows.now)) other.now.query.order) }
{
    let keys = one.keys().min(other.keys());
    for key in 0..keys {
        let sum = compared_sum(one, tables, rows, key);
        let other_sum = compared_sum(other, tables, other_rows, key);
        if sum != other_sum {
            return sum < other_sum;
        }
    }
    one.keys() < other.keys()
}
