//! The laws of the rows of a join tree's nodes that agree along its links.

ghost use Rattle.witness_key.specs.Laws.{KeysAddUp, LinksMakeWitnesses};

/// A combination is a witness exactly if its rows pass, and agree along each link of a join tree of
/// the query.
pub fn links_make_witnesses()
    ensures { LinksMakeWitnesses }
{}

/// The keys of the rows of a join tree's nodes add up to the key of the combination.
pub fn keys_add_up()
    ensures { KeysAddUp }
{}
