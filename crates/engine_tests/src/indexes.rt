//! Indexes of links: links by a table and by hashing, and lists of values.
ghost use Rattle.std.specs.Prelude.{◌≡◌, ◌<◌, length, OnOk};

use hash_keys::Keys;
use link_index::{DirectIndex, HashedIndex, ListIndex};
use smallvec::SmallVec;
use std::alloc::Global;
use std::marker::Brand;
use std::sync::ledger::{Blank, Ledger};
use step_counter::{NoMemory, Steps};

/// Whether a table that has to grow and a hash give two links the same numbers, and find no third
/// one.
fn indexes_agree<L: Ledger>(alloc: Global, blank: Blank) -> Result<bool, NoMemory>
    requires name { blank.name ≡ L.name }
    requires parts { blank.parts ≡ L.parts }
    requires share { 0 < L.parts }
{
    let mut steps: Steps<L> = Steps::new(blank);
    let mut hashed = HashedIndex::new(alloc, Keys::Known);
    let mut direct = DirectIndex::new(alloc, 3)?;
    let by_hash = [hashed.insert(7, &mut steps)?, hashed.insert(2, &mut steps)?];
    let by_table = [direct.insert(7, &mut steps)?, direct.insert(2, &mut steps)?];
    let found = hashed.number_of(2, &mut steps) == Some(1)
        && direct.number_of(2, &mut steps) == Some(1);
    let missed = hashed.number_of(3, &mut steps).is_none()
        && direct.number_of(3, &mut steps).is_none();
    Ok(by_hash == [0, 1] && by_table == [0, 1] && found && missed)
}

#[test]
fn a_table_and_a_hash_give_links_the_same_numbers(rt: HostRuntime) {
    let agree = indexes_agree::<Brand>(rt.alloc(), Blank::new(1));
    assert!(rt; agree == Ok(true));
}

/// The number of a list of values at a node.
fn number_of_list<L: Ledger>(
    alloc: Global,
    lists: &mut ListIndex,
    node: usize,
    values: &[u32],
    steps: &mut Steps<L>,
) -> Result<u32, NoMemory>
    requires { node < length lists.old }
    ensures { OnOk result (length lists.new ≡ length lists.old) }
{
    lists.number_of(node, SmallVec::from_slice(alloc, values)?, steps)
}

/// Whether lists get their numbers, apart for each node: a list twice, the same values in another
/// order, a longer list that begins alike, and a list that is read at the other node.
fn lists_get_numbers<L: Ledger>(alloc: Global, blank: Blank) -> Result<bool, NoMemory>
    requires name { blank.name ≡ L.name }
    requires parts { blank.parts ≡ L.parts }
    requires share { 0 < L.parts }
{
    let mut steps: Steps<L> = Steps::new(blank);
    let mut lists = ListIndex::new(alloc, 2, Keys::Known)?;
    let numbers = [
        number_of_list(alloc, &mut lists, 0, &[5, 9], &mut steps)?,
        number_of_list(alloc, &mut lists, 0, &[9, 5], &mut steps)?,
        number_of_list(alloc, &mut lists, 0, &[5, 9, 1, 2, 3], &mut steps)?,
        number_of_list(alloc, &mut lists, 0, &[5, 9, 1, 2, 3], &mut steps)?,
        number_of_list(alloc, &mut lists, 0, &[5, 9], &mut steps)?,
        number_of_list(alloc, &mut lists, 1, &[9, 5], &mut steps)?,
    ];
    Ok(numbers == [0, 1, 2, 2, 0, 0])
}

#[test]
fn a_list_gets_one_number_at_each_node(rt: HostRuntime) {
    let numbered = lists_get_numbers::<Brand>(rt.alloc(), Blank::new(1));
    assert!(rt; numbered == Ok(true));
}
