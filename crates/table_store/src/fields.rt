//! The bytes of many fields in one vector.
ghost use Rattle.std.specs.Prelude.{◌≡◌, ◌<◌, [], get_or, length};
ghost use Rattle.csv.specs.Records.{cut_from, prev};
ghost use Rattle.table_store.specs.Fields.{ArePacked};
ghost use Rattle.table_store.specs.Values.{own_number};

use crate::number::own_number_at;
use std::marker::Model;

/// Fields one after another; each is found by the place where it ends.
#[derive(Drop)]
pub struct FieldList {
    bytes: Vec<u8>,
    ends: Vec<u32>,
}

impl Model for FieldList {
    ghost use Rattle.anyk_model.specs.Table.{Fields};
    ghost use Rattle.table_store.specs.Fields.{IsPacked, fields_view};

    ghost Value = { Fields };

    ghost view = { fields_view };

    ghost invariant = { IsPacked };
}

impl FieldList {
    /// The fields that end at these places of the bytes, one after another.
    pub fn new(bytes: Vec<u8>, ends: Vec<u32>) -> FieldList
        requires { ArePacked ends.items bytes.items }
        ensures { result ≡ cut_from 0 ends.items bytes.items }
    {
        FieldList { bytes, ends }
    }

    /// The number of fields.
    pub fn len(&self) -> usize
        ensures { result ≡ length self.now }
    {
        self.ends.len()
    }

    /// The field at a place, counted from 0.
    pub fn get(&self, place: usize) -> &[u8]
        requires { place < length self.now }
        ensures { result.now ≡ get_or self.now place [] }
    {
        let start = start_of(&self.ends, place);
        &self.bytes.as_slice()[start..self.ends[place] as usize]
    }

    /// The number that the field at a place writes as a decimal without a sign and without leading
    /// zeros, if it is below `FIRST_TEXT`. Places count from 0.
    #[inline(always)]
    pub fn own_number(&self, place: usize) -> Option<u32>
        requires { place < length self.now }
        ensures { result ≡ own_number (get_or self.now place []) }
    {
        let start = start_of(&self.ends, place);
        own_number_at(self.bytes.as_slice(), start, self.ends[place] as usize)
    }
}

/// Where the field at a place starts, if these are the places where fields end.
pub fn start_of(ends: &[u32], place: usize) -> usize
    requires { place < length ends.now }
    ensures { result ≡ prev 0 ends.now place }
{
    let start = if place == 0 { 0 } else { ends[place - 1] };
    start as usize
}
