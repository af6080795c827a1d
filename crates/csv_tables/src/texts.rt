//! The distinct fields of tables that are not their own numbers, each with a place.
ghost use Rattle.std.specs.Prelude.{◌≡◌, ◌<◌, [], IfOk, OnErr, OnOk, get_or, length, take};
ghost use Rattle.table_store.specs.Values.{Extends, IsNumber, StandsFor, text_at, with_field, with_fields, with_text};

use crate::text::Text;
use hash_keys::Keys;
use indexmap::IndexSet;
use std::alloc::Global;
use std::marker::Model;
use step_counter::NoMemory;
use table_store::{FIRST_TEXT, FieldList};

/// The texts of tables: their distinct fields that are not their own numbers, in the order in which
/// they were first read.
#[derive(Drop)]
pub(crate) struct Texts {
    set: IndexSet<Text, Keys>,
    alloc: Global,
}

impl Model for Texts {
    ghost use Rattle.std.specs.Prelude.{List, ℕ};
    ghost use Rattle.csv_tables.specs.Texts.{texts_view};

    ghost Value = { List (List ℕ) };

    ghost view = { texts_view };
}

impl Texts {
    /// No text. The set hashes with these keys.
    pub(crate) fn new(alloc: Global, keys: Keys) -> Texts
        ensures { result ≡ [] }
    {
        Texts {
            set: IndexSet::with_hasher(alloc, keys),
            alloc,
        }
    }

    /// The number of texts.
    pub(crate) fn len(&self) -> usize
        ensures { result ≡ length self.now }
    {
        self.set.len()
    }

    /// The number of the field at a place of these, from 0. A new text is added after the others.
    #[inline(always)]
    fn number(&mut self, fields: &FieldList, at: usize) -> Result<u32, NoMemory>
        requires { at < length fields.now }
        ensures texts { OnOk result (self.new ≡ with_field self.old (get_or fields.now at [])) }
        ensures number { IfOk result (IsNumber self.new (get_or fields.now at [])) }
        ensures err { OnErr result (Extends self.old self.new) }
    {
        if let Some(number) = fields.own_number(at) {
            return Ok(number);
        }
        let place = self.put(fields.get(at))?;
        if place >= FIRST_TEXT as usize {
            return Err(NoMemory);
        }
        Ok(FIRST_TEXT + place as u32)
    }

    /// The place of a text, from 0. A new text is added after the others.
    #[inline(never)]
    fn put(&mut self, text: &[u8]) -> Result<usize, NoMemory>
        ensures texts { OnOk result (self.new ≡ with_text self.old text.now) }
        ensures within { IfOk result (λ n. n < length self.new) }
        ensures shown { IfOk result (λ n. text_at self.new n ≡ text.now) }
        ensures err { OnErr result (self.new ≡ self.old) }
    {
        let text = Text::from_slice(self.alloc, text)?;
        let (place, _) = self.set.insert_full(text)?;
        Ok(place)
    }

    /// The numbers of these fields, in their order. New texts are added after the others, and some
    /// of them may be if memory is refused. A function of its own, so that what its loop reads stays in
    /// registers.
    #[inline(never)]
    pub(crate) fn numbers(&mut self, fields: &FieldList) -> Result<Vec<u32>, NoMemory>
        ensures texts { OnOk result (self.new ≡ with_fields self.old fields.now) }
        ensures numbers { IfOk result (λ cells. StandsFor self.new cells.items fields.now) }
        ensures err { OnErr result (Extends self.old self.new) }
    {
        let mut cells = Vec::new(self.alloc);
        cells.reserve(fields.len())?;
        for place in 0..fields.len() {
            cells.push_reserved(self.number(fields, place)?);
        }
        Ok(cells)
    }

    /// Keeps only the first `len` texts.
    pub(crate) fn truncate(&mut self, len: usize)
        ensures { self.new ≡ take len self.old }
    {
        self.set.truncate(len);
    }
}
