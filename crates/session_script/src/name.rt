//! Names of cursors.

ghost use Rattle.std.specs.Prelude.{◌≡◌, ◌≤◌, ℕ, List, length, take};
ghost use Rattle.std.specs.List.{list_all};
ghost use Rattle.session_script.specs.Names.{is_name_byte, name_of};

use std::marker::Model;

/// The length of the longest name, in bytes.
pub const MAX_NAME_BYTES: usize = 32;

/// The name of a cursor: 1 to 32 ASCII letters, digits and `_`.
#[derive(Drop)]
pub struct Name {
    bytes: [u8; 32],
    len: usize,
}

impl Model for Name {
    ghost Value = { List ℕ };

    ghost view = { λ a. take a.len a.bytes };

    ghost invariant = { λ a. (1 ≤ a.len) × (a.len ≤ 32) };
}

impl Name {
    /// The bytes of the name.
    pub fn bytes(&self) -> &[u8]
        ensures value { result.now ≡ self.now }
        ensures nonempty { 1 ≤ length result.now }
        ensures short { length result.now ≤ 32 }
    {
        &self.bytes[..self.len]
    }

    /// These bytes as a name, or `None` if they are not one.
    pub(crate) fn read(text: &[u8]) -> Option<Name>
        ensures { result ≡ name_of text.now }
    {
        if text.is_empty() || text.len() > MAX_NAME_BYTES || !are_name_bytes(text) {
            return None;
        }
        let mut bytes = [0; 32];
        bytes[..text.len()].copy_from_slice(text);
        Some(Name {
            bytes,
            len: text.len(),
        })
    }

    /// The same name.
    pub(crate) fn copied(&self) -> Name
        ensures { result ≡ self.now }
    {
        Name {
            bytes: self.bytes,
            len: self.len,
        }
    }
}

/// Whether all bytes can stand in the name of a cursor.
fn are_name_bytes(text: &[u8]) -> bool
    ensures { result ≡ list_all is_name_byte text.now }
{
    for byte in text {
        if !byte.is_ascii_alphanumeric() && *byte != b'_' {
            return false;
        }
    }
    true
}
