//! Names and constants, as lists of bytes.

ghost use Rattle.std.specs.Prelude.{◌≡◌, IfOk, List, ℕ};

use std::alloc::Global;
use std::marker::Model;
use step_counter::NoMemory;

/// A name, without quotes. Names are compared byte by byte, with case.
#[derive(Drop)]
pub struct Identifier {
    bytes: Vec<u8>,
}

impl Model for Identifier {
    ghost Value = { List ℕ };

    ghost view = { λ a. a.bytes.items };
}

impl Identifier {
    /// A copy of these bytes. `NoMemory` if memory is refused.
    pub fn from_slice(alloc: Global, bytes: &[u8]) -> Result<Identifier, NoMemory>
        ensures { IfOk result (λ n. n ≡ bytes.now) }
    {
        Ok(Identifier {
            bytes: Vec::from_slice(alloc, bytes)?,
        })
    }

    /// The bytes of the name.
    pub fn bytes(&self) -> &[u8]
        ensures { result.now ≡ self.now }
    {
        self.bytes.as_slice()
    }
}

/// The bytes of a constant: those of a string with each doubled quote once, or those of a number
/// with its minus.
#[derive(Drop)]
pub struct Bytes {
    bytes: Vec<u8>,
}

impl Model for Bytes {
    ghost Value = { List ℕ };

    ghost view = { λ a. a.bytes.items };
}

impl Bytes {
    /// A constant with these bytes.
    pub fn from_vec(bytes: Vec<u8>) -> Bytes
        ensures { result ≡ bytes.items }
    {
        Bytes { bytes }
    }

    /// The bytes of the constant.
    pub fn bytes(&self) -> &[u8]
        ensures { result.now ≡ self.now }
    {
        self.bytes.as_slice()
    }
}
