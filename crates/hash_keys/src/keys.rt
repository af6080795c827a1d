//! The keys of a hash: known ones, or two random words.
use std::hash::{BuildHasher, DefaultHasher, RandomState};

/// The keys that a hash table hashes with.
#[derive(Clone, Copy)]
pub enum Keys {
    /// The same in each run. For tables whose content no stranger chooses.
    Known,
    /// Drawn at random for this run.
    Drawn(RandomState),
}

impl BuildHasher for Keys {
    type Hasher = DefaultHasher;

    ghost use Rattle.hash_keys.specs.Keys.{first_hasher};

    ghost build_hasher = { first_hasher };

    fn build_hasher(&self) -> DefaultHasher {
        match self {
            Keys::Known => DefaultHasher::new(),
            Keys::Drawn(state) => state.build_hasher(),
        }
    }
}
