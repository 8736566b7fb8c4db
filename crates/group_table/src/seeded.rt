//! Hashers that begin with a seed.

ghost use Rattle.std.specs.Hash.{le_bytes};
ghost use Rattle.std.specs.Hash.DefaultHasher as sip;

use std::hash::{BuildHasher, DefaultHasher, Hasher};

/// Makes hashers that have read a seed. Which keys have one hash depends on the seed, so whoever
/// does not know it cannot choose them.
#[derive(Clone, Copy, Debug)]
pub(crate) struct Seeded {
    pub(crate) seed: u64,
}

impl BuildHasher for Seeded {
    type Hasher = DefaultHasher;

    ghost build_hasher = { λ s. sip.write sip.initial (le_bytes 8 s.seed) };

    fn build_hasher(&self) -> DefaultHasher {
        let mut hasher = DefaultHasher::new();
        hasher.write_u64(self.seed);
        hasher
    }
}
