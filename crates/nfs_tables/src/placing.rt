//! How keys are placed in a table.

use std::hash::{BuildHasher, FoldHasher, Hasher};

/// How the hash of each key of a table begins. Whoever does not know the bytes that it is made of can't choose keys
/// that stand together.
#[derive(Clone, Copy)]
pub struct Placing {
    start: FoldHasher,
}

impl Placing {
    /// That of a server which keeps these bytes to itself.
    pub fn new(key: &[u8; 16]) -> Placing {
        let mut start = FoldHasher::default();
        start.write(key);
        Placing { start }
    }
}

impl BuildHasher for Placing {
    type Hasher = FoldHasher;

    ghost build_hasher = { λ placing. placing.start };

    fn build_hasher(&self) -> FoldHasher {
        self.start
    }
}
