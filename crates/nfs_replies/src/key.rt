//! Records as keys.

ghost use Rattle.std.specs.Prelude.{◌≡◌, IfOk, nat_eq};
ghost use Rattle.std.specs.Cmp.{partial_equiv_from_equiv};
ghost use Rattle.std.specs.Cmp.Lexicographic.{nat_list_eq_equiv, pointwise};
ghost use Rattle.nfs_replies.specs.Keys.{digest};

use crate::digest::{RecordKey, digest};
use bytes::Bytes;
use std::alloc::AllocError;
use std::marker::Model;

/// The bytes of a record with their hash, which is taken once and kept beside them. A clause sees it as the bytes.
#[derive(Drop)]
pub struct Hashed {
    bytes: Bytes,
    key: RecordKey,
    hash: u64,
}

impl Model for Hashed {
    ghost use Rattle.std.specs.Prelude.{◌≡◌, ℕ, List};
    ghost use Rattle.nfs_replies.specs.Keys.{digest};

    ghost Value = { List ℕ };

    ghost view = { λ h. h.bytes };

    ghost invariant = { λ h. h.hash ≡ digest h.key h.bytes };
}

impl Hashed {
    /// These bytes, hashed under this key. All of them are read.
    pub fn new(key: RecordKey, bytes: Bytes) -> Hashed
        ensures { result ≡ bytes }
    {
        let hash = digest(key, bytes.as_slice());
        Hashed { bytes, key, hash }
    }

    /// These bytes, whose hash under this key is known.
    pub(crate) fn with_hash(key: RecordKey, bytes: Bytes, hash: u64) -> Hashed
        requires { hash ≡ digest key bytes }
        ensures { result ≡ bytes }
    {
        Hashed { bytes, key, hash }
    }

    /// One more owner of the same bytes, which are not read again.
    ///
    /// # Errors
    ///
    /// There is no memory for one more owner.
    pub fn share(&self) -> Result<Hashed, AllocError>
        ensures { IfOk result (λ shared. shared ≡ self.now) }
    {
        Ok(Hashed {
            bytes: self.bytes.clone()?,
            key: self.key,
            hash: self.hash,
        })
    }

    /// The bytes.
    pub fn bytes(&self) -> &Bytes
        ensures { result.now ≡ self.now }
    {
        &self.bytes
    }

    /// The bytes without their hash.
    pub(crate) fn into_bytes(self) -> Bytes
        ensures { result ≡ self }
    {
        self.bytes
    }

    /// The same, to be looked up.
    pub fn sought(&self) -> HashedRef<'_>
        ensures { result.bytes.now ≡ self.now }
    {
        HashedRef {
            bytes: &self.bytes,
            key: self.key,
            hash: self.hash,
        }
    }
}

impl PartialEq for Hashed {
    ghost eq = { pointwise nat_eq };

    ghost laws = { partial_equiv_from_equiv nat_list_eq_equiv };

    fn eq(&self, other: &Hashed) -> bool {
        self.bytes == other.bytes
    }
}

impl Eq for Hashed {
    ghost laws = { nat_list_eq_equiv };
}

/// A record to look up, with the hash of its bytes.
#[derive(Clone, Copy)]
pub struct HashedRef<'a> {
    bytes: &'a Bytes,
    key: RecordKey,
    hash: u64,
    ghost hashed: { hash ≡ digest key bytes.now },
}

impl<'a> HashedRef<'a> {
    /// These bytes, hashed under this key. All of them are read.
    pub fn new(key: RecordKey, bytes: &'a Bytes) -> HashedRef<'a>
        ensures { result.bytes.now ≡ bytes.now }
    {
        let hash = digest(key, bytes.as_slice());
        HashedRef { bytes, key, hash }
    }

    /// The bytes.
    pub(crate) fn bytes(self) -> &'a Bytes
        ensures { result.now ≡ self.entry.bytes.now }
    {
        self.bytes
    }

    /// Its hash under this key. The bytes are read again where it was hashed under another.
    #[tactic(auto, using(crate::proofs::DigestLemmas::same_digest))]
    pub(crate) fn hash_under(self, key: RecordKey) -> u64
        ensures { result ≡ digest key self.entry.bytes.now }
    {
        if self.key == key {
            self.hash
        } else {
            digest(key, self.bytes.as_slice())
        }
    }
}
