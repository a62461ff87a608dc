//! What calls in progress came with, so that a call that comes again meanwhile is not begun once more.

ghost use Rattle.std.specs.Prelude.{◌≡◌, ◌&&◌, ◌∷◌, [], false, true, IfOk, OnErr, OnOk, nat_eq};
ghost use Rattle.std.proofs.lemmas.Bool.{and_parts, eqb-true};
ghost use Rattle.std.specs.Cmp.{nat_eq_equiv};
ghost use Rattle.std.specs.Cmp.Lexicographic.{bytes_decides, nat_list_eq_equiv};
ghost use Rattle.std.specs.Hash as fed;
ghost use Rattle.std.specs.Map.{lookup};
ghost use Rattle.std.specs.Option.{option_map_or};
ghost use Rattle.nfs_replies.specs.Entries.{same_key};
ghost use Rattle.nfs_replies.specs.Kept.{same_bytes};
ghost use Rattle.nfs_replies.specs.Origins.{Adds, Removes, is_among};

use crate::digest::RecordKey;
use crate::key::{Hashed, HashedRef};
use bytes::Bytes;
use indexmap::{Equivalent, IndexMap};
use std::alloc::{AllocError, Global};
use std::hash::{Hash, Hasher};
use std::marker::Model;

/// What a call came with: from whom, and the bytes of its record. A repeat comes with the same.
#[derive(Drop, PartialEq, Eq)]
pub struct Origin {
    pub host: Bytes,
    pub bytes: Hashed,
}

impl Origin {
    /// One more owner of the same bytes.
    ///
    /// # Errors
    ///
    /// There is no memory for one more owner.
    pub fn share(&self) -> Result<Origin, AllocError>
        ensures { IfOk result (λ shared. shared ≡ self.now) }
    {
        Ok(Origin {
            host: self.host.clone()?,
            bytes: self.bytes.share()?,
        })
    }
}

/// Where a record stands: its host, and the hash of its bytes.
#[derive(Drop, PartialEq, Eq)]
struct OriginKey {
    host: Bytes,
    hash: u64,
}

impl Hash for OriginKey {
    ghost hash_input = { λ key. key.host ∷ fed.u64 key.hash };

    ghost respects_eq = { λ x y same i.
        let parts = and_parts (same_bytes x.host y.host) (nat_eq x.hash y.hash) same in
        (bytes_decides x.host y.host).0 parts.0 i ∷ fed.u64 (eqb-true x.hash y.hash parts.1 i) };

    fn hash<H: Hasher>(&self, state: &mut H) {
        state.write(self.host.as_slice());
        state.write_u64(self.hash);
    }
}

/// The same, to be looked up.
#[derive(Clone, Copy, PartialEq, Eq)]
struct OriginKeyRef<'a> {
    host: &'a Bytes,
    hash: u64,
}

impl<'a> Hash for OriginKeyRef<'a> {
    ghost hash_input = { λ key. key.host.now ∷ fed.u64 key.hash };

    ghost respects_eq = { λ x y same i.
        let parts = and_parts (same_bytes x.host.now y.host.now) (nat_eq x.hash y.hash) same in
        (bytes_decides x.host.now y.host.now).0 parts.0 i ∷ fed.u64 (eqb-true x.hash y.hash parts.1 i) };

    fn hash<H: Hasher>(&self, state: &mut H) {
        state.write(self.host.as_slice());
        state.write_u64(self.hash);
    }
}

impl<'a> Equivalent<OriginKey> for OriginKeyRef<'a> {
    ghost equivalent = { λ sought key. same_bytes sought.host.now key.host && nat_eq sought.hash key.hash };

    ghost respects_hash = { λ sought key same i.
        let parts = and_parts (same_bytes sought.host.now key.host) (nat_eq sought.hash key.hash) same in
        (bytes_decides sought.host.now key.host).0 parts.0 i ∷ fed.u64 (eqb-true sought.hash key.hash parts.1 i) };

    ghost respects_eq = { λ sought x y same i.
        let parts = and_parts (same_bytes sought.host.now x.host) (nat_eq sought.hash x.hash) same in
        nat_list_eq_equiv.congr sought.host.now x.host y.host parts.0 i &&
        nat_eq_equiv.congr sought.hash x.hash y.hash parts.1 i };

    fn equivalent(&self, key: &OriginKey) -> bool {
        *self.host == key.host && self.hash == key.hash
    }
}

/// What calls in progress came with. A record is found by the hashes of the host and of its bytes, and compared only
/// with one of this host that has its hash. So what is taken out is not compared with itself, but where two records
/// that differ have one hash.
#[derive(Drop)]
pub struct Origins {
    /// Under which records are hashed.
    key: RecordKey,
    /// The bytes of each record that came first of its host and hash.
    first: IndexMap<OriginKey, Bytes>,
    /// The others.
    others: Vec<Origin>,
}

impl Model for Origins {
    ghost use Rattle.std.specs.Prelude.{List, ◌++◌};
    ghost use Rattle.nfs_replies.specs.Entries.{AreFirst, origins_in};
    ghost use Rattle.nfs_replies.specs.declared.origins.Origin.{Origin as OriginValue};

    ghost Value = { List OriginValue };

    ghost view = { λ o. origins_in o.first.entries ++ o.others.items };

    ghost invariant = { λ o. AreFirst o.key o.first.entries };
}

impl Origins {
    /// None, and the key under which their records are hashed. It takes no memory.
    pub fn new(alloc: Global, key: RecordKey) -> Origins
        ensures { result ≡ [] }
    {
        Origins {
            key,
            first: IndexMap::new(alloc),
            others: Vec::new(alloc),
        }
    }

    /// Whether this record from this host is among them.
    pub fn has(&self, host: &Bytes, sought: HashedRef<'_>) -> bool
        ensures { result ≡ is_among self.now (record { host = host.now; bytes = sought.entry.bytes.now }) }
    {
        let hash = sought.hash_under(self.key);
        let bytes = sought.bytes();
        is_first(&self.first, OriginKeyRef { host, hash }, bytes)
            || is_other(&self.others, host, bytes)
    }

    /// Adds one.
    ///
    /// # Errors
    ///
    /// There is no memory for one more. Nothing is changed.
    pub fn add(&mut self, origin: Origin) -> Result<(), AllocError>
        ensures added { OnOk result (Adds origin self.old self.new) }
        ensures err { OnErr result (self.new ≡ self.old) }
    {
        let hash = origin.bytes.sought().hash_under(self.key);
        let host = &origin.host;
        if self.first.contains_key(OriginKeyRef { host, hash }) {
            return self.add_other(origin);
        }
        let Origin { host, bytes } = origin;
        drop(
            self.first
                .insert(OriginKey { host, hash }, bytes.into_bytes())?,
        );
        Ok(())
    }

    fn add_other(&mut self, origin: Origin) -> Result<(), AllocError>
        ensures added { OnOk result (Adds origin self.old self.new) }
        ensures err { OnErr result (self.new ≡ self.old) }
    {
        if self.has(&origin.host, origin.bytes.sought()) {
            return Ok(());
        }
        self.others.push(origin)?;
        Ok(())
    }

    /// Takes one out, if it is among them.
    pub fn remove(&mut self, origin: &Origin)
        ensures { Removes origin.now self.old self.new }
    {
        let hash = origin.bytes.sought().hash_under(self.key);
        let host = &origin.host;
        let key = OriginKeyRef { host, hash };
        remove_other(&mut self.others, origin);
        if is_first(&self.first, key, origin.bytes.bytes()) {
            drop(self.first.swap_remove(key));
        }
    }

    /// Takes out one that is among them. Its bytes are compared only where two records of a host have one hash.
    pub fn take_out(&mut self, origin: &Origin)
        requires { is_among self.old origin.now ≡ true }
        ensures { Removes origin.now self.old self.new }
    {
        if !self.others.is_empty() {
            return self.remove(origin);
        }
        if self.first.len() == 1 {
            return self.first.clear();
        }
        let hash = origin.bytes.sought().hash_under(self.key);
        let host = &origin.host;
        drop(self.first.swap_remove(OriginKeyRef { host, hash }));
    }
}

/// Whether the record that stands at this key has these bytes.
fn is_first(first: &IndexMap<OriginKey, Bytes>, key: OriginKeyRef<'_>, bytes: &Bytes) -> bool
    ensures { result ≡ option_map_or (same_bytes bytes.now)
        (lookup (same_key (record { host = key.entry.host.now; hash = key.entry.hash })) first.now.entries) false }
{
    match first.get(key) {
        Some(there) => *bytes == *there,
        None => false,
    }
}

/// Whether this record from this host is one of these.
fn is_other(others: &[Origin], host: &Bytes, bytes: &Bytes) -> bool
    ensures { result ≡ is_among others.now (record { host = host.now; bytes = bytes.now }) }
{
    others.iter().any(|other| *host == other.host && *bytes == *other.bytes.bytes())
}

/// Takes one out of these, if it is among them.
fn remove_other(others: &mut Vec<Origin>, origin: &Origin)
    ensures { Removes origin.now others.old.items others.new.items }
{
    others.retain(|other| *other != *origin);
}
