//! The table of mounts (RFC 1813, appendix I, 5.2).

ghost use Rattle.std.specs.Prelude.{◌≡◌, ◌==◌, ◌<◌, ◌≤◌, [], ◌∷◌, ◌++◌, false, IfOk};
ghost use Rattle.std.specs.Prelude.{◌+◌, ◌^◌, ◌↔◌, IsTrue, OnOk, drop, filter, length, map, not, take};
ghost use Rattle.std.specs.Arc.{arc_value};
ghost use Rattle.std.specs.Cmp.Lexicographic.{pointwise};
ghost use Rattle.std.specs.List.{list_any};
ghost use Rattle.nfs_objects.specs.Leaving.{leaves};
ghost use Rattle.nfs_objects.specs.MountTables.{AreDistinct, ArePacked, joined, mount_digest};
ghost use Rattle.nfs_objects.specs.Same.{same_mount};

use bytes::Bytes;
use indexmap::{Equivalent, IndexSet};
use std::alloc::{AllocError, Global};
use std::hash::{DefaultHasher, Hash, Hasher};
use std::marker::Model;
use std::sync::Arc;

/// How many mounts are kept: the newest.
pub const MOUNT_LIMIT: usize = 65536;

/// How many mounts a piece of a table has at most. Two neighbours have more, so that n mounts stand in at most
/// 2 n / 257 + 1 pieces, each of which a look-up asks.
const PIECE_LIMIT: usize = 256;

/// How many of the latest mounts a table keeps beside its pieces, at most. One more mount copies these alone.
const LATEST_LIMIT: usize = 64;

/// The hash of a host and a path. It reads all of their bytes, eight at a time.
#[tactic(auto, unfolding(crate::specs::MountTables::mount_digest))]
fn mount_digest(host: &[u8], path: &[u8]) -> u64
    ensures { result ≡ mount_digest host.now path.now }
{
    let mut hasher = DefaultHasher::new();
    hasher.write(host);
    hasher.write(path);
    hasher.finish()
}

/// A host that mounted a path, as it sent it, with the hash of both, which is taken once and kept beside them. A clause
/// sees it as the machine does.
#[derive(Drop)]
pub struct Mount {
    host: Bytes,
    path: Bytes,
    hash: u64,
}

impl Model for Mount {
    ghost use Rattle.std.specs.Prelude.{◌≡◌};
    ghost use Rattle.side_wire.specs.declared.mount.lists.MountBody.{MountBody};
    ghost use Rattle.nfs_objects.specs.MountTables.{mount_digest, mounted};

    ghost Value = { MountBody };

    ghost view = { λ m. mounted m.host m.path };

    ghost invariant = { λ m. m.hash ≡ mount_digest m.host m.path };
}

impl PartialEq for Mount {
    ghost use Rattle.std.specs.Cmp.{decided, partial_equiv_from_equiv};
    ghost use Rattle.nfs_objects.specs.Same.{same_mount};
    ghost use Rattle.nfs_objects.specs.SameLaws.{mount_decides};

    ghost eq = { same_mount };

    ghost laws = { partial_equiv_from_equiv (decided same_mount mount_decides) };

    fn eq(&self, other: &Mount) -> bool {
        self.host == other.host && self.path == other.path
    }
}

impl Eq for Mount {
    ghost use Rattle.std.specs.Cmp.{decided};
    ghost use Rattle.nfs_objects.specs.Same.{same_mount};
    ghost use Rattle.nfs_objects.specs.SameLaws.{mount_decides};

    ghost laws = { decided same_mount mount_decides };
}

impl Hash for Mount {
    ghost use Rattle.std.proofs.Common.{ap};
    ghost use Rattle.nfs_objects.specs.MountTables.{mount_input};
    ghost use Rattle.nfs_objects.specs.SameLaws.{mount_decides};

    ghost hash_input = { λ m. mount_input m.hostname m.directory };

    ghost respects_eq = { λ x y same. ap (λ m. mount_input m.hostname m.directory) ((mount_decides x y).0 same) };

    fn hash<H: Hasher>(&self, state: &mut H) {
        state.write_u64(self.hash);
    }
}

impl Clone for Mount {
    ghost is_clone = { λ mount copy. copy ≡ mount };

    fn clone(&self) -> Result<Mount, AllocError> {
        Ok(Mount {
            host: self.host.clone()?,
            path: self.path.clone()?,
            hash: self.hash,
        })
    }
}

impl Mount {
    ghost use Rattle.nfs_objects.specs.MountTables.{mounted};

    /// The host's mount of the path. It copies both, so that it keeps no record alive that they were cut from.
    fn of(alloc: Global, host: &[u8], path: &[u8]) -> Result<Mount, AllocError>
        ensures { IfOk result (λ mount. mount ≡ mounted host.now path.now) }
    {
        Ok(Mount {
            host: Bytes::copy_from_slice(alloc, host)?,
            path: Bytes::copy_from_slice(alloc, path)?,
            hash: mount_digest(host, path),
        })
    }

    /// The host, as it sent its name.
    pub fn host(&self) -> &Bytes
        ensures { result.now ≡ self.now.hostname }
    {
        &self.host
    }

    /// The path, as the host sent it.
    pub fn path(&self) -> &Bytes
        ensures { result.now ≡ self.now.directory }
    {
        &self.path
    }
}

/// A mount to look up, with its hash. It is hashed and compared as a `Mount` is.
#[derive(Clone, Copy)]
struct SoughtMount<'a> {
    host: &'a [u8],
    path: &'a [u8],
    hash: u64,
    ghost hashed: { hash ≡ mount_digest host.now path.now },
}

impl<'a> SoughtMount<'a> {
    /// The host's mount of the path. All of their bytes are read.
    fn of(host: &'a [u8], path: &'a [u8]) -> SoughtMount<'a>
        ensures host { result.host.now ≡ host.now }
        ensures path { result.path.now ≡ path.now }
    {
        let hash = mount_digest(host, path);
        SoughtMount { host, path, hash }
    }
}

impl<'a> PartialEq for SoughtMount<'a> {
    ghost use Rattle.std.specs.Cmp.{decided, on_equiv, partial_equiv_from_equiv};
    ghost use Rattle.std.specs.Ordering.{on};
    ghost use Rattle.nfs_objects.specs.MountTables.{mounted};
    ghost use Rattle.nfs_objects.specs.Same.{same_mount};
    ghost use Rattle.nfs_objects.specs.SameLaws.{mount_decides};

    ghost eq = { on (λ sought. mounted sought.host.now sought.path.now) same_mount };

    ghost laws = { partial_equiv_from_equiv
        (on_equiv (λ sought. mounted sought.host.now sought.path.now) (decided same_mount mount_decides)) };

    fn eq(&self, other: &SoughtMount<'a>) -> bool {
        self.host == other.host && self.path == other.path
    }
}

impl<'a> Eq for SoughtMount<'a> {
    ghost use Rattle.std.specs.Cmp.{decided, on_equiv};
    ghost use Rattle.nfs_objects.specs.MountTables.{mounted};
    ghost use Rattle.nfs_objects.specs.Same.{same_mount};
    ghost use Rattle.nfs_objects.specs.SameLaws.{mount_decides};

    ghost laws = { on_equiv (λ sought. mounted sought.host.now sought.path.now) (decided same_mount mount_decides) };
}

impl<'a> Hash for SoughtMount<'a> {
    ghost use Rattle.std.proofs.Common.{ap};
    ghost use Rattle.nfs_objects.specs.MountTables.{mount_input, mounted};
    ghost use Rattle.nfs_objects.specs.SameLaws.{mount_decides};

    ghost hash_input = { λ sought. mount_input sought.host.now sought.path.now };

    ghost respects_eq = { λ x y same. ap (λ m. mount_input m.hostname m.directory)
        ((mount_decides (mounted x.host.now x.path.now) (mounted y.host.now y.path.now)).0 same) };

    fn hash<H: Hasher>(&self, state: &mut H) {
        state.write_u64(self.hash);
    }
}

impl<'a> Equivalent<Mount> for SoughtMount<'a> {
    ghost use Rattle.nfs_machine.specs.MountSteps.{is_of};
    ghost use Rattle.nfs_objects.specs.MountTables.{both_alike, is_of_alike, mount_input};

    ghost equivalent = { λ sought mount. is_of sought.host.now sought.path.now mount };

    ghost respects_hash = { λ sought mount same.
        both_alike mount_input sought.host.now sought.path.now mount same };

    ghost respects_eq = { λ sought x y same. is_of_alike sought.host.now sought.path.now x y same };

    fn equivalent(&self, key: &Mount) -> bool {
        key.host.as_slice() == self.host && key.path.as_slice() == self.path
    }
}

/// The mounts that a host takes back: that of one path (RFC 1813, 5.2.3), or all that it has (5.2.4).
#[derive(Clone, Copy)]
pub enum Leaving<'a> {
    Path { host: &'a [u8], path: &'a [u8] },
    Host(&'a [u8]),
}

impl<'a> Leaving<'a> {
    /// Whether the mount is one of them.
    fn has(self, mount: &Mount) -> bool
        ensures { result ≡ leaves self.entry mount.now }
    {
        match self {
            Leaving::Path { host, path } => {
                mount.host.as_slice() == host && mount.path.as_slice() == path
            }
            Leaving::Host(host) => mount.host.as_slice() == host,
        }
    }
}

/// A part of a table: mounts in order of adding.
#[derive(Drop)]
struct MountPiece {
    mounts: IndexSet<Mount>,
}

impl Model for MountPiece {
    ghost use Rattle.std.specs.Prelude.{List};
    ghost use Rattle.side_wire.specs.declared.mount.lists.MountBody.{MountBody};

    ghost Value = { List MountBody };

    ghost view = { λ p. p.mounts.keys };
}

impl MountPiece {
    ghost use Rattle.nfs_machine.specs.MountSteps.{is_mounted};
    ghost use Rattle.nfs_objects.specs.MountTables.{AreDistinct, mounted};

    /// A piece without mounts.
    fn new(alloc: Global) -> MountPiece
        ensures { result ≡ [] }
    {
        MountPiece {
            mounts: IndexSet::new(alloc),
        }
    }

    /// A piece of this mount alone.
    fn of(alloc: Global, mount: Mount) -> Result<MountPiece, AllocError>
        ensures { IfOk result (λ piece. piece ≡ mount ∷ []) }
    {
        let mut mounts = IndexSet::new(alloc);
        mounts.insert(mount)?;
        Ok(MountPiece { mounts })
    }

    fn len(&self) -> usize
        ensures len { result ≡ length self.now }
        ensures small { result < 2 ^ 63 }
    {
        self.mounts.len()
    }

    fn as_slice(&self) -> &[Mount]
        ensures { result.now ≡ self.now }
    {
        self.mounts.as_slice()
    }

    fn is_listed(&self, sought: SoughtMount<'_>) -> bool
        ensures { result ≡ is_mounted self.now (mounted sought.entry.host.now sought.entry.path.now) }
    {
        self.mounts.contains(sought)
    }

    /// The mounts behind the first so many.
    fn behind(&self, count: usize) -> &[Mount]
        requires { count ≤ length self.now }
        ensures { result.now ≡ drop count self.now }
    {
        &self.as_slice()[count..]
    }

    /// Whether one of the first so many leaves.
    fn has_in_front(&self, count: usize, leaving: Leaving<'_>) -> bool
        requires { count ≤ length self.now }
        ensures { result ≡ list_any (leaves leaving.entry) (take count self.now) }
    {
        self.as_slice()[..count]
            .iter()
            .any(|mount| leaving.has(mount))
    }

    fn copied(&self) -> Result<MountPiece, AllocError>
        ensures { IfOk result (λ piece. piece ≡ self.now) }
    {
        Ok(MountPiece {
            mounts: self.mounts.clone()?,
        })
    }

    /// A piece with this mount last.
    fn with_last(&self, mount: Mount) -> Result<MountPiece, AllocError>
        requires { is_mounted self.now mount ≡ false }
        ensures { IfOk result (λ piece. piece ≡ self.now ++ mount ∷ []) }
    {
        let mut mounts = self.mounts.clone()?;
        mounts.insert(mount)?;
        Ok(MountPiece { mounts })
    }

    /// A piece with the mounts of both, those of the other last.
    fn joined_with(&self, other: &MountPiece) -> Result<MountPiece, AllocError>
        requires { AreDistinct (self.now ++ other.now) }
        ensures { IfOk result (λ piece. piece ≡ self.now ++ other.now) }
    {
        let mut mounts = self.mounts.clone()?;
        let mut others = other.mounts.clone()?;
        mounts.append(&mut others)?;
        Ok(MountPiece { mounts })
    }

    /// Whether a mount of it leaves. That of one path is found by its hash.
    fn has(&self, leaving: Leaving<'_>) -> bool
        ensures { result ≡ list_any (leaves leaving.entry) self.now }
    {
        match leaving {
            Leaving::Path { host, path } => self.is_listed(SoughtMount::of(host, path)),
            Leaving::Host(_) => self.as_slice().iter().any(|mount| leaving.has(mount)),
        }
    }

    /// A piece without the mounts that leave.
    fn without(&self, leaving: Leaving<'_>) -> Result<MountPiece, AllocError>
        ensures { IfOk result (λ piece. piece ≡ filter (λ m. not (leaves leaving.entry m)) self.now) }
    {
        let mut mounts = self.mounts.clone()?;
        mounts.retain(|mount| !leaving.has(mount));
        Ok(MountPiece { mounts })
    }

    /// A piece without the first so many.
    fn without_front(&self, count: usize) -> Result<MountPiece, AllocError>
        requires { count ≤ length self.now }
        ensures { IfOk result (λ piece. piece ≡ drop count self.now) }
    {
        let mut mounts = self.mounts.clone()?;
        Ok(MountPiece {
            mounts: mounts.split_off(count)?,
        })
    }
}

/// Mounts in pieces, in order of adding. They are never changed: copies share them, and what becomes of them shares the
/// pieces that stay.
#[derive(Drop)]
struct MountPieces {
    pieces: Option<Arc<Vec<Arc<MountPiece>>>>,
    len: usize,
}

impl Model for MountPieces {
    ghost use Rattle.std.specs.Prelude.{List, map};
    ghost use Rattle.std.specs.Arc.{arc_value};
    ghost use Rattle.side_wire.specs.declared.mount.lists.MountBody.{MountBody};
    ghost use Rattle.nfs_objects.specs.MountTables.{AreInPieces, items_in};

    ghost Value = { List (List MountBody) };

    ghost view = { λ p. map arc_value (items_in p.pieces) };

    ghost invariant = { λ p. AreInPieces (map arc_value (items_in p.pieces)) p.len };
}

impl MountPieces {
    ghost use Rattle.nfs_machine.specs.MountSteps.{is_mounted};
    ghost use Rattle.nfs_objects.specs.MountTables.{AreInPieces, first_piece, mounted};

    /// No pieces.
    fn new() -> MountPieces
        ensures { result ≡ [] }
    {
        MountPieces {
            pieces: None,
            len: 0,
        }
    }

    /// These pieces, which have so many mounts.
    fn of(
        alloc: Global,
        pieces: Vec<Arc<MountPiece>>,
        len: usize,
    ) -> Result<MountPieces, AllocError>
        requires { AreInPieces (map arc_value pieces.items) len }
        ensures { IfOk result (λ made. made ≡ map arc_value pieces.items) }
    {
        Ok(MountPieces {
            pieces: Some(Arc::new(alloc, pieces)?),
            len,
        })
    }

    /// The same pieces, shared.
    fn shared(&self) -> Result<MountPieces, AllocError>
        ensures { IfOk result (λ copy. copy ≡ self.now) }
    {
        let Some(pieces) = &self.pieces else {
            return Ok(MountPieces::new());
        };
        Ok(MountPieces {
            pieces: Some(Arc::try_clone(pieces)?),
            len: self.len,
        })
    }

    fn as_slice(&self) -> &[Arc<MountPiece>]
        ensures pieces { map arc_value result.now ≡ self.now }
        ensures held { AreInPieces self.now (length (joined self.now)) }
    {
        match &self.pieces {
            Some(pieces) => pieces.as_slice(),
            None => &[],
        }
    }

    /// How many mounts there are.
    fn len(&self) -> usize
        ensures len { result ≡ length (joined self.now) }
        ensures bounded { result ≤ MOUNT_LIMIT }
    {
        self.len
    }

    /// How many mounts the first piece has.
    fn first_len(&self) -> usize
        ensures { result ≡ length (first_piece self.now) }
    {
        match self.as_slice().split_first() {
            Some((first, _)) => first.len(),
            None => 0,
        }
    }

    fn is_listed(&self, sought: SoughtMount<'_>) -> bool
        ensures { result ≡ is_mounted (joined self.now) (mounted sought.entry.host.now sought.entry.path.now) }
    {
        self.as_slice().iter().any(|piece| piece.is_listed(sought))
    }

    /// Whether the mount is listed behind the first so many.
    fn is_behind(&self, count: usize, sought: SoughtMount<'_>) -> bool
        requires { count ≤ length (first_piece self.now) }
        ensures { result ≡ is_mounted (drop count (joined self.now))
            (mounted sought.entry.host.now sought.entry.path.now) }
    {
        let leaving = Leaving::Path {
            host: sought.host,
            path: sought.path,
        };
        let _ = &self.pieces;
        self.is_listed(sought) && !self.has_in_front(count, leaving)
    }

    /// Whether one of the first so many leaves.
    fn has_in_front(&self, count: usize, leaving: Leaving<'_>) -> bool
        requires { count ≤ length (first_piece self.now) }
        ensures { result ≡ list_any (leaves leaving.entry) (take count (joined self.now)) }
    {
        match self.as_slice().split_first() {
            Some((first, _)) => first.has_in_front(count, leaving),
            None => false,
        }
    }

    /// The mounts behind the first so many, and others behind them.
    fn behind<'a>(&'a self, count: usize, others: &'a [Mount]) -> Mounts<'a>
        requires { count ≤ length (first_piece self.now) }
        ensures { result ≡ drop count (joined self.now) ++ others.now }
    {
        match self.as_slice().split_first() {
            Some((first, pieces)) => Mounts {
                front: first.behind(count),
                pieces,
                others,
            },
            None => Mounts {
                front: &[],
                pieces: &[],
                others,
            },
        }
    }

    /// The pieces of the mounts behind the first so many.
    fn pieces_behind(&self, alloc: Global, count: usize) -> Result<Vec<Arc<MountPiece>>, AllocError>
        requires { count ≤ length (first_piece self.now) }
        ensures joined { IfOk result
            (λ pieces. joined (map arc_value pieces.items) ≡ drop count (joined self.now)) }
        ensures packed { IfOk result (λ pieces. ArePacked PIECE_LIMIT (map arc_value pieces.items)) }
    {
        let Some((first, others)) = self.as_slice().split_first() else {
            return Ok(Vec::new(alloc));
        };
        let mut pieces = Vec::new(alloc);
        add_piece(alloc, &mut pieces, shortened(alloc, first, count)?)?;
        add_pieces(alloc, &mut pieces, others)?;
        Ok(pieces)
    }

    /// The mounts that stay. They share with these the pieces that lose none and aren't joined.
    fn without(&self, alloc: Global, leaving: Leaving<'_>) -> Result<MountPieces, AllocError>
        ensures { IfOk result
            (λ rest. joined rest ≡ filter (λ m. not (leaves leaving.entry m)) (joined self.now)) }
    {
        let old = self.as_slice();
        let mut pieces = Vec::new(alloc);
        let mut len = 0;
        for piece in old {
            let rest = rest_of(alloc, piece, leaving)?;
            len += rest.len();
            add_piece(alloc, &mut pieces, rest)?;
        }
        MountPieces::of(alloc, pieces, len)
    }
}

/// The mounts in order of adding, at most `MOUNT_LIMIT`; each is found by its hash. A table is never changed: one more
/// mount makes another one, which shares all pieces with it, and copies some tens of mounts. All is put into pieces
/// where as many of the latest are there as are kept beside them, where one leaves that is not the first, or where all
/// of the first piece are gone.
#[derive(Drop)]
pub struct MountTable {
    older: MountPieces,
    /// How many of the first piece are no longer in the table.
    gone: usize,
    latest: MountPiece,
}

impl Model for MountTable {
    ghost use Rattle.std.specs.Prelude.{List};
    ghost use Rattle.side_wire.specs.declared.mount.lists.MountBody.{MountBody};
    ghost use Rattle.nfs_objects.specs.MountTables.{AreListed, listed};

    ghost Value = { List MountBody };

    ghost view = { λ t. listed t.older t.gone t.latest };

    ghost invariant = { λ t. AreListed t.older t.gone t.latest };
}

impl MountTable {
    ghost use Rattle.nfs_machine.specs.MountSteps.{is_mounted, newest};
    ghost use Rattle.nfs_objects.specs.MountTables.{AreInPieces, mounted};

    /// A table without mounts.
    pub fn new(alloc: Global) -> MountTable
        ensures { result ≡ [] }
    {
        MountTable {
            older: MountPieces::new(),
            gone: 0,
            latest: MountPiece::new(alloc),
        }
    }

    /// How many mounts there are.
    pub fn len(&self) -> usize
        ensures len { result ≡ length self.now }
        ensures bounded { length self.now ≤ MOUNT_LIMIT }
    {
        self.older.len() - self.gone + self.latest.len()
    }

    /// Whether there are no mounts.
    pub fn is_empty(&self) -> bool
        ensures { result ≡ (length self.now == 0) }
    {
        self.len() == 0
    }

    /// The mounts in order of adding.
    pub fn iter(&self) -> Mounts<'_>
        ensures { result ≡ self.now }
    {
        self.older.behind(self.gone, self.latest.as_slice())
    }

    /// Whether the host has mounted the path, both of which are hashed once. It takes no memory.
    pub fn is_listed(&self, host: &[u8], path: &[u8]) -> bool
        ensures { result ≡ is_mounted self.now (mounted host.now path.now) }
    {
        let sought = SoughtMount::of(host, path);
        self.older.is_behind(self.gone, sought) || self.latest.is_listed(sought)
    }

    /// Whether a mount of the table leaves. It takes no memory, and that of one path is found by its hash.
    pub fn has(&self, leaving: Leaving<'_>) -> bool
        ensures { result ≡ list_any (leaves leaving.entry) self.now }
    {
        match leaving {
            Leaving::Path { host, path } => self.is_listed(host, path),
            Leaving::Host(_) => has_one(self.iter(), leaving),
        }
    }

    /// A table with this mount last; beyond `MOUNT_LIMIT` mounts the first goes. The table itself stays as it is. The
    /// host and the path are copied, so that the table keeps no record alive that they were cut from.
    ///
    /// # Errors
    ///
    /// `AllocError` where the memory for the table was refused.
    pub fn with_mount(
        &self,
        alloc: Global,
        host: &[u8],
        path: &[u8],
    ) -> Result<MountTable, AllocError>
        requires { is_mounted self.now (mounted host.now path.now) ≡ false }
        ensures { IfOk result (λ table. table ≡ newest (self.now ++ mounted host.now path.now ∷ [])) }
    {
        let mount = Mount::of(alloc, host, path)?;
        if self.len() < MOUNT_LIMIT {
            self.with_last(alloc, mount)
        } else {
            self.without_first(alloc)?.with_last(alloc, mount)
        }
    }

    /// A table with this mount last.
    fn with_last(&self, alloc: Global, mount: Mount) -> Result<MountTable, AllocError>
        requires room { length self.now < MOUNT_LIMIT }
        requires absent { is_mounted self.now mount ≡ false }
        ensures { IfOk result (λ table. table ≡ self.now ++ mount ∷ []) }
    {
        if self.latest.len() < LATEST_LIMIT {
            return Ok(MountTable {
                older: self.older.shared()?,
                gone: self.gone,
                latest: self.latest.with_last(mount)?,
            });
        }
        Ok(MountTable {
            older: self.in_pieces(alloc)?,
            gone: 0,
            latest: MountPiece::of(alloc, mount)?,
        })
    }

    /// A table without the mounts that leave. It shares with this one the pieces that lose none and aren't joined.
    ///
    /// # Errors
    ///
    /// `AllocError` where the memory for the table was refused.
    pub fn without(&self, alloc: Global, leaving: Leaving<'_>) -> Result<MountTable, AllocError>
        ensures { IfOk result (λ table. table ≡ filter (λ m. not (leaves leaving.entry m)) self.now) }
    {
        Ok(MountTable {
            older: self.in_pieces(alloc)?.without(alloc, leaving)?,
            gone: 0,
            latest: MountPiece::new(alloc),
        })
    }

    /// A table without the first mount.
    fn without_first(&self, alloc: Global) -> Result<MountTable, AllocError>
        requires { 0 < length self.now }
        ensures { IfOk result (λ table. table ≡ drop 1 self.now) }
    {
        if self.gone < self.older.first_len() {
            return Ok(MountTable {
                older: self.older.shared()?,
                gone: self.gone + 1,
                latest: self.latest.copied()?,
            });
        }
        Ok(MountTable {
            older: self.in_pieces(alloc)?,
            gone: 1,
            latest: MountPiece::new(alloc),
        })
    }

    /// All mounts in pieces.
    fn in_pieces(&self, alloc: Global) -> Result<MountPieces, AllocError>
        ensures joined { IfOk result (λ pieces. joined pieces ≡ self.now) }
        ensures held { IfOk result (λ pieces. AreInPieces pieces (length self.now)) }
    {
        let mut pieces = self.older.pieces_behind(alloc, self.gone)?;
        add_piece(alloc, &mut pieces, Arc::new(alloc, self.latest.copied()?)?)?;
        MountPieces::of(alloc, pieces, self.len())
    }
}

impl PartialEq for MountTable {
    ghost use Rattle.std.specs.Bool.{Decides};
    ghost use Rattle.std.specs.Cmp.{decided, partial_equiv_from_equiv};
    ghost use Rattle.std.specs.Cmp.Lexicographic.{pointwise};
    ghost use Rattle.nfs_objects.specs.Same.{same_mount};
    ghost use Rattle.nfs_objects.specs.SameLaws.{mounts_decide};

    ghost eq = { pointwise same_mount };

    ghost laws = { partial_equiv_from_equiv (decided (pointwise same_mount) mounts_decide) };

    fn eq(&self, other: &MountTable) -> bool
        ensures test { result ≡ pointwise same_mount self.now other.now }
        ensures same { Decides result (self.now ≡ other.now) }
    {
        are_same(self.iter(), other.iter())
    }
}

impl Eq for MountTable {
    ghost use Rattle.std.specs.Cmp.{decided};
    ghost use Rattle.std.specs.Cmp.Lexicographic.{pointwise};
    ghost use Rattle.nfs_objects.specs.Same.{same_mount};
    ghost use Rattle.nfs_objects.specs.SameLaws.{mounts_decide};

    ghost laws = { decided (pointwise same_mount) mounts_decide };
}

/// Whether these are the same mounts in the same order, in whatever pieces.
fn are_same<'a>(mut mounts: Mounts<'a>, mut others: Mounts<'a>) -> bool
    ensures { result ≡ pointwise same_mount mounts.entry others.entry }
{
    while let Some(mount) = mounts.next() {
        match others.next() {
            Some(other) if mount == other => {}
            _ => return false,
        }
    }
    others.next().is_none()
}

/// Whether one of these mounts leaves.
fn has_one(mut mounts: Mounts<'_>, leaving: Leaving<'_>) -> bool
    ensures { result ≡ list_any (leaves leaving.entry) mounts.entry }
{
    while let Some(mount) = mounts.next() {
        if leaving.has(mount) {
            return true;
        }
    }
    false
}

/// Adds a piece. It is joined to the last where both fit into one, and left out where it is empty.
fn add_piece(
    alloc: Global,
    pieces: &mut Vec<Arc<MountPiece>>,
    piece: Arc<MountPiece>,
) -> Result<(), AllocError>
    requires { AreDistinct (joined (map arc_value pieces.old.items) ++ arc_value piece) }
    ensures joined { OnOk result
        (joined (map arc_value pieces.new.items) ≡ joined (map arc_value pieces.old.items) ++ arc_value piece) }
    ensures packed { OnOk result (ArePacked PIECE_LIMIT (map arc_value pieces.old.items)
        → ArePacked PIECE_LIMIT (map arc_value pieces.new.items)) }
{
    if piece.len() == 0 {
        return Ok(());
    }
    match pieces.split_last() {
        Some((last, _)) if fit_together(last, &piece) => {
            let both = Arc::new(alloc, last.joined_with(&piece)?)?;
            pieces.pop();
            pieces.push(both)?;
        }
        _ => pieces.push(piece)?,
    }
    Ok(())
}

/// Whether the mounts of both fit into one piece.
fn fit_together(piece: &Arc<MountPiece>, other: &Arc<MountPiece>) -> bool
    ensures { IsTrue result ↔ (length (arc_value piece.now) + length (arc_value other.now) ≤ PIECE_LIMIT) }
{
    piece.len() + other.len() <= PIECE_LIMIT
}

/// Adds these pieces in turn.
fn add_pieces(
    alloc: Global,
    pieces: &mut Vec<Arc<MountPiece>>,
    others: &[Arc<MountPiece>],
) -> Result<(), AllocError>
    requires { AreDistinct (joined (map arc_value pieces.old.items) ++ joined (map arc_value others.now)) }
    ensures joined { OnOk result (joined (map arc_value pieces.new.items)
        ≡ joined (map arc_value pieces.old.items) ++ joined (map arc_value others.now)) }
    ensures packed { OnOk result (ArePacked PIECE_LIMIT (map arc_value pieces.old.items)
        → ArePacked PIECE_LIMIT (map arc_value pieces.new.items)) }
{
    for other in others {
        add_piece(alloc, pieces, Arc::try_clone(other)?)?;
    }
    Ok(())
}

/// The piece itself where none of its mounts leaves, and else one of those that stay.
fn rest_of(
    alloc: Global,
    piece: &Arc<MountPiece>,
    leaving: Leaving<'_>,
) -> Result<Arc<MountPiece>, AllocError>
    ensures { IfOk result
        (λ rest. arc_value rest ≡ filter (λ m. not (leaves leaving.entry m)) (arc_value piece.now)) }
{
    if !piece.has(leaving) {
        return Arc::try_clone(piece);
    }
    Ok(Arc::new(alloc, piece.without(leaving)?)?)
}

/// The piece itself where none goes, and else one without the first so many.
fn shortened(
    alloc: Global,
    piece: &Arc<MountPiece>,
    count: usize,
) -> Result<Arc<MountPiece>, AllocError>
    requires { count ≤ length (arc_value piece.now) }
    ensures { IfOk result (λ rest. arc_value rest ≡ drop count (arc_value piece.now)) }
{
    if count == 0 {
        return Arc::try_clone(piece);
    }
    Ok(Arc::new(alloc, piece.without_front(count)?)?)
}

/// Lends the mounts of a table, in order of adding.
#[derive(Drop)]
pub struct Mounts<'a> {
    front: &'a [Mount],
    pieces: &'a [Arc<MountPiece>],
    others: &'a [Mount],
}

impl<'a> Model for Mounts<'a> {
    ghost use Rattle.std.specs.Prelude.{List, ◌++◌, map};
    ghost use Rattle.std.specs.Arc.{arc_value};
    ghost use Rattle.side_wire.specs.declared.mount.lists.MountBody.{MountBody};
    ghost use Rattle.nfs_objects.specs.MountTables.{joined};

    ghost Value = { List MountBody };

    ghost view = { λ m. m.front.now ++ joined (map arc_value m.pieces.now) ++ m.others.now };
}

impl<'a> Iterator for Mounts<'a> {
    ghost use Rattle.std.specs.Iterator.{YieldsFirstRef, item_count};

    type Item = &'a Mount;

    ghost next_gives = { YieldsFirstRef (λ mounts. mounts) };

    ghost remaining = { item_count (λ mounts. mounts) };

    fn next(&mut self) -> Option<&'a Mount> {
        'pieces: loop {
            if let Some((mount, rest)) = self.front.split_first() {
                self.front = rest;
                return Some(mount);
            }
            let Some((piece, rest)) = self.pieces.split_first() else {
                let (mount, rest) = self.others.split_first()?;
                self.others = rest;
                return Some(mount);
            };
            self.front = piece.as_slice();
            self.pieces = rest;
        }
    }
}
