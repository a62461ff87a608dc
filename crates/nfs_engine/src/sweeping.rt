//! Sweeps: what a dead file leaves in the store goes page by page, between calls, and so do map pages of other files
//! whose blocks are remains. A file is dead where its export does not live: then it stands for nothing.

ghost use Rattle.std.specs.Prelude.{◌≡◌, ◌==◌, ◌+◌, ◌*◌, ◌%◌, ◌<◌, ◌^◌, ℕ, IfOk, IfSome, IsSome, MatchOption};
ghost use Rattle.std.specs.Prelude.{None, Ok, OnErr, Some};
ghost use Rattle.std.specs.Prelude.{false, is_some, option_copied, option_map, true};
ghost use Rattle.std.specs.Arc.{arc_value};
ghost use Rattle.std.specs.Bool.{Decides};
ghost use Rattle.std.specs.List.{list_any};
ghost use Rattle.nfs_machine.specs.Exports.{LivingExport as Living};
ghost use Rattle.nlm_ranges.specs.Buckets.{bucket_count, file_in};
ghost use Rattle.nfs_objects.specs.Stands.{bucket_at, bucket_there, exports_of, inode_of};
ghost use Rattle.nfs_objects.specs.Store.{give};
ghost use Rattle.nfs_objects.specs.declared.address.Addr.{Addr as Address};
ghost use Rattle.nfs_objects.specs.declared.address.Addr.TheVariants as addresses;
ghost use Rattle.nfs_objects.specs.declared.object.Inode.{Inode as Node};
ghost use Rattle.nfs_engine.specs.Book.{store_in};
ghost use Rattle.nfs_engine.specs.Shards.{hold_at, slot_at};
ghost use Rattle.nfs_engine.specs.Sweeps.{IsDead, IsDeadPage, IsFreeOf, IsPageFree, IsRemainsPage, MaySweep};
ghost use Rattle.nfs_engine.specs.Sweeps.{SweepValue, SweepsShard, inode_left, inode_with, swept_at};
ghost use Rattle.nfs_engine.specs.Tables.{store_of};

use crate::book::Book;
use crate::objects::Objects;
use crate::shard::Shard;
use nfs_objects::{
    Addr, Bits, Content, FileMap, Inode, LivingExport, MAP_BLOCKS, Mode, Object, share,
};
use nlm_ranges::bucket_index;
use std::alloc::{AllocError, Global};
use std::marker::Model;
use std::sync::Arc;

/// How many objects a sweep hands out at most: 512 blocks, their map page and the inode.
pub const SWEPT: usize = 514;

/// A map page of a dead file, or one of remains, which is to go with its blocks, and what is left of the file's inode
/// then. Only `Book::sweep_of` makes one.
#[derive(Drop)]
pub struct Sweep {
    number: u64,
    page: u64,
    inode: Option<Arc<Object>>,
}

impl Model for Sweep {
    ghost use Rattle.std.specs.Prelude.{◌<◌, option_map};
    ghost use Rattle.std.specs.Arc.{arc_value};
    ghost use Rattle.nfs_engine.specs.Sweeps.{SweepValue};

    ghost Value = { SweepValue };

    ghost view = { λ s. record { file = s.number; page = s.page; inode = option_map arc_value s.inode } };

    ghost invariant = { λ s. s.page < 512 };
}

impl Sweep {
    /// The number of the file.
    pub fn file(&self) -> u64
        ensures { result ≡ self.now.file }
    {
        self.number
    }

    /// The first of the 512 blocks that go.
    pub fn first_block(&self) -> u64
        ensures value { result ≡ self.now.page * 512 }
        ensures below { result < 2 ^ 18 }
    {
        self.page * MAP_BLOCKS
    }

    /// What is left of the file's inode.
    fn left(&self) -> &Option<Arc<Object>>
        ensures { option_map arc_value result.now ≡ self.now.inode }
    {
        &self.inode
    }

    /// The same, as the book gets it.
    fn into_left(self) -> Option<Arc<Object>>
        ensures { option_map arc_value result ≡ self.inode }
    {
        let Sweep {
            number: _,
            page: _,
            inode,
        } = self;
        inode
    }

    /// Where its map page stands.
    fn map(&self) -> Addr
        ensures { result ≡ addresses.Map self.now.file self.now.page }
    {
        Addr::Map {
            file: self.number,
            page: self.page,
        }
    }

    /// Where one of its 512 blocks stands.
    fn block(&self, place: u64) -> Addr
        requires { place < 512 }
        ensures { result ≡ addresses.Block self.now.file (self.now.page * 512 + place) }
    {
        Addr::Block {
            file: self.number,
            index: self.page * MAP_BLOCKS + place,
        }
    }

    /// Whether nothing is left of the file.
    pub fn is_last(&self) -> bool
        ensures { Decides result (self.now.inode ≡ None) }
    {
        self.inode.is_none()
    }
}

impl Book {
    /// What the next sweep of a file takes away: its last map page where it is dead, and else the last one of remains.
    /// None where nothing may go: no file stands at the number, or its export lives, or something of locks stands for
    /// it, and it has no remains.
    ///
    /// # Errors
    ///
    /// There is no memory for what is left of the inode.
    pub fn sweep_of(&self, alloc: Global, number: u64) -> Result<Option<Sweep>, AllocError>
        ensures may { IfOk result (λ s. IfSome s (MaySweep (store_in self.now))) }
        ensures file { IfOk result (λ s. IfSome s (λ w. w.file ≡ number)) }
        ensures none { result ≡ Ok None → (w : SweepValue) → w.file ≡ number → MaySweep (store_in self.now) w → ⊥ }
    {
        match self.dead_sweep(alloc, number)? {
            Some(sweep) => Ok(Some(sweep)),
            None => self.remains_sweep(alloc, number),
        }
    }

    /// The last map page of a dead file.
    fn dead_sweep(&self, alloc: Global, number: u64) -> Result<Option<Sweep>, AllocError>
        ensures may { IfOk result (λ s. IfSome s (IsDeadPage (store_in self.now))) }
        ensures file { IfOk result (λ s. IfSome s (λ w. w.file ≡ number)) }
        ensures none { result ≡ Ok None → (w : SweepValue) → w.file ≡ number → IsDeadPage (store_in self.now) w → ⊥ }
    {
        let Some(inode) = self.dead_inode(number) else {
            return Ok(None);
        };
        let Content::Regular(map) = &inode.content else {
            return Ok(None);
        };
        let all = map.pages();
        let page = all.end().saturating_sub(1);
        let pages = all.below(page);
        let left = inode_with(alloc, inode, map, pages)?;
        Ok(Some(Sweep {
            number,
            page,
            inode: left,
        }))
    }

    /// The last map page of a living file whose blocks are remains.
    fn remains_sweep(&self, alloc: Global, number: u64) -> Result<Option<Sweep>, AllocError>
        ensures may { IfOk result (λ s. IfSome s (IsRemainsPage (store_in self.now))) }
        ensures file { IfOk result (λ s. IfSome s (λ w. w.file ≡ number)) }
        ensures none { result ≡ Ok None → (w : SweepValue) → w.file ≡ number
            → IsRemainsPage (store_in self.now) w → ⊥ }
    {
        let Some(inode) = self.inode(number) else {
            return Ok(None);
        };
        if !is_listed(self.exports(), inode.export) {
            return Ok(None);
        }
        let Content::Regular(map) = &inode.content else {
            return Ok(None);
        };
        let Some(page) = map.last_remains() else {
            return Ok(None);
        };
        let left = inode_left(alloc, inode, map, map.pages().without(page))?;
        Ok(Some(Sweep {
            number,
            page,
            inode: Some(left),
        }))
    }

    /// The inode at a number, if it is dead, and nothing of locks stands for it.
    fn dead_inode(&self, number: u64) -> Option<&Inode>
        ensures { MatchOption result ((i : Node) → IsDead (store_in self.now) number i → ⊥)
            (λ i. IsDead (store_in self.now) number i.now) }
    {
        let inode = self.inode(number)?;
        if is_listed(self.exports(), inode.export) {
            return None;
        }
        if self.has_locks(number) {
            return None;
        }
        Some(inode)
    }

    /// The inode at a number.
    fn inode(&self, number: u64) -> Option<&Inode>
        ensures { option_copied result ≡ inode_of ((store_in self.now).at (addresses.Inode number)) }
    {
        inode_in(self.find(Addr::Inode(number))?)
    }

    /// The exports that live.
    fn exports(&self) -> &[LivingExport]
        ensures { result.now ≡ exports_of ((store_in self.now).at addresses.Exports) }
    {
        match self.find(Addr::Exports) {
            Some(object) => exports_in(object),
            None => &[],
        }
    }

    /// Whether anything of locks stands for the file at a number.
    fn has_locks(&self, number: u64) -> bool
        ensures { result ≡ is_some (file_in (bucket_there (store_in self.now) (number % bucket_count)) number) }
    {
        match self.find(Addr::Locks(bucket_index(number))) {
            Some(object) => is_locked_in(object, number),
            None => false,
        }
    }
}

/// The inode that this is.
fn inode_in(object: &Arc<Object>) -> Option<&Inode>
    ensures { option_copied result ≡ inode_of (Some (arc_value object.now)) }
{
    match &**object {
        Object::Inode(inode) => Some(inode),
        _ => None,
    }
}

/// The exports of this table; none where it is no such table.
fn exports_in(object: &Arc<Object>) -> &[LivingExport]
    ensures { result.now ≡ exports_of (Some (arc_value object.now)) }
{
    match &**object {
        Object::Exports(table) => table.list(),
        _ => &[],
    }
}

/// Whether a bucket of locks has something for the file at a number.
fn is_locked_in(object: &Arc<Object>, number: u64) -> bool
    ensures { result ≡ is_some (file_in (bucket_at (Some (arc_value object.now))) number) }
{
    match &**object {
        Object::Locks(bucket) => bucket.find(number).is_some(),
        _ => false,
    }
}

/// Whether an export has this number.
fn is_listed(exports: &[LivingExport], number: u32) -> bool
    ensures { result ≡ list_any (λ (e : Living). e.number == number) exports.now }
{
    exports.iter().any(|export| export.number() == number)
}

/// The inode of a file with these map pages; None where there are none.
fn inode_with(
    alloc: Global,
    inode: &Inode,
    map: &FileMap,
    pages: Bits,
) -> Result<Option<Arc<Object>>, AllocError>
    ensures { IfOk result (λ left. option_map arc_value left
        ≡ inode_with inode.now (record map.now { pages = pages })) }
{
    if pages.is_none() {
        return Ok(None);
    }
    Ok(Some(inode_left(alloc, inode, map, pages)?))
}

/// The inode of a file with these map pages.
fn inode_left(
    alloc: Global,
    inode: &Inode,
    map: &FileMap,
    pages: Bits,
) -> Result<Arc<Object>, AllocError>
    ensures { IfOk result (λ left. Some (arc_value left) ≡ inode_left inode.now (record map.now { pages = pages })) }
{
    let map = FileMap::new(map.size(), pages)?.with_remains(map.remains());
    let inode = Inode {
        export: inode.export,
        generation: inode.generation,
        content: Content::Regular(map),
        mode: inode.mode,
        uid: inode.uid,
        gid: inode.gid,
        links: inode.links,
        accessed: inode.accessed,
        modified: inode.modified,
        changed: inode.changed,
        verifier: inode.verifier,
    };
    let object = Arc::new(alloc, Object::Inode(inode))?;
    Ok(object)
}

impl Objects {
    /// Makes a sweep. It takes no memory.
    pub(crate) fn sweep(&mut self, sweep: Sweep)
        requires { IsSome sweep.inode
            → IsSome ((store_of self.old.slots).at (addresses.Inode sweep.file)) }
        ensures at { (a : Address) → (store_of self.new.slots).at a
            ≡ swept_at sweep (store_of self.old.slots).at a }
        ensures last { (n : ℕ) → (store_of self.new.slots).last n
            ≡ give (store_of self.old.slots).last (addresses.Inode sweep.file) sweep.inode n }
    {
        self.write(sweep.map(), None);
        for place in 0..MAP_BLOCKS {
            self.write(sweep.block(place), None);
        }
        let number = sweep.file();
        let left = sweep.into_left();
        self.write(Addr::Inode(number), left);
    }
}

impl Shard {
    /// Makes a sweep, where nobody holds any of its addresses, and the inode of which something is left stands here:
    /// else it is not made, and nothing is changed. What stood is handed out, so that it can be dropped when no lock
    /// is held.
    ///
    /// # Errors
    ///
    /// There is no room for `SWEPT` objects more in what is handed out, and no memory for it. Nothing is changed.
    pub fn sweep(&mut self, sweep: &Sweep, swept: &mut Vec<Arc<Object>>) -> Result<bool, AllocError>
        ensures free { IfOk result (λ done. Decides done (IsFreeOf self.old sweep.now)) }
        ensures done { IfOk result (λ done. done ≡ true → SweepsShard self.old self.new sweep.now) }
        ensures refused { IfOk result (λ done. done ≡ false → self.new ≡ self.old) }
        ensures err { OnErr result (self.new ≡ self.old) }
    {
        if !self.is_free_of(sweep) {
            return Ok(false);
        }
        swept.reserve(SWEPT)?;
        let left = share(sweep.left())?;
        self.make_sweep(sweep, left, swept);
        Ok(true)
    }

    /// Makes a sweep that is free here.
    fn make_sweep(&mut self, sweep: &Sweep, left: Option<Arc<Object>>, swept: &mut Vec<Arc<Object>>)
        requires left { option_map arc_value left ≡ sweep.now.inode }
        requires free { IsFreeOf self.old sweep.now }
        ensures { SweepsShard self.old self.new sweep.now }
    {
        let mut page = None;
        self.replace(sweep.map(), &mut page);
        hand_out(swept, page);
        for place in 0..MAP_BLOCKS {
            let mut block = None;
            self.replace(sweep.block(place), &mut block);
            hand_out(swept, block);
        }
        let mut left = left;
        self.replace(Addr::Inode(sweep.file()), &mut left);
        hand_out(swept, left);
    }

    /// Whether nobody holds any of the addresses of a sweep, and the inode of which something is left stands here.
    fn is_free_of(&self, sweep: &Sweep) -> bool
        ensures { Decides result (IsFreeOf self.now sweep.now) }
    {
        if !self.has_left(sweep) {
            return false;
        }
        if !self.is_free(Addr::Inode(sweep.file())) {
            return false;
        }
        self.is_page_free(sweep)
    }

    /// Whether the inode of which something is left stands here, if anything is left.
    fn has_left(&self, sweep: &Sweep) -> bool
        ensures { Decides result (IsSome sweep.now.inode
            → IsSome (slot_at self.now (addresses.Inode sweep.now.file)).object) }
    {
        if sweep.is_last() {
            return true;
        }
        self.stands_at(Addr::Inode(sweep.file()))
    }

    /// Whether nobody holds the map page of a sweep, or one of its blocks.
    fn is_page_free(&self, sweep: &Sweep) -> bool
        ensures { Decides result (IsPageFree self.now sweep.now.file sweep.now.page) }
    {
        for place in 0..MAP_BLOCKS {
            if !self.is_free(sweep.block(place)) {
                return false;
            }
        }
        self.is_free(sweep.map())
    }

    /// Whether nobody holds an address.
    fn is_free(&self, address: Addr) -> bool
        ensures { Decides result ((j : ℕ) → hold_at self.now address j ≡ None) }
    {
        self.excluder(address, Mode::Exclusive).is_none()
    }
}

/// Hands out what stood somewhere, if anything did, where there is room.
fn hand_out(swept: &mut Vec<Arc<Object>>, stood: Option<Arc<Object>>) {
    if let Some(object) = stood {
        let _ = swept.push(object);
    }
}
