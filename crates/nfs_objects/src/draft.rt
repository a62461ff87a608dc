//! What a call has read, and what it would write.

ghost use Rattle.std.specs.Prelude.{◌≡◌, ◌≤◌, ◌⊎◌, ◌∷◌, ◌++◌, [], IfOk, IsSome, MatchResult, OnErr, OnOk, Some, length};
ghost use Rattle.std.specs.Prelude.{MatchOption, option_copied, option_map};
ghost use Rattle.std.specs.Arc.{arc_value};
ghost use Rattle.nlm_ranges.specs.Buckets.{IsBucket};
ghost use Rattle.nfs_objects.specs.Asks.{AreFirst, IsFirst, WantsNumber, WantsNumbers, IsNeed, Lacks};
ghost use Rattle.nfs_objects.specs.ExportTables.{IsExportTable, table_in};
ghost use Rattle.nfs_objects.specs.Fits.{IsView};
ghost use Rattle.nfs_objects.specs.Knows.{Knows};
ghost use Rattle.nfs_objects.specs.Modes.{Suits, held_mode};
ghost use Rattle.nfs_objects.specs.Drafts.{MayChange, MayGive, MayWrite};
ghost use Rattle.nfs_objects.specs.Promise.{Given, Held};
ghost use Rattle.nfs_objects.specs.Stands.{IsFitting, block_of, export_table_of, map_of, mounts_in, page_of, part_of};
ghost use Rattle.nfs_objects.specs.Stands.{stored_map, stored_page};
ghost use Rattle.nfs_objects.specs.Stands.{bucket_at, bucket_in, stored_bucket};
ghost use Rattle.nfs_objects.specs.Sums.{stored_usage, usage_of};
ghost use Rattle.nfs_objects.specs.Values.{change_value, known_at, modes_value, new_draft, pointed, with_written};
ghost use Rattle.nfs_objects.specs.Values.{written_at};

use crate::address::{Addr, is_same};
use crate::bits::Bits;
use crate::change::{Change, Missing, Wish, Write};
use crate::directory::Entries;
use crate::entry_map::NamePlace;
use crate::entry_page::EntryPage;
use crate::exports::ExportTable;
use crate::modes::{Mode, Modes};
use crate::mounts::MountTable;
use crate::object::{
    Inode, Object, block_known, bucket_known, export_table_known, map_known, mount_table,
    page_known, part_known,
};
use crate::usage::{Usage, usage_known};
use crate::view::{Reserved, View};
use bytes::Bytes;
use nfs_machine::{Ctx, Reply};
use nlm_ranges::LockBucket;
use side_wire::Message;
use std::alloc::{AllocError, Global};
use std::marker::Model;
use std::sync::Arc;

/// A call in the making: the context and the view that it stands on, the modes in which it holds what it reads, and the
/// writes and messages so far.
#[derive(Drop)]
pub struct Draft<'a> {
    alloc: Global,
    ctx: &'a Ctx,
    view: &'a View,
    modes: Modes<'a>,
    writes: Vec<Write>,
    messages: Vec<Message>,
}

impl<'a> Model for Draft<'a> {
    ghost use Rattle.std.specs.Prelude.{map};
    ghost use Rattle.nfs_objects.specs.Drafts.{IsDraft};
    ghost use Rattle.nfs_objects.specs.Values.{DraftValue, modes_value, write_value};

    ghost Value = { DraftValue };

    ghost view = { λ d. record {
      ctx = d.ctx.now;
      view = d.view.now;
      modes = modes_value d.modes;
      writes = map write_value d.writes.items;
      messages = d.messages.items;
    } };

    ghost invariant = { λ d. IsDraft (modes_value d.modes) d.view.now (map write_value d.writes.items) };
}

impl<'a> Draft<'a> {
    /// A draft with no write. The view holds all that it has as the modes want.
    pub fn new(alloc: Global, ctx: &'a Ctx, view: &'a View, modes: Modes<'a>) -> Draft<'a>
        requires { Suits (modes_value modes) view.now }
        ensures { result ≡ new_draft ctx.now view.now (modes_value modes.entry) }
    {
        Draft {
            alloc,
            ctx,
            view,
            modes,
            writes: Vec::new(alloc),
            messages: Vec::new(alloc),
        }
    }

    /// What the call was made under.
    pub fn ctx(&self) -> &'a Ctx
        ensures { result.now ≡ self.now.ctx }
    {
        self.ctx
    }

    /// Whence its memory comes.
    pub fn alloc(&self) -> Global {
        self.alloc
    }

    /// What would stand at an address: the last write to it, else what the view shows.
    ///
    /// # Errors
    ///
    /// `Need` of the address where it was not read, and `Memory`.
    pub fn find(&self, address: Addr) -> Result<&Option<Arc<Object>>, Missing>
        ensures { MatchResult result
            (λ object. known_at self.now address ≡ Some (option_map arc_value object.now))
            (Lacks self.now address) }
    {
        if let Some(object) = self.written(address) {
            return Ok(object);
        }
        match self.view.find(address) {
            Some(object) => Ok(object),
            None => Err(lacking(self.alloc, address, self.mode(address))),
        }
    }

    /// The wish for what stands at an address, where the draft does not know it.
    pub fn missing(&self, address: Addr) -> Option<Wish>
        ensures { MatchOption result (IsSome (known_at self.now address))
            (λ wish. (known_at self.now address ≡ None) ×
            (wish ≡ (address, held_mode self.now.modes self.now.view address))) }
    {
        if let Some(_object) = self.written(address) {
            return None;
        }
        if let Some(_object) = self.view.find(address) {
            return None;
        }
        Some((address, self.mode(address)))
    }

    /// The mode in which an address is wanted.
    fn mode(&self, address: Addr) -> Mode
        ensures { result ≡ held_mode self.now.modes self.now.view address }
    {
        self.modes.at(self.view, address)
    }

    /// What was written to an address last.
    fn written(&self, address: Addr) -> Option<&Option<Arc<Object>>>
        ensures { option_map pointed result ≡ written_at None self.now.writes address }
    {
        let mut last = None;
        for write in &self.writes {
            if is_same(write.address, address) {
                last = Some(&write.object);
            }
        }
        last
    }

    /// The table of exports, if there is one.
    ///
    /// # Errors
    ///
    /// `Need` of it where it was not read, and `Memory`.
    pub fn export_table(&self) -> Result<Option<&ExportTable>, Missing>
        ensures known { MatchResult result
            (λ table. option_map export_table_of (known_at self.now Addr.Exports)
            ≡ Some (table_in (option_copied table)))
            (Lacks self.now Addr.Exports) }
        ensures table { IfOk result (λ table. IsExportTable (table_in (option_copied table))) }
    {
        Ok(export_table_known(self.find(Addr::Exports)?))
    }

    /// The table of mounts, if there is one.
    ///
    /// # Errors
    ///
    /// `Need` of it where it was not read, and `Memory`.
    pub fn mounts(&self) -> Result<Option<&MountTable>, Missing>
        ensures { MatchResult result
            (λ table. IsSome (known_at self.now Addr.Mounts) ×
            Knows self.now (λ k. k.state.mounts ≡ mounts_in (option_copied table)))
            (Lacks self.now Addr.Mounts) }
    {
        Ok(mount_table(self.find(Addr::Mounts)?))
    }

    /// Puts an inode at a number that was read. It keeps the generation that lives there, or has the one that was
    /// reserved.
    ///
    /// # Errors
    ///
    /// `AllocError` where the memory was refused. It changes nothing.
    pub fn put(&mut self, number: u64, inode: Inode) -> Result<(), AllocError>
        requires alone { MayChange self.old (Addr.Inode number) }
        requires known { IsSome (known_at self.old (Addr.Inode number)) }
        requires given { MayGive self.old number inode.generation }
        ensures ok { OnOk result (self.new ≡ with_written self.old (Addr.Inode number) (Some (Object.Inode inode))) }
        ensures fits { OnOk result (IsFitting number inode) }
        ensures err { OnErr result (self.new ≡ self.old) }
    {
        // The size brings its bound.
        let _size = inode.content.size();
        let object = Arc::new(self.alloc, Object::Inode(inode))?;
        self.write(Addr::Inode(number), Some(object))
    }

    /// Frees a number that was read.
    ///
    /// # Errors
    ///
    /// `AllocError` where the memory was refused. It changes nothing.
    pub fn free(&mut self, number: u64) -> Result<(), AllocError>
        requires alone { MayChange self.old (Addr.Inode number) }
        requires known { IsSome (known_at self.old (Addr.Inode number)) }
        ensures ok { OnOk result (self.new ≡ with_written self.old (Addr.Inode number) None) }
        ensures err { OnErr result (self.new ≡ self.old) }
    {
        self.write(Addr::Inode(number), None)
    }

    /// Which blocks of a page of a file are there.
    ///
    /// # Errors
    ///
    /// `Need` of its address where it was not read, and `Memory`.
    pub fn map(&self, file: u64, page: u64) -> Result<Bits, Missing>
        ensures { MatchResult result
            (λ bits. option_map map_of (known_at self.now (Addr.Map file page)) ≡ Some bits)
            (Lacks self.now (Addr.Map file page)) }
    {
        Ok(map_known(self.find(Addr::Map { file, page })?))
    }

    /// The bytes of a block of a file; None where it is absent.
    ///
    /// # Errors
    ///
    /// `Need` of its address where it was not read, and `Memory`.
    pub fn block(&self, file: u64, index: u64) -> Result<Option<&Bytes>, Missing>
        ensures { MatchResult result
            (λ block. option_map block_of (known_at self.now (Addr.Block file index)) ≡ Some (option_copied block))
            (Lacks self.now (Addr.Block file index)) }
    {
        Ok(block_known(self.find(Addr::Block { file, index })?))
    }

    /// Puts which blocks of a page of a file are there in the place of what was read; where there are none, nothing
    /// stands there.
    ///
    /// # Errors
    ///
    /// `AllocError` where the memory was refused. It changes nothing.
    pub fn put_map(&mut self, file: u64, page: u64, bits: Bits) -> Result<(), AllocError>
        requires alone { MayChange self.old (Addr.Map file page) }
        requires known { IsSome (known_at self.old (Addr.Map file page)) }
        ensures ok { OnOk result (self.new ≡ with_written self.old (Addr.Map file page) (stored_map bits)) }
        ensures err { OnErr result (self.new ≡ self.old) }
    {
        let address = Addr::Map { file, page };
        if bits.is_none() {
            return self.write(address, None);
        }
        let object = Arc::new(self.alloc, Object::Map(bits))?;
        self.write(address, Some(object))
    }

    /// Puts a block of a file in the place of what was read.
    ///
    /// # Errors
    ///
    /// `AllocError` where the memory was refused. It changes nothing.
    pub fn put_block(&mut self, file: u64, index: u64, bytes: Bytes) -> Result<(), AllocError>
        requires alone { MayChange self.old (Addr.Block file index) }
        requires known { IsSome (known_at self.old (Addr.Block file index)) }
        ensures ok { OnOk result
            (self.new ≡ with_written self.old (Addr.Block file index) (Some (Object.Block bytes))) }
        ensures err { OnErr result (self.new ≡ self.old) }
    {
        let object = Arc::new(self.alloc, Object::Block(bytes))?;
        self.write(Addr::Block { file, index }, Some(object))
    }

    /// Frees a block of a file that was read.
    ///
    /// # Errors
    ///
    /// `AllocError` where the memory was refused. It changes nothing.
    pub fn free_block(&mut self, file: u64, index: u64) -> Result<(), AllocError>
        requires alone { MayChange self.old (Addr.Block file index) }
        requires known { IsSome (known_at self.old (Addr.Block file index)) }
        ensures ok { OnOk result (self.new ≡ with_written self.old (Addr.Block file index) None) }
        ensures err { OnErr result (self.new ≡ self.old) }
    {
        self.write(Addr::Block { file, index }, None)
    }

    /// A page of a directory's entries; None where there is none.
    ///
    /// # Errors
    ///
    /// `Need` of its address where it was not read, and `Memory`.
    pub fn page(&self, directory: u64, page: u64) -> Result<Option<&EntryPage>, Missing>
        ensures { MatchResult result
            (λ entries. option_map page_of (known_at self.now (Addr.Page directory page))
            ≡ Some (option_copied entries))
            (Lacks self.now (Addr.Page directory page)) }
    {
        Ok(page_known(self.find(Addr::Page { directory, page })?))
    }

    /// A part of a directory's names; None where there is none.
    ///
    /// # Errors
    ///
    /// `Need` of its address where it was not read, and `Memory`.
    pub fn part(&self, directory: u64, place: NamePlace) -> Result<Option<&Entries>, Missing>
        ensures { MatchResult result
            (λ entries. option_map part_of (known_at self.now (Addr.Part directory place.bucket place.part))
            ≡ Some (option_copied entries))
            (Lacks self.now (Addr.Part directory place.bucket place.part)) }
    {
        let address = Addr::Part {
            directory,
            bucket: place.bucket,
            part: place.part,
        };
        Ok(part_known(self.find(address)?))
    }

    /// Puts a page of a directory's entries in the place of what was read; where it has none, nothing stands there.
    ///
    /// # Errors
    ///
    /// `AllocError` where the memory was refused. It changes nothing.
    pub fn put_page(
        &mut self,
        directory: u64,
        page: u64,
        entries: EntryPage,
    ) -> Result<(), AllocError>
        requires alone { MayChange self.old (Addr.Page directory page) }
        requires known { IsSome (known_at self.old (Addr.Page directory page)) }
        ensures ok { OnOk result (self.new ≡ with_written self.old (Addr.Page directory page) (stored_page entries)) }
        ensures err { OnErr result (self.new ≡ self.old) }
    {
        let address = Addr::Page { directory, page };
        if entries.is_empty() {
            return self.write(address, None);
        }
        let object = Arc::new(self.alloc, Object::Page(entries))?;
        self.write(address, Some(object))
    }

    /// Puts a part of a directory's names in the place of what was read.
    ///
    /// # Errors
    ///
    /// `AllocError` where the memory was refused. It changes nothing.
    pub fn put_part(
        &mut self,
        directory: u64,
        place: NamePlace,
        entries: Entries,
    ) -> Result<(), AllocError>
        requires alone { MayChange self.old (Addr.Part directory place.bucket place.part) }
        requires known { IsSome (known_at self.old (Addr.Part directory place.bucket place.part)) }
        ensures ok { OnOk result (self.new ≡ with_written self.old (Addr.Part directory place.bucket place.part)
            (Some (Object.Part entries))) }
        ensures err { OnErr result (self.new ≡ self.old) }
    {
        let address = Addr::Part {
            directory,
            bucket: place.bucket,
            part: place.part,
        };
        let object = Arc::new(self.alloc, Object::Part(entries))?;
        self.write(address, Some(object))
    }

    /// Frees an address that was read.
    ///
    /// # Errors
    ///
    /// `AllocError` where the memory was refused. It changes nothing.
    pub fn free_at(&mut self, address: Addr) -> Result<(), AllocError>
        requires alone { MayChange self.old address }
        requires known { IsSome (known_at self.old address) }
        ensures ok { OnOk result (self.new ≡ with_written self.old address None) }
        ensures err { OnErr result (self.new ≡ self.old) }
    {
        self.write(address, None)
    }

    /// Puts a table of mounts in the place of the one that was read.
    ///
    /// # Errors
    ///
    /// `AllocError` where the memory was refused. It changes nothing.
    pub fn put_mounts(&mut self, table: MountTable) -> Result<(), AllocError>
        requires alone { self.old.modes.mounts ≡ Mode.Exclusive }
        requires known { IsSome (known_at self.old Addr.Mounts) }
        ensures ok { OnOk result (self.new ≡ with_written self.old Addr.Mounts (Some (Object.Mounts table))) }
        ensures err { OnErr result (self.new ≡ self.old) }
    {
        let object = Arc::new(self.alloc, Object::Mounts(table))?;
        self.write(Addr::Mounts, Some(object))
    }

    /// Puts a table of exports in the place of the one that was read.
    ///
    /// # Errors
    ///
    /// `AllocError` where the memory was refused. It changes nothing.
    pub fn put_exports(&mut self, table: ExportTable) -> Result<(), AllocError>
        requires alone { self.old.modes.exports ≡ Mode.Exclusive }
        requires known { IsSome (known_at self.old Addr.Exports) }
        ensures ok { OnOk result (self.new ≡ with_written self.old Addr.Exports (Some (Object.Exports table))) }
        ensures table { OnOk result (IsExportTable table) }
        ensures err { OnErr result (self.new ≡ self.old) }
    {
        // The list brings what is true of every table.
        let _list = table.list();
        let object = Arc::new(self.alloc, Object::Exports(table))?;
        self.write(Addr::Exports, Some(object))
    }

    /// What a group of an export's objects uses.
    ///
    /// # Errors
    ///
    /// `Need` of its address where it was not read, and `Memory`.
    pub fn usage(&self, export: u32, group: u8) -> Result<Usage, Missing>
        ensures { MatchResult result
            (λ usage. option_map usage_of (known_at self.now (Addr.Usage export group)) ≡ Some usage)
            (Lacks self.now (Addr.Usage export group)) }
    {
        Ok(usage_known(self.find(Addr::Usage { export, group })?))
    }

    /// Puts what a group of an export's objects uses in the place of what was read; where it is that of no object,
    /// nothing stands there.
    ///
    /// # Errors
    ///
    /// `AllocError` where the memory was refused. It changes nothing.
    pub fn put_usage(&mut self, export: u32, group: u8, usage: Usage) -> Result<(), AllocError>
        requires alone { self.old.modes.inodes ≡ Mode.Exclusive }
        requires known { IsSome (known_at self.old (Addr.Usage export group)) }
        ensures ok { OnOk result (self.new ≡ with_written self.old (Addr.Usage export group) (stored_usage usage)) }
        ensures err { OnErr result (self.new ≡ self.old) }
    {
        let address = Addr::Usage { export, group };
        if usage.is_none() {
            return self.write(address, None);
        }
        let object = Arc::new(self.alloc, Object::Usage(usage))?;
        self.write(address, Some(object))
    }

    /// What the files of a bucket have of locks, if any has anything.
    ///
    /// # Errors
    ///
    /// `Need` of its address where it was not read, and `Memory`.
    pub fn locks(&self, bucket: u8) -> Result<Option<&LockBucket>, Missing>
        ensures { MatchResult result
            (λ locks. option_map bucket_at (known_at self.now (Addr.Locks bucket))
            ≡ Some (bucket_in (option_copied locks)))
            (Lacks self.now (Addr.Locks bucket)) }
    {
        Ok(bucket_known(self.find(Addr::Locks(bucket))?))
    }

    /// Puts what the files of a bucket have of locks in the place of what was read; where that is nothing, nothing
    /// stands there.
    ///
    /// # Errors
    ///
    /// `AllocError` where the memory was refused. It changes nothing.
    pub fn put_locks(&mut self, bucket: u8, locks: LockBucket) -> Result<(), AllocError>
        requires alone { self.old.modes.locks ≡ Mode.Exclusive }
        requires known { IsSome (known_at self.old (Addr.Locks bucket)) }
        ensures ok { OnOk result (self.new ≡ with_written self.old (Addr.Locks bucket) (stored_bucket locks)) }
        ensures bucket { OnOk result (IsBucket locks) }
        ensures err { OnErr result (self.new ≡ self.old) }
    {
        // The files bring what is true of every bucket.
        let _files = locks.files();
        let address = Addr::Locks(bucket);
        if locks.is_empty() {
            return self.write(address, None);
        }
        let object = Arc::new(self.alloc, Object::Locks(locks))?;
        self.write(address, Some(object))
    }

    fn write(&mut self, address: Addr, object: Option<Arc<Object>>) -> Result<(), AllocError>
        requires alone { MayChange self.old address }
        requires known { IsSome (known_at self.old address) }
        requires given { MayWrite self.old address (option_map arc_value object) }
        ensures ok { OnOk result (self.new ≡ with_written self.old address (option_map arc_value object)) }
        ensures err { OnErr result (self.new ≡ self.old) }
    {
        self.writes.push(Write { address, object })?;
        Ok(())
    }

    /// Puts one more message.
    ///
    /// # Errors
    ///
    /// `AllocError` where the memory was refused. It changes nothing.
    pub fn send(&mut self, message: Message) -> Result<(), AllocError>
        ensures ok { OnOk result (self.new ≡ record self.old { messages = self.old.messages ++ message ∷ [] }) }
        ensures err { OnErr result (self.new ≡ self.old) }
    {
        self.messages.push(message)?;
        Ok(())
    }

    /// The first number that may be given to a new object, with its generation.
    ///
    /// # Errors
    ///
    /// `Fresh` where there is none.
    pub fn fresh(&self) -> Result<Reserved, Missing>
        ensures { MatchResult result (IsFirst self.now) (WantsNumber self.now) }
    {
        match self.view.fresh() {
            Some(reserved) => Ok(reserved),
            None => Err(Missing::Fresh(1)),
        }
    }

    /// The first so many numbers that may be given to new objects, with their generations. There are as many, or none.
    ///
    /// # Errors
    ///
    /// `Fresh` where there are none.
    pub fn fresh_all(&self, count: u32) -> Result<&'a [Reserved], Missing>
        requires { (self.now.view.reserved ≡ []) ⊎ (count ≤ length self.now.view.reserved) }
        ensures numbers { MatchResult result
            (λ reserved. AreFirst self.now count reserved.now)
            (WantsNumbers self.now count) }
        ensures view { IsView self.now.view }
    {
        let reserved = self.view.reserved();
        if reserved.len() < count as usize {
            return Err(Missing::Fresh(count));
        }
        Ok(&reserved[..count as usize])
    }

    /// The end of the call: its writes and messages, and what it answers.
    pub fn answer(self, reply: Reply) -> Change
        ensures value { change_value result ≡ record
            { writes = self.entry.writes; messages = self.entry.messages; reply = reply } }
        ensures held { Held self.entry.view self.entry.writes }
        ensures given { Given self.entry.view self.entry.writes }
    {
        Change {
            writes: self.writes,
            messages: self.messages,
            reply,
        }
    }
}

/// The wish for one address in this mode.
fn lacking(alloc: Global, address: Addr, mode: Mode) -> Missing
    ensures { IsNeed address mode result }
{
    let mut asked = Vec::new(alloc);
    match asked.push((address, mode)) {
        Ok(()) => Missing::Need(asked),
        Err(_) => Missing::Memory,
    }
}
