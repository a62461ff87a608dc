//! What stands in the store.

ghost use Rattle.std.specs.Prelude.{◌≡◌, false, MatchOption, option_map, option_copied};
ghost use Rattle.std.specs.Arc.{arc_value};
ghost use Rattle.nfs_machine.specs.Attributes.{is_directory};
ghost use Rattle.nfs_objects.specs.ExportTables.{IsExportTable, table_in};
ghost use Rattle.nfs_objects.specs.Stands.{block_of, content_of, export_table_of, exports_of, header_of, inode_of};
ghost use Rattle.nfs_objects.specs.Stands.{lock_bucket_of};
ghost use Rattle.nfs_objects.specs.Stands.{map_of, page_of};
ghost use Rattle.nfs_objects.specs.Stands.{part_of, table_of};

use crate::bits::Bits;
use crate::directory::{Directory, Entries};
use crate::entry_page::EntryPage;
use crate::exports::{ExportTable, LivingExport};
use crate::file_map::FileMap;
use crate::mounts::MountTable;
use crate::usage::Usage;
use bytes::Bytes;
use nfs_wire::{DeviceNumber, Time, Verifier};
use nlm_ranges::LockBucket;
use std::alloc::AllocError;
use std::sync::Arc;

/// What an object is and contains.
#[derive(Drop)]
pub enum Content {
    /// A file, whose bytes stand in blocks of their own.
    Regular(FileMap),
    /// A directory, whose entries stand in pages and parts of their own.
    Directory(Directory),
    /// The text of a symbolic link.
    Link(Bytes),
    BlockDevice(DeviceNumber),
    CharacterDevice(DeviceNumber),
    Socket,
    Fifo,
}

impl Clone for Content {
    ghost is_clone = { λ content copy. copy ≡ content };

    fn clone(&self) -> Result<Content, AllocError> {
        Ok(match self {
            Content::Regular(map) => Content::Regular(map.copy()),
            Content::Directory(directory) => Content::Directory(directory.clone()?),
            Content::Link(text) => Content::Link(text.clone()?),
            Content::BlockDevice(device) => Content::BlockDevice(*device),
            Content::CharacterDevice(device) => Content::CharacterDevice(*device),
            Content::Socket => Content::Socket,
            Content::Fifo => Content::Fifo,
        })
    }
}

/// The size of a directory, in bytes.
pub const DIRECTORY_SIZE: u64 = 4096;

impl Content {
    ghost use Rattle.std.specs.Prelude.{◌<◌, ◌^◌};
    ghost use Rattle.nfs_machine.specs.Attributes.{size_of};

    /// Its size, in bytes (RFC 1813, 2.5: size).
    pub fn size(&self) -> u64
        ensures value { result ≡ size_of (content_of self.now) }
        ensures small { result < 2 ^ 63 }
    {
        match self {
            Content::Regular(map) => map.size(),
            Content::Directory(_) => DIRECTORY_SIZE,
            Content::Link(text) => text.len() as u64,
            Content::BlockDevice(_) => 0,
            Content::CharacterDevice(_) => 0,
            Content::Socket => 0,
            Content::Fifo => 0,
        }
    }
}

impl PartialEq for Content {
    ghost use Rattle.std.specs.Bool.{Decides};
    ghost use Rattle.std.specs.Cmp.{decided, partial_equiv_from_equiv};
    ghost use Rattle.nfs_objects.specs.Same.{same_content};
    ghost use Rattle.nfs_objects.specs.SameLaws.{content_decides};

    ghost eq = { same_content };

    ghost laws = { partial_equiv_from_equiv (decided same_content content_decides) };

    fn eq(&self, other: &Content) -> bool
        ensures test { result ≡ same_content self.now other.now }
        ensures same { Decides result (self.now ≡ other.now) }
    {
        match (self, other) {
            (Content::Regular(a), Content::Regular(b)) => a == b,
            (Content::Directory(a), Content::Directory(b)) => a == b,
            (Content::Link(a), Content::Link(b)) => a == b,
            (Content::BlockDevice(a), Content::BlockDevice(b)) => a == b,
            (Content::CharacterDevice(a), Content::CharacterDevice(b)) => a == b,
            (Content::Socket, Content::Socket) | (Content::Fifo, Content::Fifo) => true,
            _ => false,
        }
    }
}

impl Eq for Content {
    ghost use Rattle.std.specs.Cmp.{decided};
    ghost use Rattle.nfs_objects.specs.Same.{same_content};
    ghost use Rattle.nfs_objects.specs.SameLaws.{content_decides};

    ghost laws = { decided same_content content_decides };
}

/// An object of the file system.
#[derive(Drop)]
pub struct Inode {
    /// The number of its export, from 1.
    pub export: u32,
    /// With its number, it names the object for ever.
    pub generation: u64,
    pub content: Content,
    /// Twelve bits.
    pub mode: u32,
    pub uid: u32,
    pub gid: u32,
    /// How many links it has (RFC 1813, 2.5: nlink).
    pub links: u32,
    pub accessed: Time,
    pub modified: Time,
    pub changed: Time,
    /// Of the exclusive CREATE that made it (RFC 1813, 3.3.8).
    pub verifier: Option<Verifier>,
}

impl Inode {
    /// What it contains, where it is a directory.
    pub fn directory(&self) -> Option<&Directory>
        ensures { MatchOption result (is_directory (content_of self.now.content) ≡ false)
            (λ directory. self.now.content ≡ Content.Directory directory.now) }
    {
        match &self.content {
            Content::Directory(directory) => Some(directory),
            _ => None,
        }
    }
}

impl Clone for Inode {
    ghost is_clone = { λ inode copy. copy ≡ inode };

    fn clone(&self) -> Result<Inode, AllocError> {
        Ok(Inode {
            export: self.export,
            generation: self.generation,
            content: self.content.clone()?,
            mode: self.mode,
            uid: self.uid,
            gid: self.gid,
            links: self.links,
            accessed: self.accessed,
            modified: self.modified,
            changed: self.changed,
            verifier: self.verifier,
        })
    }
}

impl PartialEq for Inode {
    ghost use Rattle.std.specs.Bool.{Decides};
    ghost use Rattle.std.specs.Cmp.{decided, partial_equiv_from_equiv};
    ghost use Rattle.nfs_objects.specs.Same.{same_inode};
    ghost use Rattle.nfs_objects.specs.SameLaws.{inode_decides};

    ghost eq = { same_inode };

    ghost laws = { partial_equiv_from_equiv (decided same_inode inode_decides) };

    fn eq(&self, other: &Inode) -> bool
        ensures test { result ≡ same_inode self.now other.now }
        ensures same { Decides result (self.now ≡ other.now) }
    {
        self.export == other.export
            && self.generation == other.generation
            && self.mode == other.mode
            && self.uid == other.uid
            && self.gid == other.gid
            && self.links == other.links
            && self.accessed == other.accessed
            && self.modified == other.modified
            && self.changed == other.changed
            && self.verifier == other.verifier
            && self.content == other.content
    }
}

impl Eq for Inode {
    ghost use Rattle.std.specs.Cmp.{decided};
    ghost use Rattle.nfs_objects.specs.Same.{same_inode};
    ghost use Rattle.nfs_objects.specs.SameLaws.{inode_decides};

    ghost laws = { decided same_inode inode_decides };
}

/// What stands at an address.
#[derive(Drop)]
pub enum Object {
    Exports(ExportTable),
    Inode(Inode),
    /// Which of so many blocks of a file are there.
    Map(Bits),
    /// The bytes of a block of a file, at most `BLOCK_SIZE`.
    Block(Bytes),
    /// A page of the entries of a directory.
    Page(EntryPage),
    /// A part of the names of a directory.
    Part(Entries),
    Mounts(MountTable),
    /// What a group of objects uses.
    Usage(Usage),
    /// What files have of locks, shares, requests and grants.
    Locks(LockBucket),
}

impl PartialEq for Object {
    ghost use Rattle.std.specs.Bool.{Decides};
    ghost use Rattle.std.specs.Cmp.{decided, partial_equiv_from_equiv};
    ghost use Rattle.nfs_objects.specs.Same.{same_object};
    ghost use Rattle.nfs_objects.specs.SameLaws.{object_decides};

    ghost eq = { same_object };

    ghost laws = { partial_equiv_from_equiv (decided same_object object_decides) };

    fn eq(&self, other: &Object) -> bool
        ensures test { result ≡ same_object self.now other.now }
        ensures same { Decides result (self.now ≡ other.now) }
    {
        match (self, other) {
            (Object::Exports(a), Object::Exports(b)) => a == b,
            (Object::Inode(a), Object::Inode(b)) => a == b,
            (Object::Map(a), Object::Map(b)) => a == b,
            (Object::Block(a), Object::Block(b)) => a == b,
            (Object::Page(a), Object::Page(b)) => a == b,
            (Object::Part(a), Object::Part(b)) => a == b,
            (Object::Mounts(a), Object::Mounts(b)) => a == b,
            (Object::Usage(a), Object::Usage(b)) => a == b,
            (Object::Locks(a), Object::Locks(b)) => a == b,
            _ => false,
        }
    }
}

impl Eq for Object {
    ghost use Rattle.std.specs.Cmp.{decided};
    ghost use Rattle.nfs_objects.specs.Same.{same_object};
    ghost use Rattle.nfs_objects.specs.SameLaws.{object_decides};

    ghost laws = { decided same_object object_decides };
}

/// The living exports; none where nothing stands, or what is no such table.
pub fn export_list(known: &Option<Arc<Object>>) -> &[LivingExport]
    ensures { result.now ≡ exports_of (option_map arc_value known.now) }
{
    match known.as_deref() {
        Some(Object::Exports(table)) => table.list(),
        _ => &[],
    }
}

/// The table of exports that stands where this is known; None where nothing does, or what is no such table.
pub fn export_table_known(known: &Option<Arc<Object>>) -> Option<&ExportTable>
    ensures of { export_table_of (option_map arc_value known.now) ≡ table_in (option_copied result) }
    ensures table { IsExportTable (table_in (option_copied result)) }
{
    let Object::Exports(table) = known.as_deref()? else {
        return None;
    };
    // The list brings what is true of every table.
    let _list = table.list();
    Some(table)
}

/// The inode that stands where this is known; None where nothing does, or what is no inode.
pub fn living(known: &Option<Arc<Object>>) -> Option<&Inode>
    ensures { option_copied result ≡ inode_of (option_map arc_value known.now) }
{
    match &**known.as_ref()? {
        Object::Inode(inode) => Some(inode),
        _ => None,
    }
}

/// The table of mounts that stands where this is known; None where nothing does, or what is no such table.
pub fn mount_table(known: &Option<Arc<Object>>) -> Option<&MountTable>
    ensures { option_copied result ≡ table_of (option_map arc_value known.now) }
{
    match &**known.as_ref()? {
        Object::Mounts(table) => Some(table),
        _ => None,
    }
}

/// The blocks that the map tells of that stands where this is known; none where nothing does, or what is no map.
pub fn map_known(known: &Option<Arc<Object>>) -> Bits
    ensures { result ≡ map_of (option_map arc_value known.now) }
{
    match known.as_deref() {
        Some(Object::Map(bits)) => *bits,
        _ => Bits::none(),
    }
}

/// The block that stands where this is known; None where nothing does, or what is no block.
pub fn block_known(known: &Option<Arc<Object>>) -> Option<&Bytes>
    ensures { option_copied result ≡ block_of (option_map arc_value known.now) }
{
    match known.as_deref() {
        Some(Object::Block(bytes)) => Some(bytes),
        _ => None,
    }
}

/// The directory whose inode stands where this is known; None where none does.
pub fn header_known(known: &Option<Arc<Object>>) -> Option<&Directory>
    ensures { option_copied result ≡ header_of (option_map arc_value known.now) }
{
    living(known)?.directory()
}

/// The page of a directory that stands where this is known; None where nothing does, or what is no page.
pub fn page_known(known: &Option<Arc<Object>>) -> Option<&EntryPage>
    ensures { option_copied result ≡ page_of (option_map arc_value known.now) }
{
    match known.as_deref() {
        Some(Object::Page(page)) => Some(page),
        _ => None,
    }
}

/// The part of a directory's names that stands where this is known; None where nothing does, or what is no part.
pub fn part_known(known: &Option<Arc<Object>>) -> Option<&Entries>
    ensures { option_copied result ≡ part_of (option_map arc_value known.now) }
{
    match known.as_deref() {
        Some(Object::Part(entries)) => Some(entries),
        _ => None,
    }
}

/// The bucket of locks that stands where this is known; None where nothing does, or what is no bucket.
pub fn bucket_known(known: &Option<Arc<Object>>) -> Option<&LockBucket>
    ensures { option_copied result ≡ lock_bucket_of (option_map arc_value known.now) }
{
    match known.as_deref() {
        Some(Object::Locks(bucket)) => Some(bucket),
        _ => None,
    }
}
