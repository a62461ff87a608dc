//! The bytes of files and the texts of links (RFC 1813, 3.3.5 to 3.3.7).

ghost use Rattle.std.specs.Prelude.{◌≡◌, ◌+◌, ◌-◌, ◌/◌, ◌<◌, ◌≤◌, ℕ, [], IfErr, IfOk, MatchResult, None};
ghost use Rattle.std.specs.Prelude.{Some};
ghost use Rattle.std.specs.Prelude.{length};
ghost use Rattle.std.specs.Prelude.{option_copied};
ghost use Rattle.nfs_machine.specs.Checks.{text_in};
ghost use Rattle.nfs_machine.specs.Data.{read_at, resized, size_limit, transfer_limit, written};
ghost use Rattle.nfs_machine.specs.Times.{time_of};
ghost use Rattle.nfs_objects.specs.Bits.{no_bits};
ghost use Rattle.nfs_objects.specs.Calls.{addresses_of, blocks_at, maps_at};
ghost use Rattle.nfs_objects.specs.Knows.{Knows, Turns};
ghost use Rattle.nfs_objects.specs.Modes.{changing};
ghost use Rattle.nfs_objects.specs.Stands.{bytes_at, content_of, map_in};
ghost use Rattle.nfs_objects.specs.Drafts.{MayChange};
ghost use Rattle.nfs_objects.specs.declared.address.Addr.TheVariants as Addr;
ghost use Rattle.nfs_inodes.specs.Blocks.{HasMap, HasPages, end_of, first_of, read_from, written_from};
ghost use Rattle.nfs_inodes.specs.Cuts.{IsCleared};
ghost use Rattle.nfs_inodes.specs.Kinds.{HasFile, IsShown};
ghost use Rattle.nfs_inodes.specs.Known.{bytes_of, content_at};
ghost use Rattle.nfs_inodes.specs.Makes.{bytes_changed};
ghost use Rattle.nfs_inodes.specs.Remains.{HasCleared};
ghost use Rattle.nfs_inodes.specs.Stops.{StillStands, StopsAt, counted_at};

use crate::content::asking::Asking;
use crate::content::blocks::{Mapped, Range, ask_hole_maps, ask_written, read_range, write_range};
use crate::content::cut::{PAGE, add_cut_maps, ask_cut, cut_off, cut_to};
use crate::content::remains::clear_range;
use crate::content::{KeptFile, file_at, with_content};
use crate::data::TRANSFER_LIMIT;
use crate::found::{Known, inode};
use crate::kinds::KnownFile;
use crate::times::now;
use crate::usage::{ask_counted, count, counted, share_of};
use bytes::Bytes;
use nfs_objects::object::living;
use nfs_objects::{Addr, Bits, Content, Draft, FileMap, Inode, Missing, Usage};
use nfs_wire::{NfsStatus, Pieces, ReadData};
use std::alloc::{AllocError, Global};

/// What is read of a file at the offset, at most `count` bytes and at most those of one transfer, and whether the file
/// ends with it. The data is shared with the file's blocks.
///
/// # Errors
///
/// `Need` of what holds the bytes, and `Memory`.
pub fn read(
    draft: &Draft<'_>,
    file: &KnownFile,
    offset: u64,
    count: u32,
) -> Result<ReadData, Missing>
    ensures { MatchResult result
        (λ found. Knows draft.now (λ k.
        found ≡ read_at (bytes_of (content_at k.state file.now.known.number)) offset count))
        (StopsAt draft.now (read_from draft.now.view file.now.known.number offset)) }
{
    let number = file.known.number;
    let Some(inode) = inode(draft, number)? else {
        return Ok(nothing_read(draft.alloc()));
    };
    let Content::Regular(map) = &inode.content else {
        return Ok(nothing_read(draft.alloc()));
    };
    read_file(draft, Mapped { number, map }, offset, count)
}

/// The same of a file as it is kept.
fn read_file(
    draft: &Draft<'_>,
    file: Mapped<'_>,
    offset: u64,
    count: u32,
) -> Result<ReadData, Missing>
    requires { HasMap draft.now file.number file.map.now }
    ensures { MatchResult result
        (λ found. Knows draft.now (λ k. found ≡ read_at (bytes_at k.state file.entry.number) offset count))
        (StopsAt draft.now (blocks_at file.entry.number offset)) }
{
    let size = file.map.size();
    let most = u64::from(count.min(TRANSFER_LIMIT));
    let count = size.saturating_sub(offset).min(most) as usize;
    if count == 0 {
        return Ok(ReadData {
            count: 0,
            eof: size <= offset,
            data: Pieces::new(draft.alloc()),
        });
    }
    let data = read_range(draft, file, Range { offset, count })?;
    Ok(ReadData {
        count: count as u32,
        eof: size <= offset + count as u64,
        data,
    })
}

/// What is read of no bytes.
fn nothing_read(alloc: Global) -> ReadData
    ensures { (offset count : ℕ) → result ≡ read_at [] offset count }
{
    ReadData {
        count: 0,
        eof: true,
        data: Pieces::new(alloc),
    }
}

/// The text of a link, with no copy; `Invalid` where the object is none.
///
/// # Errors
///
/// `Need` of what holds the text, and `Memory`.
pub fn text(draft: &Draft<'_>, known: &Known) -> Result<Result<Bytes, NfsStatus>, Missing>
    ensures { MatchResult result
        (λ text. Knows draft.now (λ k. text_in (content_at k.state known.now.number) ≡ text))
        (StopsAt draft.now (addresses_of draft.now.view known.now.number)) }
{
    match inode(draft, known.number)? {
        Some(inode) => Ok(text_in(&inode.content)?),
        None => Ok(Err(NfsStatus::Invalid)),
    }
}

fn text_in(content: &Content) -> Result<Result<Bytes, NfsStatus>, AllocError>
    ensures { IfOk result (λ text. text_in (content_of content.now) ≡ text) }
{
    match content {
        Content::Link(text) => Ok(Ok(text.clone()?)),
        _ => Ok(Err(NfsStatus::Invalid)),
    }
}

/// Writes bytes, at least one, at an offset of a file; a gap before it is zeros. They end within the largest file.
///
/// # Errors
///
/// `Need` of what has to be held for it, and `Memory`. The draft is of no use then.
pub fn write(
    draft: &mut Draft<'_>,
    file: &KnownFile,
    offset: u64,
    bytes: &[u8],
) -> Result<(), Missing>
    requires none { draft.old.writes ≡ [] }
    requires alone { draft.old.modes ≡ changing }
    requires shown { IsShown draft.old file.now.known }
    requires some { 0 < length bytes.now }
    requires few { length bytes.now ≤ transfer_limit }
    requires room { offset + length bytes.now ≤ size_limit }
    ensures { MatchResult result
        (λ _. Turns draft.old draft.new (bytes_changed (time_of draft.old.ctx.moment) file.now.known.number
        (λ old. written old offset bytes.now)))
        (StopsAt draft.old (written_from draft.old file.now.known.number offset)) }
{
    let range = Range {
        offset,
        count: bytes.len(),
    };
    clear_range(draft, file, range)?;
    write_over(draft, file, range, bytes)
}

/// The same where no remains are in the map pages of its range.
fn write_over(
    draft: &mut Draft<'_>,
    file: &KnownFile,
    range: Range,
    bytes: &[u8],
) -> Result<(), Missing>
    requires alone { draft.old.modes ≡ changing }
    requires shown { IsShown draft.old file.now.known }
    requires some { 0 < length bytes.now }
    requires few { length bytes.now ≤ transfer_limit }
    requires room { range.offset + length bytes.now ≤ size_limit }
    requires whole { range.count ≡ length bytes.now }
    requires cleared { HasCleared draft.old file.now.known.number (first_of range.offset / 512)
        ((end_of range.offset range.count - 1) / 512) }
    ensures { MatchResult result
        (λ _. Turns draft.old draft.new (bytes_changed (time_of draft.old.ctx.moment) file.now.known.number
        (λ old. written old range.offset bytes.now)))
        (StopsAt draft.old (written_from draft.old file.now.known.number range.offset)) }
{
    let number = file.known.number;
    let kept = file_at(draft, file)?;
    let share = share_of(kept.inode);
    let size = kept.map.size().max(range.offset + bytes.len() as u64);
    let after = Usage::of_one(size);
    let mapped = Mapped {
        number,
        map: kept.map,
    };
    let mut asking = Asking::new(draft.alloc());
    ask_written(draft, mapped, range, &mut asking)?;
    ask_counted(draft, number, share, after, &mut asking)?;
    asking.ask()?;
    let usage = counted(draft, number, share, after)?;
    let pages = kept.map.pages();
    let remains = kept.map.remains();
    let inode = kept.inode.clone()?;
    count(draft, share.export, number, usage)?;
    let pages = write_range(draft, number, pages, range, bytes)?;
    let content = Content::Regular(FileMap::new(size, pages)?.with_remains(remains));
    let new = with_content(&inode, now(draft.ctx()), content);
    Ok(draft.put(number, new)?)
}

/// Asks for the map pages that get other blocks where so many bytes, at least one, are written at an offset of a file,
/// as far as the draft shows which blocks are absent.
///
/// # Errors
///
/// `Need` of those that it lacks, and `Memory`.
pub fn ask_holes(
    draft: &Draft<'_>,
    file: &KnownFile,
    offset: u64,
    count: usize,
) -> Result<(), Missing>
    requires some { 0 < count }
    requires few { count ≤ transfer_limit }
    requires room { offset + count ≤ size_limit }
    ensures { IfErr result (StopsAt draft.now (maps_at file.now.known.number offset)) }
{
    ask_hole_maps(draft, file.known.number, Range { offset, count })
}

/// Whether the draft shows remains in the map page of the first or the last one of so many bytes, at least one, at an
/// offset of the file at a number: they go before these bytes are written.
pub fn has_remains(draft: &Draft<'_>, number: u64, offset: u64, count: usize) -> bool
    requires { 0 < count }
{
    let Ok(Some(inode)) = inode(draft, number) else {
        return false;
    };
    let Content::Regular(map) = &inode.content else {
        return false;
    };
    let last = offset.saturating_add(count as u64 - 1);
    let remains = map.pages().both(map.remains());
    remains.has(offset / PAGE) || remains.has(last / PAGE)
}

/// Cuts a file off, or fills it up with zeros, to this size in bytes.
///
/// # Errors
///
/// `Need` of what has to be held for it, and `Memory`. The draft is of no use then.
pub fn resize(draft: &mut Draft<'_>, file: &KnownFile, size: u64) -> Result<(), Missing>
    requires none { draft.old.writes ≡ [] }
    requires alone { draft.old.modes ≡ changing }
    requires shown { IsShown draft.old file.now.known }
    ensures { MatchResult result
        (λ _. Turns draft.old draft.new (bytes_changed (time_of draft.old.ctx.moment) file.now.known.number
        (λ old. resized old size)))
        (StopsAt draft.old (counted_at draft.old file.now.known.number)) }
{
    let number = file.known.number;
    let kept = file_at(draft, file)?;
    ask_sized(draft, number, kept, size)?;
    let share = share_of(kept.inode);
    let usage = counted(draft, number, share, Usage::of_one(size))?;
    let map = kept.map.copy();
    let inode = kept.inode.clone()?;
    count(draft, share.export, number, usage)?;
    let left = cut_to(draft, number, &map, size)?;
    let new = with_content(&inode, now(draft.ctx()), Content::Regular(left));
    Ok(draft.put(number, new)?)
}

/// Asks for what cutting a file off, or filling it up, to this size has to hold.
///
/// # Errors
///
/// `Need` of that, and `Memory`.
pub fn ask_resize(draft: &Draft<'_>, file: &KnownFile, size: u64) -> Result<(), Missing>
    requires none { draft.now.writes ≡ [] }
    requires shown { IsShown draft.now file.now.known }
    ensures { IfErr result (StopsAt draft.now (counted_at draft.now file.now.known.number)) }
{
    let number = file.known.number;
    let kept = file_at(draft, file)?;
    ask_sized(draft, number, kept, size)?;
    if size < kept.map.size() {
        ask_cut(draft, number, kept.map.pages(), size)?;
    }
    Ok(())
}

/// Asks at once for what a file has beside its blocks that gets this size: what its group uses, where that changes, and
/// the map pages that go or get less.
fn ask_sized(draft: &Draft<'_>, number: u64, kept: KeptFile<'_>, size: u64) -> Result<(), Missing>
    requires kept { HasFile draft.now number kept.inode.now kept.map.now }
    requires stands { StillStands draft.now }
    ensures { IfErr result (StopsAt draft.now (counted_at draft.now number)) }
{
    let mut asking = Asking::new(draft.alloc());
    add_cut_maps(draft, number, kept.map, size, &mut asking)?;
    let share = share_of(kept.inode);
    ask_counted(draft, number, share, Usage::of_one(size), &mut asking)?;
    asking.ask()
}

/// Frees all blocks and maps of what stands at a number, which is to go; what is no file has none.
///
/// # Errors
///
/// `Need` of what has to be held for it, and `Memory`. The draft is of no use then.
pub(crate) fn clear(draft: &mut Draft<'_>, number: u64) -> Result<(), Missing>
    requires alone { MayChange draft.old (Addr.Inode number) }
    requires stands { StillStands draft.old }
    ensures { MatchResult result (λ _. IsCleared draft.old draft.new number)
        (StopsAt draft.old (addresses_of draft.old.view number)) }
{
    let pages = pages_at(draft, number)?;
    cut_off(draft, number, pages, 0)?;
    Ok(())
}

/// The map pages of what stands at a number; what is no file has none.
fn pages_at(draft: &Draft<'_>, number: u64) -> Result<Bits, Missing>
    ensures { MatchResult result (HasPages draft.now number)
        (StopsAt draft.now (addresses_of draft.now.view number)) }
{
    Ok(pages_of(living(draft.find(Addr::Inode(number))?)))
}

/// The map pages of an inode, if there is one.
fn pages_of(inode: Option<&Inode>) -> Bits
    ensures { result ≡ elim (option_copied inode.entry)
        [ None ↦ no_bits | Some i ↦ elim (map_in i.content) [ None ↦ no_bits | Some map ↦ map.pages ] ] }
{
    let Some(inode) = inode else {
        return Bits::none();
    };
    match &inode.content {
        Content::Regular(map) => map.pages(),
        _ => Bits::none(),
    }
}
