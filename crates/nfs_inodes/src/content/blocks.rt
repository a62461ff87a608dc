//! The blocks that files are kept in: those of a range, and what is read there and written.

ghost use Rattle.std.specs.Prelude.{◌≡◌, ◌+◌, ◌-◌, ◌*◌, ◌/◌, ◌<◌, ◌≤◌, ◌^◌};
ghost use Rattle.std.specs.Prelude.{◌||◌, ◌&&◌, [], ◌∷◌, IfErr, IfOk, IfSome};
ghost use Rattle.std.specs.Prelude.{IsSome, MatchResult, OnOk, drop, length, nat_le, nat_lt, option_copied, take, true};
ghost use Rattle.std.specs.Prelude.{unwrap_or, ℕ};
ghost use Rattle.nfs_machine.specs.Data.{size_limit};
ghost use Rattle.nfs_objects.specs.Bits.{has};
ghost use Rattle.nfs_objects.specs.Calls.{blocks_at, maps_at};
ghost use Rattle.nfs_objects.specs.Drafts.{MayChange};
ghost use Rattle.nfs_objects.specs.FileMaps.{counts};
ghost use Rattle.nfs_objects.specs.Knows.{Knows};
ghost use Rattle.nfs_objects.specs.Stands.{bytes_at};
ghost use Rattle.nfs_objects.specs.Values.{known_at};
ghost use Rattle.nfs_inodes.specs.Asking.{AsksFor};
ghost use Rattle.nfs_inodes.specs.Blocks.{HasBlock, HasMap, HasPages, IsBackAfter, IsBlockIn, IsInRange, IsMapAfter};
ghost use Rattle.nfs_inodes.specs.Blocks.{IsMapPut};
ghost use Rattle.nfs_inodes.specs.Blocks.{KnowsMapped, KnowsRange, ShowsBlock, WritesBlock, WritesBlocks, WritesRange};
ghost use Rattle.nfs_inodes.specs.Blocks.{end_of, first_of};
ghost use Rattle.nfs_inodes.specs.Stops.{StopsAt};

use crate::content::asking::Asking;
use bytes::Bytes;
use nfs_objects::block::{add_part, window, written};
use nfs_objects::{Addr, BLOCK_SIZE, Bits, Draft, FileMap, MAP_BLOCKS, Missing};
use nfs_wire::Pieces;
use std::alloc::AllocError;

/// How many bytes a block has at most.
pub(crate) const BLOCK: u64 = BLOCK_SIZE as u64;

/// A file and what its inode tells of its bytes.
#[derive(Clone, Copy)]
pub(crate) struct Mapped<'d> {
    pub number: u64,
    pub map: &'d FileMap,
}

/// Some of a file's bytes that follow each other, at least one and at most those of one transfer.
#[derive(Clone, Copy)]
pub(crate) struct Range {
    /// The place of the first one.
    pub offset: u64,
    pub count: usize,
    pub ghost some: { 0 < count },
    pub ghost few: { count ≤ 65536 },
    pub ghost ends: { offset + count < 2 ^ 63 },
}

impl Range {
    /// The first block in which some of them lie.
    fn first(self) -> u64
        ensures { result ≡ first_of self.offset }
    {
        self.offset / BLOCK
    }

    /// The block behind the last one in which some of them lie.
    fn end(self) -> u64
        ensures { result ≡ end_of self.offset self.count }
    {
        (self.offset + self.count as u64 - 1) / BLOCK + 1
    }

    /// The map page of the first block.
    pub(crate) fn first_page(self) -> u64
        ensures { result ≡ first_of self.offset / 512 }
    {
        self.first() / MAP_BLOCKS
    }

    /// The map page of the last one.
    pub(crate) fn last_page(self) -> u64
        ensures { result ≡ (end_of self.offset self.count - 1) / 512 }
    {
        (self.end() - 1) / MAP_BLOCKS
    }

    /// Where those that lie in this block, or behind it, begin there.
    fn start_in(self, index: u64) -> usize
        requires { index * 4096 < 2 ^ 64 }
        ensures { result ≡ self.offset - index * 4096 }
    {
        self.offset.saturating_sub(index * BLOCK) as usize
    }
}

/// What a block of a file has; None where it is absent, as all blocks are whose map page is, or counts as such.
fn stored<'d>(
    draft: &'d Draft<'_>,
    file: Mapped<'_>,
    index: u64,
) -> Result<Option<&'d Bytes>, Missing>
    requires mapped { HasMap draft.now file.number file.map.now }
    requires known { counts file.map.now (index / 512) ≡ true →
        IsSome (known_at draft.now (Addr.Block file.number index)) }
    ensures { MatchResult result
        (λ block. ShowsBlock draft.now file.entry.number file.entry.map.now index
        (unwrap_or (option_copied block) []))
        (StopsAt draft.now []) }
{
    if !file.map.counts(index / MAP_BLOCKS) {
        return Ok(None);
    }
    draft.block(file.number, index)
}

/// The bytes that a block has; none where it is absent.
fn bytes_of(block: Option<&Bytes>) -> &[u8]
    ensures { result.now ≡ unwrap_or (option_copied block.entry) [] }
{
    match block {
        Some(bytes) => bytes.as_slice(),
        None => &[],
    }
}

/// The bytes of this range of a file, which ends with the file or before, shared with its blocks.
///
/// # Errors
///
/// `Need` of all blocks of the range that were not read, and `Memory`.
pub(crate) fn read_range(
    draft: &Draft<'_>,
    file: Mapped<'_>,
    range: Range,
) -> Result<Pieces, Missing>
    requires mapped { HasMap draft.now file.number file.map.now }
    requires within { range.offset + range.count ≤ file.map.now.size }
    ensures { MatchResult result
        (λ found. Knows draft.now (λ k.
        found ≡ take range.count (drop range.offset (bytes_at k.state file.entry.number))))
        (StopsAt draft.now (blocks_at file.entry.number range.offset)) }
{
    ask_range(draft, file, range)?;
    gathered(draft, file, range)
}

/// Asks for the blocks of a range, as far as its map pages are there and count.
fn ask_range(draft: &Draft<'_>, file: Mapped<'_>, range: Range) -> Result<(), Missing>
    ensures { MatchResult result
        (λ _. KnowsMapped draft.now file.entry.number file.entry.map.now range.offset range.count)
        (StopsAt draft.now (blocks_at file.entry.number range.offset)) }
{
    let mut asking = Asking::new(draft.alloc());
    for index in range.first()..range.end() {
        if file.map.counts(index / MAP_BLOCKS) {
            asking.add(draft, block_at(file.number, index))?;
        }
    }
    asking.ask()
}

/// The bytes of a range, shared with the blocks.
fn gathered(draft: &Draft<'_>, file: Mapped<'_>, range: Range) -> Result<Pieces, Missing>
    requires mapped { HasMap draft.now file.number file.map.now }
    requires within { range.offset + range.count ≤ file.map.now.size }
    requires known { KnowsMapped draft.now file.number file.map.now range.offset range.count }
    ensures { MatchResult result
        (λ found. Knows draft.now (λ k.
        found ≡ take range.count (drop range.offset (bytes_at k.state file.entry.number))))
        (StopsAt draft.now []) }
{
    let mut found = Pieces::with_capacity(draft.alloc(), range.count / BLOCK_SIZE + 2)?;
    for index in range.first()..range.end() {
        let block = stored(draft, file, index)?;
        let start = range.start_in(index);
        let count = (BLOCK_SIZE - start).min(range.count - found.len());
        add_part(&mut found, block, start, count)?;
    }
    Ok(found)
}

fn block_at(file: u64, index: u64) -> Addr
    ensures { result ≡ Addr.Block file index }
{
    Addr::Block { file, index }
}

fn map_at(file: u64, page: u64) -> Addr
    ensures { result ≡ Addr.Map file page }
{
    Addr::Map { file, page }
}

/// Asks for what a write to this range of a file has to hold: its blocks, and each map page that surely gets another
/// one.
pub(crate) fn ask_written(
    draft: &Draft<'_>,
    file: Mapped<'_>,
    range: Range,
    asking: &mut Asking,
) -> Result<(), AllocError>
    ensures { OnOk result (AsksFor draft.now (IsInRange file.entry.number range.offset range.count)
        (IsBlockIn file.entry.number (first_of range.offset) (end_of range.offset range.count))
        asking.old.asked.items asking.new.asked.items) }
{
    ask_blocks(draft, file.number, range, asking)?;
    for page in range.first_page()..range.last_page() + 1 {
        if gets_blocks(file.map, range, page) {
            asking.add(draft, map_at(file.number, page))?;
        }
    }
    Ok(())
}

/// Asks for the blocks of a range.
fn ask_blocks(
    draft: &Draft<'_>,
    file: u64,
    range: Range,
    asking: &mut Asking,
) -> Result<(), AllocError>
    ensures { OnOk result (AsksFor draft.now
        (IsBlockIn file (first_of range.offset) (end_of range.offset range.count))
        (IsBlockIn file (first_of range.offset) (end_of range.offset range.count))
        asking.old.asked.items asking.new.asked.items) }
{
    for index in range.first()..range.end() {
        asking.add(draft, block_at(file, index))?;
    }
    Ok(())
}

/// Whether a map page surely gets another block where this range is written: it is not there, or the range has a block
/// of it behind the end of the file.
fn gets_blocks(map: &FileMap, range: Range, page: u64) -> bool
    requires { page * 512 < 2 ^ 63 }
{
    let last = range.end().min((page + 1) * MAP_BLOCKS) - 1;
    !map.pages().has(page) || last * BLOCK >= map.size()
}

/// Asks at once for the map pages of a range that get other blocks where it is written, as far as the draft shows which
/// are absent.
///
/// # Errors
///
/// `Need` of those that it lacks, and `Memory`.
pub(crate) fn ask_hole_maps(draft: &Draft<'_>, number: u64, range: Range) -> Result<(), Missing>
    ensures { IfErr result (StopsAt draft.now (maps_at number range.offset)) }
{
    let mut asking = Asking::new(draft.alloc());
    for page in range.first_page()..range.last_page() + 1 {
        if has_hole(draft, number, range, page) {
            asking.add(draft, map_at(number, page))?;
        }
    }
    asking.ask()
}

/// Whether the draft shows that a block of a range is absent, of those that a map page is for.
fn has_hole(draft: &Draft<'_>, number: u64, range: Range, page: u64) -> bool
    requires { page * 512 < 2 ^ 63 }
{
    let begin = page * MAP_BLOCKS;
    for index in range.first().max(begin)..range.end().min(begin + MAP_BLOCKS) {
        if let Ok(None) = draft.block(number, index) {
            return true;
        }
    }
    false
}

/// Writes bytes over a range of a file that has as many: its blocks, and those map pages that get other ones. Which map
/// pages are there then.
///
/// # Errors
///
/// `Need` of what has to be held for it, and `Memory`. The draft is of no use then.
pub(crate) fn write_range(
    draft: &mut Draft<'_>,
    number: u64,
    pages: Bits,
    range: Range,
    data: &[u8],
) -> Result<Bits, Missing>
    requires alone { MayChange draft.old (Addr.Inode number) }
    requires pages { HasPages draft.old number pages }
    requires whole { range.count ≡ length «data».now }
    requires room { range.offset + range.count ≤ size_limit }
    requires known { KnowsRange draft.old number range.offset range.count }
    ensures { MatchResult result
        (WritesRange draft.old draft.new number range.offset «data».now)
        (StopsAt draft.old (maps_at number range.offset)) }
{
    let front = map_after(draft, number, range, range.first_page())?;
    let back = back_after(draft, number, range)?;
    write_blocks(draft, number, range, data)?;
    let pages = put_map(draft, number, range.first_page(), front, pages)?;
    Ok(put_map(draft, number, range.last_page(), back, pages)?)
}

/// Writes bytes over the blocks of a range.
fn write_blocks(
    draft: &mut Draft<'_>,
    number: u64,
    range: Range,
    data: &[u8],
) -> Result<(), Missing>
    requires alone { MayChange draft.old (Addr.Inode number) }
    requires whole { range.count ≡ length «data».now }
    requires known { KnowsRange draft.old number range.offset range.count }
    ensures { MatchResult result
        (λ _. WritesBlocks draft.old draft.new number range.offset «data».now (end_of range.offset range.count))
        (StopsAt draft.old []) }
{
    for index in range.first()..range.end() {
        let at = range.start_in(index);
        let from = (index * BLOCK).saturating_sub(range.offset) as usize;
        write_block(
            draft,
            number,
            index,
            at,
            window(data, from, BLOCK_SIZE - at),
        )?;
    }
    Ok(())
}

/// Writes bytes in a block at this place.
fn write_block(
    draft: &mut Draft<'_>,
    number: u64,
    index: u64,
    at: usize,
    part: &[u8],
) -> Result<(), Missing>
    requires alone { MayChange draft.old (Addr.Inode number) }
    requires within { at + length part.now ≤ 4096 }
    requires known { IsSome (known_at draft.old (Addr.Block number index)) }
    ensures { MatchResult result
        (λ _. WritesBlock draft.old draft.new number index at part.now)
        (StopsAt draft.old []) }
{
    let old = bytes_of(draft.block(number, index)?);
    let block = written(draft.alloc(), old, at, part)?;
    Ok(draft.put_block(number, index, block)?)
}

/// What a map page tells once this range is written; None where it stays.
fn map_after(
    draft: &Draft<'_>,
    number: u64,
    range: Range,
    page: u64,
) -> Result<Option<Bits>, Missing>
    requires known { KnowsRange draft.now number range.offset range.count }
    requires behind { first_of range.offset < page * 512 + 512 }
    requires before { page * 512 < end_of range.offset range.count }
    ensures { MatchResult result
        (IsMapAfter draft.now number (first_of range.offset) (end_of range.offset range.count) page)
        (StopsAt draft.now (Addr.Map number page ∷ [])) }
{
    let begin = page * MAP_BLOCKS;
    let first = range.first().max(begin);
    let end = range.end().min(begin + MAP_BLOCKS);
    if are_there(draft, number, first, end)? {
        return Ok(None);
    }
    let bits = draft.map(number, page)?;
    Ok(Some(with_places(bits, first - begin, end - begin)))
}

/// What the last map page tells once this range is written, where it is not the first one; None where it stays.
fn back_after(draft: &Draft<'_>, number: u64, range: Range) -> Result<Option<Bits>, Missing>
    requires known { KnowsRange draft.now number range.offset range.count }
    ensures { MatchResult result
        (IsBackAfter draft.now number (first_of range.offset) (end_of range.offset range.count)
        (first_of range.offset / 512) ((end_of range.offset range.count - 1) / 512))
        (StopsAt draft.now (Addr.Map number ((end_of range.offset range.count - 1) / 512) ∷ [])) }
{
    if range.first_page() == range.last_page() {
        return Ok(None);
    }
    map_after(draft, number, range, range.last_page())
}

/// Whether each of these blocks is there.
fn are_there(draft: &Draft<'_>, number: u64, first: u64, end: u64) -> Result<bool, Missing>
    requires { (i : ℕ) → first ≤ i → i < end → IsSome (known_at draft.now (Addr.Block number i)) }
    ensures { MatchResult result
        (λ there. there ≡ true → (i : ℕ) → first ≤ i → i < end → HasBlock draft.now number i)
        (StopsAt draft.now []) }
{
    for index in first..end {
        if draft.block(number, index)?.is_none() {
            return Ok(false);
        }
    }
    Ok(true)
}

/// The set with these numbers.
pub(crate) fn with_places(bits: Bits, first: u64, end: u64) -> Bits
    requires order { first ≤ end }
    requires small { end ≤ 512 }
    ensures { (n : ℕ) → has result n ≡ (has bits n || (nat_le first n && nat_lt n end)) }
{
    let mut all = bits;
    for place in first..end {
        all = all.with(place);
    }
    all
}

/// Puts what a map page tells from now on, if that is another. Which map pages are there then.
fn put_map(
    draft: &mut Draft<'_>,
    number: u64,
    page: u64,
    bits: Option<Bits>,
    pages: Bits,
) -> Result<Bits, AllocError>
    requires alone { MayChange draft.old (Addr.Inode number) }
    requires page { page < 512 }
    requires known { IfSome bits (λ _. IsSome (known_at draft.old (Addr.Map number page))) }
    ensures { IfOk result (IsMapPut draft.old draft.new number page bits pages) }
{
    let Some(bits) = bits else {
        return Ok(pages);
    };
    draft.put_map(number, page, bits)?;
    Ok(pages.with(page))
}
