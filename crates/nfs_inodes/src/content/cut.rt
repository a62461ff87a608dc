//! The blocks that go where a file is cut off.

ghost use Rattle.std.specs.Prelude.{◌≡◌, ◌/◌, ◌<◌, ◌≤◌, ◌&&◌, ℕ, [], IfErr, IsSome, MatchResult};
ghost use Rattle.std.specs.Prelude.{OnOk, nat_lt, true};
ghost use Rattle.nfs_objects.specs.Bits.{has, no_bits};
ghost use Rattle.nfs_objects.specs.Drafts.{MayChange};
ghost use Rattle.nfs_objects.specs.Values.{known_at};
ghost use Rattle.nfs_inodes.specs.Asking.{AsksFor};
ghost use Rattle.nfs_inodes.specs.Blocks.{HasPages};
ghost use Rattle.nfs_inodes.specs.Cuts.{CutsBlock, CutsBlocks, CutsNext, CutsPage, IsCutAt, IsPageIn, IsResized};
ghost use Rattle.nfs_inodes.specs.Remains.{IsCutIn, IsCutLast};
ghost use Rattle.nfs_inodes.specs.Cuts.{IsTold};
ghost use Rattle.nfs_inodes.specs.Cuts.{KnowsMaps, KnowsTold, ShowsMap, ShowsMaps, told_at};
ghost use Rattle.nfs_inodes.specs.Stops.{StillStands, StopsAt};

use crate::burying::has_two;
use crate::content::asking::Asking;
use crate::content::blocks::{BLOCK, with_places};
use nfs_objects::bits::BITS;
use nfs_objects::block::cut;
use nfs_objects::{Addr, Bits, Draft, FileMap, MAP_BLOCKS, Missing};
use std::alloc::AllocError;

/// How many bytes the blocks of a map page have at most.
pub(crate) const PAGE: u64 = BLOCK * MAP_BLOCKS;

/// Cuts a file off that gets smaller. What its inode tells of its bytes then.
///
/// # Errors
///
/// As `cut_off`.
pub(crate) fn cut_to(
    draft: &mut Draft<'_>,
    number: u64,
    map: &FileMap,
    size: u64,
) -> Result<FileMap, Missing>
    requires alone { MayChange draft.old (Addr.Inode number) }
    requires pages { HasPages draft.old number map.now.pages }
    requires stands { StillStands draft.old }
    ensures { MatchResult result (IsResized draft.old draft.new number map.now size) (StopsAt draft.old []) }
{
    if size < map.size() {
        cut_smaller(draft, number, map, size)
    } else {
        Ok(FileMap::new(size, map.pages())?.with_remains(map.remains()))
    }
}

/// Cuts a file off that gets smaller: a large one in a time that doesn't grow with it.
fn cut_smaller(
    draft: &mut Draft<'_>,
    number: u64,
    map: &FileMap,
    size: u64,
) -> Result<FileMap, Missing>
    requires alone { MayChange draft.old (Addr.Inode number) }
    requires pages { HasPages draft.old number map.now.pages }
    requires stands { StillStands draft.old }
    ensures { MatchResult result (IsResized draft.old draft.new number map.now size) (StopsAt draft.old []) }
{
    if has_two(map.pages()) {
        cut_large(draft, number, map, size)
    } else {
        cut_small(draft, number, map, size)
    }
}

/// Cuts off a large file: the map pages that are wholly behind its end are remains from then on.
fn cut_large(
    draft: &mut Draft<'_>,
    number: u64,
    map: &FileMap,
    size: u64,
) -> Result<FileMap, Missing>
    requires alone { MayChange draft.old (Addr.Inode number) }
    requires pages { HasPages draft.old number map.now.pages }
    requires stands { StillStands draft.old }
    ensures { MatchResult result (IsResized draft.old draft.new number map.now size) (StopsAt draft.old []) }
{
    let all = map.pages();
    let remains = map.remains();
    let first = size.div_ceil(PAGE).min(BITS);
    let pages = cut_last(draft, number, all, size)?;
    let behind = with_places(remains, first, BITS);
    Ok(FileMap::new(size, pages)?.with_remains(behind))
}

/// Cuts off a file of which all goes that is behind its end.
fn cut_small(
    draft: &mut Draft<'_>,
    number: u64,
    map: &FileMap,
    size: u64,
) -> Result<FileMap, Missing>
    requires alone { MayChange draft.old (Addr.Inode number) }
    requires pages { HasPages draft.old number map.now.pages }
    requires stands { StillStands draft.old }
    ensures { MatchResult result (IsResized draft.old draft.new number map.now size) (StopsAt draft.old []) }
{
    let all = map.pages();
    let remains = map.remains();
    let pages = cut_off(draft, number, all, size)?;
    Ok(FileMap::new(size, pages)?.with_remains(remains))
}

/// Cuts off the map page in which a file of this size ends; those behind it stay. Which map pages are there then.
///
/// # Errors
///
/// As `cut_one`.
fn cut_last(draft: &mut Draft<'_>, number: u64, pages: Bits, size: u64) -> Result<Bits, Missing>
    requires alone { MayChange draft.old (Addr.Inode number) }
    requires pages { HasPages draft.old number pages }
    requires stands { StillStands draft.old }
    ensures { MatchResult result (IsCutLast draft.old draft.new number size) (StopsAt draft.old []) }
{
    if size % PAGE == 0 {
        Ok(pages)
    } else {
        cut_one(draft, number, pages, size / PAGE, size)
    }
}

/// Frees what a map page of a file has behind a place. Which map pages are there then.
///
/// # Errors
///
/// `Need` of what has to be held for it, the map page and then all blocks of which it tells; and `Memory`. The draft is
/// of no use then.
pub(crate) fn cut_one(
    draft: &mut Draft<'_>,
    number: u64,
    pages: Bits,
    page: u64,
    size: u64,
) -> Result<Bits, Missing>
    requires alone { MayChange draft.old (Addr.Inode number) }
    requires pages { HasPages draft.old number pages }
    requires stands { StillStands draft.old }
    ensures { MatchResult result (IsCutIn draft.old draft.new number page size) (StopsAt draft.old []) }
{
    if !pages.has(page) {
        return Ok(pages);
    }
    let maps = read_maps(draft, number, pages, page, page + 1)?;
    ask_blocks(draft, number, &maps, page, page + 1, size / BLOCK)?;
    cut_next(draft, number, page, maps[0], size, pages.without(page))
}

/// Frees what a file has behind a place, which is its end from then on. Which map pages are there then.
///
/// # Errors
///
/// `Need` of what has to be held for it, all map pages at once and then all blocks; and `Memory`. The draft is of no
/// use then.
pub(crate) fn cut_off(
    draft: &mut Draft<'_>,
    number: u64,
    pages: Bits,
    size: u64,
) -> Result<Bits, Missing>
    requires alone { MayChange draft.old (Addr.Inode number) }
    requires pages { HasPages draft.old number pages }
    requires stands { StillStands draft.old }
    ensures { MatchResult result (IsCutAt draft.old draft.new number size) (StopsAt draft.old []) }
{
    let first = size / BLOCK / MAP_BLOCKS;
    let end = pages.end();
    let maps = read_maps(draft, number, pages, first, end)?;
    ask_blocks(draft, number, &maps, first, end, size / BLOCK)?;
    let mut left = pages.below(first);
    for page in first..end {
        if pages.has(page) {
            left = cut_next(
                draft,
                number,
                page,
                maps[(page - first) as usize],
                size,
                left,
            )?;
        }
    }
    Ok(left)
}

/// Cuts off the next page. Which map pages of those so far are there then.
fn cut_next(
    draft: &mut Draft<'_>,
    number: u64,
    page: u64,
    bits: Bits,
    size: u64,
    left: Bits,
) -> Result<Bits, Missing>
    requires alone { MayChange draft.old (Addr.Inode number) }
    requires small { page < 512 }
    requires known { IsSome (known_at draft.old (Addr.Map number page)) }
    requires told { KnowsTold draft.old number page bits (size / 4096) }
    ensures { MatchResult result (CutsNext draft.old draft.new number page bits size left) (StopsAt draft.old []) }
{
    if cut_page(draft, number, page, bits, size)? {
        Ok(left.with(page))
    } else {
        Ok(left)
    }
}

/// Asks for what cutting off a file with these map pages has to hold: for all map pages at once, and then for all
/// blocks. Of a large file those are of one map page at most.
///
/// # Errors
///
/// `Need` of that, and `Memory`.
pub(crate) fn ask_cut(draft: &Draft<'_>, number: u64, pages: Bits, size: u64) -> Result<(), Missing>
    requires pages { HasPages draft.now number pages }
    requires stands { StillStands draft.now }
    ensures { IfErr result (StopsAt draft.now []) }
{
    let first = size / BLOCK / MAP_BLOCKS;
    let end = cut_end(pages, size);
    let maps = read_maps(draft, number, pages, first, end)?;
    ask_blocks(draft, number, &maps, first, end, size / BLOCK)
}

/// The map page behind the last one that is cut off where a file with these map pages gets this size: of a large file
/// those stay that are wholly behind its end.
fn cut_end(pages: Bits, size: u64) -> u64
    ensures { result ≤ 512 }
{
    let end = pages.end();
    if has_two(pages) {
        end.min(size.div_ceil(PAGE))
    } else {
        end
    }
}

/// What the map pages from one on tell, up to another; of one that is not there, of no block.
fn read_maps(
    draft: &Draft<'_>,
    number: u64,
    pages: Bits,
    first: u64,
    end: u64,
) -> Result<Vec<Bits>, Missing>
    requires pages { HasPages draft.now number pages }
    requires stands { StillStands draft.now }
    requires small { end ≤ 512 }
    ensures shows { MatchResult result
        (λ maps. ShowsMaps draft.now number first end maps.items)
        (StopsAt draft.now []) }
    ensures known { OnOk result (KnowsMaps draft.now number pages first end) }
{
    ask_maps(draft, number, pages, first, end)?;
    let mut maps = Vec::new(draft.alloc());
    for page in first..end {
        maps.push(map_told(draft, number, pages, page)?)?;
    }
    Ok(maps)
}

/// Asks for the map pages that are there from one on, up to another.
fn ask_maps(
    draft: &Draft<'_>,
    number: u64,
    pages: Bits,
    first: u64,
    end: u64,
) -> Result<(), Missing>
    requires pages { HasPages draft.now number pages }
    requires stands { StillStands draft.now }
    ensures { MatchResult result
        (λ _. KnowsMaps draft.now number pages first end)
        (StopsAt draft.now []) }
{
    let mut asking = Asking::new(draft.alloc());
    add_maps(draft, number, pages, first, end, &mut asking)?;
    asking.ask()
}

/// Asks for the map pages that go, or get less, where a file gets this size.
pub(crate) fn add_cut_maps(
    draft: &Draft<'_>,
    number: u64,
    map: &FileMap,
    size: u64,
    asking: &mut Asking,
) -> Result<(), AllocError>
    ensures { OnOk result (AsksFor draft.now (IsPageIn number map.now.pages 0 512) (λ a. ⊥)
        asking.old.asked.items asking.new.asked.items) }
{
    if size >= map.size() {
        return Ok(());
    }
    let pages = map.pages();
    add_maps(
        draft,
        number,
        pages,
        size / BLOCK / MAP_BLOCKS,
        cut_end(pages, size),
        asking,
    )
}

/// Asks for the map pages that are there from one on, up to another.
fn add_maps(
    draft: &Draft<'_>,
    number: u64,
    pages: Bits,
    first: u64,
    end: u64,
    asking: &mut Asking,
) -> Result<(), AllocError>
    ensures { OnOk result (AsksFor draft.now (IsPageIn number pages first end) (IsPageIn number pages first end)
        asking.old.asked.items asking.new.asked.items) }
{
    for page in first..end {
        if pages.has(page) {
            asking.add(draft, Addr::Map { file: number, page })?;
        }
    }
    Ok(())
}

/// Which blocks a map page tells of; none where it is not there.
fn map_told(draft: &Draft<'_>, number: u64, pages: Bits, page: u64) -> Result<Bits, Missing>
    requires pages { HasPages draft.now number pages }
    requires known { has pages page ≡ true → IsSome (known_at draft.now (Addr.Map number page)) }
    ensures { MatchResult result (ShowsMap draft.now number page) (StopsAt draft.now []) }
{
    if pages.has(page) {
        draft.map(number, page)
    } else {
        Ok(Bits::none())
    }
}

/// Asks for the blocks that these maps tell of, from this one on.
fn ask_blocks(
    draft: &Draft<'_>,
    number: u64,
    maps: &[Bits],
    first: u64,
    end: u64,
    from: u64,
) -> Result<(), Missing>
    requires maps { ShowsMaps draft.now number first end maps.now }
    requires small { end ≤ 512 }
    requires stands { StillStands draft.now }
    ensures { MatchResult result
        (λ _. (page : ℕ) → first ≤ page → page < end →
        KnowsTold draft.now number page (told_at maps.now first page) from)
        (StopsAt draft.now []) }
{
    let mut asking = Asking::new(draft.alloc());
    for page in first..end {
        ask_page(
            draft,
            number,
            page,
            maps[(page - first) as usize],
            from,
            &mut asking,
        )?;
    }
    asking.ask()
}

/// Asks for the blocks that the map of a page tells of, from this one on.
fn ask_page(
    draft: &Draft<'_>,
    number: u64,
    page: u64,
    bits: Bits,
    from: u64,
    asking: &mut Asking,
) -> Result<(), AllocError>
    requires { page < 512 }
    ensures { OnOk result (AsksFor draft.now (IsTold number page bits from 512) (IsTold number page bits from 512)
        asking.old.asked.items asking.new.asked.items) }
{
    for place in 0..bits.end() {
        let index = page * MAP_BLOCKS + place;
        if bits.has(place) && index >= from {
            let address = Addr::Block {
                file: number,
                index,
            };
            asking.add(draft, address)?;
        }
    }
    Ok(())
}

/// Cuts off the blocks of a page that its map tells of, and takes out of it those that go. Whether it is there then.
fn cut_page(
    draft: &mut Draft<'_>,
    number: u64,
    page: u64,
    bits: Bits,
    size: u64,
) -> Result<bool, Missing>
    requires alone { MayChange draft.old (Addr.Inode number) }
    requires small { page < 512 }
    requires known { IsSome (known_at draft.old (Addr.Map number page)) }
    requires told { KnowsTold draft.old number page bits (size / 4096) }
    ensures { MatchResult result (CutsPage draft.old draft.new number page bits size) (StopsAt draft.old []) }
{
    cut_blocks(draft, number, page, bits, size)?;
    let bits = first_bits(bits, size.div_ceil(BLOCK).saturating_sub(page * MAP_BLOCKS));
    draft.put_map(number, page, bits)?;
    Ok(!bits.is_none())
}

/// Cuts off the blocks of a page that its map tells of.
fn cut_blocks(
    draft: &mut Draft<'_>,
    number: u64,
    page: u64,
    bits: Bits,
    size: u64,
) -> Result<(), Missing>
    requires alone { MayChange draft.old (Addr.Inode number) }
    requires small { page < 512 }
    requires told { KnowsTold draft.old number page bits (size / 4096) }
    ensures { MatchResult result
        (λ _. CutsBlocks draft.old draft.new number page bits size 512)
        (StopsAt draft.old []) }
{
    for place in 0..bits.end() {
        let index = page * MAP_BLOCKS + place;
        if bits.has(place) && index >= size / BLOCK {
            cut_block(draft, number, index, size.saturating_sub(index * BLOCK))?;
        }
    }
    Ok(())
}

/// Cuts off a block that is there, of which so many bytes stay at most.
fn cut_block(draft: &mut Draft<'_>, number: u64, index: u64, left: u64) -> Result<(), Missing>
    requires alone { MayChange draft.old (Addr.Inode number) }
    requires known { IsSome (known_at draft.old (Addr.Block number index)) }
    ensures { MatchResult result
        (λ _. CutsBlock draft.old draft.new number index left)
        (StopsAt draft.old []) }
{
    if left == 0 {
        return Ok(draft.free_block(number, index)?);
    }
    let left = left as usize;
    let Some(bytes) = draft.block(number, index)? else {
        return Ok(());
    };
    if bytes.len() <= left {
        return Ok(());
    }
    let front = cut(draft.alloc(), bytes.as_slice(), left)?;
    Ok(draft.put_block(number, index, front)?)
}

/// The first so many of the blocks of a page.
fn first_bits(bits: Bits, count: u64) -> Bits
    ensures has { (n : ℕ) → has result n ≡ (has bits n && nat_lt n count) }
    ensures none { count ≡ 0 → result ≡ no_bits }
{
    match count {
        0 => Bits::none(),
        _ => bits.below(count),
    }
}
