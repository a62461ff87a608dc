//! What a directory's inode tells of its entries, which stand in pages by their cookies, and once more in parts by
//! their names.

ghost use Rattle.std.specs.Prelude.{◌≡◌, ◌==◌, IfOk, OnOk, length};
ghost use Rattle.nfs_objects.specs.Directories.{AreBeside, HasBesides, IsPlace, is_page_of, is_part_of, no_entries};
ghost use Rattle.nfs_objects.specs.PageRuns.{TellsEmpty};

use crate::address::Addr;
use crate::counts::NameCounts;
use crate::hashing::{BUCKETS, bucket_of, part_among};
use crate::page_list::PageList;
use nfs_machine::NameKey;
use std::alloc::{AllocError, Global};

/// Which pages of a directory are there, and how many names are in each bucket, from which follows which parts are
/// there.
#[derive(Drop)]
pub struct EntryMap {
    /// A name's part follows from it. It stays as long as the directory does.
    pub key: NameKey,
    pub pages: PageList,
    pub counts: NameCounts,
}

/// Where a name of a directory stands.
#[derive(Clone, Copy, Debug, PartialEq, Eq)]
pub struct NamePlace {
    /// Below `BUCKETS`.
    pub bucket: u8,
    /// Of its bucket, from 0.
    pub part: u32,
}

impl EntryMap {
    /// That of no entry, where names are placed by this key.
    ///
    /// # Errors
    ///
    /// There is no memory for it.
    pub fn none(alloc: Global, key: NameKey) -> Result<EntryMap, AllocError>
        ensures { IfOk result (λ map. map ≡ no_entries key) }
    {
        Ok(EntryMap {
            key,
            pages: PageList::new(alloc)?,
            counts: NameCounts::none(alloc)?,
        })
    }

    /// Whether there is no entry.
    pub fn is_none(&self) -> bool
        ensures { TellsEmpty self.now.pages result }
    {
        self.pages.is_empty()
    }

    /// Where a name stands, if it is there; None where its bucket has no part, so that it is not.
    pub fn place_of(&self, name: &[u8]) -> Option<NamePlace>
        ensures { IsPlace self.now name.now result }
    {
        let bucket = bucket_of(name);
        let width = self.counts.width(bucket);
        if width == 0 {
            return None;
        }
        Some(NamePlace {
            bucket,
            part: part_among(&self.key, width, name),
        })
    }

    /// The addresses of all pages and parts, where this is the directory's number.
    ///
    /// # Errors
    ///
    /// There is no memory for the list.
    pub fn addresses(&self, alloc: Global, directory: u64) -> Result<Vec<Addr>, AllocError>
        ensures { IfOk result (λ addresses.
            length self.now.counts ≡ 64 → AreBeside self.now directory addresses.items) }
    {
        let mut addresses = Vec::new(alloc);
        push_pages(&mut addresses, directory, &self.pages)?;
        for bucket in 0..BUCKETS {
            push_parts(&mut addresses, directory, bucket, self.counts.width(bucket))?;
        }
        Ok(addresses)
    }
}

/// Adds the addresses of the pages of a directory.
fn push_pages(addresses: &mut Vec<Addr>, directory: u64, pages: &PageList) -> Result<(), AllocError>
    ensures { OnOk result (HasBesides (is_page_of pages.now directory) addresses.old.items addresses.new.items) }
{
    let mut next = pages.next_from(0);
    'pages: while let Some(page) = next {
        addresses.push(Addr::Page { directory, page })?;
        next = pages.next_behind(page);
    }
    Ok(())
}

/// Adds the addresses of so many parts of a bucket of a directory.
fn push_parts(
    addresses: &mut Vec<Addr>,
    directory: u64,
    bucket: u8,
    width: u32,
) -> Result<(), AllocError>
    ensures { OnOk result (HasBesides (is_part_of directory bucket width) addresses.old.items addresses.new.items) }
{
    for part in 0..width {
        addresses.push(Addr::Part {
            directory,
            bucket,
            part,
        })?;
    }
    Ok(())
}

impl Clone for EntryMap {
    ghost is_clone = { λ map copy. copy ≡ map };

    fn clone(&self) -> Result<EntryMap, AllocError> {
        Ok(EntryMap {
            key: self.key,
            pages: self.pages.clone()?,
            counts: self.counts.clone()?,
        })
    }
}

impl PartialEq for EntryMap {
    ghost use Rattle.std.specs.Bool.{Decides};
    ghost use Rattle.std.specs.Cmp.{decided, partial_equiv_from_equiv};
    ghost use Rattle.nfs_objects.specs.Same.{same_entry_map};
    ghost use Rattle.nfs_objects.specs.SameLaws.{entry_map_decides};

    ghost eq = { same_entry_map };

    ghost laws = { partial_equiv_from_equiv (decided same_entry_map entry_map_decides) };

    fn eq(&self, other: &EntryMap) -> bool
        ensures test { result ≡ same_entry_map self.now other.now }
        ensures same { Decides result (self.now ≡ other.now) }
    {
        self.key == other.key && self.counts == other.counts && self.pages == other.pages
    }
}

impl Eq for EntryMap {
    ghost use Rattle.std.specs.Cmp.{decided};
    ghost use Rattle.nfs_objects.specs.Same.{same_entry_map};
    ghost use Rattle.nfs_objects.specs.SameLaws.{entry_map_decides};

    ghost laws = { decided same_entry_map entry_map_decides };
}
