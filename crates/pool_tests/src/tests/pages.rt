//! Pages of a directory, read word by word (RFC 1813, 3.3.16 and 3.3.17).

use super::calls::{Ask, Cursor, Handle};

/// By which procedure a directory is listed.
#[derive(Clone, Copy)]
pub(super) enum Listing {
    Readdir,
    Readdirplus,
}

impl Listing {
    pub(super) fn ask(self, cursor: Cursor) -> Ask {
        match self {
            Listing::Readdir => Ask::Readdir(cursor),
            Listing::Readdirplus => Ask::Readdirplus(cursor),
        }
    }
}

/// What is left of a reply.
#[derive(Clone, Copy)]
pub(super) struct Words<'a> {
    pub(super) rest: &'a [u8],
}

impl Words<'_> {
    pub(super) fn word(&mut self) -> Option<u32> {
        let (word, rest) = self.rest.split_first_chunk::<4>()?;
        self.rest = rest;
        Some(u32::from_be_bytes(*word))
    }

    pub(super) fn long(&mut self) -> Option<u64> {
        let (long, rest) = self.rest.split_first_chunk::<8>()?;
        self.rest = rest;
        Some(u64::from_be_bytes(*long))
    }

    /// An entry of a page, behind the word that tells of it.
    pub(super) fn entry(&mut self, listing: Listing) -> Option<Entry> {
        let fileid = self.long()?;
        let name = (self.word()?, self.word()?);
        let cookie = self.long()?;
        let handle = match listing {
            Listing::Readdir => None,
            Listing::Readdirplus => Some(self.handle_of(fileid)?),
        };
        Some(Entry {
            fileid,
            name,
            cookie,
            handle,
        })
    }

    /// The attributes that READDIRPLUS shows, of an object with this fileid, and behind them its handle.
    fn handle_of(&mut self, fileid: u64) -> Option<Handle> {
        self.skip(56)?;
        let attributes = self.long()?;
        self.skip(24)?;
        let length = (self.word()?, self.word()?);
        let mut handle = [0; 8];
        for word in &mut handle {
            *word = self.word()?;
        }
        (attributes == fileid && length == (1, 32)).then_some(handle)
    }

    fn skip(&mut self, bytes: usize) -> Option<()> {
        self.rest = self.rest.get(bytes..)?;
        Some(())
    }
}

/// An entry of a page.
#[derive(Clone, Copy)]
pub(super) struct Entry {
    fileid: u64,
    /// The length and the bytes.
    pub(super) name: (u32, u32),
    pub(super) cookie: u64,
    /// Where READDIRPLUS shows it.
    handle: Option<Handle>,
}

impl Entry {
    /// Whether it shows the object with this handle, which has the fileid in its words 4 and 5.
    pub(super) fn shows(&self, handle: &Handle) -> bool {
        let fileid = u64::from(handle[4]) << 32 | u64::from(handle[5]);
        self.fileid == fileid && (self.handle.is_none() || self.handle == Some(*handle))
    }
}
