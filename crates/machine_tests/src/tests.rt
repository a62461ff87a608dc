//! The server was started with number 7, every moment is (1000, 0), and `/data` is exported to every host. The values
//! are worked out by hand from RFC 1813.
//!
//! What owns memory is lent to a function that has the `?`s, and dropped by a call of `drop`: at each way out of a
//! function that owns it, its drops would be proved once more, in seconds. Rows stand in functions too, since each
//! `assert!` takes a second: a test asserts what the functions tell.

ghost use Rattle.std.specs.Prelude.{◌≡◌, ◌++◌, [], ◌∷◌, IfOk, None, OnOk, Some};
ghost use Rattle.nfs_objects.specs.Modes.{Suits, changing, reading};
ghost use Rattle.nfs_objects.specs.Values.{seen_at};

mod blocks;
mod drafts;
mod exports;
mod inodes;
mod locks;
mod machine;
mod makers;
mod mounts;
mod names;
mod objects;
mod times;
mod views;

use bytes::Bytes;
use nfs_inodes::Known;
use nfs_machine::{Ctx, ExportText, Exports, Limits, Moment, NameKey};
use nfs_objects::{
    Addr, Bits, CHANGING, Content, Directory, Entries, EntryMap, ExportTable, FileMap, Inode, Leaf,
    MOUNTING, Missing, Mode, NameCounts, Object, PageList, READING, Reserved, Usage, View,
};
use nfs_rpc::{Gids, Ids};
use nfs_wire::{Attributes, DeviceNumber, FileType, Pieces, SetAttributes, SetTime, Time};
use std::alloc::{AllocError, Global};
use std::sync::Arc;

const TIME: Time = Time {
    seconds: 1000,
    nanoseconds: 0,
};

/// Whether those in the pieces are these bytes.
fn are(alloc: Global, found: &Pieces, bytes: &'static [u8]) -> Result<bool, AllocError> {
    let mut want = Pieces::new(alloc);
    let pushed = want.push(Bytes::from_static(bytes));
    let are = *found == want;
    drop(want);
    pushed?;
    Ok(are)
}

/// No attribute is given to a new object.
const NOTHING: SetAttributes = SetAttributes {
    mode: None,
    uid: None,
    gid: None,
    size: None,
    accessed: SetTime::Leave,
    modified: SetTime::Leave,
};

/// Names are placed by it.
const KEY: NameKey = [7; 16];

/// 1,000,000,000 nanoseconds.
const NO_TIME: Time = Time {
    seconds: 1,
    nanoseconds: 1_000_000_000,
};

/// The number that a view is given alone.
const RESERVED: Reserved = Reserved {
    number: 2,
    generation: 7,
};

/// Export 1, start 7, fileid 9, generation 3.
const HANDLE: &[u8] = b"NFD3\0\0\0\x01\0\0\0\0\0\0\0\x07\0\0\0\0\0\0\0\x09\0\0\0\0\0\0\0\x03";

/// An object of user 5 and group 6.
fn inode(content: Content, mode: u32) -> Inode {
    Inode {
        export: 1,
        generation: 3,
        content,
        mode,
        uid: 5,
        gid: 6,
        links: 1,
        accessed: TIME,
        modified: TIME,
        changed: TIME,
        verifier: None,
    }
}

fn fifo(mode: u32) -> Inode {
    inode(Content::Fifo, mode)
}

/// A file of 5 bytes with so many links: its first block, and so its first map page, is there.
fn hello(links: u32) -> Result<Inode, AllocError> {
    let map = FileMap::new(5, Bits::none().with(0))?;
    let mut hello = inode(Content::Regular(map), 0o600);
    hello.links = links;
    Ok(hello)
}

/// A directory below directory 1 with no name.
fn bare(alloc: Global) -> Result<Directory, AllocError> {
    Directory::empty(alloc, 1, KEY)
}

/// The same with `a`, whose cookie is 3.
fn with_a(alloc: Global, last_cookie: u64) -> Result<Directory, AllocError> {
    let pages = PageList::new(alloc)?.with_page(alloc, 0)?;
    let counts = NameCounts::none(alloc)?.with_one_more(alloc, 33)?;
    Ok(Directory {
        parent: 1,
        last_cookie,
        entries: EntryMap {
            key: KEY,
            pages,
            counts,
        },
    })
}

/// `a`, which leads to 7, with the cookie 3.
fn part_of_a(alloc: Global) -> Result<Object, AllocError> {
    let leaf = Leaf {
        number: 7,
        cookie: 3,
    };
    let (none, name) = (Entries::new(alloc), Bytes::from_static(b"a"));
    let entries = none.with_entry(&name, leaf);
    drop(none);
    drop(name);
    Ok(Object::Part(entries?))
}

/// What is known of object 9, of this kind, of user 5 and group 6.
fn known(kind: FileType, mode: u32) -> Known {
    Known {
        number: 9,
        export: 1,
        generation: 3,
        attributes: Attributes {
            kind,
            mode,
            links: 1,
            uid: 5,
            gid: 6,
            size: 0,
            used: 0,
            device: DeviceNumber { major: 0, minor: 0 },
            fsid: 1,
            fileid: 9,
            accessed: TIME,
            modified: TIME,
            changed: TIME,
        },
        verifier: None,
    }
}

fn caller(uid: u32, gid: u32) -> Ids {
    Ids {
        uid,
        gid,
        gids: Gids::new(),
    }
}

/// An export as it is given.
#[derive(Clone, Copy)]
struct Given {
    path: &'static [u8],
    mode: &'static [u8],
    hosts: &'static [&'static [u8]],
}

/// `/data` for every host, which may be written.
const WRITABLE: Given = Given {
    path: b"/data",
    mode: b"rw",
    hosts: &[b"*"],
};

/// Every host in `/a`, and 10.0.0.2 alone in `/a/b`, which is read only.
const TWO: [Given; 2] = [
    Given {
        path: b"/a",
        mode: b"rw",
        hosts: &[b"*"],
    },
    Given {
        path: b"/a/b",
        mode: b"ro",
        hosts: &[b"10.0.0.2"],
    },
];

fn text(alloc: Global, given: &Given) -> Result<ExportText, AllocError> {
    let mut hosts = Vec::new(alloc);
    for host in given.hosts {
        hosts.push(Bytes::from_static(host))?;
    }
    Ok(ExportText {
        path: Bytes::from_static(given.path),
        mode: Bytes::from_static(given.mode),
        hosts,
    })
}

fn texts(alloc: Global, list: &[Given]) -> Result<Vec<ExportText>, AllocError> {
    let mut texts = Vec::new(alloc);
    for given in list {
        texts.push(text(alloc, given)?)?;
    }
    Ok(texts)
}

/// The exports of a list that is not at fault.
fn given_exports(alloc: Global, list: &[Given]) -> Result<Exports, AllocError> {
    match Exports::new(alloc, texts(alloc, list)?) {
        Ok(exports) => Ok(exports),
        Err(_fault) => Err(AllocError),
    }
}

/// The table that a server opens with.
fn table(alloc: Global, list: &[Given]) -> Result<ExportTable, AllocError> {
    let exports = given_exports(alloc, list)?;
    let table = ExportTable::opening(alloc, &exports);
    drop(exports);
    table
}

/// A copy of a value, which is dropped itself.
fn copied<T: Clone + Drop>(value: T) -> Result<T, AllocError> {
    let copy: Result<T, AllocError> = value.clone();
    drop(value);
    copy
}

/// A call by this user, and the group of the same number.
fn ctx(user: u32) -> Ctx {
    Ctx {
        host: Bytes::from_static(b"10.0.0.1"),
        ids: caller(user, user),
        moment: Moment {
            seconds: 1000,
            nanoseconds: 0,
        },
        start: 7,
        limits: Limits {
            total_bytes: 1 << 40,
            name_key: KEY,
        },
    }
}

/// Adds what stands at an address to a view that has not read it.
fn add(
    view: &mut View,
    alloc: Global,
    address: Addr,
    mode: Mode,
    object: Object,
) -> Result<(), AllocError>
    requires { seen_at view.old.entries address ≡ None }
    ensures { OnOk result
        (view.new ≡ record {
          entries = view.old.entries ++ record
              { address = address; mode = mode; object = Some object } ∷ [];
          reserved = view.old.reserved;
        }) }
{
    let object = Arc::new(alloc, object)?;
    view.add(address, mode, Some(object))?;
    Ok(())
}

/// A view of the exports: `/data`, that may be written.
fn exported(alloc: Global) -> Result<View, AllocError>
    ensures { IfOk result (Suits reading) }
{
    let exports = Object::Exports(table(alloc, &[WRITABLE])?);
    let mut view = View::new(alloc);
    match add(&mut view, alloc, Addr::Exports, Mode::Shared, exports) {
        Ok(()) => Ok(view),
        Err(AllocError) => {
            drop(view);
            Err(AllocError)
        }
    }
}

/// What a view shows beside the exports and inode 9.
#[derive(Clone, Copy)]
enum Beside {
    Nothing,
    /// The bytes of file 9: its first block alone.
    Block(&'static [u8]),
    /// The same, what the group of inode 9 uses, and that no file of its bucket has locks.
    BlockOf(&'static [u8], Usage),
    /// What the group of inode 9 uses.
    Group(Usage),
    /// The part of directory 9 that has its name `a`.
    Named,
    /// The page of directory 9 for the cookies from 0 on and the parts for `a` and `b`, where nothing stands.
    Room,
    /// A number to give, whose group is empty; and the page of directory 9 for the cookies from 0 on and the part for
    /// `x`, where nothing stands.
    Number,
}

/// What the group of inode 9 uses.
const GROUP: Addr = Addr::Usage {
    export: 1,
    group: 9,
};

/// The number to give.
const NEW: Reserved = Reserved {
    number: 10,
    generation: 4,
};

/// What the group of that number uses.
const NEW_GROUP: Addr = Addr::Usage {
    export: 1,
    group: 10,
};

/// The first map page of file 9.
const MAP: Addr = Addr::Map { file: 9, page: 0 };

/// The first block of file 9.
const BLOCK: Addr = Addr::Block { file: 9, index: 0 };

/// What files have of locks, file 9 among them.
const LOCKS: Addr = Addr::Locks(9);

/// The page of directory 9 for the cookies from 0 on.
const PAGE: Addr = Addr::Page {
    directory: 9,
    page: 0,
};

/// The part of directory 9 for the name `a`: the bytes of names are ASCII, 97, 98 and 120, modulo 64.
const PART_OF_A: Addr = Addr::Part {
    directory: 9,
    bucket: 33,
    part: 0,
};

/// That for the name `b`.
const PART_OF_B: Addr = Addr::Part {
    directory: 9,
    bucket: 34,
    part: 0,
};

/// That for the name `x`.
const PART_OF_X: Addr = Addr::Part {
    directory: 9,
    bucket: 56,
    part: 0,
};

/// Adds an inode as number 9, the exports, and what is shown beside to a view that has read nothing.
fn fill(view: &mut View, alloc: Global, inode: Inode, beside: Beside) -> Result<(), AllocError>
    requires { view.old ≡ record { entries = []; reserved = [] } }
    ensures reads { OnOk result (Suits reading view.new) }
    ensures changes { OnOk result (Suits changing view.new) }
{
    add(
        view,
        alloc,
        Addr::Inode(9),
        Mode::Exclusive,
        Object::Inode(inode),
    )?;
    let exports = Object::Exports(table(alloc, &[WRITABLE])?);
    add(view, alloc, Addr::Exports, Mode::Shared, exports)?;
    match beside {
        Beside::Nothing => Ok(()),
        Beside::Block(bytes) => {
            let map = Object::Map(Bits::none().with(0));
            add(view, alloc, MAP, Mode::Exclusive, map)?;
            let block = Object::Block(Bytes::from_static(bytes));
            add(view, alloc, BLOCK, Mode::Exclusive, block)
        }
        Beside::BlockOf(bytes, usage) => {
            let map = Object::Map(Bits::none().with(0));
            add(view, alloc, MAP, Mode::Exclusive, map)?;
            let block = Object::Block(Bytes::from_static(bytes));
            add(view, alloc, BLOCK, Mode::Exclusive, block)?;
            add(view, alloc, GROUP, Mode::Exclusive, Object::Usage(usage))?;
            view.add(LOCKS, Mode::Exclusive, None)?;
            Ok(())
        }
        Beside::Group(usage) => {
            add(view, alloc, GROUP, Mode::Exclusive, Object::Usage(usage))?;
            Ok(())
        }
        Beside::Named => add(view, alloc, PART_OF_A, Mode::Exclusive, part_of_a(alloc)?),
        Beside::Room => {
            view.add(PAGE, Mode::Exclusive, None)?;
            view.add(PART_OF_A, Mode::Exclusive, None)?;
            view.add(PART_OF_B, Mode::Exclusive, None)
        }
        Beside::Number => {
            view.add_reserved(NEW)?;
            view.add(NEW_GROUP, Mode::Exclusive, None)?;
            view.add(PAGE, Mode::Exclusive, None)?;
            view.add(PART_OF_X, Mode::Exclusive, None)
        }
    }
}

/// A view of the exports and of this inode as number 9; all but the exports is held alone.
fn viewed(alloc: Global, inode: Inode, beside: Beside) -> Result<View, AllocError>
    ensures reads { IfOk result (Suits reading) }
    ensures changes { IfOk result (Suits changing) }
{
    let mut view = View::new(alloc);
    match fill(&mut view, alloc, inode, beside) {
        Ok(()) => Ok(view),
        Err(AllocError) => {
            drop(view);
            Err(AllocError)
        }
    }
}

/// Whether a draft found it so, and did not halt.
fn is_so(found: Result<bool, Missing>) -> bool {
    match found {
        Ok(is_so) => is_so,
        Err(halt) => {
            drop(halt);
            false
        }
    }
}

/// Whether just this address is asked for, in this mode.
fn asks<T: Drop>(read: Result<T, Missing>, address: Addr, mode: Mode) -> bool {
    let asks = match &read {
        Err(Missing::Need(asked)) => asked.as_slice() == [(address, mode)].as_slice(),
        _ => false,
    };
    drop(read);
    asks
}

/// Whether just one number is wanted.
fn wants_a_number<T: Drop>(read: Result<T, Missing>) -> bool {
    let wants = matches!(&read, Err(Missing::Fresh(1)));
    drop(read);
    wants
}
