//! Changes of objects: bytes, links, names, and new files (RFC 1813, 2.5: mtime, ctime).

ghost use Rattle.std.specs.Prelude.{◌≡◌, [], IfOk, IfSome};
ghost use Rattle.nfs_objects.specs.Knows.{ShowsExport};
ghost use Rattle.nfs_objects.specs.Modes.{changing};
ghost use Rattle.nfs_inodes.specs.Kinds.{IsShown};

use super::*;
use nfs_inodes::{
    KnownFile, add_entry, file_wanted, lose_link, make_object, new_cookie, object, read, regular,
    resize, take_entry, write,
};
use nfs_objects::object::living;
use nfs_objects::{Draft, Usage};
use nfs_wire::{CreateHow, Verifier};

/// One nanosecond after the last change.
const LATER: Time = Time {
    seconds: 1000,
    nanoseconds: 1,
};

/// What stands as object 9.
#[derive(Clone, Copy)]
enum Start {
    /// A file of 5 bytes with so many links.
    Hello(u32),
    /// A directory without names.
    Place,
}

/// What is done to object 9.
#[derive(Clone, Copy)]
enum Change {
    /// The file is cut off, or filled up with zeros, to this size.
    Resize(u64),
    /// These bytes are written from this place on.
    Write(u8, &'static [u8]),
    /// One of so many links goes.
    LoseLink(u32),
    /// `a`, which leads to 7, and `b`, which leads to 8, are added, and `b` is taken out.
    ComeAndGo,
    /// A file `x` of 3 bytes is made in the directory.
    Make,
}

/// What is so then.
#[derive(Clone, Copy)]
enum Find {
    /// The file has these bytes.
    Bytes(&'static [u8]),
    /// It has others.
    OtherBytes(&'static [u8]),
    /// Object 9 has so many links, and was modified and changed at these times.
    Links(u32, Time, Time),
    /// Object 9 is gone.
    Gone,
    /// The group of this number uses this.
    Uses(u8, Usage),
    /// Nothing stands for the group of object 9.
    UsesNothing,
    /// A name leads there in the directory.
    Leads(&'static [u8], Option<u64>),
    /// The next entry of the directory has this cookie.
    Next(u64),
    /// Number 10 is the new file.
    New,
}

/// A change of what stands, and all that is so then.
#[derive(Clone, Copy)]
struct Case {
    name: &'static str,
    start: Start,
    beside: Beside,
    change: Change,
    finds: &'static [Find],
}

fn start_inode(alloc: Global, start: Start) -> Result<Inode, AllocError> {
    match start {
        Start::Hello(links) => hello(links),
        Start::Place => {
            let content = Content::Directory(bare(alloc)?);
            Ok(inode(content, 0o777))
        }
    }
}

/// Regular file 9.
fn file(draft: &Draft<'_>) -> Result<Option<KnownFile>, Missing>
    ensures { IfOk result (λ file. IfSome file (λ file. IsShown draft.now file.known)) }
{
    match object(draft, 9)? {
        Some(known) => Ok(regular(&known).ok()),
        None => Ok(None),
    }
}

fn resized(draft: &mut Draft<'_>, size: u64) -> Result<bool, Missing>
    requires none { draft.old.writes ≡ [] }
    requires alone { draft.old.modes ≡ changing }
{
    let Some(file) = file(draft)? else {
        return Ok(false);
    };
    resize(draft, &file, size)?;
    Ok(true)
}

/// Writes at most 100 bytes, and at least one.
fn written(draft: &mut Draft<'_>, offset: u8, bytes: &[u8]) -> Result<bool, Missing>
    requires none { draft.old.writes ≡ [] }
    requires alone { draft.old.modes ≡ changing }
{
    if bytes.is_empty() || bytes.len() > 100 {
        return Ok(false);
    }
    let Some(file) = file(draft)? else {
        return Ok(false);
    };
    write(draft, &file, u64::from(offset), bytes)?;
    Ok(true)
}

/// Directory 9.
fn place(draft: &Draft<'_>) -> Result<Option<nfs_inodes::KnownDirectory>, Missing>
    ensures exported { IfOk result (λ place. IfSome place (λ place. ShowsExport draft.now place.known.export)) }
    ensures shown { IfOk result (λ place. IfSome place (λ place. IsShown draft.now place.known)) }
{
    match object(draft, 9)? {
        Some(known) => Ok(nfs_inodes::directory(&known).ok()),
        None => Ok(None),
    }
}

/// Adds `a`, which leads to 7, and `b`, which leads to 8, to directory 9, and takes `b` out.
fn come_and_go(draft: &mut Draft<'_>) -> Result<bool, Missing>
    requires none { draft.old.writes ≡ [] }
    requires alone { draft.old.modes ≡ changing }
{
    let Some(place) = place(draft)? else {
        return Ok(false);
    };
    add_entry(draft, &place, b"a", 7, 3, 2)?;
    add_entry(draft, &place, b"b", 8, 4, 2)?;
    take_entry(draft, &place, b"b")?;
    Ok(true)
}

/// A file of 3 bytes.
const SIZED: CreateHow = CreateHow::Unchecked(SetAttributes {
    size: Some(3),
    ..NOTHING
});

/// Makes the file `x` in directory 9, which is given number 10.
fn made(draft: &mut Draft<'_>) -> Result<bool, Missing>
    requires none { draft.old.writes ≡ [] }
    requires alone { draft.old.modes ≡ changing }
{
    let Some(place) = place(draft)? else {
        return Ok(false);
    };
    let given = make_object(draft, &place, b"x", 3, &file_wanted(&SIZED))?;
    Ok(given == NEW)
}

/// Changes object 9. False says that it is of another kind, or that the new file was given another number.
fn changed(draft: &mut Draft<'_>, change: Change) -> Result<bool, Missing>
    requires none { draft.old.writes ≡ [] }
    requires alone { draft.old.modes ≡ changing }
{
    match change {
        Change::Resize(size) => resized(draft, size),
        Change::Write(offset, bytes) => written(draft, offset, bytes),
        Change::LoseLink(links) => {
            lose_link(draft, 9, links)?;
            Ok(true)
        }
        Change::ComeAndGo => come_and_go(draft),
        Change::Make => made(draft),
    }
}

/// Whether file 9 has these bytes from this place on, of which at most so many are read.
fn ends(draft: &Draft<'_>, start: u64, count: u32, bytes: &'static [u8]) -> Result<bool, Missing> {
    let Some(file) = file(draft)? else {
        return Ok(false);
    };
    let found = read(draft, &file, start, count)?;
    let eof = found.eof;
    let is_so = are(draft.alloc(), &found.data, bytes);
    drop(found);
    Ok(eof && is_so?)
}

/// Whether object 9 has so many links, and was modified and changed at these times.
fn has_links(
    draft: &Draft<'_>,
    links: u32,
    modified: Time,
    changed: Time,
) -> Result<bool, Missing> {
    match object(draft, 9)? {
        Some(Known { attributes, .. }) => Ok(
            attributes.links == links
                && attributes.modified == modified
                && attributes.changed == changed,
        ),
        None => Ok(false),
    }
}

/// What the name leads to in directory 9.
fn led(draft: &Draft<'_>, name: &[u8]) -> Option<u64> {
    let directory = living(draft.find(Addr::Inode(9)).ok()?)?.directory()?;
    let part = draft.part(9, directory.entries.place_of(name)?).ok()?;
    Some(part?.find(name)?.number)
}

/// The cookie of the next entry of directory 9.
fn next(draft: &Draft<'_>) -> Result<Option<u64>, Missing> {
    match place(draft)? {
        Some(place) => new_cookie(draft, &place),
        None => Ok(None),
    }
}

/// Whether number 10 is a file of 3 zeros, of user 1 and group 1, with mode 0644.
fn is_new(draft: &Draft<'_>) -> Result<bool, Missing> {
    let Some(known) = object(draft, 10)? else {
        return Ok(false);
    };
    Ok(
        known.generation == 4
            && known.attributes.kind == FileType::Regular
            && (known.attributes.uid, known.attributes.gid) == (1, 1)
            && (known.attributes.mode, known.attributes.size) == (0o644, 3),
    )
}

fn finds(draft: &Draft<'_>, find: &Find) -> Result<bool, Missing> {
    match *find {
        Find::Bytes(bytes) => ends(draft, 0, 100, bytes),
        Find::OtherBytes(bytes) => Ok(!ends(draft, 0, 100, bytes)?),
        Find::Links(links, modified, changed) => has_links(draft, links, modified, changed),
        Find::Gone => Ok(object(draft, 9)?.is_none()),
        Find::Uses(group, usage) => Ok(draft.usage(1, group)? == usage),
        Find::UsesNothing => Ok(draft.find(GROUP)?.is_none()),
        Find::Leads(name, number) => Ok(led(draft, name) == number),
        Find::Next(cookie) => Ok(next(draft)? == Some(cookie)),
        Find::New => is_new(draft),
    }
}

fn finds_all(draft: &Draft<'_>, list: &[Find]) -> Result<bool, Missing> {
    for find in list {
        if !finds(draft, find)? {
            return Ok(false);
        }
    }
    Ok(true)
}

/// Whether the change comes to all of this.
fn turns(draft: &mut Draft<'_>, change: Change, finds: &[Find]) -> Result<bool, Missing>
    requires none { draft.old.writes ≡ [] }
    requires alone { draft.old.modes ≡ changing }
{
    Ok(changed(draft, change)? && finds_all(draft, finds)?)
}

/// The same where these stand at first.
fn tried(alloc: Global, case: &Case) -> Result<bool, Missing> {
    let view = viewed(alloc, start_inode(alloc, case.start)?, case.beside)?;
    let ctx = ctx(1);
    let mut draft = Draft::new(alloc, &ctx, &view, CHANGING);
    let turns = turns(&mut draft, case.change, case.finds);
    drop(draft);
    drop(view);
    drop(ctx);
    turns
}

/// A file of 5 bytes with one link, of whose group nothing is known.
const HELLO: Case = Case {
    name: "a file",
    start: Start::Hello(1),
    beside: Beside::Block(b"hello"),
    change: Change::Resize(5),
    finds: &[],
};

const FILES: [Case; 7] = [
    Case {
        name: "a file is cut off",
        change: Change::Resize(3),
        finds: &[Find::Bytes(b"hel")],
        ..HELLO
    },
    Case {
        name: "a file is filled up with zeros",
        change: Change::Resize(7),
        finds: &[Find::Bytes(b"hello\0\0")],
        ..HELLO
    },
    Case {
        name: "bytes are written over others",
        change: Change::Write(1, b"ip"),
        finds: &[Find::Bytes(b"hiplo")],
        ..HELLO
    },
    Case {
        name: "bytes are written behind a gap",
        change: Change::Write(7, b"!!"),
        finds: &[Find::Bytes(b"hello\0\0!!")],
        ..HELLO
    },
    Case {
        name: "other bytes have a later time",
        change: Change::Resize(5),
        finds: &[Find::Bytes(b"hello"), Find::Links(1, LATER, LATER)],
        ..HELLO
    },
    Case {
        name: "a usage that stays is not asked for",
        change: Change::Resize(4),
        finds: &[Find::Bytes(b"hell")],
        ..HELLO
    },
    // What is in it stays, and so does its time.
    Case {
        name: "one of two links goes",
        start: Start::Hello(2),
        change: Change::LoseLink(2),
        finds: &[Find::Links(1, TIME, LATER)],
        ..HELLO
    },
];

/// One object of one block.
const ONE: Usage = Usage {
    used: 4096,
    objects: 1,
};

/// Three objects of one block each.
const THREE: Usage = Usage {
    used: 3 * 4096,
    objects: 3,
};

/// The same file, whose group is three objects of one block each.
const GROUPED: Case = Case {
    beside: Beside::BlockOf(b"hello", THREE),
    ..HELLO
};

/// Space is used in whole blocks (RFC 1813, 2.5: used).
const GROUPS: [Case; 4] = [
    Case {
        name: "an object goes with its last link",
        change: Change::LoseLink(1),
        finds: &[
            Find::Gone,
            Find::Uses(
                9,
                Usage {
                    used: 2 * 4096,
                    objects: 2,
                },
            ),
        ],
        ..GROUPED
    },
    Case {
        name: "an empty group has no usage",
        beside: Beside::BlockOf(b"hello", ONE),
        change: Change::LoseLink(1),
        finds: &[Find::UsesNothing],
        ..HELLO
    },
    Case {
        name: "bytes in a block stay counted",
        change: Change::Write(1, b"ip"),
        finds: &[Find::Bytes(b"hiplo"), Find::Uses(9, THREE)],
        ..GROUPED
    },
    Case {
        name: "a second block is counted",
        change: Change::Resize(4097),
        finds: &[
            Find::OtherBytes(b""),
            Find::Uses(
                9,
                Usage {
                    used: 4 * 4096,
                    objects: 3,
                },
            ),
        ],
        ..GROUPED
    },
];

/// A directory without names.
const PLACE: Case = Case {
    start: Start::Place,
    ..HELLO
};

/// The cookies of names that went are not used again (RFC 1813, 3.3.16).
const NAMES: [Case; 2] = [
    Case {
        name: "names come and go",
        beside: Beside::Room,
        change: Change::ComeAndGo,
        finds: &[
            Find::Leads(b"a", Some(7)),
            Find::Leads(b"b", None),
            Find::Next(5),
        ],
        ..PLACE
    },
    Case {
        name: "a new file has the number that was reserved",
        beside: Beside::Number,
        change: Change::Make,
        finds: &[Find::Leads(b"x", Some(10)), Find::New, Find::Uses(10, ONE)],
        ..PLACE
    },
];

/// Makes each change, or tells the first that does not come to what is expected.
fn all_come_true(alloc: Global, cases: &[Case]) -> Result<(), &'static str> {
    for case in cases {
        if !is_so(tried(alloc, case)) {
            return Err(case.name);
        }
    }
    Ok(())
}

#[test]
fn files_are_resized_and_written(rt: HostRuntime) -> Result<(), &'static str> {
    all_come_true(rt.alloc(), &FILES)
}

#[test]
fn what_a_group_uses_is_counted(rt: HostRuntime) -> Result<(), &'static str> {
    all_come_true(rt.alloc(), &GROUPS)
}

#[test]
fn names_are_added_and_taken(rt: HostRuntime) -> Result<(), &'static str> {
    all_come_true(rt.alloc(), &NAMES)
}

/// A file that uses more.
const MORE: Case = Case {
    change: Change::Resize(4097),
    ..HELLO
};

/// A new file where no number is reserved.
const UNRESERVED: Case = Case {
    change: Change::Make,
    ..PLACE
};

/// A usage where it changes, and a number for a new file.
#[test]
fn what_a_change_lacks_is_asked_for(rt: HostRuntime) {
    assert!(rt; asks(tried(rt.alloc(), &MORE), GROUP, Mode::Exclusive));
    assert!(rt; wants_a_number(tried(rt.alloc(), &UNRESERVED)));
}

#[test]
fn a_file_that_is_made_exclusively_is_given_nothing(rt: HostRuntime) {
    let exclusive = CreateHow::Exclusive(Verifier { bytes: [1; 8] });
    assert!(rt; file_wanted(&exclusive).attributes == NOTHING);
    assert!(rt; file_wanted(&SIZED).attributes.size == Some(3));
}
