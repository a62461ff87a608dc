//! Results.

ghost use Rattle.std.specs.Prelude.{IfOk};
ghost use Rattle.std.specs.List.{All};
ghost use Rattle.nfs_wire.specs.Replies.{HasNfsForm, HasLookupForm, HasReadlinkForm, HasReadForm, HasMadeForm};
ghost use Rattle.nfs_wire.specs.Replies.{HasEntryForm, HasFullEntryForm};

use super::{DIRECTORY, SHOWN};
use crate::tests::{behind_a_byte, has_written, joined};
use bytes::Bytes;
use nfs_wire::{
    AccessReply, Attributes, CommitReply, DeviceNumber, FileSystem, FileType, Found, FsinfoReply,
    FsstatReply, FullEntry, FullNames, LinkedReply, LookupReply, Made, MadeReply, Names, NfsReply,
    NfsStatus, Page, PageEntry, PagePlus, PathLimits, PathconfReply, Pieces, ReadData, ReadReply,
    ReaddirReply, ReaddirplusReply, ReadlinkReply, RemovedReply, RenamedReply, SetattrReply, Space,
    Stability, Time, Verifier, Wcc, WeakAttributes, WriteReply, Written, write_result,
};
use std::alloc::{AllocError, Global};
use std::process::Abort;
use std::test::Fail;

const VERIFIER: Verifier = Verifier {
    bytes: [1, 2, 3, 4, 5, 6, 7, 8],
};

/// Nothing is known of an object before and after a call.
const UNKNOWN: Wcc = Wcc {
    before: None,
    after: None,
};

/// The directory is shown as it is after a call, and nothing is known of it before.
const AFTER: Wcc = Wcc {
    before: None,
    after: Some(SHOWN),
};

/// What CREATE, MKDIR, SYMLINK or MKNOD made.
#[derive(Clone, Copy)]
enum Makes {
    /// The handle `abcd`, and the attributes of the directory.
    Known,
    Unknown,
    Nothing(NfsStatus),
}

/// A reply.
enum Told {
    Null,
    Getattr(Result<Attributes, NfsStatus>),
    Setattr(SetattrReply),
    /// LOOKUP found the handle `abcde`, with the attributes of the directory.
    Lookup,
    /// It found nothing in the directory, which is shown.
    NotFound(NfsStatus),
    Access(AccessReply),
    /// The text `a/b`, or none, of a link that is shown.
    Readlink(Result<(), NfsStatus>),
    /// `hello`, at the end of a file that is shown.
    Read,
    /// The file is not shown.
    NotRead(NfsStatus),
    Write(WriteReply),
    Create(Makes),
    Mkdir(Makes),
    Symlink(Makes),
    Mknod(Makes),
    Remove(RemovedReply),
    Rmdir(RemovedReply),
    Rename(RenamedReply),
    Link(LinkedReply),
    Fsstat(FsstatReply),
    Fsinfo(FsinfoReply),
    Pathconf(PathconfReply),
    Commit(CommitReply),
}

/// Words in three parts, and the reply of which they are written.
struct Writing(&'static [u32], &'static [u32], &'static [u32], Told);

/// Whether these words are written of the reply. It owns the reply, since a test that keeps one is slow to prove.
fn is_written(
    alloc: Global,
    front: &[u32],
    middle: &[u32],
    back: &[u32],
    reply: NfsReply,
) -> Result<bool, Fail>
    requires { HasNfsForm reply }
{
    let is_written = is_result(alloc, front, middle, back, &reply);
    drop(reply);
    is_written
}

/// The same of a reply that is lent.
fn is_result(
    alloc: Global,
    front: &[u32],
    middle: &[u32],
    back: &[u32],
    reply: &NfsReply,
) -> Result<bool, Fail>
    requires { HasNfsForm reply.now }
{
    let expected = joined(alloc, front, middle, back)?;
    let mut writer = behind_a_byte(alloc)?;
    write_result(&mut writer, reply)?;
    Ok(has_written(writer, expected.as_slice()))
}

fn lookup() -> LookupReply
    ensures { HasLookupForm result }
{
    LookupReply {
        directory: None,
        result: Ok(Found {
            object: Bytes::from_static(b"abcde"),
            attributes: Some(SHOWN),
        }),
    }
}

fn readlink(text: Result<(), NfsStatus>) -> ReadlinkReply
    ensures { HasReadlinkForm result }
{
    ReadlinkReply {
        attributes: Some(SHOWN),
        result: text.map(|_| Bytes::from_static(b"a/b")),
    }
}

/// Of "hello" in two pieces.
fn read(alloc: Global) -> Result<ReadReply, AllocError>
    ensures { IfOk result HasReadForm }
{
    let mut data = Pieces::new(alloc);
    data.push(Bytes::from_static(b"hel"))?;
    data.push(Bytes::from_static(b"lo"))?;
    Ok(ReadReply {
        attributes: Some(SHOWN),
        result: Ok(ReadData {
            count: 5,
            eof: true,
            data,
        }),
    })
}

fn made(makes: Makes) -> MadeReply
    ensures { HasMadeForm result }
{
    let result = match makes {
        Makes::Known => Ok(Made {
            object: Some(Bytes::from_static(b"abcd")),
            attributes: Some(SHOWN),
        }),
        Makes::Unknown => Ok(Made {
            object: None,
            attributes: None,
        }),
        Makes::Nothing(status) => Err(status),
    };
    MadeReply {
        directory: UNKNOWN,
        result,
    }
}

/// Whether those words are written of that reply.
fn is_told(alloc: Global, writing: &Writing) -> Result<bool, Fail> {
    let Writing(front, middle, back, told) = writing;
    match *told {
        Told::Null => is_written(alloc, front, middle, back, NfsReply::Null),
        Told::Getattr(result) => is_written(alloc, front, middle, back, NfsReply::Getattr(result)),
        Told::Setattr(reply) => is_written(alloc, front, middle, back, NfsReply::Setattr(reply)),
        Told::Lookup => is_written(alloc, front, middle, back, NfsReply::Lookup(lookup())),
        Told::NotFound(status) => {
            let reply = LookupReply {
                directory: Some(SHOWN),
                result: Err(status),
            };
            is_written(alloc, front, middle, back, NfsReply::Lookup(reply))
        }
        Told::Access(reply) => is_written(alloc, front, middle, back, NfsReply::Access(reply)),
        Told::Readlink(result) => {
            is_written(
                alloc,
                front,
                middle,
                back,
                NfsReply::Readlink(readlink(result)),
            )
        }
        Told::Read => is_written(alloc, front, middle, back, NfsReply::Read(read(alloc)?)),
        Told::NotRead(status) => {
            let reply = ReadReply {
                attributes: None,
                result: Err(status),
            };
            is_written(alloc, front, middle, back, NfsReply::Read(reply))
        }
        Told::Write(reply) => is_written(alloc, front, middle, back, NfsReply::Write(reply)),
        Told::Create(makes) => is_written(
            alloc,
            front,
            middle,
            back,
            NfsReply::Create(made(makes)),
        ),
        Told::Mkdir(makes) => is_written(alloc, front, middle, back, NfsReply::Mkdir(made(makes))),
        Told::Symlink(makes) => {
            is_written(alloc, front, middle, back, NfsReply::Symlink(made(makes)))
        }
        Told::Mknod(makes) => is_written(alloc, front, middle, back, NfsReply::Mknod(made(makes))),
        Told::Remove(reply) => is_written(alloc, front, middle, back, NfsReply::Remove(reply)),
        Told::Rmdir(reply) => is_written(alloc, front, middle, back, NfsReply::Rmdir(reply)),
        Told::Rename(reply) => is_written(alloc, front, middle, back, NfsReply::Rename(reply)),
        Told::Link(reply) => is_written(alloc, front, middle, back, NfsReply::Link(reply)),
        Told::Fsstat(reply) => is_written(alloc, front, middle, back, NfsReply::Fsstat(reply)),
        Told::Fsinfo(reply) => is_written(alloc, front, middle, back, NfsReply::Fsinfo(reply)),
        Told::Pathconf(reply) => is_written(alloc, front, middle, back, NfsReply::Pathconf(reply)),
        Told::Commit(reply) => is_written(alloc, front, middle, back, NfsReply::Commit(reply)),
    }
}

/// The words are written of those replies.
fn are_written(rt: &(impl Abort + AllocGlobal), writings: &[Writing]) -> Result<(), Fail> {
    for writing in writings {
        assert!(rt;
            is_told(rt.alloc(), writing)?,
            "{:?} {:?}",
            writing.0,
            writing.2
        );
    }
    Ok(())
}

#[test]
fn attributes_are_written(rt: HostRuntime) -> Result<(), Fail> {
    const DEVICE: Attributes = Attributes {
        kind: FileType::CharacterDevice,
        device: DeviceNumber {
            major: 4,
            minor: 64,
        },
        size: 0x1_0000_0002,
        accessed: Time {
            seconds: 1,
            nanoseconds: 999_999_999,
        },
        ..SHOWN
    };
    are_written(
        &rt,
        &[
            Writing(&[], &[], &[], Told::Null),
            Writing(&[0], &DIRECTORY, &[], Told::Getattr(Ok(SHOWN))),
            Writing(
                &[0, 4, 0x1ff, 2, 0, 0, 1, 2, 0, 0x1000, 4, 64, 0, 1, 0, 1],
                &[1, 0x3b9a_c9ff, 0x3e8, 0, 0x3e8, 0],
                &[],
                Told::Getattr(Ok(DEVICE)),
            ),
        ],
    )
}

#[test]
fn refusals_are_written(rt: HostRuntime) -> Result<(), Fail> {
    are_written(
        &rt,
        &[
            Writing(&[1], &[], &[], Told::Getattr(Err(NfsStatus::Permission))),
            Writing(&[63], &[], &[], Told::Getattr(Err(NfsStatus::NameTooLong))),
            Writing(&[70], &[], &[], Told::Getattr(Err(NfsStatus::Stale))),
            Writing(&[10001], &[], &[], Told::Getattr(Err(NfsStatus::BadHandle))),
            Writing(&[10008], &[], &[], Told::Getattr(Err(NfsStatus::Jukebox))),
        ],
    )
}

#[test]
fn setattr_and_access_are_written(rt: HostRuntime) -> Result<(), Fail> {
    const SET: SetattrReply = SetattrReply {
        wcc: Wcc {
            before: Some(WeakAttributes {
                size: 0x1_0000_0002,
                modified: Time {
                    seconds: 3,
                    nanoseconds: 0,
                },
                changed: Time {
                    seconds: 4,
                    nanoseconds: 0,
                },
            }),
            after: Some(SHOWN),
        },
        result: Ok(()),
    };
    const NOT_SET: SetattrReply = SetattrReply {
        wcc: AFTER,
        result: Err(NfsStatus::NotSynchronized),
    };
    const ACCESS: AccessReply = AccessReply {
        attributes: Some(SHOWN),
        result: Ok(0x1f),
    };
    const NO_ACCESS: AccessReply = AccessReply {
        attributes: None,
        result: Err(NfsStatus::Stale),
    };
    are_written(
        &rt,
        &[
            Writing(
                &[0, 1, 1, 2, 3, 0, 4, 0, 1],
                &DIRECTORY,
                &[],
                Told::Setattr(SET),
            ),
            Writing(&[10002, 0, 1], &DIRECTORY, &[], Told::Setattr(NOT_SET)),
            Writing(&[0, 1], &DIRECTORY, &[0x1f], Told::Access(ACCESS)),
            Writing(&[70, 0], &[], &[], Told::Access(NO_ACCESS)),
        ],
    )
}

#[test]
fn lookup_and_readlink_are_written(rt: HostRuntime) -> Result<(), Fail> {
    are_written(
        &rt,
        &[
            Writing(
                &[0, 5, 0x6162_6364, 0x6500_0000, 1],
                &DIRECTORY,
                &[0],
                Told::Lookup,
            ),
            Writing(&[2, 1], &DIRECTORY, &[], Told::NotFound(NfsStatus::NoEntry)),
            Writing(
                &[0, 1],
                &DIRECTORY,
                &[3, 0x612f_6200],
                Told::Readlink(Ok(())),
            ),
            Writing(
                &[22, 1],
                &DIRECTORY,
                &[],
                Told::Readlink(Err(NfsStatus::Invalid)),
            ),
        ],
    )
}

#[test]
fn read_write_and_commit_are_written(rt: HostRuntime) -> Result<(), Fail> {
    const UNSTABLE: Written = Written {
        count: 5,
        committed: Stability::Unstable,
        verifier: VERIFIER,
    };
    const WRITTEN: WriteReply = WriteReply {
        wcc: UNKNOWN,
        result: Ok(UNSTABLE),
    };
    const DATA_SYNC: WriteReply = WriteReply {
        result: Ok(Written {
            committed: Stability::DataSync,
            ..UNSTABLE
        }),
        ..WRITTEN
    };
    const FILE_SYNC: WriteReply = WriteReply {
        result: Ok(Written {
            committed: Stability::FileSync,
            ..UNSTABLE
        }),
        ..WRITTEN
    };
    const NOT_WRITTEN: WriteReply = WriteReply {
        wcc: UNKNOWN,
        result: Err(NfsStatus::FileTooBig),
    };
    const COMMITTED: CommitReply = CommitReply {
        wcc: UNKNOWN,
        result: Ok(VERIFIER),
    };
    const NOT_COMMITTED: CommitReply = CommitReply {
        wcc: UNKNOWN,
        result: Err(NfsStatus::Invalid),
    };
    are_written(
        &rt,
        &[
            Writing(
                &[0, 1],
                &DIRECTORY,
                &[5, 1, 5, 0x6865_6c6c, 0x6f00_0000],
                Told::Read,
            ),
            Writing(&[10001, 0], &[], &[], Told::NotRead(NfsStatus::BadHandle)),
            Writing(
                &[0, 0, 0, 5, 0],
                &[0x0102_0304, 0x0506_0708],
                &[],
                Told::Write(WRITTEN),
            ),
            Writing(
                &[0, 0, 0, 5, 1],
                &[0x0102_0304, 0x0506_0708],
                &[],
                Told::Write(DATA_SYNC),
            ),
            Writing(
                &[0, 0, 0, 5, 2],
                &[0x0102_0304, 0x0506_0708],
                &[],
                Told::Write(FILE_SYNC),
            ),
            Writing(&[27, 0, 0], &[], &[], Told::Write(NOT_WRITTEN)),
            Writing(
                &[0, 0, 0],
                &[0x0102_0304, 0x0506_0708],
                &[],
                Told::Commit(COMMITTED),
            ),
            Writing(&[22, 0, 0], &[], &[], Told::Commit(NOT_COMMITTED)),
        ],
    )
}

/// What was made may be unknown.
#[test]
fn what_was_made_is_written(rt: HostRuntime) -> Result<(), Fail> {
    const FRONT: [u32; 5] = [0, 1, 4, 0x6162_6364, 1];
    are_written(
        &rt,
        &[
            Writing(&FRONT, &DIRECTORY, &[0, 0], Told::Create(Makes::Known)),
            Writing(&FRONT, &DIRECTORY, &[0, 0], Told::Mkdir(Makes::Known)),
            Writing(&FRONT, &DIRECTORY, &[0, 0], Told::Symlink(Makes::Known)),
            Writing(&FRONT, &DIRECTORY, &[0, 0], Told::Mknod(Makes::Known)),
            Writing(&[0, 0, 0, 0, 0], &[], &[], Told::Create(Makes::Unknown)),
            Writing(
                &[10007, 0, 0],
                &[],
                &[],
                Told::Mknod(Makes::Nothing(NfsStatus::BadType)),
            ),
        ],
    )
}

#[test]
fn remove_rename_and_link_are_written(rt: HostRuntime) -> Result<(), Fail> {
    const REMOVED: RemovedReply = RemovedReply {
        directory: UNKNOWN,
        result: Ok(()),
    };
    const NOT_REMOVED: RemovedReply = RemovedReply {
        directory: AFTER,
        result: Err(NfsStatus::NotEmpty),
    };
    const RENAMED: RenamedReply = RenamedReply {
        from: AFTER,
        to: UNKNOWN,
        result: Ok(()),
    };
    const NOT_RENAMED: RenamedReply = RenamedReply {
        from: AFTER,
        to: UNKNOWN,
        result: Err(NfsStatus::CrossDevice),
    };
    const LINKED: LinkedReply = LinkedReply {
        attributes: Some(SHOWN),
        directory: UNKNOWN,
        result: Ok(()),
    };
    const NOT_LINKED: LinkedReply = LinkedReply {
        attributes: None,
        directory: UNKNOWN,
        result: Err(NfsStatus::TooManyLinks),
    };
    are_written(
        &rt,
        &[
            Writing(&[0, 0, 0], &[], &[], Told::Remove(REMOVED)),
            Writing(&[66, 0, 1], &DIRECTORY, &[], Told::Rmdir(NOT_REMOVED)),
            Writing(&[0, 0, 1], &DIRECTORY, &[0, 0], Told::Rename(RENAMED)),
            Writing(&[18, 0, 1], &DIRECTORY, &[0, 0], Told::Rename(NOT_RENAMED)),
            Writing(&[0, 1], &DIRECTORY, &[0, 0], Told::Link(LINKED)),
            Writing(&[31, 0, 0, 0], &[], &[], Told::Link(NOT_LINKED)),
        ],
    )
}

#[test]
fn a_file_system_is_written(rt: HostRuntime) -> Result<(), Fail> {
    const SPACE: FsstatReply = FsstatReply {
        attributes: Some(SHOWN),
        result: Ok(Space {
            total_bytes: 0x100_0000_0000,
            free_bytes: 2,
            available_bytes: 3,
            total_files: 4,
            free_files: 5,
            available_files: 6,
            unchanged_for: 7,
        }),
    };
    const SYSTEM: FsinfoReply = FsinfoReply {
        attributes: Some(SHOWN),
        result: Ok(FileSystem {
            read_most: 1,
            read_preferred: 2,
            read_multiple: 3,
            write_most: 4,
            write_preferred: 5,
            write_multiple: 6,
            directory_preferred: 7,
            largest_file: 0x8_0000_0009,
            time_step: Time {
                seconds: 0,
                nanoseconds: 1,
            },
            properties: 27,
        }),
    };
    const LIMITS: PathconfReply = PathconfReply {
        attributes: Some(SHOWN),
        result: Ok(PathLimits {
            most_links: 32000,
            longest_name: 255,
            no_truncation: true,
            chown_restricted: true,
            case_insensitive: false,
            case_preserving: true,
        }),
    };
    are_written(
        &rt,
        &[
            Writing(
                &[0, 1],
                &DIRECTORY,
                &[0x100, 0, 0, 2, 0, 3, 0, 4, 0, 5, 0, 6, 7],
                Told::Fsstat(SPACE),
            ),
            Writing(
                &[0, 1],
                &DIRECTORY,
                &[1, 2, 3, 4, 5, 6, 7, 8, 9, 0, 1, 27],
                Told::Fsinfo(SYSTEM),
            ),
            Writing(
                &[0, 1],
                &DIRECTORY,
                &[32000, 255, 1, 1, 0, 1],
                Told::Pathconf(LIMITS),
            ),
        ],
    )
}

#[test]
fn no_file_system_is_written(rt: HostRuntime) -> Result<(), Fail> {
    const SPACE: FsstatReply = FsstatReply {
        attributes: None,
        result: Err(NfsStatus::Stale),
    };
    const SYSTEM: FsinfoReply = FsinfoReply {
        attributes: None,
        result: Err(NfsStatus::Stale),
    };
    const LIMITS: PathconfReply = PathconfReply {
        attributes: None,
        result: Err(NfsStatus::Stale),
    };
    are_written(
        &rt,
        &[
            Writing(&[70, 0], &[], &[], Told::Fsstat(SPACE)),
            Writing(&[70, 0], &[], &[], Told::Fsinfo(SYSTEM)),
            Writing(&[70, 0], &[], &[], Told::Pathconf(LIMITS)),
        ],
    )
}

fn names(alloc: Global) -> Result<Names, AllocError>
    ensures { IfOk result (λ names. All HasEntryForm names) }
{
    let mut names = Vec::new(alloc);
    names.push(PageEntry {
        fileid: 1,
        name: Bytes::from_static(b"."),
        cookie: 1,
    })?;
    names.push(PageEntry {
        fileid: 0x1_0000_0002,
        name: Bytes::from_static(b"file"),
        cookie: 3,
    })?;
    Ok(Names::from_vec(names))
}

#[test]
fn readdir_is_written(rt: HostRuntime) -> Result<(), Fail> {
    let done = ReaddirReply {
        attributes: Some(SHOWN),
        result: Ok(Page {
            verifier: VERIFIER,
            entries: names(rt.alloc())?,
            eof: true,
        }),
    };
    let back = [
        0x0102_0304,
        0x0506_0708,
        1,
        0,
        1,
        1,
        0x2e00_0000,
        0,
        1,
        1,
        1,
        2,
        4,
        0x6669_6c65,
        0,
        3,
        0,
        1,
    ];
    assert!(rt;
        is_written(
            rt.alloc(),
            &[0, 1],
            &DIRECTORY,
            &back,
            NfsReply::Readdir(done)
        )?
    );
    Ok(())
}

#[test]
fn a_page_may_be_empty(rt: HostRuntime) -> Result<(), Fail> {
    let done = ReaddirReply {
        attributes: None,
        result: Ok(Page {
            verifier: VERIFIER,
            entries: Names::from_vec(Vec::new(rt.alloc())),
            eof: false,
        }),
    };
    let words = [0, 0, 0x0102_0304, 0x0506_0708, 0, 0];
    assert!(rt; is_written(rt.alloc(), &words, &[], &[], NfsReply::Readdir(done))?);
    Ok(())
}

fn full_names(alloc: Global) -> Result<FullNames, AllocError>
    ensures { IfOk result (λ names. All HasFullEntryForm names) }
{
    let mut list = Vec::new(alloc);
    list.push(FullEntry {
        entry: PageEntry {
            fileid: 1,
            name: Bytes::from_static(b"."),
            cookie: 1,
        },
        attributes: None,
        object: Some(Bytes::from_static(b"abcd")),
    })?;
    list.push(FullEntry {
        entry: PageEntry {
            fileid: 2,
            name: Bytes::from_static(b"file"),
            cookie: 3,
        },
        attributes: Some(SHOWN),
        object: None,
    })?;
    Ok(FullNames::from_vec(list))
}

#[test]
fn readdirplus_is_written(rt: HostRuntime) -> Result<(), Fail> {
    let done = ReaddirplusReply {
        attributes: None,
        result: Ok(PagePlus {
            verifier: VERIFIER,
            entries: full_names(rt.alloc())?,
            eof: true,
        }),
    };
    let front = [
        0,
        0,
        0x0102_0304,
        0x0506_0708,
        1,
        0,
        1,
        1,
        0x2e00_0000,
        0,
        1,
        0,
        1,
        4,
        0x6162_6364,
        1,
        0,
        2,
        4,
        0x6669_6c65,
        0,
        3,
        1,
    ];
    let back = [0, 0, 1];
    assert!(rt;
        is_written(
            rt.alloc(),
            &front,
            &DIRECTORY,
            &back,
            NfsReply::Readdirplus(done)
        )?
    );
    Ok(())
}

#[test]
fn no_page_is_written(rt: HostRuntime) -> Result<(), Fail> {
    let page = ReaddirReply {
        attributes: None,
        result: Err(NfsStatus::BadCookie),
    };
    assert!(rt; is_written(rt.alloc(), &[10003, 0], &[], &[], NfsReply::Readdir(page))?);
    let page = ReaddirplusReply {
        attributes: Some(SHOWN),
        result: Err(NfsStatus::TooSmall),
    };
    let reply = NfsReply::Readdirplus(page);
    assert!(rt; is_written(rt.alloc(), &[10005, 1], &DIRECTORY, &[], reply)?);
    Ok(())
}
