//! Arguments.

use super::{HANDLE, PLACE};
use crate::tests::arguments::{Format, Garbage, all_are_garbage, fronts_are_garbage};
use crate::tests::{BEHIND, joined, record};
use bytes::Bytes;
use nfs_wire::{
    AccessArguments, CommitArguments, CreateArguments, CreateHow, DeviceNumber, DirOp,
    LinkArguments, MkdirArguments, MknodArguments, NfsCall, Ordinary, ReadArguments,
    ReaddirArguments, ReaddirplusArguments, RenameArguments, SetAttributes, SetTime,
    SetattrArguments, Special, Stability, SymlinkArguments, Time, Verifier, WriteArguments,
    one_call_is_spelled, read_args,
};
use nfs_xdr::SharedReader;
use std::alloc::Global;
use std::process::Abort;
use std::test::Fail;

/// Nothing is set.
const NOTHING: SetAttributes = SetAttributes {
    mode: None,
    uid: None,
    gid: None,
    size: None,
    accessed: SetTime::Leave,
    modified: SetTime::Leave,
};

/// What arguments are read as. Where none is given the handle is `abcd`, and the name `file`.
#[derive(Clone, Copy)]
enum Arguments {
    Nothing,
    Handle(&'static [u8]),
    /// A name in a directory.
    Name(&'static [u8]),
    Setattr(SetAttributes, Option<Time>),
    /// The rights.
    Access(u32),
    /// The offset and the count.
    Read(u64, u32),
    /// `hello` is written at 9, with a count of 3.
    Write(Stability),
    Create(CreateHow),
    Mkdir(SetAttributes),
    /// The text.
    Symlink(&'static [u8]),
    Mknod(Special),
    /// The new directory and the new name.
    Rename(&'static [u8], &'static [u8]),
    /// The file.
    Link(&'static [u8]),
    /// The cookie, its verifier, and the count.
    Readdir(u64, [u8; 8], u32),
    /// The cookie, its verifier, and the two counts.
    Readdirplus(u64, [u8; 8], u32, u32),
    /// The offset and the count.
    Commit(u64, u32),
}

/// The words of a procedure's arguments in two parts, and what they are read as.
struct Reading(u32, &'static [u32], &'static [u32], Arguments);

fn handle() -> Bytes {
    Bytes::from_static(b"abcd")
}

fn place(name: &'static [u8]) -> DirOp {
    DirOp {
        directory: handle(),
        name: Bytes::from_static(name),
    }
}

/// The call of a procedure whose arguments are a handle.
fn on_handle(procedure: u32, handle: &'static [u8]) -> NfsCall {
    let handle = Bytes::from_static(handle);
    match procedure {
        1 => NfsCall::Getattr(handle),
        5 => NfsCall::Readlink(handle),
        18 => NfsCall::Fsstat(handle),
        19 => NfsCall::Fsinfo(handle),
        _ => NfsCall::Pathconf(handle),
    }
}

/// The call of a procedure whose arguments are a name in a directory.
fn on_name(procedure: u32, name: &'static [u8]) -> NfsCall {
    let place = place(name);
    match procedure {
        3 => NfsCall::Lookup(place),
        12 => NfsCall::Remove(place),
        _ => NfsCall::Rmdir(place),
    }
}

fn setattr(attributes: SetAttributes, guard: Option<Time>) -> NfsCall {
    NfsCall::Setattr(SetattrArguments {
        object: handle(),
        attributes,
        guard,
    })
}

fn access(rights: u32) -> NfsCall {
    NfsCall::Access(AccessArguments {
        object: handle(),
        rights,
    })
}

fn read(offset: u64, count: u32) -> NfsCall {
    NfsCall::Read(ReadArguments {
        file: handle(),
        offset,
        count,
    })
}

fn write(stable: Stability) -> NfsCall {
    NfsCall::Write(WriteArguments {
        file: handle(),
        offset: 9,
        count: 3,
        stable,
        data: Bytes::from_static(b"hello"),
    })
}

fn create(how: CreateHow) -> NfsCall {
    NfsCall::Create(CreateArguments {
        place: place(b"file"),
        how,
    })
}

fn mkdir(attributes: SetAttributes) -> NfsCall {
    NfsCall::Mkdir(MkdirArguments {
        place: place(b"file"),
        attributes,
    })
}

fn symlink(text: &'static [u8]) -> NfsCall {
    NfsCall::Symlink(SymlinkArguments {
        place: place(b"file"),
        attributes: NOTHING,
        text: Bytes::from_static(text),
    })
}

fn mknod(what: Special) -> NfsCall {
    NfsCall::Mknod(MknodArguments {
        place: place(b"file"),
        what,
    })
}

fn rename(directory: &'static [u8], name: &'static [u8]) -> NfsCall {
    NfsCall::Rename(RenameArguments {
        from: place(b"file"),
        to: DirOp {
            directory: Bytes::from_static(directory),
            name: Bytes::from_static(name),
        },
    })
}

fn link(file: &'static [u8]) -> NfsCall {
    NfsCall::Link(LinkArguments {
        file: Bytes::from_static(file),
        place: place(b"file"),
    })
}

fn readdir(cookie: u64, bytes: [u8; 8], count: u32) -> NfsCall {
    NfsCall::Readdir(ReaddirArguments {
        directory: handle(),
        cookie,
        verifier: Verifier { bytes },
        count,
    })
}

fn readdirplus(cookie: u64, bytes: [u8; 8], directory_count: u32, most: u32) -> NfsCall {
    NfsCall::Readdirplus(ReaddirplusArguments {
        directory: handle(),
        cookie,
        verifier: Verifier { bytes },
        directory_count,
        most,
    })
}

fn commit(offset: u64, count: u32) -> NfsCall {
    NfsCall::Commit(CommitArguments {
        file: handle(),
        offset,
        count,
    })
}

/// The call of the procedure with these arguments.
fn call_of(procedure: u32, arguments: &Arguments) -> NfsCall {
    match *arguments {
        Arguments::Nothing => NfsCall::Null,
        Arguments::Handle(handle) => on_handle(procedure, handle),
        Arguments::Name(name) => on_name(procedure, name),
        Arguments::Setattr(attributes, guard) => setattr(attributes, guard),
        Arguments::Access(rights) => access(rights),
        Arguments::Read(offset, count) => read(offset, count),
        Arguments::Write(stable) => write(stable),
        Arguments::Create(how) => create(how),
        Arguments::Mkdir(attributes) => mkdir(attributes),
        Arguments::Symlink(text) => symlink(text),
        Arguments::Mknod(what) => mknod(what),
        Arguments::Rename(directory, name) => rename(directory, name),
        Arguments::Link(file) => link(file),
        Arguments::Readdir(cookie, verifier, count) => readdir(cookie, verifier, count),
        Arguments::Readdirplus(cookie, verifier, count, most) => {
            readdirplus(cookie, verifier, count, most)
        }
        Arguments::Commit(offset, count) => commit(offset, count),
    }
}

/// Whether the bytes are read as the call.
fn is_call(alloc: Global, procedure: u32, bytes: &[u8], call: &NfsCall) -> Result<bool, Fail> {
    let record = record(alloc, bytes)?;
    let read = read_args(procedure, SharedReader::new(&record));
    let is_call = matches!(&read, Ok(read) if read == call);
    drop(read);
    Ok(is_call)
}

/// Whether the words are read as that call, with nothing and with bytes behind them, and every shorter front is
/// garbage.
fn is_read(alloc: Global, reading: &Reading) -> Result<bool, Fail> {
    let call = call_of(reading.0, &reading.3);
    let is_read = is_read_as(alloc, reading, &call);
    drop(call);
    is_read
}

/// The same of a call that is lent.
fn is_read_as(alloc: Global, reading: &Reading, call: &NfsCall) -> Result<bool, Fail> {
    let Reading(procedure, front, back, _) = reading;
    let mut bytes = joined(alloc, front, back, &[])?;
    if !fronts_are_garbage(alloc, Format::Nfs(*procedure), bytes.as_slice())?
        || !is_call(alloc, *procedure, bytes.as_slice(), call)?
    {
        return Ok(false);
    }
    bytes.extend_from_slice(&BEHIND)?;
    is_call(alloc, *procedure, bytes.as_slice(), call)
}

/// The words are read as those calls.
fn are_read(rt: &(impl Abort + AllocGlobal), readings: &[Reading]) -> Result<(), Fail> {
    for reading in readings {
        assert!(rt; is_read(rt.alloc(), reading)?, "procedure {}", reading.0);
    }
    Ok(())
}

#[test]
fn a_call_of_no_arguments_is_read(rt: HostRuntime) -> Result<(), Fail> {
    one_call_is_spelled();
    are_read(&rt, &[Reading(0, &[], &[], Arguments::Nothing)])
}

/// A handle has at most 64 bytes, and its padding is any bytes.
#[test]
fn calls_on_a_handle_are_read(rt: HostRuntime) -> Result<(), Fail> {
    const ABCD: Arguments = Arguments::Handle(b"abcd");
    are_read(
        &rt,
        &[
            Reading(1, &HANDLE, &[], ABCD),
            Reading(1, &[64], &[0x0707_0707; 16], Arguments::Handle(&[7; 64])),
            Reading(
                1,
                &[5],
                &[0x6162_6364, 0x6501_ff80],
                Arguments::Handle(b"abcde"),
            ),
            Reading(5, &HANDLE, &[], ABCD),
            Reading(18, &HANDLE, &[], ABCD),
            Reading(19, &HANDLE, &[], ABCD),
            Reading(20, &HANDLE, &[], ABCD),
        ],
    )
}

/// A name has any length.
#[test]
fn calls_on_a_name_are_read(rt: HostRuntime) -> Result<(), Fail> {
    const FILE: Arguments = Arguments::Name(b"file");
    are_read(
        &rt,
        &[
            Reading(3, &PLACE, &[], FILE),
            Reading(
                3,
                &[4, 0x6162_6364, 256],
                &[0x6e6e_6e6e; 64],
                Arguments::Name(&[b'n'; 256]),
            ),
            Reading(12, &PLACE, &[], FILE),
            Reading(13, &PLACE, &[], FILE),
        ],
    )
}

#[test]
fn setattr_is_read(rt: HostRuntime) -> Result<(), Fail> {
    const TO_CLIENT: SetAttributes = SetAttributes {
        mode: Some(0o644),
        gid: Some(100),
        size: Some(0x1_0000_0002),
        modified: SetTime::ToClient(Time {
            seconds: 5,
            nanoseconds: 6,
        }),
        ..NOTHING
    };
    const GUARD: Time = Time {
        seconds: 8,
        nanoseconds: 9,
    };
    const TO_SERVER: SetAttributes = SetAttributes {
        uid: Some(7),
        accessed: SetTime::ToServer,
        ..NOTHING
    };
    are_read(
        &rt,
        &[
            Reading(
                2,
                &HANDLE,
                &[1, 0o644, 0, 1, 100, 1, 1, 2, 0, 2, 5, 6, 1, 8, 9],
                Arguments::Setattr(TO_CLIENT, Some(GUARD)),
            ),
            Reading(
                2,
                &HANDLE,
                &[0, 1, 7, 0, 0, 1, 0, 0],
                Arguments::Setattr(TO_SERVER, None),
            ),
        ],
    )
}

/// The padding of data is any bytes.
#[test]
fn calls_on_a_file_are_read(rt: HostRuntime) -> Result<(), Fail> {
    const DATA_SYNC: Arguments = Arguments::Write(Stability::DataSync);
    are_read(
        &rt,
        &[
            Reading(4, &HANDLE, &[0x3f], Arguments::Access(0x3f)),
            Reading(6, &HANDLE, &[1, 2, 3], Arguments::Read(0x1_0000_0002, 3)),
            Reading(
                7,
                &HANDLE,
                &[0, 9, 3, 2, 5, 0x6865_6c6c, 0x6f00_0000],
                Arguments::Write(Stability::FileSync),
            ),
            Reading(
                7,
                &HANDLE,
                &[0, 9, 3, 0, 5, 0x6865_6c6c, 0x6f01_ff80],
                Arguments::Write(Stability::Unstable),
            ),
            Reading(
                7,
                &HANDLE,
                &[0, 9, 3, 1, 5, 0x6865_6c6c, 0x6fff_ffff],
                DATA_SYNC,
            ),
            Reading(21, &HANDLE, &[0, 5, 6], Arguments::Commit(5, 6)),
        ],
    )
}

#[test]
fn create_and_mkdir_are_read(rt: HostRuntime) -> Result<(), Fail> {
    const MODE: SetAttributes = SetAttributes {
        mode: Some(0o600),
        ..NOTHING
    };
    const VERIFIER: Verifier = Verifier {
        bytes: [1, 2, 3, 4, 5, 6, 7, 255],
    };
    are_read(
        &rt,
        &[
            Reading(
                8,
                &PLACE,
                &[0, 1, 0o600, 0, 0, 0, 0, 0],
                Arguments::Create(CreateHow::Unchecked(MODE)),
            ),
            Reading(
                8,
                &PLACE,
                &[1, 0, 0, 0, 0, 0, 0],
                Arguments::Create(CreateHow::Guarded(NOTHING)),
            ),
            Reading(
                8,
                &PLACE,
                &[2, 0x0102_0304, 0x0506_07ff],
                Arguments::Create(CreateHow::Exclusive(VERIFIER)),
            ),
            Reading(9, &PLACE, &[0; 6], Arguments::Mkdir(NOTHING)),
            Reading(
                10,
                &PLACE,
                &[0, 0, 0, 0, 0, 0, 3, 0x612f_6200],
                Arguments::Symlink(b"a/b"),
            ),
        ],
    )
}

#[test]
fn mknod_is_read(rt: HostRuntime) -> Result<(), Fail> {
    const NUMBER: DeviceNumber = DeviceNumber {
        major: 4,
        minor: 64,
    };
    const BLOCK: Special = Special::BlockDevice(NOTHING, NUMBER);
    const CHARACTER: Special = Special::CharacterDevice(NOTHING, NUMBER);
    are_read(
        &rt,
        &[
            Reading(
                11,
                &PLACE,
                &[3, 0, 0, 0, 0, 0, 0, 4, 64],
                Arguments::Mknod(BLOCK),
            ),
            Reading(
                11,
                &PLACE,
                &[4, 0, 0, 0, 0, 0, 0, 4, 64],
                Arguments::Mknod(CHARACTER),
            ),
            Reading(
                11,
                &PLACE,
                &[6, 0, 0, 0, 0, 0, 0],
                Arguments::Mknod(Special::Socket(NOTHING)),
            ),
            Reading(
                11,
                &PLACE,
                &[7, 0, 0, 0, 0, 0, 0],
                Arguments::Mknod(Special::Fifo(NOTHING)),
            ),
            Reading(
                11,
                &PLACE,
                &[1],
                Arguments::Mknod(Special::Other(Ordinary::Regular)),
            ),
            Reading(
                11,
                &PLACE,
                &[2],
                Arguments::Mknod(Special::Other(Ordinary::Directory)),
            ),
            Reading(
                11,
                &PLACE,
                &[5],
                Arguments::Mknod(Special::Other(Ordinary::Link)),
            ),
        ],
    )
}

#[test]
fn rename_and_link_are_read(rt: HostRuntime) -> Result<(), Fail> {
    are_read(
        &rt,
        &[
            Reading(
                14,
                &PLACE,
                &[4, 0x6566_6768, 1, 0x7800_0000],
                Arguments::Rename(b"efgh", b"x"),
            ),
            Reading(15, &[4, 0x6566_6768], &PLACE, Arguments::Link(b"efgh")),
        ],
    )
}

#[test]
fn calls_for_pages_are_read(rt: HostRuntime) -> Result<(), Fail> {
    are_read(
        &rt,
        &[
            Reading(
                16,
                &HANDLE,
                &[3, 4, 1, 2, 4096],
                Arguments::Readdir(0x3_0000_0004, [0, 0, 0, 1, 0, 0, 0, 2], 4096),
            ),
            Reading(
                17,
                &HANDLE,
                &[0, 3, u32::MAX, u32::MAX, 512, 8192],
                Arguments::Readdirplus(3, [255; 8], 512, 8192),
            ),
        ],
    )
}

/// A procedure that is not; lengths beyond a bound and beyond the record; and numbers that are no bool and of no enum.
#[test]
fn other_arguments_are_garbage(rt: HostRuntime) -> Result<(), Fail> {
    all_are_garbage(
        &rt,
        &[
            Garbage(Format::Nfs(22), &HANDLE, &[], &[]),
            Garbage(Format::Nfs(u32::MAX), &HANDLE, &[], &[]),
            Garbage(Format::Nfs(1), &[65], &[0x0707_0707; 17], &[]),
            Garbage(Format::Nfs(2), &HANDLE, &[2, 0, 0, 0, 0, 0, 0, 0], &[]),
            Garbage(Format::Nfs(2), &HANDLE, &[0, 0, 0, 0, 3, 0, 0, 0], &[]),
            Garbage(Format::Nfs(2), &HANDLE, &[0, 0, 0, 0, 0, 0, 2, 0, 0], &[]),
            Garbage(Format::Nfs(7), &HANDLE, &[0, 9, 3, 3, 0], &[]),
            Garbage(Format::Nfs(8), &PLACE, &[3, 0, 0, 0, 0, 0, 0], &[]),
            Garbage(Format::Nfs(11), &PLACE, &[0, 0, 0, 0, 0, 0, 0, 0, 0], &[]),
            Garbage(Format::Nfs(11), &PLACE, &[8, 0, 0, 0, 0, 0, 0, 0, 0], &[]),
        ],
    )
}
