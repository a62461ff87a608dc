//! MOUNT.

ghost use Rattle.std.specs.Prelude.{IfOk};
ghost use Rattle.std.specs.List.{All};
ghost use Rattle.side_wire.specs.Mount.{HasMountForm, HasMountBodyForm, HasExportNodeForm, IsHostName};

use crate::tests::arguments::{
    Form, Format, Garbage, all_are_garbage, fronts_are_garbage, have_forms,
};
use crate::tests::{BEHIND, behind_a_byte, has_written, joined, record};
use bytes::Bytes;
use nfs_xdr::SharedReader;
use side_wire::{
    ExportList, ExportNode, Groups, MountBody, MountCall, MountList, MountReply, MountStatus, mount,
};
use std::alloc::{AllocError, Global};
use std::process::Abort;
use std::test::Fail;

/// Words of a procedure's arguments in two parts, and the path as which they are read, or nothing.
struct Reading(u32, &'static [u32], &'static [u32], &'static [u8]);

/// Whether the bytes are read as the call of the procedure, with this path or with none.
fn is_call(alloc: Global, procedure: u32, bytes: &[u8], path: &[u8]) -> Result<bool, Fail> {
    let record = record(alloc, bytes)?;
    let read = mount::read_args(procedure, SharedReader::new(&record));
    let is_call = matches!(&read, Ok(call) if is_of(call, procedure, path));
    drop(read);
    Ok(is_call)
}

/// Whether the call is of the procedure, with this path or with none.
fn is_of(call: &MountCall, procedure: u32, path: &[u8]) -> bool {
    match call {
        MountCall::Null => procedure == 0 && path.is_empty(),
        MountCall::Mnt(read) => procedure == 1 && read.as_slice() == path,
        MountCall::Dump => procedure == 2 && path.is_empty(),
        MountCall::Unmount(read) => procedure == 3 && read.as_slice() == path,
        MountCall::UnmountAll => procedure == 4 && path.is_empty(),
        MountCall::Export => procedure == 5 && path.is_empty(),
    }
}

/// Whether the words are read as that call, with nothing and with bytes behind them, and every shorter front is
/// garbage.
fn is_read(alloc: Global, reading: &Reading) -> Result<bool, Fail> {
    let Reading(procedure, front, back, path) = reading;
    let mut bytes = joined(alloc, front, back, &[])?;
    if !fronts_are_garbage(alloc, Format::Mount(*procedure), bytes.as_slice())?
        || !is_call(alloc, *procedure, bytes.as_slice(), path)?
    {
        return Ok(false);
    }
    bytes.extend_from_slice(&BEHIND)?;
    is_call(alloc, *procedure, bytes.as_slice(), path)
}

/// The words are read as those calls.
fn are_read(rt: &(impl Abort + AllocGlobal), readings: &[Reading]) -> Result<(), Fail> {
    for reading in readings {
        assert!(rt;
            is_read(rt.alloc(), reading)?,
            "{} {:?}",
            reading.0,
            reading.2
        );
    }
    Ok(())
}

/// A path has at most 1024 bytes, and its padding is any bytes.
#[test]
fn calls_are_read(rt: HostRuntime) -> Result<(), Fail> {
    mount::one_call_is_spelled();
    are_read(
        &rt,
        &[
            Reading(0, &[], &[], b""),
            Reading(1, &[5], &[0x2f64_6174, 0x6100_0000], b"/data"),
            Reading(1, &[5], &[0x2f64_6174, 0x6101_0203], b"/data"),
            Reading(1, &[1024], &[0x2f2f_2f2f; 256], &[b'/'; 1024]),
            Reading(2, &[], &[], b""),
            Reading(3, &[5], &[0x2f64_6174, 0x6100_0000], b"/data"),
            Reading(3, &[5], &[0x2f64_6174, 0x6101_0203], b"/data"),
            Reading(3, &[1024], &[0x2f2f_2f2f; 256], &[b'/'; 1024]),
            Reading(4, &[], &[], b""),
            Reading(5, &[], &[], b""),
        ],
    )
}

/// A path above 1024 bytes, and procedures that are not.
#[test]
fn other_arguments_are_garbage(rt: HostRuntime) -> Result<(), Fail> {
    all_are_garbage(
        &rt,
        &[
            Garbage(Format::Mount(1), &[1025], &[0x2f2f_2f2f; 257], &[]),
            Garbage(Format::Mount(3), &[1025], &[0x2f2f_2f2f; 257], &[]),
            Garbage(Format::Mount(6), &[], &[], &[]),
            Garbage(Format::Mount(u32::MAX), &[0], &[], &[]),
        ],
    )
}

#[test]
fn words_of_a_path(rt: HostRuntime) -> Result<(), Fail> {
    const DATA: [u32; 3] = [5, 0x2f64_6174, 0x6100_0000];
    have_forms(
        &rt,
        &[
            Form(Format::Mount(1), &DATA, &[], &[], &[0], &[]),
            Form(Format::Mount(3), &DATA, &[], &[], &[0], &[]),
        ],
    )
}

/// What is answered.
#[derive(Clone, Copy)]
enum Told {
    Null,
    Unmount,
    UnmountAll,
    /// The handle `abcdef`.
    Handle,
    Refusal(MountStatus),
    NoMount,
    Mounts,
    NoExport,
    Exports,
}

/// The words of a reply in two parts, and what it is.
struct Writing(&'static [u32], &'static [u32], Told);

fn reply_of(alloc: Global, told: Told) -> Result<MountReply, AllocError>
    ensures { IfOk result HasMountForm }
{
    Ok(match told {
        Told::Null => MountReply::Null,
        Told::Unmount => MountReply::Unmount,
        Told::UnmountAll => MountReply::UnmountAll,
        Told::Handle => MountReply::Mnt(Ok(Bytes::from_static(b"abcdef"))),
        Told::Refusal(status) => MountReply::Mnt(Err(status)),
        Told::NoMount => MountReply::Dump(MountList::from_vec(Vec::new(alloc))),
        Told::Mounts => MountReply::Dump(mounts(alloc)?),
        Told::NoExport => MountReply::Export(ExportList::from_vec(Vec::new(alloc))),
        Told::Exports => MountReply::Export(exports(alloc)?),
    })
}

/// Whether the words are written of the reply.
fn is_written(alloc: Global, writing: &Writing) -> Result<bool, Fail> {
    let reply = reply_of(alloc, writing.2)?;
    let is_written = is_result(alloc, writing, &reply);
    drop(reply);
    is_written
}

/// The same of a reply that is lent.
fn is_result(alloc: Global, writing: &Writing, reply: &MountReply) -> Result<bool, Fail>
    requires { HasMountForm reply.now }
{
    let expected = joined(alloc, writing.0, writing.1, &[])?;
    let mut writer = behind_a_byte(alloc)?;
    mount::write_result(&mut writer, reply)?;
    Ok(has_written(writer, expected.as_slice()))
}

/// The words are written of those replies.
fn are_written(rt: &(impl Abort + AllocGlobal), writings: &[Writing]) -> Result<(), Fail> {
    for writing in writings {
        assert!(rt;
            is_written(rt.alloc(), writing)?,
            "{:?} {:?}",
            writing.0,
            writing.1
        );
    }
    Ok(())
}

fn mounts(alloc: Global) -> Result<MountList, AllocError>
    ensures { IfOk result (λ mounts. All HasMountBodyForm mounts) }
{
    let mut mounts = Vec::new(alloc);
    mounts.push(MountBody {
        hostname: Bytes::from_static(b"::1"),
        directory: Bytes::from_static(b"/abc"),
    })?;
    mounts.push(MountBody {
        hostname: Bytes::from_static(b"host"),
        directory: Bytes::from_static(b"/"),
    })?;
    Ok(MountList::from_vec(mounts))
}

fn hosts(alloc: Global) -> Result<Groups, AllocError>
    ensures { IfOk result (λ hosts. All IsHostName hosts) }
{
    let mut hosts = Vec::new(alloc);
    hosts.push(Bytes::from_static(b"::1"))?;
    hosts.push(Bytes::from_static(b"host"))?;
    Ok(Groups::from_vec(hosts))
}

fn exports(alloc: Global) -> Result<ExportList, AllocError>
    ensures { IfOk result (λ exports. All HasExportNodeForm exports) }
{
    let mut exports = Vec::new(alloc);
    exports.push(ExportNode {
        directory: Bytes::from_static(b"/abc"),
        groups: Groups::from_vec(Vec::new(alloc)),
    })?;
    exports.push(ExportNode {
        directory: Bytes::from_static(b"/"),
        groups: hosts(alloc)?,
    })?;
    Ok(ExportList::from_vec(exports))
}

#[test]
fn results_are_written(rt: HostRuntime) -> Result<(), Fail> {
    are_written(
        &rt,
        &[
            Writing(&[], &[], Told::Null),
            Writing(&[], &[], Told::Unmount),
            Writing(&[], &[], Told::UnmountAll),
            Writing(&[0, 6, 0x6162_6364, 0x6566_0000, 1, 1], &[], Told::Handle),
            Writing(&[0], &[], Told::NoMount),
            Writing(
                &[1, 3, 0x3a3a_3100, 4, 0x2f61_6263, 1, 4, 0x686f_7374],
                &[1, 0x2f00_0000, 0],
                Told::Mounts,
            ),
            Writing(&[0], &[], Told::NoExport),
            Writing(
                &[1, 4, 0x2f61_6263, 0, 1, 1, 0x2f00_0000],
                &[1, 3, 0x3a3a_3100, 1, 4, 0x686f_7374, 0, 0],
                Told::Exports,
            ),
        ],
    )
}

#[test]
fn refusals_are_written(rt: HostRuntime) -> Result<(), Fail> {
    are_written(
        &rt,
        &[
            Writing(&[1], &[], Told::Refusal(MountStatus::Permission)),
            Writing(&[2], &[], Told::Refusal(MountStatus::NoEntry)),
            Writing(&[5], &[], Told::Refusal(MountStatus::Io)),
            Writing(&[13], &[], Told::Refusal(MountStatus::Access)),
            Writing(&[20], &[], Told::Refusal(MountStatus::NotDirectory)),
            Writing(&[22], &[], Told::Refusal(MountStatus::Invalid)),
            Writing(&[63], &[], Told::Refusal(MountStatus::NameTooLong)),
            Writing(&[10004], &[], Told::Refusal(MountStatus::NotSupported)),
            Writing(&[10006], &[], Told::Refusal(MountStatus::ServerFault)),
        ],
    )
}

#[test]
fn exports_are_equal_and_taken_apart(rt: HostRuntime) -> Result<(), Fail> {
    let list = exports(rt.alloc())?;
    assert!(rt; list == exports(rt.alloc())?);
    let nodes = list.into_vec();
    assert!(rt; nodes.len() == 2);
    Ok(())
}

#[test]
fn mounts_are_equal_and_taken_apart(rt: HostRuntime) -> Result<(), Fail> {
    let list = mounts(rt.alloc())?;
    assert!(rt; list == mounts(rt.alloc())?);
    let bodies = list.into_vec();
    assert!(rt; bodies.len() == 2);
    Ok(())
}

#[test]
fn hosts_are_taken_apart(rt: HostRuntime) -> Result<(), Fail> {
    let hosts = hosts(rt.alloc())?.into_vec();
    assert!(rt; hosts.len() == 2);
    Ok(())
}
