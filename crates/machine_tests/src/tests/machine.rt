//! Handles, exports, copies, and what is answered for want of memory.

use super::*;
use nfs_machine::{Call, Export, ExportError, Handle, Refusal, Reply};
use nfs_wire::{NfsCall, NfsReply, NfsStatus};
use side_wire::{
    FreeAllArguments, LockArguments, MountCall, MountReply, MountStatus, NlmCall, NlmLock,
    NlmReply, NlmResult, NlmStatus, TestArguments, TestResult, TestStatus,
};
use std::test::Fail;

/// The root of the first export, but for the mark, which is `NFD4`.
const OTHER_MARK: &[u8] = b"NFD4\0\0\0\x01\0\0\0\0\0\0\0\x07\0\0\0\0\0\0\0\x01\0\0\0\0\0\0\0\x01";

#[test]
fn a_handle_of_another_mark_is_none(rt: HostRuntime) {
    assert_eq!(rt; Handle::read(OTHER_MARK), None);
}

/// Whether the export is read only so, and admits 10.0.0.1 so. Each export admits 10.0.0.2.
fn is_told(export: &Export, read_only: bool, admits_first: bool) -> bool {
    export.read_only == read_only
        && admits(export, b"10.0.0.1") == admits_first
        && admits(export, b"10.0.0.2")
}

fn admits(export: &Export, host: &'static [u8]) -> bool {
    let host = Bytes::from_static(host);
    let admits = export.admits(&host);
    drop(host);
    admits
}

/// Whether these are the exports of `TWO`.
fn has_two(exports: &Exports) -> bool {
    let [first, second] = exports.list() else {
        return false;
    };
    is_told(first, false, true) && is_told(second, true, false)
}

/// The same of exports that are dropped.
fn had_two(exports: Exports) -> bool {
    let has_two = has_two(&exports);
    drop(exports);
    has_two
}

#[test]
fn exports_are_kept_in_order(rt: HostRuntime) -> Result<(), AllocError> {
    assert!(rt; had_two(given_exports(rt.alloc(), &TWO)?));
    Ok(())
}

/// `/`, for every host.
const ROOT: Given = Given {
    path: b"/",
    ..WRITABLE
};

/// Whether these exports are refused for this, or taken for None.
fn is_fault(alloc: Global, list: &[Given], want: Option<ExportError>) -> Result<bool, AllocError> {
    let fault = Exports::new(alloc, texts(alloc, list)?).err();
    let is_fault = fault == want;
    drop(fault);
    drop(want);
    Ok(is_fault)
}

/// Nothing is right in it.
const EMPTY: Given = Given {
    path: b"",
    mode: b"",
    hosts: &[],
};

/// The first of these paths that is no fault: none is parts led by slashes. A path is told before an empty mode.
fn first_path_taken(alloc: Global) -> Result<Option<&'static [u8]>, AllocError> {
    for path in [
        b"".as_slice(),
        b"a",
        b"/a/",
        b"//a",
        b"/a,b",
        b"/a/./b",
        b"/..",
        b"//",
    ] {
        let list = [ROOT, Given { path, ..EMPTY }];
        if !is_fault(alloc, &list, Some(ExportError::BadPath(2)))? {
            return Ok(Some(path));
        }
    }
    Ok(None)
}

/// `/a`, for every host.
const OTHER: Given = Given {
    path: b"/a",
    mode: b"ro",
    hosts: &[b"*"],
};

/// `/` again.
fn again(mode: &'static [u8], hosts: &'static [&'static [u8]]) -> Given {
    Given {
        path: b"/",
        mode,
        hosts,
    }
}

/// Whether export 2 is refused for this.
fn is_second_fault(alloc: Global, given: Given, want: ExportError) -> Result<bool, AllocError> {
    is_fault(alloc, &[ROOT, given], Some(want))
}

/// Whether a mode, the hosts, and an earlier export with the path are told in this order.
fn other_faults_are_told(alloc: Global) -> Result<bool, AllocError> {
    Ok(
        is_second_fault(alloc, again(b"rx", &[]), ExportError::BadMode(2))?
            && is_second_fault(alloc, again(b"rw", &[]), ExportError::NoHost(2))?
            && is_second_fault(alloc, again(b"ro", &[b"*", b""]), ExportError::NoHost(2))?
            && is_second_fault(alloc, again(b"ro", &[b"*"]), ExportError::DoublePath(2))?
            && is_fault(alloc, &[ROOT, OTHER], None)?,
    )
}

/// 65 exports that are at fault each are told before all.
#[test]
fn the_first_fault_of_an_export_is_told(rt: HostRuntime) -> Result<(), AllocError> {
    assert_eq!(rt; first_path_taken(rt.alloc())?, None);
    assert!(rt; other_faults_are_told(rt.alloc())?);
    assert!(rt; is_fault(rt.alloc(), &[EMPTY; 65], Some(ExportError::TooMany))?);
    Ok(())
}

fn has_text(alloc: Global, fault: ExportError, want: &str) -> Result<bool, Fail> {
    let text = format!(in alloc; "{fault}")?;
    let has_text = text.as_str() == want;
    drop(text);
    Ok(has_text)
}

/// The first of these texts that is not that of its fault.
fn first_wrong_text(alloc: Global) -> Result<Option<&'static str>, Fail> {
    for (fault, want) in [
        (ExportError::BadPath(1), "export 1: bad path"),
        (ExportError::BadMode(2), "export 2: bad mode"),
        (ExportError::NoHost(3), "export 3: no host"),
        (ExportError::DoublePath(64), "export 64: double path"),
        (ExportError::Memory, "out of memory"),
        (ExportError::TooMany, "too many exports"),
    ] {
        if !has_text(alloc, fault, want)? {
            return Ok(Some(want));
        }
    }
    Ok(None)
}

#[test]
fn each_fault_has_a_text(rt: HostRuntime) -> Result<(), Fail> {
    assert_eq!(rt; first_wrong_text(rt.alloc())?, None);
    Ok(())
}

/// Whether the call is refused by this for want of memory.
fn is_refused(call: Call, want: Refusal) -> bool {
    let is = is_refusal(&call, &want);
    drop(call);
    drop(want);
    is
}

fn is_refusal(call: &Call, want: &Refusal) -> bool {
    match call.refusal() {
        Ok(refusal) => is_same(refusal, want),
        Err(AllocError) => false,
    }
}

fn is_same(refusal: Refusal, want: &Refusal) -> bool {
    let is = refusal == *want;
    drop(refusal);
    is
}

/// A lock on the whole of a file.
fn lock() -> NlmLock {
    NlmLock {
        caller_name: Bytes::from_static(b"host"),
        file: Bytes::from_static(b"file"),
        owner: Bytes::from_static(b"owner"),
        process: 1,
        offset: 0,
        length: 0,
    }
}

/// NFS3ERR_JUKEBOX (RFC 1813, 2.6), MNT3ERR_SERVERFAULT (RFC 1813, 5.1.5), or else SYSTEM_ERR (RFC 5531, section 9).
#[test]
fn a_call_is_refused_by_its_own_status(rt: HostRuntime) {
    assert!(rt;
        is_refused(
            Call::Nfs(NfsCall::Getattr(Bytes::from_static(OTHER_MARK))),
            Refusal::Reply(Reply::Nfs(NfsReply::Getattr(Err(NfsStatus::Jukebox)))),
        )
    );
    assert!(rt;
        is_refused(
            Call::Mount(MountCall::Mnt(Bytes::from_static(b"/a"))),
            Refusal::Reply(Reply::Mount(MountReply::Mnt(Err(MountStatus::ServerFault)))),
        )
    );
    assert!(rt; is_refused(Call::Nfs(NfsCall::Null), Refusal::SystemError));
    assert!(rt; is_refused(Call::Mount(MountCall::Dump), Refusal::SystemError));
    assert!(rt;
        is_refused(
            Call::Nlm(NlmCall::FreeAll(FreeAllArguments {
                name: Bytes::from_static(b"host"),
                state: 3,
            })),
            Refusal::SystemError,
        )
    );
    // With the cookie of the call.
    assert!(rt;
        is_refused(
            Call::Nlm(NlmCall::Lock(LockArguments {
                cookie: Bytes::from_static(b"cookie"),
                block: true,
                exclusive: true,
                lock: lock(),
                reclaim: false,
                state: 3,
            })),
            Refusal::Reply(Reply::Nlm(NlmReply::Lock(NlmResult {
                cookie: Bytes::from_static(b"cookie"),
                status: NlmStatus::DeniedNoLocks,
            }))),
        )
    );
    assert!(rt;
        is_refused(
            Call::Nlm(NlmCall::Test(TestArguments {
                cookie: Bytes::from_static(b"cookie"),
                exclusive: true,
                lock: lock(),
            })),
            Refusal::Reply(Reply::Nlm(NlmReply::Test(TestResult {
                cookie: Bytes::from_static(b"cookie"),
                status: TestStatus::DeniedNoLocks,
            }))),
        )
    );
}
