//! Calls that are sent at once over one connection: each has its own answer, in order, none left out and none twice.
//! Among two hundred are READs of 64 KiB (RFC 1813, 3.3.6); others each have a fault or an error, and one behind it
//! (RFC 5531, section 9).

use crate::tests::answers::{GETATTR, NULL};
use crate::tests::callbacks::{around, create};
use crate::tests::clients::{
    ANY, Exchange, Visit, add_words, connect, is_next, is_next_of, next_record,
};
use crate::tests::is_served;
use crate::tests::names::{OK, is_answer};
use nfs_server::SystemNet;
use std::alloc::{AllocError, Global};
use std::io;
use std::io::Write;
use std::net::{SocketAddr, TcpStream};
use std::process::Abort;
use std::test::Fail;

/// How many calls are sent at once.
const COUNT: u32 = 200;

/// Every so many calls one is a READ.
const EVERY: u32 = 20;

/// How many words the file has: 64 KiB.
const WORDS: u32 = 16_384;

/// WRITE of the whole file, before its handle and before its bytes (RFC 1813, 3.3.7).
const WRITE: [u32; 12] = [0x80010060, 1, 0, 2, 100003, 3, 7, 0, 0, 0, 0, 32];

const WHOLE: [u32; 5] = [0, 0, 0x10000, 2, 0x10000];

/// What a call of a burst asks.
#[derive(Clone, Copy)]
enum Ask {
    Null,
    Getattr,
    /// READ of the whole file.
    Read,
}

/// What the call with this number asks.
fn ask_of(number: u32) -> Ask {
    if number % EVERY == 7 {
        Ask::Read
    } else if number % 2 == 0 {
        Ask::Null
    } else {
        Ask::Getattr
    }
}

/// The file's bytes: each word is its number.
pub(crate) fn content(alloc: Global) -> Result<Vec<u8>, AllocError> {
    let mut bytes = Vec::new(alloc);
    for word in 0..WORDS {
        bytes.extend_from_slice(&word.to_be_bytes())?;
    }
    Ok(bytes)
}

/// Adds the call with this number, which is its transaction id too.
fn add_call(calls: &mut Vec<u8>, file: &[u8], number: u32) -> Result<(), AllocError> {
    match ask_of(number) {
        Ask::Null => add_words(calls, &[0x80000028, number, 0, 2, 100003, 3, 0, 0, 0, 0, 0]),
        Ask::Getattr => {
            add_words(calls, &[0x8000004c, number])?;
            add_words(calls, GETATTR.get(2..).unwrap_or(&[]))
        }
        Ask::Read => add_read(calls, file, number),
    }
}

/// Adds READ of the whole file under this transaction id.
pub(crate) fn add_read(calls: &mut Vec<u8>, file: &[u8], xid: u32) -> Result<(), AllocError> {
    add_words(
        calls,
        &[0x80000058, xid, 0, 2, 100003, 3, 6, 0, 0, 0, 0, 32],
    )?;
    calls.extend_from_slice(file)?;
    add_words(calls, &[0, 0, 0x10000])
}

/// The answer to it.
fn answer(alloc: Global, content: &[u8], number: u32) -> Result<Vec<u8>, AllocError> {
    match ask_of(number) {
        Ask::Null => around(alloc, &[0x80000018, number, 1, 0, 0, 0, 0], &[], &[]),
        Ask::Getattr => around(
            alloc,
            &[
                0x80000070, number, 1, 0, 0, 0, 0, 0, 2, 0x1ff, 2, 0, 0, 0, 0x1000, 0, 0x1000, 0,
                0, 0, 1, 0, 1, 1000, 0, 1000, 1, 1000, 1,
            ],
            &[],
            &[],
        ),
        Ask::Read => around(
            alloc,
            &[
                0x80010080, number, 1, 0, 0, 0, 0, 0, 1, 1, ANY, 1, ANY, ANY, 0, 0x10000, 0,
                0x10000, 0, 0, 0, 1, ANY, ANY, ANY, ANY, 1000, ANY, 1000, ANY, 0x10000, 1, 0x10000,
            ],
            content,
            &[],
        ),
    }
}

/// Whether a new file gets these bytes.
pub(crate) fn is_written(
    alloc: Global,
    stream: &TcpStream,
    file: &[u8],
    content: &[u8],
) -> io::Result<bool> {
    let mut writer = stream;
    let mut call = around(alloc, &WRITE, file, &WHOLE)?;
    call.extend_from_slice(content)?;
    writer.write_all(&call)?;
    let told = next_record(alloc, stream)?;
    Ok(is_answer(&told, &WRITE, OK))
}

/// Sends all calls at once.
fn send_burst(alloc: Global, stream: &TcpStream, file: &[u8]) -> io::Result<()> {
    let mut writer = stream;
    let mut calls = Vec::new(alloc);
    for number in 0..COUNT {
        add_call(&mut calls, file, number)?;
    }
    writer.write_all(&calls)
}

/// Whether calls that are sent at once are each answered, in order.
pub(crate) fn are_in_order<R: AllocGlobal + SystemNet>(
    rt: &R,
    tcp: SocketAddr,
) -> io::Result<bool> {
    let alloc = rt.alloc();
    let stream = connect(rt, tcp)?;
    let file = create(alloc, &stream)?;
    let content = content(alloc)?;
    let mut is_well = is_written(alloc, &stream, &file, &content)?;
    send_burst(alloc, &stream, &file)?;
    for number in 0..COUNT {
        let answer = answer(alloc, &content, number)?;
        is_well = is_well && is_next_of(alloc, &stream, &answer)?;
    }
    Ok(is_well)
}

/// Whether the calls of these exchanges are each answered, in order, where they are sent at once.
pub(crate) fn are_answered_together<R: AllocGlobal + SystemNet>(
    rt: &R,
    tcp: SocketAddr,
    exchanges: &[Exchange],
) -> io::Result<bool> {
    let alloc = rt.alloc();
    let stream = connect(rt, tcp)?;
    let mut writer = &stream;
    let mut calls = Vec::new(alloc);
    for each in exchanges {
        add_words(&mut calls, each.0)?;
    }
    writer.write_all(&calls)?;
    let mut is_well = true;
    for each in exchanges {
        is_well = is_well && is_next(alloc, &stream, each.1)?;
    }
    Ok(is_well)
}

/// NULL of version 3 of RPC: RPC_MISMATCH, 2 to 2.
const RPC_3: Exchange = (
    &[0x80000028, 31, 0, 3, 100003, 3, 0, 0, 0, 0, 0],
    &[0x80000018, 31, 1, 1, 0, 2, 2],
);

/// NULL with a credential of flavor 6: AUTH_ERROR, BADCRED.
const FLAVOR_6: Exchange = (
    &[0x80000028, 32, 0, 2, 100003, 3, 0, 6, 0, 0, 0],
    &[0x80000014, 32, 1, 1, 1, 1],
);

/// NULL of program 100000: PROG_UNAVAIL.
const OTHER_PROGRAM: Exchange = (
    &[0x80000028, 33, 0, 2, 100000, 3, 0, 0, 0, 0, 0],
    &[0x80000018, 33, 1, 0, 0, 0, 1],
);

/// NULL of version 2 of NFS: PROG_MISMATCH, 3 to 3.
const NFS_2: Exchange = (
    &[0x80000028, 34, 0, 2, 100003, 2, 0, 0, 0, 0, 0],
    &[0x80000020, 34, 1, 0, 0, 0, 2, 3, 3],
);

/// Procedure 22 of NFS: PROC_UNAVAIL.
const PROCEDURE_22: Exchange = (
    &[0x80000028, 35, 0, 2, 100003, 3, 22, 0, 0, 0, 0],
    &[0x80000018, 35, 1, 0, 0, 0, 3],
);

/// GETATTR with no arguments: GARBAGE_ARGS.
const NO_ARGUMENTS: Exchange = (
    &[0x80000028, 36, 0, 2, 100003, 3, 1, 0, 0, 0, 0],
    &[0x80000018, 36, 1, 0, 0, 0, 4],
);

/// GETATTR of 31 bytes of the root's handle: BADHANDLE.
const CUT_HANDLE: Exchange = (
    &[
        0x8000004c, 37, 0, 2, 100003, 3, 1, 0, 0, 0, 0, 31, 0x4e464433, 1, 0, 7, 0, 1, 0, 0,
    ],
    &[0x8000001c, 37, 1, 0, 0, 0, 0, 10001],
);

/// GETATTR of generation 2 of the root: STALE.
const STALE_HANDLE: Exchange = (
    &[
        0x8000004c, 38, 0, 2, 100003, 3, 1, 0, 0, 0, 0, 32, 0x4e464433, 1, 0, 7, 0, 1, 0, 2,
    ],
    &[0x8000001c, 38, 1, 0, 0, 0, 0, 70],
);

/// LOOKUP of `a` in the root: NOENT.
const NO_NAME: Exchange = (
    &[
        0x80000054, 39, 0, 2, 100003, 3, 3, 0, 0, 0, 0, 32, 0x4e464433, 1, 0, 7, 0, 1, 0, 1, 1,
        0x61000000,
    ],
    &[
        0x80000074, 39, 1, 0, 0, 0, 0, 2, 1, 2, 0x1ff, 2, 0, 0, 0, 0x1000, 0, 0x1000, 0, 0, 0, 1,
        0, 1, 1000, 0, 1000, 0, 1000, 0,
    ],
);

/// RMDIR of `a` in the root: NOENT.
const NO_DIRECTORY: Exchange = (
    &[
        0x80000054, 40, 0, 2, 100003, 3, 13, 0, 0, 0, 0, 32, 0x4e464433, 1, 0, 7, 0, 1, 0, 1, 1,
        0x61000000,
    ],
    &[
        0x80000090, 40, 1, 0, 0, 0, 0, 2, 1, 0, 0x1000, 1000, 0, 1000, 0, 1, 2, 0x1ff, 2, 0, 0, 0,
        0x1000, 0, 0x1000, 0, 0, 0, 1, 0, 1, 1000, 0, 1000, 0, 1000, 0,
    ],
);

/// MNT of `/other`: ACCES.
const OTHER_PATH: Exchange = (
    &[
        0x80000034, 41, 0, 2, 100005, 3, 1, 0, 0, 0, 0, 6, 0x2f6f7468, 0x65720000,
    ],
    &[0x8000001c, 41, 1, 0, 0, 0, 0, 13],
);

/// NULL of version 3 of NLM: PROG_MISMATCH, 4 to 4.
const NLM_3: Exchange = (
    &[0x80000028, 42, 0, 2, 100021, 3, 0, 0, 0, 0, 0],
    &[0x80000020, 42, 1, 0, 0, 0, 2, 4, 4],
);

/// LOCK with no arguments: GARBAGE_ARGS.
const NO_LOCK: Exchange = (
    &[0x80000028, 43, 0, 2, 100021, 4, 2, 0, 0, 0, 0],
    &[0x80000018, 43, 1, 0, 0, 0, 4],
);

/// Eight bytes of a call: no answer.
const SHORT: Exchange = (&[0x80000008, 44, 0], &[]);

/// A reply: no answer.
const REPLY: Exchange = (&[0x80000018, 45, 1, 0, 0, 0, 0], &[]);

/// Each, and a call behind it.
const ERRORS: [Exchange; 30] = [
    RPC_3,
    NULL,
    FLAVOR_6,
    NULL,
    OTHER_PROGRAM,
    NULL,
    NFS_2,
    NULL,
    PROCEDURE_22,
    NULL,
    NO_ARGUMENTS,
    NULL,
    CUT_HANDLE,
    NULL,
    STALE_HANDLE,
    NULL,
    NO_NAME,
    NULL,
    NO_DIRECTORY,
    NULL,
    OTHER_PATH,
    NULL,
    NLM_3,
    NULL,
    NO_LOCK,
    NULL,
    SHORT,
    NULL,
    REPLY,
    NULL,
];

const BY_TCP: [&str; 4] = ["--tcp", "127.0.0.1:0", "--accept", "1"];

const ON_TWO_PLACES: [&str; 6] = [
    "--tcp",
    "127.0.0.1:0",
    "--accept",
    "1",
    "--connections",
    "1",
];

const BY_UDP: [&str; 6] = [
    "--udp",
    "127.0.0.1:0",
    "--tcp",
    "127.0.0.1:0",
    "--accept",
    "1",
];

#[test]
fn calls_that_are_sent_at_once(rt: HostRuntime) -> Result<(), Fail> {
    assert!(rt; is_served(rt, &BY_TCP, Visit::Burst)?);
    assert!(rt; is_served(rt, &ON_TWO_PLACES, Visit::Burst)?);
    Ok(())
}

#[test]
fn a_call_behind_each_error(rt: HostRuntime) -> Result<(), Fail> {
    assert!(rt; is_served(rt, &BY_TCP, Visit::Connection(&ERRORS))?);
    assert!(rt; is_served(rt, &ON_TWO_PLACES, Visit::Together(&ERRORS))?);
    assert!(rt; is_served(rt, &BY_UDP, Visit::Datagrams("127.0.0.1:0", &ERRORS))?);
    Ok(())
}
