//! A host that is called back at the address that the options name, where a lock that it waited for is its own, and
//! what becomes of its answer (RFC 1813, appendix II: GRANTED).

use crate::tests::clients::{ANY, Visit, add_words, connect, is_next, next, send, spelled};
use crate::tests::is_served;
use nfs_server::{Runtime, SystemNet};
use std::alloc::{AllocError, Global};
use std::io;
use std::io::{Read, Write};
use std::net::{Net, SocketAddr, TcpListener, TcpStream};
use std::process::Abort;
use std::test::Fail;

/// CREATE of `a` in the root, GUARDED, with no attributes given; and where its handle is in the answer.
const CREATE: [u32; 29] = [
    0x80000070, 1, 0, 2, 100003, 3, 8, 0, 0, 0, 0, 32, 0x4e464433, 1, 0, 7, 0, 1, 0, 1, 1,
    0x61000000, 1, 0, 0, 0, 0, 0, 0,
];

const HANDLE_AT: usize = 40;

const HANDLE_SIZE: usize = 32;

/// Words before a handle, words behind it, and the answer, with the marks of both.
pub(super) type LockExchange = (&'static [u32], &'static [u32], &'static [u32]);

/// LOCK of the whole file by c1, exclusive, which does not wait: GRANTED.
pub(super) const LOCK: LockExchange = (
    &[
        0x80000088, 2, 0, 2, 100021, 4, 2, 0, 0, 0, 0, 4, 0xc00c1e00, 0, 1, 2, 0x63310000, 32,
    ],
    &[1, 0x01000000, 1, 0, 0, 0, 0, 0, 0],
    &[0x80000024, 2, 1, 0, 0, 0, 0, 4, 0xc00c1e00, 0],
);

/// The same by c2, which waits: BLOCKED.
const WAIT: LockExchange = (
    &[
        0x80000088, 3, 0, 2, 100021, 4, 2, 0, 0, 0, 0, 4, 0xc00c1e00, 1, 1, 2, 0x63320000, 32,
    ],
    &[1, 0x02000000, 2, 0, 0, 0, 0, 0, 0],
    &[0x80000024, 3, 1, 0, 0, 0, 0, 4, 0xc00c1e00, 3],
);

/// UNLOCK of it by c1: GRANTED.
pub(super) const UNLOCK: LockExchange = (
    &[
        0x80000078, 4, 0, 2, 100021, 4, 4, 0, 0, 0, 0, 4, 0xc00c1e00, 2, 0x63310000, 32,
    ],
    &[1, 0x01000000, 1, 0, 0, 0, 0],
    &[0x80000024, 4, 1, 0, 0, 0, 0, 4, 0xc00c1e00, 0],
);

/// TEST_MSG of it by c1, whose result is a call of the server's own.
const TEST_MSG: LockExchange = (
    &[
        0x8000007c, 5, 0, 2, 100021, 4, 6, 0, 0, 0, 0, 4, 0xc00c1e00, 1, 2, 0x63310000, 32,
    ],
    &[1, 0x01000000, 1, 0, 0, 0, 0],
    &[0x80000018, 5, 1, 0, 0, 0, 0],
);

/// TEST of it by c1, which finds that c2 has it: DENIED. Which part of the lock is shown is left open.
const HELD: LockExchange = (
    &[
        0x8000007c, 6, 0, 2, 100021, 4, 1, 0, 0, 0, 0, 4, 0xc00c1e00, 1, 2, 0x63310000, 32,
    ],
    &[1, 0x01000000, 1, 0, 0, 0, 0],
    &[
        0x80000044, 6, 1, 0, 0, 0, 0, 4, 0xc00c1e00, 1, 1, 2, 1, 0x02000000, ANY, ANY, ANY, ANY,
    ],
);

/// UNLOCK of it by c2: GRANTED.
const UNLOCK_NEXT: LockExchange = (
    &[
        0x80000078, 7, 0, 2, 100021, 4, 4, 0, 0, 0, 0, 4, 0xc00c1e00, 2, 0x63320000, 32,
    ],
    &[1, 0x02000000, 2, 0, 0, 0, 0],
    &[0x80000024, 7, 1, 0, 0, 0, 0, 4, 0xc00c1e00, 0],
);

/// TEST of it by c1, which finds nothing in its way: GRANTED.
const FREE: LockExchange = (
    &[
        0x8000007c, 8, 0, 2, 100021, 4, 1, 0, 0, 0, 0, 4, 0xc00c1e00, 1, 2, 0x63310000, 32,
    ],
    &[1, 0x01000000, 1, 0, 0, 0, 0],
    &[0x80000024, 8, 1, 0, 0, 0, 0, 4, 0xc00c1e00, 0],
);

/// A call of the server's own: GRANTED of an exclusive lock of c2's, behind the cookie and before the handle.
const CALL_LOCK: [u32; 4] = [1, 2, 0x63320000, 32];

/// What a host may answer.
pub(super) const GRANTED: u32 = 0;

pub(super) const DENIED: u32 = 1;

/// Where the cookie stands in the call, and how many bytes it and the whole call have.
const COOKIE_AT: usize = 48;

const COOKIE_SIZE: usize = 8;

pub(super) const CALL_SIZE: usize = 132;

/// Words, bytes, and words.
pub(super) fn around(
    alloc: Global,
    front: &[u32],
    bytes: &[u8],
    back: &[u32],
) -> Result<Vec<u8>, AllocError> {
    let mut all = spelled(alloc, front)?;
    all.extend_from_slice(bytes)?;
    add_words(&mut all, back)?;
    Ok(all)
}

/// Sends words, bytes, and words.
fn send_around(
    alloc: Global,
    stream: &TcpStream,
    front: &[u32],
    bytes: &[u8],
    back: &[u32],
) -> io::Result<()> {
    let mut stream = stream;
    let all = around(alloc, front, bytes, back)?;
    let sent = stream.write_all(&all);
    drop(all);
    sent
}

/// Whether a call of this file has its answer.
pub(super) fn is_answered(
    alloc: Global,
    stream: &TcpStream,
    file: &[u8],
    exchange: LockExchange,
) -> io::Result<bool> {
    send_around(alloc, stream, exchange.0, file, exchange.1)?;
    is_next(alloc, stream, exchange.2)
}

/// The handle of a new file.
pub(super) fn create(alloc: Global, stream: &TcpStream) -> io::Result<Vec<u8>> {
    send(alloc, stream, &CREATE)?;
    let told = next(alloc, stream)?;
    let handle = told.get(HANDLE_AT..HANDLE_AT + HANDLE_SIZE).unwrap_or(&[]);
    Ok(Vec::from_slice(alloc, handle)?)
}

/// Whether c1 gets a lock, c2 waits for it on a connection of its own, and c1 gives it back.
fn is_given_on(
    alloc: Global,
    first: &TcpStream,
    second: &TcpStream,
    file: &[u8],
) -> io::Result<bool> {
    Ok(
        is_answered(alloc, first, file, LOCK)?
            && is_answered(alloc, second, file, WAIT)?
            && is_answered(alloc, first, file, UNLOCK)?,
    )
}

/// Whether the server calls back, that it granted what c2 asked for of this file. It is answered with this status.
fn is_called(alloc: Global, listener: &TcpListener, file: &[u8], status: u32) -> io::Result<bool> {
    let (stream, _) = listener.accept()?;
    let lock = WAIT.1.get(..7).unwrap_or(&[]);
    let is_heard = is_heard(alloc, &stream, file, 1, lock, status);
    drop(stream);
    is_heard
}

/// Whether the server's call with this number comes over this connection: that it granted this lock, whose words behind
/// the handle are given. It is answered with this status.
pub(super) fn is_heard(
    alloc: Global,
    stream: &TcpStream,
    file: &[u8],
    number: u32,
    lock: &[u32],
    status: u32,
) -> io::Result<bool> {
    let mut told = [0u8; CALL_SIZE];
    let mut reading = stream;
    reading.read_exact(&mut told)?;
    let cookie = told.get(COOKIE_AT..COOKIE_AT + COOKIE_SIZE).unwrap_or(&[]);
    let answer = [0x80000028, number, 1, 0, 0, 0, 0, 8];
    send_around(alloc, stream, &answer, cookie, &[status])?;
    Ok(is_call(alloc, &told, cookie, file, number, lock)?)
}

/// Whether this is that call, with this cookie.
fn is_call(
    alloc: Global,
    told: &[u8],
    cookie: &[u8],
    file: &[u8],
    number: u32,
    lock: &[u32],
) -> Result<bool, AllocError> {
    let front = [0x80000080, number, 0, 2, 100021, 4, 5, 0, 0, 0, 0, 8];
    let mut call = around(alloc, &front, cookie, &CALL_LOCK)?;
    call.extend_from_slice(file)?;
    add_words(&mut call, lock)?;
    Ok(told == call.as_slice())
}

/// Whether the next call of the server's own comes. What was answered to the one before is taken in then.
fn is_called_again(
    alloc: Global,
    stream: &TcpStream,
    listener: &TcpListener,
    file: &[u8],
) -> io::Result<bool> {
    let is_void = is_answered(alloc, stream, file, TEST_MSG)?;
    let (called, _) = listener.accept()?;
    drop(called);
    Ok(is_void)
}

/// Whether c2 has the lock, and gives it back, where it answered that it was granted; else whether nobody has it.
fn is_right(
    alloc: Global,
    first: &TcpStream,
    second: &TcpStream,
    file: &[u8],
    status: u32,
) -> io::Result<bool> {
    if status == GRANTED
        && !(is_answered(alloc, first, file, HELD)?
            && is_answered(alloc, second, file, UNLOCK_NEXT)?)
    {
        return Ok(false);
    }
    is_answered(alloc, first, file, FREE)
}

/// Whether all goes so with a new file over these connections.
fn is_told(
    alloc: Global,
    first: &TcpStream,
    second: &TcpStream,
    listener: &TcpListener,
    status: u32,
) -> io::Result<bool> {
    let file = create(alloc, first)?;
    let is_told = is_told_of(alloc, first, second, listener, &file, status);
    drop(file);
    is_told
}

fn is_told_of(
    alloc: Global,
    first: &TcpStream,
    second: &TcpStream,
    listener: &TcpListener,
    file: &[u8],
    status: u32,
) -> io::Result<bool> {
    Ok(
        is_given_on(alloc, first, second, file)?
            && is_called(alloc, listener, file, status)?
            && is_called_again(alloc, first, listener, file)?
            && is_right(alloc, first, second, file, status)?,
    )
}

/// Whether a client that waits for a lock is called back where it is its own, and has it then, or has not, as it
/// answers with this status.
pub(crate) fn is_called_back<R: AllocGlobal + SystemNet>(
    rt: &R,
    tcp: SocketAddr,
    listener: &TcpListener,
    status: u32,
) -> io::Result<bool> {
    let first = connect(rt, tcp)?;
    let second = connect(rt, tcp)?;
    let is_told = is_told(rt.alloc(), &first, &second, listener, status);
    drop(second);
    drop(first);
    is_told
}

/// Whether a client is called back so by a server that is told where.
fn calls_back<R: Runtime + AllocGlobal + Eprint + Net<Listener = TcpListener, Stream = TcpStream>>(
    rt: R,
    status: u32,
) -> Result<bool, Fail> {
    let listener = TcpListener::bind(&rt, "127.0.0.1:0")?;
    let address = listener.local_addr()?;
    let callback = format!(in rt.alloc(); "127.0.0.1={address}")?;
    let more = [
        "--tcp",
        "127.0.0.1:0",
        "--accept",
        "2",
        "--callback",
        callback.as_str(),
    ];
    is_served(rt, &more, Visit::Called(listener, status))
}

#[test]
fn a_lock_that_is_granted_is_held(rt: HostRuntime) -> Result<(), Fail> {
    assert!(rt; calls_back(rt, GRANTED)?);
    Ok(())
}

#[test]
fn a_grant_that_is_denied_is_given_back(rt: HostRuntime) -> Result<(), Fail> {
    assert!(rt; calls_back(rt, DENIED)?);
    Ok(())
}
