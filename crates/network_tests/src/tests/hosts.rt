//! Hosts that wait for bytes of a file which another has locked: each that is called back is sent what is its own, in
//! order and once, also while another does not answer, and one that could not be reached is passed over for a while.

use crate::tests::callbacks::{
    CALL_SIZE, DENIED, GRANTED, LOCK, LockExchange, UNLOCK, around, create, is_answered, is_heard,
};
use crate::tests::clients::{MOST, PATIENCE, Visit, connect, spelled};
use crate::tests::is_served;
use nfs_server::{Runtime, SystemNet};
use std::alloc::{AllocError, Global};
use std::io::Read;
use std::net::{IpAddr, Ipv4Addr, Net, SocketAddr, TcpListener, TcpStream, UdpSocket};
use std::process::Abort;
use std::rt::Clock;
use std::test::Fail;
use std::time::{Duration, Instant};
use std::{io, thread};

/// A host, by the last number of its address, and the byte for which it waits. The server's call with this number tells
/// it that it has that byte.
type Request = (u8, u32);

/// Requests in the order in which they come, and so in which they are granted. The fourth host is not called back.
const REQUESTS: [Request; 6] = [(2, 1), (3, 2), (4, 3), (2, 4), (3, 5), (2, 6)];

/// The byte that the third host does not want any more: it answers DENIED.
const UNWANTED: u32 = 2;

/// The same, where the second host can't be reached at first.
const REQUESTS_UNREACHED: [Request; 4] = [(2, 1), (3, 2), (2, 3), (3, 4)];

/// The same, where the second host does not answer.
const REQUESTS_UNANSWERED: [Request; 6] = [(2, 1), (2, 2), (3, 3), (2, 4), (3, 5), (3, 6)];

/// In how many seconds a host is told beside one that does not answer, which is waited for five.
const SOON: u64 = 3;

/// For how many seconds at least one is waited for that does not answer.
const LEAST_WAIT: u64 = 4;

/// TEST by c1 of the byte that the third host does not want, which finds nothing in its way: GRANTED.
const FREE_UNWANTED: LockExchange = (
    &[
        0x8000007c, 6, 0, 2, 100021, 4, 1, 0, 0, 0, 0, 4, 0xc00c1e00, 1, 2, 0x63310000, 32,
    ],
    &[1, 0x01000000, 1, 0, 2, 0, 1],
    &[0x80000024, 6, 1, 0, 0, 0, 0, 4, 0xc00c1e00, 0],
);

/// UNLOCK of what stands before byte 3 by c1: GRANTED.
const UNLOCK_FRONT: LockExchange = (
    &[
        0x80000078, 5, 0, 2, 100021, 4, 4, 0, 0, 0, 0, 4, 0xc00c1e00, 2, 0x63310000, 32,
    ],
    &[1, 0x01000000, 1, 0, 0, 0, 3],
    &[0x80000024, 5, 1, 0, 0, 0, 0, 4, 0xc00c1e00, 0],
);

/// How often it is looked whether a call of the server's has come, and how long is waited before the next time, in
/// milliseconds.
const LOOKS: u64 = 2_000;

const PAUSE: u64 = 5;

/// How long a host's thread is given to find that nobody listens at its address, in milliseconds.
const UNREACHED: u64 = 200;

/// A LOCK of one byte by c2 that waits, exclusive, as a datagram.
fn lock_of(alloc: Global, file: &[u8], request: Request) -> Result<Vec<u8>, AllocError> {
    let front = [
        request.1, 0, 2, 100021, 4, 2, 0, 0, 0, 0, 4, 0xc00c1e00, 1, 1, 2, 0x63320000, 32,
    ];
    let back = [
        1,
        0x01000000,
        u32::from(request.0),
        0,
        request.1,
        0,
        1,
        0,
        0,
    ];
    around(alloc, &front, file, &back)
}

/// Whether this LOCK by a datagram is answered BLOCKED.
fn is_blocked(
    alloc: Global,
    socket: &UdpSocket,
    udp: SocketAddr,
    lock: &[u8],
    request: Request,
) -> io::Result<bool> {
    let mut told = [0u8; MOST];
    socket.send_to(lock, udp)?;
    let (count, _) = socket.recv_from(&mut told)?;
    let answer = spelled(alloc, &[request.1, 1, 0, 0, 0, 0, 4, 0xc00c1e00, 3])?;
    Ok(told.get(..count) == Some(answer.as_slice()))
}

/// Whether a host's LOCK waits.
fn waits<R: AllocGlobal + Net>(
    rt: &R,
    udp: SocketAddr,
    file: &[u8],
    request: Request,
) -> io::Result<bool> {
    let address = SocketAddr::new(IpAddr::V4(Ipv4Addr::new(127, 0, 0, request.0)), 0);
    let socket = UdpSocket::bind(rt, address)?;
    socket.set_read_timeout(Some(Duration::from_secs(PATIENCE)))?;
    let lock = lock_of(rt.alloc(), file, request)?;
    is_blocked(rt.alloc(), &socket, udp, &lock, request)
}

/// Whether c1 gets a lock of the whole file, and all these wait for a byte of it.
fn all_wait<R: AllocGlobal + Net>(
    rt: &R,
    udp: SocketAddr,
    stream: &TcpStream,
    file: &[u8],
    requests: &[Request],
) -> io::Result<bool> {
    let mut is_well = is_answered(rt.alloc(), stream, file, LOCK)?;
    for request in requests {
        is_well = is_well && waits(rt, udp, file, *request)?;
    }
    Ok(is_well)
}

/// The next connection that comes; an error where none comes in time.
pub(super) fn accepted<R: Clock>(rt: &R, listener: &TcpListener) -> io::Result<TcpStream> {
    listener.set_nonblocking(true)?;
    for _ in 0..LOOKS {
        match listener.accept() {
            Ok((stream, _)) => return Ok(stream),
            Err(_) => thread::sleep(rt, Duration::from_millis(PAUSE)),
        }
    }
    Err(io::Error::from(io::ErrorKind::TimedOut))
}

/// Whether the next call that comes tells a host that its byte is granted. It answers with this status.
fn hears<R: AllocGlobal + Clock>(
    rt: &R,
    listener: &TcpListener,
    file: &[u8],
    request: Request,
    status: u32,
) -> io::Result<bool> {
    let stream = accepted(rt, listener)?;
    stream.set_read_timeout(Some(Duration::from_secs(PATIENCE)))?;
    let lock = [1, 0x01000000, u32::from(request.0), 0, request.1, 0, 1];
    is_heard(rt.alloc(), &stream, file, request.1, &lock, status)
}

/// The same, where it answers that it was granted.
fn is_told<R: AllocGlobal + Clock>(
    rt: &R,
    listener: &TcpListener,
    file: &[u8],
    request: Request,
) -> io::Result<bool> {
    hears(rt, listener, file, request, GRANTED)
}

/// Whether no connection has come.
fn is_left_alone(listener: &TcpListener) -> io::Result<bool> {
    listener.set_nonblocking(true)?;
    Ok(listener.accept().is_err())
}

/// Whether the second and the third host are told of their own, one after the other, and nobody of anything else.
fn all_are_told<R: AllocGlobal + Clock>(
    rt: &R,
    second: &TcpListener,
    third: &TcpListener,
    file: &[u8],
) -> io::Result<bool> {
    let mut is_well = true;
    for request in &REQUESTS {
        is_well = is_well
            && match *request {
                (2, _) => is_told(rt, second, file, *request)?,
                (3, UNWANTED) => hears(rt, third, file, *request, DENIED)?,
                (3, _) => is_told(rt, third, file, *request)?,
                _ => true,
            };
    }
    Ok(is_well && is_left_alone(second)? && is_left_alone(third)?)
}

/// Whether two hosts are called back, each where it listens here, and the one that is not called back gets nothing.
/// What the third host answered to its first call was taken in before its next one: the byte is free.
pub(crate) fn are_called_back<R: AllocGlobal + Clock + SystemNet>(
    rt: &R,
    tcp: SocketAddr,
    udp: Option<SocketAddr>,
    second: &TcpListener,
    third: &TcpListener,
) -> io::Result<bool> {
    let Some(udp) = udp else {
        return Ok(false);
    };
    let stream = connect(rt, tcp)?;
    let file = create(rt.alloc(), &stream)?;
    Ok(
        all_wait(rt, udp, &stream, &file, &REQUESTS)?
            && is_answered(rt.alloc(), &stream, &file, UNLOCK)?
            && all_are_told(rt, second, third, &file)?
            && is_answered(rt.alloc(), &stream, &file, FREE_UNWANTED)?,
    )
}

/// Whether a host that can't be reached is told nothing, also where it could be soon after, and the other of its own.
pub(crate) fn is_passed_over<R: AllocGlobal + Clock + SystemNet>(
    rt: &R,
    tcp: SocketAddr,
    udp: Option<SocketAddr>,
    second: SocketAddr,
    third: &TcpListener,
) -> io::Result<bool> {
    let Some(udp) = udp else {
        return Ok(false);
    };
    let stream = connect(rt, tcp)?;
    let file = create(rt.alloc(), &stream)?;
    Ok(
        all_wait(rt, udp, &stream, &file, &REQUESTS_UNREACHED)?
            && is_answered(rt.alloc(), &stream, &file, UNLOCK_FRONT)?
            && is_told(rt, third, &file, REQUESTS_UNREACHED[1])?
            && is_told_alone(rt, &stream, second, third, &file)?,
    )
}

/// Whether only the third host is told, where the second one listens again.
fn is_told_alone<R: AllocGlobal + Clock + SystemNet>(
    rt: &R,
    stream: &TcpStream,
    second: SocketAddr,
    third: &TcpListener,
    file: &[u8],
) -> io::Result<bool> {
    thread::sleep(rt, Duration::from_millis(UNREACHED));
    let second = TcpListener::bind(rt, second)?;
    Ok(
        is_answered(rt.alloc(), stream, file, UNLOCK)?
            && is_told(rt, third, file, REQUESTS_UNREACHED[3])?
            && is_left_alone(&second)?
            && is_left_alone(third)?,
    )
}

/// Whether the third host is told of its own soon, one after the other, where the second one takes a call and does not
/// answer.
pub(crate) fn is_told_beside<R: AllocGlobal + Clock + SystemNet>(
    rt: &R,
    tcp: SocketAddr,
    udp: Option<SocketAddr>,
    second: &TcpListener,
    third: &TcpListener,
) -> io::Result<bool> {
    let Some(udp) = udp else {
        return Ok(false);
    };
    let stream = connect(rt, tcp)?;
    let file = create(rt.alloc(), &stream)?;
    Ok(
        all_wait(rt, udp, &stream, &file, &REQUESTS_UNANSWERED)?
            && is_answered(rt.alloc(), &stream, &file, UNLOCK)?
            && is_told_soon(rt, second, third, &file)?,
    )
}

/// Whether a host that has taken a call and does not answer is given up, and not at once.
fn is_given_up<R: Clock>(rt: &R, stream: &TcpStream, begin: Instant) -> io::Result<bool> {
    stream.set_nonblocking(false)?;
    stream.set_read_timeout(Some(Duration::from_secs(PATIENCE)))?;
    let mut stream = stream;
    let mut call = [0u8; CALL_SIZE];
    stream.read_exact(&mut call)?;
    let mut more = [0u8; 1];
    let count = stream.read(&mut more)?;
    Ok(count == 0 && begin.elapsed(rt)? >= Duration::from_secs(LEAST_WAIT))
}

/// Whether the third host is told of its own soon, once a call of the second one has come, which gets no answer, and
/// whose host is given up then.
fn is_told_soon<R: AllocGlobal + Clock>(
    rt: &R,
    second: &TcpListener,
    third: &TcpListener,
    file: &[u8],
) -> io::Result<bool> {
    let unanswered = accepted(rt, second)?;
    let begin = Instant::now(rt)?;
    let mut is_well = true;
    for request in &REQUESTS_UNANSWERED {
        is_well = is_well && (request.0 == 2 || is_told(rt, third, file, *request)?);
    }
    let took = begin.elapsed(rt)?;
    let is_given_up = is_given_up(rt, &unanswered, begin)?;
    drop(unanswered);
    let is_soon = took < Duration::from_secs(SOON);
    Ok(is_well && is_soon && is_given_up && is_left_alone(second)? && is_left_alone(third)?)
}

/// Whether a server that calls the second host and the third back at these addresses serves this visit well.
fn is_served_with<
    R: Runtime + AllocGlobal + Eprint + Net<Listener = TcpListener, Stream = TcpStream>,
>(rt: R, to_second: SocketAddr, to_third: SocketAddr, visit: Visit) -> Result<bool, Fail> {
    let to_second = format!(in rt.alloc(); "127.0.0.2={to_second}")?;
    let to_third = format!(in rt.alloc(); "127.0.0.3={to_third}")?;
    let more = [
        "--tcp",
        "127.0.0.1:0",
        "--udp",
        "127.0.0.1:0",
        "--accept",
        "1",
        "--callback",
        to_second.as_str(),
        "--callback",
        to_third.as_str(),
    ];
    is_served(rt, &more, visit)
}

#[test]
fn each_host_is_told_of_its_own_locks_in_order(rt: HostRuntime) -> Result<(), Fail> {
    let second = TcpListener::bind(&rt, "127.0.0.1:0")?;
    let third = TcpListener::bind(&rt, "127.0.0.1:0")?;
    let (to_second, to_third) = (second.local_addr()?, third.local_addr()?);
    let visit = Visit::Hosts(second, third);
    assert!(rt; is_served_with(rt, to_second, to_third, visit)?);
    Ok(())
}

#[test]
fn a_host_that_does_not_answer_holds_up_no_other(rt: HostRuntime) -> Result<(), Fail> {
    let second = TcpListener::bind(&rt, "127.0.0.1:0")?;
    let third = TcpListener::bind(&rt, "127.0.0.1:0")?;
    let (to_second, to_third) = (second.local_addr()?, third.local_addr()?);
    let visit = Visit::Unanswered(second, third);
    assert!(rt; is_served_with(rt, to_second, to_third, visit)?);
    Ok(())
}

/// An address at which nobody listens.
fn unreached<R: Net<Listener = TcpListener, Stream = TcpStream>>(rt: &R) -> io::Result<SocketAddr> {
    TcpListener::bind(rt, "127.0.0.1:0")?.local_addr()
}

#[test]
fn a_host_that_was_not_reached_is_passed_over(rt: HostRuntime) -> Result<(), Fail> {
    let second = unreached(&rt)?;
    let third = TcpListener::bind(&rt, "127.0.0.1:0")?;
    let to_third = third.local_addr()?;
    let visit = Visit::PassedOver(second, third);
    assert!(rt; is_served_with(rt, second, to_third, visit)?);
    Ok(())
}
