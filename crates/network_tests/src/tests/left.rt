//! Clients who leave once they have sent a call and do not wait for its answer, beside one who stays: what they sent is
//! done, once (RFC 1813, 3.3.9).

use crate::tests::answers::{GETATTR, NULL};
use crate::tests::clients::{Exchange, Visit, connect, exchange, send};
use crate::tests::is_served;
use crate::tests::names::{LOOKUP, OK, is_told, mkdir, on_name};
use nfs_server::SystemNet;
use std::net::{SocketAddr, TcpStream};
use std::process::Abort;
use std::rt::Clock;
use std::test::Fail;
use std::time::Duration;
use std::{io, thread};

/// How a client leaves.
#[derive(Clone, Copy, PartialEq, Eq)]
enum Leaving {
    /// It closes its connection.
    Closes,
    /// It resets its connection: what has come over it is not read when it is closed.
    Resets,
}

/// Who leave, one after the other: the transaction id of each one's MKDIR, and the name that it makes.
const CLIENTS: [(u32, u32, Leaving); 6] = [
    (51, 0x61000000, Leaving::Closes),
    (52, 0x62000000, Leaving::Resets),
    (53, 0x63000000, Leaving::Closes),
    (54, 0x64000000, Leaving::Resets),
    (55, 0x65000000, Leaving::Closes),
    (56, 0x66000000, Leaving::Resets),
];

/// GETATTR of the root, in which six directories were made.
const CHANGED: Exchange = (
    &GETATTR,
    &[
        0x80000070, 3, 1, 0, 0, 0, 0, 0, 2, 0x1ff, 8, 0, 0, 0, 0x1000, 0, 0x1000, 0, 0, 0, 1, 0, 1,
        1000, 0, 1000, 6, 1000, 6,
    ],
);

/// How often a name is looked up that comes, and how long is waited before the next time, in milliseconds.
const LOOKS: u32 = 1_000;

const PAUSE: u64 = 3;

/// Sends a call and leaves.
fn leave<R: AllocGlobal + SystemNet>(
    rt: &R,
    tcp: SocketAddr,
    call: &[u32],
    leaving: Leaving,
) -> io::Result<()> {
    let stream = connect(rt, tcp)?;
    if leaving == Leaving::Resets {
        let mut unread = [0u8; 1];
        send(rt.alloc(), &stream, NULL.0)?;
        stream.peek(&mut unread)?;
    }
    send(rt.alloc(), &stream, call)
}

/// Whether a name is there soon.
fn is_found<R: AllocGlobal + Clock>(rt: &R, stream: &TcpStream, name: u32) -> io::Result<bool> {
    for _ in 0..LOOKS {
        if is_told(rt.alloc(), stream, &on_name(60, LOOKUP, name), OK)? {
            return Ok(true);
        }
        thread::sleep(rt, Duration::from_millis(PAUSE));
    }
    Ok(false)
}

/// Whether a client beside one who left is answered, and what that one sent is done, also where it comes again.
fn is_done<R: AllocGlobal + Clock>(
    rt: &R,
    beside: &TcpStream,
    call: &[u32],
    name: u32,
) -> io::Result<bool> {
    Ok(
        exchange(rt.alloc(), beside, NULL)?
            && is_found(rt, beside, name)?
            && is_told(rt.alloc(), beside, call, OK)?,
    )
}

/// Whether what clients sent who left is done, once, and a client beside them is answered all the while.
pub(crate) fn are_done<R: AllocGlobal + Clock + SystemNet>(
    rt: &R,
    tcp: SocketAddr,
) -> io::Result<bool> {
    let alloc = rt.alloc();
    let beside = connect(rt, tcp)?;
    let mut is_well = exchange(alloc, &beside, NULL)?;
    for (xid, name, leaving) in CLIENTS {
        let call = mkdir(xid, name);
        leave(rt, tcp, &call, leaving)?;
        is_well = is_well && is_done(rt, &beside, &call, name).unwrap_or(false);
    }
    Ok(is_well && exchange(alloc, &beside, CHANGED)?)
}

const SEVEN: [&str; 4] = ["--tcp", "127.0.0.1:0", "--accept", "7"];

#[test]
fn calls_whose_clients_left(rt: HostRuntime) -> Result<(), Fail> {
    assert!(rt; is_served(rt, &SEVEN, Visit::Left)?);
    Ok(())
}
