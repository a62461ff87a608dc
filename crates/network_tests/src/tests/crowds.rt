//! Clients at once: each makes, renames and removes a directory in the root, again and again, and sends each of these
//! calls twice. Eras of three records end all the while (RFC 1813, 3.3.9, 3.3.13 and 3.3.14).

use crate::tests::answers::{GETATTR, NULL};
use crate::tests::clients::{Exchange, Visit, connect, exchange, next_record, send};
use crate::tests::is_served;
use crate::tests::names::{LOOKUP, NOENT, OK, RMDIR, is_answer, is_told, mkdir, on_name, rename};
use nfs_server::SystemNet;
use std::alloc::Global;
use std::net::{SocketAddr, TcpStream};
use std::process::Abort;
use std::test::Fail;
use std::thread::Threads;
use std::{io, thread};

/// How often each client makes its directory.
const ROUNDS: u32 = 12;

/// A client: where its transaction ids begin, and the names by which it makes a directory and renames it.
#[derive(Clone, Copy)]
struct Client {
    first: u32,
    made: u32,
    renamed: u32,
}

const CLIENTS: [Client; 4] = [
    Client {
        first: 0x1000,
        made: 0x61000000,
        renamed: 0x62000000,
    },
    Client {
        first: 0x2000,
        made: 0x63000000,
        renamed: 0x64000000,
    },
    Client {
        first: 0x3000,
        made: 0x65000000,
        renamed: 0x66000000,
    },
    Client {
        first: 0x4000,
        made: 0x67000000,
        renamed: 0x68000000,
    },
];

/// GETATTR of the root, which was changed three times in each round of each client, and is empty again.
const CHANGED: Exchange = (
    &GETATTR,
    &[
        0x80000070, 3, 1, 0, 0, 0, 0, 0, 2, 0x1ff, 2, 0, 0, 0, 0x1000, 0, 0x1000, 0, 0, 0, 1, 0, 1,
        1000, 0, 1000, 144, 1000, 144,
    ],
);

/// Whether a change that is sent twice at once succeeds, and has the same answer twice.
fn is_done(alloc: Global, stream: &TcpStream, call: &[u32]) -> io::Result<bool> {
    send(alloc, stream, call)?;
    send(alloc, stream, call)?;
    let first = next_record(alloc, stream)?;
    let second = next_record(alloc, stream)?;
    Ok(is_answer(&first, call, OK) && first == second)
}

/// Whether a round goes well whose transaction ids begin there.
fn is_round_well(alloc: Global, stream: &TcpStream, client: Client, xid: u32) -> io::Result<bool> {
    let Client { made, renamed, .. } = client;
    Ok(
        is_done(alloc, stream, &mkdir(xid, made))?
            && is_told(alloc, stream, &on_name(xid | 1, LOOKUP, made), OK)?
            && is_done(alloc, stream, &rename(xid | 2, made, renamed))?
            && is_told(alloc, stream, &on_name(xid | 3, LOOKUP, made), NOENT)?
            && is_told(alloc, stream, &on_name(xid | 4, LOOKUP, renamed), OK)?
            && is_done(alloc, stream, &on_name(xid | 5, RMDIR, renamed))?
            && is_told(alloc, stream, &on_name(xid | 6, LOOKUP, renamed), NOENT)?,
    )
}

/// Whether all rounds of a client go well.
fn plays<R: AllocGlobal + SystemNet>(rt: &R, tcp: SocketAddr, client: Client) -> io::Result<bool> {
    let stream = connect(rt, tcp)?;
    let mut is_well = true;
    for round in 0..ROUNDS {
        let xid = client.first.wrapping_add(8 * round);
        is_well = is_well && is_round_well(rt.alloc(), &stream, client, xid)?;
    }
    Ok(is_well)
}

/// Whether all clients' rounds go well beside each other, and the root was changed by each of their calls once.
pub(crate) fn all_play<R: AllocGlobal + Threads + Sync + SystemNet>(
    rt: &R,
    tcp: SocketAddr,
) -> io::Result<bool> {
    let play = |number: usize| -> bool {
        match CLIENTS.get(number) {
            Some(client) => plays(rt, tcp, *client).unwrap_or(false),
            None => false,
        }
    };
    let played = thread::map_indices(rt, rt.alloc(), CLIENTS.len(), &play)?;
    let mut is_well = true;
    for played in &played {
        is_well = is_well && *played;
    }
    let stream = connect(rt, tcp)?;
    Ok(is_well && exchange(rt.alloc(), &stream, CHANGED)?)
}

/// How many connections are open at once.
const OPEN: usize = 16;

/// Whether this exchange goes well over each of many connections, which are open at once.
pub(crate) fn are_let_in<R: AllocGlobal + SystemNet>(
    rt: &R,
    tcp: SocketAddr,
    each: Exchange,
) -> io::Result<bool> {
    let mut streams = Vec::new(rt.alloc());
    for _ in 0..OPEN {
        streams.push(connect(rt, tcp)?)?;
    }
    let mut is_well = true;
    for stream in &streams {
        is_well = is_well && exchange(rt.alloc(), stream, each)?;
    }
    Ok(is_well)
}

const SIXTEEN: [&str; 4] = ["--tcp", "127.0.0.1:0", "--accept", "16"];

#[test]
fn sixteen_connections_at_once(rt: HostRuntime) -> Result<(), Fail> {
    assert!(rt; is_served(rt, &SIXTEEN, Visit::Many(NULL))?);
    Ok(())
}

const FIVE: [&str; 6] = ["--tcp", "127.0.0.1:0", "--accept", "5", "--era", "3"];

#[test]
fn four_clients_at_once(rt: HostRuntime) -> Result<(), Fail> {
    assert!(rt; is_served(rt, &FIVE, Visit::Crowd)?);
    Ok(())
}
