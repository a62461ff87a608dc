//! Datagrams of 8 KiB, of a client and of the server: a WRITE and a READ of a file (RFC 1813, 3.3.6 and 3.3.7).

use crate::tests::bursts::content;
use crate::tests::callbacks::{around, create};
use crate::tests::clients::{PATIENCE, Visit, connect};
use crate::tests::is_served;
use crate::tests::names::{OK, is_answer};
use nfs_server::SystemNet;
use std::alloc::Global;
use std::io;
use std::net::{SocketAddr, UdpSocket};
use std::process::Abort;
use std::test::Fail;
use std::time::Duration;

/// How many bytes the file has.
const SIZE: usize = 8_192;

/// The most bytes of a datagram.
const MOST: usize = 16_384;

/// WRITE of the whole file, FILE_SYNC, before its handle and before its bytes.
const WRITE: [u32; 11] = [81, 0, 2, 100003, 3, 7, 0, 0, 0, 0, 32];

const WRITTEN: [u32; 5] = [0, 0, 0x2000, 2, 0x2000];

/// READ of the whole file, before its handle and after it.
const READ: [u32; 11] = [82, 0, 2, 100003, 3, 6, 0, 0, 0, 0, 32];

const WHOLE: [u32; 3] = [0, 0, 0x2000];

/// The mark of a record and the transaction ids of both, as `is_answer` looks for them.
const ASKED: [[u32; 2]; 2] = [[0, 81], [0, 82]];

/// What a call by a datagram is answered.
fn told(alloc: Global, socket: &UdpSocket, udp: SocketAddr, call: &[u8]) -> io::Result<Vec<u8>> {
    let mut told = Vec::from_elem(alloc, 0u8, MOST)?;
    socket.send_to(call, udp)?;
    let (count, _) = socket.recv_from(told.as_mut_slice())?;
    told.truncate(count);
    Ok(told)
}

/// Whether a file gets these bytes by a datagram.
fn is_written(
    alloc: Global,
    socket: &UdpSocket,
    udp: SocketAddr,
    file: &[u8],
    content: &[u8],
) -> io::Result<bool> {
    let mut call = around(alloc, &WRITE, file, &WRITTEN)?;
    call.extend_from_slice(content)?;
    let told = told(alloc, socket, udp, &call)?;
    Ok(is_answer(&told, &ASKED[0], OK))
}

/// Whether a file's bytes come by a datagram.
fn is_read(
    alloc: Global,
    socket: &UdpSocket,
    udp: SocketAddr,
    file: &[u8],
    content: &[u8],
) -> io::Result<bool> {
    let call = around(alloc, &READ, file, &WHOLE)?;
    let told = told(alloc, socket, udp, &call)?;
    Ok(is_answer(&told, &ASKED[1], OK) && told.as_slice().ends_with(content))
}

/// Whether a file is written by a datagram, and read by one.
pub(crate) fn are_answered<R: AllocGlobal + SystemNet>(
    rt: &R,
    tcp: SocketAddr,
    udp: Option<SocketAddr>,
) -> io::Result<bool> {
    let Some(udp) = udp else {
        return Ok(false);
    };
    let alloc = rt.alloc();
    let stream = connect(rt, tcp)?;
    let file = create(alloc, &stream)?;
    let content = content(alloc)?;
    let content = content.get(..SIZE).unwrap_or(&[]);
    let socket = UdpSocket::bind(rt, "127.0.0.1:0")?;
    socket.set_read_timeout(Some(Duration::from_secs(PATIENCE)))?;
    Ok(
        is_written(alloc, &socket, udp, &file, content)?
            && is_read(alloc, &socket, udp, &file, content)?,
    )
}

#[test]
fn long_datagrams_are_answered(rt: HostRuntime) -> Result<(), Fail> {
    let more = [
        "--udp",
        "127.0.0.1:0",
        "--tcp",
        "127.0.0.1:0",
        "--accept",
        "1",
    ];
    assert!(rt; is_served(rt, &more, Visit::Long)?);
    Ok(())
}
