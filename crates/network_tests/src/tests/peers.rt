//! Who a peer is: the host at its address decides which exports it may mount (RFC 1813, 5.2.1).

use crate::tests::clients::{ANY, Exchange, Visit};
use crate::tests::is_served;
use nfs_server::Runtime;
use std::net::{Net, TcpListener, TcpStream};
use std::process::Abort;
use std::test::Fail;

/// MNT of `/only`.
const MNT: [u32; 14] = [
    0x80000034, 61, 0, 2, 100005, 3, 1, 0, 0, 0, 0, 5, 0x2f6f6e6c, 0x79000000,
];

/// A handle of export 2, and AUTH_SYS as the one flavor.
const MOUNTED: [Exchange; 1] = [(
    &MNT,
    &[
        0x80000048, 61, 1, 0, 0, 0, 0, 0, 32, 0x4e464433, 2, 0, 7, ANY, ANY, ANY, ANY, 1, 1,
    ],
)];

/// ACCES.
const REFUSED: [Exchange; 1] = [(&MNT, &[0x8000001c, 61, 1, 0, 0, 0, 0, 13])];

/// Whether a server at this address, where 127.0.0.1 alone may mount `/only`, serves this visit well.
fn is_served_at<
    R: Runtime + AllocGlobal + Eprint + Net<Listener = TcpListener, Stream = TcpStream>,
>(rt: R, address: &str, visit: Visit) -> Result<bool, Fail> {
    let more = [
        "--tcp",
        address,
        "--udp",
        "127.0.0.1:0",
        "--accept",
        "1",
        "--export",
        "/only,rw,127.0.0.1",
    ];
    is_served(rt, &more, visit)
}

/// Whether the machine has an address: without IP version 6 it has none of that.
fn is_there<R: Net<Listener = TcpListener, Stream = TcpStream>>(rt: &R, address: &str) -> bool {
    TcpListener::bind(rt, address).is_ok()
}

#[test]
fn a_peer_at_another_address_is_another_host(rt: HostRuntime) -> Result<(), Fail> {
    let at = "127.0.0.1:0";
    assert!(rt; is_served_at(rt, at, Visit::Connection(&MOUNTED))?);
    assert!(rt; is_served_at(rt, at, Visit::Datagrams("127.0.0.2:0", &REFUSED))?);
    let at = "[::1]:0";
    assert!(rt; !is_there(&rt, at) || is_served_at(rt, at, Visit::Connection(&REFUSED))?);
    Ok(())
}

#[test]
fn a_peer_over_version_6_at_an_address_of_version_4(rt: HostRuntime) -> Result<(), Fail> {
    let at = "[::ffff:127.0.0.1]:0";
    assert!(rt; !is_there(&rt, at) || is_served_at(rt, at, Visit::Connection(&MOUNTED))?);
    Ok(())
}
