//! Addresses that can't be listened on.

use crate::tests::options;
use nfs_server::{Exit, Sockets};
use std::alloc::Global;
use std::net::{Net, SocketAddr, TcpListener, TcpStream, UdpSocket};
use std::process::Abort;
use std::test::Fail;

/// Whether the sockets of these options can't be had, for this address.
fn is_refused<R: AllocGlobal + Net<Listener = TcpListener, Stream = TcpStream>>(
    rt: &R,
    more: &[&str],
    address: &str,
) -> Result<bool, Fail> {
    let options = options(rt.alloc(), more)?;
    let sockets = Sockets::bind(rt, rt.alloc(), &options);
    drop(options);
    match sockets {
        Ok(sockets) => {
            drop(sockets);
            Ok(false)
        }
        Err(exit) => tells(rt.alloc(), &exit, address),
    }
}

/// Whether an exit tells that an address can't be listened on.
fn tells(alloc: Global, exit: &Exit, address: &str) -> Result<bool, Fail> {
    let text = exit.to_string(alloc)?;
    let wanted = format!(in alloc; "nfsd: cannot listen on {address}")?;
    Ok(text == wanted && exit.status() == 1)
}

/// Addresses that are none, or are no machine's (RFC 5737), and the one that is told. TCP's is looked at first.
const REFUSED: [(&[&str], &str); 4] = [
    (&["--tcp", "localhost:2049"], "localhost:2049"),
    (&["--udp", "127.0.0.1:65536"], "127.0.0.1:65536"),
    (&["--udp", "127.0.0.1", "--tcp", "[::1"], "[::1"),
    (&["--tcp", "192.0.2.1:0"], "192.0.2.1:0"),
];

#[test]
fn no_address(rt: HostRuntime) -> Result<(), Fail> {
    for (more, address) in REFUSED {
        assert!(rt; is_refused(&rt, more, address)?, "{address}");
    }
    Ok(())
}

/// Whether an address that is taken, of this kind, is refused.
fn is_taken<R: AllocGlobal + Net<Listener = TcpListener, Stream = TcpStream>>(
    rt: &R,
    option: &str,
    address: SocketAddr,
) -> Result<bool, Fail> {
    let address = format!(in rt.alloc(); "{address}")?;
    is_refused(rt, &[option, address.as_str()], address.as_str())
}

#[test]
fn an_address_in_use(rt: HostRuntime) -> Result<(), Fail> {
    let listener = TcpListener::bind(&rt, "127.0.0.1:0")?;
    let socket = UdpSocket::bind(&rt, "127.0.0.1:0")?;
    assert!(rt; is_taken(&rt, "--tcp", listener.local_addr()?)?);
    assert!(rt; is_taken(&rt, "--udp", socket.local_addr()?)?);
    Ok(())
}
