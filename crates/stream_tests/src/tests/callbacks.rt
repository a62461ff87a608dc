//! Where hosts are called back: what command lines name, and which are refused.

use bytes::Bytes;
use nfs_server::{CallbackError, Callbacks, Exit, configure};
use std::alloc::Global;
use std::net::SocketAddr;
use std::process::Abort;
use std::test::Fail;

const SERVE: [&str; 6] = [
    "nfsd",
    "--stdio",
    "--export",
    "/data,rw,*",
    "--callback",
    "10.0.0.2=127.0.0.1:7",
];

/// Two hosts, one of them with two addresses.
const CALLBACKS: [&str; 3] = [
    "10.0.0.2=127.0.0.1:7",
    "::1=[::1]:8",
    "10.0.0.2=127.0.0.1:9",
];

/// Whether a host is called back at this address.
fn is_at(callbacks: &Callbacks, host: &'static [u8], address: &str) -> bool {
    let host = Bytes::from_static(host);
    match (callbacks.of_host(&host), address.parse::<SocketAddr>()) {
        (Some(callback), Ok(wanted)) => callback.address == wanted,
        _ => false,
    }
}

/// Whether the hosts are called back as they should be.
fn are_right(callbacks: &Callbacks) -> bool {
    is_at(callbacks, b"10.0.0.2", "127.0.0.1:9")
        && is_at(callbacks, b"::1", "[::1]:8")
        && callbacks
            .of_host(&Bytes::from_static(b"10.0.0.3"))
            .is_none()
}

#[test]
fn hosts_are_called_back_at_the_last_address(rt: HostRuntime) {
    match Callbacks::new(rt.alloc(), &CALLBACKS) {
        Ok(callbacks) => {
            assert!(rt; are_right(&callbacks));
            drop(callbacks);
        }
        Err(error) => {
            drop(error);
            assert!(rt; false, "callbacks");
        }
    }
}

/// Whether the program ends because its second callback has a bad form.
fn tells(alloc: Global, exit: &Exit) -> Result<bool, Fail> {
    let text = exit.to_string(alloc)?;
    Ok(exit.status() == 1 && text.as_str() == "nfsd: callback 2: bad form")
}

/// Whether a second callback is refused.
fn is_refused(alloc: Global, callback: &'static str) -> Result<bool, Fail> {
    let mut words = SERVE.to_vec(alloc)?;
    words.extend_from_slice(&["--callback", callback])?;
    match configure(alloc, &words) {
        Ok(options) => {
            drop(options);
            Ok(false)
        }
        Err(exit) => tells(alloc, &exit),
    }
}

#[test]
fn bad_forms(rt: HostRuntime) -> Result<(), Fail> {
    let refused = [
        "",
        "10.0.0.2",
        "=127.0.0.1:7",
        "10.0.0.2=",
        "10.0.0.2=127.0.0.1",
        "10.0.0.2=localhost:7",
        "10.0.0.2=127.0.0.1:65536",
        "a=b=127.0.0.1:7",
    ];
    for callback in refused {
        assert!(rt; is_refused(rt.alloc(), callback)?, "{callback}");
    }
    Ok(())
}

/// Whether a host of so many bytes may be called back.
fn takes_host(alloc: Global, length: usize) -> Result<bool, Fail> {
    let mut text = String::new(alloc);
    for _ in 0..length {
        text.push('h')?;
    }
    text.push_str("=127.0.0.1:7")?;
    match Callbacks::new(alloc, &[text.as_str()]) {
        Ok(callbacks) => {
            drop(callbacks);
            Ok(true)
        }
        Err(CallbackError::BadForm(1)) => Ok(false),
        Err(error) => {
            drop(error);
            Err(Fail::from("callback"))
        }
    }
}

#[test]
fn a_host_that_is_called_back_has_1_to_255_bytes(rt: HostRuntime) -> Result<(), Fail> {
    let alloc = rt.alloc();
    assert_eq!(rt; takes_host(alloc, 0)?, false);
    assert_eq!(rt; takes_host(alloc, 1)?, true);
    assert_eq!(rt; takes_host(alloc, 255)?, true);
    assert_eq!(rt; takes_host(alloc, 256)?, false);
    Ok(())
}
