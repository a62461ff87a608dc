//! All descriptors are taken: nobody can be let in then, and once there are some again whoever comes is.

use crate::tests::answers::NULL;
use crate::tests::clients::{Exchange, Visit, connect, exchange};
use crate::tests::is_served;
use nfs_server::SystemNet;
use std::alloc::Global;
use std::net::{SocketAddr, TcpListener, TcpStream};
use std::process::Abort;
use std::rt::Clock;
use std::test::Fail;
use std::time::Duration;
use std::{io, thread};

/// How many are taken at most, where the system gives so many.
const MOST: usize = 1_200_000;

/// How long none is left, in milliseconds.
const PAUSE: u64 = 200;

/// Takes all descriptors that the system gives.
fn take_all(alloc: Global, listener: &TcpListener) -> Vec<TcpListener> {
    let mut taken = Vec::new(alloc);
    for _ in 0..MOST {
        match listener.try_clone() {
            Ok(another) => {
                if let Err(refused) = taken.push(another) {
                    drop(refused);
                    break;
                }
            }
            Err(_) => break,
        }
    }
    taken
}

/// A connection, for which a descriptor is given back; another one where the server has taken that. None is left then.
fn connect_last<R: AllocGlobal + SystemNet>(
    rt: &R,
    tcp: SocketAddr,
    taken: &mut Vec<TcpListener>,
) -> io::Result<TcpStream> {
    drop(taken.pop());
    match connect(rt, tcp) {
        Ok(stream) => Ok(stream),
        Err(_) => {
            drop(taken.pop());
            connect(rt, tcp)
        }
    }
}

/// A connection that comes while all descriptors are taken. There are some again then.
fn connect_without<R: AllocGlobal + Clock + SystemNet>(
    rt: &R,
    tcp: SocketAddr,
) -> io::Result<TcpStream> {
    let listener = TcpListener::bind(rt, "127.0.0.1:0")?;
    let mut taken = take_all(rt.alloc(), &listener);
    let last = connect_last(rt, tcp, &mut taken)?;
    thread::sleep(rt, Duration::from_millis(PAUSE));
    Ok(last)
}

/// Whether connections are answered that come before all descriptors are taken, while they are, and after that.
pub(crate) fn are_let_in<R: AllocGlobal + Clock + SystemNet>(
    rt: &R,
    tcp: SocketAddr,
    each: Exchange,
) -> io::Result<bool> {
    let alloc = rt.alloc();
    let before = connect(rt, tcp)?;
    let is_begun = exchange(alloc, &before, each)?;
    let last = connect_without(rt, tcp)?;
    let after = connect(rt, tcp)?;
    Ok(
        is_begun
            && exchange(alloc, &last, each)?
            && exchange(alloc, &after, each)?
            && exchange(alloc, &before, each)?,
    )
}

#[test]
fn connections_are_let_in_once_descriptors_come_back(rt: HostRuntime) -> Result<(), Fail> {
    let more = ["--tcp", "127.0.0.1:0", "--accept", "3"];
    assert!(rt; is_served(rt, &more, Visit::Exhausted(NULL))?);
    Ok(())
}
