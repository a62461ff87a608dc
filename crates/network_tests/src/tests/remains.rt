//! What is left of files that were removed: it goes while nobody calls. How many objects stand tells of it.

use crate::tests::answers::NULL;
use crate::tests::callbacks::{around, create};
use crate::tests::clients::{Visit, connect, exchange, next_record};
use crate::tests::is_watched;
use crate::tests::names::{OK, REMOVE, is_answer, is_told, on_name};
use nfs_server::{Counters, Gauge, Patience, SystemNet};
use std::alloc::Global;
use std::io::Write;
use std::net::{SocketAddr, TcpStream};
use std::process::Abort;
use std::rt::Clock;
use std::sync::Arc;
use std::test::Fail;
use std::time::Duration;
use std::{io, thread};

/// In how many places of the file, 16 MiB from each other, a byte is written.
const PLACES: u32 = 3;

/// WRITE of a byte, FILE_SYNC, before the handle; its offset comes after that.
const WRITE: [u32; 12] = [0x80000064, 91, 0, 2, 100003, 3, 7, 0, 0, 0, 0, 32];

/// How often it is looked how many objects stand, and how long is waited before the next time, in milliseconds.
const LOOKS: u32 = 2_000;

const PAUSE: u64 = 10;

/// The file's name, as `create` makes it.
const NAME: u32 = 0x61000000;

/// Whether a byte is written to each place of a file.
fn is_filled(alloc: Global, stream: &TcpStream, file: &[u8]) -> io::Result<bool> {
    let mut writer = stream;
    let mut is_well = true;
    for place in 0..PLACES {
        let call = around(alloc, &WRITE, file, &[0, place << 24, 1, 2, 1, 0x61000000])?;
        writer.write_all(&call)?;
        let told = next_record(alloc, stream)?;
        is_well = is_well && is_answer(&told, &WRITE, OK);
    }
    Ok(is_well)
}

/// Whether it comes to this, within a time, that as many objects stand as once, or that more do.
fn come_to<R: Clock>(rt: &R, counters: &Counters, once: u64, are_more: bool) -> bool {
    for _ in 0..LOOKS {
        if (counters.level(Gauge::Objects) > once) == are_more {
            return true;
        }
        thread::sleep(rt, Duration::from_millis(PAUSE));
    }
    false
}

/// Whether all that a file leaves goes, with no call.
pub(crate) fn all_go<R: AllocGlobal + Clock + SystemNet>(
    rt: &R,
    tcp: SocketAddr,
    counters: &Counters,
) -> io::Result<bool> {
    let alloc = rt.alloc();
    let stream = connect(rt, tcp)?;
    let is_begun = exchange(alloc, &stream, NULL)?;
    let once = counters.level(Gauge::Objects);
    let file = create(alloc, &stream)?;
    Ok(
        is_begun
            && is_filled(alloc, &stream, &file)?
            && come_to(rt, counters, once, true)
            && is_told(alloc, &stream, &on_name(92, REMOVE, NAME), OK)?
            && come_to(rt, counters, once, false),
    )
}

#[test]
fn what_a_removed_file_leaves_goes(rt: HostRuntime) -> Result<(), Fail> {
    let more = ["--tcp", "127.0.0.1:0", "--accept", "1"];
    let counters = Counters::new(rt.alloc())?;
    let visit = Visit::Remains(Arc::try_clone(&counters)?);
    assert!(rt; is_watched(rt, &more, Patience::USUAL, visit, counters)?);
    Ok(())
}
