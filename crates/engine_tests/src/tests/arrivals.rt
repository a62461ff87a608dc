//! What a record that came in asks (RFC 5531, section 9).

use super::records::{NULL, arrival, moment};
use nfs_engine::{Arrival, Incoming, Reading};
use nfs_machine::Call;
use nfs_wire::NfsCall;
use std::test::Fail;

/// Whether it came in so.
fn is_received(received: &Incoming) -> bool {
    let Incoming::Record(received) = received else {
        return false;
    };
    received.host.text().as_slice() == b"10.0.0.1".as_slice()
        && received.message.len() == 40
        && received.moment == moment()
}

/// Whether it is NULL with this xid, for nobody.
fn asks_null(reading: &Reading, xid: u32) -> bool {
    match reading {
        Reading::Asks(asked) => {
            asked.xid == xid
                && (asked.ids.uid, asked.ids.gid) == (65534, 65534)
                && matches!(&asked.call, Call::Nfs(NfsCall::Null))
        }
        Reading::Faulted(_) => false,
    }
}

/// Whether it is both.
fn is_null(arrival: Arrival, xid: u32) -> bool {
    let (received, reading) = arrival.into_parts();
    let is_null = is_received(&received) && asks_null(&reading, xid);
    drop(received);
    drop(reading);
    is_null
}

#[test]
fn null_is_asked(rt: HostRuntime) -> Result<(), Fail> {
    let arrival = arrival(rt.alloc(), &NULL)?;
    assert!(rt; is_null(arrival, 1));
    Ok(())
}
