//! The time of a change rises with each change (RFC 1813, 2.5: mtime, ctime), and how times are set (2.5: set_atime).

use super::*;
use nfs_inodes::{is_time, now, time_set, touch};

fn time(seconds: u32, nanoseconds: u32) -> Time {
    Time {
        seconds,
        nanoseconds,
    }
}

/// The time of a call.
fn call_time() -> Time {
    let ctx = ctx(1);
    let now = now(&ctx);
    drop(ctx);
    now
}

/// The first row in which a change has another time: it has that of its call, and is later where the last one had that
/// too. The greatest time stays.
fn first_wrong_change() -> Option<usize> {
    let now = call_time();
    let rows = [
        ((999, 5), (1000, 0)),
        ((1000, 0), (1000, 1)),
        ((2000, 7), (2000, 8)),
        ((1000, 999_999_999), (1001, 0)),
        ((u32::MAX, 999_999_999), (u32::MAX, 999_999_999)),
    ];
    for (row, (last, want)) in rows.iter().enumerate() {
        if touch(time(last.0, last.1), now) != time(want.0, want.1) {
            return Some(row);
        }
    }
    None
}

/// Whether a time is left, or set to that of the server or of the client.
fn times_are_set() -> bool {
    let (now, client) = (time(2000, 5), time(9, 1));
    time_set(TIME, now, SetTime::Leave) == TIME
        && time_set(TIME, now, SetTime::ToServer) == now
        && time_set(TIME, now, SetTime::ToClient(client)) == client
}

#[test]
fn a_change_is_later_than_the_last(rt: HostRuntime) {
    assert!(rt; call_time() == TIME);
    assert_eq!(rt; first_wrong_change(), None);
    assert!(rt; times_are_set());
    // A time of the client has less than a second of nanoseconds.
    assert!(rt; is_time(SetTime::ToServer));
    assert!(rt; is_time(SetTime::ToClient(time(9, 999_999_999))));
    assert!(rt; !is_time(SetTime::ToClient(NO_TIME)));
}
