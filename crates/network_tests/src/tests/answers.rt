//! What is answered over connections and by datagrams.

use crate::tests::clients::{Exchange, Visit};
use crate::tests::{Count, is_counted, is_served};
use nfs_server::{CountedEvent, Patience};
use std::process::Abort;
use std::test::Fail;

/// NULL of NFS without a credential (RFC 1813, 3.3.0).
pub(super) const NULL: Exchange = (
    &[0x80000028, 1, 0, 2, 100003, 3, 0, 0, 0, 0, 0],
    &[0x80000018, 1, 1, 0, 0, 0, 0],
);

/// MNT of `/data`: the root's handle, and AUTH_SYS as the one flavor.
const MNT: Exchange = (
    &[
        0x80000034, 2, 0, 2, 100005, 3, 1, 0, 0, 0, 0, 5, 0x2f646174, 0x61000000,
    ],
    &[
        0x80000048, 2, 1, 0, 0, 0, 0, 0, 32, 0x4e464433, 1, 0, 7, 0, 1, 0, 1, 1, 1,
    ],
);

/// DUMP: the client's own host with `/data`.
const DUMP: Exchange = (
    &[0x80000028, 4, 0, 2, 100005, 3, 2, 0, 0, 0, 0],
    &[
        0x8000003c, 4, 1, 0, 0, 0, 0, 1, 9, 0x3132372e, 0x302e302e, 0x31000000, 5, 0x2f646174,
        0x61000000, 0,
    ],
);

/// GETATTR of the root.
pub(super) const GETATTR: [u32; 20] = [
    0x8000004c, 3, 0, 2, 100003, 3, 1, 0, 0, 0, 0, 32, 0x4e464433, 1, 0, 7, 0, 1, 0, 1,
];

/// A directory of mode 0777, with 2 links, of 4096 bytes, on file system 1, made at (1000, 0).
pub(super) const OPENED: Exchange = (
    &GETATTR,
    &[
        0x80000070, 3, 1, 0, 0, 0, 0, 0, 2, 0x1ff, 2, 0, 0, 0, 0x1000, 0, 0x1000, 0, 0, 0, 1, 0, 1,
        1000, 0, 1000, 0, 1000, 0,
    ],
);

const EXCHANGES: [Exchange; 4] = [NULL, MNT, DUMP, OPENED];

/// One with a directory in it, which came in one change.
const CHANGED_ONCE: Exchange = (
    &GETATTR,
    &[
        0x80000070, 3, 1, 0, 0, 0, 0, 0, 2, 0x1ff, 3, 0, 0, 0, 0x1000, 0, 0x1000, 0, 0, 0, 1, 0, 1,
        1000, 0, 1000, 1, 1000, 1,
    ],
);

/// MKDIR of `p` in the root, with no attributes given.
const MKDIR: [u32; 28] = [
    0x8000006c, 5, 0, 2, 100003, 3, 9, 0, 0, 0, 0, 32, 0x4e464433, 1, 0, 7, 0, 1, 0, 1, 1,
    0x70000000, 0, 0, 0, 0, 0, 0,
];

/// Datagrams without an answer, a word and a reply of RPC, and NULL behind them.
const GARBAGE: [Exchange; 3] = [(&[0, 9], &[]), (&[0, 9, 1, 0, 0, 0, 0], &[]), NULL];

/// NULL and the header of a record of 73,729 bytes.
const TOO_LONG: [u32; 12] = [0x80000028, 1, 0, 2, 100003, 3, 0, 0, 0, 0, 0, 0x80012001];

/// NULL and the beginning of another.
const CUT: [u32; 14] = [
    0x80000028, 1, 0, 2, 100003, 3, 0, 0, 0, 0, 0, 0x80000028, 1, 0,
];

const HERE: &str = "127.0.0.1:0";

const BY_TCP: [&str; 4] = ["--tcp", "127.0.0.1:0", "--accept", "1"];

const BY_UDP: [&str; 6] = [
    "--udp",
    "127.0.0.1:0",
    "--tcp",
    "127.0.0.1:0",
    "--accept",
    "1",
];

const TWICE: [&str; 4] = ["--tcp", "127.0.0.1:0", "--accept", "2"];

const ONE_AT_ONCE: [&str; 6] = [
    "--tcp",
    "127.0.0.1:0",
    "--accept",
    "2",
    "--connections",
    "1",
];

#[test]
fn clients_are_answered(rt: HostRuntime) -> Result<(), Fail> {
    assert!(rt; is_served(rt, &BY_TCP, Visit::Connection(&EXCHANGES))?);
    assert!(rt; is_served(rt, &BY_UDP, Visit::Datagrams(HERE, &EXCHANGES))?);
    assert!(rt; is_served(rt, &BY_UDP, Visit::Datagrams(HERE, &GARBAGE))?);
    Ok(())
}

#[test]
fn a_call_whose_connection_was_lost(rt: HostRuntime) -> Result<(), Fail> {
    let visit = Visit::Lost(&MKDIR, CHANGED_ONCE);
    assert!(rt; is_served(rt, &TWICE, visit)?);
    Ok(())
}

/// The second of two connections comes while the first one is open.
const TURNED_AWAY: [Count; 2] = [(CountedEvent::Opened, 1), (CountedEvent::TurnedAway, 1)];

#[test]
fn a_connection_is_closed_alone(rt: HostRuntime) -> Result<(), Fail> {
    assert!(rt;
        is_counted(
            rt,
            &ONE_AT_ONCE,
            Patience::USUAL,
            Visit::Refused(NULL),
            &TURNED_AWAY
        )?
    );
    assert!(rt; is_served(rt, &TWICE, Visit::Closed(NULL, &TOO_LONG))?);
    assert!(rt; is_served(rt, &TWICE, Visit::Ended(NULL, &CUT))?);
    Ok(())
}
