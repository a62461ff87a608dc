//! Messages that have no reply: the results of the MSG calls of NLM, and GRANTED_MSG (RFC 1813, appendix II). Their
//! host sends nothing back and leaves each connection open, and all the same they come, one right after the other.

use crate::tests::callbacks::{LockExchange, UNLOCK, around, create, is_answered};
use crate::tests::clients::{ANY, PATIENCE, Visit, connect, is_next, is_next_of, spelled};
use crate::tests::hosts::accepted;
use crate::tests::is_served;
use nfs_server::SystemNet;
use std::io;
use std::io::Write;
use std::net::{SocketAddr, TcpListener, TcpStream};
use std::process::Abort;
use std::rt::Clock;
use std::test::Fail;
use std::time::{Duration, Instant};

/// LOCK_MSG of the whole file by c1, exclusive.
const LOCK_MSG: LockExchange = (
    &[
        0x80000088, 71, 0, 2, 100021, 4, 7, 0, 0, 0, 0, 4, 0xc00c1e00, 0, 1, 2, 0x63310000, 32,
    ],
    &[1, 0x01000000, 1, 0, 0, 0, 0, 0, 0],
    &[0x80000018, 71, 1, 0, 0, 0, 0],
);

/// The same by c2, which waits.
const WAIT_MSG: LockExchange = (
    &[
        0x80000088, 72, 0, 2, 100021, 4, 7, 0, 0, 0, 0, 4, 0xc00c1e00, 1, 1, 2, 0x63320000, 32,
    ],
    &[1, 0x02000000, 2, 0, 0, 0, 0, 0, 0],
    &[0x80000018, 72, 1, 0, 0, 0, 0],
);

/// The same by c3, which waits.
const THIRD_MSG: LockExchange = (
    &[
        0x80000088, 73, 0, 2, 100021, 4, 7, 0, 0, 0, 0, 4, 0xc00c1e00, 1, 1, 2, 0x63330000, 32,
    ],
    &[1, 0x03000000, 3, 0, 0, 0, 0, 0, 0],
    &[0x80000018, 73, 1, 0, 0, 0, 0],
);

/// CANCEL_MSG of what c3 waits for.
const CANCEL_MSG: LockExchange = (
    &[
        0x80000080, 74, 0, 2, 100021, 4, 8, 0, 0, 0, 0, 4, 0xc00c1e00, 1, 1, 2, 0x63330000, 32,
    ],
    &[1, 0x03000000, 3, 0, 0, 0, 0],
    &[0x80000018, 74, 1, 0, 0, 0, 0],
);

/// TEST_MSG of the whole file by c2.
const TEST_MSG: LockExchange = (
    &[
        0x8000007c, 75, 0, 2, 100021, 4, 6, 0, 0, 0, 0, 4, 0xc00c1e00, 1, 2, 0x63320000, 32,
    ],
    &[1, 0x02000000, 2, 0, 0, 0, 0],
    &[0x80000018, 75, 1, 0, 0, 0, 0],
);

/// UNLOCK_MSG of it by c2.
const UNLOCK_MSG: LockExchange = (
    &[
        0x80000078, 76, 0, 2, 100021, 4, 9, 0, 0, 0, 0, 4, 0xc00c1e00, 2, 0x63320000, 32,
    ],
    &[1, 0x02000000, 2, 0, 0, 0, 0],
    &[0x80000018, 76, 1, 0, 0, 0, 0],
);

/// Calls with the messages that they have sent: LOCK_RES of GRANTED, and twice of BLOCKED; CANCEL_RES of GRANTED;
/// TEST_RES of DENIED by c1. Which part of the lock that one shows is left open.
const RESULTS: [(LockExchange, &[u32]); 5] = [
    (
        LOCK_MSG,
        &[
            0x80000034, 1, 0, 2, 100021, 4, 12, 0, 0, 0, 0, 4, 0xc00c1e00, 0,
        ],
    ),
    (
        WAIT_MSG,
        &[
            0x80000034, 2, 0, 2, 100021, 4, 12, 0, 0, 0, 0, 4, 0xc00c1e00, 3,
        ],
    ),
    (
        THIRD_MSG,
        &[
            0x80000034, 3, 0, 2, 100021, 4, 12, 0, 0, 0, 0, 4, 0xc00c1e00, 3,
        ],
    ),
    (
        CANCEL_MSG,
        &[
            0x80000034, 4, 0, 2, 100021, 4, 13, 0, 0, 0, 0, 4, 0xc00c1e00, 0,
        ],
    ),
    (
        TEST_MSG,
        &[
            0x80000054, 5, 0, 2, 100021, 4, 11, 0, 0, 0, 0, 4, 0xc00c1e00, 1, 1, 1, 1, 0x01000000,
            ANY, ANY, ANY, ANY,
        ],
    ),
];

/// GRANTED_MSG of what c2 waited for, with any cookie, before the handle and after it.
const GRANTED_MSG: [u32; 18] = [
    0x80000080, 6, 0, 2, 100021, 4, 10, 0, 0, 0, 0, 8, ANY, ANY, 1, 2, 0x63320000, 32,
];

const GRANTED_LOCK: [u32; 7] = [1, 0x02000000, 2, 0, 0, 0, 0];

/// UNLOCK_RES of GRANTED.
const UNLOCK_RES: [u32; 14] = [
    0x80000034, 7, 0, 2, 100021, 4, 14, 0, 0, 0, 0, 4, 0xc00c1e00, 0,
];

/// How many results are asked for at once, and the number of the first: TEST_RES of GRANTED.
const MANY: u32 = 24;

const FIRST: u32 = 8;

/// In how many seconds all messages come. Where each was waited for, it would be more than two minutes.
const SOON: u64 = 25;

/// A host that takes what comes.
#[derive(Drop)]
struct Taker {
    listener: TcpListener,
    /// The connections that have come, which stay open.
    open: Vec<TcpStream>,
    begin: Instant,
}

impl Taker {
    /// Whether the next message that comes is this one, and is soon.
    fn takes<R: AllocGlobal + Clock>(&mut self, rt: &R, message: &[u32]) -> io::Result<bool> {
        let message = spelled(rt.alloc(), message)?;
        self.takes_bytes(rt, &message)
    }

    /// The same of a message's bytes.
    fn takes_bytes<R: AllocGlobal + Clock>(&mut self, rt: &R, message: &[u8]) -> io::Result<bool> {
        let stream = accepted(rt, &self.listener)?;
        stream.set_read_timeout(Some(Duration::from_secs(PATIENCE)))?;
        let is_next = is_next_of(rt.alloc(), &stream, message)?;
        self.open.push(stream)?;
        Ok(is_next && self.begin.elapsed(rt)? < Duration::from_secs(SOON))
    }
}

/// Whether each call has its result, and the one that waits then has the lock once c1 gives it back, and gives it back
/// too.
fn are_told<R: AllocGlobal + Clock>(
    rt: &R,
    stream: &TcpStream,
    taker: &mut Taker,
    file: &[u8],
) -> io::Result<bool> {
    let alloc = rt.alloc();
    for (call, result) in &RESULTS {
        if !(is_answered(alloc, stream, file, *call)? && taker.takes(rt, result)?) {
            return Ok(false);
        }
    }
    let granted = around(alloc, &GRANTED_MSG, file, &GRANTED_LOCK)?;
    Ok(
        is_answered(alloc, stream, file, UNLOCK)?
            && taker.takes_bytes(rt, &granted)?
            && is_answered(alloc, stream, file, UNLOCK_MSG)?
            && taker.takes(rt, &UNLOCK_RES)?,
    )
}

/// Whether results that are asked for at once all come, in order.
fn all_come<R: AllocGlobal + Clock>(
    rt: &R,
    stream: &TcpStream,
    taker: &mut Taker,
    file: &[u8],
) -> io::Result<bool> {
    let alloc = rt.alloc();
    let mut writer = stream;
    for number in FIRST..FIRST + MANY {
        let front = [
            0x8000007c, number, 0, 2, 100021, 4, 6, 0, 0, 0, 0, 4, 0xc00c1e00, 1, 2, 0x63320000, 32,
        ];
        writer.write_all(&around(alloc, &front, file, TEST_MSG.1)?)?;
    }
    let mut is_well = true;
    for number in FIRST..FIRST + MANY {
        let result = [
            0x80000034, number, 0, 2, 100021, 4, 11, 0, 0, 0, 0, 4, 0xc00c1e00, 0,
        ];
        is_well = is_well
            && is_next(alloc, stream, &[0x80000018, number, 1, 0, 0, 0, 0])?
            && taker.takes(rt, &result)?;
    }
    Ok(is_well)
}

/// Whether all messages come soon to a host that sends nothing back.
pub(crate) fn are_not_waited_for<R: AllocGlobal + Clock + SystemNet>(
    rt: &R,
    tcp: SocketAddr,
    listener: TcpListener,
) -> io::Result<bool> {
    let stream = connect(rt, tcp)?;
    let file = create(rt.alloc(), &stream)?;
    let mut taker = Taker {
        listener,
        open: Vec::new(rt.alloc()),
        begin: Instant::now(rt)?,
    };
    Ok(are_told(rt, &stream, &mut taker, &file)? && all_come(rt, &stream, &mut taker, &file)?)
}

#[test]
fn messages_without_a_reply_are_not_waited_for(rt: HostRuntime) -> Result<(), Fail> {
    let listener = TcpListener::bind(&rt, "127.0.0.1:0")?;
    let address = listener.local_addr()?;
    let callback = format!(in rt.alloc(); "127.0.0.1={address}")?;
    let more = [
        "--tcp",
        "127.0.0.1:0",
        "--accept",
        "1",
        "--callback",
        callback.as_str(),
    ];
    assert!(rt; is_served(rt, &more, Visit::OneWay(listener))?);
    Ok(())
}
