//! A connection, which its own thread reads and writes.

ghost use Rattle.std.specs.Io.{ReadsAtMost, WritesAtMost};
ghost use Rattle.std.specs.Io.KnownBytes.{Appends, WriteAppends};
ghost use Rattle.std.specs.Prelude.{◌≡◌, ◌<◌, ◌≤◌, ℕ, List, Option, None, length, IfOk, IfSome, OnErr, OnOk};
ghost use Rattle.nfs_streams.specs.Connections.{SendsAll, waiting};
ghost use Rattle.nfs_streams.specs.Sent.{WritesPart};
ghost use Rattle.nfs_server.specs.Lines.{ReadsWithin};

use crate::network::counters::{CountedEvent, Counters};
use crate::network::dispatcher::Closed;
use crate::network::listings::Listings;
use crate::network::presence::Presence;
use crate::patience::{Deadline, Patience};
use nfs_engine::Host;
use nfs_streams::Connection;
use std::io;
use std::io::{ErrorKind, Read, Write};
use std::net::TcpStream;
use std::rt::Clock;
use std::sync::Arc;
use std::time::{Duration, Instant};

/// How often a read or a write is done again.
const TRIES: usize = 100;

/// What bytes of a peer come over, and bytes to him go over.
pub(crate) trait Peer {
    /// The bytes that are left to be read, where they are known.
    ghost unread: { Self → Option (List ℕ) };

    /// The bytes that were written, where they are known.
    ghost written: { Self → Option (List ℕ) };

    /// Reads what comes within so many seconds into the front of the buffer, and answers how many bytes; None where
    /// nothing comes. Since then it is waited for.
    fn read(&mut self, since: Instant, seconds: u64, buffer: &mut [u8]) -> io::Result<Option<usize>>
        ensures count { IfOk result (λ read. IfSome read (λ count. count ≤ length buffer.new)) }
        ensures bytes { ReadsWithin (unread self.old) (unread self.new) result buffer.new }
        ensures written { written self.new ≡ written self.old };

    /// Writes bytes from the front of these within so many seconds, and answers how many; none only of no bytes.
    fn write(&mut self, seconds: u64, bytes: &[u8]) -> io::Result<usize>
        ensures count { WritesAtMost result bytes.now }
        ensures some { IfOk result (λ count. 0 < length bytes.now → 0 < count) }
        ensures bytes { WriteAppends (written self.old) (written self.new) result bytes.now }
        ensures unread { unread self.new ≡ unread self.old };
}

/// A connection over TCP.
#[derive(Drop)]
pub(crate) struct Socket {
    presence: Arc<Presence>,
    /// What is counted.
    counters: Arc<Counters>,
    /// How many seconds a read of the socket waits.
    read_wait: u64,
    /// How many seconds a write waits.
    write_wait: u64,
}

impl Socket {
    /// A connection over which a read and a write wait as long as this patience lasts for a record, and for answers.
    ///
    /// # Errors
    ///
    /// The socket has failed.
    pub(crate) fn new(
        presence: Arc<Presence>,
        counters: Arc<Counters>,
        patience: Patience,
    ) -> io::Result<Socket> {
        let stream = &presence.stream;
        stream.set_nodelay(true)?;
        stream.set_read_timeout(Some(Duration::from_secs(patience.record)))?;
        stream.set_write_timeout(Some(Duration::from_secs(patience.answers)))?;
        Ok(Socket {
            presence,
            counters,
            read_wait: patience.record,
            write_wait: patience.answers,
        })
    }
}

/// Which bytes come and go over a socket no clause knows.
impl Peer for Socket {
    ghost unread = { λ _. None };

    ghost written = { λ _. None };

    fn read(
        &mut self,
        since: Instant,
        seconds: u64,
        buffer: &mut [u8],
    ) -> io::Result<Option<usize>> {
        if seconds != self.read_wait {
            let wait = Duration::from_secs(seconds);
            self.presence.stream.set_read_timeout(Some(wait))?;
            self.read_wait = seconds;
        }
        self.presence.rest(since)?;
        let read = read_some(&self.presence.stream, buffer);
        self.presence.wake()?;
        match read {
            Ok(count) => {
                self.counters.add(CountedEvent::BytesRead, count as u64);
                Ok(Some(count))
            }
            Err(error) if error.kind() == ErrorKind::WouldBlock => Ok(None),
            Err(error) => Err(error),
        }
    }

    fn write(&mut self, seconds: u64, bytes: &[u8]) -> io::Result<usize> {
        if seconds != self.write_wait {
            let wait = Duration::from_secs(seconds);
            self.presence.stream.set_write_timeout(Some(wait))?;
            self.write_wait = seconds;
        }
        let count = write_some(&self.presence.stream, bytes)?;
        if count == 0 && !bytes.is_empty() {
            return Err(io::Error::from(ErrorKind::WriteZero));
        }
        self.counters.add(CountedEvent::BytesWritten, count as u64);
        Ok(count)
    }
}

/// A connection with a peer, which is waited for so long.
#[derive(Drop)]
pub(crate) struct PeerLink<P> {
    pub(crate) peer: P,
    /// The peer's host.
    pub(crate) host: Host,
    pub(crate) patience: Patience,
    /// Until when the answers that are sent have to be taken.
    pub(crate) deadline: Deadline,
    /// Who may have an answer of any size made.
    pub(crate) listings: Arc<Listings>,
}

impl<P: Peer> PeerLink<P> {
    /// Sends the answers that wait. Then none waits, also where that failed: a beginning of them is sent then.
    ///
    /// # Errors
    ///
    /// The connection failed, or the peer did not take all of them in time.
    pub(crate) fn send<R: Clock>(
        &mut self,
        rt: &R,
        connection: &mut Connection,
    ) -> Result<(), Closed>
        ensures sent { SendsAll connection.old connection.new }
        ensures ok { OnOk result
            (Appends (P.written self.old.peer) (P.written self.new.peer) (waiting connection.old)) }
        ensures part { OnErr result
            (WritesPart (P.written self.old.peer) (P.written self.new.peer) (waiting connection.old)) }
        ensures unread { P.unread self.new.peer ≡ P.unread self.old.peer }
        ensures host { self.new.host ≡ self.old.host }
    {
        let written = self.write(rt, connection);
        connection.sent();
        match written {
            Ok(()) => Ok(()),
            Err(error) => Err(Closed::from(error)),
        }
    }

    /// Writes the answers that wait.
    fn write<R: Clock>(&mut self, rt: &R, connection: &Connection) -> io::Result<()>
        ensures ok { OnOk result
            (Appends (P.written self.old.peer) (P.written self.new.peer) (waiting connection.now)) }
        ensures part { OnErr result
            (WritesPart (P.written self.old.peer) (P.written self.new.peer) (waiting connection.now)) }
        ensures unread { P.unread self.new.peer ≡ P.unread self.old.peer }
        ensures host { self.new.host ≡ self.old.host }
    {
        let begun = Instant::now(rt)?;
        self.deadline = Deadline::new(begun, self.patience.answers);
        self.write_within(rt, connection.gathered())?;
        self.write_within(rt, connection.last())
    }

    /// Writes bytes of answers until the deadline.
    fn write_within<R: Clock>(&mut self, rt: &R, bytes: &[u8]) -> io::Result<()>
        ensures ok { OnOk result (Appends (P.written self.old.peer) (P.written self.new.peer) bytes.now) }
        ensures part { OnErr result (WritesPart (P.written self.old.peer) (P.written self.new.peer) bytes.now) }
        ensures unread { P.unread self.new.peer ≡ P.unread self.old.peer }
        ensures host { self.new.host ≡ self.old.host }
        ensures deadline { self.new.deadline ≡ self.old.deadline }
    {
        let mut rest = bytes;
        'parts: while !rest.is_empty() {
            let count = self.write_part(rt, rest)?;
            let (_, left) = rest.split_at(count);
            rest = left;
        }
        Ok(())
    }

    /// Writes what is taken of bytes of answers until the deadline.
    fn write_part<R: Clock>(&mut self, rt: &R, bytes: &[u8]) -> io::Result<usize>
        ensures count { WritesAtMost result bytes.now }
        ensures some { IfOk result (λ count. 0 < length bytes.now → 0 < count) }
        ensures bytes { WriteAppends (P.written self.old.peer) (P.written self.new.peer) result bytes.now }
        ensures unread { P.unread self.new.peer ≡ P.unread self.old.peer }
        ensures host { self.new.host ≡ self.old.host }
        ensures deadline { self.new.deadline ≡ self.old.deadline }
    {
        let now = Instant::now(rt)?;
        let Some(seconds) = self.deadline.left(now) else {
            return Err(io::Error::from(ErrorKind::TimedOut));
        };
        self.peer.write(seconds, bytes)
    }
}

/// Reads what has come over a connection, or waits for it. A read that a signal interrupted is done again.
pub(crate) fn read_some(stream: &TcpStream, buffer: &mut [u8]) -> io::Result<usize>
    ensures { ReadsAtMost result buffer.new }
{
    let mut stream = stream;
    for _ in 0..TRIES {
        match stream.read(buffer) {
            Err(error) if error.kind() == ErrorKind::Interrupted => {}
            ended => return ended,
        }
    }
    Err(io::Error::from(ErrorKind::Interrupted))
}

/// Writes to a connection what is taken of bytes. A write that a signal interrupted is done again.
fn write_some(stream: &TcpStream, bytes: &[u8]) -> io::Result<usize>
    ensures { WritesAtMost result bytes.now }
{
    let mut stream = stream;
    for _ in 0..TRIES {
        match stream.write(bytes) {
            Err(error) if error.kind() == ErrorKind::Interrupted => {}
            ended => return ended,
        }
    }
    Err(io::Error::from(ErrorKind::Interrupted))
}
