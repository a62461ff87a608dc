//! Streams of bytes that count their failures.

ghost use Rattle.std.specs.Prelude.{◌≡◌, ◌<◌, ◌≤◌, ◌-◌, ◌^◌, ◌==◌, ◌&&◌};
ghost use Rattle.std.specs.Prelude.{ℕ, Bool, true, List, Option, IfOk, OnOk, OnErr, length};
ghost use Rattle.std.specs.Io.KnownBytes.{ReadConsumes, WriteAppends, Keeps};
ghost use Rattle.nfs_rpc.specs.Streams.{one_more};

use std::io::{Read, Write};

/// Why a stream did not go on: a call of it failed, or a write took nothing.
#[derive(Clone, Copy, Debug, PartialEq, Eq)]
pub struct StreamFailed;

/// What counts its failed calls; at 2^64 - 1 the count stays.
pub trait Counts {
    /// How many calls have failed so far.
    ghost failures: { Self → ℕ };

    /// How many calls have failed so far.
    fn failures(&self) -> u64
        ensures { result ≡ failures self.now };
}

/// Bytes that come in.
pub trait Source: Counts {
    /// The bytes that are left, where they are known.
    ghost unread: { Self → Option (List ℕ) };

    /// Reads some bytes into the front of the buffer and answers how many; none only at the end, or into no room.
    fn read(&mut self, buffer: &mut [u8]) -> Result<usize, StreamFailed>
        ensures bytes { ReadConsumes (unread self.old) (unread self.new) result buffer.new }
        ensures count { IfOk result (λ n. n ≤ length buffer.new) }
        ensures ok { OnOk result (Self.Counts.failures self.new ≡ Self.Counts.failures self.old) }
        ensures err { OnErr result (Self.Counts.failures self.new ≡ one_more (Self.Counts.failures self.old)) };
}

/// Bytes that go out.
pub trait Sink: Counts {
    /// The bytes that were written, where they are known.
    ghost written: { Self → Option (List ℕ) };

    /// Whether all that was written is sent on.
    ghost all_sent: { Self → Bool };

    /// Writes bytes from the front of the buffer and answers how many; none only of no bytes. They are not sent yet.
    fn write(&mut self, buffer: &[u8]) -> Result<usize, StreamFailed>
        ensures bytes { WriteAppends (written self.old) (written self.new) result buffer.now }
        ensures count { IfOk result (λ n. n ≤ length buffer.now) }
        ensures some { IfOk result (λ n. 0 < length buffer.now → 0 < n) }
        ensures unsent { IfOk result (λ n. all_sent self.new ≡ (all_sent self.old && (n == 0))) }
        ensures kept { OnErr result (all_sent self.new ≡ all_sent self.old) }
        ensures ok { OnOk result (Self.Counts.failures self.new ≡ Self.Counts.failures self.old) }
        ensures err { OnErr result (Self.Counts.failures self.new ≡ one_more (Self.Counts.failures self.old)) };

    /// Sends on what was written.
    fn flush(&mut self) -> Result<(), StreamFailed>
        ensures bytes { Keeps (written self.old) (written self.new) }
        ensures sent { OnOk result (all_sent self.new ≡ true) }
        ensures kept { OnErr result (all_sent self.new ≡ all_sent self.old) }
        ensures ok { OnOk result (Self.Counts.failures self.new ≡ Self.Counts.failures self.old) }
        ensures err { OnErr result (Self.Counts.failures self.new ≡ one_more (Self.Counts.failures self.old)) };
}

/// A reader or a writer, with the count of its failed calls.
///
/// A call that was interrupted has failed like any other, and so has a write that took none of some bytes. Each call
/// makes one call of the stream, and a failed one is not made again: that no clause says, since a failed call leaves no
/// trace in the bytes that are known.
#[derive(Drop)]
pub struct Counted<S> {
    stream: S,
    failures: u64,
    all_sent: bool,
}

impl<S> Counted<S> {
    /// Of this stream no call has failed.
    pub fn new(stream: S) -> Self
        ensures stream { result.stream ≡ stream }
        ensures failures { result.failures ≡ 0 }
        ensures sent { result.all_sent ≡ true }
    {
        Counted {
            stream,
            failures: 0,
            all_sent: true,
        }
    }

    /// The stream.
    pub fn into_inner(self) -> S
        ensures { result ≡ self.stream }
    {
        let Counted {
            stream,
            failures: _,
            all_sent: _,
        } = self;
        stream
    }

    /// One more call has failed.
    fn fail(&mut self) -> StreamFailed
        ensures stream { self.new.stream ≡ self.old.stream }
        ensures failures { self.new.failures ≡ one_more self.old.failures }
        ensures sent { self.new.all_sent ≡ self.old.all_sent }
    {
        self.failures = self.failures.saturating_add(1);
        StreamFailed
    }
}

impl<S> Counts for Counted<S> {
    ghost failures = { λ c. c.failures };

    fn failures(&self) -> u64 {
        self.failures
    }
}

impl<R: Read> Source for Counted<R> {
    ghost unread = { λ c. R.remaining c.stream };

    fn read(&mut self, buffer: &mut [u8]) -> Result<usize, StreamFailed> {
        match self.stream.read(buffer) {
            Ok(count) => Ok(count),
            Err(_) => Err(self.fail()),
        }
    }
}

impl<W: Write> Sink for Counted<W> {
    ghost written = { λ c. W.contents c.stream };

    ghost all_sent = { λ c. c.all_sent };

    fn write(&mut self, buffer: &[u8]) -> Result<usize, StreamFailed> {
        match self.stream.write(buffer) {
            Ok(0) if !buffer.is_empty() => Err(self.fail()),
            Ok(count) => {
                self.all_sent = self.all_sent && count == 0;
                Ok(count)
            }
            Err(_) => Err(self.fail()),
        }
    }

    fn flush(&mut self) -> Result<(), StreamFailed> {
        match self.stream.flush() {
            Ok(()) => {
                self.all_sent = true;
                Ok(())
            }
            Err(_) => Err(self.fail()),
        }
    }
}
