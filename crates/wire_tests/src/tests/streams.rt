//! Streams that count their failures: a call that fails once is one failure, and is not made again.

use nfs_rpc::stream::{Counted, Counts, Sink, Source, StreamFailed};
use std::alloc::Global;
use std::io::{self, Read, Write};

/// A stream of bytes of which the first call fails, and that notes how often it was called.
#[derive(Drop)]
struct FailsOnce {
    bytes: Vec<u8>,
    calls: u32,
}

impl FailsOnce {
    fn new(alloc: Global) -> FailsOnce {
        FailsOnce {
            bytes: Vec::new(alloc),
            calls: 0,
        }
    }

    /// Notes a call; the first one fails.
    fn call(&mut self) -> io::Result<()> {
        self.calls = self.calls.saturating_add(1);
        if self.calls == 1 {
            return Err(io::Error::from(io::ErrorKind::Interrupted));
        }
        Ok(())
    }
}

impl Write for FailsOnce {
    fn write(&mut self, buffer: &[u8]) -> io::Result<usize> {
        self.call()?;
        match self.bytes.extend_from_slice(buffer) {
            Ok(()) => Ok(buffer.len()),
            Err(_) => Err(io::Error::from(io::ErrorKind::OutOfMemory)),
        }
    }

    fn flush(&mut self) -> io::Result<()> {
        self.call()
    }
}

impl Read for FailsOnce {
    fn read(&mut self, buffer: &mut [u8]) -> io::Result<usize> {
        self.call()?;
        match buffer.first_mut() {
            Some(first) => {
                *first = 7;
                Ok(1)
            }
            None => Ok(0),
        }
    }
}

/// Whether a write is answered so, and one failure is counted then.
fn writes(
    writer: &mut Counted<FailsOnce>,
    bytes: &[u8],
    answer: Result<usize, StreamFailed>,
) -> bool {
    writer.write(bytes) == answer && writer.failures() == 1
}

#[test]
fn a_write_that_failed_is_not_made_again(rt: HostRuntime) {
    let mut writer = Counted::new(FailsOnce::new(rt.alloc()));
    assert!(rt; writes(&mut writer, &[1, 2, 3], Err(StreamFailed)));
    assert!(rt; writes(&mut writer, &[4, 5], Ok(2)));
    let stream = writer.into_inner();
    assert!(rt; stream.calls == 2);
    assert!(rt; stream.bytes.as_slice() == [4, 5].as_slice());
}

/// Whether a flush is answered so, and one failure is counted then.
fn flushes(writer: &mut Counted<FailsOnce>, answer: Result<(), StreamFailed>) -> bool {
    writer.flush() == answer && writer.failures() == 1
}

#[test]
fn a_flush_that_failed_is_not_made_again(rt: HostRuntime) {
    let mut writer = Counted::new(FailsOnce::new(rt.alloc()));
    assert!(rt; flushes(&mut writer, Err(StreamFailed)));
    assert!(rt; flushes(&mut writer, Ok(())));
    assert!(rt; writer.into_inner().calls == 2);
}

/// Whether a read is answered so, this is in the buffer then, and one failure is counted.
fn reads(
    reader: &mut Counted<FailsOnce>,
    buffer: &mut [u8; 2],
    answer: Result<usize, StreamFailed>,
    wanted: [u8; 2],
) -> bool {
    reader.read(buffer) == answer && reader.failures() == 1 && *buffer == wanted
}

#[test]
fn a_read_that_failed_is_not_made_again(rt: HostRuntime) {
    let mut reader = Counted::new(FailsOnce::new(rt.alloc()));
    let mut buffer = [0; 2];
    assert!(rt; reads(&mut reader, &mut buffer, Err(StreamFailed), [0, 0]));
    assert!(rt; reads(&mut reader, &mut buffer, Ok(1), [7, 0]));
    assert!(rt; reader.into_inner().calls == 2);
}
