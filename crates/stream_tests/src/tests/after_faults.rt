//! Streams of calls that change something, whose reads, writes or flushes fail, each in turn: what was written by then,
//! and what the next stream on the same engine shows.

ghost use Rattle.nfs_schedule.specs.Worlds.{IsAtRest};

use super::readers_and_writers::{Course, Pace, READS_ALL, Trouble, WRITES_ALL};
use super::stream_faults::{Ended, served_on};
use super::*;

/// MKDIR of `d` in the root (RFC 1813, 3.3.9).
const MKDIR: [u32; 28] = [
    0x8000006c, 9, 0, 2, 100003, 3, 9, 0, 0, 0, 0, 32, 0x4e464433, 1, 0, 7, 0, 1, 0, 1, 1,
    0x64000000, 0, 0, 0, 0, 0, 0,
];

/// OK: the second new object, a directory, and the root behind its second change, with one link more.
const MKDIR_REPLY: [u32; 69] = [
    0x80000110, 9, 1, 0, 0, 0, 0, 0, 1, 32, 0x4e464433, 1, 0, 7, 0, 33, 0, 3, 1, 2, 0o755, 2,
    65534, 65534, 0, 0x1000, 0, 0x1000, 0, 0, 0, 1, 0, 33, 1000, 0, 1000, 0, 1000, 0, 1, 0, 0x1000,
    1000, 1, 1000, 1, 1, 2, 0o777, 3, 0, 0, 0, 0x1000, 0, 0x1000, 0, 0, 0, 1, 0, 1, 1000, 0, 1000,
    2, 1000, 2,
];

/// WRITE of `abc` at the beginning of `x`, FILE_SYNC (RFC 1813, 3.3.7).
const WRITE: [u32; 26] = [
    0x80000064, 10, 0, 2, 100003, 3, 7, 0, 0, 0, 0, 32, 0x4e464433, 1, 0, 7, 0, 17, 0, 2, 0, 0, 3,
    2, 3, 0x61626300,
];

/// OK: the file before and behind its first change, and its three bytes.
const WRITE_REPLY: [u32; 41] = [
    0x800000a0, 10, 1, 0, 0, 0, 0, 0, 1, 0, 0, 1000, 0, 1000, 0, 1, 1, 0o644, 1, 65534, 65534, 0,
    3, 0, 0x1000, 0, 0, 0, 1, 0, 17, 1000, 0, 1000, 1, 1000, 1, 3, 2, 0, 7,
];

/// READ of the first 100 bytes of `x` (RFC 1813, 3.3.6).
const READ: [u32; 23] = [
    0x80000058, 11, 0, 2, 100003, 3, 6, 0, 0, 0, 0, 32, 0x4e464433, 1, 0, 7, 0, 17, 0, 2, 0, 0, 100,
];

/// STALE.
const NO_FILE: [u32; 9] = [0x80000020, 11, 1, 0, 0, 0, 0, 70, 0];

/// OK: the file as it was made, and no byte.
const NEW_FILE: [u32; 33] = [
    0x80000080, 11, 1, 0, 0, 0, 0, 0, 1, 1, 0o644, 1, 65534, 65534, 0, 0, 0, 0, 0, 0, 0, 1, 0, 17,
    1000, 0, 1000, 0, 1000, 0, 0, 1, 0,
];

/// OK: the file as it was written, and its three bytes.
const WRITTEN_FILE: [u32; 34] = [
    0x80000084, 11, 1, 0, 0, 0, 0, 0, 1, 1, 0o644, 1, 65534, 65534, 0, 3, 0, 0x1000, 0, 0, 0, 1, 0,
    17, 1000, 0, 1000, 1, 1000, 1, 3, 1, 3, 0x61626300,
];

/// CREATE, MKDIR and WRITE, the replies to them one behind the other, and what the next stream asks.
#[derive(Drop)]
struct Script {
    create: Vec<u8>,
    mkdir: Vec<u8>,
    write: Vec<u8>,
    replies: Vec<u8>,
    questions: Vec<u8>,
}

fn make_script(alloc: Global) -> Result<Script, AllocError> {
    Ok(Script {
        create: spelled(alloc, &CREATE)?,
        mkdir: spelled(alloc, &MKDIR)?,
        write: spelled(alloc, &WRITE)?,
        replies: replies(alloc)?,
        questions: both(alloc, &GETATTR, &READ)?,
    })
}

fn replies(alloc: Global) -> Result<Vec<u8>, AllocError> {
    let mut bytes = both(alloc, &CREATE_REPLY, &MKDIR_REPLY)?;
    bytes.extend_from_slice(&spelled(alloc, &WRITE_REPLY)?)?;
    Ok(bytes)
}

/// Where the three calls end, and where the replies to them do.
const CALLS: [usize; 3] = [116, 228, 332];

const REPLIES: [usize; 3] = [276, 552, 716];

/// How many of these ends come before this place, or are there.
fn ends_by(ends: &[usize; 3], place: usize) -> usize {
    ends.iter().filter(|end| **end <= place).count()
}

/// How a stream has to go: how it ends, how many reads and writes fail, how many bytes of the replies are written, and
/// how many of the three calls are done.
#[derive(Clone, Copy)]
struct Wanted {
    end: Result<Served, StreamFault>,
    failures: (u64, u64),
    written: usize,
    done: usize,
}

/// All is done, and answered.
const ALL: Wanted = Wanted {
    end: Ok(Served),
    failures: (0, 0),
    written: 716,
    done: 3,
};

/// A read fails behind so many calls.
fn unread(done: usize) -> Wanted {
    Wanted {
        end: Err(StreamFault::Read),
        failures: (1, 0),
        written: match done {
            0 => 0,
            1 => 276,
            2 => 552,
            _ => 716,
        },
        done,
    }
}

/// A write or a flush fails behind so many bytes. All answers are sent on before the next read, so that the call is
/// done whose reply is not written whole, and none behind it.
fn unwritten(written: usize, sent: usize) -> Wanted {
    Wanted {
        end: Err(StreamFault::Write),
        failures: (0, 1),
        written,
        done: sent.saturating_add(1).min(3),
    }
}

impl Wanted {
    fn is(&self, ended: &Ended, replies: &[u8]) -> bool {
        ended.end == self.end
            && ended.failures == self.failures
            && Some(ended.written.as_slice()) == replies.get(..self.written)
    }
}

/// What the next stream is answered where so many of the three calls are done.
fn shown(alloc: Global, done: usize) -> Result<Vec<u8>, AllocError> {
    let (links, changes, file): (u32, u32, &[u32]) = match done {
        0 => (2, 0, &NO_FILE),
        1 => (2, 1, &NEW_FILE),
        2 => (3, 2, &NEW_FILE),
        _ => (3, 2, &WRITTEN_FILE),
    };
    let mut root = GETATTR_REPLY;
    root[10] = links;
    root[26] = changes;
    root[28] = changes;
    both(alloc, &root, file)
}

/// Whether the next stream shows that so many of the three calls are done.
fn shows(
    alloc: Global,
    engine: &mut Engine,
    questions: &[u8],
    done: usize,
) -> Result<bool, AllocError>
    requires { IsAtRest engine.old }
{
    let expected = shown(alloc, done)?;
    let mut writer = Counted::new(Vec::new(alloc));
    let end = serve(alloc, engine, &mut Counted::new(questions), &mut writer);
    let written = writer.into_inner();
    Ok(end == Ok(Served) && written.as_slice() == expected.as_slice())
}

/// The three calls come in a piece each, and the reader and the writer go so: whether the stream goes as it has to, no
/// call is in progress then, and the next stream shows what is done.
fn goes_on(
    alloc: Global,
    engine: &mut Engine,
    script: &Script,
    pace: Pace,
    course: Course,
    wanted: Wanted,
) -> Result<bool, AllocError>
    requires { IsAtRest engine.old }
{
    let pieces = [
        script.create.as_slice(),
        script.mkdir.as_slice(),
        script.write.as_slice(),
    ];
    let ended = served_on(alloc, engine, pieces, pace, course)?;
    let is_so = wanted.is(&ended, &script.replies) && engine.living() == 0 && engine.locked() == 0;
    drop(ended);
    if !is_so {
        return Ok(false);
    }
    shows(alloc, engine, &script.questions, wanted.done)
}

/// The same from a new server.
fn goes(
    alloc: Global,
    script: &Script,
    pace: Pace,
    course: Course,
    wanted: Wanted,
) -> Result<bool, AllocError> {
    let mut engine = opened(alloc)?;
    let is_so = goes_on(alloc, &mut engine, script, pace, course, wanted);
    drop(engine);
    is_so
}

/// Each read fails in turn, of a piece or of a byte; the last finds the end.
#[test]
fn each_read_fails(rt: HostRuntime) -> Result<(), Fail> {
    let script = make_script(rt.alloc())?;
    for good in 0..5 {
        let pace = Pace {
            good: good as u64,
            most: usize::MAX,
        };
        let wanted = if good < 4 { unread(good.min(3)) } else { ALL };
        assert!(rt;
            goes(rt.alloc(), &script, pace, WRITES_ALL, wanted)?,
            "{good} reads"
        );
    }
    for good in 0..334 {
        let pace = Pace {
            good: good as u64,
            most: 1,
        };
        let wanted = if good < 333 {
            unread(ends_by(&CALLS, good))
        } else {
            ALL
        };
        assert!(rt;
            goes(rt.alloc(), &script, pace, WRITES_ALL, wanted)?,
            "{good} bytes"
        );
    }
    Ok(())
}

/// Each write of a byte fails in turn, or takes nothing.
#[test]
fn each_write_fails(rt: HostRuntime) -> Result<(), Fail> {
    let script = make_script(rt.alloc())?;
    for trouble in [Trouble::Fails, Trouble::TakesNothing] {
        for good in 0..717 {
            let course = Course {
                good: good as u64,
                most: 1,
                trouble,
            };
            let wanted = if good < 716 {
                unwritten(good, ends_by(&REPLIES, good))
            } else {
                ALL
            };
            assert!(rt;
                goes(rt.alloc(), &script, READS_ALL, course, wanted)?,
                "{good} bytes"
            );
        }
    }
    Ok(())
}

/// Each flush fails in turn: the answer of its piece is written.
#[test]
fn each_flush_fails(rt: HostRuntime) -> Result<(), Fail> {
    let script = make_script(rt.alloc())?;
    for (good, written) in [(0, 276), (1, 552), (2, 716)] {
        let course = Course {
            good: u64::MAX,
            most: usize::MAX,
            trouble: Trouble::IsNotFlushed(good),
        };
        let wanted = unwritten(written, good);
        assert!(rt;
            goes(rt.alloc(), &script, READS_ALL, course, wanted)?,
            "{good} flushes"
        );
    }
    let course = Course {
        good: u64::MAX,
        most: usize::MAX,
        trouble: Trouble::IsNotFlushed(3),
    };
    assert!(rt; goes(rt.alloc(), &script, READS_ALL, course, ALL)?);
    Ok(())
}
