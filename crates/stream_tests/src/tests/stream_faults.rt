//! Streams that come in pieces, or whose reads and writes fail, and what was written by then.

ghost use Rattle.nfs_schedule.specs.Worlds.{IsAtRest};

use super::readers_and_writers::{Choppy, Course, Failing, Pace, READS_ALL, Trouble, WRITES_ALL};
use super::*;
use nfs_rpc::stream::Counts;

/// What was written, and how many bytes it were at each flush; how serving ended, and how many reads and writes failed.
#[derive(Drop)]
pub(super) struct Ended {
    pub written: Vec<u8>,
    flushes: Vec<usize>,
    pub end: Result<Served, StreamFault>,
    pub failures: (u64, u64),
}

impl Ended {
    fn is(&self, words: &[u32], end: Result<Served, StreamFault>, failures: (u64, u64)) -> bool {
        is_spelled(&self.written, words) && self.end == end && self.failures == failures
    }
}

/// A new server is sent these pieces, and its reader and its writer go so.
fn served(
    alloc: Global,
    pieces: [&[u8]; 3],
    pace: Pace,
    course: Course,
) -> Result<Ended, AllocError> {
    let mut engine = opened(alloc)?;
    served_on(alloc, &mut engine, pieces, pace, course)
}

/// The same from the engine's state on.
pub(super) fn served_on(
    alloc: Global,
    engine: &mut Engine,
    pieces: [&[u8]; 3],
    pace: Pace,
    course: Course,
) -> Result<Ended, AllocError>
    requires { IsAtRest engine.old }
    ensures { IsAtRest engine.new }
{
    let [first, second, third] = pieces;
    let mut reader = Counted::new(Failing {
        reader: first.chain(second).chain(third),
        pace,
    });
    let mut writer = Counted::new(Choppy {
        written: Vec::new(alloc),
        flushes: Vec::new(alloc),
        course,
    });
    let end = serve(alloc, engine, &mut reader, &mut writer);
    let failures = (reader.failures(), writer.failures());
    let Choppy {
        written,
        flushes,
        ..
    } = writer.into_inner();
    Ok(Ended {
        written,
        flushes,
        end,
        failures,
    })
}

/// Two calls come in a piece each, and so many reads are good: a new server writes these words and ends so.
fn ends_after_reads(
    alloc: Global,
    good: u64,
    words: &[u32],
    end: Result<Served, StreamFault>,
    failures: u64,
) -> Result<bool, AllocError> {
    let (first, other) = (spelled(alloc, &NULL)?, spelled(alloc, &OTHER_NULL)?);
    let pieces = [first.as_slice(), other.as_slice(), &[]];
    let pace = Pace {
        good,
        most: usize::MAX,
    };
    let ended = served(alloc, pieces, pace, WRITES_ALL)?;
    Ok(ended.is(words, end, (failures, 0)))
}

#[test]
fn reads_fail(rt: HostRuntime) -> Result<(), Fail> {
    let failed = Err(StreamFault::Read);
    let rows: [(u64, &[u32], Result<Served, StreamFault>, u64); 4] = [
        (0, &[], failed, 1),
        (1, &NULL_REPLY, failed, 1),
        (2, &BOTH_REPLIES, failed, 1),
        (3, &BOTH_REPLIES, Ok(Served), 0),
    ];
    for (good, words, end, failures) in rows {
        assert!(rt;
            ends_after_reads(rt.alloc(), good, words, end, failures)?,
            "{good} reads"
        );
    }
    Ok(())
}

/// Two calls come in one piece, and the writer goes so: it has these words then, and the server ends so.
fn ends_after_writes(
    alloc: Global,
    course: Course,
    words: &[u32],
    end: Result<Served, StreamFault>,
    failures: u64,
) -> Result<bool, AllocError> {
    let input = spelled(alloc, &BOTH_NULLS)?;
    let ended = served(alloc, [input.as_slice(), &[], &[]], READS_ALL, course)?;
    Ok(ended.is(words, end, (0, failures)))
}

/// The first 28 bytes are the first answer. Five writes of 8 bytes take them and the first 12 of the second.
#[test]
fn writes_fail(rt: HostRuntime) -> Result<(), Fail> {
    use super::readers_and_writers::Trouble::*;
    let failed = Err(StreamFault::Write);
    let rows: [(
        u64,
        usize,
        Trouble,
        &[u32],
        Result<Served, StreamFault>,
        u64,
    ); 6] = [
        (0, usize::MAX, Fails, &[], failed, 1),
        (1, 28, Fails, &NULL_REPLY, failed, 1),
        (1, 28, TakesNothing, &NULL_REPLY, failed, 1),
        (5, 8, Fails, &BOTH_REPLIES[..10], failed, 1),
        (56, 1, Fails, &BOTH_REPLIES, Ok(Served), 0),
        (
            u64::MAX,
            usize::MAX,
            IsNotFlushed(0),
            &BOTH_REPLIES,
            failed,
            1,
        ),
    ];
    for (good, most, trouble, words, end, failures) in rows {
        let course = Course {
            good,
            most,
            trouble,
        };
        let is_so = ends_after_writes(rt.alloc(), course, words, end, failures)?;
        assert!(rt; is_so, "{good} writes of {most}");
    }
    Ok(())
}

/// Whether one call in three pieces, the first two of so many bytes, is answered.
fn is_answered_in_pieces(alloc: Global, first: usize, second: usize) -> Result<bool, AllocError> {
    let call = spelled(alloc, &NULL)?;
    let (first, others) = call.split_at(call.len().min(first));
    let (second, third) = others.split_at(others.len().min(second));
    let ended = served(alloc, [first, second, third], READS_ALL, WRITES_ALL)?;
    Ok(ended.is(&NULL_REPLY, Ok(Served), (0, 0)))
}

#[test]
fn a_record_in_three_pieces(rt: HostRuntime) -> Result<(), Fail> {
    assert!(rt; is_answered_in_pieces(rt.alloc(), 3, 10)?);
    Ok(())
}

/// Whether a new server has written so many bytes each time when it sends on what it wrote.
fn sends_on(
    alloc: Global,
    first: &[u32],
    second: &[u32],
    wanted: &[usize],
) -> Result<bool, AllocError> {
    let (first, second) = (spelled(alloc, first)?, spelled(alloc, second)?);
    let pieces = [first.as_slice(), second.as_slice(), &[]];
    let ended = served(alloc, pieces, READS_ALL, WRITES_ALL)?;
    Ok(ended.end == Ok(Served) && ended.flushes.as_slice() == wanted)
}

/// The answers to two calls in one piece leave together, and those to two calls in a piece each before the next piece.
#[test]
fn answers_of_one_piece_leave_together(rt: HostRuntime) -> Result<(), Fail> {
    assert!(rt; sends_on(rt.alloc(), &BOTH_NULLS, &[], &[56])?);
    assert!(rt; sends_on(rt.alloc(), &NULL, &OTHER_NULL, &[28, 56])?);
    Ok(())
}

/// Whether a new server writes these words for this input, and ends so.
fn ends_so(
    alloc: Global,
    input: &[u8],
    words: &[u32],
    wanted: Result<Served, StreamFault>,
) -> Result<bool, AllocError> {
    let (written, end) = answers(alloc, input)?;
    Ok(end == wanted && is_spelled(&written, words))
}

/// Whether a record with this mark ends the stream, alone and behind a call, whole and byte by byte.
fn is_too_large(alloc: Global, mark: u32) -> Result<bool, AllocError> {
    let (alone, second) = (spelled(alloc, &[mark])?, both(alloc, &NULL, &[mark])?);
    let too_large = Err(StreamFault::TooLarge);
    for most in [1, usize::MAX] {
        let pace = Pace {
            good: u64::MAX,
            most,
        };
        let first = served(alloc, [alone.as_slice(), &[], &[]], pace, WRITES_ALL)?;
        let other = served(alloc, [second.as_slice(), &[], &[]], pace, WRITES_ALL)?;
        if !first.is(&[], too_large, (0, 0)) || !other.is(&NULL_REPLY, too_large, (0, 0)) {
            return Ok(false);
        }
    }
    Ok(true)
}

/// A header of one byte too many, and the greatest of a last fragment and of another.
#[test]
fn a_record_is_too_large(rt: HostRuntime) -> Result<(), Fail> {
    for mark in [0x80012001, 0x7fffffff, 0xffffffff] {
        assert!(rt; is_too_large(rt.alloc(), mark)?, "{mark}");
    }
    Ok(())
}

#[test]
fn a_record_is_cut(rt: HostRuntime) -> Result<(), Fail> {
    let call = spelled(rt.alloc(), &NULL)?;
    assert!(rt; ends_so(rt.alloc(), &call[..call.len().min(43)], &[], Ok(Served))?);
    Ok(())
}
