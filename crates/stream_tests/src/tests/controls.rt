//! What an operator's lines are answered, and which exports are handed in.

use super::readers_and_writers::{Choppy, Course, Failing, Pace, Trouble, WRITES_ALL};
use super::*;
use nfs_rpc::stream::Counts;
use nfs_server::{Applied, ControlEnd, control};

/// What became of some lines: what was written, and how many bytes it were at each flush; how many exports each list
/// had that was handed in; how many reads and writes failed; and what ended it.
#[derive(Drop)]
struct Told {
    written: Vec<u8>,
    flushes: Vec<usize>,
    lists: Vec<usize>,
    failures: (u64, u64),
    ended: ControlEnd,
}

impl Told {
    fn is(&self, answers: &[u8], lists: &[usize], failures: (u64, u64)) -> bool {
        self.written.as_slice() == answers
            && self.lists.as_slice() == lists
            && self.failures == failures
    }
}

/// Lines come in these pieces, of which so many reads are good, and the writer goes so. What is handed in is answered
/// so. `/data` stands at first.
fn tell(
    alloc: Global,
    [first, second, third]: [&[u8]; 3],
    good: u64,
    course: Course,
    applied: Applied,
) -> Result<Told, AllocError> {
    let mut lists = Vec::new(alloc);
    let mut reader = Counted::new(Failing {
        reader: first.chain(second).chain(third),
        pace: Pace {
            good,
            most: usize::MAX,
        },
    });
    let mut writer = Counted::new(Choppy {
        written: Vec::new(alloc),
        flushes: Vec::new(alloc),
        course,
    });
    let standing = exports(alloc)?;
    let ended = control(
        alloc,
        standing,
        &mut reader,
        &mut writer,
        |exports| match lists.push(exports.list().len()) {
            Ok(()) => applied,
            Err(_) => Applied::Refused,
        },
    );
    let failures = (reader.failures(), writer.failures());
    let Choppy {
        written,
        flushes,
        ..
    } = writer.into_inner();
    Ok(Told {
        written,
        flushes,
        lists,
        failures,
        ended,
    })
}

/// Lines that come in one piece are answered so, and lists of so many exports are handed in.
fn is_answered(
    alloc: Global,
    lines: &[u8],
    answers: &[u8],
    lists: &[usize],
) -> Result<bool, AllocError> {
    let told = tell(
        alloc,
        [lines, &[], &[]],
        u64::MAX,
        WRITES_ALL,
        Applied::Executed,
    )?;
    Ok(told.is(answers, lists, (0, 0)))
}

/// A list that is handed in is empty then, and `apply` hands an empty one in too.
#[test]
fn lists_are_handed_in(rt: HostRuntime) -> Result<(), Fail> {
    let rows: [(&[u8], &[u8], &[usize]); 5] = [
        (b"", b"", &[]),
        (b"add /data,rw,*\n", b"", &[]),
        (b"apply\n", b"applied\n", &[0]),
        (b"add /data,rw,*\napply\n", b"applied\n", &[1]),
        (
            b"add /data,rw,*\nadd /new,ro,10.0.0.1,10.0.0.2\napply\napply\n",
            b"applied\napplied\n",
            &[2, 0],
        ),
    ];
    for (lines, answers, lists) in rows {
        assert!(rt; is_answered(rt.alloc(), lines, answers, lists)?);
    }
    Ok(())
}

/// A list that is refused is empty then.
#[test]
fn lists_are_refused(rt: HostRuntime) -> Result<(), Fail> {
    let rows: [(&[u8], &[u8]); 7] = [
        (b"add \n", b"refused: export 1: bad path\n"),
        (b"add data,rw,*\n", b"refused: export 1: bad path\n"),
        (b"add /data\n", b"refused: export 1: bad mode\n"),
        (b"add /data,rx,*\n", b"refused: export 1: bad mode\n"),
        (b"add /data,rw\n", b"refused: export 1: no host\n"),
        (
            b"add /data,rw,*\nadd /new,rw,\n",
            b"refused: export 2: no host\n",
        ),
        (
            b"add /data,rw,*\nadd /data,ro,*\n",
            b"refused: export 2: double path\n",
        ),
    ];
    for (lines, answer) in rows {
        let alloc = rt.alloc();
        let (mut input, mut answers) = (
            Vec::from_slice(alloc, lines)?,
            Vec::from_slice(alloc, answer)?,
        );
        input.extend_from_slice(b"apply\napply\n")?;
        answers.extend_from_slice(b"applied\n")?;
        assert!(rt; is_answered(alloc, &input, &answers, &[0])?);
    }
    Ok(())
}

/// So many lines `add /N,rw,*`, and `apply`.
fn many(alloc: Global, count: u32) -> Result<String, AllocError> {
    let mut lines = String::new(alloc);
    for number in 0..count {
        writeln!(lines, "add /{number},rw,*")?;
    }
    lines.push_str("apply\n")?;
    Ok(lines)
}

#[test]
fn a_list_has_64_exports_at_most(rt: HostRuntime) -> Result<(), Fail> {
    let alloc = rt.alloc();
    let (most, more) = (many(alloc, 64)?, many(alloc, 65)?);
    assert!(rt; is_answered(alloc, most.as_bytes(), b"applied\n", &[64])?);
    assert!(rt; is_answered(alloc, more.as_bytes(), b"refused: too many exports\n", &[])?);
    Ok(())
}

/// A command is a whole line, and nothing else.
#[test]
fn other_lines_are_unknown(rt: HostRuntime) -> Result<(), Fail> {
    let rows: [&[u8]; 12] = [
        b"\n",
        b"add\n",
        b"check \n",
        b"checks\n",
        b"End\n",
        b" end\n",
        b"apply \n",
        b"apply\r\n",
        b" apply\n",
        b"Apply\n",
        b"add\t/data,rw,*\n",
        b"remove /data\n",
    ];
    for line in rows {
        assert!(rt; is_answered(rt.alloc(), line, b"unknown command\n", &[])?);
    }
    Ok(())
}

/// What `apply` would do is told, and the list stays. `/data` stands at first; once a list is handed in what it has
/// does. A mode and hosts change no path.
#[test]
fn changes_are_told(rt: HostRuntime) -> Result<(), Fail> {
    let rows: [(&[u8], &[u8], &[usize]); 9] = [
        (b"check\n", b"keeps 0, drops /data\n", &[]),
        (b"add /data,rw,*\ncheck\n", b"keeps 1\n", &[]),
        (b"add /data,ro,10.0.0.1\ncheck\n", b"keeps 1\n", &[]),
        (
            b"add /new,rw,*\ncheck\n",
            b"keeps 0, drops /data, adds /new\n",
            &[],
        ),
        (
            b"add /new,rw,*\nadd /data,rw,*\nadd /,rw,*\ncheck\ncheck\n",
            b"keeps 1, adds /new, adds /\nkeeps 1, adds /new, adds /\n",
            &[],
        ),
        (
            b"add /new,rw,*\nadd /,rw,*\ncheck\napply\ncheck\n",
            b"keeps 0, drops /data, adds /new, adds /\napplied\nkeeps 0, drops /new, drops /\n",
            &[2],
        ),
        (
            b"apply\ncheck\nadd /data,rw,*\ncheck\n",
            b"applied\nkeeps 0\nkeeps 0, adds /data\n",
            &[0],
        ),
        (
            b"add /dat,rw,*\nadd /data/,rw,*\ncheck\n",
            b"refused: export 2: bad path\n",
            &[],
        ),
        (
            b"add data,rw,*\ncheck\napply\ncheck\n",
            b"refused: export 1: bad path\nrefused: export 1: bad path\nkeeps 0, drops /data\n",
            &[],
        ),
    ];
    for (lines, answers, lists) in rows {
        assert!(rt; is_answered(rt.alloc(), lines, answers, lists)?);
    }
    Ok(())
}

/// Exports that are refused as they are handed in don't stand.
#[test]
fn what_is_refused_does_not_stand(rt: HostRuntime) -> Result<(), Fail> {
    let told = tell(
        rt.alloc(),
        [b"add /new,rw,*\napply\ncheck\n", b"", b""],
        u64::MAX,
        WRITES_ALL,
        Applied::Refused,
    )?;
    let answers = b"refused: out of memory\nkeeps 0, drops /data\n";
    assert!(rt; told.is(answers, &[1], (0, 0)));
    Ok(())
}

/// The end is asked for by a line `end`, also by one that no newline ends. It is not answered, and no line behind it is
/// looked at.
#[test]
fn the_end_is_asked_for(rt: HostRuntime) -> Result<(), Fail> {
    let rows: [(&[u8], &[u8], &[usize], ControlEnd); 6] = [
        (b"end\n", b"", &[], ControlEnd::Asked),
        (b"end", b"", &[], ControlEnd::Asked),
        (
            b"apply\nend\napply\n",
            b"applied\n",
            &[0],
            ControlEnd::Asked,
        ),
        (b"add /data,rw,*\nend\nend\n", b"", &[], ControlEnd::Asked),
        (b"apply\n", b"applied\n", &[0], ControlEnd::Input),
        (b"ends\n", b"unknown command\n", &[], ControlEnd::Input),
    ];
    for (lines, answers, lists, ended) in rows {
        let alloc = rt.alloc();
        let told = tell(
            alloc,
            [lines, b"", b""],
            u64::MAX,
            WRITES_ALL,
            Applied::Executed,
        )?;
        assert!(rt; told.is(answers, lists, (0, 0)));
        assert_eq!(rt; told.ended, ended);
    }
    Ok(())
}

/// An unknown command leaves the list as it is.
#[test]
fn a_list_outlives_an_unknown_command(rt: HostRuntime) -> Result<(), Fail> {
    let lines = b"add /data,rw,*\nlist\napply\n";
    assert!(rt; is_answered(rt.alloc(), lines, b"unknown command\napplied\n", &[1])?);
    Ok(())
}

/// What no newline ends is a line at the end of the input.
#[test]
fn the_last_line_wants_no_newline(rt: HostRuntime) -> Result<(), Fail> {
    let alloc = rt.alloc();
    assert!(rt; is_answered(alloc, b"add /data,rw,*\napply", b"applied\n", &[1])?);
    assert!(rt; is_answered(alloc, b"apply\nadd /data,rw,*", b"applied\n", &[0])?);
    assert!(rt; is_answered(alloc, b"apply\n\n", b"applied\nunknown command\n", &[0])?);
    Ok(())
}

/// Whom exports are handed to refuses them, for want of memory: the list is empty then.
#[test]
fn exports_are_refused_by_whom_they_are_handed_to(rt: HostRuntime) -> Result<(), Fail> {
    let told = tell(
        rt.alloc(),
        [b"add /data,rw,*\napply\napply\n", b"", b""],
        u64::MAX,
        WRITES_ALL,
        Applied::Refused,
    )?;
    let answers = b"refused: out of memory\nrefused: out of memory\n";
    assert!(rt; told.is(answers, &[1, 0], (0, 0)));
    Ok(())
}

/// Lines that come in three pieces, the first two of so many bytes.
fn told_in_pieces(
    alloc: Global,
    lines: &[u8],
    first: usize,
    second: usize,
) -> Result<Told, AllocError> {
    let (first, others) = lines.split_at(lines.len().min(first));
    let (second, third) = others.split_at(others.len().min(second));
    tell(
        alloc,
        [first, second, third],
        u64::MAX,
        WRITES_ALL,
        Applied::Executed,
    )
}

/// Lines are answered alike however they are cut into pieces.
#[test]
fn lines_come_in_pieces(rt: HostRuntime) -> Result<(), Fail> {
    let lines = b"add /data,rw,*\nlist\napply\n";
    for first in 0..=lines.len() {
        for second in 0..=lines.len() - first {
            let told = told_in_pieces(rt.alloc(), lines, first, second)?;
            assert!(rt; told.is(b"unknown command\napplied\n", &[1], (0, 0)));
        }
    }
    Ok(())
}

/// Each answer is sent on when it is written, and silence is not.
#[test]
fn each_answer_is_sent_on(rt: HostRuntime) -> Result<(), Fail> {
    let lines = b"add /data,rw,*\nlist\napply\nadd /new,rw,*\n";
    let told = told_in_pieces(rt.alloc(), lines, lines.len(), 0)?;
    assert!(rt; told.flushes.as_slice() == [16, 24].as_slice());
    Ok(())
}

/// Three lines in three pieces, the last of which no newline ends: a read that fails is the end of the input, but what
/// no newline has ended is no line.
#[test]
fn reads_fail(rt: HostRuntime) -> Result<(), Fail> {
    let rows: [(u64, &[u8], &[usize], u64); 5] = [
        (0, b"", &[], 1),
        (1, b"", &[], 1),
        (2, b"applied\n", &[1], 1),
        (3, b"applied\n", &[1], 1),
        (4, b"applied\napplied\n", &[1, 0], 0),
    ];
    for (good, answers, lists, failures) in rows {
        let pieces: [&[u8]; 3] = [b"add /data,rw,*\n", b"apply\n", b"apply"];
        let told = tell(rt.alloc(), pieces, good, WRITES_ALL, Applied::Executed)?;
        assert!(rt; told.is(answers, lists, (failures, 0)), "{good} reads");
        let ended = if failures > 0 {
            ControlEnd::Read
        } else {
            ControlEnd::Input
        };
        assert_eq!(rt; told.ended, ended);
    }
    Ok(())
}

/// Two answers of 8 bytes each. A write that fails is the end: of the answers a beginning is written, and behind the
/// one that can't be written no line is looked at.
#[test]
fn writes_fail(rt: HostRuntime) -> Result<(), Fail> {
    use super::readers_and_writers::Trouble::*;
    let rows: [(u64, usize, Trouble, &[u8], &[usize], u64); 7] = [
        (0, usize::MAX, Fails, b"", &[1], 1),
        (0, usize::MAX, TakesNothing, b"", &[1], 1),
        (1, usize::MAX, Fails, b"applied\n", &[1, 0], 1),
        (1, 3, Fails, b"app", &[1], 1),
        (4, 3, Fails, b"applied\napp", &[1, 0], 1),
        (6, 3, Fails, b"applied\napplied\n", &[1, 0], 0),
        (u64::MAX, usize::MAX, IsNotFlushed(0), b"applied\n", &[1], 1),
    ];
    for (good, most, trouble, answers, lists, failures) in rows {
        let course = Course {
            good,
            most,
            trouble,
        };
        let pieces: [&[u8]; 3] = [b"add /data,rw,*\napply\napply\n", b"", b""];
        let told = tell(rt.alloc(), pieces, u64::MAX, course, Applied::Executed)?;
        assert!(rt;
            told.is(answers, lists, (0, failures)),
            "{good} writes of {most}"
        );
        let ended = if failures > 0 {
            ControlEnd::Write
        } else {
            ControlEnd::Input
        };
        assert_eq!(rt; told.ended, ended);
    }
    Ok(())
}

/// What these lines are answered, and how many exports the lists had that were handed in, as digits; room for the
/// answers is there before.
fn told_without_memory(alloc: Global, lines: &[u8]) -> Result<(Vec<u8>, u64), AllocError> {
    let room = match Vec::with_capacity(alloc, 512) {
        Ok(room) => room,
        Err(_) => Vec::with_capacity(alloc, 512)?,
    };
    let mut writer = Counted::new(room);
    let mut digits = 0u64;
    let standing = match exports(alloc) {
        Ok(standing) => standing,
        Err(_) => exports(alloc)?,
    };
    control(
        alloc,
        standing,
        &mut Counted::new(lines),
        &mut writer,
        |exports| {
            digits = digits
                .wrapping_mul(10)
                .wrapping_add(exports.list().len() as u64);
            Applied::Executed
        },
    );
    Ok((writer.into_inner(), digits))
}

/// This passes whichever one of its allocations is refused: the line that there is no memory for is answered so, and
/// the others as if it had not come; but where the line is there, a list that is not handed in is empty then.
#[test]
fn lines_are_refused_for_want_of_memory(rt: HostRuntime) -> Result<(), Fail> {
    let lines = b"add /data,rw,*\nadd /new,rw,*\napply\nadd data,rw,*\napply\napply\n";
    let rows: [(&[u8], u64); 8] = [
        (b"applied\nrefused: export 1: bad path\napplied\n", 20),
        (
            b"refused: out of memory\napplied\nrefused: export 1: bad path\napplied\n",
            10,
        ),
        (
            b"refused: out of memory\nrefused: export 1: bad path\napplied\n",
            0,
        ),
        (
            b"refused: out of memory\nrefused: export 3: bad path\napplied\n",
            0,
        ),
        (b"applied\nrefused: out of memory\napplied\napplied\n", 200),
        (b"applied\nrefused: out of memory\napplied\n", 20),
        (
            b"applied\nrefused: out of memory\nrefused: export 1: bad path\n",
            2,
        ),
        (
            b"applied\nrefused: export 1: bad path\nrefused: out of memory\n",
            2,
        ),
    ];
    let (written, digits) = told_without_memory(rt.alloc(), lines)?;
    let mut is_so = false;
    for (answers, wanted) in rows {
        is_so = is_so || (written.as_slice() == answers && digits == wanted);
    }
    assert!(rt; is_so);
    Ok(())
}
