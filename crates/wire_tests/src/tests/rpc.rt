//! Records, headers of calls and replies (RFC 5531, sections 8 to 11).

ghost use Rattle.std.specs.Prelude.{◌<◌};

use super::{bytes_of, joined, record};
use bytes::Bytes;
use nfs_rpc::{
    Early, Fault, Gids, Program, RecordError, Records, ReplyHead, finish_record, read_call,
    start_record, write_reply,
};
use std::alloc::Global;
use std::process::Abort;
use std::test::Fail;

/// NULL of NFS without a credential.
const NULL: [u8; 40] = [
    0, 0, 0, 1, 0, 0, 0, 0, 0, 0, 0, 2, 0, 1, 0x86, 0xa3, 0, 0, 0, 3, 0, 0, 0, 0, 0, 0, 0, 0, 0, 0,
    0, 0, 0, 0, 0, 0, 0, 0, 0, 0,
];

/// NULL with one byte, none, and 39 bytes in its three fragments; then in one fragment.
const TWO_NULLS: [u8; 96] = [
    0, 0, 0, 1, 0, 0, 0, 0, 0, 0x80, 0, 0, 0x27, 0, 0, 1, 0, 0, 0, 0, 0, 0, 0, 2, 0, 1, 0x86, 0xa3,
    0, 0, 0, 3, 0, 0, 0, 0, 0, 0, 0, 0, 0, 0, 0, 0, 0, 0, 0, 0, 0, 0, 0, 0, 0x80, 0, 0, 0x28, 0, 0,
    0, 1, 0, 0, 0, 0, 0, 0, 0, 2, 0, 1, 0x86, 0xa3, 0, 0, 0, 3, 0, 0, 0, 0, 0, 0, 0, 0, 0, 0, 0, 0,
    0, 0, 0, 0, 0, 0, 0, 0,
];

#[test]
fn a_call_is_read(rt: HostRuntime) -> Result<(), Fail> {
    let record = record(rt.alloc(), &NULL)?;
    let Ok(call) = read_call(&record) else {
        return Err(Fail::from("a call"));
    };
    assert!(rt; call.xid == 1);
    assert!(rt; call.program == Program::Nfs);
    assert!(rt; call.program.number() == 100003);
    assert!(rt; call.procedure == 0);
    assert!(rt; (call.ids.uid, call.ids.gid) == (65534, 65534));
    assert!(rt; call.ids.gids.is_empty());
    assert!(rt; call.arguments.is_empty());
    Ok(())
}

/// What a stream that came as one piece or byte by byte gives: these bytes as a record, so many times.
fn gives(records: &mut Records, bytes: &[u8], times: u32) -> bool {
    for _ in 0..times {
        match records.next() {
            Some(record) => {
                if record.as_slice() != bytes {
                    return false;
                }
            }
            None => return false,
        }
    }
    records.next().is_none()
}

#[test]
fn a_record_ends_with_its_last_fragment(rt: HostRuntime) -> Result<(), Fail> {
    let mut records = Records::new(rt.alloc());
    records.feed(&[0x80, 0, 0, 40])?;
    assert!(rt; gives(&mut records, &[], 0));
    records.feed(&NULL)?;
    assert!(rt; gives(&mut records, &NULL, 1));
    Ok(())
}

#[test]
fn fragments_are_joined(rt: HostRuntime) -> Result<(), Fail> {
    let mut records = Records::new(rt.alloc());
    records.feed(&TWO_NULLS)?;
    assert!(rt; gives(&mut records, &NULL, 2));
    Ok(())
}

#[test]
fn a_stream_may_come_byte_by_byte(rt: HostRuntime) -> Result<(), Fail> {
    let mut records = Records::new(rt.alloc());
    for byte in &TWO_NULLS {
        records.feed(&[*byte])?;
    }
    assert!(rt; gives(&mut records, &NULL, 2));
    Ok(())
}

#[test]
fn a_record_of_73728_bytes_is_given(rt: HostRuntime) -> Result<(), Fail> {
    let mut records = Records::new(rt.alloc());
    records.feed(&[0x80, 1, 0x20, 0])?;
    records.feed(&vec![in rt.alloc(); 7; 73728]?)?;
    let record = records.next().ok_or("a record")?;
    assert!(rt; record.len() == 73728);
    Ok(())
}

/// A record, then a header of 73,729 bytes: the record is given, and nothing is taken from then on.
#[test]
fn a_header_above_the_limit_is_refused(rt: HostRuntime) -> Result<(), Fail> {
    let mut records = Records::new(rt.alloc());
    let fed = records.feed(&[0x80, 0, 0, 4, 0, 0, 0, 5, 0x80, 1, 0x20, 1]);
    assert!(rt; fed == Err(RecordError::TooLarge));
    assert!(rt; gives(&mut records, &[0, 0, 0, 5], 1));
    assert!(rt; records.feed(&[0]) == Err(RecordError::TooLarge));
    Ok(())
}

/// A header of 2,147,483,647 bytes, whether the fragment is the last or not, whole and byte by byte.
#[test]
fn the_greatest_header_is_refused(rt: HostRuntime) -> Result<(), Fail> {
    for first in [0x7f, 0xff] {
        let mut whole = Records::new(rt.alloc());
        assert!(rt; whole.feed(&[first, 0xff, 0xff, 0xff]) == Err(RecordError::TooLarge));
        assert!(rt; gives(&mut whole, &[], 0));
        let mut bytewise = Records::new(rt.alloc());
        for byte in [first, 0xff, 0xff] {
            assert!(rt; bytewise.feed(&[byte]) == Ok(()));
        }
        assert!(rt; bytewise.feed(&[0xff]) == Err(RecordError::TooLarge));
        assert!(rt; gives(&mut bytewise, &[], 0));
    }
    Ok(())
}

/// 73,728 bytes in an earlier fragment, and one more in the next.
#[test]
fn fragments_above_the_limit_are_refused(rt: HostRuntime) -> Result<(), Fail> {
    let mut records = Records::new(rt.alloc());
    records.feed(&[0, 1, 0x20, 0])?;
    records.feed(&vec![in rt.alloc(); 7; 73728]?)?;
    records.feed(&[0, 0, 0])?;
    assert!(rt; records.feed(&[1]) == Err(RecordError::TooLarge));
    Ok(())
}

/// Feeds a piece, and once more where memory is refused.
fn feed_again(records: &mut Records, piece: &[u8]) -> Result<(), RecordError> {
    match records.feed(piece) {
        Err(RecordError::Memory) => records.feed(piece),
        fed => fed,
    }
}

/// Whichever allocation is refused, what was fed is fed again, and the records are the same.
#[test]
fn what_memory_was_refused_for_is_fed_again(rt: HostRuntime) -> Result<(), Fail> {
    let mut records = Records::new(rt.alloc());
    feed_again(&mut records, &[0x80, 0, 0, 2, 7, 8, 0, 0, 0, 1, 9])?;
    feed_again(&mut records, &[0x80, 0, 0, 1, 10, 0x80, 0, 0, 1, 11, 0x80])?;
    feed_again(&mut records, &[0, 0, 1, 12])?;
    let want: [&[u8]; 4] = [&[7, 8], &[9, 10], &[11], &[12]];
    for bytes in want {
        let record = records.next().ok_or("a record")?;
        assert!(rt; record.as_slice() == bytes);
    }
    Ok(())
}

/// A record of these words, with 4 as xid, is a call at this fault, or is dropped.
struct Ending(&'static [u32], Option<Fault>);

/// Whether the record ends early in that way.
fn ends_so(alloc: Global, ending: &Ending) -> Result<bool, Fail> {
    let record = Bytes::from_vec(bytes_of(alloc, ending.0, &[])?)?;
    let wanted = match ending.1 {
        Some(fault) => Early::Answer { xid: 4, fault },
        None => Early::Drop,
    };
    Ok(read_call(&record).err() == Some(wanted))
}

/// The records end early in that way.
fn end_so(rt: &(impl Abort + AllocGlobal), endings: &[Ending]) -> Result<(), Fail> {
    for ending in endings {
        assert!(rt; ends_so(rt.alloc(), ending)?, "{:?}", ending.0);
    }
    Ok(())
}

/// NFS and MOUNT are served in version 3 and NLM in version 4, and a version comes before a procedure.
#[test]
fn another_program_version_or_procedure_is_told(rt: HostRuntime) -> Result<(), Fail> {
    const IN_VERSION_3: Fault = Fault::ProgramMismatch { low: 3, high: 3 };
    const IN_VERSION_4: Fault = Fault::ProgramMismatch { low: 4, high: 4 };
    const NO_PROCEDURE: Option<Fault> = Some(Fault::ProcedureUnavailable);
    end_so(
        &rt,
        &[
            Ending(
                &[4, 0, 2, 100000, 3, 0, 0, 0, 0, 0],
                Some(Fault::ProgramUnavailable),
            ),
            Ending(&[4, 0, 2, 100003, 2, 0, 0, 0, 0, 0], Some(IN_VERSION_3)),
            Ending(&[4, 0, 2, 100005, 1, 0, 0, 0, 0, 0], Some(IN_VERSION_3)),
            Ending(&[4, 0, 2, 100021, 3, 0, 0, 0, 0, 0], Some(IN_VERSION_4)),
            Ending(&[4, 0, 2, 100003, 2, 99, 0, 0, 0, 0], Some(IN_VERSION_3)),
            Ending(&[4, 0, 2, 100003, 3, 22, 0, 0, 0, 0], NO_PROCEDURE),
            Ending(&[4, 0, 2, 100005, 3, 6, 0, 0, 0, 0], NO_PROCEDURE),
            Ending(&[4, 0, 2, 100021, 4, 24, 0, 0, 0, 0], NO_PROCEDURE),
        ],
    )
}

/// Another version of RPC whatever follows it, and where nothing does. A credential of another flavor also where
/// program and version are wrong too.
#[test]
fn denied_calls_are_told(rt: HostRuntime) -> Result<(), Fail> {
    end_so(
        &rt,
        &[
            Ending(
                &[4, 0, 3, 100000, 9, 99, 6, 0, 0, 0],
                Some(Fault::RpcMismatch),
            ),
            Ending(&[4, 0, 3], Some(Fault::RpcMismatch)),
            Ending(
                &[4, 0, 2, 100003, 3, 0, 6, 0, 0, 0],
                Some(Fault::BadCredential),
            ),
            Ending(
                &[4, 0, 2, 100000, 9, 99, 6, 0, 0, 0],
                Some(Fault::BadCredential),
            ),
            Ending(
                &[4, 0, 2, 100003, 3, 0, 2, 0, 0, 0],
                Some(Fault::BadCredential),
            ),
            Ending(
                &[4, 0, 2, 100003, 3, 0, 99, 0, 0, 0],
                Some(Fault::BadCredential),
            ),
            Ending(
                &[4, 0, 2, 100003, 3, 0, u32::MAX, 0, 0, 0],
                Some(Fault::BadCredential),
            ),
        ],
    )
}

/// A user's credential whose machine name, or whose list of groups, is longer than a record.
#[test]
fn a_credential_of_wrong_lengths_is_told(rt: HostRuntime) -> Result<(), Fail> {
    const BAD: Option<Fault> = Some(Fault::BadCredential);
    end_so(
        &rt,
        &[
            Ending(
                &[4, 0, 2, 100003, 3, 0, 1, 20, 0, u32::MAX, 0, 0, 0, 0, 0],
                BAD,
            ),
            Ending(
                &[4, 0, 2, 100003, 3, 0, 1, 20, 0, 0x8000_0000, 0, 0, 0, 0, 0],
                BAD,
            ),
            Ending(
                &[4, 0, 2, 100003, 3, 0, 1, 20, 0, 0xffff_fffd, 0, 0, 0, 0, 0],
                BAD,
            ),
            Ending(
                &[4, 0, 2, 100003, 3, 0, 1, 20, 0, 0, 0, 0, u32::MAX, 0, 0],
                BAD,
            ),
            Ending(
                &[4, 0, 2, 100003, 3, 0, 1, 20, 0, 0, 0, 0, 0x8000_0000, 0, 0],
                BAD,
            ),
            Ending(
                &[4, 0, 2, 100003, 3, 0, 1, 20, 0, 0, 0, 0, 0xffff_fffd, 0, 0],
                BAD,
            ),
        ],
    )
}

/// A credential's own length, of each flavor that is read, of another and of none that is, and a verifier's, is longer
/// than a record.
#[test]
fn credentials_that_do_not_end_are_dropped(rt: HostRuntime) -> Result<(), Fail> {
    end_so(
        &rt,
        &[
            Ending(&[4, 0, 2, 100003, 3, 0, 0, u32::MAX, 0, 0], None),
            Ending(&[4, 0, 2, 100003, 3, 0, 0, 0x8000_0000, 0, 0], None),
            Ending(&[4, 0, 2, 100003, 3, 0, 0, 0xffff_fffd, 0, 0], None),
            Ending(
                &[4, 0, 2, 100003, 3, 0, 1, u32::MAX, 0, 0, 0, 0, 0, 0, 0],
                None,
            ),
            Ending(
                &[4, 0, 2, 100003, 3, 0, 1, 0x8000_0000, 0, 0, 0, 0, 0, 0, 0],
                None,
            ),
            Ending(
                &[4, 0, 2, 100003, 3, 0, 1, 0xffff_fffd, 0, 0, 0, 0, 0, 0, 0],
                None,
            ),
            Ending(&[4, 0, 2, 100003, 3, 0, 6, u32::MAX, 0, 0], None),
            Ending(&[4, 0, 2, 100003, 3, 0, 0, 0, 0, u32::MAX], None),
            Ending(&[4, 0, 2, 100003, 3, 0, 0, 0, 0, 0x8000_0000], None),
            Ending(&[4, 0, 2, 100003, 3, 0, 0, 0, 0, 0xffff_fffd], None),
        ],
    )
}

/// What is cut, what is no call, and a credential and a verifier of 401 bytes.
#[test]
fn other_records_are_dropped(rt: HostRuntime) -> Result<(), Fail> {
    end_so(
        &rt,
        &[
            Ending(&[4, 0], None),
            Ending(&[4, 0, 2, 100003, 3, 0, 0, 0, 0], None),
            Ending(&[4, 1, 2, 100003, 3, 0, 0, 0, 0, 0], None),
            Ending(&[4, 1, 3], None),
            Ending(&[4, 2, 2, 100003, 3, 0, 0, 0, 0, 0], None),
            Ending(&[4, 99, 2, 100003, 3, 0, 0, 0, 0, 0], None),
            Ending(&[4, u32::MAX, 2, 100003, 3, 0, 0, 0, 0, 0], None),
            Ending(&[4, 0, 2, 100003, 3, 0, 6, 401, 0, 0], None),
            Ending(&[4, 0, 2, 100003, 3, 0, 6, 0, 0, 401], None),
        ],
    )
}

/// NULL of NFS by a user with so many further groups, with so many words behind them, and an argument of one word.
fn sys_call(alloc: Global, groups: u32, more: u32) -> Result<Bytes, Fail>
    requires { (groups < 100) × (more < 100) }
{
    let mut bytes = joined(
        alloc,
        &[5, 0, 2, 100003, 3, 0, 1, 4 * (7 + groups + more)],
        &[77, 5, 0x686f_7374, 0x3100_0000],
        &[1000, 100, groups],
    )?;
    for group in 0..groups {
        bytes.extend_from_slice(&(200 + group).to_be_bytes())?;
    }
    for _ in 0..more {
        bytes.extend_from_slice(&[0xff; 4])?;
    }
    bytes.extend_from_slice(&[0, 0, 0, 9, 0, 0, 0, 0, 0, 0, 0, 42])?;
    Ok(Bytes::from_vec(bytes)?)
}

/// Whether the record is that call, with so many further groups.
fn is_sys_call(record: &Bytes, groups: usize) -> bool {
    match read_call(record) {
        Ok(mut call) => {
            (call.ids.uid, call.ids.gid) == (1000, 100)
                && call.ids.gids.len() == groups
                && call.ids.gids.contains(202) == (groups > 2)
                && call.arguments.u32() == Ok(42)
                && call.arguments.is_empty()
        }
        Err(_) => false,
    }
}

/// Whether the call with so many further groups, and so many words behind them, is read.
fn is_read(alloc: Global, groups: u32, more: u32) -> Result<bool, Fail>
    requires { (groups < 100) × (more < 100) }
{
    let record = sys_call(alloc, groups, more)?;
    Ok(is_sys_call(&record, groups as usize))
}

/// Whether the call with so many further groups ends early in this way.
fn is_early(alloc: Global, groups: u32, early: Early) -> Result<bool, Fail>
    requires { groups < 100 }
{
    let record = sys_call(alloc, groups, 0)?;
    Ok(read_call(&record).err() == Some(early))
}

#[test]
fn a_user_has_at_most_16_groups(rt: HostRuntime) -> Result<(), Fail> {
    assert!(rt; is_read(rt.alloc(), 0, 0)?);
    assert!(rt; is_read(rt.alloc(), 3, 2)?);
    assert!(rt; is_read(rt.alloc(), 16, 0)?);
    let fault = Fault::BadCredential;
    assert!(rt; is_early(rt.alloc(), 17, Early::Answer { xid: 5, fault })?);
    Ok(())
}

/// A user's credential has at most 400 bytes.
#[test]
fn what_is_above_400_bytes_is_dropped(rt: HostRuntime) -> Result<(), Fail> {
    assert!(rt; is_early(rt.alloc(), 94, Early::Drop)?);
    Ok(())
}

#[test]
fn groups(rt: HostRuntime) {
    let mut some = Gids::new();
    let mut others = Gids::new();
    assert!(rt; some == others);
    some.push(10);
    some.push(20);
    others.push(10);
    assert!(rt; some != others);
    assert!(rt; some.contains(20));
    assert!(rt; !some.contains(0));
    let copy = some;
    assert!(rt; copy == some);
}

/// Whether the record of an answer to the call with 4 as xid is these words.
fn is_answered(alloc: Global, answer: ReplyHead, words: &[u32]) -> Result<bool, Fail> {
    let mut writer = start_record(alloc, 32)?;
    write_reply(&mut writer, 4, answer)?;
    if writer.len() < 4 || writer.len() > 1000 {
        return Ok(false);
    }
    let expected = bytes_of(alloc, words, &[])?;
    Ok(finish_record(writer).as_slice() == expected.as_slice())
}

/// The words of a record, and the answer of which they are written.
struct Answered(&'static [u32], ReplyHead);

/// The words are written of those answers.
fn are_answered(rt: &(impl Abort + AllocGlobal), rows: &[Answered]) -> Result<(), Fail> {
    for Answered(words, answer) in rows {
        assert!(rt; is_answered(rt.alloc(), *answer, words)?, "{words:?}");
    }
    Ok(())
}

#[test]
fn calls_are_answered(rt: HostRuntime) -> Result<(), Fail> {
    const MISMATCH: Fault = Fault::ProgramMismatch { low: 3, high: 4 };
    are_answered(
        &rt,
        &[
            Answered(&[0x80000018, 4, 1, 0, 0, 0, 0], ReplyHead::Success),
            Answered(
                &[0x80000018, 4, 1, 0, 0, 0, 1],
                ReplyHead::Failure(Fault::ProgramUnavailable),
            ),
            Answered(
                &[0x80000018, 4, 1, 0, 0, 0, 3],
                ReplyHead::Failure(Fault::ProcedureUnavailable),
            ),
            Answered(
                &[0x80000018, 4, 1, 0, 0, 0, 4],
                ReplyHead::Failure(Fault::GarbageArguments),
            ),
            Answered(
                &[0x80000018, 4, 1, 0, 0, 0, 5],
                ReplyHead::Failure(Fault::SystemError),
            ),
            Answered(
                &[0x80000020, 4, 1, 0, 0, 0, 2, 3, 4],
                ReplyHead::Failure(MISMATCH),
            ),
            Answered(
                &[0x80000018, 4, 1, 1, 0, 2, 2],
                ReplyHead::Failure(Fault::RpcMismatch),
            ),
            Answered(
                &[0x80000014, 4, 1, 1, 1, 1],
                ReplyHead::Failure(Fault::BadCredential),
            ),
        ],
    )
}
