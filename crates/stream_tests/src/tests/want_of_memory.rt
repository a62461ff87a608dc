//! Want of memory: these tests pass whichever one of their allocations is refused. The call is then answered by its
//! refusal, or ends the stream, and sent again it is answered as if nothing had happened, but that a generation may be
//! left out.

ghost use Rattle.std.specs.Prelude.{IfOk};
ghost use Rattle.nfs_schedule.specs.Worlds.{IsAtRest};

use super::*;

/// The bytes of these words, from a second try where the first is refused.
fn spelled_at_last(alloc: Global, words: &[u32]) -> Result<Vec<u8>, AllocError> {
    match spelled(alloc, words) {
        Ok(bytes) => Ok(bytes),
        Err(_) => spelled(alloc, words),
    }
}

/// The opening state, from a second try where the first is refused.
fn opened_at_last(alloc: Global) -> Result<Engine, AllocError>
    ensures { IfOk result IsAtRest }
{
    match opened(alloc) {
        Ok(engine) => Ok(engine),
        Err(_) => opened(alloc),
    }
}

/// What is written for this input from the engine's state on, and how serving ends; room for the answers is there
/// before.
fn served(
    alloc: Global,
    engine: &mut Engine,
    input: &[u8],
) -> Result<(Vec<u8>, Result<Served, StreamFault>), AllocError>
    requires { IsAtRest engine.old }
    ensures { IsAtRest engine.new }
{
    let room = match Vec::with_capacity(alloc, 512) {
        Ok(room) => room,
        Err(_) => Vec::with_capacity(alloc, 512)?,
    };
    let mut writer = Counted::new(room);
    let end = serve(alloc, engine, &mut Counted::new(input), &mut writer);
    Ok((writer.into_inner(), end))
}

/// What a call is answered: at once; for want of memory; and after that.
#[derive(Clone, Copy)]
struct Replies<'a> {
    at_once: &'a [u32],
    refusal: &'a [u32],
    then: &'a [u32],
}

/// The call is answered by one of its replies.
fn answers_then(
    rt: &(impl Abort + AllocGlobal),
    engine: &mut Engine,
    call: &[u8],
    replies: Replies<'_>,
) -> Result<(), Fail>
    requires { IsAtRest engine.old }
{
    let (written, end) = served(rt.alloc(), engine, call)?;
    assert!(rt; is_spelled(&written, replies.at_once) || is_spelled(&written, replies.then));
    assert_eq!(rt; end, Ok(Served));
    Ok(())
}

/// The call is answered at once; or by its refusal, or not at all for want of memory, and answered then.
fn answers_once_more(
    rt: &(impl Abort + AllocGlobal),
    engine: &mut Engine,
    call: &[u8],
    replies: Replies<'_>,
) -> Result<(), Fail>
    requires { IsAtRest engine.old }
{
    let (written, end) = served(rt.alloc(), engine, call)?;
    let is_answered = end == Ok(Served) && is_spelled(&written, replies.at_once);
    let is_refused = end == Ok(Served) && is_spelled(&written, replies.refusal);
    let is_stopped = end == Err(StreamFault::Memory) && written.is_empty();
    drop(written);
    if is_answered {
        return Ok(());
    }
    assert!(rt; is_refused || is_stopped);
    answers_then(rt, engine, call, replies)
}

/// The same from a new server.
fn answers_at_last(
    rt: &(impl Abort + AllocGlobal),
    call: &[u32],
    replies: Replies<'_>,
) -> Result<(), Fail> {
    let call = spelled_at_last(rt.alloc(), call)?;
    let mut engine = opened_at_last(rt.alloc())?;
    answers_once_more(rt, &mut engine, &call, replies)
}

/// Replies to a call that changes nothing.
fn reads<'a>(reply: &'a [u32], refusal: &'a [u32]) -> Replies<'a> {
    Replies {
        at_once: reply,
        refusal,
        then: reply,
    }
}

/// SYSTEM_ERR (RFC 5531, section 9).
#[test]
fn null_is_refused(rt: HostRuntime) -> Result<(), Fail> {
    let refusal = [0x80000018, 1, 1, 0, 0, 0, 5];
    answers_at_last(&rt, &NULL, reads(&NULL_REPLY, &refusal))
}

/// NFS3ERR_JUKEBOX (RFC 1813, section 2.6).
#[test]
fn getattr_is_refused(rt: HostRuntime) -> Result<(), Fail> {
    let refusal = [0x8000001c, 3, 1, 0, 0, 0, 0, 10008];
    answers_at_last(&rt, &GETATTR, reads(&GETATTR_REPLY, &refusal))
}

/// MNT3ERR_SERVERFAULT (RFC 1813, appendix I, section 5.1.5).
#[test]
fn mnt_is_refused(rt: HostRuntime) -> Result<(), Fail> {
    let refusal = [0x8000001c, 2, 1, 0, 0, 0, 0, 10006];
    answers_at_last(&rt, &MNT, reads(&MNT_REPLY, &refusal))
}

/// NFS3ERR_JUKEBOX, with nothing told of the directory. The file that is made then is the first, of the first
/// generation or of the next: one that was reserved is not given again.
#[test]
fn create_is_refused(rt: HostRuntime) -> Result<(), Fail> {
    let refusal = [0x80000024, 8, 1, 0, 0, 0, 0, 10008, 0, 0];
    let mut then = CREATE_REPLY;
    then[17] = 3;
    let replies = Replies {
        at_once: &CREATE_REPLY,
        refusal: &refusal,
        then: &then,
    };
    answers_at_last(&rt, &CREATE, replies)
}
