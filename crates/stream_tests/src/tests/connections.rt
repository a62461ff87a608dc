//! Connections without IO: records that come in pieces, answers that wait, and answers as datagrams.

ghost use Rattle.nfs_schedule.specs.Worlds.{IsAtRest};

use super::*;
use nfs_rpc::RecordError;
use nfs_streams::{Connection, answer_record, datagram_of};

/// Puts the answer to the next record that came, where there is one and room for it.
fn answers_next(
    alloc: Global,
    engine: &mut Engine,
    connection: &mut Connection,
) -> Result<bool, AllocError>
    requires { IsAtRest engine.old }
    ensures { IsAtRest engine.new }
{
    if connection.is_full() {
        return Ok(false);
    }
    let Some(record) = connection.next() else {
        return Ok(false);
    };
    let mut clock = FixedClock { seconds: 1000 };
    let Some(answer) = answer_record(alloc, engine, &host(), &mut clock, record)? else {
        return Ok(false);
    };
    connection.put(answer);
    Ok(true)
}

/// Whether a piece is taken in, and this many records of it are answered: none, or one.
fn answers_piece(
    alloc: Global,
    engine: &mut Engine,
    connection: &mut Connection,
    piece: &[u8],
    is_answered: bool,
) -> Result<bool, AllocError>
    requires { IsAtRest engine.old }
    ensures { IsAtRest engine.new }
{
    if connection.take_in(piece).is_err() {
        return Ok(false);
    }
    Ok(answers_next(alloc, engine, connection)? == is_answered)
}

/// Whether a call in two pieces is answered once, and its answer waits until it is sent.
fn waits_until_sent(
    alloc: Global,
    engine: &mut Engine,
    connection: &mut Connection,
    call: &[u8],
) -> Result<bool, AllocError>
    requires { IsAtRest engine.old }
    ensures { IsAtRest engine.new }
{
    let (first, second) = call.split_at(call.len().min(9));
    let is_begun = answers_piece(alloc, engine, connection, first, false)?;
    let is_answered = answers_piece(alloc, engine, connection, second, true)?;
    let waits = is_spelled(connection.gathered(), &NULL_REPLY) && connection.last().is_empty();
    connection.sent();
    Ok(is_begun && is_answered && waits && connection.gathered().is_empty())
}

#[test]
fn an_answer_waits_until_it_is_sent(rt: HostRuntime) -> Result<(), Fail> {
    let alloc = rt.alloc();
    let mut engine = opened(alloc)?;
    let mut connection = Connection::new(alloc);
    let call = spelled(alloc, &NULL)?;
    let waits = waits_until_sent(alloc, &mut engine, &mut connection, &call)?;
    drop(connection);
    drop(engine);
    assert!(rt; waits);
    Ok(())
}

#[test]
fn a_connection_refuses_a_large_record(rt: HostRuntime) -> Result<(), Fail> {
    let mut connection = Connection::new(rt.alloc());
    let is_refused = connection.take_in(&[0x80, 1, 0x20, 1]) == Err(RecordError::TooLarge);
    drop(connection);
    assert!(rt; is_refused);
    Ok(())
}

/// A datagram has no mark; there is none of no reply, nor of a reply above 65,507 bytes.
#[test]
fn answers_make_datagrams(rt: HostRuntime) -> Result<(), Fail> {
    let reply = spelled(rt.alloc(), &NULL_REPLY)?;
    let is_reply = datagram_of(&reply).is_some_and(|datagram| is_spelled(
        datagram,
        &NULL_REPLY[1..],
    ));
    assert!(rt; is_reply);
    assert!(rt; datagram_of(&[]).is_none());
    assert!(rt; datagram_of(&[0; 65_512]).is_none());
    Ok(())
}
