//! Worlds of workers, as far as the scenes of `crates/scenes/stdin` don't show them.

use super::openings::resting;
use super::records::{GETATTR, moment, spelled};
use bytes::Bytes;
use nfs_engine::{Engine, Host, Received};
use nfs_schedule::{Answer, Event, World, drive, is_at_rest};
use std::alloc::{AllocError, Global};
use std::test::Fail;

/// A world of so many workers on this engine, of which nothing is known but its counts; none where a call is in
/// progress or an address is held, or without memory.
fn world_on(alloc: Global, engine: Engine, workers: usize) -> Option<World> {
    if !is_at_rest(&engine) {
        return None;
    }
    match World::new(alloc, engine, workers) {
        Ok(world) => Some(world),
        Err((_, engine)) => {
            drop(engine);
            None
        }
    }
}

/// GETATTR of the root comes in.
fn received(alloc: Global) -> Result<Received, AllocError> {
    let bytes = spelled(alloc, &GETATTR)?;
    let Some(host) = Host::new(Bytes::from_static(b"10.0.0.1")) else {
        return Err(AllocError);
    };
    Ok(Received {
        host,
        message: Bytes::from_vec(bytes)?,
        moment: moment(),
    })
}

/// It comes in, worker 1 takes six turns, and worker 2 is stopped, all as one list of events.
fn drive_at_once(
    alloc: Global,
    world: &mut World,
    answers: &mut Vec<Answer>,
) -> Result<(), AllocError> {
    let received = received(alloc)?;
    if world.workers() != 2 {
        return Err(AllocError);
    }
    let events = [
        Event::Arrive(received),
        Event::Turn(1),
        Event::Turn(1),
        Event::Turn(1),
        Event::Turn(1),
        Event::Turn(1),
        Event::Turn(1),
        Event::Stop(2),
    ];
    match drive(alloc, world, &events, answers) {
        Ok(()) => Ok(()),
        Err((_, error)) => Err(error),
    }
}

/// What GETATTR is answered: a mark, its transaction id, that it is accepted and done, OK, and the root's attributes.
const SHOWN: [u32; 29] = [
    0x80000070, 3, 1, 0, 0, 0, 0, 0, 2, 0o777, 2, 0, 0, 0, 0x1000, 0, 0x1000, 0, 0, 0, 1, 0, 1,
    1000, 0, 1000, 0, 1000, 0,
];

/// Whether there is one answer, of a call that was executed as the first record and shows the root.
fn is_shown(alloc: Global, answers: &[Answer]) -> Result<bool, AllocError> {
    let shown = spelled(alloc, &SHOWN)?;
    let is_shown = match answers {
        [Answer::Executed(receipt)] => receipt.number == 1
            && receipt.answer.as_slice() == shown.as_slice(),
        _ => false,
    };
    Ok(is_shown)
}

#[test]
fn a_list_is_driven_at_once(rt: HostRuntime) -> Result<(), Fail> {
    let mut answers = Vec::new(rt.alloc());
    let engine = resting(rt.alloc(), 16)?;
    let Some(mut world) = world_on(rt.alloc(), engine, 2) else {
        return Err(Fail::from("a world"));
    };
    let driven = drive_at_once(rt.alloc(), &mut world, &mut answers);
    drop(world.end());
    let is_shown = is_shown(rt.alloc(), &answers);
    drop(answers);
    driven?;
    assert!(rt; is_shown?);
    Ok(())
}
