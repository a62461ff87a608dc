//! The same over a stream.

ghost use Rattle.nfs_schedule.specs.Worlds.{IsAtRest};

use super::*;
use std::cell::Cell;

/// A peer's calls: the next one once the last is answered.
#[derive(Drop)]
struct Calls<'a> {
    progress: &'a Cell<Progress>,
    call: Vec<u8>,
}

impl Read for Calls<'_> {
    fn read(&mut self, buffer: &mut [u8]) -> io::Result<usize> {
        self.call.clear();
        add_next(&mut self.call, &self.progress.get())?;
        let mut rest = self.call.as_slice();
        rest.read(buffer)
    }
}

/// Takes each answer, which comes whole.
#[derive(Drop)]
struct Answers<'a> {
    progress: &'a Cell<Progress>,
}

impl Write for Answers<'_> {
    fn write(&mut self, buffer: &[u8]) -> io::Result<usize> {
        self.progress.set(self.progress.get().answered(buffer));
        Ok(buffer.len())
    }

    fn flush(&mut self) -> io::Result<()> {
        Ok(())
    }
}

/// A server with small eras is sent these calls. How serving ends.
fn serves(alloc: Global, progress: &Cell<Progress>) -> Result<(), AllocError> {
    let call = Vec::with_capacity(alloc, 256)?;
    let mut engine = opened_with(alloc, 64)?;
    let mut reader = Counted::new(Calls { progress, call });
    let mut writer = Counted::new(Answers { progress });
    let end = serve(alloc, &mut engine, &mut reader, &mut writer);
    drop(engine);
    drop(reader);
    drop(writer);
    match end {
        Ok(Served) => Ok(()),
        Err(_) => Err(AllocError),
    }
}

/// How far names come on a new server.
fn played(alloc: Global, most: u32) -> Progress {
    let progress = Cell::new(Progress::new(most));
    let _ = serves(alloc, &progress);
    progress.get()
}

/// How far names come where memory is full but for so many bytes.
fn played_in_full_memory(
    clock: &impl Clock,
    alloc: Global,
    bytes: usize,
) -> Result<Progress, AllocError> {
    let mut taken = Vec::with_capacity(alloc, MOST_TAKEN)?;
    let left: Vec<u8> = Vec::with_capacity(alloc, bytes)?;
    let is_taken = take_all(clock, alloc, &mut taken);
    drop(left);
    let progress = played(alloc, if is_taken { MOST } else { 0 });
    drop(taken);
    Ok(progress)
}

/// No REMOVE and no RMDIR is refused, and at least so many tenths of the names come again: what is free then lies in
/// pieces, so a table that grows anew may be refused. How many of the calls that may add something were refused.
fn is_emptied_of(
    rt: &(impl Abort + Clock + AllocGlobal),
    bytes: usize,
    tenths: u32,
) -> Result<u32, Fail> {
    let few = played(rt.alloc(), FEW);
    let full = played_in_full_memory(rt, rt.alloc(), bytes)?;
    is_emptied(rt, few, full, tenths)?;
    Ok(full.refused)
}

#[test]
fn a_memory_in_which_no_table_grows_is_emptied(rt: HostRuntime) -> Result<(), Fail> {
    let refused = is_emptied_of(&rt, LEFT_BELOW_A_TABLE, 5)?;
    assert!(rt; refused > 0, "no other call was refused");
    Ok(())
}

#[test]
fn a_memory_that_is_full_to_the_brim_is_emptied(rt: HostRuntime) -> Result<(), Fail> {
    let mut refused = 0u32;
    for step in 0..BRIMS {
        let more = is_emptied_of(&rt, LEFT_TO_THE_BRIM + step * BETWEEN_BRIMS, 5)?;
        refused = refused.saturating_add(more);
    }
    assert!(rt; refused > 0, "no other call was refused");
    Ok(())
}

#[test]
fn a_memory_is_emptied_at_each_fill(rt: HostRuntime) -> Result<(), Fail> {
    for step in 0..STEPS {
        is_emptied_of(&rt, LEAST_LEFT + step * STEP, 0)?;
    }
    Ok(())
}
