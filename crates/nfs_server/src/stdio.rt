//! Standard input served to standard output.

ghost use Rattle.nfs_engine.specs.Opening.{IsLimit};

use crate::clock::{ServerClock, start_number};
use crate::exit::Exit;
use crate::network::{CountedEvent, Counters, start_reporter, tell};
use crate::options::Options;
use crate::runtime::Runtime;
use crate::started::serve_options;
use nfs_rpc::stream::Counted;
use nfs_streams::{Unseen, Witness};
use std::alloc::{AllocError, Global};
use std::io;
use std::rt::Clock;
use std::sync::Arc;

/// Serves the records of standard input, as the options say, and writes the answers to standard output, to the end of
/// the input. What it writes is what `serve_options` promises, for what the runtime reads and writes.
///
/// # Errors
///
/// Those of `serve_options`.
pub fn serve_stdio<R: AllocGlobal + Clock + Input + Print>(
    rt: &R,
    options: Options,
) -> Result<(), Exit>
    requires era { IsLimit options.era_records }
    requires capacity { IsLimit options.capacity }
{
    serve_witnessed(rt, options, &Unseen)
}

/// The same; every so many seconds it is told on standard error what was counted, and once more at the end.
///
/// # Errors
///
/// Those of `serve_options`.
pub fn serve_counted<R: Runtime + AllocGlobal + Input + Print + Eprint>(
    rt: R,
    options: Options,
    seconds: u64,
) -> Result<(), Exit>
    requires era { IsLimit options.era_records }
    requires capacity { IsLimit options.capacity }
{
    let alloc = rt.alloc();
    let Ok(counters) = start_counting(rt, alloc, seconds) else {
        drop(options);
        return Err(Exit::Memory);
    };
    let served = serve_witnessed(&rt, options, &*counters);
    counters.happened(end_of(&served));
    tell(&rt, alloc, &counters);
    served
}

/// The counts of standard streams, with the thread that tells them every so many seconds.
fn start_counting<R: Runtime + Eprint>(
    rt: R,
    alloc: Global,
    seconds: u64,
) -> Result<Arc<Counters>, AllocError> {
    let counters = Counters::of_streams(alloc)?;
    start_reporter(rt, alloc, &counters, seconds)?;
    Ok(counters)
}

/// As `serve_stdio`, and somebody sees how each record is answered.
fn serve_witnessed<R: AllocGlobal + Clock + Input + Print, T: Witness>(
    rt: &R,
    options: Options,
    witness: &T,
) -> Result<(), Exit>
    requires era { IsLimit options.era_records }
    requires capacity { IsLimit options.capacity }
{
    let mut clock = ServerClock::new(rt, options.clock);
    let mut reader = Counted::new(rt.reader());
    let mut writer = Counted::new(io::writer(rt));
    serve_options(
        rt.alloc(),
        options,
        start_number(rt),
        &mut clock,
        &mut reader,
        &mut writer,
        witness,
    )
}

/// How the streams ended.
fn end_of(served: &Result<(), Exit>) -> CountedEvent {
    match served {
        Ok(()) => CountedEvent::Ended,
        Err(Exit::Memory) => CountedEvent::Starved,
        Err(_) => CountedEvent::Failed,
    }
}
