//! Serving on the network: connections over TCP and datagrams over UDP, by threads over one pool.
//!
//! The thread that read a connection's bytes answers their records itself, on a permit that it takes for them, and the
//! answers leave together. Workers answer datagrams. `docs/ARCHITECTURE.md` tells of the threads.

mod account;
mod connection_count;
mod counters;
mod descriptors;
mod dispatcher;
mod drain;
mod failures;
mod jobs;
mod listening;
mod listings;
mod mailbox;
mod messages;
mod operating;
mod peer;
mod permits;
mod presence;
mod queue;
mod reading;
mod reporting;
mod sending;
mod sharing;
mod sorting;
mod tally;
mod wakeup;

ghost use Rattle.std.specs.Prelude.{◌≡◌, ◌≤◌, []};
ghost use Rattle.nfs_engine.specs.Opening.{IsLimit};
ghost use Rattle.nfs_server.specs.CommandLine.{AreWithin};

use crate::callbacks::Callbacks;
use crate::clock::{ServerClock, start_number};
use crate::controlling::ControlEnd;
use crate::exit::Exit;
use crate::network::connection_count::ConnectionCount;
pub use crate::network::counters::{CountedEvent, Counters, Gauge};
use crate::network::descriptors::places;
use crate::network::drain::Drain;
use crate::network::failures::Failures;
use crate::network::jobs::{JOBS, Job};
pub use crate::network::listening::Sockets;
use crate::network::listening::{DATAGRAM_SIZE, Service, let_in, take_datagrams};
use crate::network::mailbox::Mailbox;
pub use crate::network::operating::{Nobody, Operator};
use crate::network::permits::{EraThread, Gathering, KeptReplies, Permits, hand_out};
use crate::network::reporting::Reporter;
pub(crate) use crate::network::reporting::tell;
use crate::network::sending::CallbackThread;
use crate::network::sorting::Sorter;
pub use crate::network::tally::Tally;
use crate::options::{Network, Options, Transport};
use crate::runtime::{NetworkRuntime, Runtime};
use crate::started::{Setup, config_of, open};
use crossbeam_channel::{Receiver, bounded};
use nfs_engine::{Config, Engine};
use nfs_machine::{Exports, Moment, Moments};
use nfs_pool::{EraRoom, Naming, Opened, Pool, Seat};
use std::alloc::{AllocError, Global};
use std::marker::Brand;
use std::net::{TcpListener, UdpSocket};
use std::sync::ledger::{Blank, Ledger};
use std::sync::{Arc, Wait};
use std::thread;
use std::time::Instant;

/// For how many connections there are permits beside those of the workers; more connections share them.
const OWN_PERMITS: u64 = 64;

/// What a pool is made of.
struct PoolParts {
    blank: Blank,
    opened: Opened,
    engine: Engine,
    /// How many seats it has.
    count: usize,
    /// How many replies are kept of each host, where somebody is told of them.
    kept: Option<KeptReplies>,
}

/// What a service is made of.
#[derive(Drop)]
struct ServiceParts<O> {
    sockets: Sockets,
    network: Network,
    /// What is counted.
    counters: Arc<Counters>,
    /// The second at which every moment is, if any.
    clock: Option<u32>,
    /// The moment at which the server began.
    begin: Moment,
    callbacks: Callbacks,
    /// What is exported at first.
    exports: Exports,
    operator: O,
}

/// Serves on the network as the options say: until so many connections have come and ended, or for ever. Where they ask
/// for it, the runtime is the operator. Each era is compared when it is over, the last one too.
///
/// # Errors
///
/// `CannotListen`; `Memory` where there is none to begin; `NoTransport` where the options name no address; `Receipts`
/// where a record has no receipt, or a permit does not come to the end of its era within an hour.
pub fn serve_network<R: NetworkRuntime + Operator>(rt: R, options: Options) -> Result<(), Exit>
    requires { AreWithin options }
{
    let counters = Counters::new(rt.alloc())?;
    let sockets = Sockets::bind(&rt, rt.alloc(), &options)?;
    sockets.tell(&rt);
    serve_operated(rt, options, sockets, counters, rt)
}

/// Serves on these sockets as the options say: until so many connections have come and ended, or for ever. What happens
/// is counted here. No operator says anything.
///
/// # Errors
///
/// As `serve_network`, but for `CannotListen`.
pub fn serve_sockets<R: NetworkRuntime>(
    rt: R,
    options: Options,
    sockets: Sockets,
    counters: Arc<Counters>,
) -> Result<(), Exit>
    requires { AreWithin options }
{
    serve_operated(rt, options, sockets, counters, Nobody)
}

/// Serves on these sockets as the options say, and does what the operator says where they ask for that: until so many
/// connections have come and ended, or for ever. What happens is counted here.
///
/// # Errors
///
/// As `serve_network`, but for `CannotListen`.
pub fn serve_operated<R: NetworkRuntime, O: Operator + Drop + Send + 'static>(
    rt: R,
    options: Options,
    sockets: Sockets,
    counters: Arc<Counters>,
    operator: O,
) -> Result<(), Exit>
    requires { AreWithin options }
{
    let exports = options.exports.clone()?;
    let clock = options.clock;
    let mut first = ServerClock::new(rt, clock);
    let begin = first.moment();
    let (config, setup) = config_of(options, start_number(&rt), begin);
    let Setup {
        host,
        callbacks,
        transport,
    } = setup;
    drop(host);
    let Transport::Network(network) = transport else {
        return Err(Exit::NoTransport);
    };
    let service = ServiceParts {
        sockets,
        network,
        counters,
        clock,
        begin,
        callbacks,
        exports,
        operator,
    };
    serve_from(rt, config, service)
}

/// Serves from the opening state that is configured so.
fn serve_from<R: NetworkRuntime, O: Operator + Drop + Send + 'static>(
    rt: R,
    config: Config,
    service: ServiceParts<O>,
) -> Result<(), Exit>
    requires capacity { IsLimit config.capacity }
    requires era { IsLimit config.era_records }
    requires workers { service.network.workers ≤ 64 }
{
    let network = &service.network;
    let count = network.workers + network.connections.min(OWN_PERMITS);
    let kept = kept_told(network, &config);
    let engine = open(rt.alloc(), config)?;
    let pool = PoolParts {
        blank: Blank::new(count),
        opened: Opened::new(),
        engine,
        count: count as usize,
        kept,
    };
    serve_pool::<Brand, R, O>(rt, pool, service)
}

/// What the replies that are kept are counted by, where somebody is told of them.
fn kept_told(network: &Network, config: &Config) -> Option<KeptReplies> {
    if network.stats == 0 {
        return None;
    }
    Some(KeptReplies {
        capacity: config.capacity as usize,
        key: config.limits.name_key,
    })
}

/// Serves with a pool. Threads of their own serve those who come; this one ends eras.
fn serve_pool<
    L: Ledger + Naming + Send + Sync + 'static,
    R: NetworkRuntime,
    O: Operator + Drop + Send + 'static,
>(rt: R, pool: PoolParts, service: ServiceParts<O>) -> Result<(), Exit>
    requires name { pool.blank.name ≡ L.name }
    requires parts { pool.blank.parts ≡ L.parts }
    requires count { pool.blank.parts ≡ pool.count }
    requires log { pool.opened.seen.book ≡ L.book }
    requires records { pool.engine.book.records ≡ [] }
{
    let alloc = rt.alloc();
    let PoolParts {
        blank,
        opened,
        engine,
        count,
        kept,
    } = pool;
    let Ok((pool, seats)) = Pool::<L>::new(alloc, blank, opened, engine, count) else {
        return Err(Exit::Memory);
    };
    let (permits, era_thread, seats, room) = open_permits(
        &rt, alloc, pool, seats, count, kept, &service,
    )?;
    let stats = service.network.stats;
    start_service(rt, alloc, permits, service)?;
    let ended = era_thread.work(&rt, alloc, seats, room);
    if stats > 0 {
        tell(&rt, alloc, &era_thread.counters);
    }
    ended
}

/// Starts the threads that serve those who come, and those beside them.
fn start_service<
    L: Ledger + Naming + Send + Sync + 'static,
    R: NetworkRuntime,
    O: Operator + Drop + Send + 'static,
>(rt: R, alloc: Global, permits: Permits<L>, parts: ServiceParts<O>) -> Result<(), Exit> {
    let ServiceParts {
        sockets,
        network,
        counters,
        clock,
        begin,
        callbacks,
        exports,
        operator,
    } = parts;
    let (jobs, queue) = bounded(alloc, JOBS)?;
    let service = Service::new(alloc, permits, jobs, counters, clock, begin)?;
    let network = within_descriptors(&rt, alloc, &sockets, network, &service.counters)?;
    start_reporter(rt, alloc, &service.counters, network.stats)?;
    start_workers(rt, alloc, &service, queue, network.workers)?;
    start_senders(rt, alloc, &service, callbacks)?;
    if network.control {
        start_operator(rt, alloc, &service, exports, operator)?;
    }
    attend(rt, alloc, sockets, network, service)
}

/// Lets no more connections in than there are descriptors for, and says so where these are fewer than the options name.
fn within_descriptors<R: Eprint>(
    rt: &R,
    alloc: Global,
    sockets: &Sockets,
    network: Network,
    counters: &Counters,
) -> Result<Network, AllocError> {
    let Some(listener) = &sockets.tcp else {
        return Ok(network);
    };
    let mut network = network;
    let most = network.connections;
    let places = places(alloc, listener, most)?;
    if places < most {
        let _ = eprintln!(rt;
            "nfsd: descriptors for {places} connections, and not for --connections {most}"
        );
    }
    counters.set(Gauge::Places, places);
    network.connections = places;
    Ok(network)
}

/// A permit for each seat, and what ends eras, with room for all seats and to end an era in.
fn open_permits<L: Ledger + Naming, R: Wait, O>(
    rt: &R,
    alloc: Global,
    pool: Pool<L>,
    seats: Vec<Seat<L>>,
    count: usize,
    kept: Option<KeptReplies>,
    service: &ServiceParts<O>,
) -> Result<(Permits<L>, EraThread<L>, Vec<Seat<L>>, EraRoom), AllocError> {
    let (back, free) = bounded(alloc, count)?;
    let (full, filled) = bounded(alloc, count)?;
    let room = EraRoom::new(alloc, count)?;
    service.counters.set(Gauge::Objects, pool.objects(rt));
    let pool = Arc::new(alloc, pool)?;
    let seats = hand_out(rt, &back, pool, seats, 0, false);
    let gathering = Arc::new(alloc, Gathering::new())?;
    let era_thread = EraThread {
        free: free.clone()?,
        back: back.clone()?,
        full: filled,
        count,
        gathering: Arc::try_clone(&gathering)?,
        patience: service.network.patience.permit,
        counters: Arc::try_clone(&service.counters)?,
        kept,
    };
    let drain = Arc::new(alloc, Drain::new())?;
    let permits = Permits::new(free, back, full, gathering, drain);
    Ok((permits, era_thread, seats, room))
}

/// Starts the thread that says how the server is.
pub(crate) fn start_reporter<R: Runtime + Eprint>(
    rt: R,
    alloc: Global,
    counters: &Arc<Counters>,
    stats: u64,
) -> Result<(), AllocError> {
    let reporter = Reporter {
        counters: Arc::try_clone(counters)?,
        stats,
    };
    thread::spawn(&rt, move || reporter.work(&rt, alloc))?;
    Ok(())
}

/// Starts the workers.
fn start_workers<L: Ledger + Naming + Send + Sync + 'static, R: Runtime>(
    rt: R,
    alloc: Global,
    service: &Service<L>,
    queue: Receiver<Job>,
    count: u64,
) -> Result<(), AllocError> {
    for _ in 0..count {
        let mut dispatcher = service.dispatcher(rt)?;
        let jobs = queue.clone()?;
        thread::spawn(&rt, move || dispatcher.work(&rt, alloc, &jobs))?;
    }
    Ok(())
}

/// Starts a thread for each callback, which sends the messages to its host, and the thread that hands them on to these.
fn start_senders<L: Ledger + Naming + Send + Sync + 'static, R: NetworkRuntime>(
    rt: R,
    alloc: Global,
    service: &Service<L>,
    callbacks: Callbacks,
) -> Result<(), AllocError> {
    let count = callbacks.list.len();
    let callbacks = Arc::new(alloc, callbacks)?;
    let mut mailboxes = Vec::with_capacity(alloc, count)?;
    for _ in 0..count {
        let mailbox = Arc::new(alloc, Mailbox::new(alloc)?)?;
        start_sender(rt, alloc, service, &callbacks, &mailbox)?;
        mailboxes.push(mailbox)?;
    }
    let sorter = Sorter {
        dispatcher: service.dispatcher(rt)?,
        callbacks,
        mailboxes,
    };
    thread::spawn(&rt, move || sorter.work(&rt))?;
    Ok(())
}

/// Starts the thread that sends the messages to one host.
fn start_sender<L: Ledger + Naming + Send + Sync + 'static, R: NetworkRuntime>(
    rt: R,
    alloc: Global,
    service: &Service<L>,
    callbacks: &Arc<Callbacks>,
    mailbox: &Arc<Mailbox>,
) -> Result<(), AllocError> {
    let mut sender = CallbackThread {
        dispatcher: service.dispatcher(rt)?,
        callbacks: Arc::try_clone(callbacks)?,
        mailbox: Arc::try_clone(mailbox)?,
        failures: Failures::new(alloc, 1)?,
    };
    thread::spawn(&rt, move || sender.work(&rt, alloc))?;
    Ok(())
}

/// Starts the thread that does what an operator's lines say, where these exports stand. Nothing waits for its end;
/// where a line asks for that of the program, it ends in order.
fn start_operator<
    L: Ledger + Naming + Send + Sync + 'static,
    R: Runtime,
    O: Operator + Drop + Send + 'static,
>(
    rt: R,
    alloc: Global,
    service: &Service<L>,
    exports: Exports,
    operator: O,
) -> Result<(), AllocError> {
    let mut dispatcher = service.dispatcher(rt)?;
    let permits = service.permits.share()?;
    thread::spawn(&rt, move || {
        let ended = operator.listen(alloc, exports, |exports| {
            dispatcher.replace(&rt, alloc, exports)
        });
        if let ControlEnd::Asked = ended {
            permits.end(&rt);
        }
    })?;
    Ok(())
}

/// Starts the threads that serve those who come.
fn attend<L: Ledger + Naming + Send + Sync + 'static, R: Runtime>(
    rt: R,
    alloc: Global,
    sockets: Sockets,
    network: Network,
    service: Service<L>,
) -> Result<(), Exit> {
    let Sockets { tcp, udp } = sockets;
    if tcp.is_none() && udp.is_none() {
        return Err(Exit::NoTransport);
    }
    if let Some(socket) = udp {
        start_datagrams(rt, alloc, socket, service.share()?)?;
    }
    if let Some(listener) = tcp {
        start_connections(rt, alloc, listener, network, service)?;
    }
    Ok(())
}

/// Starts the thread that lets connections in, until so many have come. When these have ended the last era ends.
fn start_connections<L: Ledger + Naming + Send + Sync + 'static, R: Runtime>(
    rt: R,
    alloc: Global,
    listener: TcpListener,
    network: Network,
    service: Service<L>,
) -> Result<(), AllocError> {
    let Ok(begin) = Instant::now(&rt) else {
        return Err(AllocError);
    };
    let places = network.connections as usize;
    let connection_count = Arc::new(alloc, ConnectionCount::new(alloc, places, begin)?)?;
    thread::spawn(&rt, move || {
        let_in(&rt, alloc, &listener, &network, &service, &connection_count);
        connection_count.wait(&rt);
        service.permits.finish(&rt);
    })?;
    Ok(())
}

/// Starts the thread that takes datagrams.
fn start_datagrams<L: Ledger + Naming + Send + Sync + 'static, R: Runtime>(
    rt: R,
    alloc: Global,
    socket: UdpSocket,
    service: Service<L>,
) -> Result<(), AllocError> {
    let socket = Arc::new(alloc, socket)?;
    let buffer = Vec::from_elem(alloc, 0u8, DATAGRAM_SIZE)?;
    thread::spawn(&rt, move || {
        take_datagrams(&rt, alloc, &socket, buffer, &service);
    })?;
    Ok(())
}
