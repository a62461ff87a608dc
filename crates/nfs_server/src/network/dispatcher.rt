//! What answers records: each is executed on a permit, and no permit is held while answers are sent.

ghost use Rattle.std.specs.Prelude.{◌≡◌, ◌++◌, ◌+◌, ◌<◌, ◌≤◌, ℕ, List, Option, [], false, true, length};
ghost use Rattle.std.specs.Prelude.{Decides, IfErr, IfNone, IfOk, IsSome, Ok, OnErr, OnOk};
ghost use Rattle.std.specs.IoError.{error_kind};
ghost use Rattle.nfs_machine.specs.Run as machine;
ghost use Rattle.nfs_engine.specs.Arrivals.{incoming_value, received_value};
ghost use Rattle.nfs_schedule.specs.Answers.{reply_bytes};
ghost use Rattle.nfs_streams.specs.Connections.{waiting};
ghost use Rattle.nfs_server.specs.AnswersTo.{AnswersRecord, AreExecuted, GainsAtMostOne, HandsBack, HasReceipt};
ghost use Rattle.nfs_server.specs.AnswersTo.{IsAnswerTo, IsTold, number_after};
ghost use Rattle.nfs_server.specs.Control.{is_executed};
ghost use Rattle.nfs_server.specs.CalledBack.{MayHavePosted};
ghost use Rattle.nfs_server.specs.Closings.{closed_of};
ghost use Rattle.nfs_server.specs.Conversations.{Adds, Cuts, GoesOn, IsCutOff};

use crate::clock::ServerClock;
use crate::controlling::Applied;
use crate::network::account::Charge;
use crate::network::counters::Counters;
use crate::network::listings::{Listing, Listings};
use crate::network::peer::{Peer, PeerLink};
use crate::network::permits::{Permit, Permits};
use crate::network::wakeup::Wakeup;
use nfs_engine::{Arrival, Faulted, Host, Incoming, Reading, Receipt, Received};
use nfs_machine::{Exports, Moments};
use nfs_pool::{Naming, Open, PoolError, Seat, Sent};
use nfs_rpc::Record;
use nfs_schedule::{Answer, RefusalReply, decline};
use nfs_streams::Connection;
use std::alloc::{AllocError, Global};
use std::io;
use std::io::ErrorKind;
use std::rt::Clock;
use std::sync::ledger::Ledger;
use std::sync::{Arc, Wait};

/// How many records are answered on one permit, so that no connection has others wait for long.
const MOST_RECORDS: usize = 64;

/// How often the era is ended for one call where memory is wanting, while each end gives memory of dead files back.
const MOST_TURNS: usize = 64;

/// Why a peer can't be served any more.
#[derive(Clone, Copy)]
pub(crate) enum Closed {
    /// A read or a write failed, or a record was too large.
    Failed,
    /// Its peer reset it between two records.
    Left,
    /// Another connection has its place.
    GaveWay,
    /// The peer was waited for too long.
    Late,
    /// There was no memory for a record or its answer.
    Memory,
}

impl From<AllocError> for Closed {
    fn from(_error: AllocError) -> Closed {
        Closed::Memory
    }
}

impl Closed {
    /// Why a connection is closed that failed with an error of this kind.
    pub(crate) fn of_kind(kind: ErrorKind) -> Closed
        ensures { result ≡ closed_of kind }
    {
        match kind {
            ErrorKind::TimedOut | ErrorKind::WouldBlock => Closed::Late,
            ErrorKind::ConnectionAborted => Closed::GaveWay,
            _ => Closed::Failed,
        }
    }
}

impl From<io::Error> for Closed {
    ghost from_gives = { λ error closed. closed ≡ closed_of (error_kind error) };

    fn from(error: io::Error) -> Closed {
        Closed::of_kind(error.kind())
    }
}

/// The answer to a record, or that there was no memory for it.
pub(crate) type Answered = Result<Answer, Closed>;

/// What answers records, on a permit that it takes for them and at the moments of its clock.
#[derive(Drop)]
pub(crate) struct Dispatcher<L: Ledger + Naming, C> {
    pub(crate) permits: Permits<L>,
    /// Given when messages wait to be sent.
    pub(crate) wakeup: Arc<Wakeup>,
    /// What is counted.
    pub(crate) counters: Arc<Counters>,
    pub(crate) clock: ServerClock<C>,
    /// The number of the last receipt that it answered by: those that come are above it.
    pub(crate) last: u64,
}

impl<L: Ledger + Naming, C: Clock> Dispatcher<L, C> {
    /// Answers the next record of a connection and those behind it, one after the other and so many at most, and sends
    /// the answers. The permit is given back behind the last one, and whenever the answers that wait are to be sent
    /// before the next one. Whether a call was refused; None where there was no record.
    ///
    /// # Errors
    ///
    /// There was no memory to take a record in or to answer it, or the answers can't be sent.
    pub(crate) fn answer_all<R: Wait + Clock, P: Peer>(
        &mut self,
        rt: &R,
        alloc: Global,
        link: &mut PeerLink<P>,
        connection: &mut Connection,
    ) -> Result<Option<bool>, Closed>
        requires room { connection.old.full ≡ false }
        ensures room { connection.new.full ≡ false }
        ensures goes { OnOk result ((unread : Option (List ℕ)) → GoesOn link.old.host self.old.last self.new.last
            connection.old connection.new unread unread (P.written link.old.peer) (P.written link.new.peer)) }
        ensures sent { OnOk result (waiting connection.old ≡ [] → waiting connection.new ≡ []) }
        ensures none { IfOk result (λ some. IfNone some (connection.new.records.queued ≡ [])) }
        ensures few { OnOk result
            (length connection.old.records.queued ≤ length connection.new.records.queued + 64) }
        ensures breaks { OnErr result ((unread : Option (List ℕ)) → IsCutOff link.old.host self.old.last connection.old
            unread (P.written link.old.peer) (P.written link.new.peer)) }
        ensures unread { P.unread link.new.peer ≡ P.unread link.old.peer }
        ensures host { link.new.host ≡ link.old.host }
    {
        let Some(first) = connection.next() else {
            return Ok(None);
        };
        let permit = self.permits.take(rt);
        let (mut permit, mut is_refused) = self.answer_next(
            rt, alloc, link, permit, first, connection,
        )?;
        'records: for _given in 1..MOST_RECORDS {
            let Some(message) = connection.next() else {
                break;
            };
            let (left, refused) = self.answer_next(rt, alloc, link, permit, message, connection)?;
            permit = left;
            is_refused = is_refused || refused;
        }
        self.permits.give(rt, permit);
        link.send(rt, connection)?;
        Ok(Some(is_refused))
    }

    /// Answers the next record of a connection, and sends the answers that wait, where they are to be sent before the
    /// one behind it. The permit that is handed back may be another one. Whether the call was refused.
    ///
    /// # Errors
    ///
    /// As `answer_all`. The permit is given back.
    fn answer_next<R: Wait + Clock, P: Peer>(
        &mut self,
        rt: &R,
        alloc: Global,
        link: &mut PeerLink<P>,
        permit: Permit<L>,
        message: Record,
        connection: &mut Connection,
    ) -> Result<(Permit<L>, bool), Closed>
        requires room { connection.old.full ≡ false }
        ensures room { connection.new.full ≡ false }
        ensures adds { OnOk result (Adds link.old.host self.old.last self.new.last message connection.old connection.new
            (P.written link.old.peer) (P.written link.new.peer)) }
        ensures cuts { OnErr result (Cuts link.old.host self.old.last message connection.old
            (P.written link.old.peer) (P.written link.new.peer)) }
        ensures unread { P.unread link.new.peer ≡ P.unread link.old.peer }
        ensures host { link.new.host ≡ link.old.host }
    {
        if let Some(listing) = Listing::of(&message) {
            return self.answer_listing(rt, alloc, link, permit, listing, message, connection);
        }
        let (permit, answered) = self.answer(rt, alloc, &link.host, permit, message);
        self.counters.answered(&answered);
        match answered {
            Ok(answer) => {
                let is_refused = is_refusal(&answer);
                if !put(connection, answer) {
                    return Ok((permit, is_refused));
                }
                self.permits.give(rt, permit);
                link.send(rt, connection)?;
                Ok((self.permits.take(rt), is_refused))
            }
            Err(closed) => {
                self.permits.give(rt, permit);
                link.send(rt, connection)?;
                Err(closed)
            }
        }
    }

    /// Answers a record whose answer may be of any size, and sends that. It is made once it is its turn, and waits for
    /// its peer where there is room for that. No permit is held while that is waited for.
    ///
    /// # Errors
    ///
    /// As `answer_next`; or its turn or the room for it did not come in the time that a peer has to take answers.
    fn answer_listing<R: Wait + Clock, P: Peer>(
        &mut self,
        rt: &R,
        alloc: Global,
        link: &mut PeerLink<P>,
        permit: Permit<L>,
        listing: Listing,
        message: Record,
        connection: &mut Connection,
    ) -> Result<(Permit<L>, bool), Closed>
        requires room { connection.old.full ≡ false }
        ensures room { connection.new.full ≡ false }
        ensures adds { OnOk result (Adds link.old.host self.old.last self.new.last message connection.old connection.new
            (P.written link.old.peer) (P.written link.new.peer)) }
        ensures cuts { OnErr result (Cuts link.old.host self.old.last message connection.old
            (P.written link.old.peer) (P.written link.new.peer)) }
        ensures unread { P.unread link.new.peer ≡ P.unread link.old.peer }
        ensures host { link.new.host ≡ link.old.host }
    {
        self.permits.give(rt, permit);
        link.send(rt, connection)?;
        let (answer, room) = self.make_listing(rt, alloc, link, listing, message)?;
        let is_refused = is_refusal(&answer);
        put(connection, answer);
        let sent = link.send(rt, connection);
        link.listings.free(rt, room);
        sent?;
        Ok((self.permits.take(rt), is_refused))
    }

    /// The answer to a record that may be of any size, with room for it to wait in.
    ///
    /// # Errors
    ///
    /// As `answer_listing`.
    fn make_listing<R: Wait + Clock, P: Peer>(
        &mut self,
        rt: &R,
        alloc: Global,
        link: &PeerLink<P>,
        listing: Listing,
        message: Record,
    ) -> Result<(Answer, Charge), Closed>
        ensures answers { IfOk result (λ made. AnswersRecord self.old.last link.now.host message made.0) }
        ensures last { IfOk result (λ made. self.new.last ≡ number_after self.old.last (Ok made.0)) }
    {
        let listings = &link.listings;
        let seconds = link.patience.answers;
        let Some(turn) = listings.begin(rt, listing, seconds) else {
            return Err(Closed::Late);
        };
        let made = match self.answer_alone(rt, alloc, &link.host, message) {
            Ok(answer) => with_room(rt, listings, answer, seconds),
            Err(closed) => Err(closed),
        };
        listings.end(rt, listing, turn);
        made
    }

    /// Answers a record on a permit that it takes for this one alone.
    ///
    /// # Errors
    ///
    /// There was no memory to take the record in or to answer it.
    pub(crate) fn answer_alone<R: Wait>(
        &mut self,
        rt: &R,
        alloc: Global,
        host: &Host,
        message: Record,
    ) -> Answered
        ensures answers { IfOk result (AnswersRecord self.old.last host.now message) }
        ensures last { self.new.last ≡ number_after self.old.last result }
    {
        let permit = self.permits.take(rt);
        let (permit, answered) = self.answer(rt, alloc, host, permit, message);
        self.permits.give(rt, permit);
        self.counters.answered(&answered);
        answered
    }

    /// Answers a record that came from this host. The permit that is handed back may be another one.
    ///
    /// # Errors
    ///
    /// There was no memory to take the record in or to answer it.
    pub(crate) fn answer<R: Wait>(
        &mut self,
        rt: &R,
        alloc: Global,
        host: &Host,
        permit: Permit<L>,
        message: Record,
    ) -> (Permit<L>, Answered)
        ensures answers { IfOk result.1 (AnswersRecord self.old.last host.now message) }
        ensures last { self.new.last ≡ number_after self.old.last result.1 }
    {
        let moment = self.clock.moment();
        match host.share() {
            Ok(host) => match Arrival::read(alloc, host, message, moment) {
                Ok(arrival) => {
                    let (permit, answered) = self.execute(rt, alloc, permit, arrival);
                    if may_have_posted(&answered) {
                        self.wakeup.give(rt);
                    }
                    (permit, answered)
                }
                Err(_) => (permit, Err(Closed::Memory)),
            },
            Err(_) => (permit, Err(Closed::Memory)),
        }
    }

    /// Puts exports in the place of those before. The permit is given back before that is told.
    pub(crate) fn replace<R: Wait>(&mut self, rt: &R, alloc: Global, exports: Exports) -> Applied
        ensures { result ≡ Applied.Executed → AreExecuted self.old.last exports }
    {
        let moment = self.clock.moment();
        let Ok(arrival) = Arrival::exports(alloc, exports, moment) else {
            return Applied::Refused;
        };
        let permit = self.permits.take(rt);
        let (permit, submitted) = self.submit(rt, alloc, permit, arrival);
        self.permits.give(rt, permit);
        let outcome = outcome_of(&submitted);
        drop(submitted);
        outcome
    }

    /// Executes what a record asks.
    fn execute<R: Wait>(
        &mut self,
        rt: &R,
        alloc: Global,
        permit: Permit<L>,
        arrival: Arrival,
    ) -> (Permit<L>, Answered)
        ensures answers { IfOk result.1 (IsAnswerTo self.old.last arrival.received) }
        ensures last { self.new.last ≡ number_after self.old.last result.1 }
    {
        let (permit, submitted) = self.submit(rt, alloc, permit, arrival);
        let answered = answered(alloc, submitted, &permit.seat);
        self.last = last_after(self.last, &answered);
        (permit, answered)
    }

    /// Submits what came in. Where the era is full it is ended first, and where memory is wanting too, once: what was
    /// recorded in it is let go; and again while ends give memory of dead files back. What was executed is told by the
    /// last receipt of the permit's seat.
    ///
    /// # Errors
    ///
    /// It was not taken in, and is handed back, on a permit that was handed out behind the end of an era.
    fn submit<R: Wait>(
        &self,
        rt: &R,
        alloc: Global,
        permit: Permit<L>,
        arrival: Arrival,
    ) -> (Permit<L>, Result<Sent, Arrival>)
        ensures told { IfOk result.1 (IsTold self.now.last arrival.received result.0.seat) }
        ensures back { IfErr result.1 (λ back. back.received ≡ arrival.received) }
        ensures late { IfErr result.1 (λ back. permit.turns < result.0.turns) }
    {
        let mut permit = permit;
        let mut arrival = arrival;
        let mut turns: usize = 0;
        'eras: for _ in rt.forever() {
            let back = match submit(rt, alloc, &mut permit, self.last, arrival) {
                Ok(sent) => return (permit, Ok(sent)),
                Err(PoolError::EraFull(back)) => back,
                Err(PoolError::Memory(back)) => {
                    if !gives_more(turns, permit.is_sweeping) {
                        return (permit, Err(back));
                    }
                    back
                }
            };
            permit = self.permits.turn(rt, permit);
            turns = turns.saturating_add(1);
            arrival = back;
        }
        unreachable!()
    }
}

/// An answer, with room for it to wait in.
///
/// # Errors
///
/// There was none within so many seconds.
fn with_room<R: Wait + Clock>(
    rt: &R,
    listings: &Listings,
    answer: Answer,
    seconds: u64,
) -> Result<(Answer, Charge), Closed>
    ensures { IfOk result (λ made. made.0 ≡ answer) }
{
    match listings.hold(rt, answer.bytes().len(), seconds) {
        Some(room) => Ok((answer, room)),
        None => {
            drop(answer);
            Err(Closed::Late)
        }
    }
}

/// What became of exports that were submitted.
fn outcome_of(submitted: &Result<Sent, Arrival>) -> Applied
    ensures { Decides (is_executed result) (submitted.now ≡ Ok Sent.Executed) }
{
    match submitted {
        Ok(Sent::Executed) => Applied::Executed,
        _ => Applied::Refused,
    }
}

/// Whether one more end of an era may give memory, behind so many: the first one lets go what was recorded, and others
/// what dead files leave.
fn gives_more(turns: usize, is_sweeping: bool) -> bool
    ensures { turns ≡ 0 → result ≡ true }
{
    turns == 0 || (is_sweeping && turns < MOST_TURNS)
}

/// Whether a call may have been executed that put a message. Where there was no memory for its answer that is not told.
fn may_have_posted(answered: &Answered) -> bool
    ensures { MayHavePosted answered.now → result ≡ true }
{
    match answered {
        Ok(Answer::Executed(receipt)) => !receipt.executed.messages.is_empty(),
        Ok(_) => false,
        Err(_) => true,
    }
}

/// Whether a call was refused, for want of memory or of a number.
fn is_refusal(answer: &Answer) -> bool {
    matches!(answer, Answer::Refused(_))
}

/// Puts an answer behind those that wait. Whether these are to be sent before the next one.
fn put(connection: &mut Connection, answer: Answer) -> bool
    requires { connection.old.full ≡ false }
    ensures full { result ≡ connection.new.full }
    ensures waits { waiting connection.new ≡ waiting connection.old ++ reply_bytes answer }
    ensures records { connection.new.records ≡ connection.old.records }
{
    connection.put(answer);
    connection.is_full()
}

/// The number of the last receipt, behind an answer.
fn last_after(last: u64, answered: &Answered) -> u64
    ensures { result ≡ number_after last answered.now }
{
    match answered {
        Ok(Answer::Executed(receipt)) => receipt.number,
        _ => last,
    }
}

/// Submits what came in to the pool of a permit, once: its seat gets its receipt, with a number above this one, and no
/// other.
///
/// # Errors
///
/// The era is full, or memory was wanting: what came in is handed back.
fn submit<R: Wait, L: Ledger + Naming>(
    rt: &R,
    alloc: Global,
    permit: &mut Permit<L>,
    last: u64,
    arrival: Arrival,
) -> Result<Sent, PoolError>
    ensures told { IfOk result (IsTold last arrival.received permit.new.seat) }
    ensures back { IfErr result (HandsBack arrival.received) }
    ensures once { GainsAtMostOne permit.old.seat permit.new.seat }
    ensures turns { permit.new.turns ≡ permit.old.turns }
{
    // It brings that what came in is read so.
    arrival.show_read();
    let Permit { pool, seat, .. } = permit;
    seat.go_above(last);
    match pool.submit(rt, alloc, &Open, seat, arrival)? {
        Sent::Refused(declined) => refused(alloc, declined),
        sent => Ok(sent),
    }
}

/// What is told of a record that was submitted, on this seat, or handed back.
fn answered<L: Ledger + Naming>(
    alloc: Global,
    submitted: Result<Sent, Arrival>,
    seat: &Seat<L>,
) -> Answered
    ensures { (n : ℕ) (r : machine.Arrival) → IfOk submitted (IsTold n r seat.now) →
        IfErr submitted (λ back. back.received ≡ r) → IfOk result (IsAnswerTo n r) }
{
    match submitted {
        Ok(sent) => answer_to(sent, seat),
        Err(back) => refuse(alloc, back),
    }
}

/// What is told of a record that was submitted, on this seat.
fn answer_to<L: Ledger + Naming>(sent: Sent, seat: &Seat<L>) -> Answered
    ensures { (n : ℕ) (r : machine.Arrival) → IsTold n r seat.now sent → IfOk result (IsAnswerTo n r) }
{
    match sent {
        Sent::Executed => executed(seat),
        Sent::Repeated(kept) => Ok(Answer::Repeated(kept)),
        Sent::Refused(declined) => told(declined),
        Sent::Early(faulted) => Ok(Answer::Early(faulted)),
        Sent::Unanswered(received) => Ok(Answer::Unanswered(received)),
    }
}

/// The answer that a seat's last receipt tells, and shares with it.
fn executed<L: Ledger + Naming>(seat: &Seat<L>) -> Answered
    ensures { (n : ℕ) (r : machine.Arrival) → HasReceipt n r seat.now → IfOk result (IsAnswerTo n r) }
{
    let receipt = seat.receipts().last().ok_or(Closed::Memory)?;
    Ok(Answer::Executed(Receipt {
        number: receipt.number,
        executed: Arc::try_clone(&receipt.executed)?,
        answer: receipt.answer.clone()?,
    }))
}

/// A call that was refused for want of memory is handed back as it came in. Its refusal, where there is none for that.
fn refused(alloc: Global, declined: RefusalReply) -> Result<Sent, PoolError>
    ensures refused { IfOk result (λ sent. sent ≡ Sent.Refused declined) }
    ensures back { IfErr result (HandsBack (incoming_value declined.received)) }
{
    let RefusalReply { received, answer } = declined;
    match again(alloc, &received) {
        Ok(arrival) => {
            drop(received);
            drop(answer);
            Err(PoolError::Memory(arrival))
        }
        Err(_) => Ok(Sent::Refused(RefusalReply { received, answer })),
    }
}

/// The same as it came in.
fn again(alloc: Global, received: &Incoming) -> Result<Arrival, AllocError>
    ensures { IfOk result (λ arrival. arrival.received ≡ incoming_value received.now) }
{
    match received.share()? {
        Incoming::Record(received) => read_again(alloc, received),
        Incoming::Exports(exports, moment) => Arrival::exports(alloc, exports, moment),
    }
}

/// The same record as it came in.
fn read_again(alloc: Global, received: Received) -> Result<Arrival, AllocError>
    ensures { IfOk result (λ arrival. arrival.received ≡ machine.FromHost (received_value received)) }
{
    let Received {
        host,
        message,
        moment,
    } = received;
    Arrival::read(alloc, host, message, moment)
}

/// The answer to what came in and is not executed.
fn refuse(alloc: Global, arrival: Arrival) -> Answered
    ensures { (n : ℕ) → IfOk result (IsAnswerTo n arrival.received) }
{
    let (received, reading) = arrival.into_parts();
    match reading {
        Reading::Asks(asked) => told(decline(alloc, received, asked)),
        Reading::Faulted(answer) => Ok(Answer::Early(Faulted { received, answer })),
    }
}

/// A refusal, where there was memory to say it.
fn told(declined: RefusalReply) -> Answered
    ensures { IfOk result (λ answer. (answer ≡ Answer.Refused declined) × IsSome declined.answer) }
{
    if declined.answer.is_none() {
        drop(declined);
        return Err(Closed::Memory);
    }
    Ok(Answer::Refused(declined))
}
