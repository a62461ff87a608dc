//! What came in: records, and exports that replace those before; and what is kept of what was executed.

ghost use Rattle.std.specs.Prelude.{◌≡◌, ◌-◌, ◌^◌, IfOk, MatchResult, OnErr, min};
ghost use Rattle.nfs_machine.specs.Run.{FromHost, NewExports, host_in, moment_in, no_ids};
ghost use Rattle.nfs_engine.specs.Arrivals.{IsArrival, IsDropped, HostIsNamed, incoming_value, received_value};
ghost use Rattle.nfs_engine.specs.Asked.{IsAskedBy};
ghost use Rattle.nfs_engine.specs.Came.{IsCame, came_value};
ghost use Rattle.nfs_engine.specs.Commits.{arrival_bytes};
ghost use Rattle.nfs_engine.specs.Repeats.{origin_in};

use crate::admission::Faulted;
use crate::answers;
use crate::asking::{Asked, Unasked, read_record};
use crate::host::Host;
use crate::lengths::exports_size;
use crate::request::Request;
use bytes::Bytes;
use nfs_machine::{Call, Ctx, Exports, Limits, Moment, Reply};
use nfs_replies::{Hashed, Origin, RecordKey};
use nfs_rpc::{Gids, Ids, Record};
use side_wire::Message;
use std::alloc::{AllocError, Global};
use std::marker::Model;

/// A record that came in: from whom, its bytes, and when.
#[derive(Drop)]
pub struct Received {
    /// Who sent it.
    pub host: Host,
    /// Its bytes, without marks.
    pub message: Record,
    /// When it came.
    pub moment: Moment,
}

impl Received {
    /// One more owner of its bytes.
    ///
    /// # Errors
    ///
    /// There is no memory for one more owner.
    pub fn share(&self) -> Result<Received, AllocError>
        ensures { IfOk result (λ shared. received_value shared ≡ received_value self.now) }
    {
        Ok(Received {
            host: self.host.share()?,
            message: self.message.clone()?,
            moment: self.moment,
        })
    }

    /// What a repeat of it would come with too; it shares the bytes, and reads them for their hash under this key.
    pub(crate) fn origin(&self, key: RecordKey) -> Result<Origin, AllocError>
        ensures { IfOk result (λ origin. origin ≡ origin_in (FromHost (received_value self.now))) }
    {
        Ok(Origin {
            host: self.host.text().clone()?,
            bytes: Hashed::new(key, self.message.clone()?),
        })
    }
}

/// What came in.
#[derive(Drop)]
pub enum Incoming {
    /// A record, from a host.
    Record(Received),
    /// Exports that replace those before, and when they came. No host sent them.
    Exports(Exports, Moment),
}

impl Incoming {
    /// One more owner of what it has.
    ///
    /// # Errors
    ///
    /// There is no memory for one more owner.
    pub fn share(&self) -> Result<Incoming, AllocError>
        ensures { IfOk result (λ shared. incoming_value shared ≡ incoming_value self.now) }
    {
        match self {
            Incoming::Record(received) => Ok(Incoming::Record(received.share()?)),
            Incoming::Exports(exports, moment) => Ok(Incoming::Exports(exports.clone()?, *moment)),
        }
    }

    /// When it came.
    pub fn moment(&self) -> Moment
        ensures { result ≡ moment_in (incoming_value self.now) }
    {
        match self {
            Incoming::Record(received) => received.moment,
            Incoming::Exports(_, moment) => *moment,
        }
    }

    /// The name of the host that sent it; no byte where none did.
    pub(crate) fn host(&self) -> Result<Bytes, AllocError>
        ensures { IfOk result (λ host. host ≡ host_in (incoming_value self.now)) }
    {
        match self {
            Incoming::Record(received) => received.host.text().clone(),
            Incoming::Exports(..) => Ok(Bytes::new()),
        }
    }

    /// As how many bytes it is counted: those of a record, or of the paths and the hosts of exports.
    pub(crate) fn size(&self) -> u64
        ensures { result ≡ min (arrival_bytes (incoming_value self.now)) (2 ^ 64 - 1) }
    {
        match self {
            Incoming::Record(received) => received.message.len() as u64,
            Incoming::Exports(exports, _) => exports_size(exports.list()),
        }
    }

    /// The host that sent a record has 1 to 255 bytes.
    pub(crate) fn host_is_named(&self)
        ensures { HostIsNamed (incoming_value self.now) }
    {
        if let Incoming::Record(received) = self {
            received.host.text();
        }
    }
}

/// What it is that came in.
#[derive(Drop)]
pub enum Reading {
    /// It asks a call.
    Asks(Asked),
    /// It is a record with a fault, and this is the answer; None where the record is dropped.
    Faulted(Option<Vec<u8>>),
}

/// What came in, with what it is. Its type keeps that a record was read so. A call has one place from here to its end.
#[derive(Drop)]
pub struct Arrival {
    came: Came,
}

/// What came in, as what it is.
#[derive(Drop)]
enum Came {
    /// It asks a call.
    Call(Box<Request>),
    /// It is a record with a fault, and this is the answer; None where the record is dropped.
    Faulted(Incoming, Option<Vec<u8>>),
}

impl Model for Arrival {
    ghost use Rattle.nfs_engine.specs.Arrivals.{ArrivalValue};
    ghost use Rattle.nfs_engine.specs.Came.{IsCame, came_value};

    ghost Value = { ArrivalValue };

    ghost view = { λ a. came_value a.came };

    ghost invariant = { λ a. IsCame a.came };
}

impl Arrival {
    /// Reads a record that came in from the host at this moment, and writes the answer of its fault where it has one.
    ///
    /// # Errors
    ///
    /// There is no memory to share its arguments' bytes, for the call that it asks, or for the answer. A record that is
    /// dropped, as it is a reply or cut short (RFC 5531, 9), wants none.
    #[inline(always)]
    pub fn read(
        alloc: Global,
        host: Host,
        message: Record,
        moment: Moment,
    ) -> Result<Arrival, AllocError>
        ensures received { IfOk result
            (λ a. a.received ≡ FromHost (record { host = host; bytes = message; moment = moment })) }
        ensures refused { OnErr result (IsDropped message → ⊥) }
    {
        // It brings that the host has 1 to 255 bytes.
        host.text();
        let reading = read_record(&message);
        let received = Incoming::Record(Received {
            host,
            message,
            moment,
        });
        match reading {
            Ok(asked) => {
                let arrival = Arrival::of_call(alloc, received, asked)?;
                Ok(arrival)
            }
            Err(Unasked::Early(fault)) => {
                let answer = answers::early(alloc, fault)?;
                Ok(Arrival {
                    came: Came::Faulted(received, answer),
                })
            }
            Err(Unasked::Memory) => Err(AllocError),
        }
    }

    /// The arrival of exports, which replace those before. It asks for that, and nobody is answered.
    ///
    /// # Errors
    ///
    /// There is no memory for one more owner of their list, or for the call.
    pub fn exports(alloc: Global, exports: Exports, moment: Moment) -> Result<Arrival, AllocError>
        ensures { IfOk result (λ a. a ≡ record {
          received = NewExports exports moment;
          reading = Reading.Asks (record { xid = 0; ids = no_ids; call = Call.Replace exports });
        }) }
    {
        let asked = Asked {
            xid: 0,
            ids: Ids {
                uid: 0,
                gid: 0,
                gids: Gids::new(),
            },
            call: Call::Replace(exports.clone()?),
        };
        let arrival = Arrival::of_call(alloc, Incoming::Exports(exports, moment), asked)?;
        Ok(arrival)
    }

    /// The arrival of what asks this.
    ///
    /// # Errors
    ///
    /// There is no memory for the call, or for one more owner of the host's name.
    #[inline(always)]
    fn of_call(alloc: Global, received: Incoming, asked: Asked) -> Result<Arrival, AllocError>
        requires { IsAskedBy (incoming_value received) asked }
        ensures { IfOk result (λ a. a ≡ record { received = incoming_value received; reading = Reading.Asks asked }) }
    {
        received.host_is_named();
        let Ok(host) = received.host() else {
            drop(asked);
            drop(received);
            return Err(AllocError);
        };
        let moment = received.moment();
        let Asked { xid, ids, call } = asked;
        let ctx = Ctx {
            host,
            ids,
            moment,
            start: 0,
            limits: Limits {
                total_bytes: 0,
                name_key: [0; 16],
            },
        };
        let request = Request {
            received,
            xid,
            call,
            ctx,
        };
        match Box::new(alloc, request) {
            Ok(request) => Ok(Arrival::asking(request)),
            Err(refused) => {
                drop(refused);
                Err(AllocError)
            }
        }
    }

    /// The arrival of what asks the call that has this place.
    pub(crate) fn asking(request: Box<Request>) -> Arrival
        requires { IsCame (Came.Call request) }
        ensures { result ≡ came_value (Came.Call request) }
    {
        Arrival {
            came: Came::Call(request),
        }
    }

    /// What came in.
    pub fn received(&self) -> &Incoming
        ensures { incoming_value result.now ≡ self.now.received }
    {
        match &self.came {
            Came::Call(request) => &request.received,
            Came::Faulted(received, _) => received,
        }
    }

    /// It is what the record was read as.
    pub fn show_read(&self)
        ensures { IsArrival self.now }
    {
        match &self.came {
            Came::Call(_) => (),
            Came::Faulted(..) => (),
        }
    }

    /// What came in, and what it is.
    pub fn into_parts(self) -> (Incoming, Reading)
        ensures received { incoming_value result.0 ≡ self.received }
        ensures reading { result.1 ≡ self.reading }
        ensures arrival { IsArrival self }
    {
        match self.came {
            Came::Call(request) => {
                let (received, asked) = Box::into_inner(request).into_parts();
                (received, Reading::Asks(asked))
            }
            Came::Faulted(received, answer) => (received, Reading::Faulted(answer)),
        }
    }

    /// What came in, with the place of the call that it asks; or the record with its fault.
    #[inline(always)]
    pub(crate) fn into_came(self) -> Result<Box<Request>, Faulted>
        ensures { MatchResult result (λ request. (self ≡ came_value (Came.Call request)) × IsCame (Came.Call request))
            (λ faulted. self ≡ came_value (Came.Faulted faulted.received faulted.answer)) }
    {
        match self.came {
            Came::Call(request) => Ok(request),
            Came::Faulted(received, answer) => Err(Faulted { received, answer }),
        }
    }
}

/// A call that was executed, with what it was answered and the messages that it put.
#[derive(Drop)]
pub struct Executed {
    pub received: Incoming,
    pub reply: Reply,
    pub messages: Vec<Message>,
}
