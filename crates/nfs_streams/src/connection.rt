//! A connection of a peer, with no IO of its own.

ghost use Rattle.std.specs.Prelude.{◌≡◌, ℕ, ◌<◌, List, [], ◌∷◌, ◌++◌, false, length};
ghost use Rattle.std.specs.Prelude.{IfSome, IfNone, IsErrOf, OnOk};
ghost use Rattle.nfs_rpc.specs.Records.{Holds, IsTooLarge};
ghost use Rattle.nfs_schedule.specs.Answers.{reply_bytes};
ghost use Rattle.nfs_streams.specs.Connections.{CarriesOn, waiting};

use nfs_rpc::{Record, RecordError, Records};
use nfs_schedule::Answer;
use std::alloc::Global;
use std::marker::Model;

/// An answer of so many bytes is not copied: it waits as it is.
const LARGE: usize = 16_384;

/// With so many bytes gathered they are to be sent before the next answer.
const MOST_GATHERED: usize = 262_144;

/// With so many answers they are to be sent before the next one.
const MOST_ANSWERS: usize = 1_024;

/// What a peer sends, record by record, and the answers that wait to be sent to it. It reads and writes nothing.
///
/// Each piece that was read is taken in (`take_in`). Its records are answered one after the other (`next`, `put`) until
/// there is none, or the connection is full. Then what waits is sent: `gathered`, and `last` behind it (`sent`).
#[derive(Drop)]
pub struct Connection {
    records: Records,
    gathered: Vec<u8>,
    /// Behind those that are gathered, an answer that is not copied.
    last: Option<Answer>,
    /// How many answers wait.
    answers: usize,
}

impl Model for Connection {
    ghost use Rattle.nfs_streams.specs.Connections.{ConnectionValue};

    ghost Value = { ConnectionValue };

    ghost use Rattle.nfs_streams.specs.Inside.{value_of};

    ghost view = { value_of };
}

impl Connection {
    ghost use Rattle.nfs_streams.specs.Connections.{ConnectionValue, IsNew, SendsAll};

    /// A connection over which nothing has come yet.
    pub fn new(alloc: Global) -> Connection
        ensures { IsNew result }
    {
        Connection {
            records: Records::new(alloc),
            gathered: Vec::new(alloc),
            last: None,
            answers: 0,
        }
    }

    /// Takes the next piece of what the peer sends in. `TooLarge` where a fragment header brings a record above the
    /// limit, and from then on; the records before it are still given. At `Memory` nothing of the piece is taken.
    pub fn take_in(&mut self, piece: &[u8]) -> Result<(), RecordError>
        // What has come is the stream and the piece.
        ensures ok { OnOk result ((stream : List ℕ) (given : List (List ℕ)) → Holds self.old.records stream given
            → Holds self.new.records (stream ++ piece.now) given × ¬ IsTooLarge (stream ++ piece.now)) }
        ensures too_large { IsErrOf result RecordError.TooLarge
            → (stream : List ℕ) (given : List (List ℕ)) → Holds self.old.records stream given
            → Holds self.new.records (stream ++ piece.now) given × IsTooLarge (stream ++ piece.now) }
        ensures memory { IsErrOf result RecordError.Memory → self.new ≡ self.old }
        ensures answers { self.new ≡ record self.old { records = self.new.records } }
    {
        self.records.feed(piece)
    }

    /// The next whole record of what was taken in. It takes no memory.
    pub fn next(&mut self) -> Option<Record>
        ensures some { IfSome result (λ r.
            self.old.records ≡ record self.new.records { queued = r ∷ self.new.records.queued }) }
        ensures gives { IfSome result (λ r.
            (stream : List ℕ) (given : List (List ℕ)) → Holds self.old.records stream given
            → Holds self.new.records stream (given ++ r ∷ [])) }
        ensures none { IfNone result ((self.old.records.queued ≡ []) × (self.new ≡ self.old)) }
        ensures answers { self.new ≡ record self.old { records = self.new.records } }
        ensures waits { waiting self.new ≡ waiting self.old }
    {
        self.records.next()
    }

    /// Puts an answer behind those that wait, whole. One that is large is not copied, nor is one for which there is no
    /// memory.
    pub fn put(&mut self, answer: Answer)
        requires { self.old.full ≡ false }
        ensures waits { waiting self.new ≡ waiting self.old ++ reply_bytes answer }
        ensures records { self.new.records ≡ self.old.records }
    {
        self.answers += 1;
        if answer.bytes().len() < LARGE && self.gathered.extend_from_slice(answer.bytes()).is_ok() {
            drop(answer);
            return;
        }
        self.last = Some(answer);
    }

    /// Whether what waits is to be sent before the next answer. Else it is less than 262,144 bytes.
    pub fn is_full(&self) -> bool
        ensures full { result ≡ self.now.full }
        ensures few { result ≡ false → length (waiting self.now) < 262144 }
    {
        self.last.is_some() || self.gathered.len() >= MOST_GATHERED || self.answers >= MOST_ANSWERS
    }

    /// The bytes that are sent first.
    pub fn gathered(&self) -> &[u8]
        ensures { result.now ≡ self.now.gathered }
    {
        self.gathered.as_slice()
    }

    /// The bytes that are sent behind those that are gathered.
    pub fn last(&self) -> &[u8]
        ensures { result.now ≡ self.now.last }
    {
        match &self.last {
            Some(answer) => answer.bytes(),
            None => &[],
        }
    }

    /// All that waited was sent.
    pub fn sent(&mut self)
        ensures { SendsAll self.old self.new }
    {
        self.gathered.clear();
        drop(self.last.take());
        self.answers = 0;
    }
}

/// The law that what a connection carries goes on with each of its calls: the peer sent a stream, of which records were
/// given; answers were put, each whole and one behind the other, and of them some bytes were sent and the others wait.
pub fn connections_carry_on()
    ensures { CarriesOn }
{}
