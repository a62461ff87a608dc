//! What a scene of a world is made of.

use nfs_schedule::Answer;

/// What happens next in a world, or what has to be so then.
#[derive(Clone, Copy)]
pub enum Move<'a> {
    /// What has this number comes in: a record, from this host, or exports.
    Arrive { from: &'a str, record: usize },
    /// This worker, from 1, takes a turn.
    Turn(usize),
    /// This worker is stopped.
    Stop(usize),
    /// The oldest message is taken.
    TakeMessage,
    /// The era ends, and the next begins.
    NewEra,
    /// The world has these counts.
    Counts(Counts),
    /// Each record that was refused, and not executed later, comes again, and worker 1 goes on to its end.
    Settle,
    /// No call is in progress, no address is held, and the era has as many records as were executed.
    Rest,
}

/// How many calls are in progress, and how many addresses are held; if that is told, how many records the era has, and
/// at how many addresses something stands.
#[derive(Clone, Copy)]
pub struct Counts {
    pub living: usize,
    pub locked: usize,
    pub records: Option<u64>,
    pub objects: Option<u64>,
}

/// A move, and the line that gave it.
#[derive(Clone, Copy)]
pub struct Step<'a> {
    pub line: u64,
    pub what: Move<'a>,
}

/// How a record is answered.
#[derive(Clone, Copy, PartialEq, Eq)]
pub enum Kind {
    /// Its call was executed, as the record with this number.
    Executed(u64),
    /// It came before, and gets the reply that is kept.
    Repeated,
    /// Its call was refused, and changed nothing.
    Refused,
    /// It has a fault.
    Early,
    /// It is not executed, and has no reply.
    Unanswered,
}

impl Kind {
    /// How an answer answers.
    pub fn of(answer: &Answer) -> Kind {
        match answer {
            Answer::Executed(receipt) => Kind::Executed(receipt.number),
            Answer::Repeated(_) => Kind::Repeated,
            Answer::Refused(_) => Kind::Refused,
            Answer::Early(_) => Kind::Early,
            Answer::Unanswered(_) => Kind::Unanswered,
        }
    }

    /// The word for it.
    pub fn word(self) -> &'static str {
        match self {
            Kind::Executed(_) => "executed",
            Kind::Repeated => "repeated",
            Kind::Refused => "refused",
            Kind::Early => "early",
            Kind::Unanswered => "unanswered",
        }
    }

    /// The number of the record that was executed; 0 where none was.
    pub fn number(self) -> u64 {
        match self {
            Kind::Executed(number) => number,
            _ => 0,
        }
    }
}

/// An answer that is wanted, and the line that gave it.
#[derive(Drop)]
pub struct Wanted<'a> {
    pub line: u64,
    /// Of several ends that a scene may have, to which one it belongs; 0 where it belongs to all.
    pub end: u64,
    pub from: &'a str,
    pub record: usize,
    pub kind: Kind,
    pub bytes: Vec<u8>,
}

/// A message that is wanted, and the line that gave it.
#[derive(Drop)]
pub struct Post {
    pub line: u64,
    pub bytes: Vec<u8>,
}

/// Where a world goes another way than its scene.
#[derive(Clone, Copy)]
pub enum Difference {
    /// Behind the move of this line it has these counts.
    Counts { line: u64, counts: Counts },
    /// Of its answers this one, from 0, is not this wanted one, from 0.
    Answer { wanted: usize, answer: usize },
    /// It has more answers, from this one on.
    More(usize),
    /// Of the messages that were taken this one, from 0, is not the one that is wanted.
    Post(usize),
}
