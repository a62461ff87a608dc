//! A scene of a world: what comes in, which of two workers makes a step, and what has to be so and to be answered then.

use crate::fault::Fault;
use crate::messages::{USER_0, call_message, joined, record, success_message};
use crate::posts::wanted_post;
use crate::server::OPTIONS;
use crate::steps::{Counts, Kind, Move, Post, Step, Wanted};
use std::alloc::{AllocError, Global};

/// The host that calls where a scene says nothing.
pub const HOST: &str = "10.0.0.1";

/// A scene of a world. What comes in is numbered from 1.
#[derive(Drop)]
pub struct WorldScene<'a> {
    pub alloc: Global,
    pub title: &'a str,
    /// The command line of the server whose engine it is.
    pub options: &'a str,
    /// The host from which the next record comes, and to which the next answer goes.
    from: &'a str,
    /// The credential of calls.
    caller: Vec<u8>,
    /// The transaction id of the next record, where that is not the record's number.
    xid: Option<u32>,
    /// What comes in; no byte where that is exports.
    pub records: Vec<Vec<u8>>,
    /// The exports that come in, each list with its number.
    lists: Vec<(usize, &'a str)>,
    pub steps: Vec<Step<'a>>,
    pub wanted: Vec<Wanted<'a>>,
    /// The messages that are taken, in order.
    pub posts: Vec<Post>,
    /// The last of several ends that it may have, from 1; 0 where it has one.
    pub end: u64,
    /// How many of its steps are its opening.
    pub opening: usize,
    /// How many of its steps come before what is asked behind a stop; none where nothing is.
    asked: Option<usize>,
    /// Whether it is played with a worker stopped after any step.
    pub is_stopped: bool,
}

impl<'a> WorldScene<'a> {
    /// A scene that begins.
    pub fn new(alloc: Global, title: &'a str) -> Result<WorldScene<'a>, Fault> {
        let caller = USER_0.to_vec(alloc)?;
        Ok(WorldScene {
            alloc,
            title,
            options: OPTIONS,
            from: HOST,
            caller,
            xid: None,
            records: Vec::new(alloc),
            lists: Vec::new(alloc),
            steps: Vec::new(alloc),
            wanted: Vec::new(alloc),
            posts: Vec::new(alloc),
            end: 0,
            opening: 0,
            asked: None,
            is_stopped: false,
        })
    }

    /// The server has the options of this command line.
    pub fn set_options(&mut self, options: &'a str) {
        self.options = options;
    }

    /// The next records come from this host, and the next answers go to it.
    pub fn set_host(&mut self, host: &'a str) {
        self.from = host;
    }

    /// The next record has this transaction id.
    pub fn set_xid(&mut self, xid: u32) {
        self.xid = Some(xid);
    }

    /// What a line does that gives these bytes.
    pub fn take(&mut self, line: u64, verb: &str, bytes: &[u8]) -> Result<(), Fault> {
        match verb {
            "caller" => self.set_caller(bytes),
            "arrive" => self.arrive(line, bytes),
            "ask" => self.ask(line, bytes),
            "executed" => self.executed(line, bytes),
            "taken" => self.taken(line, bytes),
            "early" => self.early(line, bytes),
            "message" => self.add(line, Move::TakeMessage),
            "era" => self.add(line, Move::NewEra),
            "settle" => self.add(line, Move::Settle),
            "open" | "stops" => {
                self.opening = self.steps.len();
                self.is_stopped = verb == "stops";
                Ok(())
            }
            "then" => {
                self.asked = Some(self.steps.len());
                Ok(())
            }
            "either" => {
                self.end = self.end.wrapping_add(1);
                Ok(())
            }
            _ => self.take_numbers(line, verb, bytes),
        }
    }

    /// What a line does that begins with a number.
    fn take_numbers(&mut self, line: u64, verb: &str, bytes: &[u8]) -> Result<(), Fault> {
        let (first, rest) = number(bytes)?;
        match verb {
            "again" => self.arrives(line, first),
            "turn" => self.turns(line, first, rest),
            "rounds" => self.rounds(line, first),
            "stop" => self.add(line, Move::Stop(first)),
            "counts" => self.counts(line, first, rest),
            "replaced" => self.replaced(line, first, rest),
            "repeated" => self.repeated(line, first),
            "unanswered" => self.unwritten(line, first, Kind::Unanswered),
            "dropped" => self.unwritten(line, first, Kind::Early),
            _ => Err(Fault::Line("no line begins so")),
        }
    }

    fn set_caller(&mut self, credential: &[u8]) -> Result<(), Fault> {
        self.caller = credential.to_vec(self.alloc)?;
        Ok(())
    }

    /// A call comes in: its program, version and procedure, and its arguments.
    fn arrive(&mut self, line: u64, words: &[u8]) -> Result<(), Fault> {
        let message = call_message(self.alloc, &self.caller, words)?;
        self.ask(line, &message)
    }

    /// A message comes in, with a transaction id before it.
    fn ask(&mut self, line: u64, message: &[u8]) -> Result<(), Fault> {
        let number = self.records.len().wrapping_add(1);
        let xid = self.xid.take().unwrap_or(low_word(number));
        let record = joined(self.alloc, &[&xid.to_be_bytes(), message])?;
        self.records.push(record)?;
        self.arrives(line, number)
    }

    /// These exports come in, which replace those before.
    pub fn exports(&mut self, line: u64, list: &'a str) -> Result<(), Fault> {
        self.records.push(Vec::new(self.alloc))?;
        let number = self.records.len();
        self.lists.push((number, list))?;
        self.arrives(line, number)
    }

    /// What has this number comes in.
    fn arrives(&mut self, line: u64, record: usize) -> Result<(), Fault> {
        let from = self.from;
        self.add(line, Move::Arrive { from, record })
    }

    /// A worker takes a turn, or so many.
    fn turns(&mut self, line: u64, worker: usize, rest: &[u8]) -> Result<(), Fault> {
        let count = if rest.is_empty() { 1 } else { number(rest)?.0 };
        for _turn in 0..count {
            self.add(line, Move::Turn(worker))?;
        }
        Ok(())
    }

    /// Worker 1 takes a turn, and then worker 2, so many times.
    fn rounds(&mut self, line: u64, count: usize) -> Result<(), Fault> {
        for _round in 0..count {
            self.add(line, Move::Turn(1))?;
            self.add(line, Move::Turn(2))?;
        }
        Ok(())
    }

    /// So many calls are in progress then, and so many addresses are held. If that is told, the era has so many
    /// records, and something stands at so many addresses.
    fn counts(&mut self, line: u64, living: usize, rest: &[u8]) -> Result<(), Fault> {
        let (locked, rest) = number(rest)?;
        let (records, rest) = number_told(rest)?;
        let (objects, _rest) = number_told(rest)?;
        let counts = Counts {
            living,
            locked,
            records,
            objects,
        };
        self.add(line, Move::Counts(counts))
    }

    fn add(&mut self, line: u64, what: Move<'a>) -> Result<(), Fault> {
        self.steps.push(Step { line, what })?;
        Ok(())
    }

    /// A record's call is executed as the record with this number, and has these results.
    fn executed(&mut self, line: u64, words: &[u8]) -> Result<(), Fault> {
        let (record, rest) = number(words)?;
        let (number, results) = number(rest)?;
        let message = success_message(self.alloc, results)?;
        self.answered(line, record, Kind::Executed(number as u64), &message)
    }

    /// Exports replace those before, as the record with this number.
    fn replaced(&mut self, line: u64, arrival: usize, rest: &[u8]) -> Result<(), Fault> {
        let (number, _rest) = number(rest)?;
        self.unwritten(line, arrival, Kind::Executed(number as u64))
    }

    /// The next message that is taken is this one.
    fn taken(&mut self, line: u64, words: &[u8]) -> Result<(), Fault> {
        let bytes = wanted_post(self.alloc, words)?;
        self.posts.push(Post { line, bytes })?;
        Ok(())
    }

    /// A record has a fault, and this reply.
    fn early(&mut self, line: u64, words: &[u8]) -> Result<(), Fault> {
        let (record, message) = number(words)?;
        self.answered(line, record, Kind::Early, message)
    }

    /// A record has an answer of no bytes.
    fn unwritten(&mut self, line: u64, record: usize, kind: Kind) -> Result<(), Fault> {
        let nothing = Vec::new(self.alloc);
        self.wants(line, record, kind, nothing)
    }

    /// A record came before, and gets the same reply again.
    fn repeated(&mut self, line: u64, record: usize) -> Result<(), Fault> {
        let mut bytes = Vec::new(self.alloc);
        for wanted in &self.wanted {
            if wanted.record == record && wanted.from == self.from && !wanted.bytes.is_empty() {
                bytes.clear();
                bytes.extend_from_slice(wanted.bytes.as_slice())?;
            }
        }
        self.wants(line, record, Kind::Repeated, bytes)
    }

    /// A record is answered so, by this message with the record's transaction id.
    fn answered(
        &mut self,
        line: u64,
        record_number: usize,
        kind: Kind,
        message: &[u8],
    ) -> Result<(), Fault> {
        let (xid, _) = number(self.record(record_number))?;
        let bytes = record(self.alloc, low_word(xid), message)?;
        self.wants(line, record_number, kind, bytes)
    }

    fn wants(&mut self, line: u64, record: usize, kind: Kind, bytes: Vec<u8>) -> Result<(), Fault> {
        self.wanted.push(Wanted {
            line,
            end: self.end,
            from: self.from,
            record,
            kind,
            bytes,
        })?;
        Ok(())
    }

    /// How many of its steps come before what is asked behind a stop.
    pub fn stoppable(&self) -> usize {
        self.asked.unwrap_or(self.steps.len())
    }

    /// The record of this number; none where there is no such record.
    pub fn record(&self, number: usize) -> &[u8] {
        match self.records.get(number.wrapping_sub(1)) {
            Some(record) => record,
            None => &[],
        }
    }

    /// The exports that have this number, if exports have it.
    pub fn list(&self, number: usize) -> Option<&'a str> {
        for (at, list) in &self.lists {
            if *at == number {
                return Some(list);
            }
        }
        None
    }
}

/// The number with which words begin, and the words behind it.
fn number(words: &[u8]) -> Result<(usize, &[u8]), Fault> {
    match words.split_at_checked(4) {
        Some(([a, b, c, d], rest)) => { Ok((u32::from_be_bytes([*a, *b, *c, *d]) as usize, rest)) }
        _ => Err(Fault::Line("a number is missing")),
    }
}

/// The number with which words begin, if there are any, and the words behind it.
fn number_told(words: &[u8]) -> Result<(Option<u64>, &[u8]), Fault> {
    if words.is_empty() {
        return Ok((None, words));
    }
    let (number, rest) = number(words)?;
    Ok((Some(number as u64), rest))
}

/// The low 32 bits of a number.
fn low_word(number: usize) -> u32 {
    (number & 0xffff_ffff) as u32
}
