//! A scene: what a new server is sent in one stream or more, and what it must answer.

use crate::fault::Fault;
use crate::handles::Handles;
use crate::messages::{USER_0, call_message, is_record, record, success_message, words_in};
use crate::posts::wanted_post;
use crate::server::{OPTIONS, Server};
use crate::stream::{Difference, Stream, part};
use nfs_server::Served;
use std::alloc::Global;
use std::mem;

/// A scene, and the stream that its server is sent next.
#[derive(Drop)]
pub struct Scene<'a> {
    pub alloc: Global,
    title: &'a str,
    server: Server,
    stream: Stream,
    /// The transaction id of the last call.
    xid: u32,
    /// The credential of calls.
    caller: Vec<u8>,
    /// Whether its records are sent one by one, and again where they are refused for want of memory.
    bears: bool,
    handles: Handles,
    /// Whether its records are not sent once more, cut.
    is_uncut: bool,
    /// Whether all was answered so far as it must be.
    pub is_kept: bool,
}

impl<'a> Scene<'a> {
    /// A scene that begins.
    pub fn new(alloc: Global, title: &'a str) -> Result<Scene<'a>, Fault> {
        let caller = USER_0.to_vec(alloc)?;
        Ok(Scene {
            alloc,
            title,
            server: Server::new(alloc, OPTIONS)?,
            stream: Stream::new(alloc),
            xid: 0,
            caller,
            bears: false,
            handles: Handles::new(alloc),
            is_uncut: false,
            is_kept: true,
        })
    }

    /// It bears that a record is refused for want of memory, which is sent again then.
    pub fn bear(&mut self) {
        self.bears = true;
    }

    /// Its records are not sent once more, cut.
    pub fn leave_uncut(&mut self) {
        self.is_uncut = true;
    }

    /// How many records were refused for want of memory.
    pub fn refused(&self) -> u64 {
        self.server.refused
    }

    /// The server is a new one that has the options of this command line.
    pub fn set_options(&mut self, options: &str) -> Result<(), Fault> {
        let server = Server::new(self.alloc, options)?;
        // Calls of `drop` here and below, since a drop at the end is proved for each exit.
        drop(mem::replace(&mut self.server, server));
        Ok(())
    }

    /// The next calls come from this host, in a stream of its own.
    pub fn set_host<R: Print>(&mut self, rt: &R, host: &str) -> Result<(), Fault> {
        self.play(rt)?;
        self.server.set_host(self.alloc, host)
    }

    /// The next calls come at this second, in a stream of their own.
    pub fn set_clock<R: Print>(&mut self, rt: &R, seconds: u32) -> Result<(), Fault> {
        self.play(rt)?;
        self.server.set_clock(seconds);
        Ok(())
    }

    /// The next call has this transaction id.
    pub fn set_xid(&mut self, xid: u32) {
        self.xid = xid.wrapping_sub(1);
    }

    /// What was sent last is sent again, and has the same answer again.
    pub fn repeat(&mut self, line: u64) -> Result<(), Fault> {
        Ok(self.stream.repeat(self.alloc, line)?)
    }

    /// The oldest message of the server's own that waits is this one.
    pub fn sent<R: Print>(&mut self, rt: &R, line: u64, words: &[u8]) -> Result<(), Fault> {
        let wanted = wanted_post(self.alloc, words)?;
        self.posted(rt, line, &wanted)
    }

    /// No message of the server's own waits.
    pub fn unsent<R: Print>(&mut self, rt: &R, line: u64) -> Result<(), Fault> {
        self.posted(rt, line, &[])
    }

    /// The oldest message that waits has these bytes.
    fn posted<R: Print>(&mut self, rt: &R, line: u64, wanted: &[u8]) -> Result<(), Fault> {
        self.play(rt)?;
        let given = self.server.message(self.alloc)?;
        if self.is_as(wanted, &given)? {
            return Ok(());
        }
        self.is_kept = false;
        self.tell(rt, line, wanted, &given)
    }

    /// What a line does that gives these bytes.
    pub fn take(&mut self, line: u64, verb: &str, bytes: &[u8]) -> Result<(), Fault> {
        match verb {
            "caller" => self.set_caller(bytes),
            "call" => self.call(bytes),
            "answer" => self.answer(line, bytes),
            "ask" => self.ask(bytes),
            "reply" => self.reply(line, bytes),
            "send" => Ok(self.stream.send(bytes)?),
            "receive" => Ok(self.stream.receive(line, bytes)?),
            _ => Err(Fault::Line("no line begins so")),
        }
    }

    fn set_caller(&mut self, credential: &[u8]) -> Result<(), Fault> {
        self.caller = credential.to_vec(self.alloc)?;
        Ok(())
    }

    /// A call is sent: its program, version and procedure, and its arguments.
    fn call(&mut self, words: &[u8]) -> Result<(), Fault> {
        let message = call_message(self.alloc, &self.caller, words)?;
        self.ask(&message)
    }

    /// The last call must be accepted with success, and these results.
    fn answer(&mut self, line: u64, results: &[u8]) -> Result<(), Fault> {
        let message = success_message(self.alloc, results)?;
        self.reply(line, &message)
    }

    /// A message is sent, with a new transaction id before it.
    fn ask(&mut self, message: &[u8]) -> Result<(), Fault> {
        self.xid = self.xid.wrapping_add(1);
        let record = record(self.alloc, self.xid, message)?;
        Ok(self.stream.send(&record)?)
    }

    /// The last message must be answered by this one, with its transaction id before it.
    fn reply(&mut self, line: u64, message: &[u8]) -> Result<(), Fault> {
        let record = record(self.alloc, self.xid, message)?;
        Ok(self.stream.receive(line, &record)?)
    }

    /// The server is sent the stream so far, and what it answers is compared.
    pub fn play<R: Print>(&mut self, rt: &R) -> Result<(), Fault> {
        let stream = mem::replace(&mut self.stream, Stream::new(self.alloc));
        let played = self.play_stream(rt, &stream);
        drop(stream);
        played
    }

    fn play_stream<R: Print>(&mut self, rt: &R, stream: &Stream) -> Result<(), Fault> {
        let is_answered = if self.bears {
            self.answers_singly(rt, stream)?
        } else {
            self.answers_whole(rt, stream)?
        };
        if !is_answered {
            self.is_kept = false;
            return Ok(());
        }
        if self.is_uncut {
            return Ok(());
        }
        self.cut(rt, stream)
    }

    /// Whether the stream is answered as it must be. Tells where it is not.
    fn answers_whole<R: Print>(&mut self, rt: &R, stream: &Stream) -> Result<bool, Fault> {
        let (written, end) = self.server.answers(self.alloc, &stream.calls, 0)?;
        if end == Ok(Served) && written.as_slice() == stream.replies.as_slice() {
            return Ok(true);
        }
        match stream.difference(&written) {
            Some(Difference { line, start, end }) => {
                let wanted = part(&stream.replies, start, end);
                self.tell(rt, line, wanted, part(&written, start, written.len()))?;
            }
            None => {
                let title = self.title;
                println!(rt; "{title}: there is more, or no good end")?;
            }
        }
        Ok(false)
    }

    /// Whether each record is answered as it must be, in a stream of its own. Tells which is not.
    fn answers_singly<R: Print>(&mut self, rt: &R, stream: &Stream) -> Result<bool, Fault> {
        for number in 0..stream.count() {
            if !self.answers_record(rt, stream, number)? {
                return Ok(false);
            }
        }
        Ok(true)
    }

    /// Whether the record with this number, from 0, is answered as it must be. Tells where it is not.
    fn answers_record<R: Print>(
        &mut self,
        rt: &R,
        stream: &Stream,
        number: usize,
    ) -> Result<bool, Fault> {
        let record = self.handles.applied(self.alloc, stream.call(number))?;
        let Difference { line, start, end } = stream.replies_to(number);
        let wanted = part(&stream.replies, start, end);
        let (written, end) = self
            .server
            .answers_at_last(self.alloc, &record, wanted.len())?;
        drop(record);
        if end == Ok(Served) && self.is_as(wanted, &written)? {
            return Ok(true);
        }
        self.tell(rt, line, wanted, &written)?;
        Ok(false)
    }

    /// Whether what was given is what is wanted. Behind a refusal handles and numbers may be others.
    fn is_as(&mut self, wanted: &[u8], given: &[u8]) -> Result<bool, Fault> {
        let is_admitted = self.handles.admit(wanted, given)?;
        if self.server.refused == 0 {
            return Ok(wanted == given);
        }
        Ok(is_admitted)
    }

    /// Streams that end within a record of this one have no answer and change nothing.
    fn cut<R: Print>(&mut self, rt: &R, stream: &Stream) -> Result<(), Fault> {
        for number in 0..stream.count() {
            let call = stream.call(number);
            if is_record(call) && !self.server.leaves_fronts(self.alloc, call)? {
                self.is_kept = false;
                let title = self.title;
                println!(rt;
                    "{title}: a front of call {number} is answered, or changes something"
                )?;
            }
        }
        Ok(())
    }

    /// Tells what an answer of this line must be, and what it is.
    fn tell<R: Print>(&self, rt: &R, line: u64, wanted: &[u8], given: &[u8]) -> Result<(), Fault> {
        let title = self.title;
        println!(rt; "line {line}: {title}")?;
        let wanted = words_in(self.alloc, wanted)?;
        println!(rt; "  must be {wanted}")?;
        let given = words_in(self.alloc, given)?;
        println!(rt; "  is      {given}")?;
        Ok(())
    }
}
