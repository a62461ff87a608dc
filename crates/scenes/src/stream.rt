//! What a server is sent in one stream, and what it must answer.

use std::alloc::{AllocError, Global};

/// Where a part of the answers ends, and the line that gave it.
#[derive(Clone, Copy)]
struct Row {
    line: u64,
    end: usize,
}

/// Where answers differ from what they must be: a line, where what it gave begins, and where it ends.
#[derive(Clone, Copy)]
pub struct Difference {
    pub line: u64,
    pub start: usize,
    pub end: usize,
}

/// Where a call begins, and where its replies do.
#[derive(Clone, Copy)]
struct Start {
    call: usize,
    reply: usize,
}

/// What a server is sent, and what it must answer.
#[derive(Drop)]
pub struct Stream {
    pub calls: Vec<u8>,
    pub replies: Vec<u8>,
    starts: Vec<Start>,
    /// The parts of the replies.
    rows: Vec<Row>,
    /// Where the last reply begins.
    last_reply: usize,
}

impl Stream {
    pub fn new(alloc: Global) -> Stream {
        Stream {
            calls: Vec::new(alloc),
            replies: Vec::new(alloc),
            starts: Vec::new(alloc),
            rows: Vec::new(alloc),
            last_reply: 0,
        }
    }

    /// These bytes are sent.
    pub fn send(&mut self, bytes: &[u8]) -> Result<(), AllocError> {
        let start = self.end();
        self.starts.push(start)?;
        self.calls.extend_from_slice(bytes)
    }

    /// These bytes must be answered, as this line says.
    pub fn receive(&mut self, line: u64, bytes: &[u8]) -> Result<(), AllocError> {
        self.last_reply = self.replies.len();
        self.replies.extend_from_slice(bytes)?;
        let end = self.replies.len();
        self.rows.push(Row { line, end })?;
        Ok(())
    }

    /// What was sent last is sent again, and has the same answer again.
    pub fn repeat(&mut self, alloc: Global, line: u64) -> Result<(), AllocError> {
        let start = self.starts.last().copied().unwrap_or(self.end());
        let call = copy_from(alloc, &self.calls, start.call)?;
        self.send(&call)?;
        let reply = copy_from(alloc, &self.replies, self.last_reply)?;
        self.receive(line, &reply)
    }

    /// How many calls were sent.
    pub fn count(&self) -> usize {
        self.starts.len()
    }

    /// The call with this number, from 0.
    pub fn call(&self, number: usize) -> &[u8] {
        let next = self.start_of(number.wrapping_add(1));
        part(&self.calls, self.start_of(number).call, next.call)
    }

    /// Where its replies stand, and the line that gave the last of them.
    pub fn replies_to(&self, number: usize) -> Difference {
        let start = self.start_of(number).reply;
        let end = self.start_of(number.wrapping_add(1)).reply;
        let mut line = 0;
        for row in &self.rows {
            if row.end == end {
                line = row.line;
            }
        }
        Difference { line, start, end }
    }

    /// Where the call with this number begins, or the end.
    fn start_of(&self, number: usize) -> Start {
        self.starts.get(number).copied().unwrap_or(self.end())
    }

    /// Where the next call begins.
    fn end(&self) -> Start {
        Start {
            call: self.calls.len(),
            reply: self.replies.len(),
        }
    }

    /// The first part of the replies that is not what was written.
    pub fn difference(&self, written: &[u8]) -> Option<Difference> {
        let mut start = 0;
        for row in &self.rows {
            let Row { line, end } = *row;
            if part(written, start, end) != part(&self.replies, start, end) {
                return Some(Difference { line, start, end });
            }
            start = end;
        }
        None
    }
}

fn copy_from(alloc: Global, bytes: &[u8], start: usize) -> Result<Vec<u8>, AllocError> {
    part(bytes, start, bytes.len()).to_vec(alloc)
}

/// The bytes between these places, or none where there are no such places.
pub fn part(bytes: &[u8], start: usize, end: usize) -> &[u8] {
    bytes.get(start..end).unwrap_or(&[])
}
