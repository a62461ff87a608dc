//! Readers and writers that do not go on as the simplest do.

use std::io::{Error, ErrorKind, Read, Result, Write};

/// How a reader goes.
#[derive(Clone, Copy)]
pub(super) struct Pace {
    /// How many reads come before the one that fails.
    pub good: u64,
    /// How many bytes a read gives at most.
    pub most: usize,
}

/// A reader that gives what it has.
pub(super) const READS_ALL: Pace = Pace {
    good: u64::MAX,
    most: usize::MAX,
};

/// A reader that goes so.
#[derive(Drop)]
pub(super) struct Failing<R> {
    pub reader: R,
    pub pace: Pace,
}

impl<R: Read> Read for Failing<R> {
    fn read(&mut self, buffer: &mut [u8]) -> Result<usize> {
        if self.pace.good == 0 {
            return Err(Error::from(ErrorKind::Other));
        }
        self.pace.good -= 1;
        let most = buffer.len().min(self.pace.most);
        self.reader.read(&mut buffer[..most])
    }
}

/// What a writer does that has trouble.
#[derive(Clone, Copy)]
pub(super) enum Trouble {
    /// The write behind the good ones fails.
    Fails,
    /// It takes nothing.
    TakesNothing,
    /// The flush behind so many good ones fails.
    IsNotFlushed(usize),
}

/// How a writer goes.
#[derive(Clone, Copy)]
pub(super) struct Course {
    /// How many writes come before the trouble.
    pub good: u64,
    /// How many bytes a write takes at most.
    pub most: usize,
    pub trouble: Trouble,
}

/// A writer that takes what it is given.
pub(super) const WRITES_ALL: Course = Course {
    good: u64::MAX,
    most: usize::MAX,
    trouble: Trouble::Fails,
};

/// A writer that goes so, and knows how many bytes it had at each flush.
#[derive(Drop)]
pub(super) struct Choppy {
    pub written: Vec<u8>,
    pub flushes: Vec<usize>,
    pub course: Course,
}

impl Write for Choppy {
    fn write(&mut self, buffer: &[u8]) -> Result<usize> {
        if self.course.good == 0 {
            return match self.course.trouble {
                Trouble::TakesNothing => Ok(0),
                _ => Err(Error::from(ErrorKind::Other)),
            };
        }
        self.course.good -= 1;
        let count = buffer.len().min(self.course.most);
        self.written.extend_from_slice(&buffer[..count])?;
        Ok(count)
    }

    fn flush(&mut self) -> Result<()> {
        match self.course.trouble {
            Trouble::IsNotFlushed(good) if self.flushes.len() >= good => {
                Err(Error::from(ErrorKind::Other))
            }
            _ => {
                self.flushes.push(self.written.len())?;
                Ok(())
            }
        }
    }
}
