//! The descriptors of standard input, output and error, which are open before anything else is opened.

ghost use Rattle.std.specs.Prelude.{◌<ℤ◌, IfOk, pos};

use crate::exit::Exit;
use std::fs::{File, Files, OpenOptions};
use std::os::fd::{AsRawFd, IntoRawFd, RawFd};

/// The number of standard error, the last of the three.
const LAST_STANDARD: RawFd = 2;

/// How many files are opened at most until one is behind the three.
const MOST_OPENED: usize = 4;

/// What reads as empty, and takes all that is written.
const NOTHING: &str = "/dev/null";

/// Makes sure that standard input, output and error are open, so that no socket is taken for one of them: each that is
/// closed reads as empty, and takes what is written. It gives the number that the system gave last; an open file gets
/// the least that is free, so those below it are taken.
///
/// # Errors
///
/// `NoDescriptors` where a file that stands for them can't be opened.
pub fn open_standard<R: Files<File = File>>(rt: &R) -> Result<RawFd, Exit>
    ensures { IfOk result (λ number. pos 2 <ℤ number) }
{
    for _ in 0..MOST_OPENED {
        let Ok(file) = OpenOptions::new().read(true).write(true).open(rt, NOTHING) else {
            return Err(Exit::NoDescriptors);
        };
        let number = file.as_raw_fd();
        if number > LAST_STANDARD {
            // This one is closed again.
            return Ok(number);
        }
        // It stays open to the program's end.
        let _ = file.into_raw_fd();
    }
    Err(Exit::NoDescriptors)
}
