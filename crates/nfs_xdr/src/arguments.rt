//! What reading the arguments of a program's call answers beside the call.

ghost use Rattle.nfs_xdr.specs.Laws.{IsBytes};

use crate::XdrError;
use thiserror::Error;

/// Why arguments were not read.
#[derive(Clone, Copy, Debug, PartialEq, Eq, Error)]
pub enum ArgumentsError {
    /// They are no arguments of the procedure.
    #[error("the arguments can't be read")]
    Garbage,
    /// There is no memory to share their bytes.
    #[error("out of memory")]
    Memory,
}

impl From<XdrError> for ArgumentsError {
    ghost use Rattle.std.specs.Prelude.{◌≡◌};
    ghost use Rattle.nfs_xdr.specs.Programs.{arguments_error};

    ghost from_gives = { λ error answer. answer ≡ arguments_error error };

    fn from(error: XdrError) -> ArgumentsError {
        match error {
            XdrError::Short | XdrError::TooLong | XdrError::BadValue => ArgumentsError::Garbage,
            XdrError::Memory => ArgumentsError::Memory,
        }
    }
}

/// The items of a slice are bytes, which is what the laws of reading ask of what is read.
pub fn are_bytes(bytes: &[u8])
    ensures { IsBytes bytes.now }
{}
