//! XDR (RFC 4506): items read from bytes and written as bytes.
//!
//! A type of XDR is data (`Xdr`), and which bytes spell a value of it is a relation (`Spells`). A reader's
//! one clause says that it gives what reading from left to right gives (`Reads`), and a writer's that it
//! appends the value's bytes, with zeros as padding (`Writes`). The laws join both to `Spells`, for every
//! type. It stands on `byteorder` for words and on `bytes` for byte strings that are shared.
//!
//! What is said of the calls of any program, from the types of its procedures' arguments, stands in
//! `specs/Programs`, and its laws in `proofs/ProgramLaws`.
//!
//! A message is read or written by a plain function with `?`, whose clause is `ReadsFront` or
//! `WritesFront`; `wire_tests` has an example, a union and loops among them. Reading takes no memory; where byte
//! strings are shared behind it, want of memory is told only of a message that was read whole (`ReadsShared`).
#![tactic(auto)]

ghost use Rattle.std.specs.Prelude.{◌≡◌};

use std::alloc::{AllocError, AllocFailed};
use thiserror::Error;

mod arguments;
mod items;
mod laws;
mod list;
mod pieces;
mod reading;
mod shared;
mod writing;

pub use arguments::{ArgumentsError, are_bytes};
pub use laws::{
    reading_finds_spelling, refusal_means_unspelled, spelled_has_spelling, spelling_is_read,
    spelling_is_unique, writing_appends, writing_spells,
};
pub use list::XdrList;
pub use pieces::Pieces;
pub use reading::Reader;
pub use shared::{Part, SharedReader};
pub use writing::Writer;

/// Why an item could not be read or written.
#[derive(Clone, Copy, Debug, PartialEq, Eq, Error)]
pub enum XdrError {
    /// The bytes end before the item does.
    #[error("the bytes end before the item does")]
    Short,
    /// A length is above the bound of its item.
    #[error("a length is above its bound")]
    TooLong,
    /// A number stands for no value of the bool, enum or union.
    #[error("a number stands for no value")]
    BadValue,
    /// There is no memory for the item.
    #[error("out of memory")]
    Memory,
}

impl From<AllocError> for XdrError {
    ghost use Rattle.nfs_xdr.specs.declared.XdrError.TheVariants.{Memory};

    ghost from_gives = { λ _ e. e ≡ Memory };

    fn from(_error: AllocError) -> XdrError {
        XdrError::Memory
    }
}

impl<T: Drop> From<AllocFailed<T>> for XdrError {
    ghost use Rattle.nfs_xdr.specs.declared.XdrError.TheVariants.{Memory};

    ghost from_gives = { λ _ e. e ≡ Memory };

    fn from(_error: AllocFailed<T>) -> XdrError {
        XdrError::Memory
    }
}
