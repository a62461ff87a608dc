//! The forms of NFS version 3 (RFC 1813, section 3): arguments read and results written.
//!
//! A call that is read is spelled by a front of its arguments, and what is refused as garbage is
//! spelled, as a call of that procedure, by no front. What is written of a reply is the one spelling of
//! its result with zeros as padding. Both stand on the types of XDR as data, and on the one reader,
//! writer and laws of `nfs_xdr`.
//!
//! A procedure is a variant of `NfsCall` and of `NfsReply`. Its arguments have their XDR type and value
//! in `specs/Arguments`, and a line in each table of `specs/Calls`; a function in `calls/`, and an arm of
//! `read_call`; and how they are made again of their value in `proofs/ArgumentLaws`, with a line in the two
//! tables of `proofs/CallLaws`. Its result has its XDR type and value in `specs/Results`, and a line in
//! `specs/Replies`; and a function in `replies/`, with an arm of `append_result`.
#![tactic(auto)]

mod attributes;
mod calls;
mod entries;
mod replies;
mod status;

pub use attributes::{
    Attributes, DeviceNumber, FileType, SetAttributes, SetTime, Time, Wcc, WeakAttributes,
};
pub use calls::{
    AccessArguments, CommitArguments, CreateArguments, CreateHow, DirOp, LinkArguments,
    MkdirArguments, MknodArguments, NfsCall, Ordinary, ReadArguments, ReaddirArguments,
    ReaddirplusArguments, RenameArguments, SetattrArguments, Special, Stability, SymlinkArguments,
    Verifier, WriteArguments, one_call_is_spelled, read_args,
};
pub use entries::{FullEntry, FullNames, Names, PageEntry};
pub use nfs_xdr::{ArgumentsError, Pieces};
pub use replies::{
    AccessReply, CommitReply, FileSystem, Found, FsinfoReply, FsstatReply, LinkedReply,
    LookupReply, Made, MadeReply, NfsReply, Page, PagePlus, PathLimits, PathconfReply, ReadData,
    ReadReply, ReaddirReply, ReaddirplusReply, ReadlinkReply, RemovedReply, RenamedReply,
    SetattrReply, Space, WriteReply, Written, write_result,
};
pub use status::NfsStatus;
