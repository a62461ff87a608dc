//! The forms of MOUNT version 3 (RFC 1813, appendix I) and of NLM version 4 (appendix II): arguments
//! read and results written; and the calls of NLM that the server makes, written, with what they are answered.
//!
//! A call that is read is spelled by a front of its arguments, and what is refused as garbage is
//! spelled, as a call of that procedure, by no front. What is written of a reply or a message is the one
//! spelling of it with zeros as padding. All stand on the types of XDR as data, and on the one reader,
//! writer and laws of `nfs_xdr`.
//!
//! A procedure is a variant of its program's call and reply; a line in each table of `specs/Mount` or
//! `specs/Nlm`; an arm of `read_call` with a function that reads its arguments, and one of
//! `append_result` with a function that writes its result; and a line for each of the three tables in
//! `proofs/MountLaws` or `proofs/NlmLaws`.
#![tactic(auto)]

mod clones;
pub mod message;
pub mod mount;
pub mod nlm;

pub use message::{
    Callback, Message, NlmLock, callbacks_are_calls, read_granted_result, write_message,
};
pub use mount::{
    ExportList, ExportNode, Groups, MountBody, MountCall, MountList, MountReply, MountStatus,
};
pub use nfs_xdr::ArgumentsError;
pub use nlm::{
    CancelArguments, FreeAllArguments, LockArguments, LockHolder, NlmCall, NlmReply, NlmResult,
    NlmShare, NlmStatus, ShareAccess, ShareArguments, ShareMode, TestArguments, TestResult,
    TestStatus, UnlockArguments,
};
