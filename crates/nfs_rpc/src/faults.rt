//! What can be wrong with a call, and what it is answered.

/// Why a call is not carried out (RFC 5531, section 9).
#[derive(Clone, Copy, PartialEq, Eq)]
pub enum Fault {
    /// RPC_MISMATCH: the RPC version is not 2.
    RpcMismatch,
    /// AUTH_ERROR with AUTH_BADCRED: a credential of another flavor, or one that can't be read.
    BadCredential,
    /// PROG_UNAVAIL: no such program.
    ProgramUnavailable,
    /// PROG_MISMATCH: the program is there in the versions from low to high.
    ProgramMismatch { low: u32, high: u32 },
    /// PROC_UNAVAIL: the program has no such procedure, or it is not built.
    ProcedureUnavailable,
    /// GARBAGE_ARGS: the arguments can't be read.
    GarbageArguments,
    /// SYSTEM_ERR: the server is at fault, as by want of memory.
    SystemError,
}

/// What a call is answered, before its results.
#[derive(Clone, Copy, PartialEq, Eq)]
pub enum ReplyHead {
    /// SUCCESS: the call was carried out, and its results follow.
    Success,
    /// The call was not carried out.
    Failure(Fault),
}

/// How a record ends that is no call to be carried out.
#[derive(Clone, Copy, PartialEq, Eq)]
pub enum Early {
    /// It is no call, or its header can't be read: there is no answer.
    Drop,
    /// The call is at fault.
    Answer { xid: u32, fault: Fault },
}
