//! The numbers of messages (RFC 5531, sections 8.2 and 9, and appendix A).

/// The version of RPC.
pub const RPC_VERSION: u32 = 2;

/// The msg_type of a call.
pub const CALL: u32 = 0;

/// The msg_type of a reply.
pub const REPLY: u32 = 1;

/// The reply_stat where a call was accepted, which says nothing of how it went.
pub const MSG_ACCEPTED: u32 = 0;

/// The reply_stat where a call was denied.
pub const MSG_DENIED: u32 = 1;

/// The accept_stat of a call that was executed.
pub const SUCCESS: u32 = 0;

/// The accept_stat where there is no such program.
pub const PROG_UNAVAIL: u32 = 1;

/// The accept_stat where the program has no such version.
pub const PROG_MISMATCH: u32 = 2;

/// The accept_stat where the program has no such procedure.
pub const PROC_UNAVAIL: u32 = 3;

/// The accept_stat where the arguments can't be read.
pub const GARBAGE_ARGS: u32 = 4;

/// The accept_stat where the server failed, as for want of memory.
pub const SYSTEM_ERR: u32 = 5;

/// The reject_stat of a call in another version of RPC.
pub const RPC_MISMATCH: u32 = 0;

/// The reject_stat of a call whose credential or verifier is refused.
pub const AUTH_ERROR: u32 = 1;

/// The auth_stat of a bad credential.
pub const AUTH_BADCRED: u32 = 1;

/// The flavor of a credential that names nobody.
pub const AUTH_NONE: u32 = 0;

/// The flavor of a credential that names a user and groups.
pub const AUTH_SYS: u32 = 1;

/// The length of a verifier of no bytes.
pub const NO_BYTES: u32 = 0;

/// The most bytes of a credential's or a verifier's body.
pub const AUTH_LIMIT: usize = 400;

/// The most bytes of a machine's name in a credential.
pub const MACHINE_LIMIT: usize = 255;
