//! What a call is answered that is refused for want of memory: by a status, where the procedure has one (RFC 1813, 2.6,
//! 5.1.5 and 6.1.4), and else by SYSTEM_ERR (RFC 5531, section 9).

use crate::fault::Fault;
use crate::messages::{joined, opaque_size, record, success_message};
use crate::stream::part;
use std::alloc::Global;

/// NFS, MOUNT and NLM.
const NFS: u32 = 100003;

const MOUNT: u32 = 100005;

const NLM: u32 = 100021;

/// MNT of MOUNT, and SHARE and UNSHARE of NLM, whose results have a sequence.
const MNT: u32 = 1;

const SHARE: u32 = 20;

const UNSHARE: u32 = 21;

/// NFS3ERR_JUKEBOX, MNT3ERR_SERVERFAULT and NLM4_DENIED_NOLOCKS.
const JUKEBOX: [u8; 4] = [0, 0, 0x27, 0x18];

const SERVERFAULT: [u8; 4] = [0, 0, 0x27, 0x16];

const DENIED_NOLOCKS: [u8; 4] = [0, 0, 0, 2];

/// That a call is accepted, and met an error of the system.
const SYSTEM_ERROR: [u8; 20] = [0, 0, 0, 1, 0, 0, 0, 0, 0, 0, 0, 0, 0, 0, 0, 0, 0, 0, 0, 5];

/// What hides an object's attributes, by words: none, those of an object, of one before and behind, of one and of the
/// directory of its link, of two directories.
const NOTHING: [u8; 16] = [0; 16];

/// Where the transaction id of a call stands in its record, its program, its procedure and its credential.
const XID: usize = 4;

const PROGRAM: usize = 16;

const PROCEDURE: usize = 24;

const CREDENTIAL: usize = 28;

/// The answer to the call of this record where it is refused for want of memory.
pub fn refusal_to(alloc: Global, call: &[u8]) -> Result<Vec<u8>, Fault> {
    let message = match results(alloc, call)? {
        Some(results) => {
            let message = success_message(alloc, &results);
            drop(results);
            message?
        }
        None => SYSTEM_ERROR.to_vec(alloc)?,
    };
    let refusal = record(alloc, word(call, XID), &message);
    drop(message);
    refusal
}

/// The results of the call of this record where it is refused; none where no status tells that.
fn results(alloc: Global, call: &[u8]) -> Result<Option<Vec<u8>>, Fault> {
    let procedure = word(call, PROCEDURE);
    let results = match word(call, PROGRAM) {
        NFS if 0 < procedure && procedure <= 21 => {
            joined(alloc, &[&JUKEBOX, part(&NOTHING, 0, hidden(procedure))])?
        }
        MOUNT if procedure == MNT => SERVERFAULT.to_vec(alloc)?,
        NLM if is_deniable(procedure) => {
            let sequence = if procedure == SHARE || procedure == UNSHARE {
                4
            } else {
                0
            };
            joined(
                alloc,
                &[cookie(call), &DENIED_NOLOCKS, part(&NOTHING, 0, sequence)],
            )?
        }
        _ => return Ok(None),
    };
    Ok(Some(results))
}

/// How many bytes follow the status of NFS in a reply that shows no object.
fn hidden(procedure: u32) -> usize {
    match procedure {
        // GETATTR
        1 => 0,
        // LOOKUP, ACCESS, READLINK, READ; READDIR to PATHCONF
        3..=6 | 16..=20 => 4,
        // RENAME
        14 => 16,
        // LINK
        15 => 12,
        // SETATTR; WRITE to RMDIR; COMMIT
        _ => 8,
    }
}

/// Whether the results of a procedure of NLM have a status: TEST to GRANTED, and SHARE, UNSHARE and NM_LOCK.
fn is_deniable(procedure: u32) -> bool {
    matches!(procedure, 1..=5 | 20..=22)
}

/// The cookie of a call of NLM, with its length: the first of its arguments.
fn cookie(call: &[u8]) -> &[u8] {
    let arguments = behind_opaque(behind_opaque(part(call, CREDENTIAL, call.len())));
    part(arguments, 0, opaque_size(arguments))
}

/// What stands behind a credential or verifier: its flavor, and its body with its length.
fn behind_opaque(bytes: &[u8]) -> &[u8] {
    let body = part(bytes, 4, bytes.len());
    part(body, opaque_size(body), body.len())
}

/// The word at this place; 0 where there is none.
fn word(bytes: &[u8], place: usize) -> u32 {
    match part(bytes, place, place.wrapping_add(4)) {
        [a, b, c, d] => u32::from_be_bytes([*a, *b, *c, *d]),
        _ => 0,
    }
}
