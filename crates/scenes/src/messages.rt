//! Messages of RPC as a scene spells them (RFC 5531, sections 9 and 11), and how bytes are shown.

use crate::fault::Fault;
use std::alloc::{AllocError, Global};
use std::fmt::Write;

/// AUTH_SYS of user 0 and group 0 (RFC 5531, appendix A), the credential of calls where a scene gives none.
pub const USER_0: [u8; 28] = [
    0, 0, 0, 1, 0, 0, 0, 20, 0, 0, 0, 0, 0, 0, 0, 0, 0, 0, 0, 0, 0, 0, 0, 0, 0, 0, 0, 0,
];

/// How many bytes the program, the version and the procedure of a call have, with which its words begin.
const PROCEDURE: usize = 12;

/// How many bytes are shown at most of an answer.
const MOST_SHOWN: usize = 2048;

/// A call with this credential, behind its transaction id. Its words are program, version, procedure and arguments.
pub fn call_message(alloc: Global, caller: &[u8], words: &[u8]) -> Result<Vec<u8>, Fault> {
    let Some((procedure, arguments)) = words.split_at_checked(PROCEDURE) else {
        return Err(Fault::Line("a call has a program, a version and a procedure"));
    };
    let mut message = Vec::new(alloc);
    message.extend_from_slice(&[0, 0, 0, 0, 0, 0, 0, 2])?;
    message.extend_from_slice(procedure)?;
    message.extend_from_slice(caller)?;
    message.extend_from_slice(&[0; 8])?;
    message.extend_from_slice(arguments)?;
    Ok(message)
}

/// The reply that a call is accepted and done, with these results, behind its transaction id.
pub fn success_message(alloc: Global, results: &[u8]) -> Result<Vec<u8>, AllocError> {
    let accepted = [0, 0, 0, 1, 0, 0, 0, 0, 0, 0, 0, 0, 0, 0, 0, 0, 0, 0, 0, 0];
    joined(alloc, &[&accepted, results])
}

/// A record of one fragment, with its mark, a transaction id and what follows it.
pub fn record(alloc: Global, xid: u32, message: &[u8]) -> Result<Vec<u8>, Fault> {
    let Ok(length) = u32::try_from(message.len()) else {
        return Err(Fault::Line("a record of so many bytes has no mark"));
    };
    let mark = 0x80000000 | length.wrapping_add(4);
    Ok(joined(alloc, &[&mark.to_be_bytes(), &xid.to_be_bytes(), message])?)
}

/// Whether bytes are a record of one fragment.
pub fn is_record(bytes: &[u8]) -> bool {
    match bytes.split_at_checked(4) {
        Some(([a, b, c, d], message)) => {
            let mark = u32::from_be_bytes([*a, *b, *c, *d]) as usize;
            mark == 0x80000000 | message.len()
        }
        _ => false,
    }
}

/// These bytes, one after the other.
pub fn joined(alloc: Global, parts: &[&[u8]]) -> Result<Vec<u8>, AllocError> {
    let mut bytes = Vec::new(alloc);
    for part in parts {
        bytes.extend_from_slice(part)?;
    }
    Ok(bytes)
}

/// How many bytes a string has with its length and its padding, with which these begin (RFC 4506, 4.10 and 4.11).
pub fn opaque_size(bytes: &[u8]) -> usize {
    match bytes {
        [a, b, c, d, ..] => {
            let length = u32::from_be_bytes([*a, *b, *c, *d]) as usize;
            length.div_ceil(4).saturating_mul(4).saturating_add(4)
        }
        _ => usize::MAX,
    }
}

/// Bytes in hexadecimal digits, by words.
pub fn words_in(alloc: Global, bytes: &[u8]) -> Result<String, AllocError> {
    let mut text = String::new(alloc);
    for (place, byte) in bytes.iter().take(MOST_SHOWN).enumerate() {
        if place % 4 == 0 {
            text.push(' ')?;
        }
        write!(text, "{byte:02x}")?;
    }
    Ok(text)
}
