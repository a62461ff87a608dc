//! Messages of the server's own, as a scene tells them: the number, the host, and the call behind its transaction id.

use crate::fault::Fault;
use crate::messages::{call_message, joined, opaque_size};
use nfs_engine::Posted;
use nfs_xdr::{Writer, XdrError};
use side_wire::write_message;
use std::alloc::Global;

/// AUTH_NONE, the credential of the server's own calls (RFC 5531, 8.1).
const NO_CREDENTIAL: [u8; 8] = [0; 8];

/// The most bytes of a host.
const HOST_LIMIT: usize = 255;

/// What a message is compared by: its number, its host as a string, and its call.
pub fn given_post(alloc: Global, posted: &Posted) -> Result<Vec<u8>, Fault> {
    match spelled(alloc, posted) {
        Ok(bytes) => Ok(bytes),
        Err(XdrError::TooLong) => Err(Fault::Line("a host is longer than it may be")),
        Err(_) => Err(Fault::Memory),
    }
}

fn spelled(alloc: Global, posted: &Posted) -> Result<Vec<u8>, XdrError> {
    let host = posted.message.host.as_slice();
    if host.len() > HOST_LIMIT {
        return Err(XdrError::TooLong);
    }
    let number = (posted.number & 0xffff_ffff) as u32;
    let mut writer = Writer::new(alloc);
    writer.u32(number)?;
    writer.opaque(host)?;
    write_message(&mut writer, number, &posted.message)?;
    Ok(writer.into_vec())
}

/// The same from the words of a line: the number, the host, and program, version, procedure and arguments.
pub fn wanted_post(alloc: Global, words: &[u8]) -> Result<Vec<u8>, Fault> {
    let Some((number, rest)) = words.split_at_checked(4) else {
        return Err(Fault::Line("a message has a number"));
    };
    let Some((host, call)) = rest.split_at_checked(opaque_size(rest)) else {
        return Err(Fault::Line("a message has a host"));
    };
    let message = call_message(alloc, &NO_CREDENTIAL, call)?;
    Ok(joined(alloc, &[number, host, number, message.as_slice()])?)
}
