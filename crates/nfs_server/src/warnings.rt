//! What is said as the server starts, and stops nothing.

use crate::options::Options;
use bytes::Bytes;
use nfs_engine::Host;
use std::alloc::{AllocError, Global};
use std::net::IpAddr;
use std::str;

/// Warns of a host that an export names and no peer has, in one line on standard error.
pub fn warn_of_hosts<R: AllocGlobal + Eprint>(rt: &R, options: &Options) {
    for export in options.exports.list() {
        for host in &export.hosts {
            if let Ok(false) = may_call(rt.alloc(), host, &options.host) {
                let text = str::from_utf8(host.as_slice()).unwrap_or("");
                let _ = eprintln!(rt;
                    "nfsd: warning: host '{text}' of an export is no IP address as peers have it, and lets nobody in"
                );
                return;
            }
        }
    }
}

/// Whether a peer may have this host: it is every host, that of standard streams, or an IP address as peers have it.
fn may_call(alloc: Global, host: &Bytes, own: &Host) -> Result<bool, AllocError> {
    if host.as_slice() == b"*".as_slice() || host.as_slice() == own.text().as_slice() {
        return Ok(true);
    }
    let Ok(text) = str::from_utf8(host.as_slice()) else {
        return Ok(false);
    };
    let Ok(address) = text.parse::<IpAddr>() else {
        return Ok(false);
    };
    let written = format!(in alloc; "{}", address.to_canonical())?;
    Ok(written.as_str() == text)
}
