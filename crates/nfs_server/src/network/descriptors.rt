//! For how many connections the system has descriptors.

use std::alloc::{AllocError, Global};
use std::net::TcpListener;

/// So many descriptors are left for what is opened beside connections, such as a call back to a host.
const SPARE: u64 = 16;

/// How many connections there are descriptors for, up to so many: as many as the listener can be doubled, but for some
/// that stay free; one at least.
pub(crate) fn places(alloc: Global, listener: &TcpListener, most: u64) -> Result<u64, AllocError> {
    let wanted = most.saturating_add(SPARE);
    let mut doubles: Vec<TcpListener> = Vec::new(alloc);
    for _ in 0..wanted {
        match listener.try_clone() {
            Ok(double) => doubles.push(double)?,
            Err(_) => break,
        }
    }
    let found = doubles.len() as u64;
    Ok(found.saturating_sub(SPARE).max(1).min(most))
}
