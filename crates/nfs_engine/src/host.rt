//! The host that calls.

ghost use Rattle.std.specs.Prelude.{◌≡◌, IfOk, SomeIff};
ghost use Rattle.nfs_engine.specs.Hosts.{IsHost};

use bytes::Bytes;
use std::alloc::AllocError;
use std::marker::Model;

/// The most bytes that a host has.
const MAX_LENGTH: usize = 255;

/// The name of the host that calls, 1 to 255 bytes. A clause sees it as these bytes.
#[derive(Debug, Drop)]
pub struct Host {
    text: Bytes,
}

impl Model for Host {
    ghost use Rattle.std.specs.Prelude.{ℕ, List};
    ghost use Rattle.nfs_engine.specs.Hosts.{IsHost};

    ghost Value = { List ℕ };

    ghost view = { λ h. h.text };

    ghost invariant = { λ h. IsHost h.text };
}

impl Host {
    /// The host of this name; None where it has no byte, or more than 255.
    pub fn new(text: Bytes) -> Option<Host>
        ensures { SomeIff result (IsHost text) text }
    {
        if text.is_empty() || text.len() > MAX_LENGTH {
            return None;
        }
        Some(Host { text })
    }

    /// Its name.
    pub fn text(&self) -> &Bytes
        ensures text { result.now ≡ self.now }
        ensures host { IsHost self.now }
    {
        &self.text
    }

    /// One more owner of its name.
    ///
    /// # Errors
    ///
    /// There is no memory for one more owner.
    pub fn share(&self) -> Result<Host, AllocError>
        ensures { IfOk result (λ host. host ≡ self.now) }
    {
        Ok(Host {
            text: self.text.clone()?,
        })
    }
}
