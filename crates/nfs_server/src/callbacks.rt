//! Where hosts are called back.

ghost use Rattle.std.specs.Prelude.{◌≡◌, IfErr, IfOk, map};
ghost use Rattle.std.specs.Option.{MatchOption, option_copied};
ghost use Rattle.nfs_server.specs.Callbacks.{AreCallbacks, IsCallback, IsNoCallback, RefusesCallbacks};
ghost use Rattle.nfs_server.specs.Callbacks.{behind_host, callback_of};

use bytes::Bytes;
use nfs_engine::Host;
use std::alloc::{AllocError, AllocFailed, Global};
use std::net::SocketAddr;
use thiserror::Error;

/// A host, and where the server calls it back.
#[derive(Drop)]
pub struct CallbackAddress {
    /// As peers are called.
    pub host: Host,
    pub address: SocketAddr,
}

/// Where hosts are called back, in the order given. Of two addresses of one host the last counts.
#[derive(Drop)]
pub struct Callbacks {
    pub list: Vec<CallbackAddress>,
}

/// Why callbacks are refused.
#[derive(Debug, Drop, Error)]
pub enum CallbackError {
    /// The one with this number, from 1, is not `HOST=ADDR:PORT`.
    #[error("callback {0}: bad form")]
    BadForm(u64),
    #[error("out of memory")]
    Memory,
}

impl From<AllocError> for CallbackError {
    ghost use Rattle.std.specs.Prelude.{◌≡◌};
    ghost use Rattle.nfs_server.specs.declared.callbacks.CallbackError.TheVariants.{Memory};

    ghost from_gives = { λ _ error. error ≡ Memory };

    fn from(_error: AllocError) -> CallbackError {
        CallbackError::Memory
    }
}

impl<T: Drop> From<AllocFailed<T>> for CallbackError {
    ghost use Rattle.std.specs.Prelude.{◌≡◌};
    ghost use Rattle.nfs_server.specs.declared.callbacks.CallbackError.TheVariants.{Memory};

    ghost from_gives = { λ _ error. error ≡ Memory };

    fn from(_error: AllocFailed<T>) -> CallbackError {
        CallbackError::Memory
    }
}

impl Callbacks {
    /// The callbacks that texts `HOST=ADDR:PORT` name, in their order. A host ends at the first `=`.
    ///
    /// # Errors
    ///
    /// `BadForm` of the first text that is none; `Memory`.
    pub fn new(alloc: Global, texts: &[&str]) -> Result<Callbacks, CallbackError>
        ensures callbacks { IfOk result
            (λ callbacks. AreCallbacks (map (λ text. text.now) texts.now) callbacks.list.items) }
        ensures error { IfErr result (RefusesCallbacks (map (λ text. text.now) texts.now)) }
    {
        let mut list = Vec::with_capacity(alloc, texts.len())?;
        for text in texts {
            match callback(alloc, text)? {
                Some(callback) => list.push(callback)?,
                None => return Err(CallbackError::BadForm(list.len() as u64 + 1)),
            }
        }
        Ok(Callbacks { list })
    }

    /// How many callbacks stand behind the last one of a host, if it has one. It takes no memory.
    pub fn behind_host(&self, host: &Bytes) -> Option<usize>
        ensures { result ≡ behind_host self.now.list.items host.now }
    {
        self.list
            .iter()
            .rev()
            .position(|callback| callback.host.text() == host)
    }

    /// The last callback of a host, if it has one. It takes no memory.
    pub fn of_host(&self, host: &Bytes) -> Option<&CallbackAddress>
        ensures { option_copied result ≡ callback_of self.now.list.items host.now }
    {
        self.list
            .iter()
            .rev()
            .find(|callback| callback.host.text() == host)
    }
}

/// The callback that a text is; None where it is not `HOST=ADDR:PORT`.
fn callback(alloc: Global, text: &str) -> Result<Option<CallbackAddress>, AllocError>
    ensures { IfOk result (λ found.
        MatchOption found (IsNoCallback text.now) (IsCallback text.now)) }
{
    let Some((host, address)) = text.split_once('=') else {
        return Ok(None);
    };
    let Ok(address) = address.parse::<SocketAddr>() else {
        return Ok(None);
    };
    match Host::new(Bytes::copy_from_slice(alloc, host.as_bytes())?) {
        Some(host) => Ok(Some(CallbackAddress { host, address })),
        None => Ok(None),
    }
}
