//! The transport that the options name.

ghost use Rattle.nfs_server.specs.CommandLine.{AreWithin};

use crate::exit::Exit;
use crate::keys::name_key;
use crate::network::{Operator, serve_network};
use crate::options::{Options, Streams, Transport};
use crate::runtime::NetworkRuntime;
use crate::stdio::{serve_counted, serve_stdio};
use crate::warnings::warn_of_hosts;
use std::random::RandomSource;

/// Serves on what the options name: standard streams to the end of the input, or sockets. A host that an export names
/// and no peer has is warned of on standard error. Names are placed by random bytes.
///
/// # Errors
///
/// Those of `serve_stdio` and of `serve_network`; and `NoRandomBytes`.
pub fn serve<R: NetworkRuntime + Input + Print + Operator + RandomSource>(
    rt: R,
    options: Options,
) -> Result<(), Exit>
    requires { AreWithin options }
{
    let mut options = options;
    options.name_key = name_key(&rt)?;
    warn_of_hosts(&rt, &options);
    match streams_of(&options.transport) {
        Some(Streams { stats: 0 }) => serve_stdio(&rt, options),
        Some(Streams { stats }) => serve_counted(rt, options, stats),
        None => serve_network(rt, options),
    }
}

/// What is asked for of standard streams, where it is served on them.
fn streams_of(transport: &Transport) -> Option<Streams> {
    match transport {
        Transport::Stdio(streams) => Some(*streams),
        Transport::Network(_) => None,
    }
}
