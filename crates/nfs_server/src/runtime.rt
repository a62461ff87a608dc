//! What is asked of the runtime that the server runs on.

use std::net::{Net, TcpListener, TcpStream};
use std::rt::Clock;
use std::sync::Wait;
use std::thread::Threads;

/// A runtime that each thread of the server is given.
pub trait Runtime: Threads + Wait + Clock + Copy + Drop + Send + Sync + 'static {}

impl<R: Threads + Wait + Clock + Copy + Drop + Send + Sync + 'static> Runtime for R {}

/// A runtime whose sockets are the system's own.
pub trait SystemNet: Net<Listener = TcpListener, Stream = TcpStream> {}

impl<R: Net<Listener = TcpListener, Stream = TcpStream>> SystemNet for R {}

/// A runtime by which the network is served.
pub trait NetworkRuntime: Runtime + AllocGlobal + Eprint + SystemNet {}

impl<R: Runtime + AllocGlobal + Eprint + SystemNet> NetworkRuntime for R {}
