//! `nfsd`: a server of NFS version 3, MOUNT version 3 and NLM version 4 on sockets, or on standard input and output.
//!
//! It has no contract: what its words mean, how they are refused and what is served is the library's.
#![tactic(auto)]

use nfs_server::{Exit, Operator, Runtime, arguments, configure, open_standard, serve};
use std::fs::{File, Files};
use std::net::{Net, TcpListener, TcpStream};
use std::process::ExitCode;
use std::random::RandomSource;
use std::rt::Env;

fn main(rt: HostRuntime) -> ExitCode {
    match run(rt) {
        Ok(()) => ExitCode::SUCCESS,
        Err(exit) => {
            // Where printing fails too, the status still tells.
            let _ = exit.print(&rt);
            ExitCode::from(exit.status())
        }
    }
}

fn run<
    R: Runtime
        + AllocGlobal
        + Env
        + Files<File = File>
        + Input
        + Print
        + Eprint
        + Operator
        + RandomSource
        + Net<Listener = TcpListener, Stream = TcpStream>,
>(rt: R) -> Result<(), Exit> {
    open_standard(&rt)?;
    let words = arguments(&rt)?;
    let options = configure(rt.alloc(), &words)?;
    serve(rt, options)
}
