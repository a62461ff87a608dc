//! What a record asks.

ghost use Rattle.nfs_engine.specs.Asked.{ReadsArguments, ReadsRecord};

use nfs_machine::Call;
use nfs_rpc::{Early, Fault, Ids, Program, Record, read_call};
use nfs_xdr::{ArgumentsError, SharedReader};
use side_wire::{mount, nlm};

/// A call that came in.
#[derive(Drop)]
pub struct Asked {
    /// The transaction id.
    pub xid: u32,
    /// Who calls: its user and groups.
    pub ids: Ids,
    /// What is asked, with its arguments.
    pub call: Call,
}

/// Why a record asks nothing that can be executed.
#[derive(Clone, Copy)]
pub enum Unasked {
    /// It has a fault.
    Early(Early),
    /// There is no memory to share its arguments' bytes.
    Memory,
}

/// Reads the call that a record is, or its first fault (RFC 5531, 9).
///
/// # Errors
///
/// Its first fault, or there is no memory to share its arguments' bytes.
pub fn read_record(message: &Record) -> Result<Asked, Unasked>
    ensures { ReadsRecord message.now result }
{
    let header = match read_call(message) {
        Ok(header) => header,
        Err(early) => return Err(Unasked::Early(early)),
    };
    let (xid, ids) = (header.xid, header.ids);
    match read_arguments(header.program, header.procedure, header.arguments) {
        Ok(call) => Ok(Asked { xid, ids, call }),
        Err(ArgumentsError::Garbage) => Err(Unasked::Early(Early::Answer {
            xid,
            fault: Fault::GarbageArguments,
        })),
        Err(ArgumentsError::Memory) => Err(Unasked::Memory),
    }
}

/// Reads the arguments of a program's procedure.
fn read_arguments(
    program: Program,
    procedure: u32,
    arguments: SharedReader<'_>,
) -> Result<Call, ArgumentsError>
    ensures { ReadsArguments program procedure arguments.entry result }
{
    match program {
        Program::Nfs => Ok(Call::Nfs(nfs_wire::read_args(procedure, arguments)?)),
        Program::Mount => Ok(Call::Mount(mount::read_args(procedure, arguments)?)),
        Program::Nlm => Ok(Call::Nlm(nlm::read_args(procedure, arguments)?)),
    }
}
