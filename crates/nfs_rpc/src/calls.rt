//! The header of a call.

ghost use Rattle.std.specs.Prelude.{◌≡◌, ◌≤◌, ◌%◌, length, drop};
ghost use Rattle.nfs_xdr.specs.Reading.{ReadsFront, read};
ghost use Rattle.nfs_rpc.specs.Messages as spec;
ghost use Rattle.nfs_rpc.specs.Calls.{IsCallOf, NamesCall};
ghost use Rattle.nfs_rpc.specs.Early.{ids_of, sys_ids};
ghost use Rattle.nfs_xdr.specs.Types.{Word, Array, ◌&◌};
ghost use Rattle.std.specs.Result.{result_ok};

use crate::numbers::{AUTH_LIMIT, AUTH_NONE, AUTH_SYS, CALL, MACHINE_LIMIT, RPC_VERSION};
use crate::{Early, Fault, GIDS_LIMIT, Gids, Ids, Program, Record};
use nfs_xdr::{Reader, SharedReader, XdrError};

/// The user and group that nobody is.
const NOBODY: u32 = 65534;

/// A call whose header is read. Its arguments are read from the record.
#[derive(Drop)]
pub struct RpcCall<'a> {
    pub xid: u32,
    pub program: Program,
    pub procedure: u32,
    pub ids: Ids,
    pub arguments: SharedReader<'a>,
}

/// The first three words of a message.
#[derive(Clone, Copy)]
struct Opening {
    xid: u32,
    kind: u32,
    version: u32,
}

/// A flavor, and a body that is a part of the record.
#[derive(Clone, Copy)]
struct Auth<'a> {
    flavor: u32,
    body: &'a [u8],
}

/// What a call names. Its verifier is not kept.
#[derive(Clone, Copy)]
struct Heading<'a> {
    program: u32,
    version: u32,
    procedure: u32,
    credential: Auth<'a>,
    verifier: Auth<'a>,
}

#[tactic(auto, unfolding(crate::specs::Early::call_of))]
/// Reads the header of the call that a record is, or tells how the record ends early. It takes no memory.
pub fn read_call(message: &Record) -> Result<RpcCall<'_>, Early>
    ensures { IsCallOf message.entry.now result }
{
    let mut reader = SharedReader::new(message);
    let Ok(opening) = read_opening(&mut reader) else {
        return Err(Early::Drop);
    };
    if opening.kind != CALL {
        return Err(Early::Drop);
    }
    let xid = opening.xid;
    if opening.version != RPC_VERSION {
        return Err(Early::Answer {
            xid,
            fault: Fault::RpcMismatch,
        });
    }
    let Ok(heading) = read_heading(&mut reader) else {
        return Err(Early::Drop);
    };
    match caller_and_program(&heading) {
        Ok((ids, program)) => Ok(RpcCall {
            xid,
            program,
            procedure: heading.procedure,
            ids,
            arguments: reader,
        }),
        Err(fault) => Err(Early::Answer { xid, fault }),
    }
}

/// Who calls what, or the first fault of a heading.
fn caller_and_program(heading: &Heading<'_>) -> Result<(Ids, Program), Fault>
    ensures { NamesCall heading.now.program heading.now.version heading.now.procedure
        heading.now.credential.flavor heading.now.credential.body.now result }
{
    let ids = ids_of(heading.credential).ok_or(Fault::BadCredential)?;
    let program = Program::from_number(heading.program).ok_or(Fault::ProgramUnavailable)?;
    let version = program.version();
    if heading.version != version {
        return Err(Fault::ProgramMismatch {
            low: version,
            high: version,
        });
    }
    if !program.has_procedure(heading.procedure) {
        return Err(Fault::ProcedureUnavailable);
    }
    Ok((ids, program))
}

/// Who a credential names. None where its flavor is another or its body can't be read.
fn ids_of(credential: Auth<'_>) -> Option<Ids>
    ensures { result ≡ ids_of credential.entry.flavor credential.entry.body.now }
{
    match credential.flavor {
        AUTH_NONE => Some(Ids {
            uid: NOBODY,
            gid: NOBODY,
            gids: Gids::new(),
        }),
        AUTH_SYS => read_sys_ids(credential.body).ok(),
        _ => None,
    }
}

/// Reads who an AUTH_SYS body names. Its stamp and machine name are not kept, and bytes may follow.
#[tactic(auto, unfolding(nfs_xdr::specs::Reading::read))]
fn read_sys_ids(body: &[u8]) -> Result<Ids, XdrError>
    ensures { result_ok result ≡ sys_ids (read spec.AuthSys body.now) }
{
    let mut reader = Reader::new(body);
    let _stamp = reader.u32()?;
    let _machine = reader.opaque(MACHINE_LIMIT)?;
    let uid = reader.u32()?;
    let gid = reader.u32()?;
    let gids = read_gids(&mut reader)?;
    Ok(Ids { uid, gid, gids })
}

/// Reads the further groups.
#[tactic(auto, unfolding(nfs_xdr::specs::Reading::read))]
fn read_gids(reader: &mut Reader<'_>) -> Result<Gids, XdrError>
    ensures { ReadsFront (Array GIDS_LIMIT Word) (λ gids. gids) reader.old reader.new result }
{
    let count = reader.u32()?;
    if count > GIDS_LIMIT as u32 {
        return Err(XdrError::TooLong);
    }
    let mut gids = Gids::new();
    for _gid in 0..count {
        gids.push(reader.u32()?);
    }
    Ok(gids)
}

#[tactic(auto, unfolding(nfs_xdr::specs::Reading::read))]
fn read_opening(reader: &mut SharedReader<'_>) -> Result<Opening, XdrError>
    ensures { ReadsFront spec.Opening (λ o. (o.xid, (o.kind, o.version))) reader.old reader.new result }
{
    Ok(Opening {
        xid: reader.u32()?,
        kind: reader.u32()?,
        version: reader.u32()?,
    })
}

#[tactic(auto, unfolding(nfs_xdr::specs::Reading::read))]
fn read_heading<'a>(reader: &mut SharedReader<'a>) -> Result<Heading<'a>, XdrError>
    ensures { ReadsFront spec.Heading
        (λ h. h.program & h.version & h.procedure
        & (h.credential.flavor, h.credential.body.now) & (h.verifier.flavor, h.verifier.body.now))
        reader.entry.now reader.exit.now result }
{
    Ok(Heading {
        program: reader.u32()?,
        version: reader.u32()?,
        procedure: reader.u32()?,
        credential: read_auth(reader)?,
        verifier: read_auth(reader)?,
    })
}

/// Reads a flavor and a body with no copy of it.
#[tactic(auto, unfolding(nfs_xdr::specs::Reading::read))]
fn read_auth<'a>(reader: &mut SharedReader<'a>) -> Result<Auth<'a>, XdrError>
    ensures { ReadsFront spec.Auth (λ a. (a.flavor, a.body.now)) reader.entry.now reader.exit.now result }
{
    let flavor = reader.u32()?;
    let bytes = reader.as_slice();
    let mut front = Reader::new(bytes);
    let body = front.opaque(AUTH_LIMIT)?;
    advance(reader, bytes.len() - front.len());
    Ok(Auth { flavor, body })
}

/// Goes on behind so many bytes.
#[tactic(auto, unfolding(nfs_xdr::specs::Reading::read))]
fn advance(reader: &mut SharedReader<'_>, count: usize)
    requires { (count ≤ length reader.old) × (count % 4 ≡ 0) }
    ensures { reader.new ≡ drop count reader.old }
{
    for _word in 0..count / 4 {
        let Ok(_) = reader.u32() else { unreachable!() };
    }
}
