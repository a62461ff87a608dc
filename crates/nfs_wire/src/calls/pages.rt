//! Arguments of the procedures on pages of directories and on the file system.

ghost use Rattle.nfs_wire.specs.Calls.{ReadsCall};

use super::items::{read_handle, read_verifier};
use crate::calls::{NfsCall, ReaddirArguments, ReaddirplusArguments};
use nfs_xdr::{SharedReader, XdrError};

/// READDIR3args (RFC 1813, 3.3.16).
#[tactic(auto, unfolding(nfs_xdr::specs::Reading::read))]
pub(super) fn read_readdir(arguments: &mut SharedReader<'_>) -> Result<NfsCall, XdrError>
    ensures { ReadsCall 16 arguments.old arguments.new result }
{
    let directory = read_handle(arguments)?;
    let cookie = arguments.u64()?;
    let verifier = read_verifier(arguments)?;
    let count = arguments.u32()?;
    Ok(NfsCall::Readdir(ReaddirArguments {
        directory: directory.share()?,
        cookie,
        verifier,
        count,
    }))
}

/// READDIRPLUS3args (RFC 1813, 3.3.17).
#[tactic(auto, unfolding(nfs_xdr::specs::Reading::read))]
pub(super) fn read_readdirplus(arguments: &mut SharedReader<'_>) -> Result<NfsCall, XdrError>
    ensures { ReadsCall 17 arguments.old arguments.new result }
{
    let directory = read_handle(arguments)?;
    let cookie = arguments.u64()?;
    let verifier = read_verifier(arguments)?;
    let directory_count = arguments.u32()?;
    let most = arguments.u32()?;
    Ok(NfsCall::Readdirplus(ReaddirplusArguments {
        directory: directory.share()?,
        cookie,
        verifier,
        directory_count,
        most,
    }))
}

/// FSSTAT3args (RFC 1813, 3.3.18).
pub(super) fn read_fsstat(arguments: &mut SharedReader<'_>) -> Result<NfsCall, XdrError>
    ensures { ReadsCall 18 arguments.old arguments.new result }
{
    Ok(NfsCall::Fsstat(read_handle(arguments)?.share()?))
}

/// FSINFO3args (RFC 1813, 3.3.19).
pub(super) fn read_fsinfo(arguments: &mut SharedReader<'_>) -> Result<NfsCall, XdrError>
    ensures { ReadsCall 19 arguments.old arguments.new result }
{
    Ok(NfsCall::Fsinfo(read_handle(arguments)?.share()?))
}

/// PATHCONF3args (RFC 1813, 3.3.20).
pub(super) fn read_pathconf(arguments: &mut SharedReader<'_>) -> Result<NfsCall, XdrError>
    ensures { ReadsCall 20 arguments.old arguments.new result }
{
    Ok(NfsCall::Pathconf(read_handle(arguments)?.share()?))
}
