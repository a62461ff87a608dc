//! Items that the results of several procedures share.

ghost use Rattle.std.specs.Prelude.{◌≤◌, length, IfSome};
ghost use Rattle.nfs_xdr.specs.Types.{HasSpelling};
ghost use Rattle.nfs_xdr.specs.Writing.{WritesFront};
ghost use Rattle.nfs_wire.specs.Arguments.{verf3, verifier_value};
ghost use Rattle.nfs_wire.specs.Results.{post_op_fh3};

use crate::calls::Verifier;
use bytes::Bytes;
use nfs_xdr::{Writer, XdrError};

/// Writes a handle that may be absent (`post_op_fh3`, RFC 1813, 2.5).
#[tactic(auto, unfolding(nfs_xdr::specs::Writing::appended))]
pub(super) fn write_optional_handle(
    writer: &mut Writer,
    handle: &Option<Bytes>,
) -> Result<(), XdrError>
    requires { IfSome handle.now (λ bytes. length bytes ≤ 64) }
    ensures written { WritesFront post_op_fh3 handle.now writer.old writer.new result }
    ensures form { HasSpelling post_op_fh3 handle.now }
{
    match handle {
        Some(bytes) => {
            writer.bool(true)?;
            writer.opaque(bytes.as_slice())
        }
        None => writer.bool(false),
    }
}

/// Writes a verifier (RFC 1813, 2.5).
#[tactic(auto, unfolding(nfs_xdr::specs::Writing::appended))]
pub(super) fn write_verifier(writer: &mut Writer, verifier: Verifier) -> Result<(), XdrError>
    ensures written { WritesFront verf3 (verifier_value verifier) writer.old writer.new result }
    ensures form { HasSpelling verf3 (verifier_value verifier) }
{
    writer.fixed(&verifier.bytes)
}
