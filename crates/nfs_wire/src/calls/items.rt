//! Items that the arguments of several procedures share.

ghost use Rattle.nfs_xdr.specs.Reading.{ReadsFront, Shares};
ghost use Rattle.nfs_wire.specs.Arguments.{nfs_fh3, diropargs3, verf3, place_value, verifier_value};
ghost use Rattle.nfs_wire.specs.Parts.{place_parts_value};

use crate::calls::{DirOp, Verifier};
use nfs_xdr::{Part, SharedReader, XdrError, are_bytes};

/// The bound of a string that has none of its own: what its length word can say.
pub(super) const UNBOUNDED: usize = u32::MAX as usize;

/// A name in a directory, as it was read (`diropargs3`).
#[derive(Drop)]
pub(super) struct DirOpParts<'a> {
    directory: Part<'a>,
    name: Part<'a>,
}

/// A handle (`nfs_fh3`, RFC 1813, 2.5).
pub(super) fn read_handle<'a>(reader: &mut SharedReader<'a>) -> Result<Part<'a>, XdrError>
    ensures { ReadsFront nfs_fh3 (λ handle. handle) reader.entry.now reader.exit.now result }
{
    reader.opaque(64)
}

/// A name in a directory (`diropargs3`, RFC 1813, 2.5).
#[tactic(auto, unfolding(nfs_xdr::specs::Reading::read))]
pub(super) fn read_place<'a>(reader: &mut SharedReader<'a>) -> Result<DirOpParts<'a>, XdrError>
    ensures { ReadsFront diropargs3 place_parts_value reader.entry.now reader.exit.now result }
{
    Ok(DirOpParts {
        directory: read_handle(reader)?,
        name: reader.opaque(UNBOUNDED)?,
    })
}

impl<'a> DirOpParts<'a> {
    /// The name, with its bytes shared.
    pub(super) fn share(self) -> Result<DirOp, XdrError>
        ensures { Shares diropargs3 place_value (place_parts_value self.entry) result }
    {
        let DirOpParts { directory, name } = self;
        Ok(DirOp {
            directory: directory.share()?,
            name: name.share()?,
        })
    }
}

/// A verifier (RFC 1813, 2.5). It takes no memory.
#[tactic(auto, unfolding(nfs_xdr::specs::Reading::read))]
pub(super) fn read_verifier(reader: &mut SharedReader<'_>) -> Result<Verifier, XdrError>
    ensures { ReadsFront verf3 verifier_value reader.old reader.new result }
{
    are_bytes(reader.as_slice());
    Ok(Verifier {
        bytes: reader.u64()?.to_be_bytes(),
    })
}
