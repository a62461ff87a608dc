//! The bounds of what is read and written (RFC 1813, 3.3.6 and 3.3.7), and what tells a caller of a new start.

ghost use Rattle.std.specs.Prelude.{◌≡◌};
ghost use Rattle.nfs_machine.specs.DataSteps.{verifier_of};

use nfs_machine::Ctx;
use nfs_wire::Verifier;

/// The most that one READ or WRITE carries, in bytes (RFC 1813, 3.3.19: rtmax, wtmax).
pub const TRANSFER_LIMIT: u32 = 65_536;

/// The size of the largest file, in bytes (RFC 1813, 3.3.19: maxfilesize).
pub const SIZE_LIMIT: u64 = 1_073_741_824;

/// The start number of the server, which a caller compares to see whether it was started again (RFC 1813, 3.3.7 and
/// 3.3.21).
pub fn verifier(ctx: &Ctx) -> Verifier
    ensures { result ≡ verifier_of ctx.now }
{
    Verifier {
        bytes: ctx.start.to_be_bytes(),
    }
}
