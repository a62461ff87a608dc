//! Objects of a kind, as a check told.

ghost use Rattle.std.specs.Prelude.{◌≡◌};
ghost use Rattle.nfs_wire.specs.declared.attributes.FileType.TheVariants as types;

use crate::found::Known;

/// A living directory.
#[derive(Clone, Copy)]
pub struct KnownDirectory {
    pub known: Known,
    pub ghost kind: { known.attributes.kind ≡ types.Directory },
}

/// A living regular file.
#[derive(Clone, Copy)]
pub struct KnownFile {
    pub known: Known,
    pub ghost kind: { known.attributes.kind ≡ types.Regular },
}
