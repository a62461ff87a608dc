//! Names in directories (RFC 1813, 3.3.3: `filename3`), and what they lead to.

ghost use Rattle.std.specs.Prelude.{◌≡◌, ◌||◌, ◌&&◌, ◌==◌, codes, length, nat_le, not};
ghost use Rattle.std.specs.List.{list_any};
ghost use Rattle.nfs_machine.specs.Bytes.{same_bytes};
ghost use Rattle.nfs_machine.specs.Checks.{name_checked, plain_name_checked};
ghost use Rattle.nfs_machine.specs.Paths.{slash};

use nfs_machine::paths::MAX_NAME;
use nfs_wire::NfsStatus;

/// Looks at the form of a name.
///
/// # Errors
///
/// `NameTooLong` above `MAX_NAME` bytes; else `Access` where the name is empty or holds a slash or a NUL.
pub fn name_checked(name: &[u8]) -> Result<(), NfsStatus>
    ensures { result ≡ name_checked name.now }
{
    if name.len() > MAX_NAME {
        Err(NfsStatus::NameTooLong)
    } else if !is_spelled(name) {
        Err(NfsStatus::Access)
    } else {
        Ok(())
    }
}

/// Looks at the form of a name that is made, taken away or moved: "." and ".." are there in every directory.
///
/// # Errors
///
/// Those of `name_checked`; else the status that is given for `.`, or that for `..`.
pub fn plain_name_checked(own: NfsStatus, above: NfsStatus, name: &[u8]) -> Result<(), NfsStatus>
    ensures { result ≡ plain_name_checked own above name.now }
{
    name_checked(name)?;
    if is_self(name) {
        return Err(own);
    }
    if is_above(name) {
        return Err(above);
    }
    Ok(())
}

fn is_spelled(name: &[u8]) -> bool
    ensures { result ≡ (nat_le 1 (length name.now)
        && not (list_any (λ byte. (byte == slash) || (byte == 0)) name.now)) }
{
    !name.is_empty() && !has_separator(name)
}

/// Whether a slash or a NUL is in the name.
fn has_separator(name: &[u8]) -> bool
    ensures { result ≡ list_any (λ byte. (byte == slash) || (byte == 0)) name.now }
{
    name.iter().any(|byte| *byte == b'/' || *byte == 0)
}

/// Whether it is the name of the directory itself.
pub fn is_self(name: &[u8]) -> bool
    ensures { result ≡ same_bytes (codes ".") name.now }
{
    b".".as_slice() == name
}

/// Whether it is the name of the directory above.
pub fn is_above(name: &[u8]) -> bool
    ensures { result ≡ same_bytes (codes "..") name.now }
{
    b"..".as_slice() == name
}
