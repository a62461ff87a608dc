//! What names of directories are placed by.

use crate::exit::Exit;
use nfs_machine::NameKey;
use std::random::RandomSource;

/// Random bytes of the system to place names by, so that no peer can choose names that come into one part of a
/// directory.
///
/// # Errors
///
/// `NoRandomBytes` where the system gives none.
pub fn name_key(random: &impl RandomSource) -> Result<NameKey, Exit> {
    let mut key = [0; 16];
    let Some(()) = random.fill_bytes(&mut key).ok() else {
        return Err(Exit::NoRandomBytes);
    };
    Ok(key)
}
