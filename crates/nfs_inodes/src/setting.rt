//! Setting attributes of objects (RFC 1813, 3.3.2).

ghost use Rattle.std.specs.Prelude.{◌≡◌, IfOk, MatchResult, None, OnOk};
ghost use Rattle.nfs_objects.specs.Calls.{addresses_of};
ghost use Rattle.nfs_objects.specs.Knows.{Turns};
ghost use Rattle.nfs_objects.specs.Modes.{changing};
ghost use Rattle.nfs_objects.specs.Only.{AsksNothing};
ghost use Rattle.nfs_inodes.specs.Sets.{attributes_changed};
ghost use Rattle.nfs_inodes.specs.Stops.{KnowsAt, StopsAt};

use crate::found::inode;
use nfs_objects::{Draft, Inode, Missing};
use nfs_wire::Time;
use std::alloc::AllocError;

/// The attributes of an object that a call sets, or changes with those that it sets.
#[derive(Clone, Copy)]
pub struct Settings {
    /// Twelve bits.
    pub mode: u32,
    pub uid: u32,
    pub gid: u32,
    pub accessed: Time,
    pub modified: Time,
    pub changed: Time,
}

/// Gives an object these attributes; what it contains stays. It forgets the exclusive CREATE that made it (RFC 1813,
/// 3.3.8).
///
/// # Errors
///
/// `Need` of what has to be held for it, and `Memory`. The draft is of no use then.
pub fn set_attributes(
    draft: &mut Draft<'_>,
    number: u64,
    settings: &Settings,
) -> Result<(), Missing>
    requires { draft.old.modes ≡ changing }
    ensures turns { MatchResult result
        (λ _. Turns draft.old draft.new (attributes_changed number settings.now))
        (StopsAt draft.old (addresses_of draft.old.view number)) }
    ensures once { KnowsAt draft.old number → AsksNothing result }
    ensures known { OnOk result (KnowsAt draft.new number) }
{
    let Some(inode) = inode(draft, number)? else {
        return Ok(());
    };
    let new = with_settings(inode, settings)?;
    Ok(draft.put(number, new)?)
}

/// The inode with these attributes, made of a copy.
fn with_settings(inode: &Inode, settings: &Settings) -> Result<Inode, AllocError>
    ensures { IfOk result (λ new. new ≡ record inode.now {
      mode = settings.now.mode;
      uid = settings.now.uid;
      gid = settings.now.gid;
      accessed = settings.now.accessed;
      modified = settings.now.modified;
      changed = settings.now.changed;
      verifier = None;
    }) }
{
    let mut new = inode.clone()?;
    new.mode = settings.mode;
    new.uid = settings.uid;
    new.gid = settings.gid;
    new.accessed = settings.accessed;
    new.modified = settings.modified;
    new.changed = settings.changed;
    new.verifier = None;
    Ok(new)
}
