//! How a call holds the addresses that it reads.

ghost use Rattle.std.specs.Prelude.{◌≡◌, Some, option_copied, option_map};
ghost use Rattle.std.specs.Arc.{arc_value};
ghost use Rattle.nfs_objects.specs.Modes.{covers, held_mode, is_apart, is_elsewhere, mode_for};
ghost use Rattle.nfs_objects.specs.Modes.{modes_of, number_in};
ghost use Rattle.nfs_objects.specs.Modes.{only_reads, part_address, renames_of};
ghost use Rattle.nfs_objects.specs.Values.{modes_value};

use crate::address::Addr;
use crate::object::{Object, header_known, part_known};
use crate::view::View;
use nfs_machine::{Call, Handle};
use nfs_wire::{DirOp, NfsCall, RenameArguments};
use std::sync::Arc;

/// How a call holds an address until it ends.
#[derive(Clone, Copy, Debug, PartialEq, Eq)]
pub enum Mode {
    /// Beside other calls that hold it so.
    Shared,
    /// Alone.
    Exclusive,
}

/// How a call holds what it reads: alone what it may change, and shared what it only reads.
#[derive(Clone, Copy)]
pub struct Modes<'a> {
    pub exports: Mode,
    /// Of inodes, of the maps and blocks of files and the pages and parts of directories, and of what groups of inodes
    /// use.
    pub inodes: Mode,
    pub mounts: Mode,
    /// Of what files have of locks, shares, requests and grants.
    pub locks: Mode,
    /// The names that RENAME moves: other inodes than theirs it only reads.
    pub renames: Option<&'a RenameArguments>,
}

/// The modes of a call that changes nothing.
pub const READING: Modes<'static> = Modes {
    exports: Mode::Shared,
    inodes: Mode::Shared,
    mounts: Mode::Shared,
    locks: Mode::Shared,
    renames: None,
};

/// The modes of a call that may change each object that it reads. What files have of locks goes with them.
pub const CHANGING: Modes<'static> = Modes {
    exports: Mode::Shared,
    inodes: Mode::Exclusive,
    mounts: Mode::Shared,
    locks: Mode::Exclusive,
    renames: None,
};

/// The modes of a call that reads directories and changes the mounts.
pub const MOUNTING: Modes<'static> = Modes {
    exports: Mode::Shared,
    inodes: Mode::Shared,
    mounts: Mode::Exclusive,
    locks: Mode::Shared,
    renames: None,
};

/// The modes of a call that reads files and changes what they have of locks.
pub const LOCKING: Modes<'static> = Modes {
    exports: Mode::Shared,
    inodes: Mode::Shared,
    mounts: Mode::Shared,
    locks: Mode::Exclusive,
    renames: None,
};

/// The modes of the call that replaces the exports: it makes roots, and changes nothing else beside.
pub const REPLACING: Modes<'static> = Modes {
    exports: Mode::Exclusive,
    inodes: Mode::Exclusive,
    mounts: Mode::Shared,
    locks: Mode::Shared,
    renames: None,
};

impl<'a> Modes<'a> {
    /// The modes of RENAME, which reads the directories above its target and does not change them.
    pub fn renaming(arguments: &'a RenameArguments) -> Modes<'a>
        ensures { modes_value result ≡ record {
          exports = Mode.Shared;
          inodes = Mode.Exclusive;
          mounts = Mode.Shared;
          locks = Mode.Exclusive;
          renames = Some arguments.now;
        } }
    {
        Modes {
            renames: Some(arguments),
            ..CHANGING
        }
    }

    /// The mode in which a call with this view wants an address.
    pub fn at(self, view: &View, address: Addr) -> Mode
        ensures { result ≡ held_mode (modes_value self.entry) view.now address }
    {
        match address {
            Addr::Exports => self.exports,
            Addr::Inode(number) => self.inode_mode(view, number),
            Addr::Map { file, page: _ } | Addr::Block { file, index: _ } => {
                self.inode_mode(view, file)
            }
            Addr::Page { directory, page: _ } => self.inode_mode(view, directory),
            Addr::Part {
                directory,
                bucket: _,
                part: _,
            } => self.inode_mode(view, directory),
            Addr::Mounts => self.mounts,
            Addr::Usage { .. } => self.inodes,
            Addr::Locks(_) => self.locks,
        }
    }

    /// The mode in which the inode at a number is wanted.
    fn inode_mode(self, view: &View, number: u64) -> Mode
        ensures { result ≡ held_mode (modes_value self.entry) view.now (Addr.Inode number) }
    {
        match self.renames {
            Some(arguments) if only_reads(view, arguments, number) => Mode::Shared,
            _ => self.inodes,
        }
    }

    /// The modes of a call: it holds alone what it may change.
    pub fn of(call: &'a Call) -> Modes<'a>
        ensures { modes_value result ≡ modes_of call.now }
    {
        match call {
            Call::Nfs(call) => {
                let mode = mode_for(call.is_changing());
                Modes {
                    inodes: mode,
                    locks: mode,
                    renames: renames(call),
                    ..READING
                }
            }
            Call::Mount(call) => Modes {
                mounts: mode_for(call.is_changing()),
                ..READING
            },
            Call::Nlm(call) => Modes {
                locks: mode_for(call.changes_locks()),
                ..READING
            },
            Call::Replace(_) => REPLACING,
        }
    }
}

/// Whether RENAME only reads the inode at a number, as far as its view shows what it changes.
fn only_reads(view: &View, arguments: &RenameArguments, number: u64) -> bool
    ensures { result ≡ only_reads (Some arguments.now) view.now number }
{
    is_apart(view, &arguments.from, number) && is_apart(view, &arguments.to, number)
}

/// Whether a view shows what a name leads to, and neither that nor the name's directory is at a number.
fn is_apart(view: &View, place: &DirOp, number: u64) -> bool
    ensures { result ≡ is_apart view.now place.now number }
{
    let Some(handle) = Handle::read(place.directory.as_slice()) else {
        return false;
    };
    let Some(object) = view.find(Addr::Inode(handle.fileid)) else {
        return false;
    };
    handle.fileid != number
        && is_elsewhere(
            view,
            part_address(handle.fileid, object, place.name.as_slice()),
            place.name.as_slice(),
            number,
        )
}

/// The part in which a name stands in the directory that stands somewhere, if it is there.
fn part_address(directory: u64, object: &Option<Arc<Object>>, name: &[u8]) -> Option<Addr>
    ensures { result ≡ part_address directory (option_map arc_value object.now) name.now }
{
    let place = header_known(object)?.entries.place_of(name)?;
    Some(Addr::Part {
        directory,
        bucket: place.bucket,
        part: place.part,
    })
}

/// Whether a name, which stands in this part if it is there, leads to another number than this one, or to none, as a
/// view shows.
fn is_elsewhere(view: &View, part: Option<Addr>, name: &[u8], number: u64) -> bool
    ensures { result ≡ is_elsewhere view.now part name.now number }
{
    let Some(address) = part else {
        return true;
    };
    match view.find(address) {
        Some(object) => number_in(object, name) != Some(number),
        None => false,
    }
}

/// The number that a name leads to in the part that stands where this is known.
fn number_in(known: &Option<Arc<Object>>, name: &[u8]) -> Option<u64>
    ensures { result ≡ number_in (option_map arc_value known.now) name.now }
{
    Some(part_known(known)?.find(name)?.number)
}

/// The names that a call moves.
fn renames(call: &NfsCall) -> Option<&RenameArguments>
    ensures { option_copied result ≡ renames_of call.now }
{
    match call {
        NfsCall::Rename(arguments) => Some(arguments),
        _ => None,
    }
}

/// How a call holds what it may change, or only reads.
fn mode_for(changes: bool) -> Mode
    ensures { result ≡ mode_for changes }
{
    if changes {
        Mode::Exclusive
    } else {
        Mode::Shared
    }
}

/// Whether what is held in a mode may be used in another.
pub fn covers(held: Mode, wanted: Mode) -> bool
    ensures { result ≡ covers held wanted }
{
    match held {
        Mode::Exclusive => true,
        Mode::Shared => match wanted {
            Mode::Exclusive => false,
            Mode::Shared => true,
        },
    }
}
