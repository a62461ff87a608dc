//! Who may do what (RFC 1813, 4.4).

ghost use Rattle.std.specs.Prelude.{◌≡◌, ◌==◌, ◌||◌, ◌&&◌};
ghost use Rattle.std.specs.List.{list_any};
ghost use Rattle.nfs_machine.specs.Permission.{ToRead, ToWrite, ToSearch, ToList, ToChange, class_bits, is_member};
ghost use Rattle.nfs_machine.specs.Permission.{may, reads, runs, writes};
ghost use Rattle.nfs_machine.specs.State.{Socket};
ghost use Rattle.nfs_inodes.specs.Known.{shell};
ghost use Rattle.nfs_inodes.specs.Rights.{right_of};

use crate::found::Known;
use nfs_rpc::Ids;

/// What a caller wants to do with an object.
#[derive(Clone, Copy, Debug, PartialEq, Eq)]
pub enum Right {
    /// To read a file: its owner always may, else it needs r or x.
    ToRead,
    /// To write a file: its owner always may, else it needs w.
    ToWrite,
    /// To look names up in a directory: x.
    ToSearch,
    /// To list the names of a directory: r.
    ToList,
    /// To add and take names of a directory: w and x.
    ToChange,
}

/// Whether a caller has a right to an object. The user 0 has all; for others the bits of one class decide, which is the
/// owner's, else the group's, else that of all others.
pub fn may(ids: &Ids, known: &Known, right: Right) -> bool
    ensures { result ≡ may ids.now (shell known.now Socket) (right_of right) }
{
    ids.uid == 0
        || class_may(
            right,
            ids.uid == known.attributes.uid,
            class_bits(ids, known),
        )
}

/// The three bits of the caller's class: of the owner, else of the group, else of all others.
pub fn class_bits(ids: &Ids, known: &Known) -> u32
    ensures { result ≡ class_bits ids.now (shell known.now Socket) }
{
    if ids.uid == known.attributes.uid {
        known.attributes.mode / 0o100 % 0o10
    } else if is_member(ids, known.attributes.gid) {
        known.attributes.mode / 0o10 % 0o10
    } else {
        known.attributes.mode % 0o10
    }
}

/// Whether the group is the caller's own, or one of its further groups.
pub fn is_member(ids: &Ids, gid: u32) -> bool
    ensures { result ≡ is_member ids.now gid }
{
    ids.gid == gid || is_among(ids.gids.as_slice(), gid)
}

fn is_among(groups: &[u32], gid: u32) -> bool
    ensures { result ≡ list_any (λ group. group == gid) groups.now }
{
    groups.iter().any(|group| *group == gid)
}

fn class_may(right: Right, is_owner: bool, bits: u32) -> bool
    ensures { result ≡ elim (right_of right) [
      | ToRead ↦ is_owner || reads bits || runs bits
      | ToWrite ↦ is_owner || writes bits
      | ToSearch ↦ runs bits
      | ToList ↦ reads bits
      | ToChange ↦ writes bits && runs bits
    ] }
{
    match right {
        Right::ToRead => is_owner || reads(bits) || runs(bits),
        Right::ToWrite => is_owner || writes(bits),
        Right::ToSearch => runs(bits),
        Right::ToList => reads(bits),
        Right::ToChange => writes(bits) && runs(bits),
    }
}

/// Whether three bits have r.
pub fn reads(bits: u32) -> bool
    ensures { result ≡ reads bits }
{
    bits / 4 % 2 == 1
}

fn writes(bits: u32) -> bool
    ensures { result ≡ writes bits }
{
    bits / 2 % 2 == 1
}

/// Whether three bits have x.
pub fn runs(bits: u32) -> bool
    ensures { result ≡ runs bits }
{
    bits % 2 == 1
}
