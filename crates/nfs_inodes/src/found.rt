//! What lives at a number, and what a handle names (RFC 1813, 2.6: NFS3ERR_BADHANDLE, NFS3ERR_STALE).

ghost use Rattle.std.specs.Prelude.{◌≡◌, ◌∷◌, [], ◌==◌, ◌&&◌, false, IfErr, IfOk, IfSome, IsSome};
ghost use Rattle.std.specs.Prelude.{MatchResult, None, Some};
ghost use Rattle.std.specs.Prelude.{option_copied, option_map};
ghost use Rattle.std.specs.Arc.{arc_value};
ghost use Rattle.nfs_machine.specs.Bytes.{same_bytes};
ghost use Rattle.nfs_machine.specs.Exports.{export_admits, export_at};
ghost use Rattle.nfs_machine.specs.Shown.{attributes_at, handle_at};
ghost use Rattle.nfs_machine.specs.State.{Socket};
ghost use Rattle.nfs_objects.specs.Asks.{IsThere};
ghost use Rattle.nfs_objects.specs.Attempt.{HaltsFirst, first_wanted_with, unless_seen};
ghost use Rattle.nfs_objects.specs.Calls.{addresses_of};
ghost use Rattle.nfs_objects.specs.Knows.{Knows, ShowsExport};
ghost use Rattle.nfs_objects.specs.Only.{AsksNothing};
ghost use Rattle.nfs_objects.specs.Stands.{inode_in};
ghost use Rattle.nfs_objects.specs.Values.{known_at};
ghost use Rattle.nfs_inodes.specs.Kinds.{IsShown};
ghost use Rattle.nfs_inodes.specs.Known.{HasExports, HasInode, HasNumber, IsKnownOf, IsObject, Means};
ghost use Rattle.nfs_inodes.specs.Known.{is_handle_of, shell, weak_of};
ghost use Rattle.nfs_inodes.specs.Stops.{IsOfExport, ReadsAt, ReadsInode, StopsAt, brought_by};

use crate::content::shape::{device, file_type, size, used};
use bytes::Bytes;
use nfs_machine::{Ctx, Handle};
use nfs_objects::object::{export_list, living};
use nfs_objects::{Addr, Draft, Inode, LivingExport, Missing, Object};
use nfs_wire::{Attributes, NfsStatus, Verifier, Wcc, WeakAttributes};
use std::alloc::{AllocError, Global};
use std::sync::Arc;

/// A living object, but for what it contains.
#[derive(Clone, Copy)]
pub struct Known {
    pub number: u64,
    pub export: u32,
    pub generation: u64,
    pub attributes: Attributes,
    /// Of the exclusive CREATE that made it (RFC 1813, 3.3.8).
    pub verifier: Option<Verifier>,
}

/// The living exports.
///
/// # Errors
///
/// `Need` of their table, and `Memory`.
pub fn exports<'d>(draft: &'d Draft<'_>) -> Result<&'d [LivingExport], Missing>
    ensures exports { MatchResult result
        (λ list. Knows draft.now (λ k. k.state.exports ≡ list.now))
        (StopsAt draft.now (Addr.Exports ∷ [])) }
    ensures table { IfOk result (λ list. HasExports draft.now list.now) }
    ensures reads { ReadsAt draft.now Addr.Exports result }
    ensures first { draft.now.writes ≡ [] →
        HaltsFirst draft.now.modes draft.now.view (unless_seen draft.now.view Addr.Exports) result }
{
    Ok(export_list(draft.find(Addr::Exports)?))
}

/// The living export with this number.
pub(crate) fn export_at(exports: &[LivingExport], number: u32) -> Option<&LivingExport>
    ensures { option_copied result ≡ export_at exports.now number }
{
    exports.iter().find(|export| export.number() == number)
}

/// What lives at a number.
///
/// # Errors
///
/// `Need` of the exports or the number's address, and `Memory`.
pub fn object(draft: &Draft<'_>, number: u64) -> Result<Option<Known>, Missing>
    ensures object { MatchResult result
        (λ x. Knows draft.now (λ k. IsObject k.state number x))
        (StopsAt draft.now (addresses_of draft.now.view number)) }
    ensures number { IfOk result (λ x. IfSome x (λ x. x.number ≡ number)) }
    ensures exported { IfOk result (λ x. IfSome x (λ x. ShowsExport draft.now x.export)) }
    ensures shown { IfOk result (λ x. IfSome x (IsShown draft.now)) }
    ensures reads { ReadsInode draft.now number result }
{
    match inode(draft, number)? {
        Some(inode) => Ok(Some(known_of(number, inode))),
        None => Ok(None),
    }
}

/// The inode at a number, if its export lives.
pub(crate) fn inode<'d>(draft: &'d Draft<'_>, number: u64) -> Result<Option<&'d Inode>, Missing>
    ensures inode { MatchResult result
        (λ inode. HasInode draft.now number (option_copied inode))
        (StopsAt draft.now (addresses_of draft.now.view number)) }
    ensures reads { ReadsInode draft.now number result }
{
    let exports = exports(draft)?;
    let object = draft.find(Addr::Inode(number))?;
    Ok(exported(exports, object))
}

/// The inode that stands where this is known. What belongs to no export that lives stands for nothing.
fn exported<'d>(exports: &[LivingExport], known: &'d Option<Arc<Object>>) -> Option<&'d Inode>
    ensures { option_copied result ≡ inode_in exports.now (option_map arc_value known.now) }
{
    let inode = living(known)?;
    export_at(exports, inode.export)?;
    Some(inode)
}

/// The attributes of what lives at a number.
///
/// # Errors
///
/// `Need` of the exports or the number's address, and `Memory`.
pub fn shown(draft: &Draft<'_>, number: u64) -> Result<Option<Attributes>, Missing>
    ensures { MatchResult result
        (λ shown. Knows draft.now (λ k. attributes_at k.state number ≡ shown))
        (StopsAt draft.now (addresses_of draft.now.view number)) }
{
    match object(draft, number)? {
        Some(known) => Ok(Some(known.attributes)),
        None => Ok(None),
    }
}

/// An object before a call, and what lives at its number in the draft (RFC 1813, 2.5: wcc_data).
///
/// # Errors
///
/// `Need` of the exports or the number's address, and `Memory`.
pub fn wcc(draft: &Draft<'_>, before: &Known) -> Result<Wcc, Missing>
    ensures { MatchResult result
        (λ wcc. Knows draft.now (λ k. wcc ≡ record
        { before = Some (weak_of before.now); after = attributes_at k.state before.now.number }))
        (StopsAt draft.now (addresses_of draft.now.view before.now.number)) }
{
    let after = shown(draft, before.number)?;
    Ok(wcc_of(before, after))
}

/// The same of attributes that are known.
pub fn wcc_of(before: &Known, after: Option<Attributes>) -> Wcc
    ensures { result ≡ record { before = Some (weak_of before.now); after = after } }
{
    Wcc {
        before: Some(weak(before)),
        after,
    }
}

/// What is shown where a handle names nothing.
pub fn nothing_shown() -> Wcc
    ensures { result ≡ record { before = None; after = None } }
{
    Wcc {
        before: None,
        after: None,
    }
}

/// What a handle names for the caller, or the status of a call that brings it. The exports are read first, and then the
/// object.
///
/// # Errors
///
/// `Need` of the exports, or of the address that the handle names; and `Memory`.
pub fn named(draft: &Draft<'_>, handle: &[u8]) -> Result<Result<Known, NfsStatus>, Missing>
    requires { draft.now.writes ≡ [] }
    ensures means { IfOk result (λ found. Knows draft.now (Means draft.now.ctx handle.now found)) }
    ensures lives { IfOk result (λ found. IfOk found (λ x. IsThere draft.now.view (Addr.Inode x.number))) }
    ensures number { IfOk result (λ found. IfOk found (λ x. HasNumber handle.now x.number)) }
    ensures exported { IfOk result (λ found. IfOk found (λ x. ShowsExport draft.now x.export)) }
    ensures shown { IfOk result (λ found. IfOk found (IsShown draft.now)) }
    ensures usage { IfOk result (λ found. IfOk found (λ x. IsOfExport handle.now x.export)) }
    ensures stops { IfErr result (StopsAt draft.now (brought_by draft.now.view handle.now)) }
    ensures first { HaltsFirst draft.now.modes draft.now.view (first_wanted_with draft.now.view (handle.now ∷ []))
        result }
    ensures once { first_wanted_with draft.now.view (handle.now ∷ []) ≡ None → AsksNothing result }
    ensures at_once { first_wanted_with draft.now.view (handle.now ∷ []) ≡ None → IfErr result (λ halt. ⊥) }
    ensures reads { IfOk result (λ found. IsSome (known_at draft.now Addr.Exports)
        × IfOk found (λ x. IsSome (known_at draft.now (Addr.Inode x.number)))) }
{
    let exports = exports(draft)?;
    let Some(handle) = Handle::read(handle) else {
        return Ok(Err(NfsStatus::BadHandle));
    };
    let Some(known) = object(draft, handle.fileid)? else {
        return Ok(Err(NfsStatus::Stale));
    };
    if is_target(draft.ctx(), exports, &handle, &known) {
        Ok(Ok(known))
    } else {
        Ok(Err(NfsStatus::Stale))
    }
}

/// Whether the caller may use the handle, and the object at its number is the handle's.
fn is_target(ctx: &Ctx, exports: &[LivingExport], handle: &Handle, known: &Known) -> bool
    ensures { result ≡ (((handle.now.start == ctx.now.start)
        && export_admits (export_at exports.now handle.now.export) ctx.now.host)
        && is_handle_of handle.now known.now) }
{
    is_admitted(ctx, exports, handle) && is_handle_of(handle, known)
}

/// Whether a handle is of this start of the server, and of an export that admits the caller.
fn is_admitted(ctx: &Ctx, exports: &[LivingExport], handle: &Handle) -> bool
    ensures { result ≡ ((handle.now.start == ctx.now.start)
        && export_admits (export_at exports.now handle.now.export) ctx.now.host) }
{
    handle.start == ctx.start && admits(exports, handle.export, &ctx.host)
}

/// Whether there is such an export, and it admits the host.
fn admits(exports: &[LivingExport], number: u32, host: &Bytes) -> bool
    ensures { result ≡ export_admits (export_at exports.now number) host.now }
{
    match export_at(exports, number) {
        Some(export) => export.admits(host),
        None => false,
    }
}

/// Whether the object at a handle's number is the handle's.
fn is_handle_of(handle: &Handle, known: &Known) -> bool
    ensures { result ≡ is_handle_of handle.now known.now }
{
    known.generation == handle.generation && known.export == handle.export
}

fn known_of(number: u64, inode: &Inode) -> Known
    ensures { IsKnownOf number inode.now result }
{
    Known {
        number,
        export: inode.export,
        generation: inode.generation,
        attributes: Attributes {
            kind: file_type(&inode.content),
            mode: inode.mode,
            links: inode.links,
            uid: inode.uid,
            gid: inode.gid,
            size: size(&inode.content),
            used: used(&inode.content),
            device: device(&inode.content),
            fsid: u64::from(inode.export),
            fileid: number,
            accessed: inode.accessed,
            modified: inode.modified,
            changed: inode.changed,
        },
        verifier: inode.verifier,
    }
}

/// The bytes of the handle of an object.
///
/// # Errors
///
/// `AllocError` where the memory for the bytes was refused.
pub fn handle(alloc: Global, ctx: &Ctx, known: &Known) -> Result<Bytes, AllocError>
    ensures { IfOk result (λ bytes. bytes ≡ handle_at ctx.now known.now.number (shell known.now Socket)) }
{
    let handle = Handle {
        export: known.export,
        start: ctx.start,
        fileid: known.number,
        generation: known.generation,
    };
    Bytes::copy_from_slice(alloc, &handle.bytes())
}

/// What a caller compares to see whether its cache is still true (RFC 1813, 2.5: wcc_attr).
fn weak(known: &Known) -> WeakAttributes
    ensures { result ≡ weak_of known.now }
{
    WeakAttributes {
        size: known.attributes.size,
        modified: known.attributes.modified,
        changed: known.attributes.changed,
    }
}

/// Whether a file was made by an exclusive CREATE with this verifier.
pub fn is_verifier(known: &Known, given: &Verifier) -> bool
    ensures { result ≡ elim (shell known.now Socket).verifier
        [ None ↦ false | Some kept ↦ same_bytes kept given.now.bytes ] }
{
    match &known.verifier {
        Some(kept) => kept.bytes == given.bytes,
        None => false,
    }
}
