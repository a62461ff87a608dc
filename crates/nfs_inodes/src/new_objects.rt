//! New objects: what is asked for, the checks of it, and what they are given (RFC 1813, 3.3.8 to 3.3.11).

ghost use Rattle.std.specs.Prelude.{◌≡◌, ◌==◌, ◌||◌, ◌&&◌, IfOk, IfSome, length, nat_le, not};
ghost use Rattle.nfs_objects.specs.Bits.{no_bits};
ghost use Rattle.std.specs.Prelude.{unwrap_or, ℕ};
ghost use Rattle.std.specs.List.{list_any};
ghost use Rattle.nfs_machine.specs.Making.{given_attributes, kind_checked, new_object};
ghost use Rattle.nfs_machine.specs.Permission.{is_member};
ghost use Rattle.nfs_machine.specs.State.{Link};
ghost use Rattle.nfs_machine.specs.declared.context.Ctx.{Ctx as Context};
ghost use Rattle.nfs_objects.specs.Directories.{no_entries};
ghost use Rattle.nfs_objects.specs.Stands.{entry_map_in, living_alone, map_in, parent_in};
ghost use Rattle.nfs_inodes.specs.Asked.{content_asked, mode_asked, wanted_as};
ghost use Rattle.nfs_inodes.specs.Makes.{first_links, first_parent, links_with};

use crate::content::fresh::new_content;
use crate::data::SIZE_LIMIT;
use crate::kinds::KnownDirectory;
use crate::permission::is_member;
use crate::times::{is_time, now, time_set};
use nfs_machine::Ctx;
use nfs_objects::Inode;
use nfs_rpc::Ids;
use nfs_wire::{DeviceNumber, NfsStatus, SetAttributes, Verifier};
use std::alloc::{AllocError, Global};

/// What a new object contains. What is lent is copied when the object is made.
#[derive(Clone, Copy)]
pub enum NewContent<'a> {
    /// So many zeros, in bytes.
    Regular(u64),
    /// No entry.
    Directory,
    /// The text of a symbolic link.
    Link(&'a [u8]),
    BlockDevice(DeviceNumber),
    CharacterDevice(DeviceNumber),
    Socket,
    Fifo,
}

/// What a new object is to be.
#[derive(Clone, Copy)]
pub struct Wanted<'a> {
    pub content: NewContent<'a>,
    /// A size among them is for regular files alone, and stands in their content.
    pub attributes: SetAttributes,
    /// Of an exclusive CREATE (RFC 1813, 3.3.8).
    pub verifier: Option<Verifier>,
}

/// The greatest count of links that a directory may have (RFC 1813, 3.3.20: linkmax).
pub const LINK_LIMIT: u32 = 32_000;

/// The most bytes of a symbolic link's text.
pub const MAX_TEXT: usize = 4_096;

/// A mode has twelve bits (RFC 1813, 2.5: fattr3); it is below this.
pub const MODE_LIMIT: u32 = 0o10000;

/// Judges the attributes that a new object is given (RFC 1813, 2.5: sattr3).
///
/// # Errors
///
/// `Invalid` where a time has a second or more of nanoseconds; else `FileTooBig` above `SIZE_LIMIT`; else `Permission`
/// for an owner or a group that the caller may not give it to.
pub fn given_attributes(ctx: &Ctx, given: &SetAttributes) -> Result<(), NfsStatus>
    ensures { result ≡ given_attributes ctx.now given.now }
{
    if !is_time(given.accessed) || !is_time(given.modified) {
        return Err(NfsStatus::Invalid);
    }
    if given.size.unwrap_or(0) > SIZE_LIMIT {
        return Err(NfsStatus::FileTooBig);
    }
    if !may_give(&ctx.ids, given) {
        return Err(NfsStatus::Permission);
    }
    Ok(())
}

/// Whether a caller may give an object to these ids: the user 0 to anybody, others to themselves and their groups.
fn may_give(ids: &Ids, given: &SetAttributes) -> bool
    ensures { result ≡ ((ids.now.uid == 0)
        || ((unwrap_or given.now.uid ids.now.uid == ids.now.uid)
        && is_member ids.now (unwrap_or given.now.gid ids.now.gid))) }
{
    let uid = given.uid.unwrap_or(ids.uid);
    let gid = given.gid.unwrap_or(ids.gid);
    ids.uid == 0 || (uid == ids.uid && is_member(ids, gid))
}

/// Judges an object of this content in a directory of so many links.
///
/// # Errors
///
/// `TooManyLinks` for a directory where no link is left to its parent; `Invalid` for a link whose text is empty or
/// holds a NUL, and `NameTooLong` above `MAX_TEXT` bytes; `Permission` for a device where the caller is not the user 0.
pub fn kind_checked(ctx: &Ctx, links: u32, content: &NewContent<'_>) -> Result<(), NfsStatus>
    ensures { result ≡ kind_checked ctx.now links (content_asked content.now) }
{
    match content {
        NewContent::Directory if links >= LINK_LIMIT => Err(NfsStatus::TooManyLinks),
        NewContent::Link(text) => text_checked(text),
        NewContent::BlockDevice(_) | NewContent::CharacterDevice(_) if ctx.ids.uid != 0 => {
            Err(NfsStatus::Permission)
        }
        _ => Ok(()),
    }
}

/// Judges the text of a link.
fn text_checked(text: &[u8]) -> Result<(), NfsStatus>
    ensures { (ctx : Context) (links : ℕ) → result ≡ kind_checked ctx links (Link text.now) }
{
    if !is_text(text) {
        Err(NfsStatus::Invalid)
    } else if text.len() > MAX_TEXT {
        Err(NfsStatus::NameTooLong)
    } else {
        Ok(())
    }
}

fn is_text(text: &[u8]) -> bool
    ensures { result ≡ (nat_le 1 (length text.now) && not (list_any (λ byte. byte == 0) text.now)) }
{
    !text.is_empty() && !has_nul(text)
}

fn has_nul(text: &[u8]) -> bool
    ensures { result ≡ list_any (λ byte. byte == 0) text.now }
{
    text.iter().any(|byte| *byte == 0)
}

/// The links of a directory that had so many, once an object of this content came: the `..` of a directory leads
/// there.
pub(crate) fn links_with(links: u32, content: &NewContent<'_>) -> u32
    ensures { result ≡ links_with links (content_asked content.now) }
{
    match content {
        NewContent::Directory => links.saturating_add(1),
        _ => links,
    }
}

/// A new object in a directory: what is given, and else the caller's ids, the mode of its kind and the call's moment.
///
/// # Errors
///
/// `AllocError` where the memory for the content was refused.
pub(crate) fn new_inode(
    alloc: Global,
    ctx: &Ctx,
    directory: &KnownDirectory,
    wanted: &Wanted<'_>,
    generation: u64,
) -> Result<Inode, AllocError>
    ensures living { IfOk result (λ inode.
        living_alone inode ≡ new_object ctx.now directory.now.known.export generation (wanted_as wanted.now)) }
    ensures blank { IfOk result (λ inode. IfSome (map_in inode.content) (λ map. map.pages ≡ no_bits)) }
    ensures bare { IfOk result (λ inode.
        IfSome (entry_map_in inode.content) (λ map. map ≡ no_entries ctx.now.limits.name_key)) }
    ensures links { IfOk result (λ inode. inode.links ≡ first_links (content_asked wanted.now.content)) }
    ensures parent { IfOk result (λ inode.
        parent_in inode.content ≡ first_parent directory.now.known.number (content_asked wanted.now.content)) }
{
    let now = now(ctx);
    let given = &wanted.attributes;
    Ok(Inode {
        export: directory.known.export,
        generation,
        content: new_content(
            alloc,
            &wanted.content,
            directory.known.number,
            ctx.limits.name_key,
        )?,
        mode: given.mode.unwrap_or(mode_of(&wanted.content)) % MODE_LIMIT,
        uid: given.uid.unwrap_or(ctx.ids.uid),
        gid: given.gid.unwrap_or(ctx.ids.gid),
        links: first_links(&wanted.content),
        accessed: time_set(now, now, given.accessed),
        modified: time_set(now, now, given.modified),
        changed: now,
        verifier: wanted.verifier,
    })
}

/// The mode of an object that is given none.
fn mode_of(content: &NewContent<'_>) -> u32
    ensures { result ≡ mode_asked content.now }
{
    match content {
        NewContent::Directory => 0o755,
        NewContent::Link(_) => 0o777,
        _ => 0o644,
    }
}

/// How many links a new object has: a directory those of its name and of `.`.
fn first_links(content: &NewContent<'_>) -> u32
    ensures { result ≡ first_links (content_asked content.now) }
{
    match content {
        NewContent::Directory => 2,
        _ => 1,
    }
}
