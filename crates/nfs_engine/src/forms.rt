//! Whether the parts of a reply are within their bounds.

ghost use Rattle.std.specs.Prelude.{◌≡◌, ◌<◌, ◌≤◌, ◌^◌, IfOk, length, true};
ghost use Rattle.std.specs.Bool.{Decides};
ghost use Rattle.std.specs.List.{All};
ghost use Rattle.nfs_wire.specs.Replies.{FitsWord, HasEntryForm, HasFullEntryForm, HasLookupForm, HasMadeForm};
ghost use Rattle.nfs_wire.specs.Replies.{HasNfsForm, HasReadForm, HasReaddirForm, HasReaddirplusForm};
ghost use Rattle.nfs_wire.specs.Replies.{HasReadlinkForm, IsHandle};
ghost use Rattle.side_wire.specs.Mount.{HasExportNodeForm, HasMountBodyForm, HasMountForm, IsDirpath, IsHostName};
ghost use Rattle.side_wire.specs.Nlm.{HasNlmForm, HasTestStatusForm, IsNetobj};

use bytes::Bytes;
use nfs_wire::{
    FullEntry, LookupReply, MadeReply, NfsReply, PageEntry, ReadReply, ReaddirReply,
    ReaddirplusReply, ReadlinkReply,
};
use side_wire::{ExportNode, MountBody, MountReply, MountStatus, NlmReply, TestStatus};

/// The most bytes of a handle, NFS3_FHSIZE (RFC 1813, 2.4).
const MAX_HANDLE: usize = 64;

/// The most bytes of a host's name of MOUNT, MNTNAMLEN (RFC 1813, 5.1.4).
const MAX_HOST_NAME: usize = 255;

/// The most bytes of a path of MOUNT, MNTPATHLEN (RFC 1813, 5.1.4).
const MAX_DIRPATH: usize = 1024;

/// The most bytes of a cookie or an owner of NLM, MAXNETOBJ_SZ (RFC 1813, 6.1.4).
const MAX_NETOBJ: usize = 1024;

/// Whether the handles and the texts of a reply of NFS are within their bounds.
pub(crate) fn is_formed(reply: &NfsReply) -> bool
    ensures { result ≡ true → HasNfsForm reply.now }
{
    match reply {
        NfsReply::Lookup(reply) => lookup_is_formed(reply),
        NfsReply::Readlink(reply) => readlink_is_formed(reply),
        NfsReply::Read(reply) => read_is_formed(reply),
        NfsReply::Create(reply) => made_is_formed(reply),
        NfsReply::Mkdir(reply) => made_is_formed(reply),
        NfsReply::Symlink(reply) => made_is_formed(reply),
        NfsReply::Mknod(reply) => made_is_formed(reply),
        NfsReply::Readdir(reply) => readdir_is_formed(reply),
        NfsReply::Readdirplus(reply) => readdirplus_is_formed(reply),
        _ => true,
    }
}

fn lookup_is_formed(reply: &LookupReply) -> bool
    ensures { Decides result (HasLookupForm reply.now) }
{
    match &reply.result {
        Ok(found) => is_handle(&found.object),
        Err(_) => true,
    }
}

fn readlink_is_formed(reply: &ReadlinkReply) -> bool
    ensures { Decides result (HasReadlinkForm reply.now) }
{
    match &reply.result {
        Ok(text) => fits_word(text),
        Err(_) => true,
    }
}

fn read_is_formed(reply: &ReadReply) -> bool
    ensures { Decides result (HasReadForm reply.now) }
{
    match &reply.result {
        Ok(read) => is_word(read.data.len()),
        Err(_) => true,
    }
}

fn made_is_formed(reply: &MadeReply) -> bool
    ensures { Decides result (HasMadeForm reply.now) }
{
    match &reply.result {
        Ok(made) => match &made.object {
            Some(object) => is_handle(object),
            None => true,
        },
        Err(_) => true,
    }
}

fn readdir_is_formed(reply: &ReaddirReply) -> bool
    ensures { result ≡ true → HasReaddirForm reply.now }
{
    match &reply.result {
        Ok(page) => names_are_formed(page.entries.as_slice()),
        Err(_) => true,
    }
}

fn names_are_formed(entries: &[PageEntry]) -> bool
    ensures { result ≡ true → All HasEntryForm entries.now }
{
    for entry in entries {
        if !fits_word(&entry.name) {
            return false;
        }
    }
    true
}

fn readdirplus_is_formed(reply: &ReaddirplusReply) -> bool
    ensures { result ≡ true → HasReaddirplusForm reply.now }
{
    match &reply.result {
        Ok(page) => entries_are_formed(page.entries.as_slice()),
        Err(_) => true,
    }
}

fn entries_are_formed(entries: &[FullEntry]) -> bool
    ensures { result ≡ true → All HasFullEntryForm entries.now }
{
    for entry in entries {
        if !entry_is_formed(entry) {
            return false;
        }
    }
    true
}

fn entry_is_formed(full: &FullEntry) -> bool
    ensures { Decides result (HasFullEntryForm full.now) }
{
    if !fits_word(&full.entry.name) {
        return false;
    }
    match &full.object {
        Some(object) => is_handle(object),
        None => true,
    }
}

/// Whether the handle, the names of hosts and the paths that a reply of MOUNT shows are within their bounds.
pub(crate) fn mount_is_formed(reply: &MountReply) -> bool
    ensures { result ≡ true → HasMountForm reply.now }
{
    match reply {
        MountReply::Mnt(mounted) => mounted_is_formed(mounted),
        MountReply::Dump(mounts) => mounts_are_formed(mounts.as_slice()),
        MountReply::Export(exports) => exports_are_formed(exports.as_slice()),
        _ => true,
    }
}

fn mounted_is_formed(mounted: &Result<Bytes, MountStatus>) -> bool
    ensures { Decides result (IfOk mounted.now (λ handle. length handle ≤ 64)) }
{
    match mounted {
        Ok(handle) => is_handle(handle),
        Err(_) => true,
    }
}

fn mounts_are_formed(mounts: &[MountBody]) -> bool
    ensures { result ≡ true → All HasMountBodyForm mounts.now }
{
    for mount in mounts {
        if !mount_body_is_formed(mount) {
            return false;
        }
    }
    true
}

fn mount_body_is_formed(mount: &MountBody) -> bool
    ensures { Decides result (HasMountBodyForm mount.now) }
{
    is_host_name(&mount.hostname) && is_dirpath(&mount.directory)
}

fn exports_are_formed(exports: &[ExportNode]) -> bool
    ensures { result ≡ true → All HasExportNodeForm exports.now }
{
    for export in exports {
        if !export_is_formed(export) {
            return false;
        }
    }
    true
}

fn export_is_formed(export: &ExportNode) -> bool
    ensures { result ≡ true → HasExportNodeForm export.now }
{
    is_dirpath(&export.directory) && hosts_are_named(export.groups.as_slice())
}

fn hosts_are_named(hosts: &[Bytes]) -> bool
    ensures { result ≡ true → All IsHostName hosts.now }
{
    for host in hosts {
        if !is_host_name(host) {
            return false;
        }
    }
    true
}

fn is_host_name(name: &Bytes) -> bool
    ensures { Decides result (IsHostName name.now) }
{
    name.len() <= MAX_HOST_NAME
}

fn is_dirpath(path: &Bytes) -> bool
    ensures { Decides result (IsDirpath path.now) }
{
    path.len() <= MAX_DIRPATH
}

/// Whether the cookie and the owner that a reply of NLM shows are within their bounds.
pub(crate) fn nlm_is_formed(reply: &NlmReply) -> bool
    ensures { Decides result (HasNlmForm reply.now) }
{
    match reply {
        NlmReply::Test(tested) => is_netobj(&tested.cookie) && holder_is_formed(&tested.status),
        NlmReply::Lock(answer)
        | NlmReply::Cancel(answer)
        | NlmReply::Unlock(answer)
        | NlmReply::Granted(answer)
        | NlmReply::Share(answer)
        | NlmReply::Unshare(answer)
        | NlmReply::NmLock(answer) => is_netobj(&answer.cookie),
        _ => true,
    }
}

fn holder_is_formed(status: &TestStatus) -> bool
    ensures { Decides result (HasTestStatusForm status.now) }
{
    match status {
        TestStatus::Denied(holder) => is_netobj(&holder.owner),
        _ => true,
    }
}

fn is_netobj(bytes: &Bytes) -> bool
    ensures { Decides result (IsNetobj bytes.now) }
{
    bytes.len() <= MAX_NETOBJ
}

fn is_handle(handle: &Bytes) -> bool
    ensures { Decides result (IsHandle handle.now) }
{
    handle.len() <= MAX_HANDLE
}

fn fits_word(text: &Bytes) -> bool
    ensures { Decides result (FitsWord text.now) }
{
    is_word(text.len())
}

fn is_word(number: usize) -> bool
    ensures { Decides result (number < 2 ^ 32) }
{
    number as u64 <= u64::from(u32::MAX)
}
