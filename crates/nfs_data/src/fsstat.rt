//! FSSTAT: how much space an export has (RFC 1813, 3.3.18).

ghost use Rattle.std.specs.Prelude.{◌≡◌, ◌-◌, IfErr, ℕ};
ghost use Rattle.std.specs.FinMap.{values};
ghost use Rattle.nfs_machine.specs.FileSystemSteps.{space_left};
ghost use Rattle.nfs_machine.specs.State.{State};
ghost use Rattle.nfs_machine.specs.declared.calls.Call.TheVariants as calls;
ghost use Rattle.nfs_objects.specs.Attempt.{EndsCall, EndsFirst};
ghost use Rattle.nfs_objects.specs.Begins.{Begins};
ghost use Rattle.nfs_objects.specs.Sums.{export_usage};
ghost use Rattle.nfs_data.specs.Plans.{MayHalt};

use bytes::Bytes;
use nfs_inodes::{export_usage, named};
use nfs_machine::Reply;
use nfs_objects::{Change, Draft, Missing, Usage};
use nfs_wire::{FsstatReply, NfsCall, NfsReply, Space};

/// The files that an export is told to have room for, those that are there among them.
const TOTAL_FILES: u64 = 4_294_967_295;

/// Tries FSSTAT of this handle.
pub(crate) fn attempt(draft: Draft<'_>, object: &Bytes) -> Result<Change, Missing>
    requires { Begins (calls.Nfs (NfsCall.Fsstat object.now)) draft }
    ensures ends { EndsCall (calls.Nfs (NfsCall.Fsstat object.now)) draft.entry.ctx draft.entry.view result }
    ensures first { EndsFirst (calls.Nfs (NfsCall.Fsstat object.now)) draft.entry.view result }
{
    match named(&draft, object.as_slice())? {
        Ok(known) => {
            let usage = export_usage(&draft, known.export)?;
            let reply = FsstatReply {
                attributes: Some(known.attributes),
                result: Ok(space_left(draft.ctx().limits.total_bytes, usage)),
            };
            Ok(draft.answer(Reply::Nfs(NfsReply::Fsstat(reply))))
        }
        Err(status) => {
            let reply = FsstatReply {
                attributes: None,
                result: Err(status),
            };
            Ok(draft.answer(Reply::Nfs(NfsReply::Fsstat(reply))))
        }
    }
}

/// Asks for what all groups of an export use, which FSSTAT tells of.
///
/// # Errors
///
/// `Need` of those that it lacks, and `Memory`.
pub(crate) fn ask(draft: &Draft<'_>, object: &Bytes) -> Result<(), Missing>
    requires { Begins (calls.Nfs (NfsCall.Fsstat object.now)) draft.now }
    ensures { IfErr result (MayHalt (NfsCall.Fsstat object.now) draft.now) }
{
    if let Ok(known) = named(draft, object.as_slice())? {
        let _usage = export_usage(draft, known.export)?;
    }
    Ok(())
}

/// What this usage of an export leaves of a total of so many bytes, and of all files; never below 0.
fn space_left(total: u64, usage: Usage) -> Space
    ensures { (m : State) (export : ℕ) → usage ≡ export_usage m export →
        result ≡ space_left total (values m.objects) export }
{
    let bytes = left(total, usage.used);
    let files = left(TOTAL_FILES, usage.objects);
    Space {
        total_bytes: total,
        free_bytes: bytes,
        available_bytes: bytes,
        total_files: TOTAL_FILES,
        free_files: files,
        available_files: files,
        unchanged_for: 0,
    }
}

/// What is left of a total; 0 where more is used.
fn left(total: u64, used: u128) -> u64
    ensures { result ≡ total - used }
{
    u128::from(total).saturating_sub(used) as u64
}
