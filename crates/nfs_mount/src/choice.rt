//! The export that a path is under for a host (RFC 1813, section 5.2.1).

ghost use Rattle.std.specs.Prelude.{◌≡◌, ◌<◌, MatchOption};
ghost use Rattle.nfs_machine.specs.MountSteps.{NoExport};
ghost use Rattle.nfs_machine.specs.Paths.{parts};
ghost use Rattle.nfs_machine.specs.WellFormed.{AllApart};
ghost use Rattle.nfs_mount.specs.Choices.{IsChosen, IsLead, LeadsNot, deeper_of};

use crate::paths::{PathNames, names_below};
use bytes::Bytes;
use nfs_objects::LivingExport;

/// An export that leads to a path.
#[derive(Drop)]
pub struct Choice<'a> {
    /// The number of the export's root.
    pub root: u64,
    /// How many names the export's path has.
    pub depth: usize,
    /// The names of the path that are left to walk from the root.
    pub rest: PathNames<'a>,
}

/// Of the exports that admit the host and whose names begin the path's, the one with the most names; None where there
/// is none. It takes no memory.
pub fn choose<'a>(exports: &[LivingExport], host: &Bytes, path: &'a [u8]) -> Option<Choice<'a>>
    ensures { AllApart exports.now → MatchOption result
        (NoExport exports.now host.now (parts path.now))
        (IsChosen exports.now host.now (parts path.now)) }
{
    let mut best = None;
    for export in exports {
        best = deeper(best, lead(export, host, path));
    }
    best
}

/// The choice of this export, if it admits the host and its names begin the path's.
fn lead<'a>(export: &LivingExport, host: &Bytes, path: &'a [u8]) -> Option<Choice<'a>>
    ensures { MatchOption result
        (LeadsNot export.now host.now (parts path.now))
        (IsLead export.now host.now (parts path.now)) }
{
    if !export.admits(host) {
        return None;
    }
    let rest = names_below(path, export.path().as_slice())?;
    Some(Choice {
        root: export.root(),
        depth: PathNames::of(export.path().as_slice()).count(),
        rest,
    })
}

/// The choice of more names; of two of equally many the first.
fn deeper<'a>(best: Option<Choice<'a>>, other: Option<Choice<'a>>) -> Option<Choice<'a>>
    ensures { result ≡ deeper_of best.entry other.entry }
{
    match (best, other) {
        (Some(best), Some(other)) if best.depth < other.depth => Some(other),
        (Some(best), _) => Some(best),
        (None, other) => other,
    }
}
