//! What exports that come would change of those that stand.

ghost use Rattle.std.specs.Prelude.{◌≡◌, ◌++◌, map, IfOk, OnOk};
ghost use Rattle.std.specs.List.{count_by, list_any};
ghost use Rattle.nfs_machine.specs.Exports.{ExportValue, export_value};
ghost use Rattle.nfs_server.specs.Changes.{TellsNew, changes_line, has_path, told_but};

use bytes::Bytes;
use nfs_machine::{Export, Exports};
use std::alloc::{AllocError, Global};

/// What stands before how many exports stay.
const KEEPS: &[u8] = b"keeps ";

/// What stands before the path of an export that goes.
const DROPS: &[u8] = b", drops ";

/// What stands before the path of an export that comes.
const ADDS: &[u8] = b", adds ";

/// The line that tells how many exports stay, whose paths both lists have; which go, with their files; and which come.
pub(crate) fn changes_line(
    alloc: Global,
    standing: &Exports,
    coming: &Exports,
) -> Result<Vec<u8>, AllocError>
    ensures { IfOk result (λ line. line.items ≡ changes_line standing.now coming.now) }
{
    let (standing, coming) = (standing.list(), coming.list());
    let kept = kept_count(standing, coming).to_string(alloc)?;
    let mut line = Vec::from_slice(alloc, KEEPS)?;
    line.extend_from_slice(kept.as_bytes())?;
    tell_but(&mut line, DROPS, coming, standing)?;
    tell_but(&mut line, ADDS, standing, coming)?;
    line.push(b'\n')?;
    Ok(line)
}

/// How many of these have a path that one of the others has.
fn kept_count(exports: &[Export], others: &[Export]) -> usize
    ensures { result ≡ count_by (λ (e : ExportValue). has_path (map export_value others.now) e.path)
        (map export_value exports.now) }
{
    exports
        .iter()
        .filter(|export| has_path(others, &export.path))
        .count()
}

/// Adds the word and the path of each of these whose path none of the others has.
fn tell_but(
    line: &mut Vec<u8>,
    word: &[u8],
    others: &[Export],
    exports: &[Export],
) -> Result<(), AllocError>
    ensures { OnOk result (line.new.items ≡ line.old.items
        ++ told_but word.now (map export_value others.now) (map export_value exports.now)) }
{
    'exports: for export in exports {
        if !has_path(others, &export.path) {
            line.extend_from_slice(word)?;
            line.extend_from_slice(export.path.as_slice())?;
        }
    }
    Ok(())
}

/// Whether one of these has the path.
fn has_path(exports: &[Export], path: &Bytes) -> bool
    ensures { result ≡ has_path (map export_value exports.now) path.now }
{
    exports.iter().any(|export| export.path == *path)
}

/// The law that exports are told to come just where the machine makes them new.
pub fn new_exports_are_told()
    ensures { TellsNew }
{}
