//! Paths (RFC 1813, section 5.2.1): names between slashes.

ghost use Rattle.std.specs.Prelude.{◌≡◌, ◌++◌, ◌==◌, ◌≤◌, length, nat_lt, MatchOption};
ghost use Rattle.std.specs.List.{list_any};
ghost use Rattle.nfs_machine.specs.MountSteps.{path_fault};
ghost use Rattle.nfs_machine.specs.Paths.{begins_with_slash, is_dots, parts};
ghost use Rattle.nfs_mount.specs.Fronts.{BeginsNot};

use nfs_machine::paths::{MAX_NAME, split_piece};
use side_wire::MountStatus;
use std::marker::Model;

/// The names that a path walks, from left to right; empty parts are skipped.
#[derive(Drop)]
pub struct PathNames<'a> {
    /// What follows the last slash that was passed; None at the path's end.
    rest: Option<&'a [u8]>,
}

impl<'a> Model for PathNames<'a> {
    ghost use Rattle.std.specs.Prelude.{ℕ, List, []};
    ghost use Rattle.std.specs.Option.{option_map_or};
    ghost use Rattle.nfs_machine.specs.Paths.{parts};

    ghost Value = { List (List ℕ) };

    ghost view = { λ names. option_map_or (λ text. parts text.now) names.rest [] };
}

impl<'a> PathNames<'a> {
    /// The names of a path.
    pub fn of(path: &'a [u8]) -> PathNames<'a>
        ensures names { result ≡ parts path.now }
        ensures count { length result ≤ length path.now }
    {
        PathNames { rest: Some(path) }
    }

    /// How many bytes of the path are left.
    pub fn left(&self) -> usize {
        match self.rest {
            Some(text) => text.len(),
            None => 0,
        }
    }
}

impl<'a> Iterator for PathNames<'a> {
    ghost use Rattle.std.specs.Iterator.{YieldsFirstRef, item_count};

    type Item = &'a [u8];

    ghost next_gives = { YieldsFirstRef (λ names. names) };

    ghost remaining = { item_count (λ names. names) };

    fn next(&mut self) -> Option<&'a [u8]> {
        'pieces: while let Some(text) = self.rest {
            let (piece, rest) = split_piece(text);
            self.rest = rest;
            if !piece.is_empty() {
                return Some(piece);
            }
        }
        None
    }
}

/// What is wrong with a path that no directory can have, whatever the exports: INVAL without a leading slash, with a
/// NUL or a name `.` or `..`; else NAMETOOLONG with a name above 255 bytes. It takes no memory.
#[tactic(auto, using(crate::proofs::PathPartLemmas::any_dots, crate::proofs::PathPartLemmas::any_long))]
pub fn path_fault(path: &[u8]) -> Option<MountStatus>
    ensures { result ≡ path_fault path.now }
{
    if !begins_with_slash(path) || path.contains(&0) || has_dots(path) {
        Some(MountStatus::Invalid)
    } else if has_long_name(path) {
        Some(MountStatus::NameTooLong)
    } else {
        None
    }
}

fn begins_with_slash(path: &[u8]) -> bool
    ensures { result ≡ begins_with_slash path.now }
{
    path.first() == Some(&b'/')
}

/// Whether a name is `.` or `..`, which name no entry.
fn is_dots(name: &[u8]) -> bool
    ensures { result ≡ is_dots name.now }
{
    name == b".".as_slice() || name == b"..".as_slice()
}

fn has_dots(path: &[u8]) -> bool
    ensures { result ≡ list_any is_dots (parts path.now) }
{
    PathNames::of(path).any(|name| is_dots(name))
}

fn has_long_name(path: &[u8]) -> bool
    ensures { result ≡ list_any (λ name. nat_lt 255 (length name)) (parts path.now) }
{
    PathNames::of(path).any(|name| name.len() > MAX_NAME)
}

/// The names that a path goes on with below an export; None where the export's names do not begin the path's. It takes
/// no memory.
pub fn names_below<'a>(path: &'a [u8], export: &[u8]) -> Option<PathNames<'a>>
    ensures { MatchOption result (BeginsNot (parts export.now) (parts path.now))
        (λ rest. parts path.now ≡ parts export.now ++ rest) }
{
    let mut rest = PathNames::of(path);
    for own in PathNames::of(export) {
        if rest.next()? != own {
            return None;
        }
    }
    Some(rest)
}
