//! What is wrong with a list of exports, if anything. Nothing here takes memory.

ghost use Rattle.std.specs.Prelude.{◌≡◌, ◌<◌, length, MatchResult};
ghost use Rattle.std.specs.List.{list_all};
ghost use Rattle.nfs_machine.specs.Paths.{pieces};
ghost use Rattle.nfs_machine.specs.ExportFaults.{are_export_hosts, export_fault, fault_of, has_length};
ghost use Rattle.nfs_machine.specs.ExportFaults.{is_export_mode, is_export_part, is_export_path};

use crate::exports::{ExportError, ExportText};
use crate::paths::{MAX_NAME, split_piece};
use bytes::Bytes;

/// The greatest count of exports.
const MAX_EXPORTS: usize = 64;

/// The greatest length of an export's path, in bytes.
const MAX_PATH: usize = 1_024;

/// The greatest count of an export's hosts.
const MAX_HOSTS: usize = 1_024;

/// Finds what is to be told of a list: that it is too long, or what is wrong with its first export at fault.
pub(crate) fn check_list(list: &[ExportText]) -> Result<(), ExportError>
    ensures { MatchResult result (λ _. export_fault list.now ≡ None) (λ e. export_fault list.now ≡ Some e) }
{
    if list.len() > MAX_EXPORTS {
        return Err(ExportError::TooMany);
    }
    for (index, text) in list.iter().enumerate() {
        check_export(&list[..index], text)?;
    }
    Ok(())
}

/// Finds what is wrong with the export that follows these.
fn check_export(earlier: &[ExportText], text: &ExportText) -> Result<(), ExportError>
    requires { length earlier.now < MAX_EXPORTS }
    ensures { MatchResult result (λ _. fault_of earlier.now text.now ≡ None)
        (λ e. fault_of earlier.now text.now ≡ Some e) }
{
    let number = earlier.len() as u32 + 1;
    if !is_export_path(&text.path) {
        Err(ExportError::BadPath(number))
    } else if !is_export_mode(&text.mode) {
        Err(ExportError::BadMode(number))
    } else if !are_export_hosts(&text.hosts) {
        Err(ExportError::NoHost(number))
    } else if earlier.iter().any(|export| export.path == text.path) {
        Err(ExportError::DoublePath(number))
    } else {
        Ok(())
    }
}

fn is_export_path(path: &[u8]) -> bool
    ensures { result ≡ is_export_path path.now }
{
    match path {
        _ if path.len() > MAX_PATH => false,
        b"/" => true,
        [b'/', parts @ ..] => are_export_parts(parts),
        _ => false,
    }
}

fn are_export_parts(text: &[u8]) -> bool
    ensures { result ≡ list_all is_export_part (pieces text.now) }
{
    let mut rest = text;
    'parts: loop {
        match split_piece(rest) {
            (part, _) if !is_export_part(part) => return false,
            (_, None) => return true,
            (_, Some(more)) => rest = more,
        }
    }
}

fn is_export_part(part: &[u8]) -> bool
    ensures { result ≡ is_export_part part.now }
{
    has_length(part, MAX_NAME)
        && !part.contains(&b',')
        && part != b".".as_slice()
        && part != b"..".as_slice()
}

fn is_export_mode(mode: &[u8]) -> bool
    ensures { result ≡ is_export_mode mode.now }
{
    mode == b"rw".as_slice() || mode == b"ro".as_slice()
}

fn are_export_hosts(hosts: &[Bytes]) -> bool
    ensures { result ≡ are_export_hosts hosts.now }
{
    match hosts.len() {
        1..=MAX_HOSTS => hosts.iter().all(|host| has_length(host, MAX_NAME)),
        _ => false,
    }
}

fn has_length(text: &[u8], most: usize) -> bool
    ensures { result ≡ has_length most text.now }
{
    !text.is_empty() && text.len() <= most
}
