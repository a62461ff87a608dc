//! An export as a text gives it.

ghost use Rattle.std.specs.Prelude.{◌≡◌, ◌==◌, [], IfOk, map, slice_get, unwrap_or};
ghost use Rattle.std.specs.List.{slice_split};
ghost use Rattle.nfs_server.specs.ExportTexts.{export_parts, parts_of};

use bytes::Bytes;
use nfs_machine::ExportText;
use std::alloc::{AllocError, Global};

/// The export that PATH,MODE,HOST[,HOST..] spells. A part that is missing is empty.
pub(crate) fn export_text(alloc: Global, text: &[u8]) -> Result<ExportText, AllocError>
    ensures { IfOk result (λ export. parts_of export ≡ export_parts text.now) }
{
    let fields = fields(alloc, text)?;
    Ok(ExportText {
        path: Bytes::copy_from_slice(alloc, field(&fields, 0))?,
        mode: Bytes::copy_from_slice(alloc, field(&fields, 1))?,
        hosts: hosts(alloc, fields.get(2..).unwrap_or(&[]))?,
    })
}

/// The same export, which shares the bytes of this one.
pub(crate) fn shared_text(text: &ExportText) -> Result<ExportText, AllocError>
    ensures { IfOk result (λ shared. parts_of shared ≡ parts_of text.now) }
{
    Ok(ExportText {
        path: text.path.clone()?,
        mode: text.mode.clone()?,
        hosts: text.hosts.clone()?,
    })
}

// What stands between the commas.
fn fields<'a>(alloc: Global, text: &'a [u8]) -> Result<Vec<&'a [u8]>, AllocError>
    ensures { IfOk result (λ fields. map (λ field. field.now) fields.items
        ≡ slice_split (λ b. b == 44) text.entry.now) }
{
    text.split(|byte| *byte == b',').collect(alloc)
}

// The field at this place, from 0; a missing one is empty.
fn field<'a>(fields: &[&'a [u8]], place: usize) -> &'a [u8]
    ensures { result.now ≡ unwrap_or (slice_get (map (λ field. field.now) fields.now) place) [] }
{
    match fields.get(place) {
        Some(field) => field,
        None => &[],
    }
}

fn hosts(alloc: Global, texts: &[&[u8]]) -> Result<Vec<Bytes>, AllocError>
    ensures { IfOk result (λ hosts. hosts.items ≡ map (λ text. text.now) texts.now) }
{
    let mut hosts = Vec::with_capacity(alloc, texts.len())?;
    for text in texts {
        hosts.push(Bytes::copy_from_slice(alloc, text)?)?;
    }
    Ok(hosts)
}
