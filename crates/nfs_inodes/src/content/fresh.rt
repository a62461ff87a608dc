//! What new objects contain (RFC 1813, 3.3.8 to 3.3.11).

ghost use Rattle.std.specs.Prelude.{◌≡◌, IfOk, IfSome};
ghost use Rattle.nfs_objects.specs.Bits.{no_bits};
ghost use Rattle.nfs_objects.specs.Directories.{no_entries};
ghost use Rattle.nfs_objects.specs.Stands.{content_of, entry_map_in, map_in, parent_in};
ghost use Rattle.nfs_inodes.specs.Asked.{content_asked};
ghost use Rattle.nfs_inodes.specs.Makes.{first_parent};

use crate::new_objects::NewContent;
use bytes::Bytes;
use nfs_machine::NameKey;
use nfs_objects::{Bits, Content, FileMap};
use std::alloc::{AllocError, Global};

/// The content of a new object in a directory with this number. The names of a directory are placed by this key.
///
/// # Errors
///
/// `AllocError` where the memory for it was refused.
pub(crate) fn new_content(
    alloc: Global,
    content: &NewContent<'_>,
    parent: u64,
    key: NameKey,
) -> Result<Content, AllocError>
    ensures content { IfOk result (λ made. content_of made ≡ content_asked content.now) }
    ensures parent { IfOk result (λ made. parent_in made ≡ first_parent parent (content_asked content.now)) }
    ensures bare { IfOk result (λ made. IfSome (entry_map_in made) (λ map. map ≡ no_entries key)) }
    ensures blank { IfOk result (λ made. IfSome (map_in made) (λ map. map.pages ≡ no_bits)) }
{
    Ok(match content {
        NewContent::Regular(size) => Content::Regular(FileMap::new(*size, Bits::none())?),
        NewContent::Directory => {
            Content::Directory(nfs_objects::Directory::empty(alloc, parent, key)?)
        }
        NewContent::Link(text) => Content::Link(Bytes::copy_from_slice(alloc, text)?),
        NewContent::BlockDevice(device) => Content::BlockDevice(*device),
        NewContent::CharacterDevice(device) => Content::CharacterDevice(*device),
        NewContent::Socket => Content::Socket,
        NewContent::Fifo => Content::Fifo,
    })
}
