//! What calls that make objects ask for (RFC 1813, 3.3.8 to 3.3.11).

ghost use Rattle.std.specs.Prelude.{◌≡◌, []};
ghost use Rattle.nfs_machine.specs.MakeSteps.{wanted_of, wanted_special};
ghost use Rattle.nfs_machine.specs.NameSteps.{wanted_file};
ghost use Rattle.nfs_machine.specs.State.{Directory, Link, octal};
ghost use Rattle.nfs_inodes.specs.Asked.{asked_as, content_asked, mode_asked, wanted_as};

use crate::new_objects::{NewContent, Wanted};
use nfs_wire::{CreateHow, NfsStatus, SetAttributes, SetTime, Special};

/// No attribute is given.
const NOTHING_GIVEN: SetAttributes = SetAttributes {
    mode: None,
    uid: None,
    gid: None,
    size: None,
    accessed: SetTime::Leave,
    modified: SetTime::Leave,
};

/// What CREATE asks for.
pub fn file_wanted(how: &CreateHow) -> Wanted<'static>
    ensures { wanted_as result ≡ wanted_file how.now }
{
    match how {
        CreateHow::Unchecked(given) | CreateHow::Guarded(given) => Wanted {
            content: NewContent::Regular(given.size.unwrap_or(0)),
            attributes: *given,
            verifier: None,
        },
        CreateHow::Exclusive(verifier) => Wanted {
            content: NewContent::Regular(0),
            attributes: NOTHING_GIVEN,
            verifier: Some(*verifier),
        },
    }
}

/// What MKDIR asks for.
pub fn directory_wanted(given: &SetAttributes) -> Wanted<'static>
    ensures { wanted_as result ≡ wanted_of (octal 7 5 5) (Directory [] 2) given.now }
{
    sizeless(NewContent::Directory, given)
}

/// What SYMLINK asks for.
pub fn link_wanted<'a>(given: &SetAttributes, text: &'a [u8]) -> Wanted<'a>
    ensures { wanted_as result ≡ wanted_of (octal 7 7 7) (Link text.now) given.now }
{
    sizeless(NewContent::Link(text), given)
}

/// What MKNOD asks for.
///
/// # Errors
///
/// `BadType` for a type that it does not make.
pub fn special_wanted(what: &Special) -> Result<Wanted<'static>, NfsStatus>
    ensures { asked_as result ≡ wanted_special what.now }
{
    match what {
        Special::BlockDevice(given, device) => Ok(sizeless(
            NewContent::BlockDevice(*device),
            given,
        )),
        Special::CharacterDevice(given, device) => {
            Ok(sizeless(NewContent::CharacterDevice(*device), given))
        }
        Special::Socket(given) => Ok(sizeless(NewContent::Socket, given)),
        Special::Fifo(given) => Ok(sizeless(NewContent::Fifo, given)),
        Special::Other(_) => Err(NfsStatus::BadType),
    }
}

/// An object that has no size of its own; one that is given is ignored.
fn sizeless<'a>(content: NewContent<'a>, given: &SetAttributes) -> Wanted<'a>
    ensures { wanted_as result ≡ wanted_of (mode_asked content.entry) (content_asked content.entry) given.now }
{
    Wanted {
        content,
        attributes: SetAttributes {
            size: None,
            ..*given
        },
        verifier: None,
    }
}
