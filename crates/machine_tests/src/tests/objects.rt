//! Objects of each kind, copies of inodes, and entries in their order.

use super::*;
use nfs_objects::object::{export_list, living, mount_table};
use nfs_objects::{MountTable, share};
use nfs_wire::Verifier;

/// The user of the inode that stands there, how many exports, and whether the table of mounts is empty.
fn told(known: &Option<Arc<Object>>) -> (Option<u32>, usize, Option<bool>) {
    let user = match living(known) {
        Some(inode) => Some(inode.uid),
        None => None,
    };
    let is_empty = match mount_table(known) {
        Some(mounts) => Some(mounts.is_empty()),
        None => None,
    };
    (user, export_list(known).len(), is_empty)
}

/// What is told of an object by a second owner.
fn told_shared(
    alloc: Global,
    object: Object,
) -> Result<(Option<u32>, usize, Option<bool>), AllocError> {
    let first = Some(Arc::new(alloc, object)?);
    let second = share(&first);
    drop(first);
    let second = second?;
    let told = told(&second);
    drop(second);
    Ok(told)
}

/// What is told of a table of mounts, of an inode and of a table of exports.
fn kinds_are_told(alloc: Global) -> Result<bool, AllocError> {
    let mounts = told_shared(alloc, Object::Mounts(MountTable::new(alloc)))?;
    let inode = told_shared(alloc, Object::Inode(fifo(0o600)))?;
    let exports = told_shared(alloc, Object::Exports(table(alloc, &[WRITABLE])?))?;
    Ok(mounts == (None, 0, Some(true)) && inode == (Some(5), 0, None) && exports == (None, 1, None))
}

const VERIFIER: Verifier = Verifier { bytes: [1; 8] };

/// A fifo that an exclusive CREATE made.
fn marked() -> Inode {
    let mut marked = fifo(0o600);
    marked.verifier = Some(VERIFIER);
    marked
}

fn is_marked(inode: Inode) -> bool {
    let is_owned = (inode.generation, inode.uid, inode.gid) == (3, 5, 6);
    let is_marked = inode.verifier == Some(VERIFIER);
    drop(inode);
    is_owned && is_marked
}

/// Whether it is this text of a link.
fn is_text(content: Content, want: &[u8]) -> bool {
    let is_text = match &content {
        Content::Link(text) => text.as_slice() == want,
        _ => false,
    };
    drop(content);
    is_text
}

/// Whether a directory below directory 1 has one name, of cookie 3, and used the cookie 4 last.
fn has_a(directory: Directory) -> bool {
    let listed = directory.entries.pages.has(0) && directory.entries.pages.next_behind(0).is_none();
    let counted = directory.entries.counts.count(33) == 1;
    let has_a = listed && counted && (directory.parent, directory.last_cookie) == (1, 4);
    drop(directory);
    has_a
}

/// What a name leads to, with its cookie.
#[derive(Clone, Copy)]
struct Named {
    name: &'static [u8],
    leaf: Leaf,
}

const A: Named = Named {
    name: b"a",
    leaf: Leaf {
        number: 7,
        cookie: 3,
    },
};

const B: Named = Named {
    name: b"b",
    leaf: Leaf {
        number: 8,
        cookie: 4,
    },
};

/// The entries with one more, unless the name is there.
fn wider(entries: &Entries, named: Named) -> Result<Entries, AllocError> {
    if entries.find(named.name).is_some() {
        return Err(AllocError);
    }
    let name = Bytes::from_static(named.name);
    let wider = entries.with_entry(&name, named.leaf);
    drop(name);
    wider
}

/// The same of entries that are dropped.
fn with_named(entries: Entries, named: Named) -> Result<Entries, AllocError> {
    let wider = wider(&entries, named);
    drop(entries);
    wider
}

/// `a` leads to 7 and `b` to 8, with the cookies 3 and 4.
fn two(alloc: Global) -> Result<Entries, AllocError> {
    with_named(with_named(Entries::new(alloc), A)?, B)
}

/// The same without `a`.
fn without_a(alloc: Global) -> Result<Entries, AllocError> {
    let two = two(alloc)?;
    let left = two.without_name(A.name);
    drop(two);
    left
}

/// Whether these are all names, and each is found.
fn stand_so(entries: &Entries, list: &[Named]) -> bool {
    for named in list {
        if entries.find(named.name) != Some(named.leaf) {
            return false;
        }
    }
    entries.len() == list.len()
}

/// The same, and that this name is not found.
fn are(entries: Entries, list: &[Named], lacked: &[u8]) -> bool {
    let are = stand_so(&entries, list) && entries.find(lacked).is_none();
    drop(entries);
    are
}

/// Whether an inode, a text and a directory are copied.
fn are_copied(alloc: Global) -> Result<bool, AllocError> {
    let text = Content::Link(Bytes::from_static(b"../data"));
    Ok(
        is_text(copied(text)?, b"../data")
            && is_marked(copied(marked())?)
            && has_a(copied(with_a(alloc, 4)?)?),
    )
}

#[test]
fn a_copy_is_the_same(rt: HostRuntime) -> Result<(), AllocError> {
    assert!(rt; are_copied(rt.alloc())?);
    Ok(())
}

/// What follows a name that goes keeps its cookie.
#[test]
fn names_come_and_go(rt: HostRuntime) -> Result<(), AllocError> {
    assert!(rt; are(two(rt.alloc())?, &[A, B], b"ab"));
    assert!(rt; are(without_a(rt.alloc())?, &[B], b"a"));
    Ok(())
}

/// Whether an inode has no names, where it is a directory.
fn is_empty(inode: Inode) -> Option<bool> {
    let is_empty = match inode.directory() {
        Some(directory) => Some(directory.entries.is_none()),
        None => None,
    };
    drop(inode);
    is_empty
}

/// A directory alone has names.
#[test]
fn an_object_is_of_one_kind(rt: HostRuntime) -> Result<(), AllocError> {
    assert!(rt; kinds_are_told(rt.alloc())?);
    let place = bare(rt.alloc())?;
    assert!(rt; is_empty(inode(Content::Directory(place), 0o700)) == Some(true));
    assert!(rt; is_empty(fifo(0o700)).is_none());
    Ok(())
}
