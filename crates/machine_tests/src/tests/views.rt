//! Modes, and views: what was read, numbers to give, and growth that is refused.

ghost use Rattle.std.specs.Prelude.{◌≡◌, []};

use super::inodes::place;
use super::*;
use nfs_objects::modes::covers;
use nfs_objects::object::{living, mount_table};
use nfs_objects::{Modes, RoomyView};
use nfs_wire::{DirOp, RenameArguments};

/// The first row that is not so: what is held alone may be used in each mode, and else as it is held.
fn first_wrong_cover() -> Option<usize> {
    let rows = [
        (Mode::Shared, Mode::Shared, true),
        (Mode::Shared, Mode::Exclusive, false),
        (Mode::Exclusive, Mode::Shared, true),
        (Mode::Exclusive, Mode::Exclusive, true),
    ];
    for (row, (held, wanted, want)) in rows.iter().enumerate() {
        if covers(*held, *wanted) != *want {
            return Some(row);
        }
    }
    None
}

/// A name in directory 9.
fn in_directory(name: &'static [u8]) -> DirOp {
    DirOp {
        directory: Bytes::from_static(HANDLE),
        name: Bytes::from_static(name),
    }
}

/// How RENAME of `a` to `b` in directory 9 holds an inode.
fn held(view: &View, number: u64) -> Mode {
    let arguments = RenameArguments {
        from: in_directory(b"a"),
        to: in_directory(b"b"),
    };
    let mode = Modes::renaming(&arguments).at(view, Addr::Inode(number));
    drop(arguments);
    mode
}

/// The first of these numbers that it holds in another mode, with a view that is dropped.
fn first_held_else(view: View, list: &[(u64, Mode)]) -> Option<u64> {
    let first = first_held_else_in(&view, list);
    drop(view);
    first
}

fn first_held_else_in(view: &View, list: &[(u64, Mode)]) -> Option<u64> {
    for (number, mode) in list {
        if held(view, *number) != *mode {
            return Some(*number);
        }
    }
    None
}

/// RENAME shares what lies at neither name.
#[test]
fn objects_are_held_as_they_are_used(rt: HostRuntime) -> Result<(), AllocError> {
    assert_eq!(rt; first_wrong_cover(), None);
    let held = [
        (9, Mode::Exclusive),
        (7, Mode::Exclusive),
        (5, Mode::Shared),
    ];
    assert_eq!(rt; first_held_else(place(rt.alloc(), 3)?, &held), None);
    assert_eq!(rt;
        first_held_else(View::new(rt.alloc()), &[(5, Mode::Exclusive)]),
        None
    );
    Ok(())
}

/// Whether a fifo of user 5 stands there.
fn is_fifo(known: &Option<Arc<Object>>) -> bool {
    match living(known) {
        Some(inode) => inode.uid == 5 && mount_table(known).is_none(),
        None => false,
    }
}

/// Whether it shows fifo 9 and one more object, which is no table of mounts.
fn shows_fifo(view: &View) -> bool {
    match view.find(Addr::Inode(9)) {
        Some(known) => is_fifo(known) && view.len() == 2 && view.find(Addr::Mounts).is_none(),
        None => false,
    }
}

/// The same of a view that is dropped.
fn showed_fifo(view: View) -> bool {
    let shows_fifo = shows_fifo(&view);
    drop(view);
    shows_fifo
}

/// The view with room for more, or as it was.
fn roomier(view: View) -> View {
    match view.make_room(16) {
        Ok(roomy) => roomy.into_view(),
        Err(refused) => refused.value,
    }
}

/// Whether it is known that nothing stands there.
fn is_vacant(view: &View, address: Addr) -> bool {
    match view.find(address) {
        Some(known) => known.is_none(),
        None => false,
    }
}

/// Adds that there are no mounts, and a number to give, and tells whether this is known then.
fn grow(view: &mut View) -> Result<bool, AllocError>
    requires { view.old.entries ≡ [] }
{
    let was_new = view.is_empty() && view.fresh().is_none();
    view.add(Addr::Mounts, Mode::Shared, None)?;
    view.add_reserved(RESERVED)?;
    Ok(
        was_new
            && is_vacant(view, Addr::Mounts)
            && is_vacant(view, Addr::Inode(2))
            && view.fresh() == Some(RESERVED),
    )
}

fn grows(alloc: Global) -> Result<bool, AllocError> {
    let mut view = View::new(alloc);
    let grows = grow(&mut view);
    drop(view);
    grows
}

/// Adds the same, and tells whether the view shows what was taken alone.
fn grow_if_taken(view: &mut View) -> bool
    requires { view.old.entries ≡ [] }
{
    let read = view.add(Addr::Mounts, Mode::Shared, None).is_ok();
    let shows_read = view.find(Addr::Mounts).is_some() == read;
    let given = view.add_reserved(RESERVED).is_ok();
    shows_read
        && view.fresh().is_some() == given
        && view.find(Addr::Inode(2)).is_some() == given
        && view.find(Addr::Mounts).is_some() == read
}

fn shows_what_it_took(alloc: Global) -> bool {
    let mut view = View::new(alloc);
    let shows = grow_if_taken(&mut view);
    drop(view);
    shows
}

/// What is refused for want of memory leaves the view as it was, whichever allocation it is.
#[test]
fn a_refused_growth_changes_nothing(rt: HostRuntime) {
    assert!(rt; shows_what_it_took(rt.alloc()));
}

/// A view that took an address and a number, for which it had room.
fn taken(mut roomy: RoomyView) -> View
    requires { roomy ≡ record { view = record { entries = []; reserved = [] }; room = 2; numbers = 2 } }
{
    roomy.put(Addr::Mounts, Mode::Shared, None);
    roomy.put_reserved(RESERVED);
    roomy.into_view()
}

/// Such a view, unless its room is refused.
fn taken_view(alloc: Global) -> Result<View, AllocError> {
    match View::new(alloc).make_room_for_numbers(2) {
        Ok(roomy) => Ok(taken(roomy)),
        Err(refused) => {
            drop(refused);
            Err(AllocError)
        }
    }
}

/// Whether this address stands at this place, and is held so.
fn is_at(view: &View, index: usize, address: Addr, mode: Mode) -> bool {
    match view.entry(index) {
        Some((found, entry)) => found == address && entry.mode == mode,
        None => false,
    }
}

/// Whether it has the address, and the number behind it, and no more.
fn has_both(view: View) -> bool {
    let has_both = is_at(&view, 0, Addr::Mounts, Mode::Shared)
        && is_at(&view, 1, Addr::Inode(2), Mode::Exclusive)
        && view.entry(2).is_none()
        && view.reserved() == [RESERVED].as_slice();
    drop(view);
    has_both
}

/// Adds inodes 1 to 20, or tells that one of them was there.
fn grow_by_20(view: &mut View) -> Result<bool, AllocError> {
    for number in 1..=20 {
        let address = Addr::Inode(number);
        if view.find(address).is_some() {
            return Ok(false);
        }
        view.add(address, Mode::Shared, None)?;
    }
    Ok(true)
}

/// Whether inodes 1 to 20 stand in it in this order, and are found, and no other.
fn finds_20(view: &View) -> bool {
    for number in 1..=20 {
        let address = Addr::Inode(number);
        if !is_at(view, number as usize - 1, address, Mode::Shared)
            || view.find(address).is_none()
        {
            return false;
        }
    }
    view.len() == 20 && view.find(Addr::Inode(21)).is_none() && view.entry(20).is_none()
}

fn finds_each(alloc: Global) -> Result<bool, AllocError> {
    let mut view = View::new(alloc);
    let are_new = grow_by_20(&mut view);
    let finds_each = finds_20(&view);
    drop(view);
    Ok(are_new? && finds_each)
}

/// Whether a view shows what was read, also with more room. Where the room is refused it is handed back as it was.
fn shows_what_was_read(alloc: Global) -> Result<bool, AllocError> {
    let shown = showed_fifo(viewed(alloc, fifo(0o600), Beside::Nothing)?);
    Ok(shown && showed_fifo(roomier(viewed(alloc, fifo(0o600), Beside::Nothing)?)))
}

/// Room for two numbers takes an address and a number with no memory. Beyond what is searched one by one each entry is
/// still found, and stands where it was added.
fn shows_what_was_added(alloc: Global) -> Result<bool, AllocError> {
    Ok(grows(alloc)? && has_both(taken_view(alloc)?) && finds_each(alloc)?)
}

#[test]
fn a_view_shows_what_was_added(rt: HostRuntime) -> Result<(), AllocError> {
    assert!(rt; shows_what_was_read(rt.alloc())?);
    assert!(rt; shows_what_was_added(rt.alloc())?);
    Ok(())
}
