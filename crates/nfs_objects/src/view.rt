//! What a call has read of the store.

ghost use Rattle.std.specs.Prelude.{◌≡◌, [], ◌∷◌, ◌++◌, IfOk, IfSome, MatchResult, None, OnErr};
ghost use Rattle.std.specs.Prelude.{OnOk, Some};
ghost use Rattle.std.specs.Prelude.{option_map};
ghost use Rattle.std.specs.Prelude.{slice_get, length, ◌==◌};
ghost use Rattle.std.specs.Arc.{arc_value};
ghost use Rattle.nfs_objects.specs.Fits.{HoldsReserved, NumbersApart, vacant};
ghost use Rattle.nfs_objects.specs.Values.{pointed, seen_at, seen_of, shown_at};

mod entries;

use crate::address::Addr;
use crate::modes::Mode;
use crate::object::Object;
use entries::ViewEntries;
use std::alloc::{AllocError, AllocFailed, Global};
use std::marker::Model;
use std::sync::Arc;

/// What is known of one address: how it is held, and the object, or that there is none.
#[derive(Drop)]
pub struct Entry {
    pub mode: Mode,
    pub object: Option<Arc<Object>>,
}

impl PartialEq for Entry {
    ghost use Rattle.std.specs.Bool.{Decides};
    ghost use Rattle.std.specs.Cmp.{partial_equiv_from_equiv};
    ghost use Rattle.nfs_objects.specs.Same.{same_held};
    ghost use Rattle.nfs_objects.specs.SameLaws.{held_equivalence};

    ghost eq = { same_held };

    ghost laws = { partial_equiv_from_equiv held_equivalence };

    fn eq(&self, other: &Entry) -> bool
        ensures test { result ≡ same_held self.now other.now }
        ensures same { Decides result ((self.now.mode ≡ other.now.mode) ×
            (option_map arc_value self.now.object ≡ option_map arc_value other.now.object)) }
    {
        self.mode == other.mode && self.object == other.object
    }
}

impl Eq for Entry {
    ghost use Rattle.nfs_objects.specs.SameLaws.{held_equivalence};

    ghost laws = { held_equivalence };
}

/// A number that a new object may take, with its generation.
#[derive(Clone, Copy, Debug, PartialEq, Eq)]
pub struct Reserved {
    pub number: u64,
    pub generation: u64,
}

/// All that a call has read of the store, each address once and in order of adding, and the numbers that it may give to
/// new objects. The address of such a number stands in it, held alone and empty.
#[derive(Drop)]
pub struct View {
    entries: ViewEntries,
    reserved: Vec<Reserved>,
}

impl Model for View {
    ghost use Rattle.nfs_objects.specs.Fits.{IsView};
    ghost use Rattle.nfs_objects.specs.Values.{ViewValue};

    ghost Value = { ViewValue };

    ghost view = { λ v. record { entries = v.entries.seen; reserved = v.reserved.items } };

    ghost invariant = { λ v. IsView
        (record { entries = v.entries.seen; reserved = v.reserved.items }) };
}

impl PartialEq for View {
    ghost use Rattle.std.specs.Bool.{Decides};
    ghost use Rattle.std.specs.Cmp.{decided, partial_equiv_from_equiv};
    ghost use Rattle.nfs_objects.specs.Same.{same_view};
    ghost use Rattle.nfs_objects.specs.SameLaws.{view_decides};

    ghost eq = { same_view };

    ghost laws = { partial_equiv_from_equiv (decided same_view view_decides) };

    fn eq(&self, other: &View) -> bool
        ensures test { result ≡ same_view self.now other.now }
        ensures same { Decides result (self.now ≡ other.now) }
    {
        self.reserved == other.reserved && self.entries.equals(&other.entries)
    }
}

impl Eq for View {
    ghost use Rattle.std.specs.Cmp.{decided};
    ghost use Rattle.nfs_objects.specs.Same.{same_view};
    ghost use Rattle.nfs_objects.specs.SameLaws.{view_decides};

    ghost laws = { decided same_view view_decides };
}

impl View {
    /// A view that has read nothing.
    pub fn new(alloc: Global) -> View
        ensures { result ≡ record { entries = []; reserved = [] } }
    {
        View {
            entries: ViewEntries::new(alloc),
            reserved: Vec::new(alloc),
        }
    }

    /// How many entries it has: what was read, and the addresses of the numbers that may be given.
    pub fn len(&self) -> usize
        ensures { result ≡ length self.now.entries }
    {
        self.entries.len()
    }

    /// Whether nothing was read.
    pub fn is_empty(&self) -> bool
        ensures { result ≡ (length self.now.entries == 0) }
    {
        self.len() == 0
    }

    /// What is known of an address, in whatever mode it is held: the object there, or that there is none. None where it
    /// was not read.
    pub fn find(&self, address: Addr) -> Option<&Option<Arc<Object>>>
        ensures { option_map pointed result ≡ shown_at self.now.entries address }
    {
        Some(&self.entries.get(address)?.object)
    }

    /// The entry at a place, in order of adding.
    pub fn entry(&self, index: usize) -> Option<(Addr, &Entry)>
        ensures { option_map (λ e. seen_of (e.0, e.1.now)) result ≡ slice_get self.now.entries index }
    {
        self.entries.at(index)
    }

    /// The first number that may be given.
    pub fn fresh(&self) -> Option<Reserved>
        ensures first { result ≡ slice_get self.now.reserved 0 }
        ensures kept { IfSome result (λ r. seen_at self.now.entries (Addr.Inode r.number) ≡ Some (vacant r)) }
    {
        self.reserved.first().copied()
    }

    /// The numbers that may be given, in order of adding.
    pub fn reserved(&self) -> &[Reserved]
        ensures reserved { result.now ≡ self.now.reserved }
        ensures kept { HoldsReserved self.now }
        ensures apart { NumbersApart self.now.reserved }
    {
        &self.reserved
    }

    /// Adds what is known of an address.
    ///
    /// # Errors
    ///
    /// There is no memory for it. Nothing is changed.
    pub fn add(
        &mut self,
        address: Addr,
        mode: Mode,
        object: Option<Arc<Object>>,
    ) -> Result<(), AllocError>
        requires { seen_at self.old.entries address ≡ None }
        ensures ok { OnOk result
            (self.new ≡ record {
              entries = self.old.entries ++ record
                  { address = address; mode = mode; object = option_map arc_value object } ∷ [];
              reserved = self.old.reserved;
            }) }
        ensures err { OnErr result (self.new ≡ self.old) }
    {
        self.entries.reserve(1)?;
        self.entries.push(address, Entry { mode, object });
        Ok(())
    }

    /// Adds a number that may be given, whose address is empty.
    ///
    /// # Errors
    ///
    /// There is no memory for it. Nothing is changed.
    pub fn add_reserved(&mut self, reserved: Reserved) -> Result<(), AllocError>
        requires { seen_at self.old.entries (Addr.Inode reserved.number) ≡ None }
        ensures ok { OnOk result
            (self.new ≡ record {
              entries = self.old.entries ++ vacant reserved ∷ [];
              reserved = self.old.reserved ++ reserved ∷ [];
            }) }
        ensures err { OnErr result (self.new ≡ self.old) }
    {
        self.entries.reserve(1)?;
        self.reserved.reserve(1)?;
        let entry = Entry {
            mode: Mode::Exclusive,
            object: None,
        };
        self.entries.push(Addr::Inode(reserved.number), entry);
        self.reserved.push_reserved(reserved);
        Ok(())
    }

    /// The same view with room for so many more entries.
    ///
    /// # Errors
    ///
    /// The view as it was, where the memory was refused.
    pub fn make_room(mut self, count: usize) -> Result<RoomyView, AllocFailed<View>>
        ensures { MatchResult result
            (λ roomy. roomy ≡ record { view = self; room = count; numbers = 0 })
            (λ refused. refused.value ≡ self) }
    {
        let Ok(()) = self.entries.reserve(count) else {
            return Err(AllocFailed { value: self });
        };
        Ok(RoomyView {
            entries: self.entries,
            reserved: self.reserved,
            room: count,
            numbers: 0,
        })
    }

    /// The same view with room for so many more numbers that may be given, and their entries.
    ///
    /// # Errors
    ///
    /// The view as it was, where the memory was refused.
    pub fn make_room_for_numbers(mut self, count: usize) -> Result<RoomyView, AllocFailed<View>>
        ensures { MatchResult result
            (λ roomy. roomy ≡ record { view = self; room = count; numbers = count })
            (λ refused. refused.value ≡ self) }
    {
        let Ok(()) = self.entries.reserve(count) else {
            return Err(AllocFailed { value: self });
        };
        let Ok(()) = self.reserved.reserve(count) else {
            return Err(AllocFailed { value: self });
        };
        Ok(RoomyView {
            entries: self.entries,
            reserved: self.reserved,
            room: count,
            numbers: count,
        })
    }
}

/// A view with room: it takes so many more entries, and so many numbers, with no memory.
#[derive(Drop)]
pub struct RoomyView {
    entries: ViewEntries,
    reserved: Vec<Reserved>,
    room: usize,
    numbers: usize,
}

impl Model for RoomyView {
    ghost use Rattle.std.specs.Prelude.{◌-◌, length, vec_capacity};
    ghost use Rattle.nfs_objects.specs.Rooms.{HasRoom, RoomyValue};

    ghost Value = { RoomyValue };

    ghost view = { λ v. record {
      view = record { entries = v.entries.seen; reserved = v.reserved.items };
      room = v.room;
      numbers = v.numbers;
    } };

    ghost invariant = { λ v. HasRoom (record {
      view = record { entries = v.entries.seen; reserved = v.reserved.items };
      room = v.room;
      numbers = v.numbers;
    }) v.entries.room (vec_capacity v.reserved - length v.reserved.items) };
}

impl RoomyView {
    ghost use Rattle.std.specs.Prelude.{◌-◌, ◌<◌};
    ghost use Rattle.nfs_objects.specs.Rooms.{with_seen, with_number};

    /// Adds what is known of an address. It cannot fail.
    pub fn put(&mut self, address: Addr, mode: Mode, object: Option<Arc<Object>>)
        requires room { 0 < self.old.room }
        requires unseen { seen_at self.old.view.entries address ≡ None }
        ensures { self.new ≡ record {
          view = with_seen self.old.view (record
              { address = address; mode = mode; object = option_map arc_value object });
          room = self.old.room - 1;
          numbers = self.old.numbers;
        } }
    {
        let entry = Entry { mode, object };
        self.room -= 1;
        self.entries.push(address, entry);
    }

    /// Adds a number that may be given, whose address is empty. It cannot fail.
    pub fn put_reserved(&mut self, reserved: Reserved)
        requires room { 0 < self.old.room }
        requires numbers { 0 < self.old.numbers }
        requires unseen { seen_at self.old.view.entries (Addr.Inode reserved.number) ≡ None }
        ensures { self.new ≡ record {
          view = with_number self.old.view reserved;
          room = self.old.room - 1;
          numbers = self.old.numbers - 1;
        } }
    {
        let vacant = Entry {
            mode: Mode::Exclusive,
            object: None,
        };
        self.room -= 1;
        self.numbers -= 1;
        self.entries.push(Addr::Inode(reserved.number), vacant);
        self.reserved.push_reserved(reserved);
    }

    /// The view; the room that is left is kept with it, but no longer known.
    pub fn into_view(self) -> View
        ensures { result ≡ self.view }
    {
        View {
            entries: self.entries,
            reserved: self.reserved,
        }
    }
}

/// One more owner of an object.
///
/// # Errors
///
/// There is no memory for one more owner.
pub fn share(object: &Option<Arc<Object>>) -> Result<Option<Arc<Object>>, AllocError>
    ensures { IfOk result (λ o. option_map arc_value o ≡ option_map arc_value object.now) }
{
    match object {
        Some(object) => Ok(Some(Arc::try_clone(object)?)),
        None => Ok(None),
    }
}
