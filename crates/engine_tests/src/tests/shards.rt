//! Shards: who holds an address beside whom, and which numbers are given.

use nfs_engine::{Had, ReserveError, Shard};
use nfs_objects::{Addr, Mode, Reserved};
use nfs_tables::Placing;
use std::alloc::{AllocError, Global};
use std::test::Fail;

/// An address of shard 3, where nothing stands.
const PLACE: Addr = Addr::Inode(19);

/// So many addresses that a shard takes a larger map for them, and has most of them still in the one before.
const MANY: u64 = 10_000;

/// How addresses are placed in these shards.
fn placing() -> Placing {
    Placing::new(&[7; 16])
}

/// The address of a block of a file of shard 3.
fn block(index: u64) -> Addr {
    Addr::Block { file: 19, index }
}

/// Whether a holder gets each of many addresses.
fn gets_all(alloc: Global, shard: &mut Shard, id: u64) -> Result<bool, AllocError> {
    for index in 0..MANY {
        let had = shard.acquire(alloc, block(index), Mode::Exclusive, id)?;
        if excluder(&had).is_some() {
            return Ok(false);
        }
    }
    Ok(true)
}

/// Lets every second address go, from the first on.
fn let_half_go(shard: &mut Shard, id: u64) {
    for index in 0..MANY {
        if index % 2 == 0 {
            shard.release(block(index), id);
        }
    }
}

/// Whether a holder holds every second address, from the second on, and no other.
fn holds_half(shard: &Shard, id: u64) -> bool {
    for index in 0..MANY {
        if shard.holds(block(index), id) != (index % 2 == 1) {
            return false;
        }
    }
    true
}

/// A holder asks for an address: who excludes it, if anybody, and how many addresses are held then.
#[derive(Clone, Copy)]
struct Row {
    address: Addr,
    mode: Mode,
    id: u64,
    excluder: Option<u64>,
    locked: usize,
}

/// A holder asks for the one place.
fn asks(mode: Mode, id: u64, excluder: Option<u64>) -> Row {
    Row {
        address: PLACE,
        mode,
        id,
        excluder,
        locked: 1,
    }
}

/// Who holds the address in a mode that excludes.
fn excluder(had: &Had) -> Option<u64> {
    match had {
        Had::Yes(_) => None,
        Had::Taken(holder) => Some(*holder),
    }
}

/// Whether the row's holder is answered so, if need be at a second try. A refused try changes nothing.
fn is_answered(alloc: Global, shard: &mut Shard, row: Row) -> Result<bool, AllocError> {
    let before = shard.locked();
    let had = match shard.acquire(alloc, row.address, row.mode, row.id) {
        Ok(had) => had,
        Err(AllocError) => {
            if shard.locked() != before {
                return Ok(false);
            }
            shard.acquire(alloc, row.address, row.mode, row.id)?
        }
    };
    Ok(excluder(&had) == row.excluder && shard.locked() == row.locked)
}

/// Whether each row's holder is answered so, one after the other.
fn are_answered(alloc: Global, shard: &mut Shard, rows: &[Row]) -> Result<bool, AllocError> {
    for row in rows {
        if !is_answered(alloc, shard, *row)? {
            return Ok(false);
        }
    }
    Ok(true)
}

/// A number for a holder, if need be at a second try. A refused try holds nothing.
fn reserved(shard: &mut Shard, id: u64) -> Result<Reserved, ReserveError> {
    let before = shard.locked();
    match shard.reserve(id) {
        Ok(reserved) => Ok(reserved),
        Err(error) => {
            if shard.locked() != before {
                return Err(error);
            }
            shard.reserve(id)
        }
    }
}

#[test]
fn shared_stands_beside_shared(rt: HostRuntime) -> Result<(), Fail> {
    let mut shard = Shard::new(rt.alloc(), placing(), 3);
    let rows = [
        asks(Mode::Shared, 1, None),
        asks(Mode::Shared, 2, None),
        asks(Mode::Exclusive, 3, Some(1)),
    ];
    assert!(rt; are_answered(rt.alloc(), &mut shard, &rows)?);
    shard.release(PLACE, 1);
    assert!(rt; is_answered(rt.alloc(), &mut shard, asks(Mode::Exclusive, 3, Some(2)))?);
    shard.release(PLACE, 2);
    assert!(rt; is_answered(rt.alloc(), &mut shard, asks(Mode::Exclusive, 3, None))?);
    Ok(())
}

#[test]
fn exclusive_stands_alone(rt: HostRuntime) -> Result<(), Fail> {
    let mut shard = Shard::new(rt.alloc(), placing(), 3);
    let rows = [
        asks(Mode::Exclusive, 1, None),
        asks(Mode::Shared, 2, Some(1)),
        asks(Mode::Exclusive, 3, Some(1)),
    ];
    assert!(rt; are_answered(rt.alloc(), &mut shard, &rows)?);
    shard.release(PLACE, 1);
    assert!(rt; is_answered(rt.alloc(), &mut shard, asks(Mode::Shared, 2, None))?);
    Ok(())
}

/// While a shard's addresses move to a larger map, each is held and let go as ever.
#[test]
fn many_addresses_are_held(rt: HostRuntime) -> Result<(), Fail> {
    let mut shard = Shard::new(rt.alloc(), placing(), 3);
    assert!(rt; gets_all(rt.alloc(), &mut shard, 1)?);
    assert_eq!(rt; shard.locked(), 10_000);
    let_half_go(&mut shard, 1);
    assert_eq!(rt; shard.locked(), 5_000);
    assert!(rt; holds_half(&shard, 1));
    Ok(())
}

/// One that does not hold the address lets nothing go.
#[test]
fn another_cannot_let_go(rt: HostRuntime) -> Result<(), Fail> {
    let mut shard = Shard::new(rt.alloc(), placing(), 3);
    assert!(rt; is_answered(rt.alloc(), &mut shard, asks(Mode::Exclusive, 1, None))?);
    shard.release(PLACE, 2);
    shard.release(Addr::Inode(35), 1);
    assert!(rt; is_answered(rt.alloc(), &mut shard, asks(Mode::Shared, 2, Some(1)))?);
    Ok(())
}

/// Addresses where nothing stands, as handles of what was removed or of nothing ever name them.
#[test]
fn what_was_only_looked_at_leaves_nothing(rt: HostRuntime) -> Result<(), Fail> {
    let mut shard = Shard::new(rt.alloc(), placing(), 3);
    assert_eq!(rt; shard.locked(), 0);
    let far = Addr::Inode(u64::MAX - 12);
    for address in [Addr::Inode(3), PLACE, far] {
        let row = Row {
            address,
            mode: Mode::Shared,
            id: 1,
            excluder: None,
            locked: 1,
        };
        assert!(rt; is_answered(rt.alloc(), &mut shard, row)?);
        shard.release(address, 1);
        assert_eq!(rt; shard.locked(), 0);
    }
    Ok(())
}

#[test]
fn two_calls_get_two_numbers(rt: HostRuntime) -> Result<(), Fail> {
    let mut shard = Shard::new(rt.alloc(), placing(), 7);
    let first = reserved(&mut shard, 1)?;
    let second = reserved(&mut shard, 2)?;
    assert_eq!(rt; (first.number % 16, second.number % 16), (7, 7));
    assert!(rt; first.number != second.number);
    assert!(rt; 1 < first.generation && first.generation < second.generation);
    assert_eq!(rt; shard.locked(), 2);
    let row = Row {
        address: Addr::Inode(first.number),
        mode: Mode::Shared,
        id: 3,
        excluder: Some(1),
        locked: 2,
    };
    assert!(rt; is_answered(rt.alloc(), &mut shard, row)?);
    Ok(())
}

#[test]
fn a_call_gets_two_numbers(rt: HostRuntime) -> Result<(), Fail> {
    let mut shard = Shard::new(rt.alloc(), placing(), 15);
    let first = reserved(&mut shard, 1)?;
    let second = reserved(&mut shard, 1)?;
    assert_eq!(rt; (first.number % 16, second.number % 16), (15, 15));
    assert!(rt; first.number != second.number && first.generation < second.generation);
    assert_eq!(rt; shard.locked(), 2);
    Ok(())
}

/// A call that gives its number back takes its generation along.
#[test]
fn a_generation_is_given_once(rt: HostRuntime) -> Result<(), Fail> {
    let mut shard = Shard::new(rt.alloc(), placing(), 7);
    let first = reserved(&mut shard, 1)?;
    shard.release(Addr::Inode(first.number), 1);
    assert_eq!(rt; shard.locked(), 0);
    let second = reserved(&mut shard, 2)?;
    assert!(rt; first.generation < second.generation);
    Ok(())
}

/// The numbers of shard 3 below 80.
const LOW: [u64; 5] = [3, 19, 35, 51, 67];

#[test]
fn a_number_that_another_looks_at_is_not_given(rt: HostRuntime) -> Result<(), Fail> {
    let mut shard = Shard::new(rt.alloc(), placing(), 3);
    for (before, number) in LOW.iter().enumerate() {
        let row = Row {
            address: Addr::Inode(*number),
            mode: Mode::Shared,
            id: 9,
            excluder: None,
            locked: before + 1,
        };
        assert!(rt; is_answered(rt.alloc(), &mut shard, row)?);
    }
    let given = reserved(&mut shard, 1)?;
    assert_eq!(rt; given.number % 16, 3);
    assert!(rt; !LOW.contains(&given.number));
    assert_eq!(rt; shard.locked(), 6);
    for number in LOW {
        shard.release(Addr::Inode(number), 9);
    }
    assert_eq!(rt; shard.locked(), 1);
    Ok(())
}
