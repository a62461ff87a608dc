//! Tables of locks.

use super::*;

/// What is asked of a table.
#[derive(Clone, Copy)]
enum Change {
    Exclusive,
    Shared,
    Clear,
    Free,
}

/// A change of a table by a caller.
#[derive(Clone, Copy)]
struct Step {
    who: Who,
    change: Change,
    offset: u64,
    length: u64,
}

const fn does(who: Who, change: Change, offset: u64, length: u64) -> Step {
    Step {
        who,
        change,
        offset,
        length,
    }
}

/// The table with the range in this mode.
fn set(
    alloc: Global,
    table: &LockTable,
    range: &LockRange<'_>,
    exclusive: bool,
) -> Result<LockTable, AllocError> {
    match table.test(range, exclusive) {
        Some(_) => Err(AllocError),
        None => table.set(alloc, range, exclusive),
    }
}

/// The table after a change by the lock's owner.
fn changed_by(
    alloc: Global,
    table: &LockTable,
    lock: &NlmLock,
    change: Change,
) -> Result<LockTable, AllocError> {
    let Some(range) = LockRange::of(lock) else {
        return Err(AllocError);
    };
    match change {
        Change::Exclusive => set(alloc, table, &range, true),
        Change::Shared => set(alloc, table, &range, false),
        Change::Clear => table.clear(alloc, &range),
        Change::Free => table.free(alloc, lock.caller_name.as_slice()),
    }
}

fn changed(alloc: Global, table: &LockTable, step: Step) -> Result<LockTable, AllocError> {
    let asked = lock(step.who, step.offset, step.length);
    let changed = changed_by(alloc, table, &asked, step.change);
    drop(asked);
    changed
}

/// The table after these changes of one without locks; what conflicts ends them.
fn after(alloc: Global, steps: &[Step]) -> Result<LockTable, AllocError> {
    let mut table = LockTable::new(alloc);
    for step in steps {
        let next = changed(alloc, &table, *step)?;
        table = next;
    }
    Ok(table)
}

/// A test of one offset by a caller: what is shown of A, a range that has the offset and lies within this one; None
/// where nothing stands in the way.
#[derive(Clone, Copy)]
struct Probe {
    who: Who,
    exclusive: bool,
    offset: u64,
    held: Option<(u64, u64)>,
}

const fn looks(who: Who, exclusive: bool, offset: u64, held: Option<(u64, u64)>) -> Probe {
    Probe {
        who,
        exclusive,
        offset,
        held,
    }
}

/// Whether it is an exclusive lock of A that has the offset and lies within these offsets.
fn is_shown(held: &HeldLock, offset: u64, first: u64, last: u64) -> bool {
    held.is_exclusive()
        && held.owner().process() == 1
        && held.owner().owner().as_slice() == b"\x01".as_slice()
        && first <= held.first()
        && held.first() <= offset
        && offset <= held.last()
        && held.last() <= last
}

fn shows_to(table: &LockTable, lock: &NlmLock, probe: Probe) -> bool {
    let Some(range) = LockRange::of(lock) else {
        return false;
    };
    let held = table.test(&range, probe.exclusive);
    let Some((first, last)) = probe.held else {
        return held.is_none();
    };
    match held {
        Some(held) => is_shown(held, probe.offset, first, last),
        None => false,
    }
}

fn shows(table: &LockTable, probe: Probe) -> bool {
    let asked = lock(probe.who, probe.offset, 1);
    let shows = shows_to(table, &asked, probe);
    drop(asked);
    shows
}

/// Whether each probe of the table after these changes is shown what it must be.
fn is_shown_after(alloc: Global, steps: &[Step], probes: &[Probe]) -> Result<bool, AllocError> {
    let table = after(alloc, steps)?;
    let mut all = true;
    for probe in probes {
        all = all && shows(&table, *probe);
    }
    drop(table);
    Ok(all)
}

#[test]
fn a_part_is_given_back(rt: HostRuntime) -> Result<(), AllocError> {
    assert!(rt;
        is_shown_after(
            rt.alloc(),
            &[
                does(Who::A, Change::Exclusive, 0, 100),
                does(Who::A, Change::Clear, 40, 20),
                does(Who::A, Change::Exclusive, 200, 0),
            ],
            &[
                looks(Who::B, true, 30, Some((0, 39))),
                looks(Who::B, true, 50, None),
                looks(Who::B, true, 99, Some((60, 99))),
                looks(Who::B, true, 150, None),
                looks(Who::B, true, u64::MAX, Some((200, u64::MAX))),
                looks(Who::A, true, 30, None),
            ],
        )?
    );
    Ok(())
}

#[test]
fn a_part_becomes_shared(rt: HostRuntime) -> Result<(), AllocError> {
    assert!(rt;
        is_shown_after(
            rt.alloc(),
            &[
                does(Who::A, Change::Exclusive, 0, 100),
                does(Who::A, Change::Shared, 50, 10),
                does(Who::B, Change::Shared, 52, 4),
            ],
            &[
                looks(Who::B, false, 55, None),
                looks(Who::B, false, 45, Some((0, 49))),
                looks(Who::B, false, 60, Some((60, 99))),
            ],
        )?
    );
    Ok(())
}

/// Whether these changes of a table without locks lead to this one.
fn lead_to(alloc: Global, table: &LockTable, steps: &[Step]) -> Result<bool, AllocError> {
    let made = after(alloc, steps)?;
    let is_same = made == *table;
    drop(made);
    Ok(is_same)
}

/// Whether both lists of changes lead to one table.
fn are_one(alloc: Global, steps: &[Step], others: &[Step]) -> Result<bool, AllocError> {
    let table = after(alloc, steps)?;
    let are_one = lead_to(alloc, &table, others);
    drop(table);
    are_one
}

#[test]
fn neighbours_are_one_lock(rt: HostRuntime) -> Result<(), AllocError> {
    assert!(rt;
        are_one(
            rt.alloc(),
            &[
                does(Who::A, Change::Exclusive, 0, 10),
                does(Who::A, Change::Exclusive, 20, 10),
                does(Who::A, Change::Exclusive, 10, 10),
            ],
            &[does(Who::A, Change::Exclusive, 0, 30)],
        )?
    );
    Ok(())
}

#[test]
fn a_part_of_a_shared_lock_stands_by_its_first_offset(rt: HostRuntime) -> Result<(), AllocError> {
    assert!(rt;
        are_one(
            rt.alloc(),
            &[
                does(Who::A, Change::Shared, 0, 100),
                does(Who::B, Change::Shared, 50, 10),
                does(Who::A, Change::Clear, 10, 71),
            ],
            &[
                does(Who::A, Change::Shared, 81, 19),
                does(Who::B, Change::Shared, 50, 10),
                does(Who::A, Change::Shared, 0, 10),
            ],
        )?
    );
    Ok(())
}

/// A table with 300 ranges of A and of B by turns, set in no order, with a gap behind each.
fn with_many(alloc: Global) -> Result<LockTable, AllocError> {
    let mut table = LockTable::new(alloc);
    for i in 0..300 {
        let who = if i % 2 == 0 { Who::A } else { Who::B };
        let change = if i % 3 == 0 {
            Change::Shared
        } else {
            Change::Exclusive
        };
        let next = changed(alloc, &table, does(who, change, (i * 37 % 300) * 3, 2))?;
        table = next;
    }
    Ok(table)
}

/// Whether all of A, and then all of B, can be given back of a table, and nothing is left.
fn is_given_back(alloc: Global, table: &LockTable) -> Result<bool, AllocError> {
    let of_b = changed(alloc, table, does(Who::A, Change::Clear, 0, 0))?;
    let none = changed(alloc, &of_b, does(Who::B, Change::Free, 0, 1));
    let b_was_left = !of_b.is_empty();
    drop(of_b);
    let none = none?;
    let is_none = none.is_empty();
    drop(none);
    Ok(b_was_left && is_none && !table.is_empty())
}

fn many_are_given_back(alloc: Global) -> Result<bool, AllocError> {
    let table = with_many(alloc)?;
    let is_held = !shows(&table, looks(Who::C, true, 898, None));
    let is_given_back = is_given_back(alloc, &table);
    drop(table);
    Ok(is_held && is_given_back?)
}

#[test]
fn many_ranges_stand_in_pieces(rt: HostRuntime) -> Result<(), AllocError> {
    assert!(rt; many_are_given_back(rt.alloc())?);
    Ok(())
}

/// The table after the change. Where memory for it is refused, the table is as it was, and the change is made again.
fn changed_at_last(
    alloc: Global,
    table: &LockTable,
    step: Step,
    probe: Probe,
) -> Result<LockTable, AllocError> {
    match changed(alloc, table, step) {
        Ok(changed) => Ok(changed),
        Err(_) if shows(table, probe) => changed(alloc, table, step),
        Err(error) => Err(error),
    }
}

fn refused_changes_are_made_again(alloc: Global) -> Result<bool, AllocError> {
    let none = LockTable::new(alloc);
    let whole = changed_at_last(
        alloc,
        &none,
        does(Who::A, Change::Exclusive, 0, 100),
        looks(Who::B, true, 50, None),
    );
    drop(none);
    let whole = whole?;
    let split = changed_at_last(
        alloc,
        &whole,
        does(Who::A, Change::Clear, 40, 20),
        looks(Who::B, true, 50, Some((0, 99))),
    );
    drop(whole);
    let split = split?;
    let is_split = shows(&split, looks(Who::B, true, 50, None))
        && shows(&split, looks(Who::B, true, 99, Some((60, 99))));
    drop(split);
    Ok(is_split)
}

#[test]
fn a_refused_change_leaves_the_table(rt: HostRuntime) -> Result<(), AllocError> {
    assert!(rt; refused_changes_are_made_again(rt.alloc())?);
    Ok(())
}
