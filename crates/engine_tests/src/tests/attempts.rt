//! How often a call is attempted in a store at rest, and what it reads. Its plan goes through that, so the count does
//! not grow with directories, paths, listings and files.

mod courses;
mod messages;
mod procedures;
mod rows;
mod standing;
mod stocks;

use super::openings::{close, resting};
use crate::tests::attempts::courses::cost_of;
use crate::tests::attempts::messages::{COUNTED_XID, Store, message};
use crate::tests::attempts::rows::{
    IN_THE_DEEPEST, INTO_ANOTHER, INTO_REMAINS, OF_HOSTS, OF_THIN_PAGES, ON_A_FILE, ON_A_LINK,
    ON_ITS_LOCKS, ON_NAMES, ON_NEW_NAMES, ON_THE_ROOT, Row,
};
use crate::tests::attempts::stocks::{Stock, stock_up};
use nfs_engine::Engine;
use std::alloc::AllocError;
use std::process::Abort;
use std::test::Fail;

/// The call of a row makes no more attempts than it may, and reads no more.
fn count(
    rt: &(impl Abort + AllocGlobal),
    engine: &mut Engine,
    store: &Store,
    row: Row<'_>,
) -> Result<(), AllocError> {
    let (procedure, words, attempts, addresses) = row;
    let message = message(rt.alloc(), COUNTED_XID, procedure, words, store)?;
    let cost = cost_of(rt, engine, &message)?;
    let (program, _, number) = procedure;
    let (tried, read) = (cost.attempts, cost.addresses);
    assert!(rt;
        tried <= attempts,
        "procedure {number} of {program}: {tried} attempts"
    );
    assert!(rt;
        read <= addresses,
        "procedure {number} of {program}: {read} addresses"
    );
    Ok(())
}

/// So do those of all rows, in a store that is stocked so.
fn count_all(
    rt: &(impl Abort + AllocGlobal),
    engine: &mut Engine,
    stock: Stock,
    rows: &[Row<'static>],
) -> Result<(), AllocError> {
    let mut store = Store::new(rt.alloc());
    stock_up(rt, engine, &mut store, stock)?;
    for row in rows {
        count(rt, engine, &store, *row)?;
    }
    Ok(())
}

/// The same in a new store.
fn count_in(
    rt: &(impl Abort + AllocGlobal),
    stock: Stock,
    rows: &[Row<'static>],
) -> Result<(), AllocError> {
    let mut engine = resting(rt.alloc(), 16)?;
    let counted = count_all(rt, &mut engine, stock, rows);
    close(rt, engine);
    counted
}

/// The numbers of files about which a directory gets one part more, or one page more, and a large one.
const FILES: [u32; 7] = [0, 1, 8, 9, 64, 65, 1000];

#[test]
fn names_of_a_large_directory_are_called_on_in_one_attempt(rt: HostRuntime) -> Result<(), Fail> {
    for files in FILES {
        count_in(&rt, Stock::Files(files), ON_NEW_NAMES)?;
        if files > 0 {
            count_in(&rt, Stock::Files(files), ON_NAMES)?;
        }
    }
    Ok(())
}

#[test]
fn a_large_directory_is_read_in_as_many_attempts(rt: HostRuntime) -> Result<(), Fail> {
    for files in FILES {
        count_in(&rt, Stock::Files(files), ON_THE_ROOT)?;
    }
    Ok(())
}

#[test]
fn thin_pages_are_listed_in_one_attempt(rt: HostRuntime) -> Result<(), Fail> {
    count_in(&rt, Stock::Thin(640), OF_THIN_PAGES)?;
    Ok(())
}

#[test]
fn a_path_is_gone_along_in_one_attempt(rt: HostRuntime) -> Result<(), Fail> {
    for fours in [0, 1, 2, 32] {
        count_in(&rt, Stock::Deep(fours), IN_THE_DEEPEST)?;
    }
    Ok(())
}

#[test]
fn a_large_file_is_called_on_in_as_many_attempts(rt: HostRuntime) -> Result<(), Fail> {
    for blocks in [0, 1, 2, 15, 16] {
        count_in(&rt, Stock::Blocks(blocks), ON_A_FILE)?;
    }
    for pages in [1, 2, 16] {
        count_in(&rt, Stock::Holes(pages), ON_A_FILE)?;
    }
    Ok(())
}

#[test]
fn remains_are_written_over_in_one_attempt(rt: HostRuntime) -> Result<(), Fail> {
    for pages in [2, 16] {
        count_in(&rt, Stock::Remains(pages), INTO_REMAINS)?;
    }
    Ok(())
}

#[test]
fn a_link_is_called_on_in_one_attempt(rt: HostRuntime) -> Result<(), Fail> {
    count_in(&rt, Stock::Link, ON_A_LINK)?;
    Ok(())
}

#[test]
fn a_file_is_replaced_from_another_directory_in_one_attempt(rt: HostRuntime) -> Result<(), Fail> {
    for blocks in [0, 1, 16] {
        count_in(&rt, Stock::Pair(blocks), INTO_ANOTHER)?;
    }
    Ok(())
}

#[test]
fn locks_are_called_on_in_one_attempt(rt: HostRuntime) -> Result<(), Fail> {
    for stock in [
        Stock::Blocks(0),
        Stock::Held,
        Stock::Awaited,
        Stock::Granted,
    ] {
        count_in(&rt, stock, ON_ITS_LOCKS)?;
        count_in(&rt, stock, OF_HOSTS)?;
    }
    Ok(())
}
