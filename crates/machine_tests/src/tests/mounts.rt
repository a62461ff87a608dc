//! Tables of mounts (RFC 1813, appendix I, 5.2): their order, and who is listed.

use super::*;
use nfs_objects::{Mount, MountTable};

const FIRST: &[u8] = b"10.0.0.1";

const SECOND: &[u8] = b"10.0.0.2";

/// The table with one more mount of `/data`, unless the host has it mounted.
fn mounted(alloc: Global, table: &MountTable, host: &[u8]) -> Result<MountTable, AllocError> {
    if table.is_listed(host, b"/data") {
        return Err(AllocError);
    }
    table.with_mount(alloc, host, b"/data")
}

fn is_mount(mount: &Mount, host: &[u8]) -> bool {
    mount.host().as_slice() == host && mount.path().as_slice() == b"/data".as_slice()
}

/// Whether it lists a mount of `/data` by each of these hosts, in this order, and no other.
fn lists(table: &MountTable, hosts: &[&'static [u8]]) -> bool {
    let mut mounts = table.iter();
    for host in hosts {
        let is_next = match mounts.next() {
            Some(mount) => is_mount(mount, host),
            None => false,
        };
        if !is_next {
            return false;
        }
    }
    mounts.next().is_none() && table.len() == hosts.len()
}

/// Whether the second host is added behind the first one, and the table itself stays as it is.
fn lists_both(alloc: Global, one: &MountTable) -> Result<bool, AllocError> {
    let both = mounted(alloc, one, SECOND)?;
    let lists_both = lists(&both, &[FIRST, SECOND])
        && both.is_listed(FIRST, b"/data")
        && !both.is_listed(b"10.0.0.3", b"/data")
        && !both.is_listed(FIRST, b"/");
    drop(both);
    Ok(lists_both && lists(one, &[FIRST]))
}

/// The same of the first host and a table without mounts.
fn grows(alloc: Global, none: &MountTable) -> Result<bool, AllocError> {
    let one = mounted(alloc, none, FIRST)?;
    let lists_both = lists_both(alloc, &one);
    drop(one);
    Ok(lists_both? && none.is_empty() && lists(none, &[]))
}

fn new_table_grows(alloc: Global) -> Result<bool, AllocError> {
    let none = MountTable::new(alloc);
    let grows = grows(alloc, &none);
    drop(none);
    grows
}

#[test]
fn mounts_are_listed_in_order_of_adding(rt: HostRuntime) -> Result<(), AllocError> {
    assert!(rt; new_table_grows(rt.alloc())?);
    Ok(())
}
