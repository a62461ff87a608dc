//! Tables of exports: what a server opens with, and look-ups by number.

use super::*;
use nfs_objects::LivingExport;

/// What is told of an export. Its root has its number.
struct Told {
    number: u32,
    path: &'static [u8],
    is_read_only: bool,
    /// Whether it admits 10.0.0.1. Each export admits 10.0.0.2.
    admits_other: bool,
}

const FIRST: Told = Told {
    number: 1,
    path: b"/a",
    is_read_only: false,
    admits_other: true,
};

const SECOND: Told = Told {
    number: 2,
    path: b"/a/b",
    is_read_only: true,
    admits_other: false,
};

fn admits(export: &LivingExport, host: &'static [u8]) -> bool {
    let host = Bytes::from_static(host);
    let admits = export.admits(&host);
    drop(host);
    admits
}

fn is_told(export: &LivingExport, told: &Told) -> bool {
    export.number() == told.number
        && export.root() == u64::from(told.number)
        && export.path().as_slice() == told.path
        && export.is_read_only() == told.is_read_only
        && admits(export, b"10.0.0.1") == told.admits_other
        && admits(export, b"10.0.0.2")
}

/// Whether it has the two exports in order.
fn has_two(table: &ExportTable) -> bool {
    let [first, second] = table.list() else {
        return false;
    };
    is_told(first, &FIRST) && is_told(second, &SECOND)
}

/// The same of a table that is dropped.
fn had_two(table: ExportTable) -> bool {
    let has_two = has_two(&table);
    drop(table);
    has_two
}

#[test]
fn a_server_opens_with_its_exports_in_order(rt: HostRuntime) -> Result<(), AllocError> {
    assert!(rt; had_two(table(rt.alloc(), &TWO)?));
    assert!(rt; had_two(copied(table(rt.alloc(), &TWO)?)?));
    Ok(())
}
