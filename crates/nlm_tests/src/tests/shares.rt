//! Tables of shares.

use super::*;

pub(super) fn share(who: Who, mode: ShareMode, access: ShareAccess) -> NlmShare {
    NlmShare {
        caller_name: caller_name(who),
        file: Bytes::from_static(b"file"),
        owner: owner(who),
        mode,
        access,
    }
}

/// A call of SHARE or UNSHARE, and whether it is granted.
#[derive(Clone, Copy)]
struct Call {
    who: Who,
    shares: bool,
    mode: ShareMode,
    access: ShareAccess,
    granted: bool,
}

const fn sharing(who: Who, mode: ShareMode, access: ShareAccess, granted: bool) -> Call {
    Call {
        who,
        shares: true,
        mode,
        access,
        granted,
    }
}

const fn unsharing(who: Who) -> Call {
    Call {
        who,
        shares: false,
        mode: ShareMode::DenyNone,
        access: ShareAccess::Neither,
        granted: true,
    }
}

/// The table after a call; None where it is denied.
fn answered(
    alloc: Global,
    table: &ShareTable,
    asked: &NlmShare,
    shares: bool,
) -> Result<Option<ShareTable>, AllocError> {
    if !shares {
        return Ok(Some(table.unshare(alloc, asked)?));
    }
    if table.is_denied(asked) {
        return Ok(None);
    }
    Ok(Some(table.share(alloc, asked)?))
}

fn called(
    alloc: Global,
    table: &ShareTable,
    call: &Call,
) -> Result<Option<ShareTable>, AllocError> {
    let asked = share(call.who, call.mode, call.access);
    let answered = answered(alloc, table, &asked, call.shares);
    drop(asked);
    answered
}

/// Whether each of these calls is answered as it must be, from a table without shares to one.
fn are_answered(alloc: Global, calls: &[Call]) -> Result<bool, AllocError> {
    let mut table = ShareTable::new(alloc);
    let mut all = true;
    for call in calls {
        let next = called(alloc, &table, call)?;
        all = all && next.is_some() == call.granted;
        if let Some(next) = next {
            table = next;
        }
    }
    let is_empty = table.is_empty();
    drop(table);
    Ok(all && is_empty)
}

#[test]
fn shares_deny_each_other(rt: HostRuntime) -> Result<(), AllocError> {
    assert!(rt;
        are_answered(
            rt.alloc(),
            &[
                sharing(Who::A, ShareMode::DenyWrite, ShareAccess::Read, true),
                sharing(Who::B, ShareMode::DenyNone, ShareAccess::Write, false),
                sharing(Who::B, ShareMode::DenyNone, ShareAccess::Read, true),
                sharing(Who::A, ShareMode::DenyRead, ShareAccess::Read, false),
                sharing(Who::C, ShareMode::DenyNone, ShareAccess::Write, false),
                unsharing(Who::C),
                unsharing(Who::A),
                sharing(Who::C, ShareMode::DenyNone, ShareAccess::Write, true),
                unsharing(Who::B),
                unsharing(Who::C),
            ],
        )?
    );
    Ok(())
}
