//! What is shown of objects, what handles and names lead to, rights, names, and what a new object may be given.

ghost use Rattle.std.specs.Prelude.{◌≡◌, [], IfOk};
ghost use Rattle.nfs_objects.specs.Modes.{Suits, reading};

use super::*;
use nfs_inodes::{
    Right, changeable, entry, given_attributes, handle, is_verifier, leads_to, may, name_checked,
    named, new_cookie, object, permitted, plain_name_checked, regular, shown, verifier, wcc,
};
use nfs_machine::Handle;
use nfs_objects::Draft;
use nfs_wire::{NfsStatus, Verifier, WeakAttributes};

/// What a draft that reads tells of object 9.
#[derive(Clone, Copy)]
enum Look {
    /// It is shown so.
    Shows(Attributes),
    /// It is shown so before and after a call that does not change it.
    Stays(Known),
    /// A name leads there in the directory, and has this entry.
    Leads(&'static [u8], Option<u64>, Option<u64>),
    /// The next entry of the directory has this cookie.
    Next(Option<u64>),
    /// A call with this handle gets this status, if any.
    Names(Handle, Option<NfsStatus>),
    /// A call with these bytes as a handle gets this status.
    Refuses(&'static [u8], NfsStatus),
    /// It is not found.
    Lost,
}

/// Whether it is shown so before and after a call that does not change it.
fn stays(draft: &Draft<'_>, before: &Known) -> Result<bool, Missing> {
    let weak = WeakAttributes {
        size: 0,
        modified: TIME,
        changed: TIME,
    };
    let shown = wcc(draft, before)?;
    Ok(shown.before == Some(weak) && shown.after == Some(before.attributes))
}

/// Whether a name leads there in directory 9, and has this entry.
fn leads(
    draft: &Draft<'_>,
    name: &[u8],
    number: Option<u64>,
    entered: Option<u64>,
) -> Result<bool, Missing>
    requires { draft.now.writes ≡ [] }
{
    let Some(known) = object(draft, 9)? else {
        return Ok(false);
    };
    let Ok(place) = nfs_inodes::directory(&known) else {
        return Ok(false);
    };
    Ok(leads_to(draft, &place, name)? == number && entry(draft, &place, name)? == entered)
}

/// The cookie of the next entry of directory 9.
fn next(draft: &Draft<'_>) -> Result<Option<u64>, Missing> {
    let Some(known) = object(draft, 9)? else {
        return Ok(None);
    };
    let Ok(place) = nfs_inodes::directory(&known) else {
        return Ok(None);
    };
    new_cookie(draft, &place)
}

/// The status that a call with this handle gets, if any.
fn refused(draft: &Draft<'_>, handle: &[u8]) -> Result<Option<NfsStatus>, Missing>
    requires { draft.now.writes ≡ [] }
{
    match named(draft, handle)? {
        Ok(_known) => Ok(None),
        Err(status) => Ok(Some(status)),
    }
}

fn is_told(draft: &Draft<'_>, look: &Look) -> Result<bool, Missing>
    requires { draft.now.writes ≡ [] }
{
    match *look {
        Look::Shows(attributes) => Ok(shown(draft, 9)? == Some(attributes)),
        Look::Stays(before) => stays(draft, &before),
        Look::Leads(name, number, entered) => leads(draft, name, number, entered),
        Look::Next(cookie) => Ok(next(draft)? == cookie),
        Look::Names(handle, status) => Ok(refused(draft, &handle.bytes())? == status),
        Look::Refuses(bytes, status) => Ok(refused(draft, bytes)? == Some(status)),
        Look::Lost => Ok(object(draft, 9)?.is_none()),
    }
}

/// Whether a draft tells all of this.
fn are_told(draft: &Draft<'_>, looks: &[Look]) -> Result<bool, Missing>
    requires { draft.now.writes ≡ [] }
{
    for look in looks {
        if !is_told(draft, look)? {
            return Ok(false);
        }
    }
    Ok(true)
}

/// Whether a draft that reads this view tells all of this.
fn tells(alloc: Global, view: View, looks: &[Look]) -> bool
    requires { Suits reading view }
{
    let ctx = ctx(1);
    let draft = Draft::new(alloc, &ctx, &view, READING);
    let told = is_so(are_told(&draft, looks));
    drop(draft);
    drop(view);
    drop(ctx);
    told
}

const DEVICE: DeviceNumber = DeviceNumber { major: 8, minor: 1 };

/// An object of each kind that has no entries and no bytes of a file.
fn content(kind: FileType) -> Content {
    match kind {
        FileType::Link => Content::Link(Bytes::from_static(b"../data")),
        FileType::BlockDevice => Content::BlockDevice(DEVICE),
        FileType::CharacterDevice => Content::CharacterDevice(DEVICE),
        _ => Content::Fifo,
    }
}

/// Whether an object of this kind and mode is shown with these numbers.
fn is_shown(
    alloc: Global,
    kind: FileType,
    mode: u32,
    size: u64,
    used: u64,
    device: DeviceNumber,
) -> Result<bool, AllocError> {
    let attributes = Attributes {
        size,
        used,
        device,
        ..known(kind, mode).attributes
    };
    let view = viewed(alloc, inode(content(kind), mode), Beside::Nothing)?;
    Ok(tells(alloc, view, &[Look::Shows(attributes)]))
}

/// Whether a fifo stays as it is.
fn fifo_stays(alloc: Global) -> Result<bool, AllocError> {
    let look = Look::Stays(known(FileType::Fifo, 0));
    let view = viewed(alloc, fifo(0), Beside::Nothing)?;
    Ok(tells(alloc, view, &[look]))
}

/// A link has the size of its text, and a device shows its numbers: it has no bytes.
#[test]
fn an_object_is_shown_by_its_kind(rt: HostRuntime) -> Result<(), AllocError> {
    let no_device = DeviceNumber { major: 0, minor: 0 };
    assert!(rt; is_shown(rt.alloc(), FileType::Link, 0o777, 7, 4096, no_device)?);
    assert!(rt; is_shown(rt.alloc(), FileType::BlockDevice, 0o600, 0, 0, DEVICE)?);
    assert!(rt; is_shown(rt.alloc(), FileType::CharacterDevice, 0o600, 0, 0, DEVICE)?);
    assert!(rt; fifo_stays(rt.alloc())?);
    Ok(())
}

/// The first row in which a right is not told so. The owner is user 5, its group is 6, and the kind of the object does
/// not matter to rights.
fn first_wrong_right() -> Option<usize> {
    let rows = [
        (5, 1, 0o077, Right::ToSearch, false),
        (5, 1, 0o077, Right::ToList, false),
        (5, 1, 0o577, Right::ToChange, false),
        (5, 1, 0o300, Right::ToChange, true),
        (1, 6, 0o010, Right::ToSearch, true),
        (1, 6, 0o767, Right::ToSearch, false),
        (1, 6, 0o757, Right::ToChange, false),
        (1, 1, 0o001, Right::ToSearch, true),
        (1, 1, 0o776, Right::ToSearch, false),
        (1, 1, 0o003, Right::ToChange, true),
        (1, 1, 0o002, Right::ToChange, false),
        (0, 1, 0o000, Right::ToSearch, true),
        (0, 1, 0o000, Right::ToChange, true),
    ];
    for (row, (uid, gid, mode, right, want)) in rows.iter().enumerate() {
        let known = known(FileType::Directory, *mode);
        if may(&caller(*uid, *gid), &known, *right) != *want {
            return Some(row);
        }
    }
    None
}

/// The status of a user that may not write a file of this mode.
fn write_fault(user: u32, mode: u32) -> Option<NfsStatus> {
    let ctx = ctx(user);
    let fault = permitted(&ctx, &known(FileType::Regular, mode), Right::ToWrite).err();
    drop(ctx);
    fault
}

/// A right that is wanting is told.
#[test]
fn rights_are_bits_of_one_class(rt: HostRuntime) {
    assert_eq!(rt; first_wrong_right(), None);
    assert!(rt; write_fault(6, 0o064).is_none());
    assert!(rt; write_fault(1, 0o064) == Some(NfsStatus::Access));
}

fn kinds_are_told() -> bool {
    let (file, other) = (known(FileType::Regular, 0), known(FileType::Fifo, 0));
    matches!(regular(&file), Ok(file) if file.known.number == 9)
        && matches!(regular(&other), Err(NfsStatus::Invalid))
        && matches!(nfs_inodes::directory(&file), Err(NfsStatus::NotDirectory))
}

/// Whether an exclusive file has its verifier, and no other file has one.
fn verifiers_are_told() -> bool {
    let (ones, twos) = (Verifier { bytes: [1; 8] }, Verifier { bytes: [2; 8] });
    let other = known(FileType::Regular, 0);
    let file = Known {
        verifier: Some(ones),
        ..other
    };
    !is_verifier(&other, &ones) && is_verifier(&file, &ones) && !is_verifier(&file, &twos)
}

/// Whether a write is told by the start of the server.
fn writes_are_told() -> bool {
    let ctx = ctx(1);
    let told = verifier(&ctx);
    drop(ctx);
    told.bytes == [0, 0, 0, 0, 0, 0, 0, 7]
}

/// The status of a name that is made, where `.` and `..` are told by two statuses.
fn new_name_fault(name: &[u8]) -> Option<NfsStatus> {
    plain_name_checked(NfsStatus::Exists, NfsStatus::NotEmpty, name).err()
}

/// The first row in which a new name is not judged so.
fn first_wrong_name() -> Option<usize> {
    let rows = [
        (b".".as_slice(), Some(NfsStatus::Exists)),
        (b"..", Some(NfsStatus::NotEmpty)),
        (b"...", None),
        (b".a", None),
    ];
    for (row, (name, want)) in rows.iter().enumerate() {
        if new_name_fault(name) != *want {
            return Some(row);
        }
    }
    None
}

/// Whether a name has no NUL.
fn names_have_no_nul() -> bool {
    name_checked(b"a\0") == Err(NfsStatus::Access) && name_checked(b"a\\b c") == Ok(())
}

#[test]
fn kinds_and_names_are_checked(rt: HostRuntime) {
    assert!(rt; kinds_are_told());
    assert!(rt; verifiers_are_told());
    assert!(rt; writes_are_told());
    assert_eq!(rt; first_wrong_name(), None);
    assert!(rt; names_have_no_nul());
}

/// Directory 9 below directory 1, in which `a` leads to 7, with this greatest cookie.
pub(super) fn place(alloc: Global, last_cookie: u64) -> Result<View, AllocError>
    ensures { IfOk result (Suits reading) }
{
    let content = Content::Directory(with_a(alloc, last_cookie)?);
    viewed(alloc, inode(content, 0o777), Beside::Named)
}

/// What names lead to in directory 9, and which entries they have.
const LED: [Look; 4] = [
    Look::Leads(b".", Some(9), None),
    Look::Leads(b"..", Some(1), None),
    Look::Leads(b"a", Some(7), Some(7)),
    Look::Leads(b"ab", None, None),
];

/// Whether the next entry behind this greatest cookie has that one.
fn is_next(alloc: Global, last_cookie: u64, next: Option<u64>) -> Result<bool, AllocError> {
    Ok(tells(alloc, place(alloc, last_cookie)?, &[Look::Next(next)]))
}

/// Whether the greatest cookie is the last.
fn cookies_rise(alloc: Global) -> Result<bool, AllocError> {
    Ok(
        is_next(alloc, 3, Some(4))?
            && is_next(alloc, u64::MAX - 1, Some(u64::MAX))?
            && is_next(alloc, u64::MAX, None)?,
    )
}

#[test]
fn names_lead_to_entries_and_dots_to_itself_and_above(rt: HostRuntime) -> Result<(), AllocError> {
    assert!(rt; tells(rt.alloc(), place(rt.alloc(), 3)?, &LED));
    assert!(rt; cookies_rise(rt.alloc())?);
    Ok(())
}

/// Object 9 of export 1, as a server that was started with 7 names it.
const HANDLE: Handle = Handle {
    export: 1,
    start: 7,
    fileid: 9,
    generation: 3,
};

/// The same in export 2.
const OF_OTHER: Handle = Handle {
    export: 2,
    ..HANDLE
};

const STALE: Option<NfsStatus> = Some(NfsStatus::Stale);

const NAMED: [Look; 5] = [
    Look::Names(HANDLE, None),
    Look::Names(OF_OTHER, STALE),
    Look::Names(Handle { start: 8, ..HANDLE }, STALE),
    Look::Names(
        Handle {
            generation: 4,
            ..HANDLE
        },
        STALE,
    ),
    Look::Refuses(b"NFD3", NfsStatus::BadHandle),
];

/// Number 9 is of export 2, which does not live: it stands for nothing, whatever the handle says.
fn of_other() -> Inode {
    let mut inode = fifo(0o600);
    inode.export = 2;
    inode
}

/// Whether the handle asks a draft that reads this view for an address alone.
fn handle_asks(alloc: Global, view: View, address: Addr) -> bool
    requires { Suits reading view }
{
    let ctx = ctx(1);
    let draft = Draft::new(alloc, &ctx, &view, READING);
    let asks = asks(named(&draft, &HANDLE.bytes()), address, Mode::Shared);
    drop(draft);
    drop(view);
    drop(ctx);
    asks
}

/// Whether the handle of fifo 9 has these bytes.
fn is_handle(alloc: Global, want: &[u8]) -> Result<bool, AllocError> {
    let ctx = ctx(1);
    let bytes = handle(alloc, &ctx, &known(FileType::Fifo, 0));
    drop(ctx);
    let bytes = bytes?;
    let is_handle = bytes.as_slice() == want;
    drop(bytes);
    Ok(is_handle)
}

/// Whether a handle names one object of one export.
fn handles_are_told(alloc: Global) -> Result<bool, AllocError> {
    Ok(tells(alloc, viewed(alloc, fifo(0), Beside::Nothing)?, &NAMED))
}

/// Whether an object of an export that does not live is not found.
fn is_lost(alloc: Global) -> Result<bool, AllocError> {
    let lost = [Look::Lost, Look::Names(OF_OTHER, STALE)];
    Ok(tells(alloc, viewed(alloc, of_other(), Beside::Nothing)?, &lost))
}

/// Whether a handle asks for the exports before the object.
fn handles_ask(alloc: Global) -> Result<bool, AllocError> {
    let is_asked = handle_asks(alloc, exported(alloc)?, Addr::Inode(9));
    Ok(is_asked && handle_asks(alloc, View::new(alloc), Addr::Exports))
}

#[test]
fn a_handle_names_one_object_of_one_export(rt: HostRuntime) -> Result<(), AllocError> {
    assert!(rt; handles_are_told(rt.alloc())?);
    assert!(rt; is_lost(rt.alloc())?);
    assert!(rt; handles_ask(rt.alloc())?);
    assert!(rt; is_handle(rt.alloc(), super::HANDLE)?);
    Ok(())
}

/// `/data`, which may not be written.
const READ_ONLY: Given = Given {
    mode: b"ro",
    ..WRITABLE
};

/// Why an object of export 1 may not be changed where these are the exports.
fn change_fault(alloc: Global, list: &[Given]) -> Result<Option<NfsStatus>, AllocError> {
    let table = table(alloc, list)?;
    let fault = changeable(table.list(), &known(FileType::Regular, 0)).err();
    drop(table);
    Ok(fault)
}

/// Whether what is of a read only export is not changed, and neither what is of an export that is not there.
fn changes_are_told(alloc: Global) -> Result<bool, AllocError> {
    Ok(
        change_fault(alloc, &[WRITABLE])?.is_none()
            && change_fault(alloc, &[READ_ONLY])? == Some(NfsStatus::ReadOnly)
            && change_fault(alloc, &[])? == Some(NfsStatus::ReadOnly),
    )
}

/// The status of a user that may not give a new object to this owner, or not this size.
fn gift_fault(user: u32, owner: Option<u32>, size: Option<u64>) -> Option<NfsStatus> {
    let given = SetAttributes {
        uid: owner,
        gid: owner,
        size,
        ..NOTHING
    };
    let ctx = ctx(user);
    let fault = given_attributes(&ctx, &given).err();
    drop(ctx);
    fault
}

/// Whether a caller gives a new object to itself, and a new file at most the greatest size.
fn gifts_are_told() -> bool {
    gift_fault(1, Some(1), None).is_none()
        && gift_fault(2, Some(1), None) == Some(NfsStatus::Permission)
        && gift_fault(1, None, Some(1_073_741_824)).is_none()
        && gift_fault(1, None, Some(1_073_741_825)) == Some(NfsStatus::FileTooBig)
}

#[test]
fn changes_and_gifts_are_judged(rt: HostRuntime) -> Result<(), AllocError> {
    assert!(rt; changes_are_told(rt.alloc())?);
    assert!(rt; gifts_are_told());
    Ok(())
}
