//! SETATTR: new attributes of an object (RFC 1813, 3.3.2).

ghost use Rattle.std.specs.Prelude.{◌≡◌, ◌%◌, ◌==◌, ◌||◌, ◌&&◌, [], true, not, IfErr, IfOk, IfSome};
ghost use Rattle.std.specs.Prelude.{MatchResult, if◌then◌else◌, is_none, is_some, option_map, unwrap_or};
ghost use Rattle.nfs_machine.specs.AttributeSteps.{set_object};
ghost use Rattle.nfs_machine.specs.Attributes.{type_of};
ghost use Rattle.nfs_machine.specs.Permission.{ToWrite, is_member, may, mode_limit};
ghost use Rattle.nfs_machine.specs.State.{Content, Socket};
ghost use Rattle.nfs_machine.specs.Times.{is_client_time, is_server_time, time_of};
ghost use Rattle.nfs_machine.specs.declared.calls.Call.TheVariants as calls;
ghost use Rattle.nfs_objects.specs.Asks.{IsThere};
ghost use Rattle.nfs_objects.specs.Attempt.{EndsCall, EndsFirst};
ghost use Rattle.nfs_objects.specs.Begins.{Begins};
ghost use Rattle.nfs_objects.specs.Calls.{named_by};
ghost use Rattle.nfs_objects.specs.Knows.{Does, Knows, Turns};
ghost use Rattle.nfs_objects.specs.Modes.{changing};
ghost use Rattle.nfs_objects.specs.Only.{AsksNothing, EndsFirstOnly};
ghost use Rattle.nfs_objects.specs.declared.address.Addr.TheVariants as Addr;
ghost use Rattle.nfs_inodes.specs.Kinds.{IsShown};
ghost use Rattle.nfs_inodes.specs.Known.{Names, shell};
ghost use Rattle.nfs_inodes.specs.Makes.{size_set};
ghost use Rattle.nfs_inodes.specs.Stops.{KnowsAt, StopsAt, counted_at};
ghost use Rattle.nfs_data.specs.Plans.{MayHalt};
ghost use Rattle.nfs_data.specs.Settings.{IsSetEnd, IsSizeOf, content_found};
ghost use Rattle.nfs_data.specs.Settings.{content_set, set_found, settings_after};

use nfs_inodes::{
    Known, KnownFile, MODE_LIMIT, Right, SIZE_LIMIT, Settings, ask_resize, changeable, exports,
    is_client_time, is_member, is_server_time, is_time, may, named, nothing_shown, now, object,
    regular, resize, set_attributes, time_set, touch, wcc_of,
};
use nfs_machine::{Ctx, Reply};
use nfs_objects::{Change, Draft, LivingExport, Missing};
use nfs_rpc::Ids;
use nfs_wire::{
    Attributes, NfsCall, NfsReply, NfsStatus, SetAttributes, SetattrArguments, SetattrReply, Time,
};

/// Tries SETATTR.
pub(crate) fn attempt(mut draft: Draft<'_>, arguments: &SetattrArguments) -> Result<Change, Missing>
    requires { Begins (calls.Nfs (NfsCall.Setattr arguments.now)) draft }
    ensures ends { EndsCall (calls.Nfs (NfsCall.Setattr arguments.now)) draft.entry.ctx draft.entry.view result }
    ensures first { EndsFirst (calls.Nfs (NfsCall.Setattr arguments.now)) draft.entry.view result }
    ensures only { is_none arguments.now.attributes.size ≡ true →
        EndsFirstOnly (calls.Nfs (NfsCall.Setattr arguments.now)) draft.entry.view result }
{
    let reply = match named(&draft, arguments.object.as_slice())? {
        Ok(known) => {
            let done = set(&mut draft, &known, arguments)?;
            let after = object(&draft, known.number)?;
            SetattrReply {
                wcc: wcc_of(&known, attributes_of(after)),
                result: done,
            }
        }
        Err(status) => SetattrReply {
            wcc: nothing_shown(),
            result: Err(status),
        },
    };
    Ok(draft.answer(Reply::Nfs(NfsReply::Setattr(reply))))
}

/// Asks for what SETATTR has to hold for a new size, where its checks pass.
///
/// # Errors
///
/// `Need` of what it lacks, and `Memory`.
pub(crate) fn ask(draft: &Draft<'_>, arguments: &SetattrArguments) -> Result<(), Missing>
    requires { Begins (calls.Nfs (NfsCall.Setattr arguments.now)) draft.now }
    ensures { IfErr result (MayHalt (NfsCall.Setattr arguments.now) draft.now) }
{
    if let Ok(known) = named(draft, arguments.object.as_slice())? {
        ask_size(draft, &known, arguments)?;
    }
    Ok(())
}

/// The same of the object that its handle names.
fn ask_size(draft: &Draft<'_>, known: &Known, arguments: &SetattrArguments) -> Result<(), Missing>
    requires none { draft.now.writes ≡ [] }
    requires lives { IsThere draft.now.view (Addr.Inode known.now.number) }
    requires shown { IsShown draft.now known.now }
    ensures { IfErr result (StopsAt draft.now []) }
{
    let exports = exports(draft)?;
    if let Ok(Some(new)) = settable(draft.ctx(), exports, known, arguments) {
        ask_resize(draft, &new.file, new.size)?;
    }
    Ok(())
}

fn attributes_of(known: Option<Known>) -> Option<Attributes>
    ensures { result ≡ option_map (λ x. x.attributes) known }
{
    known.map(|known| known.attributes)
}

/// What SETATTR answers, and the object after it.
fn set(
    draft: &mut Draft<'_>,
    known: &Known,
    arguments: &SetattrArguments,
) -> Result<Result<(), NfsStatus>, Missing>
    requires begins { Begins (calls.Nfs (NfsCall.Setattr arguments.now)) draft.old }
    requires names { Knows draft.old (λ k. Names draft.old.ctx arguments.now.object k known.now) }
    requires shown { IsShown draft.old known.now }
    ensures does { MatchResult result
        (Does draft.old draft.new (IsSetEnd draft.old.ctx arguments.now))
        (StopsAt draft.old (named_by (calls.Nfs (NfsCall.Setattr arguments.now)) draft.old.view)) }
    ensures only { is_none arguments.now.attributes.size ≡ true → KnowsAt draft.old known.now.number →
        AsksNothing result × IfOk result (λ _. KnowsAt draft.new known.now.number) }
{
    let size = match settable(draft.ctx(), exports(draft)?, known, arguments) {
        Ok(size) => size,
        Err(status) => return Ok(Err(status)),
    };
    let settings = settings_after(draft.ctx(), known, &arguments.attributes);
    resize_to(draft, known.number, size)?;
    set_attributes(draft, known.number, &settings)?;
    Ok(Ok(()))
}

/// Gives a file its new size, if there is one.
fn resize_to(draft: &mut Draft<'_>, number: u64, size: Option<NewSize>) -> Result<(), Missing>
    requires none { draft.old.writes ≡ [] }
    requires alone { draft.old.modes ≡ changing }
    requires file { IfSome size (λ new. new.file.known.number ≡ number) }
    requires shown { IfSome size (λ new. IsShown draft.old new.file.known) }
    ensures turns { MatchResult result
        (λ _. Turns draft.old draft.new
        (size_set (time_of draft.old.ctx.moment) number (option_map (λ new. new.size) size)))
        (StopsAt draft.old (counted_at draft.old number)) }
    ensures only { is_none size ≡ true → (draft.new ≡ draft.old) × AsksNothing result }
{
    let Some(wanted) = size else {
        return Ok(());
    };
    resize(draft, &wanted.file, wanted.size)
}

/// A file, and the size that it gets in bytes.
#[derive(Clone, Copy)]
struct NewSize {
    file: KnownFile,
    size: u64,
}

/// The checks of SETATTR, and the size that is set, if one is.
fn settable(
    ctx: &Ctx,
    exports: &[LivingExport],
    known: &Known,
    arguments: &SetattrArguments,
) -> Result<Option<NewSize>, NfsStatus>
    ensures size { IfOk result (IsSizeOf known.now arguments.now.attributes.size) }
    ensures checks { (content : Content) → type_of content ≡ known.now.attributes.kind →
        set_object exports.now ctx.now (shell known.now content) arguments.now
        ≡ set_found ctx.now arguments.now known.now content result }
{
    let set = &arguments.attributes;
    changeable(exports, known)?;
    if !is_unchanged(known, arguments.guard) {
        return Err(NfsStatus::NotSynchronized);
    }
    if !is_time(set.accessed) || !is_time(set.modified) {
        return Err(NfsStatus::Invalid);
    }
    let size = sized(known, set.size)?;
    if set.size.unwrap_or(0) > SIZE_LIMIT {
        return Err(NfsStatus::FileTooBig);
    }
    if !may_set_as_owner(&ctx.ids, known, set) {
        return Err(NfsStatus::Permission);
    }
    if !may_set_uid(&ctx.ids, known, set.uid) {
        return Err(NfsStatus::Permission);
    }
    if !may_set_gid(&ctx.ids, known, set.gid) {
        return Err(NfsStatus::Permission);
    }
    if !may_set_as_writer(&ctx.ids, known, set) {
        return Err(NfsStatus::Access);
    }
    Ok(size)
}

/// Whether the object was changed last when the caller says (RFC 1813, 3.3.2: sattrguard3).
fn is_unchanged(known: &Known, guard: Option<Time>) -> bool
    ensures { result ≡
        (((unwrap_or guard known.now.attributes.changed).seconds == known.now.attributes.changed.seconds)
        && ((unwrap_or guard known.now.attributes.changed).nanoseconds == known.now.attributes.changed.nanoseconds)) }
{
    let changed = known.attributes.changed;
    let guard = guard.unwrap_or(changed);
    guard.seconds == changed.seconds && guard.nanoseconds == changed.nanoseconds
}

/// The size that is set, if one is: of a regular file alone.
fn sized(known: &Known, size: Option<u64>) -> Result<Option<NewSize>, NfsStatus>
    ensures size { IfOk result (IsSizeOf known.now size) }
    ensures checks { (content : Content) → type_of content ≡ known.now.attributes.kind →
        content_set content size ≡ content_found content size result }
{
    match size {
        Some(size) => {
            let file = regular(known)?;
            Ok(Some(NewSize { file, size }))
        }
        None => Ok(None),
    }
}

/// Whether the caller may set the mode, and give times: the owner may, and the user 0.
fn may_set_as_owner(ids: &Ids, known: &Known, set: &SetAttributes) -> bool
    ensures { result ≡ ((ids.now.uid == 0) || (ids.now.uid == known.now.attributes.uid) || not
        (is_some set.now.mode || is_client_time set.now.accessed || is_client_time set.now.modified)) }
{
    ids.uid == 0
        || ids.uid == known.attributes.uid
        || !(set.mode.is_some() || is_client_time(set.accessed) || is_client_time(set.modified))
}

/// Whether the caller may give the object to this owner: the user 0 to anybody, its owner to itself.
fn may_set_uid(ids: &Ids, known: &Known, uid: Option<u32>) -> bool
    ensures { result ≡ ((ids.now.uid == 0) || is_none uid || ((ids.now.uid == known.now.attributes.uid)
        && (unwrap_or uid known.now.attributes.uid == known.now.attributes.uid))) }
{
    ids.uid == 0
        || uid.is_none()
        || (ids.uid == known.attributes.uid
            && uid.unwrap_or(known.attributes.uid) == known.attributes.uid)
}

/// Whether the caller may give the object to this group: the user 0 to any, its owner to one of its own groups, or to
/// the one that it has.
fn may_set_gid(ids: &Ids, known: &Known, gid: Option<u32>) -> bool
    ensures { result ≡ ((ids.now.uid == 0) || is_none gid || ((ids.now.uid == known.now.attributes.uid)
        && ((unwrap_or gid known.now.attributes.gid == known.now.attributes.gid)
        || is_member ids.now (unwrap_or gid known.now.attributes.gid)))) }
{
    let given = gid.unwrap_or(known.attributes.gid);
    ids.uid == 0
        || gid.is_none()
        || (ids.uid == known.attributes.uid
            && (given == known.attributes.gid || is_member(ids, given)))
}

/// Whether the caller may set the size, and times to those of the server: who may write may.
fn may_set_as_writer(ids: &Ids, known: &Known, set: &SetAttributes) -> bool
    ensures { result ≡ (not
        (is_some set.now.size || is_server_time set.now.accessed || is_server_time set.now.modified)
        || may ids.now (shell known.now Socket) ToWrite) }
{
    !(set.size.is_some() || is_server_time(set.accessed) || is_server_time(set.modified))
        || may(ids, known, Right::ToWrite)
}

/// The attributes after it: what is not set stays, but for the time of change, and that of modification where a size is
/// set.
fn settings_after(ctx: &Ctx, known: &Known, set: &SetAttributes) -> Settings
    ensures { result ≡ settings_after ctx.now known.now set.now }
{
    let was = &known.attributes;
    let now = now(ctx);
    let changed = touch(was.changed, now);
    let modified = modified_after(was.modified, changed, set.size);
    Settings {
        mode: mode_after(was.mode, set.mode),
        uid: set.uid.unwrap_or(was.uid),
        gid: set.gid.unwrap_or(was.gid),
        accessed: time_set(was.accessed, now, set.accessed),
        modified: time_set(modified, now, set.modified),
        changed,
    }
}

/// The time of modification, where the caller gives none.
fn modified_after(was: Time, changed: Time, size: Option<u64>) -> Time
    ensures { result ≡ (if is_some size then changed else was) }
{
    if size.is_some() { changed } else { was }
}

/// The twelve bits of the mode after it.
fn mode_after(was: u32, set: Option<u32>) -> u32
    ensures { result ≡ unwrap_or (option_map (λ mode. mode % mode_limit) set) was }
{
    match set {
        Some(mode) => mode % MODE_LIMIT,
        None => was,
    }
}
