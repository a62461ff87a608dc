//! Lists of locks, in pieces.

ghost use Rattle.std.specs.Prelude.{◌≡◌, ◌==◌, ◌≤◌, ◌++◌, [], false, true, filter, length, not};
ghost use Rattle.std.specs.Prelude.{Some};
ghost use Rattle.std.specs.Prelude.{Contains, IfNone, IfOk, IfSome, OnOk};
ghost use Rattle.std.specs.List.{flat_map, list_any};
ghost use Rattle.nfs_machine.specs.LockLaws.{stands_in_way};
ghost use Rattle.nfs_machine.specs.Locks.{is_in};
ghost use Rattle.nlm_ranges.specs.Cutting.{Inserts, cut, is_of_caller, is_touched, joined};
ghost use Rattle.nlm_ranges.specs.Held.{GoesOn, IsGivenBack, Precedes};

use crate::held::HeldLock;
use crate::piece::LockPiece;
use crate::range::LockRange;
use std::alloc::{AllocError, Global};
use std::marker::Model;

/// How many locks a piece has at most.
const PIECE_LIMIT: usize = 128;

/// Locks of one mode, in pieces.
#[derive(Drop)]
pub(crate) struct LockList {
    pieces: Vec<LockPiece>,
}

impl Model for LockList {
    ghost use Rattle.std.specs.Prelude.{List};
    ghost use Rattle.nfs_machine.specs.State.{Lock};
    ghost use Rattle.nlm_ranges.specs.Cutting.{joined};

    ghost Value = { List Lock };

    ghost view = { λ l. joined l.pieces.items };
}

impl LockList {
    /// A list without locks.
    pub(crate) fn new(alloc: Global) -> LockList
        ensures { result ≡ [] }
    {
        LockList {
            pieces: Vec::new(alloc),
        }
    }

    /// The pieces that the locks stand in.
    pub(crate) fn pieces(&self) -> &[LockPiece]
        ensures { joined result.now ≡ self.now }
    {
        &self.pieces
    }

    /// Whether there are no locks.
    pub(crate) fn is_empty(&self) -> bool
        ensures { result ≡ (length self.now == 0) }
    {
        are_empty(&self.pieces)
    }

    /// A lock that stands in the way of the range.
    pub(crate) fn in_way(&self, range: &LockRange<'_>, exclusive: bool) -> Option<&HeldLock>
        ensures none { IfNone result (list_any (stands_in_way range.now (Some exclusive)) self.now ≡ false) }
        ensures some { IfSome result (λ lock.
            Contains self.now lock.now × (stands_in_way range.now (Some exclusive) lock.now ≡ true)) }
    {
        first_in_way(&self.pieces, range, exclusive)
    }

    /// The lock of the range's owner that has this offset.
    pub(crate) fn at(&self, range: &LockRange<'_>, offset: u64) -> Option<&HeldLock>
        ensures { IfSome result (λ lock.
            Contains self.now lock.now × (is_in lock.now.range range.now.owner offset ≡ true)) }
    {
        first_at(&self.pieces, range, offset)
    }

    /// The lock of the range's owner that has the offset before the range.
    pub(crate) fn before(&self, range: &LockRange<'_>) -> Option<&HeldLock>
        ensures { IfSome result (λ lock. Precedes self.now range.now lock.now) }
    {
        let first = range.first();
        if first == 0 {
            return None;
        }
        self.at(range, first - 1)
    }

    /// The lock of the range's owner that has the offset behind the range.
    pub(crate) fn behind(&self, range: &LockRange<'_>) -> Option<&HeldLock>
        ensures { IfSome result (λ lock. GoesOn self.now range.now lock.now) }
    {
        let last = range.last();
        if last == u64::MAX {
            return None;
        }
        self.at(range, last + 1)
    }

    /// Whether a lock of the range's owner has an offset of the range.
    pub(crate) fn is_touched(&self, range: &LockRange<'_>) -> bool
        ensures { result ≡ list_any (is_touched range.now) self.now }
    {
        any_touched(&self.pieces, range)
    }

    /// What is left where the range's owner gives the range back. What a lock has behind the range is listed anew, so
    /// that it stands by its own first offset.
    pub(crate) fn without(
        &self,
        alloc: Global,
        range: &LockRange<'_>,
    ) -> Result<LockList, AllocError>
        ensures { IfOk result (λ list. IsGivenBack self.now range.now list) }
    {
        let _last = range.last();
        let Some(behind) = self.behind(range) else {
            let pieces = rest_of(alloc, &self.pieces, range)?;
            return Ok(LockList { pieces });
        };
        let wide = range.between(range.first(), behind.last());
        let rest = rest_of(alloc, &self.pieces, &wide)?;
        let more = range.between(range.last() + 1, behind.last());
        let pieces = with_lock(alloc, &rest, &more, behind.is_exclusive())?;
        Ok(LockList { pieces })
    }

    /// The list with the range's lock.
    pub(crate) fn with_lock(
        &self,
        alloc: Global,
        range: &LockRange<'_>,
        exclusive: bool,
    ) -> Result<LockList, AllocError>
        ensures { IfOk result
            (λ list. Inserts self.now (record { range = range.now; exclusive = exclusive }) list) }
    {
        let pieces = with_lock(alloc, &self.pieces, range, exclusive)?;
        Ok(LockList { pieces })
    }

    /// The locks of other callers.
    pub(crate) fn without_caller(
        &self,
        alloc: Global,
        caller_name: &[u8],
    ) -> Result<LockList, AllocError>
        ensures { IfOk result
            (λ list. list ≡ filter (λ l. not (is_of_caller caller_name.now l)) self.now) }
    {
        let pieces = others_of(alloc, &self.pieces, caller_name)?;
        Ok(LockList { pieces })
    }
}

/// Whether the pieces have no locks.
fn are_empty(pieces: &[LockPiece]) -> bool
    ensures { result ≡ (length (joined pieces.now) == 0) }
{
    for piece in pieces {
        if !piece.locks().is_empty() {
            return false;
        }
    }
    true
}

/// A lock that stands in the way of the range.
fn first_in_way<'a>(
    pieces: &'a [LockPiece],
    range: &LockRange<'_>,
    exclusive: bool,
) -> Option<&'a HeldLock>
    ensures none { IfNone result (list_any (stands_in_way range.now (Some exclusive)) (joined pieces.now) ≡ false) }
    ensures some { IfSome result (λ lock. Contains (joined pieces.now) lock.now
        × (stands_in_way range.now (Some exclusive) lock.now ≡ true)) }
{
    for piece in pieces {
        if let Some(lock) = piece.in_way(range, exclusive) {
            return Some(lock);
        }
    }
    None
}

/// The lock of the range's owner that has this offset.
fn first_at<'a>(pieces: &'a [LockPiece], range: &LockRange<'_>, offset: u64) -> Option<&'a HeldLock>
    ensures { IfSome result (λ lock. Contains (joined pieces.now) lock.now
        × (is_in lock.now.range range.now.owner offset ≡ true)) }
{
    for piece in pieces {
        if let Some(lock) = piece.at(range, offset) {
            return Some(lock);
        }
    }
    None
}

/// Whether a piece has a lock of the range's owner that has an offset of the range.
fn any_touched(pieces: &[LockPiece], range: &LockRange<'_>) -> bool
    ensures { result ≡ list_any (list_any (is_touched range.now)) pieces.now }
{
    pieces.iter().any(|piece| piece.is_touched(range))
}

/// What is left of the pieces where the range's owner gives the range back.
fn rest_of(
    alloc: Global,
    pieces: &[LockPiece],
    range: &LockRange<'_>,
) -> Result<Vec<LockPiece>, AllocError>
    ensures { IfOk result (λ rest. joined rest.items ≡ flat_map (cut range.now) (joined pieces.now)) }
{
    let mut rest = Vec::new(alloc);
    for piece in pieces {
        add_rest(alloc, &mut rest, piece, range)?;
    }
    Ok(rest)
}

/// What is left of the pieces where a caller has nothing more.
fn others_of(
    alloc: Global,
    pieces: &[LockPiece],
    caller_name: &[u8],
) -> Result<Vec<LockPiece>, AllocError>
    ensures { IfOk result (λ others. joined others.items
        ≡ filter (λ l. not (is_of_caller caller_name.now l)) (joined pieces.now)) }
{
    let mut others = Vec::new(alloc);
    for piece in pieces {
        add_others(alloc, &mut others, piece, caller_name)?;
    }
    Ok(others)
}

/// The pieces with the range's lock.
fn with_lock(
    alloc: Global,
    pieces: &[LockPiece],
    range: &LockRange<'_>,
    exclusive: bool,
) -> Result<Vec<LockPiece>, AllocError>
    ensures { IfOk result (λ new. Inserts (joined pieces.now)
        (record { range = range.now; exclusive = exclusive }) (joined new.items)) }
{
    let (before, from) = pieces.split_at(place_of(pieces, range));
    let mut new = Vec::new(alloc);
    add_pieces(alloc, &mut new, before)?;
    let Some((piece, behind)) = from.split_first() else {
        let none = LockPiece::of(alloc, Vec::new(alloc))?;
        add_locks(alloc, &mut new, none.with_lock(alloc, range, exclusive)?)?;
        return Ok(new);
    };
    add_locks(alloc, &mut new, piece.with_lock(alloc, range, exclusive)?)?;
    add_pieces(alloc, &mut new, behind)?;
    Ok(new)
}

/// The place of the last piece that begins before the range, or of the first one.
fn place_of(pieces: &[LockPiece], range: &LockRange<'_>) -> usize
    ensures { result ≤ length pieces.now }
{
    let above = pieces.partition_point(|piece| piece.first() <= range.first());
    above.saturating_sub(1)
}

/// Adds a piece. It is joined to the last where both fit into one, and left out where it is empty.
fn add_piece(alloc: Global, pieces: &mut Vec<LockPiece>, piece: LockPiece) -> Result<(), AllocError>
    ensures { OnOk result (joined pieces.new.items ≡ joined pieces.old.items ++ piece) }
{
    if piece.locks().is_empty() {
        return Ok(());
    }
    match pieces.split_last() {
        Some((last, _)) if fit_together(last, &piece) => {
            let both = LockPiece::of(alloc, last.joined_with(alloc, &piece)?)?;
            pieces.pop();
            pieces.push(both)?;
        }
        _ => pieces.push(piece)?,
    }
    Ok(())
}

/// Whether the locks of both fit into one piece.
fn fit_together(piece: &LockPiece, other: &LockPiece) -> bool {
    let locks = piece.locks().len();
    locks.saturating_add(other.locks().len()) <= PIECE_LIMIT
}

/// Adds these pieces in turn.
fn add_pieces(
    alloc: Global,
    pieces: &mut Vec<LockPiece>,
    others: &[LockPiece],
) -> Result<(), AllocError>
    ensures { OnOk result (joined pieces.new.items ≡ joined pieces.old.items ++ joined others.now) }
{
    for other in others {
        add_piece(alloc, pieces, other.clone()?)?;
    }
    Ok(())
}

/// Adds these locks, in two pieces where one can't have them.
fn add_locks(
    alloc: Global,
    pieces: &mut Vec<LockPiece>,
    mut locks: Vec<HeldLock>,
) -> Result<(), AllocError>
    ensures { OnOk result (joined pieces.new.items ≡ joined pieces.old.items ++ locks.items) }
{
    if locks.len() <= PIECE_LIMIT {
        return add_piece(alloc, pieces, LockPiece::of(alloc, locks)?);
    }
    let behind = locks.split_off(locks.len() / 2)?;
    add_piece(alloc, pieces, LockPiece::of(alloc, locks)?)?;
    add_piece(alloc, pieces, LockPiece::of(alloc, behind)?)?;
    Ok(())
}

/// Adds what is left of a piece where the range's owner gives the range back.
fn add_rest(
    alloc: Global,
    pieces: &mut Vec<LockPiece>,
    piece: &LockPiece,
    range: &LockRange<'_>,
) -> Result<(), AllocError>
    ensures { OnOk result
        (joined pieces.new.items ≡ joined pieces.old.items ++ flat_map (cut range.now) piece.now) }
{
    if !piece.is_touched(range) {
        add_piece(alloc, pieces, piece.clone()?)?;
        return Ok(());
    }
    add_locks(alloc, pieces, piece.rest(alloc, range)?)?;
    Ok(())
}

/// Adds what is left of a piece where a caller has nothing more.
fn add_others(
    alloc: Global,
    pieces: &mut Vec<LockPiece>,
    piece: &LockPiece,
    caller_name: &[u8],
) -> Result<(), AllocError>
    ensures { OnOk result (joined pieces.new.items
        ≡ joined pieces.old.items ++ filter (λ l. not (is_of_caller caller_name.now l)) piece.now) }
{
    if !piece.has_caller(caller_name) {
        add_piece(alloc, pieces, piece.clone()?)?;
        return Ok(());
    }
    add_locks(alloc, pieces, piece.others(alloc, caller_name)?)?;
    Ok(())
}
