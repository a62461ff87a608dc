//! Record marking (RFC 5531, section 11): a stream comes in pieces and gives records.

ghost use Rattle.nfs_rpc.specs.Held.{IsPlace, IsNext, LeadsOn, Advances, Adds};
ghost use Rattle.std.specs.Option.{option_copied};
ghost use Rattle.nfs_rpc.specs.Records.{Holds, IsTooLarge, StreamsSplitOnce, TooLargeStays};
ghost use Rattle.std.specs.Prelude.{◌≡◌, ℕ, ◌<◌, ◌≤◌, ◌+◌, ◌^◌, List, [], ◌∷◌};
ghost use Rattle.std.specs.Prelude.{◌++◌, length, IfOk, OnOk, IfSome, OnErr, IsErrOf, IfNone};

use bytes::Bytes;
use std::alloc::{AllocError, Global};
use std::collections::VecDeque;
use std::marker::Model;
use std::mem;
use thiserror::Error;

/// The greatest length of a record, in bytes, headers of fragments not counted.
pub const RECORD_LIMIT: usize = 73_728;

/// The bit of a fragment's header that marks its record's last fragment.
pub(crate) const LAST_FRAGMENT: u32 = 0x8000_0000;

/// One record's bytes, shared.
pub type Record = Bytes;

/// Why a piece of a stream was not taken in.
#[derive(Clone, Copy, Debug, PartialEq, Eq, Error)]
pub enum RecordError {
    #[error("a fragment header brings the record above {RECORD_LIMIT} bytes")]
    TooLarge,
    #[error("out of memory")]
    Memory,
}

/// Where in a fragment a stream stands.
#[derive(Clone, Copy)]
enum FragmentState {
    /// So many bytes of the header have come, which make this number.
    Header { count: usize, number: u32 },
    /// The header has come: whether the fragment is the record's last, and how many bytes of its body are to come.
    Body { last: bool, missing: usize },
    /// The header brought the record above the limit.
    Refused,
}

/// The records of a stream that comes in pieces.
#[derive(Drop)]
pub struct Records {
    alloc: Global,
    queued: VecDeque<Record>,
    content: Vec<u8>,
    place: FragmentState,
}

impl Model for Records {
    ghost use Rattle.nfs_rpc.specs.Records.{RecordsValue};

    ghost Value = { RecordsValue };

    ghost use Rattle.nfs_rpc.specs.Held.{value_of, IsSound};

    ghost view = { value_of };

    ghost invariant = { IsSound };
}

impl FragmentState {
    ghost use Rattle.std.specs.Prelude.{Bool, MatchBool, ◌≢◌};
    ghost use Rattle.nfs_rpc.specs.declared.marking.FragmentState.TheVariants.{Refused};
    ghost use Rattle.nfs_rpc.specs.Records.{EndsInBody, EndsInHeader};
    ghost use Rattle.nfs_rpc.specs.Held.{LeadToNext, IsNext};

    /// The place before a fragment.
    const START: FragmentState = FragmentState::Header {
        count: 0,
        number: 0,
    };

    fn is_refused(&self) -> bool
        ensures { MatchBool result (self.now ≡ Refused) (self.now ≢ Refused) }
    {
        matches!(self, FragmentState::Refused)
    }

    /// The place in a fragment where so many bytes of the body are missing. None where the record is whole.
    fn in_body(last: bool, missing: usize) -> Option<FragmentState>
        ensures leads { (content bytes : List ℕ) → EndsInBody last missing content bytes
            → length content + missing ≤ RECORD_LIMIT → LeadToNext bytes content result }
        ensures sound { (size : ℕ) → size + missing ≤ RECORD_LIMIT → IsNext result size }
    {
        if missing > 0 {
            Some(FragmentState::Body { last, missing })
        } else if last {
            None
        } else {
            Some(FragmentState::START)
        }
    }

    /// The place behind a byte of a header, where so many bytes of the record came before the header.
    fn behind_byte(count: usize, number: u32, byte: u8, size: usize) -> Option<FragmentState>
        requires { (count < 4) × (number < 256 ^ count) × (size ≤ RECORD_LIMIT) }
        ensures leads { (content bytes : List ℕ) → EndsInHeader count number content bytes
            → length content ≡ size → LeadToNext (bytes ++ byte ∷ []) content result }
        ensures sound { IsNext result size }
    {
        let number = number * 256 + u32::from(byte);
        if count < 3 {
            Some(FragmentState::Header {
                count: count + 1,
                number,
            })
        } else {
            FragmentState::behind_header(number, size)
        }
    }

    /// The place behind a header, where so many bytes of the record came before it.
    fn behind_header(number: u32, size: usize) -> Option<FragmentState>
        requires { size ≤ RECORD_LIMIT }
        ensures leads { (content bytes : List ℕ) → EndsInHeader 4 number content bytes
            → length content ≡ size → LeadToNext bytes content result }
        ensures sound { IsNext result size }
    {
        let missing = (number % LAST_FRAGMENT) as usize;
        if missing > RECORD_LIMIT - size {
            Some(FragmentState::Refused)
        } else {
            FragmentState::in_body(number >= LAST_FRAGMENT, missing)
        }
    }
}

/// Takes what it can from the front of a piece that is not empty: a byte of a header, or bytes of a body.
/// Gives the place behind it, None where the record is whole, and what is left of the piece.
fn step<'p>(
    content: &mut Vec<u8>,
    place: FragmentState,
    piece: &'p [u8],
) -> Result<(Option<FragmentState>, &'p [u8]), AllocError>
    requires some { 0 < length piece.now }
    requires sound { IsPlace place (length content.old.items) }
    ensures ok { IfOk result (λ r. LeadsOn piece.entry.now r.1.now content.old.items content.new.items place r.0) }
    ensures shorter { IfOk result (λ r. length r.1.now < length piece.entry.now) }
    ensures sound { IfOk result (λ r. IsNext r.0 (length content.new.items)) }
    ensures err { OnErr result (content.new.items ≡ content.old.items) }
{
    match place {
        FragmentState::Header { count, number } => {
            let next = FragmentState::behind_byte(count, number, piece[0], content.len());
            Ok((next, &piece[1..]))
        }
        FragmentState::Body { last, missing } => {
            let size = missing.min(piece.len());
            let (taken, left) = piece.split_at(size);
            // Room for the whole fragment at once, so that its bytes are moved no more.
            content.reserve(missing)?;
            content.extend_from_slice(taken)?;
            Ok((FragmentState::in_body(last, missing - size), left))
        }
        FragmentState::Refused => Ok((Some(FragmentState::Refused), &[])),
    }
}

/// Takes a piece in, up to the end of the record where it is whole then. Gives what is left behind that end.
fn advance<'p>(
    content: &mut Vec<u8>,
    place: &mut FragmentState,
    piece: &'p [u8],
) -> Result<Option<&'p [u8]>, AllocError>
    requires { IsPlace place.old (length content.old.items) }
    ensures ok { IfOk result
        (λ r. Advances piece.entry.now content.old.items content.new.items place.old place.new (option_copied r)) }
    ensures sound { IsPlace place.new (length content.new.items) }
    ensures grown { (more : List ℕ) × (content.new.items ≡ content.old.items ++ more) }
{
    let mut left = piece;
    'steps: while !left.is_empty() {
        let (next, rest) = step(content, *place, left)?;
        left = rest;
        match next {
            Some(next) => *place = next,
            None => {
                *place = FragmentState::START;
                return Ok(Some(left));
            }
        }
    }
    Ok(None)
}

/// The records of a stream of which this is all that has come.
fn records_of(alloc: Global, stream: &[u8]) -> Result<Records, AllocError>
    ensures { IfOk result (λ r. Holds r stream.now []) }
{
    let mut queued = VecDeque::new(alloc);
    let mut content = Vec::new(alloc);
    let mut place = FragmentState::START;
    let mut rest = stream;
    'records: while let Some(left) = advance(&mut content, &mut place, rest)? {
        let whole = mem::replace(&mut content, Vec::new(alloc));
        queued.push_back(Bytes::from_vec(whole)?)?;
        rest = left;
    }
    Ok(Records {
        alloc,
        queued,
        content,
        place,
    })
}

/// Takes a piece in. Where memory is refused no record is added, and what had come of the next one stays in front.
fn take_in(
    alloc: Global,
    queued: &mut VecDeque<Record>,
    content: &mut Vec<u8>,
    place: &mut FragmentState,
    piece: &[u8],
) -> Result<(), AllocError>
    requires { IsPlace place.old (length content.old.items) }
    ensures ok { OnOk result ((records : List (List ℕ)) × (queued.new.items ≡ queued.old.items ++ records)
        × Adds piece.now content.old.items content.new.items place.old place.new records) }
    ensures sound { OnOk result (IsPlace place.new (length content.new.items)) }
    ensures queue { OnErr result (queued.new.items ≡ queued.old.items) }
    ensures front { OnErr result ((more : List ℕ) × (content.new.items ≡ content.old.items ++ more)) }
{
    let Some(left) = advance(content, place, piece)? else {
        return Ok(());
    };
    let later = records_of(alloc, left)?;
    queued.reserve(later.queued.len() + 1)?;
    let whole = mem::replace(content, Vec::new(alloc));
    match Bytes::from_vec(whole) {
        Ok(record) => queued.push_back_reserved(record),
        Err(refused) => {
            *content = refused.value;
            return Err(AllocError);
        }
    }
    let Records {
        alloc: _,
        queued: mut others,
        content: next,
        place: behind,
    } = later;
    let Ok(()) = queued.append(&mut others) else {
        unreachable!()
    };
    *content = next;
    *place = behind;
    Ok(())
}

impl Records {
    ghost use Rattle.nfs_rpc.specs.declared.marking.FragmentState.TheVariants.{Refused};

    /// A stream of which nothing has come yet.
    pub fn new(alloc: Global) -> Self
        ensures { Holds result [] [] }
    {
        Records {
            alloc,
            queued: VecDeque::new(alloc),
            content: Vec::new(alloc),
            place: FragmentState::START,
        }
    }

    /// Takes the next piece of the stream in. `TooLarge` where a fragment header brings a record above the limit, and
    /// from then on; the records before it are still given. At `Memory` nothing of the piece is taken.
    pub fn feed(&mut self, piece: &[u8]) -> Result<(), RecordError>
        // What has come is the stream and the piece.
        ensures ok { OnOk result ((stream : List ℕ) (given : List (List ℕ)) → Holds self.old stream given
            → Holds self.new (stream ++ piece.now) given × ¬ IsTooLarge (stream ++ piece.now)) }
        ensures too_large { IsErrOf result RecordError.TooLarge
            → (stream : List ℕ) (given : List (List ℕ)) → Holds self.old stream given
            → Holds self.new (stream ++ piece.now) given × IsTooLarge (stream ++ piece.now) }
        ensures memory { IsErrOf result RecordError.Memory → self.new ≡ self.old }
        // Once refused, it refuses every later piece, and stays as it is.
        ensures refuses { IsErrOf result RecordError.TooLarge → self.new.place ≡ Refused }
        ensures stays { self.old.place ≡ Refused → IsErrOf result RecordError.TooLarge × (self.new ≡ self.old) }
    {
        if self.place.is_refused() {
            return Err(RecordError::TooLarge);
        }
        let size = self.content.len();
        let place = self.place;
        let Ok(()) = take_in(
            self.alloc,
            &mut self.queued,
            &mut self.content,
            &mut self.place,
            piece,
        ) else {
            self.content.truncate(size);
            self.place = place;
            return Err(RecordError::Memory);
        };
        if self.place.is_refused() {
            Err(RecordError::TooLarge)
        } else {
            Ok(())
        }
    }

    /// The next whole record of the stream. It takes no memory.
    pub fn next(&mut self) -> Option<Record>
        ensures some { IfSome result (λ r. self.old ≡ record self.new { queued = r ∷ self.new.queued }) }
        ensures gives { IfSome result (λ r.
            (stream : List ℕ) (given : List (List ℕ)) → Holds self.old stream given
            → Holds self.new stream (given ++ r ∷ [])) }
        ensures none { IfNone result ((self.old.queued ≡ []) × (self.new ≡ self.old)) }
    {
        self.queued.pop_front()
    }
}

/// The law that a stream has one splitting: however it comes in pieces, its records and its rest are the same.
pub fn streams_split_once()
    ensures { StreamsSplitOnce }
{}

/// The law that a stream that is too large stays so: once `feed` has answered `TooLarge`, it does at every later piece.
pub fn too_large_stays()
    ensures { TooLargeStays }
{}
