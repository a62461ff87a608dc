//! Serving a stream of records, one after the other.

ghost use Rattle.std.specs.Prelude.{◌≡◌, ℕ, ◌+◌, ◌-◌, ◌^◌, ◌<◌, ◌≤◌, ◌⊎◌, List};
ghost use Rattle.std.specs.Prelude.{[], ◌∷◌, ◌++◌, true, false, length, Some, IfOk, IfErr, OnOk};
ghost use Rattle.std.specs.Prelude.{OnErr, IsErrOf};
ghost use Rattle.std.specs.Io.KnownBytes.{IsAtEnd};
ghost use Rattle.nfs_rpc.specs.Records.{Holds};
ghost use Rattle.nfs_rpc.specs.Streams.{one_more};
ghost use Rattle.nfs_schedule.specs.Worlds.{IsAtRest};
ghost use Rattle.nfs_streams.specs.Connections.{IsNew, bytes_of, waiting};
ghost use Rattle.nfs_streams.specs.Sent.{Adds, FailsBy};
ghost use Rattle.nfs_streams.specs.Served.{AreAnswered, AreServed, DropsMessages, EndsByFault, HasNoAnswer};
ghost use Rattle.nfs_streams.specs.Served.{KeepsSetting, ServedIsRun, ServesAll, ServesFront};
ghost use Rattle.nfs_streams.specs.Taken.{LeavesPiece, TakesPiece};

use crate::answer::answer_record;
use crate::connection::Connection;
use crate::sending::{put, send};
use crate::witness::{Unseen, Witness};
use nfs_engine::{Engine, Host};
use nfs_machine::Moments;
use nfs_rpc::stream::{Sink, Source};
use nfs_rpc::{Record, RecordError};
use nfs_schedule::Answer;
use std::alloc::{AllocError, Global};
use thiserror::Error;

/// How many bytes are read at once.
pub const BUFFER_SIZE: usize = 65_536;

/// The whole input was served.
#[derive(Clone, Copy, Debug, PartialEq, Eq)]
pub struct Served;

/// Why the input was not served to its end.
#[derive(Clone, Copy, Debug, PartialEq, Eq, Error)]
pub enum StreamFault {
    /// A read failed, or 2^64 - 1 reads were made.
    #[error("the input can't be read")]
    Read,
    /// A write failed, or took none of some bytes.
    #[error("the output can't be written")]
    Write,
    /// A fragment header brings a record above the limit.
    #[error("a record is too large")]
    TooLarge,
    /// There is no memory to take in a piece or a record, or to say that there is none.
    #[error("out of memory")]
    Memory,
}

/// What was taken in of the input.
#[derive(Clone, Copy)]
enum PieceTaken {
    /// Nothing: the input is at its end.
    End,
    /// A piece.
    Piece,
    /// A piece, in which a record is too large.
    Refused,
}

/// What becomes of the messages that calls put.
#[derive(Clone, Copy)]
pub enum Messages {
    /// They wait to be taken.
    Waiting,
    /// They are dropped, since nobody is called back.
    Dropped,
}

/// How a stream is served.
#[derive(Drop)]
pub struct Serving<'a, T> {
    pub alloc: Global,
    /// The peer's host.
    pub host: &'a Host,
    pub messages: Messages,
    /// Who sees how each record is answered.
    pub witness: &'a T,
}

/// Answers each record of the input, one after the other, to the end of the input. All answers are sent on before the
/// next read. Bytes after the last whole record are left. Where an era is full, the next one begins between two
/// records.
///
/// No call is in progress in the engine, and none is afterwards.
///
/// # Errors
///
/// `Read`, `TooLarge`: every whole record before the fault has its answer. `Write`: so has every record up to the one
/// in hand, and of these answers a beginning is written. `Memory`: every record before the one in hand, which is not
/// executed, or before the piece that was not taken in. All that was read is taken in but for such a piece.
pub fn serve_stream<C: Moments, R: Source, W: Sink>(
    alloc: Global,
    engine: &mut Engine,
    host: &Host,
    clock: &mut C,
    reader: &mut R,
    writer: &mut W,
) -> Result<Served, StreamFault>
    requires rest { IsAtRest engine.old }
    ensures rest { IsAtRest engine.new }
    // No era gets more records than it may have.
    ensures keeps { KeepsSetting engine.old engine.new }
    // Answers are those of a run of the machine, but for repeats, which have the reply that is kept.
    ensures ok { IfOk result (λ _. (input : List ℕ) → R.unread reader.old ≡ Some input
        → ServesAll C.gives host.now input clock.old clock.new engine.old engine.new
        (W.written writer.old) (W.written writer.new)) }
    ensures fault { IfErr result (λ e. (input : List ℕ) → R.unread reader.old ≡ Some input
        → ServesFront C.gives host.now input (R.unread reader.new) e clock.old clock.new engine.old engine.new
        (W.written writer.old) (W.written writer.new)) }
    // A fault of a stream is one that the stream counted, or there was no end of it.
    ensures read { IsErrOf result StreamFault.Read →
        (R.Counts.failures reader.new ≡ one_more (R.Counts.failures reader.old))
        ⊎ ((input : List ℕ) → R.unread reader.old ≡ Some input → 2 ^ 64 - 1 ≤ length input) }
    ensures write { IsErrOf result StreamFault.Write →
        W.Counts.failures writer.new ≡ one_more (W.Counts.failures writer.old) }
    // At the end all is read, and every answer is sent.
    ensures end { OnOk result (IsAtEnd (R.unread reader.new)) }
    ensures sent { OnOk result (W.all_sent writer.old ≡ true → W.all_sent writer.new ≡ true) }
{
    let serving = Serving {
        alloc,
        host,
        messages: Messages::Waiting,
        witness: &Unseen,
    };
    serve_with(&serving, engine, clock, reader, writer)
}

/// The same as `serve_stream`; messages that calls put wait to be taken, or are dropped as they come, and somebody sees
/// how each record is answered.
///
/// # Errors
///
/// Those of `serve_stream`.
pub fn serve_with<C: Moments, R: Source, W: Sink, T: Witness>(
    serving: &Serving<'_, T>,
    engine: &mut Engine,
    clock: &mut C,
    reader: &mut R,
    writer: &mut W,
) -> Result<Served, StreamFault>
    requires rest { IsAtRest engine.old }
    ensures rest { IsAtRest engine.new }
    // No era gets more records than it may have.
    ensures keeps { KeepsSetting engine.old engine.new }
    // Answers are those of a run of the machine, but for repeats, which have the reply that is kept.
    ensures ok { IfOk result (λ _. (input : List ℕ) → R.unread reader.old ≡ Some input
        → ServesAll C.gives serving.now.host.now input clock.old clock.new engine.old engine.new
        (W.written writer.old) (W.written writer.new)) }
    ensures fault { IfErr result (λ e. (input : List ℕ) → R.unread reader.old ≡ Some input
        → ServesFront C.gives serving.now.host.now input (R.unread reader.new) e clock.old clock.new
        engine.old engine.new (W.written writer.old) (W.written writer.new)) }
    // Messages that are to be dropped don't wait.
    ensures dropped { serving.now.messages ≡ Messages.Dropped → engine.old.book.outbox ≡ [] →
        engine.new.book.outbox ≡ [] }
    // A fault of a stream is one that the stream counted, or there was no end of it.
    ensures read { IsErrOf result StreamFault.Read →
        (R.Counts.failures reader.new ≡ one_more (R.Counts.failures reader.old))
        ⊎ ((input : List ℕ) → R.unread reader.old ≡ Some input → 2 ^ 64 - 1 ≤ length input) }
    ensures write { IsErrOf result StreamFault.Write →
        W.Counts.failures writer.new ≡ one_more (W.Counts.failures writer.old) }
    // At the end all is read, and every answer is sent.
    ensures end { OnOk result (IsAtEnd (R.unread reader.new)) }
    ensures sent { OnOk result (W.all_sent writer.old ≡ true → W.all_sent writer.new ≡ true) }
{
    let mut connection = Connection::new(serving.alloc);
    let Ok(mut buffer) = Vec::from_elem(serving.alloc, 0, BUFFER_SIZE) else {
        return Err(StreamFault::Memory);
    };
    serve_pieces(
        serving,
        engine,
        clock,
        reader,
        writer,
        &mut connection,
        buffer.as_mut_slice(),
    )
}

/// What was served, arrival by arrival, is a run of the machine over the records of what was executed.
pub fn served_is_a_run()
    ensures { ServedIsRun }
{}

/// Takes the input in piece by piece, as many bytes at once as the buffer has, and answers the records.
fn serve_pieces<C: Moments, R: Source, W: Sink, T: Witness>(
    serving: &Serving<'_, T>,
    engine: &mut Engine,
    clock: &mut C,
    reader: &mut R,
    writer: &mut W,
    connection: &mut Connection,
    buffer: &mut [u8],
) -> Result<Served, StreamFault>
    requires rest { IsAtRest engine.old }
    requires buffer { length buffer.old ≡ BUFFER_SIZE }
    requires new { IsNew connection.old }
    ensures rest { IsAtRest engine.new }
    ensures keeps { KeepsSetting engine.old engine.new }
    ensures ok { IfOk result (λ _. (input : List ℕ) → R.unread reader.old ≡ Some input
        → ServesAll C.gives serving.now.host.now input clock.old clock.new engine.old engine.new
        (W.written writer.old) (W.written writer.new)) }
    ensures fault { IfErr result (λ e. (input : List ℕ) → R.unread reader.old ≡ Some input
        → ServesFront C.gives serving.now.host.now input (R.unread reader.new) e clock.old clock.new
        engine.old engine.new (W.written writer.old) (W.written writer.new)) }
    ensures dropped { serving.now.messages ≡ Messages.Dropped → engine.old.book.outbox ≡ [] →
        engine.new.book.outbox ≡ [] }
    ensures read { IsErrOf result StreamFault.Read →
        (R.Counts.failures reader.new ≡ one_more (R.Counts.failures reader.old))
        ⊎ ((input : List ℕ) → R.unread reader.old ≡ Some input → 2 ^ 64 - 1 ≤ length input) }
    ensures write { IsErrOf result StreamFault.Write →
        W.Counts.failures writer.new ≡ one_more (W.Counts.failures writer.old) }
    ensures end { OnOk result (IsAtEnd (R.unread reader.new)) }
    ensures sent { OnOk result (W.all_sent writer.old ≡ true → W.all_sent writer.new ≡ true) }
{
    'pieces: for _reads in 0..u64::MAX {
        let taken = read_piece(reader, connection, buffer)?;
        if let PieceTaken::End = taken {
            return Ok(Served);
        }
        serve_records(serving, engine, clock, writer, connection)?;
        if let PieceTaken::Refused = taken {
            return Err(StreamFault::TooLarge);
        }
    }
    Err(StreamFault::Read)
}

/// Reads a piece and takes it in, when every record that had come is answered and every answer is sent. A fault leaves
/// the connection as it was.
fn read_piece<R: Source>(
    reader: &mut R,
    connection: &mut Connection,
    buffer: &mut [u8],
) -> Result<PieceTaken, StreamFault>
    requires buffer { 0 < length buffer.old }
    requires answered { connection.old.records.queued ≡ [] }
    requires sent { waiting connection.old ≡ [] }
    ensures taken { IfOk result
        (λ taken. TakesPiece taken connection.old.records connection.new.records
        (R.unread reader.old) (R.unread reader.new)) }
    ensures answers { connection.new ≡ record connection.old { records = connection.new.records } }
    ensures ok { OnOk result (R.Counts.failures reader.new ≡ R.Counts.failures reader.old) }
    ensures err { OnErr result (connection.new ≡ connection.old) }
    ensures left { IfErr result
        (λ e. LeavesPiece e (length buffer.old) (R.unread reader.old) (R.unread reader.new)) }
    ensures fault { IfErr result (λ e.
        ((e ≡ StreamFault.Read) × (R.Counts.failures reader.new ≡ one_more (R.Counts.failures reader.old)))
        ⊎ (e ≡ StreamFault.Memory)) }
{
    let Ok(count) = reader.read(buffer) else {
        return Err(StreamFault::Read);
    };
    if count == 0 {
        return Ok(PieceTaken::End);
    }
    match connection.take_in(&buffer[..count]) {
        Ok(()) => Ok(PieceTaken::Piece),
        Err(RecordError::TooLarge) => Ok(PieceTaken::Refused),
        Err(RecordError::Memory) => Err(StreamFault::Memory),
    }
}

/// Answers the whole records that have come, one after the other, to the last, and sends all answers on.
fn serve_records<C: Moments, W: Sink, T: Witness>(
    serving: &Serving<'_, T>,
    engine: &mut Engine,
    clock: &mut C,
    writer: &mut W,
    connection: &mut Connection,
) -> Result<(), StreamFault>
    requires rest { IsAtRest engine.old }
    requires none { waiting connection.old ≡ [] }
    requires room { connection.old.full ≡ false }
    ensures rest { IsAtRest engine.new }
    ensures dropped { serving.now.messages ≡ Messages.Dropped → engine.old.book.outbox ≡ [] →
        engine.new.book.outbox ≡ [] }
    ensures goes { OnOk result
        (AreServed C.gives serving.now.host.now connection.old.records.queued clock.old clock.new
        engine.old engine.new (W.written writer.old) (W.written writer.new)) }
    ensures all { OnOk result (connection.new.records.queued ≡ []) }
    ensures none { OnOk result (waiting connection.new ≡ []) }
    ensures room { OnOk result (connection.new.full ≡ false) }
    ensures sent { OnOk result (W.all_sent writer.old ≡ true → W.all_sent writer.new ≡ true) }
    ensures holds { OnOk result
        ((stream : List ℕ) (given : List (List ℕ)) → Holds connection.old.records stream given →
        Holds connection.new.records stream (given ++ connection.old.records.queued)) }
    ensures ok { OnOk result (W.Counts.failures writer.new ≡ W.Counts.failures writer.old) }
    ensures stops { IfErr result
        (λ e. EndsByFault C.gives serving.now.host.now e connection.old.records.queued clock.old clock.new
        engine.old engine.new (W.written writer.old) (W.written writer.new)) }
    ensures fault { IfErr result (λ e.
        ((e ≡ StreamFault.Write) × (W.Counts.failures writer.new ≡ one_more (W.Counts.failures writer.old)))
        ⊎ (e ≡ StreamFault.Memory)) }
{
    'records: while let Some(record) = connection.next() {
        serve_record(serving, engine, clock, writer, connection, record)?;
    }
    send(writer, connection)
}

/// Answers one record, at the clock's next moment. Its answer waits, or is sent on.
fn serve_record<C: Moments, W: Sink, T: Witness>(
    serving: &Serving<'_, T>,
    engine: &mut Engine,
    clock: &mut C,
    writer: &mut W,
    connection: &mut Connection,
    message: Record,
) -> Result<(), StreamFault>
    requires rest { IsAtRest engine.old }
    requires room { connection.old.full ≡ false }
    ensures rest { IsAtRest engine.new }
    ensures room { OnOk result (connection.new.full ≡ false) }
    ensures records { connection.new.records ≡ connection.old.records }
    ensures sent { OnOk result (W.all_sent writer.old ≡ true → W.all_sent writer.new ≡ true) }
    ensures dropped { serving.now.messages ≡ Messages.Dropped → engine.old.book.outbox ≡ [] →
        engine.new.book.outbox ≡ [] }
    ensures adds { OnOk result
        (Adds C.gives serving.now.host.now message clock.old clock.new engine.old engine.new
        (W.written writer.old) (W.written writer.new) (waiting connection.old) (waiting connection.new)) }
    ensures ok { OnOk result (W.Counts.failures writer.new ≡ W.Counts.failures writer.old) }
    ensures fails { IfErr result
        (λ e. FailsBy C.gives serving.now.host.now e message clock.old clock.new engine.old engine.new
        (W.written writer.old) (W.written writer.new) (waiting connection.old)) }
    ensures fault { IfErr result (λ e.
        ((e ≡ StreamFault.Write) × (W.Counts.failures writer.new ≡ one_more (W.Counts.failures writer.old)))
        ⊎ (e ≡ StreamFault.Memory)) }
{
    match answer_next(serving, engine, clock, message) {
        Ok(answer) => put(writer, connection, answer),
        Err(_) => {
            send(writer, connection)?;
            Err(StreamFault::Memory)
        }
    }
}

/// The answer to a record, as `answer_record` gives it, which is seen. Messages are dropped where they shall be.
///
/// # Errors
///
/// Those of `answer_record`.
fn answer_next<C: Moments, T: Witness>(
    serving: &Serving<'_, T>,
    engine: &mut Engine,
    clock: &mut C,
    message: Record,
) -> Result<Option<Answer>, AllocError>
    requires rest { IsAtRest engine.old }
    ensures rest { IsAtRest engine.new }
    ensures dropped { serving.now.messages ≡ Messages.Dropped → engine.old.book.outbox ≡ [] →
        engine.new.book.outbox ≡ [] }
    ensures ok { IfOk result
        (λ answer. AreAnswered C.gives serving.now.host.now (message ∷ []) clock.old clock.new engine.old engine.new
        (bytes_of answer)) }
    ensures err { OnErr result
        (HasNoAnswer C.gives (message ∷ []) clock.old clock.new engine.old engine.new) }
{
    let answer = answer_record(serving.alloc, engine, serving.host, clock, message)?;
    serving.witness.saw(&answer, engine);
    if let Messages::Dropped = serving.messages {
        drop_messages(engine);
    }
    Ok(answer)
}

/// Drops the messages that wait.
fn drop_messages(engine: &mut Engine)
    ensures { DropsMessages engine.old engine.new }
{
    'messages: while let Some(posted) = engine.take_message() {
        drop(posted);
    }
}
