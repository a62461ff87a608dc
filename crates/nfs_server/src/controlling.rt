//! Exports that are replaced while the server runs, as lines of an operator say.

ghost use Rattle.std.specs.Prelude.{◌≡◌, ◌⊎◌, ◌++◌, ◌∷◌, [], ℕ, List, Option, IfErr, IfOk, OnErr, OnOk, Some, codes};
ghost use Rattle.std.specs.Prelude.{false, true};
ghost use Rattle.std.specs.Io.KnownBytes.{Appends};
ghost use Rattle.nfs_rpc.specs.Streams.{one_more};
ghost use Rattle.nfs_streams.specs.Sent.{WritesPart};
ghost use Rattle.nfs_machine.specs.Exports.{ExportValue};
ghost use Rattle.nfs_server.specs.Control.{ComesTo, Controls, Finishes, Hears, HoldsLine, IsAnswered, IsCompared};
ghost use Rattle.nfs_server.specs.Control.{IsRefusal, LacksMemory, Stands, Stops, StopsBehind, Takes, Tells, bytes_of};
ghost use Rattle.nfs_server.specs.Control.{nothing_said};
ghost use Rattle.nfs_server.specs.ExportTexts.{Parts};

use crate::changes::changes_line;
use crate::commands::{Commands, Taken};
use nfs_machine::{ExportError, Exports};
use nfs_rpc::stream::{Sink, Source, StreamFailed};
use std::alloc::{AllocError, Global};
use std::marker::Model;

/// How many bytes are read at once.
const PIECE_SIZE: usize = 1_024;

/// What is answered where exports are the server's now.
const APPLIED_LINE: &[u8] = b"applied\n";

/// What is answered for want of memory.
const OUT_OF_MEMORY_LINE: &[u8] = b"refused: out of memory\n";

/// What stands before what is wrong with exports.
const REFUSED_WORD: &[u8] = b"refused: ";

/// What is answered to a line that is no command.
const UNKNOWN_LINE: &[u8] = b"unknown command\n";

/// What became of exports that were handed in.
#[derive(Clone, Copy, Debug, PartialEq, Eq)]
pub enum Applied {
    /// They are the server's exports now.
    Executed,
    /// There was no memory for that.
    Refused,
}

/// What ended it.
#[derive(Clone, Copy, Debug, PartialEq, Eq)]
pub enum ControlEnd {
    /// The input's end.
    Input,
    /// A read that failed, or 2^64 - 1 reads.
    Read,
    /// A write that failed.
    Write,
    /// A line that asks for the program's end.
    Asked,
}

/// What a line is answered.
#[derive(Drop)]
pub(crate) enum ControlAnswer {
    /// Nothing.
    Silent,
    Applied,
    /// The line that says what exports would change.
    Changes(Vec<u8>),
    OutOfMemory,
    /// The line that says what is wrong with the exports.
    Refused(Vec<u8>),
    Unknown,
}

impl ControlAnswer {
    fn bytes(&self) -> &[u8]
        ensures { result.now ≡ bytes_of self.now }
    {
        match self {
            ControlAnswer::Silent => &[],
            ControlAnswer::Applied => APPLIED_LINE,
            ControlAnswer::Changes(line) => line.as_slice(),
            ControlAnswer::OutOfMemory => OUT_OF_MEMORY_LINE,
            ControlAnswer::Refused(line) => line.as_slice(),
            ControlAnswer::Unknown => UNKNOWN_LINE,
        }
    }
}

/// Does what the lines of the input say, and answers them. `add PATH,MODE,HOST[,HOST..]` adds an export to a list, and
/// is answered only where there is no memory for it; `check` tells what the list would change of the exports that
/// stand, at first these; `apply` hands the list in and empties it. Each answer is a line that is written and sent on
/// before the next line is looked at. It ends with the input, at the line `end`, which is not answered, or where
/// reading or writing fails; and it gives which.
pub fn control<I: Source, O: Sink, F: FnMut(Exports) -> Applied>(
    alloc: Global,
    standing: Exports,
    reader: &mut I,
    writer: &mut O,
    apply: F,
) -> ControlEnd
    requires { F.IsAlwaysCallable apply }
    ensures { Controls F.step standing apply result
        (record {
          unread = I.unread reader.old;
          written = O.written writer.old;
          read_failures = I.Counts.failures reader.old;
          write_failures = O.Counts.failures writer.old;
          all_sent = O.all_sent writer.old;
        })
        (record {
          unread = I.unread reader.new;
          written = O.written writer.new;
          read_failures = I.Counts.failures reader.new;
          write_failures = O.Counts.failures writer.new;
          all_sent = O.all_sent writer.new;
        }) }
{
    let mut apply = apply;
    let mut dialogue = Dialogue::new(alloc, standing);
    dialogue.run(alloc, reader, writer, &mut apply)
}

/// What was said so far: the exports that were added and those that stand, and a line that is not ended.
#[derive(Drop)]
struct Dialogue {
    commands: Commands,
    standing: Exports,
    /// None where there was no memory for it.
    line: Option<Vec<u8>>,
}

impl Model for Dialogue {
    ghost use Rattle.std.specs.Option.{option_map};
    ghost use Rattle.nfs_server.specs.Control.{DialogueValue};

    ghost Value = { DialogueValue };

    ghost view = { λ d. record {
      lists = record { added = d.commands; standing = d.standing };
      held = option_map (λ line. line.items) d.line;
    } };
}

impl Dialogue {
    /// Nothing was said, and these exports stand.
    fn new(alloc: Global, standing: Exports) -> Dialogue
        ensures { result ≡ nothing_said standing }
    {
        Dialogue {
            commands: Commands::new(alloc),
            standing,
            line: Some(Vec::new(alloc)),
        }
    }

    /// Reads the input piece by piece, and answers its lines.
    fn run<I: Source, O: Sink, F: FnMut(Exports) -> Applied>(
        &mut self,
        alloc: Global,
        reader: &mut I,
        writer: &mut O,
        apply: &mut F,
    ) -> ControlEnd
        requires callable { F.IsAlwaysCallable apply.old }
        requires first { self.old ≡ nothing_said self.old.lists.standing }
        ensures { Controls F.step self.old.lists.standing apply.old result
            (record {
              unread = I.unread reader.old;
              written = O.written writer.old;
              read_failures = I.Counts.failures reader.old;
              write_failures = O.Counts.failures writer.old;
              all_sent = O.all_sent writer.old;
            })
            (record {
              unread = I.unread reader.new;
              written = O.written writer.new;
              read_failures = I.Counts.failures reader.new;
              write_failures = O.Counts.failures writer.new;
              all_sent = O.all_sent writer.new;
            }) }
    {
        let mut buffer = [0u8; PIECE_SIZE];
        'pieces: for _reads in 0..u64::MAX {
            let Ok(count) = reader.read(&mut buffer) else {
                return ControlEnd::Read;
            };
            if count == 0 {
                return self.finish(alloc, writer, apply);
            }
            match self.take_in(alloc, &buffer[..count], writer, apply) {
                Ok(()) => {}
                Err(ended) => return ended,
            }
        }
        ControlEnd::Read
    }

    /// Takes a piece of the input in, and answers the lines that end in it.
    ///
    /// # Errors
    ///
    /// What ended it: an answer that can't be written, or a line that asks for that.
    fn take_in<O: Sink, F: FnMut(Exports) -> Applied>(
        &mut self,
        alloc: Global,
        piece: &[u8],
        writer: &mut O,
        apply: &mut F,
    ) -> Result<(), ControlEnd>
        requires { F.IsAlwaysCallable apply.old }
        ensures callable { F.IsAlwaysCallable apply.new }
        ensures ok { OnOk result ((exports : List ExportValue) (caller : F) (seen : List ℕ)
            (before : Option (List ℕ)) →
            Stands F.step exports caller seen self.old apply.old before (O.written writer.old) →
            Stands F.step exports caller (seen ++ piece.now) self.new apply.new before (O.written writer.new)) }
        ensures err { IfErr result (λ ended. (exports : List ExportValue) (caller : F) (seen : List ℕ)
            (before : Option (List ℕ)) →
            Stands F.step exports caller seen self.old apply.old before (O.written writer.old) →
            (part : List ℕ) × (unseen : List ℕ) × (piece.now ≡ part ++ unseen) ×
            Hears F.step exports caller ended (seen ++ part) before (O.written writer.new)) }
        ensures sent { OnOk result (O.all_sent writer.old ≡ true → O.all_sent writer.new ≡ true) }
        ensures asked { IfErr result (λ ended. ended ≡ ControlEnd.Asked → O.all_sent writer.old ≡ true →
            O.all_sent writer.new ≡ true) }
        ensures fine { OnOk result (O.Counts.failures writer.new ≡ O.Counts.failures writer.old) }
        ensures stops { IfErr result (λ ended.
            Stops ended (O.Counts.failures writer.old) (O.Counts.failures writer.new)) }
    {
        'bytes: for byte in piece {
            match self.take_byte(alloc, *byte, writer, apply) {
                Ok(()) => {}
                Err(ended) => return Err(ended),
            }
        }
        Ok(())
    }

    /// Takes a byte of the input in, and answers the line that ends with it.
    ///
    /// # Errors
    ///
    /// As `take_in`.
    fn take_byte<O: Sink, F: FnMut(Exports) -> Applied>(
        &mut self,
        alloc: Global,
        byte: u8,
        writer: &mut O,
        apply: &mut F,
    ) -> Result<(), ControlEnd>
        requires { F.IsAlwaysCallable apply.old }
        ensures callable { F.IsAlwaysCallable apply.new }
        ensures ok { OnOk result ((exports : List ExportValue) (caller : F) (seen : List ℕ)
            (before : Option (List ℕ)) →
            Stands F.step exports caller seen self.old apply.old before (O.written writer.old) →
            Stands F.step exports caller (seen ++ byte ∷ []) self.new apply.new before (O.written writer.new)) }
        ensures err { IfErr result (λ ended. (exports : List ExportValue) (caller : F) (seen : List ℕ)
            (before : Option (List ℕ)) →
            Stands F.step exports caller seen self.old apply.old before (O.written writer.old) →
            Hears F.step exports caller ended (seen ++ byte ∷ []) before (O.written writer.new)) }
        ensures sent { OnOk result (O.all_sent writer.old ≡ true → O.all_sent writer.new ≡ true) }
        ensures asked { IfErr result (λ ended. ended ≡ ControlEnd.Asked → O.all_sent writer.old ≡ true →
            O.all_sent writer.new ≡ true) }
        ensures fine { OnOk result (O.Counts.failures writer.new ≡ O.Counts.failures writer.old) }
        ensures stops { IfErr result (λ ended.
            Stops ended (O.Counts.failures writer.old) (O.Counts.failures writer.new)) }
    {
        if byte == b'\n' {
            return self.answer(alloc, writer, apply);
        }
        self.push(byte);
        Ok(())
    }

    /// Answers what no newline has ended, if it is anything.
    fn finish<O: Sink, F: FnMut(Exports) -> Applied>(
        &mut self,
        alloc: Global,
        writer: &mut O,
        apply: &mut F,
    ) -> ControlEnd
        requires { F.IsAlwaysCallable apply.old }
        ensures hears { (exports : List ExportValue) (caller : F) (seen : List ℕ) (before : Option (List ℕ)) →
            Stands F.step exports caller seen self.old apply.old before (O.written writer.old) →
            Hears F.step exports caller result seen before (O.written writer.new) }
        ensures sent { result ≡ ControlEnd.Input → O.all_sent writer.old ≡ true → O.all_sent writer.new ≡ true }
        ensures asked { result ≡ ControlEnd.Asked → O.all_sent writer.old ≡ true → O.all_sent writer.new ≡ true }
        ensures counts { Finishes result (O.Counts.failures writer.old) (O.Counts.failures writer.new) }
    {
        if self.is_at_start() {
            return ControlEnd::Input;
        }
        match self.answer(alloc, writer, apply) {
            Ok(()) => ControlEnd::Input,
            Err(ended) => ended,
        }
    }

    /// Whether nothing has come of the line.
    fn is_at_start(&self) -> bool
        ensures yes { result ≡ true → self.now.held ≡ Some [] }
        ensures no { result ≡ false → self.now.held ≡ Some [] → ⊥ }
    {
        match &self.line {
            Some(line) => line.is_empty(),
            None => false,
        }
    }

    /// A byte more of the line.
    fn push(&mut self, byte: u8)
        ensures lists { self.new.lists ≡ self.old.lists }
        ensures line { (rest : List ℕ) → HoldsLine self.old.held rest →
            HoldsLine self.new.held (rest ++ byte ∷ []) }
    {
        if let Some(line) = &mut self.line {
            match line.push(byte) {
                Ok(()) => {}
                Err(_) => self.line = None,
            }
        }
    }

    /// Answers the line, and begins the next one.
    ///
    /// # Errors
    ///
    /// What ended it: the answer can't be written, or the line asks for that.
    fn answer<O: Sink, F: FnMut(Exports) -> Applied>(
        &mut self,
        alloc: Global,
        writer: &mut O,
        apply: &mut F,
    ) -> Result<(), ControlEnd>
        requires { F.IsAlwaysCallable apply.old }
        ensures callable { F.IsAlwaysCallable apply.new }
        ensures line { HoldsLine self.new.held [] }
        ensures ok { OnOk result ((line : List ℕ) → HoldsLine self.old.held line →
            (bytes : List ℕ) × Appends (O.written writer.old) (O.written writer.new) bytes ×
            IsAnswered F.step self.old.lists apply.old line bytes self.new.lists apply.new) }
        ensures err { IfErr result (λ ended. (line : List ℕ) → HoldsLine self.old.held line →
            StopsBehind F.step self.old.lists apply.old line ended self.new.lists apply.new
            (O.written writer.old) (O.written writer.new)) }
        ensures sent { OnOk result (O.all_sent writer.old ≡ true → O.all_sent writer.new ≡ true) }
        ensures asked { IfErr result (λ ended. ended ≡ ControlEnd.Asked → O.all_sent writer.old ≡ true →
            O.all_sent writer.new ≡ true) }
        ensures fine { OnOk result (O.Counts.failures writer.new ≡ O.Counts.failures writer.old) }
        ensures stops { IfErr result (λ ended.
            Stops ended (O.Counts.failures writer.old) (O.Counts.failures writer.new)) }
    {
        let answered = self.answer_of(alloc, apply);
        self.line = Some(Vec::new(alloc));
        let Some(answer) = answered else {
            return Err(ControlEnd::Asked);
        };
        let sent = send(writer, answer.bytes());
        drop(answer);
        let Ok(()) = sent else {
            return Err(ControlEnd::Write);
        };
        Ok(())
    }

    /// What the line is answered; None where it asks for the end.
    fn answer_of<F: FnMut(Exports) -> Applied>(
        &mut self,
        alloc: Global,
        apply: &mut F,
    ) -> Option<ControlAnswer>
        requires { F.IsAlwaysCallable apply.old }
        ensures callable { F.IsAlwaysCallable apply.new }
        ensures answers { (line : List ℕ) → HoldsLine self.old.held line →
            ComesTo F.step self.old.lists apply.old line result self.new.lists apply.new }
    {
        match &self.line {
            Some(line) => {
                let taken = self.commands.take(alloc, line.as_slice());
                tell(alloc, taken, &mut self.standing, apply)
            }
            None => Some(ControlAnswer::OutOfMemory),
        }
    }
}

/// Tells what a line came to. Exports are handed in, and stand where they were executed. None at the end that is asked
/// for.
fn tell<F: FnMut(Exports) -> Applied>(
    alloc: Global,
    taken: Taken,
    standing: &mut Exports,
    apply: &mut F,
) -> Option<ControlAnswer>
    requires { F.IsAlwaysCallable apply.old }
    ensures callable { F.IsAlwaysCallable apply.new }
    ensures tells { (list more : List Parts) (line : List ℕ) → Takes list line taken more →
        ComesTo F.step (record { added = list; standing = standing.old }) apply.old line result
        (record { added = more; standing = standing.new }) apply.new }
{
    match taken {
        Taken::Added => Some(ControlAnswer::Silent),
        Taken::Apply(exports) => Some(hand_in(alloc, exports, standing, apply)),
        Taken::Check(exports) => Some(compare(alloc, standing, exports)),
        Taken::End => None,
        Taken::Unknown => Some(ControlAnswer::Unknown),
        Taken::NoMemory => Some(ControlAnswer::OutOfMemory),
    }
}

/// Hands exports in, or tells why there are none.
fn hand_in<F: FnMut(Exports) -> Applied>(
    alloc: Global,
    exports: Result<Exports, ExportError>,
    standing: &mut Exports,
    apply: &mut F,
) -> ControlAnswer
    requires { F.IsAlwaysCallable apply.old }
    ensures callable { F.IsAlwaysCallable apply.new }
    ensures tells { Tells F.step standing.old apply.old (Taken.Apply exports) (bytes_of result) standing.new apply.new
        ⊎ LacksMemory standing.old apply.old (bytes_of result) standing.new apply.new }
{
    let exports = match exports {
        Ok(exports) => exports,
        Err(error) => return refusal(alloc, &error),
    };
    let Ok(shared) = exports.clone() else {
        return ControlAnswer::OutOfMemory;
    };
    match apply(exports) {
        Applied::Executed => {
            *standing = shared;
            ControlAnswer::Applied
        }
        Applied::Refused => ControlAnswer::OutOfMemory,
    }
}

/// Tells what exports would change, or why there are none.
fn compare(
    alloc: Global,
    standing: &Exports,
    exports: Result<Exports, ExportError>,
) -> ControlAnswer
    ensures { IsCompared standing.now exports (bytes_of result)
        ⊎ (bytes_of result ≡ bytes_of ControlAnswer.OutOfMemory) }
{
    match exports {
        Ok(exports) => match changes_line(alloc, standing, &exports) {
            Ok(line) => ControlAnswer::Changes(line),
            Err(_) => ControlAnswer::OutOfMemory,
        },
        Err(error) => refusal(alloc, &error),
    }
}

/// The answer where exports are refused.
fn refusal(alloc: Global, error: &ExportError) -> ControlAnswer
    ensures { IsRefusal error.now (bytes_of result) }
{
    if let ExportError::Memory = error {
        return ControlAnswer::OutOfMemory;
    }
    match refusal_line(alloc, error) {
        Ok(line) => ControlAnswer::Refused(line),
        Err(_) => ControlAnswer::OutOfMemory,
    }
}

/// The line that says what is wrong with exports.
fn refusal_line(alloc: Global, error: &ExportError) -> Result<Vec<u8>, AllocError>
    ensures { IfOk result (λ line. (text : List ℕ) × (line.items ≡ codes "refused: " ++ text ++ codes "\n")) }
{
    let text = error.to_string(alloc)?;
    let line = refused_line(alloc, text.as_bytes())?;
    Ok(line)
}

/// The line that exports are refused with these words.
fn refused_line(alloc: Global, text: &[u8]) -> Result<Vec<u8>, AllocError>
    ensures { IfOk result (λ line. line.items ≡ codes "refused: " ++ text.now ++ codes "\n") }
{
    let mut line = Vec::from_slice(alloc, REFUSED_WORD)?;
    line.extend_from_slice(text)?;
    line.push(b'\n')?;
    Ok(line)
}

/// Writes all of these bytes and sends them on, if they are any. Where that fails a beginning of them may be written.
fn send<O: Sink>(writer: &mut O, bytes: &[u8]) -> Result<(), StreamFailed>
    ensures written { OnOk result (Appends (O.written writer.old) (O.written writer.new) bytes.now) }
    ensures part { OnErr result (WritesPart (O.written writer.old) (O.written writer.new) bytes.now) }
    ensures sent { OnOk result (O.all_sent writer.old ≡ true → O.all_sent writer.new ≡ true) }
    ensures fine { OnOk result (O.Counts.failures writer.new ≡ O.Counts.failures writer.old) }
    ensures failed { OnErr result (O.Counts.failures writer.new ≡ one_more (O.Counts.failures writer.old)) }
{
    if bytes.is_empty() {
        return Ok(());
    }
    write_all(writer, bytes)?;
    writer.flush()?;
    Ok(())
}

/// Writes all of these bytes. Where that fails a beginning of them may be written.
fn write_all<O: Sink>(writer: &mut O, bytes: &[u8]) -> Result<(), StreamFailed>
    ensures written { OnOk result (Appends (O.written writer.old) (O.written writer.new) bytes.now) }
    ensures part { OnErr result (WritesPart (O.written writer.old) (O.written writer.new) bytes.now) }
    ensures fine { OnOk result (O.Counts.failures writer.new ≡ O.Counts.failures writer.old) }
    ensures failed { OnErr result (O.Counts.failures writer.new ≡ one_more (O.Counts.failures writer.old)) }
{
    let mut rest = bytes;
    'writes: while !rest.is_empty() {
        let Ok(count) = writer.write(rest) else {
            return Err(StreamFailed);
        };
        let (_, left) = rest.split_at(count);
        rest = left;
    }
    Ok(())
}
