//! What waits in a connection is sent, so that the answers to one piece leave together.

ghost use Rattle.std.specs.Prelude.{◌≡◌, ◌++◌, [], true, IfErr, OnErr, OnOk, false};
ghost use Rattle.std.specs.Io.KnownBytes.{Appends};
ghost use Rattle.nfs_rpc.specs.Streams.{one_more};
ghost use Rattle.nfs_streams.specs.Connections.{SendsAll, bytes_of, waiting};
ghost use Rattle.nfs_streams.specs.Sent.{Puts, WritesPart};

use crate::connection::Connection;
use crate::serving::StreamFault;
use nfs_rpc::stream::Sink;
use nfs_schedule::Answer;

/// Puts an answer, if there is one, behind those that wait, and sends all on where the connection is full then. At a
/// fault a beginning of all is written.
pub(crate) fn put<W: Sink>(
    writer: &mut W,
    connection: &mut Connection,
    answer: Option<Answer>,
) -> Result<(), StreamFault>
    requires room { connection.old.full ≡ false }
    ensures room { OnOk result (connection.new.full ≡ false) }
    ensures records { connection.new.records ≡ connection.old.records }
    ensures sent { OnOk result (W.all_sent writer.old ≡ true → W.all_sent writer.new ≡ true) }
    ensures puts { OnOk result
        (Puts (W.written writer.old) (W.written writer.new) (waiting connection.old) (waiting connection.new)
        (bytes_of answer)) }
    ensures ok { OnOk result (W.Counts.failures writer.new ≡ W.Counts.failures writer.old) }
    ensures part { OnErr result
        (WritesPart (W.written writer.old) (W.written writer.new) (waiting connection.old ++ bytes_of answer)) }
    ensures fault { IfErr result
        (λ e. (e ≡ StreamFault.Write)
        × (W.Counts.failures writer.new ≡ one_more (W.Counts.failures writer.old))) }
{
    let Some(answer) = answer else {
        return Ok(());
    };
    connection.put(answer);
    if connection.is_full() {
        return send(writer, connection);
    }
    Ok(())
}

/// Sends on what waits, if that is anything. At a fault a beginning of it is written.
pub(crate) fn send<W: Sink>(writer: &mut W, connection: &mut Connection) -> Result<(), StreamFault>
    ensures records { connection.new.records ≡ connection.old.records }
    ensures sent { OnOk result (W.all_sent writer.old ≡ true → W.all_sent writer.new ≡ true) }
    ensures written { OnOk result (Appends (W.written writer.old) (W.written writer.new) (waiting connection.old)) }
    ensures none { OnOk result (SendsAll connection.old connection.new) }
    ensures ok { OnOk result (W.Counts.failures writer.new ≡ W.Counts.failures writer.old) }
    ensures part { OnErr result (WritesPart (W.written writer.old) (W.written writer.new) (waiting connection.old)) }
    ensures fault { IfErr result
        (λ e. (e ≡ StreamFault.Write)
        × (W.Counts.failures writer.new ≡ one_more (W.Counts.failures writer.old))) }
{
    write_waiting(writer, connection)?;
    connection.sent();
    Ok(())
}

/// Writes what waits, and sends it on. At a fault a beginning of it may be written.
fn write_waiting<W: Sink>(writer: &mut W, connection: &Connection) -> Result<(), StreamFault>
    ensures sent { OnOk result (W.all_sent writer.old ≡ true → W.all_sent writer.new ≡ true) }
    ensures written { OnOk result (Appends (W.written writer.old) (W.written writer.new) (waiting connection.now)) }
    ensures ok { OnOk result (W.Counts.failures writer.new ≡ W.Counts.failures writer.old) }
    ensures part { OnErr result (WritesPart (W.written writer.old) (W.written writer.new) (waiting connection.now)) }
    ensures fault { IfErr result
        (λ e. (e ≡ StreamFault.Write)
        × (W.Counts.failures writer.new ≡ one_more (W.Counts.failures writer.old))) }
{
    let (first, behind) = (connection.gathered(), connection.last());
    if first.is_empty() && behind.is_empty() {
        return Ok(());
    }
    write_all(writer, first)?;
    write_all(writer, behind)?;
    writer.flush().map_err(|_| StreamFault::Write)
}

/// Writes all of the bytes. At a fault a beginning of them may be written.
fn write_all<W: Sink>(writer: &mut W, bytes: &[u8]) -> Result<(), StreamFault>
    ensures written { OnOk result (Appends (W.written writer.old) (W.written writer.new) bytes.now) }
    ensures ok { OnOk result (W.Counts.failures writer.new ≡ W.Counts.failures writer.old) }
    ensures part { OnErr result (WritesPart (W.written writer.old) (W.written writer.new) bytes.now) }
    ensures fault { IfErr result
        (λ e. (e ≡ StreamFault.Write)
        × (W.Counts.failures writer.new ≡ one_more (W.Counts.failures writer.old))) }
{
    let mut rest = bytes;
    'writes: while !rest.is_empty() {
        let Ok(count) = writer.write(rest) else {
            return Err(StreamFault::Write);
        };
        let (_, left) = rest.split_at(count);
        rest = left;
    }
    Ok(())
}
