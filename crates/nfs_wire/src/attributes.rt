//! Attributes of a file (RFC 1813, section 2.5).

ghost use Rattle.std.specs.Prelude.{◌≡◌};
ghost use Rattle.nfs_xdr.specs.Reading.{ReadsFront};
ghost use Rattle.nfs_xdr.specs.Types.{Word, Hyper, Optional, HasSpelling};
ghost use Rattle.nfs_xdr.specs.Writing.{WritesFront};
ghost use Rattle.nfs_wire.specs.Attributes.{ftype3, specdata3, nfstime3, fattr3, set_time, sattr3, wcc_attr};
ghost use Rattle.nfs_wire.specs.Attributes.{wcc_data, pre_op_attr, post_op_attr, type_number, device_value};
ghost use Rattle.nfs_wire.specs.Attributes.{time_value, attributes_value, set_time_value, set_attributes_value};
ghost use Rattle.nfs_wire.specs.Attributes.{weak_value, before_value, after_value, wcc_value};

use nfs_xdr::{SharedReader, Writer, XdrError};

/// What kind of file it is (`ftype3`).
#[derive(Clone, Copy, Debug, PartialEq, Eq)]
pub enum FileType {
    Regular,
    Directory,
    BlockDevice,
    CharacterDevice,
    Link,
    Socket,
    Fifo,
}

/// The numbers of a device (`specdata3`).
#[derive(Clone, Copy, Debug, PartialEq, Eq)]
pub struct DeviceNumber {
    pub major: u32,
    pub minor: u32,
}

/// A time since 1970 (`nfstime3`).
#[derive(Clone, Copy, Debug, PartialEq, Eq)]
pub struct Time {
    pub seconds: u32,
    pub nanoseconds: u32,
}

/// The attributes of a file (`fattr3`).
#[derive(Clone, Copy, Debug, PartialEq, Eq)]
pub struct Attributes {
    pub kind: FileType,
    /// Twelve bits.
    pub mode: u32,
    pub links: u32,
    pub uid: u32,
    pub gid: u32,
    /// In bytes.
    pub size: u64,
    /// In bytes.
    pub used: u64,
    pub device: DeviceNumber,
    pub fsid: u64,
    pub fileid: u64,
    pub accessed: Time,
    pub modified: Time,
    pub changed: Time,
}

/// How a time is set (`set_atime` and `set_mtime`).
#[derive(Clone, Copy, PartialEq, Eq)]
pub enum SetTime {
    Leave,
    ToServer,
    ToClient(Time),
}

/// The attributes that a caller sets (`sattr3`). What is absent is left as it is.
#[derive(Clone, Copy, PartialEq, Eq)]
pub struct SetAttributes {
    pub mode: Option<u32>,
    pub uid: Option<u32>,
    pub gid: Option<u32>,
    /// In bytes.
    pub size: Option<u64>,
    pub accessed: SetTime,
    pub modified: SetTime,
}

/// What a caller compares to see whether its cache is still true (`wcc_attr`).
#[derive(Clone, Copy, PartialEq, Eq)]
pub struct WeakAttributes {
    /// In bytes.
    pub size: u64,
    pub modified: Time,
    pub changed: Time,
}

/// An object before and after a call (`wcc_data`).
#[derive(Clone, Copy, PartialEq, Eq)]
pub struct Wcc {
    pub before: Option<WeakAttributes>,
    pub after: Option<Attributes>,
}

/// A time (`nfstime3`).
#[tactic(auto, unfolding(nfs_xdr::specs::Reading::read))]
pub(crate) fn read_time(reader: &mut SharedReader<'_>) -> Result<Time, XdrError>
    ensures { ReadsFront nfstime3 time_value reader.old reader.new result }
{
    Ok(Time {
        seconds: reader.u32()?,
        nanoseconds: reader.u32()?,
    })
}

/// The numbers of a device (`specdata3`).
#[tactic(auto, unfolding(nfs_xdr::specs::Reading::read))]
pub(crate) fn read_device(reader: &mut SharedReader<'_>) -> Result<DeviceNumber, XdrError>
    ensures { ReadsFront specdata3 device_value reader.old reader.new result }
{
    Ok(DeviceNumber {
        major: reader.u32()?,
        minor: reader.u32()?,
    })
}

/// The attributes that a caller sets (`sattr3`).
#[tactic(auto, unfolding(nfs_xdr::specs::Reading::read))]
pub(crate) fn read_set_attributes(reader: &mut SharedReader<'_>) -> Result<SetAttributes, XdrError>
    ensures { ReadsFront sattr3 set_attributes_value reader.old reader.new result }
{
    Ok(SetAttributes {
        mode: read_optional_word(reader)?,
        uid: read_optional_word(reader)?,
        gid: read_optional_word(reader)?,
        size: read_optional_hyper(reader)?,
        accessed: read_set_time(reader)?,
        modified: read_set_time(reader)?,
    })
}

/// A word that may be absent (`set_mode3`, `set_uid3` and `set_gid3`).
#[tactic(auto, unfolding(nfs_xdr::specs::Reading::read))]
fn read_optional_word(reader: &mut SharedReader<'_>) -> Result<Option<u32>, XdrError>
    ensures { ReadsFront (Optional Word) (λ word. word) reader.old reader.new result }
{
    if reader.bool()? {
        Ok(Some(reader.u32()?))
    } else {
        Ok(None)
    }
}

/// A hyper that may be absent (`set_size3`).
#[tactic(auto, unfolding(nfs_xdr::specs::Reading::read))]
fn read_optional_hyper(reader: &mut SharedReader<'_>) -> Result<Option<u64>, XdrError>
    ensures { ReadsFront (Optional Hyper) (λ hyper. hyper) reader.old reader.new result }
{
    if reader.bool()? {
        Ok(Some(reader.u64()?))
    } else {
        Ok(None)
    }
}

/// How a time is set (`set_atime` and `set_mtime`).
#[tactic(auto, using(nfs_xdr::proofs::UnionArmLemmas::unions), unfolding(nfs_xdr::specs::Reading::read))]
fn read_set_time(reader: &mut SharedReader<'_>) -> Result<SetTime, XdrError>
    ensures { ReadsFront set_time set_time_value reader.old reader.new result }
{
    match reader.u32()? {
        0 => Ok(SetTime::Leave),
        1 => Ok(SetTime::ToServer),
        2 => Ok(SetTime::ToClient(read_time(reader)?)),
        _ => Err(XdrError::BadValue),
    }
}

/// Writes attributes that may be absent (`post_op_attr`).
#[tactic(auto, unfolding(nfs_xdr::specs::Writing::appended))]
pub(crate) fn write_optional_attributes(
    writer: &mut Writer,
    attributes: Option<Attributes>,
) -> Result<(), XdrError>
    ensures written { WritesFront post_op_attr (after_value attributes) writer.old writer.new result }
    ensures form { HasSpelling post_op_attr (after_value attributes) }
{
    match attributes {
        Some(attributes) => {
            writer.bool(true)?;
            write_attributes(writer, attributes)
        }
        None => writer.bool(false),
    }
}

/// Writes an object before and after a call (`wcc_data`).
#[tactic(auto, unfolding(nfs_xdr::specs::Writing::appended))]
pub(crate) fn write_wcc(writer: &mut Writer, wcc: Wcc) -> Result<(), XdrError>
    ensures written { WritesFront wcc_data (wcc_value wcc) writer.old writer.new result }
    ensures form { HasSpelling wcc_data (wcc_value wcc) }
{
    write_before(writer, wcc.before)?;
    write_optional_attributes(writer, wcc.after)
}

/// Writes an object before a call (`pre_op_attr`).
#[tactic(auto, unfolding(nfs_xdr::specs::Writing::appended))]
fn write_before(writer: &mut Writer, before: Option<WeakAttributes>) -> Result<(), XdrError>
    ensures written { WritesFront pre_op_attr (before_value before) writer.old writer.new result }
    ensures form { HasSpelling pre_op_attr (before_value before) }
{
    match before {
        Some(weak) => {
            writer.bool(true)?;
            write_weak(writer, weak)
        }
        None => writer.bool(false),
    }
}

/// Writes what a caller compares (`wcc_attr`).
#[tactic(auto, unfolding(nfs_xdr::specs::Writing::appended))]
fn write_weak(writer: &mut Writer, weak: WeakAttributes) -> Result<(), XdrError>
    ensures written { WritesFront wcc_attr (weak_value weak) writer.old writer.new result }
    ensures form { HasSpelling wcc_attr (weak_value weak) }
{
    writer.u64(weak.size)?;
    write_time(writer, weak.modified)?;
    write_time(writer, weak.changed)
}

/// Writes the attributes of a file (`fattr3`).
#[tactic(auto, using(crate::proofs::ResultLaws::type_form), unfolding(nfs_xdr::specs::Writing::appended))]
pub(crate) fn write_attributes(writer: &mut Writer, attributes: Attributes) -> Result<(), XdrError>
    ensures written { WritesFront fattr3 (attributes_value attributes) writer.old writer.new result }
    ensures form { HasSpelling fattr3 (attributes_value attributes) }
{
    write_type(writer, attributes.kind)?;
    writer.u32(attributes.mode)?;
    writer.u32(attributes.links)?;
    writer.u32(attributes.uid)?;
    writer.u32(attributes.gid)?;
    writer.u64(attributes.size)?;
    writer.u64(attributes.used)?;
    write_device(writer, attributes.device)?;
    writer.u64(attributes.fsid)?;
    writer.u64(attributes.fileid)?;
    write_time(writer, attributes.accessed)?;
    write_time(writer, attributes.modified)?;
    write_time(writer, attributes.changed)
}

/// Writes a file's type (`ftype3`).
#[tactic(auto, unfolding(nfs_xdr::specs::Writing::appended))]
fn write_type(writer: &mut Writer, kind: FileType) -> Result<(), XdrError>
    ensures { WritesFront ftype3 (type_number kind) writer.old writer.new result }
{
    writer.u32(number(kind))
}

/// Writes the numbers of a device (`specdata3`).
#[tactic(auto, unfolding(nfs_xdr::specs::Writing::appended))]
fn write_device(writer: &mut Writer, device: DeviceNumber) -> Result<(), XdrError>
    ensures { WritesFront specdata3 (device_value device) writer.old writer.new result }
{
    writer.u32(device.major)?;
    writer.u32(device.minor)
}

/// Writes a time (`nfstime3`).
#[tactic(auto, unfolding(nfs_xdr::specs::Writing::appended))]
pub(crate) fn write_time(writer: &mut Writer, time: Time) -> Result<(), XdrError>
    ensures { WritesFront nfstime3 (time_value time) writer.old writer.new result }
{
    writer.u32(time.seconds)?;
    writer.u32(time.nanoseconds)
}

/// The number of a file's type (`ftype3`).
fn number(kind: FileType) -> u32
    ensures { result ≡ type_number kind }
{
    match kind {
        FileType::Regular => 1,
        FileType::Directory => 2,
        FileType::BlockDevice => 3,
        FileType::CharacterDevice => 4,
        FileType::Link => 5,
        FileType::Socket => 6,
        FileType::Fifo => 7,
    }
}
