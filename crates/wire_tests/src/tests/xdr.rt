//! The example of RFC 4506, section 7, and the edges of each item. The example's reader and writer show how a message
//! is read and written; `read_gids` and `write_cookies` show loops.

ghost use Rattle.std.specs.Prelude.{◌≡◌, ◌≤◌, ◌<◌, ◌^◌, length};
ghost use Rattle.nfs_xdr.specs.Reading.{ReadsFront};
ghost use Rattle.nfs_xdr.specs.Types.{Word, Array, Entries, Value};
ghost use Rattle.nfs_xdr.specs.Writing.{WritesFront};
ghost use Rattle.wire_tests.specs.declared.tests.xdr.Kind.TheVariants.{Text, Data, Exec};
ghost use Rattle.wire_tests.specs.Example.{kind, file, ReadsGrowing};

use super::record;
use nfs_xdr::{
    Reader, SharedReader, Writer, XdrError, reading_finds_spelling, refusal_means_unspelled,
    spelled_has_spelling, spelling_is_read, spelling_is_unique, writing_appends, writing_spells,
};
use std::alloc::Global;
use std::test::Fail;

/// The kind of a file.
#[derive(Clone, Copy)]
enum Kind<'a> {
    Text,
    Data(&'a [u8]),
    Exec(&'a [u8]),
}

/// The file of the RFC's example.
#[derive(Clone, Copy)]
struct File<'a> {
    name: &'a [u8],
    kind: Kind<'a>,
    owner: &'a [u8],
    content: &'a [u8],
}

#[tactic(auto, using(nfs_xdr::proofs::UnionArmLemmas::unions), unfolding(nfs_xdr::specs::Reading::read))]
fn read_kind<'a>(reader: &mut Reader<'a>) -> Result<Kind<'a>, XdrError>
    ensures { ReadsFront kind
        (λ k. elim k as (λ _. Value kind) [ Text ↦ (0, tt) | Data s ↦ (1, s.now) | Exec s ↦ (2, s.now) ])
        reader.entry.now reader.exit.now result }
{
    match reader.u32()? {
        0 => Ok(Kind::Text),
        1 => Ok(Kind::Data(reader.opaque(255)?)),
        2 => Ok(Kind::Exec(reader.opaque(255)?)),
        _ => Err(XdrError::BadValue),
    }
}

#[tactic(auto, unfolding(nfs_xdr::specs::Reading::read))]
fn read_file<'a>(reader: &mut Reader<'a>) -> Result<File<'a>, XdrError>
    ensures { ReadsFront file
        (λ f. (
          f.name.now,
          (
            elim f.kind as (λ _. Value kind) [ Text ↦ (0, tt) | Data s ↦ (1, s.now) | Exec s ↦ (2, s.now) ],
            (f.owner.now, f.content.now),
          ),
        ))
        reader.entry.now reader.exit.now result }
{
    let name = reader.opaque(255)?;
    let kind = read_kind(reader)?;
    let owner = reader.opaque(32)?;
    let content = reader.opaque(65535)?;
    Ok(File {
        name,
        kind,
        owner,
        content,
    })
}

#[tactic(auto, unfolding(nfs_xdr::specs::Reading::read))]
fn read_gids(alloc: Global, reader: &mut Reader<'_>) -> Result<Vec<u32>, XdrError>
    ensures { ReadsGrowing (Array 16 Word) (λ gids. gids.items) reader.old reader.new result }
{
    let count = reader.u32()?;
    if count > 16 {
        return Err(XdrError::TooLong);
    }
    let mut gids = Vec::new(alloc);
    for _i in 0..count {
        gids.push(reader.u32()?)?;
    }
    Ok(gids)
}

#[tactic(auto, using(nfs_xdr::proofs::UnionArmLemmas::unions), unfolding(nfs_xdr::specs::Writing::appended))]
fn write_program(
    writer: &mut Writer,
    name: &[u8],
    interpretor: &[u8],
    owner: &[u8],
    content: &[u8],
) -> Result<(), XdrError>
    requires name { length name.now < 2 ^ 32 }
    requires interpretor { length interpretor.now < 2 ^ 32 }
    requires owner { length owner.now < 2 ^ 32 }
    requires content { length content.now < 2 ^ 32 }
    ensures { WritesFront file (name.now, ((2, interpretor.now), (owner.now, content.now)))
        writer.old writer.new result }
{
    writer.opaque(name)?;
    writer.u32(2)?;
    writer.opaque(interpretor)?;
    writer.opaque(owner)?;
    writer.opaque(content)
}

#[tactic(auto, unfolding(nfs_xdr::specs::Writing::appended))]
fn write_cookies(writer: &mut Writer, cookies: &[u32]) -> Result<(), XdrError>
    ensures { WritesFront (Entries Word) cookies.now writer.old writer.new result }
{
    for cookie in cookies {
        writer.bool(true)?;
        writer.u32(*cookie)?;
    }
    writer.bool(false)
}

/// The bytes that the RFC prints for its example.
const SILLYPROG: [u8; 48] = [
    0, 0, 0, 9, b's', b'i', b'l', b'l', b'y', b'p', b'r', b'o', b'g', 0, 0, 0, 0, 0, 0, 2, 0, 0, 0,
    4, b'l', b'i', b's', b'p', 0, 0, 0, 4, b'j', b'o', b'h', b'n', 0, 0, 0, 6, b'(', b'q', b'u',
    b'i', b't', b')', 0, 0,
];

/// Whether it is the RFC's example.
fn is_the_example(file: File<'_>) -> bool {
    let Kind::Exec(interpretor) = file.kind else {
        return false;
    };
    file.name == b"sillyprog".as_slice()
        && interpretor == b"lisp".as_slice()
        && file.owner == b"john".as_slice()
        && file.content == b"(quit)".as_slice()
}

#[test]
fn reads_the_example(rt: HostRuntime) -> Result<(), Fail> {
    let mut reader = Reader::new(&SILLYPROG);
    assert!(rt; is_the_example(read_file(&mut reader)?));
    assert!(rt; reader.is_empty());
    Ok(())
}

#[test]
fn writes_the_example(rt: HostRuntime) -> Result<(), Fail> {
    let mut writer = Writer::new(rt.alloc());
    write_program(&mut writer, b"sillyprog", b"lisp", b"john", b"(quit)")?;
    assert!(rt; writer.as_slice() == SILLYPROG.as_slice());
    Ok(())
}

/// A word, an int, a hyper, two bools, three bytes of a fixed size, five of any size, and a byte behind them.
const ITEMS: [u8; 41] = [
    0x80, 0, 0, 1, 0xff, 0xff, 0xff, 0xfe, 1, 2, 3, 4, 5, 6, 7, 8, 0, 0, 0, 1, 0, 0, 0, 0, 10, 11,
    12, 9, 0, 0, 0, 5, 1, 2, 3, 4, 5, 9, 9, 9, 42,
];

/// Whether these numbers stand at the front.
fn has_numbers(reader: &mut Reader<'_>) -> bool {
    reader.u32() == Ok(0x8000_0001)
        && reader.i32() == Ok(-2)
        && reader.u64() == Ok(0x0102_0304_0506_0708)
        && reader.bool() == Ok(true)
        && reader.bool() == Ok(false)
}

#[test]
fn reads_each_item(rt: HostRuntime) -> Result<(), Fail> {
    let mut reader = Reader::new(&ITEMS);
    assert!(rt; reader.len() == 41);
    assert!(rt; has_numbers(&mut reader));
    assert!(rt; reader.fixed(3) == Ok([10, 11, 12].as_slice()));
    assert!(rt; reader.opaque(5) == Ok([1, 2, 3, 4, 5].as_slice()));
    assert!(rt; !reader.is_empty());
    Ok(())
}

/// Whether these numbers stand at the front of a record.
fn has_shared_numbers(reader: &mut SharedReader<'_>) -> bool {
    reader.u32() == Ok(0x8000_0001)
        && reader.i32() == Ok(-2)
        && reader.u64() == Ok(0x0102_0304_0506_0708)
        && reader.bool() == Ok(true)
        && reader.bool() == Ok(false)
}

#[test]
fn reads_each_number_of_a_record(rt: HostRuntime) -> Result<(), Fail> {
    let record = record(rt.alloc(), &ITEMS)?;
    let mut reader = SharedReader::new(&record);
    assert!(rt; reader.len() == 41);
    assert!(rt; has_shared_numbers(&mut reader));
    assert!(rt; reader.fixed(3)?.share()?.as_slice() == [10, 11, 12].as_slice());
    assert!(rt; reader.opaque(5)?.share()?.as_slice() == [1, 2, 3, 4, 5].as_slice());
    assert!(rt; reader.as_slice() == [42].as_slice());
    assert!(rt; reader.rest().share()?.as_slice() == [42].as_slice());
    Ok(())
}

#[test]
fn writes_each_item(rt: HostRuntime) -> Result<(), Fail> {
    let mut writer = Writer::with_capacity(rt.alloc(), 8)?;
    assert!(rt; writer.is_empty());
    writer.u32(0x8000_0001)?;
    writer.i32(-2)?;
    writer.u64(0x0102_0304_0506_0708)?;
    writer.bool(true)?;
    writer.bool(false)?;
    writer.fixed(&[10, 11, 12])?;
    writer.opaque(&[1, 2, 3, 4, 5])?;
    assert!(rt; writer.len() == 40);
    let bytes = [
        0x80, 0, 0, 1, 0xff, 0xff, 0xff, 0xfe, 1, 2, 3, 4, 5, 6, 7, 8, 0, 0, 0, 1, 0, 0, 0, 0, 10,
        11, 12, 0, 0, 0, 0, 5, 1, 2, 3, 4, 5, 0, 0, 0,
    ];
    assert!(rt; writer.into_vec().as_slice() == bytes.as_slice());
    Ok(())
}

#[test]
fn goes_on_behind_what_is_kept(rt: HostRuntime) -> Result<(), Fail> {
    let mut writer = Writer::from_vec(vec![in rt.alloc(); 0x80, 0, 0, 1, 9, 9]?);
    writer.truncate(4);
    write_cookies(&mut writer, &[7])?;
    let entries = [0x80, 0, 0, 1, 0, 0, 0, 1, 0, 0, 0, 7, 0, 0, 0, 0];
    assert!(rt; writer.as_slice() == entries.as_slice());
    Ok(())
}

#[test]
fn refuses_and_stays(rt: HostRuntime) {
    let short = [0, 0, 0, 3, 1, 2, 3];
    let mut reader = Reader::new(&short);
    assert!(rt; reader.u64() == Err(XdrError::Short));
    assert!(rt; reader.opaque(2) == Err(XdrError::TooLong));
    assert!(rt; reader.opaque(3) == Err(XdrError::Short));
    assert!(rt; reader.fixed(usize::MAX) == Err(XdrError::Short));
    assert!(rt; reader.bool() == Err(XdrError::BadValue));
    assert!(rt; reader.len() == 7);
}

#[test]
fn refuses_the_longest_length(rt: HostRuntime) {
    let huge = [0xff, 0xff, 0xff, 0xff];
    let mut reader = Reader::new(&huge);
    assert!(rt; reader.opaque(usize::MAX) == Err(XdrError::Short));
    assert!(rt; reader.opaque(0xffff_fffe) == Err(XdrError::TooLong));
    assert!(rt; reader.len() == 4);
}

#[test]
fn reads_an_array_up_to_its_bound(rt: HostRuntime) -> Result<(), Fail> {
    let gids = [0, 0, 0, 2, 0, 0, 0, 7, 0, 0, 1, 0];
    let read = read_gids(rt.alloc(), &mut Reader::new(&gids))?;
    assert!(rt; read.as_slice() == [7, 256].as_slice());
    let many = [0, 0, 0, 17];
    let refused = read_gids(rt.alloc(), &mut Reader::new(&many)).err();
    assert!(rt; refused == Some(XdrError::TooLong));
    Ok(())
}

#[test]
fn laws_are_called() {
    spelling_is_unique();
    reading_finds_spelling();
    spelling_is_read();
    refusal_means_unspelled();
    spelled_has_spelling();
    writing_spells();
    writing_appends();
}
