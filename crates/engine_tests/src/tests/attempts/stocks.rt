//! Stores in which attempts are counted.

use super::super::records::read;
use super::messages::{MADE_XID, ROOT, Store, message};
use super::procedures::{CREATE, LOCK, MKDIR, Procedure, REMOVE, SETATTR, SYMLINK, UNLOCK, WRITE};
use super::rows::Word;
use nfs_engine::Engine;
use nfs_schedule::{Answer, execute, is_at_rest};
use side_wire::Callback;
use std::alloc::AllocError;
use std::process::Abort;

/// What is before the handle in the answer of a call that is OK and made an object: its status, that a handle follows,
/// and how long that is.
const MADE: &[u8] = b"\0\0\0\0\0\0\0\x01\0\0\0\x20";

/// The handle in the answer of a call that is OK and made an object; none in another.
fn handle_in(answer: &Answer) -> &[u8] {
    let Answer::Executed(receipt) = answer else {
        return &[];
    };
    let bytes = receipt.answer.as_slice();
    if bytes.get(28..40).is_some_and(|front| front == MADE) {
        bytes.get(40..72).unwrap_or_default()
    } else {
        &[]
    }
}

/// Keeps the handle of what was made, or the cookie of what was granted, if something was; whether it was.
fn keep(kept: &mut Vec<u8>, bytes: &[u8]) -> Result<bool, AllocError> {
    if bytes.is_empty() {
        return Ok(false);
    }
    kept.clear();
    kept.extend_from_slice(bytes)?;
    Ok(true)
}

/// A call is executed. Whether it makes an object, which then is the one that was made last.
pub(super) fn make(
    rt: &(impl Abort + AllocGlobal),
    engine: &mut Engine,
    store: &mut Store,
    procedure: Procedure,
    words: &[Word],
) -> Result<bool, AllocError> {
    assert!(rt; is_at_rest(engine));
    let message = message(rt.alloc(), MADE_XID, procedure, words, store)?;
    let arrival = read(rt.alloc(), &message)?;
    let answer = execute(rt.alloc(), engine, arrival);
    let is_made = keep(&mut store.made, handle_in(&answer));
    drop(answer);
    is_made
}

/// What stands in a store.
#[derive(Clone, Copy)]
pub(super) enum Stock {
    /// So many files of the root.
    Files(u32),
    /// Of so many files of the root each in the 64th place: so each page has one.
    Thin(u32),
    /// So many fours of directories, each in the one before it, and one more in the root.
    Deep(u8),
    /// A file of so many blocks.
    Blocks(u8),
    /// A file with one block in each of so many map pages.
    Holes(u8),
    /// The same, cut off: its map pages, if there are two, are remains.
    Remains(u8),
    /// A link.
    Link,
    /// A file of the root, and a directory with one of so many blocks. The directory counts as made last.
    Pair(u8),
    /// A file that another owner holds.
    Held,
    /// A file that an owner holds, and another waits for.
    Awaited,
    /// One that was granted to another owner, who waited for it.
    Granted,
}

/// The root gets so many files.
fn fill(
    rt: &(impl Abort + AllocGlobal),
    engine: &mut Engine,
    store: &mut Store,
    files: u32,
) -> Result<(), AllocError> {
    for number in 0..files {
        let words = [Word::Root, Word::Name(number), Word::Zeros(7)];
        assert!(rt; make(rt, engine, store, CREATE, &words)?);
    }
    store.files = files;
    Ok(())
}

/// Of so many files of the root each in the 64th place stays.
fn thin(
    rt: &(impl Abort + AllocGlobal),
    engine: &mut Engine,
    store: &mut Store,
    files: u32,
) -> Result<(), AllocError> {
    for number in 0..files {
        if number % 64 > 0 {
            let words = [Word::Root, Word::Name(number)];
            assert!(rt; !make(rt, engine, store, REMOVE, &words)?);
        }
    }
    Ok(())
}

/// The root gets a directory, and so many fours of them, each in the one before it.
fn deepen(
    rt: &(impl Abort + AllocGlobal),
    engine: &mut Engine,
    store: &mut Store,
    fours: u8,
) -> Result<(), AllocError> {
    let words = [
        Word::Root,
        Word::Name(0),
        Word::Is(1),
        Word::Is(0o777),
        Word::Zeros(5),
    ];
    assert!(rt; make(rt, engine, store, MKDIR, &words)?);
    keep(&mut store.made, ROOT)?;
    for _ in 0..u32::from(fours) * 4 {
        let words = [
            Word::Made,
            Word::Owner,
            Word::Is(1),
            Word::Is(0o777),
            Word::Zeros(5),
        ];
        assert!(rt; make(rt, engine, store, MKDIR, &words)?);
    }
    store.fours = fours;
    Ok(())
}

/// The file that was made last is written from an offset on (RFC 1813, 3.3.7).
pub(super) fn write(
    rt: &(impl Abort + AllocGlobal),
    engine: &mut Engine,
    store: &mut Store,
    offset: u32,
    blocks: u8,
) -> Result<(), AllocError> {
    let words = [
        Word::Made,
        Word::Zeros(1),
        Word::Is(offset),
        Word::Is(u32::from(blocks) * 4096),
        Word::Is(2),
        Word::Blocks(blocks),
    ];
    assert!(rt; !make(rt, engine, store, WRITE, &words)?);
    Ok(())
}

/// The root gets a file with one block in each of so many map pages, each of which is for 512.
fn spread(
    rt: &(impl Abort + AllocGlobal),
    engine: &mut Engine,
    store: &mut Store,
    pages: u8,
) -> Result<(), AllocError> {
    fill(rt, engine, store, 1)?;
    for page in 0..pages {
        write(rt, engine, store, u32::from(page) * 0x20_0000, 1)?;
    }
    Ok(())
}

/// The file that was made last gets this size (RFC 1813, 3.3.2).
pub(super) fn resize(
    rt: &(impl Abort + AllocGlobal),
    engine: &mut Engine,
    store: &mut Store,
    size: u32,
) -> Result<(), AllocError> {
    let words = [
        Word::Made,
        Word::Zeros(3),
        Word::Is(1),
        Word::Zeros(1),
        Word::Is(size),
        Word::Zeros(3),
    ];
    assert!(rt; !make(rt, engine, store, SETATTR, &words)?);
    Ok(())
}

/// The root gets a link.
fn link(
    rt: &(impl Abort + AllocGlobal),
    engine: &mut Engine,
    store: &mut Store,
) -> Result<(), AllocError> {
    let words = [Word::Root, Word::Name(0), Word::Zeros(6), Word::Owner];
    assert!(rt; make(rt, engine, store, SYMLINK, &words)?);
    Ok(())
}

/// The root gets a file, and a directory with one of so many blocks. The directory counts as made last.
fn pair(
    rt: &(impl Abort + AllocGlobal),
    engine: &mut Engine,
    store: &mut Store,
    blocks: u8,
) -> Result<(), AllocError> {
    fill(rt, engine, store, 1)?;
    let words = [
        Word::Root,
        Word::Name(1),
        Word::Is(1),
        Word::Is(0o777),
        Word::Zeros(5),
    ];
    assert!(rt; make(rt, engine, store, MKDIR, &words)?);
    let directory = store.made.clone()?;
    let words = [Word::Made, Word::Name(0), Word::Zeros(7)];
    assert!(rt; make(rt, engine, store, CREATE, &words)?);
    write(rt, engine, store, 0, blocks)?;
    keep(&mut store.made, &directory)?;
    Ok(())
}

/// An owner asks for the whole of the file that was made last, and waits for it if it has to (RFC 1813, appendix II).
fn lock(
    rt: &(impl Abort + AllocGlobal),
    engine: &mut Engine,
    store: &mut Store,
    asked: Word,
) -> Result<(), AllocError> {
    let words = [
        Word::Zeros(1),
        Word::Is(1),
        Word::Is(1),
        asked,
        Word::Zeros(2),
    ];
    assert!(rt; !make(rt, engine, store, LOCK, &words)?);
    Ok(())
}

/// The root gets a file that an owner holds, and another waits for.
fn hold(
    rt: &(impl Abort + AllocGlobal),
    engine: &mut Engine,
    store: &mut Store,
) -> Result<(), AllocError> {
    fill(rt, engine, store, 1)?;
    lock(rt, engine, store, Word::Lock)?;
    lock(rt, engine, store, Word::OtherLock)
}

/// The owner that holds it gives it back, so the other gets it, and is told.
fn grant(
    rt: &(impl Abort + AllocGlobal),
    engine: &mut Engine,
    store: &mut Store,
) -> Result<(), AllocError> {
    let words = [Word::Zeros(1), Word::Lock];
    assert!(rt; !make(rt, engine, store, UNLOCK, &words)?);
    assert!(rt; keep_grant(engine, store)?);
    Ok(())
}

/// Keeps the cookie of a message that tells of a grant, if there is one; whether there is.
fn keep_grant(engine: &mut Engine, store: &mut Store) -> Result<bool, AllocError> {
    let Some(posted) = engine.take_message() else {
        return Ok(false);
    };
    match &posted.message.call {
        Callback::Granted(arguments) => keep(&mut store.grant, arguments.cookie.as_slice()),
        _ => Ok(false),
    }
}

/// What stands there comes into a new store.
pub(super) fn stock_up(
    rt: &(impl Abort + AllocGlobal),
    engine: &mut Engine,
    store: &mut Store,
    stock: Stock,
) -> Result<(), AllocError> {
    match stock {
        Stock::Files(files) => fill(rt, engine, store, files),
        Stock::Thin(files) => {
            fill(rt, engine, store, files)?;
            thin(rt, engine, store, files)
        }
        Stock::Deep(fours) => deepen(rt, engine, store, fours),
        Stock::Blocks(blocks) => {
            fill(rt, engine, store, 1)?;
            write(rt, engine, store, 0, blocks)
        }
        Stock::Holes(pages) => spread(rt, engine, store, pages),
        Stock::Remains(pages) => {
            spread(rt, engine, store, pages)?;
            resize(rt, engine, store, 0)
        }
        Stock::Link => link(rt, engine, store),
        Stock::Pair(blocks) => pair(rt, engine, store, blocks),
        Stock::Held => {
            fill(rt, engine, store, 1)?;
            lock(rt, engine, store, Word::OtherLock)
        }
        Stock::Awaited => hold(rt, engine, store),
        Stock::Granted => {
            hold(rt, engine, store)?;
            grant(rt, engine, store)
        }
    }
}
