//! What a text spells: numbers, strings in quotes, names of parameters, and groups with what is given for their
//! parameters, as `1 "x" root(2, 0)`.

use crate::fault::Fault;
use crate::groups::{Groups, Item};
use crate::numbers::{Number, Width, read_number};
use std::alloc::{AllocError, Global};
use std::mem;

/// The bytes that a text spells.
pub fn bytes(alloc: Global, groups: &Groups<'_>, text: &str) -> Result<Vec<u8>, Fault> {
    let items = items(alloc, groups, &[], text)?;
    let bytes = bytes_of(alloc, &items);
    drop(items);
    Ok(bytes?)
}

fn bytes_of(alloc: Global, items: &[Item]) -> Result<Vec<u8>, AllocError> {
    let mut bytes = Vec::with_capacity(alloc, items.len())?;
    for item in items {
        if let Item::Byte(byte) = item {
            bytes.push(*byte)?;
        }
    }
    Ok(bytes)
}

/// What a text spells where these are its parameters.
pub fn items(
    alloc: Global,
    groups: &Groups<'_>,
    parameters: &[&str],
    text: &str,
) -> Result<Vec<Item>, Fault> {
    let mut speller = Speller::new(alloc);
    for byte in text.bytes() {
        speller.take(groups, parameters, byte)?;
    }
    speller.end(groups, parameters)
}

/// A group whose parameters are being given.
#[derive(Drop)]
struct Opened {
    name: String,
    /// What was spelled before it.
    before: Vec<Item>,
    given: Vec<Vec<Item>>,
}

/// What was spelled of a text so far.
#[derive(Drop)]
struct Speller {
    alloc: Global,
    /// The word that has begun.
    word: String,
    is_quoted: bool,
    spelled: Vec<Item>,
    opened: Vec<Opened>,
}

impl Speller {
    fn new(alloc: Global) -> Speller {
        Speller {
            alloc,
            word: String::new(alloc),
            is_quoted: false,
            spelled: Vec::new(alloc),
            opened: Vec::new(alloc),
        }
    }

    /// Goes on with the next byte of the text.
    fn take(&mut self, groups: &Groups<'_>, parameters: &[&str], byte: u8) -> Result<(), Fault> {
        match byte {
            b'"' => self.quote(),
            _ if self.is_quoted => self.keep(byte),
            b' ' => self.end_word(groups, parameters),
            b'(' => self.open(),
            b',' => self.next_given(groups, parameters),
            b')' => self.close(groups, parameters),
            _ => self.keep(byte),
        }
    }

    fn keep(&mut self, byte: u8) -> Result<(), Fault> {
        self.word.push(char::from(byte))?;
        Ok(())
    }

    fn quote(&mut self) -> Result<(), Fault> {
        if self.is_quoted {
            add_string(&mut self.spelled, self.word.as_bytes())?;
            self.word.clear();
        }
        self.is_quoted = !self.is_quoted;
        Ok(())
    }

    fn end_word(&mut self, groups: &Groups<'_>, parameters: &[&str]) -> Result<(), Fault> {
        add_word(&mut self.spelled, groups, parameters, self.word.as_str())?;
        self.word.clear();
        Ok(())
    }

    fn open(&mut self) -> Result<(), Fault> {
        let opened = Opened {
            name: mem::replace(&mut self.word, String::new(self.alloc)),
            before: mem::replace(&mut self.spelled, Vec::new(self.alloc)),
            given: Vec::new(self.alloc),
        };
        self.opened.push(opened)?;
        Ok(())
    }

    fn next_given(&mut self, groups: &Groups<'_>, parameters: &[&str]) -> Result<(), Fault> {
        self.end_word(groups, parameters)?;
        let spelled = mem::replace(&mut self.spelled, Vec::new(self.alloc));
        let Some(opened) = self.opened.last_mut() else {
            return Err(Fault::Line("a comma stands in no group"));
        };
        opened.given.push(spelled)?;
        Ok(())
    }

    fn close(&mut self, groups: &Groups<'_>, parameters: &[&str]) -> Result<(), Fault> {
        self.next_given(groups, parameters)?;
        let Some(opened) = self.opened.pop() else {
            return Err(Fault::Line("a group is closed that is not opened"));
        };
        let Opened {
            name,
            before,
            given,
        } = opened;
        self.spelled = before;
        let added = groups.add_items(&mut self.spelled, name.as_str(), &given);
        drop(given);
        added
    }

    /// What was spelled, at the end of the text.
    fn end(self, groups: &Groups<'_>, parameters: &[&str]) -> Result<Vec<Item>, Fault> {
        let mut speller = self;
        speller.end_word(groups, parameters)?;
        if speller.is_quoted || !speller.opened.is_empty() {
            return Err(Fault::Line("quotes or a group are left open"));
        }
        Ok(mem::replace(&mut speller.spelled, Vec::new(speller.alloc)))
    }
}

/// Adds what a word spells that stands in no quotes: a number, a parameter, or a group without parameters.
fn add_word(
    items: &mut Vec<Item>,
    groups: &Groups<'_>,
    parameters: &[&str],
    word: &str,
) -> Result<(), Fault> {
    let Some(first) = word.as_bytes().first() else {
        return Ok(());
    };
    if first.is_ascii_digit() {
        return Ok(add_number(items, read_number(word)?)?);
    }
    match parameters.iter().position(|parameter| *parameter == word) {
        Some(place) => Ok(items.push(Item::Parameter(place))?),
        None => groups.add_items(items, word, &[]),
    }
}

/// Adds a number as often as it stands: a byte, a word or two words, the high byte first.
fn add_number(items: &mut Vec<Item>, number: Number) -> Result<(), AllocError> {
    let bytes = number.value.to_be_bytes();
    let first = match number.width {
        Width::One => 7,
        Width::Four => 4,
        Width::Eight => 0,
    };
    for _ in 0..number.times {
        add_bytes(items, &bytes[first..])?;
    }
    Ok(())
}

/// Adds a string: its length, its bytes, and zeros up to a whole word.
fn add_string(items: &mut Vec<Item>, text: &[u8]) -> Result<(), AllocError> {
    add_bytes(items, &(text.len() as u64).to_be_bytes()[4..])?;
    add_bytes(items, text)?;
    for _ in 0..(4 - text.len() % 4) % 4 {
        items.push(Item::Byte(0))?;
    }
    Ok(())
}

fn add_bytes(items: &mut Vec<Item>, bytes: &[u8]) -> Result<(), AllocError> {
    for byte in bytes {
        items.push(Item::Byte(*byte))?;
    }
    Ok(())
}
