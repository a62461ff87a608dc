//! Numbers of a scene: `17`, `0x1f`, `0o644`, with `u8` or `u64` behind where it is no u32, and `*5` behind that where
//! it stands five times.

ghost use Rattle.std.specs.Prelude.{◌≤◌};

use crate::fault::Fault;

/// How many bytes a number takes.
#[derive(Clone, Copy)]
pub enum Width {
    One,
    Four,
    Eight,
}

/// A number and how often it stands.
#[derive(Clone, Copy)]
pub struct Number {
    pub value: u64,
    pub width: Width,
    pub times: u64,
}

/// The number that a word spells.
pub fn read_number(word: &str) -> Result<Number, Fault> {
    let (text, times) = match word.split_once('*') {
        Some((text, times)) => (text, digits(times, 10)?),
        None => (word, 1),
    };
    let (text, width) = split_width(text);
    Ok(Number {
        value: value(text)?,
        width,
        times,
    })
}

fn split_width(text: &str) -> (&str, Width) {
    if let Some(text) = text.strip_suffix("u8") {
        (text, Width::One)
    } else if let Some(text) = text.strip_suffix("u64") {
        (text, Width::Eight)
    } else {
        (text, Width::Four)
    }
}

fn value(text: &str) -> Result<u64, Fault> {
    if let Some(text) = text.strip_prefix("0x") {
        digits(text, 16)
    } else if let Some(text) = text.strip_prefix("0o") {
        digits(text, 8)
    } else {
        digits(text, 10)
    }
}

fn digits(text: &str, radix: u32) -> Result<u64, Fault>
    requires least { 2 ≤ radix }
    requires most { radix ≤ 36 }
{
    match u64::from_str_radix(text, radix) {
        Ok(value) => Ok(value),
        Err(_) => Err(Fault::Line("no number")),
    }
}
