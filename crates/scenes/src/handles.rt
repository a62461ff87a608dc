//! Which handles a server has given in the place of those of a text. A call that was refused may have lost a number or
//! a generation, so that the next new object gets another.

use crate::stream::part;
use std::alloc::{AllocError, Global};

/// How many bytes a handle has.
const SIZE: usize = 32;

/// What a handle begins with.
const MARK: [u8; 4] = [0x4e, 0x46, 0x44, 0x33];

/// How many bytes stand before the number of its object and its generation: mark, export and start number.
const NUMBER: usize = 16;

/// Where the number of its object ends.
const GENERATION: usize = 24;

/// The handles of a text, and those that stand for them, each from its first place in an answer on.
#[derive(Drop)]
pub struct Handles {
    wanted: Vec<u8>,
    given: Vec<u8>,
}

impl Handles {
    pub fn new(alloc: Global) -> Handles {
        Handles {
            wanted: Vec::new(alloc),
            given: Vec::new(alloc),
        }
    }

    /// The record with the handles that stand for those in it.
    pub fn applied(&self, alloc: Global, record: &[u8]) -> Result<Vec<u8>, AllocError> {
        let mut applied = Vec::with_capacity(alloc, record.len())?;
        for (number, word) in record.chunks(4).enumerate() {
            let place = number.wrapping_mul(4);
            if place < applied.len() {
                continue;
            }
            let handle = part(record, place, place.wrapping_add(SIZE));
            applied.extend_from_slice(self.stands_for(handle).unwrap_or(word))?;
        }
        Ok(applied)
    }

    /// Whether what was given is what is wanted, but for handles and their numbers.
    pub fn admit(&mut self, wanted: &[u8], given: &[u8]) -> Result<bool, AllocError> {
        if wanted.len() != given.len() {
            return Ok(false);
        }
        let mut behind = 0usize;
        for (number, (theirs, ours)) in wanted.chunks(4).zip(given.chunks(4)).enumerate() {
            let place = number.wrapping_mul(4);
            if place < behind {
                continue;
            }
            if theirs == MARK.as_slice() && ours == MARK.as_slice() {
                behind = place.wrapping_add(SIZE);
                if !self.bind(part(wanted, place, behind), part(given, place, behind))? {
                    return Ok(false);
                }
            } else if theirs != ours
                && !self.is_number(around(wanted, place), around(given, place))
            {
                return Ok(false);
            }
        }
        Ok(true)
    }

    /// Whether the one handle may stand for the other. From then on it does.
    fn bind(&mut self, wanted: &[u8], given: &[u8]) -> Result<bool, AllocError> {
        if let Some(known) = self.stands_for(wanted) {
            return Ok(known == given);
        }
        if wanted.len() != SIZE {
            return Ok(false);
        }
        if self.has_given(given) || part(wanted, 0, NUMBER) != part(given, 0, NUMBER) {
            return Ok(false);
        }
        self.wanted.extend_from_slice(wanted)?;
        self.given.extend_from_slice(given)?;
        Ok(true)
    }

    /// Whether this handle stands for one.
    fn has_given(&self, given: &[u8]) -> bool {
        for ours in self.given.chunks(SIZE) {
            if ours == given {
                return true;
            }
        }
        false
    }

    /// The handle that stands for this one, if any does.
    fn stands_for(&self, wanted: &[u8]) -> Option<&[u8]> {
        for (theirs, ours) in self.wanted.chunks(SIZE).zip(self.given.chunks(SIZE)) {
            if theirs == wanted {
                return Some(ours);
            }
        }
        None
    }

    /// Whether the one is the number of an object whose handle stands for that of the other's.
    fn is_number(&self, wanted: &[u8], given: &[u8]) -> bool {
        for (theirs, ours) in self.wanted.chunks(SIZE).zip(self.given.chunks(SIZE)) {
            if part(theirs, NUMBER, GENERATION) == wanted
                && part(ours, NUMBER, GENERATION) == given
            {
                return true;
            }
        }
        false
    }
}

/// The two words of which the second is at this place.
fn around(bytes: &[u8], place: usize) -> &[u8] {
    part(bytes, place.wrapping_sub(4), place.wrapping_add(4))
}
