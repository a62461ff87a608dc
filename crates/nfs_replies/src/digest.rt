//! The hash of a record, under a key that the process alone has.
//!
//! It reads the bytes in blocks of 64, each as four pairs of words of 64 bits, a pair for each of four lanes. To the
//! one word of a pair a word of the key is added, to the other the lane, and the two sums are multiplied. The halves of
//! the product, which has 128 bits, the lower one turned by 13 places, are put together by exclusive or, and are the
//! lane from then on. At the end the lanes are put together so, with the length. That takes less than an instruction
//! for a byte.
//!
//! Who does not know the key should find no records with one hash but by chance. Both factors of each product are sums
//! with words that are secret, so that nobody knows which bytes make a factor 0 or small: of one word that is so of one
//! key in 2^64, and a record of 64 KiB has 8,192 of them. Where pairs that differ leave a lane different, bytes that
//! come behind do not make up for it, since they are added to a lane that is secret too. The halves may not be put
//! together by addition: that is nearly a product modulo 2^64 - 1, which 3 and 5 divide, so that words a third of 2^64
//! apart leave one lane under each fifth key, and two words in either order under each second. Without the turn such
//! words still do it far more often than by chance (about one key in 2^29, as words of up to 20 bits let expect); with
//! it no such words were found.
//!
//! All this is how functions of this kind are judged, and no proof. The key is of random bytes of the program's start,
//! no message tells it, and of a hash none tells more than that a look-up took longer. What a look-up finds is right
//! whatever the hash is: only its time rests on this.

ghost use Rattle.std.specs.Prelude.{◌≡◌, ◌≤◌, ◌+◌, length};
ghost use Rattle.nfs_replies.specs.Keys.{digest, key_lanes, key_words, mixed, turned, joined, word};

use byteorder::{ByteOrder, LittleEndian};

/// How many bytes are read in one turn.
const BLOCK: usize = 64;

/// The first bits behind the point of the number pi, so that no word of them was chosen.
const PI: [u64; 8] = [
    0x243f_6a88_85a3_08d3,
    0x1319_8a2e_0370_7344,
    0xa409_3822_299f_31d0,
    0x082e_fa98_ec4e_6c89,
    0x4528_21e6_38d0_1377,
    0xbe54_66cf_34e9_0c6c,
    0xc0ac_29b7_c97c_50dd,
    0x3f84_d5b5_b547_0917,
];

/// The key under which records are hashed: 16 random bytes of the program's start. Nobody else knows it.
#[derive(Clone, Copy, PartialEq, Eq)]
pub struct RecordKey {
    first: u64,
    second: u64,
}

/// A word for each of the four lanes.
#[derive(Clone, Copy)]
struct Lanes {
    first: u64,
    second: u64,
    third: u64,
    fourth: u64,
}

impl RecordKey {
    /// The key of these bytes.
    pub fn new(random: &[u8; 16]) -> RecordKey {
        RecordKey {
            first: LittleEndian::read_u64(random),
            second: LittleEndian::read_u64(&random[8..]),
        }
    }

    /// The words that are added to what the lanes read.
    fn words(self) -> Lanes
        ensures { result ≡ key_words self }
    {
        Lanes {
            first: self.word(PI[0]),
            second: self.word(PI[1]),
            third: self.word(PI[2]),
            fourth: self.word(PI[3]),
        }
    }

    /// The lanes before the first block.
    fn lanes(self) -> Lanes
        ensures { result ≡ key_lanes self }
    {
        Lanes {
            first: self.word(PI[4]),
            second: self.word(PI[5]),
            third: self.word(PI[6]),
            fourth: self.word(PI[7]),
        }
    }

    /// The word of the key that this constant picks.
    fn word(self, constant: u64) -> u64
        ensures { result ≡ mixed self.first self.second constant constant }
    {
        mix(self.first, self.second, constant, constant)
    }
}

/// The hash of these bytes under a key. It reads all of them.
pub(crate) fn digest(key: RecordKey, bytes: &[u8]) -> u64
    ensures { result ≡ digest key bytes.now }
{
    let words = key.words();
    let mut lanes = key.lanes();
    let mut rest = bytes;
    'blocks: while rest.len() >= BLOCK {
        lanes = turn(words, lanes, rest);
        rest = &rest[BLOCK..];
    }
    let mut last = [0; BLOCK];
    last[..rest.len()].copy_from_slice(rest);
    join(words, turn(words, lanes, &last), bytes.len() as u64)
}

/// The lanes after one block.
fn turn(words: Lanes, lanes: Lanes, block: &[u8]) -> Lanes
    requires { 64 ≤ length block.now }
    ensures { result ≡ turned words lanes block.now }
{
    Lanes {
        first: mix(words.first, lanes.first, word(block, 0), word(block, 8)),
        second: mix(words.second, lanes.second, word(block, 16), word(block, 24)),
        third: mix(words.third, lanes.third, word(block, 32), word(block, 40)),
        fourth: mix(words.fourth, lanes.fourth, word(block, 48), word(block, 56)),
    }
}

/// The hash, from the lanes at the end and how many bytes there were.
fn join(words: Lanes, lanes: Lanes, length: u64) -> u64
    ensures { result ≡ joined words lanes length }
{
    let one = mix(words.first, lanes.first, length, lanes.second);
    let other = mix(words.second, lanes.third, one, lanes.fourth);
    mix(words.third, words.fourth, one, other)
}

/// One lane after two words. Each of them is added to a word that is secret, the sums are multiplied, and the halves of
/// the product are put together by exclusive or, with the lower one turned.
fn mix(word: u64, lane: u64, a: u64, b: u64) -> u64
    ensures { result ≡ mixed word lane a b }
{
    let (low, high) = a.wrapping_add(word).carrying_mul(b.wrapping_add(lane), 0);
    high ^ low.rotate_left(13)
}

/// The word at this place.
fn word(block: &[u8], at: usize) -> u64
    requires { at + 8 ≤ length block.now }
    ensures { result ≡ word block.now at }
{
    LittleEndian::read_u64(&block[at..])
}
