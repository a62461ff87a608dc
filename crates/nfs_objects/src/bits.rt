//! Sets of numbers below 512.

ghost use Rattle.std.specs.Prelude.{◌≡◌, ◌<◌, ◌≤◌, ◌==◌, ◌&&◌, ◌||◌, ℕ, nat_lt, not};
ghost use Rattle.nfs_objects.specs.Bits.{IsEnd, IsMask, IsWordBelow, has, no_bits, same_bits};

/// How many numbers a set of bits may have.
pub const BITS: u64 = 512;

/// How many of them a word tells of.
const WORD: u64 = 64;

/// A set of numbers below `BITS`.
#[derive(Clone, Copy, Debug, PartialEq, Eq)]
pub struct Bits {
    words: [u64; 8],
}

impl Bits {
    /// No number.
    pub fn none() -> Bits
        ensures { result ≡ no_bits }
    {
        Bits { words: [0; 8] }
    }

    /// Whether there is no number in it.
    pub fn is_none(self) -> bool
        ensures { result ≡ same_bits self no_bits }
    {
        self == Bits::none()
    }

    /// Whether a number is in it; none from `BITS` on is.
    pub fn has(self, number: u64) -> bool
        ensures { result ≡ has self number }
    {
        number < BITS && (self.words[(number / WORD) as usize] >> (number % WORD)) & 1 == 1
    }

    /// The number behind the last one in it; 0 where there is none.
    pub fn end(self) -> u64
        ensures small { result ≤ 512 }
        ensures end { IsEnd self result }
    {
        for place in (0..self.words.len()).rev() {
            let word = self.words[place];
            if word != 0 {
                return place as u64 * WORD + u64::from(u64::BITS - word.leading_zeros());
            }
        }
        0
    }

    /// The same with this number.
    pub fn with(self, number: u64) -> Bits
        requires { number < 512 }
        ensures { (n : ℕ) → has result n ≡ (has self n || (n == number)) }
    {
        let mut words = self.words;
        words[(number / WORD) as usize] |= 1 << (number % WORD);
        Bits { words }
    }

    /// The same without this number.
    pub fn without(self, number: u64) -> Bits
        requires { number < 512 }
        ensures { (n : ℕ) → has result n ≡ (has self n && not (number == n)) }
    {
        let mut words = self.words;
        words[(number / WORD) as usize] &= !(1 << (number % WORD));
        Bits { words }
    }

    /// Those numbers that are in both.
    pub fn both(self, other: Bits) -> Bits
        ensures { (n : ℕ) → has result n ≡ (has self n && has other n) }
    {
        Bits {
            words: [
                self.words[0] & other.words[0],
                self.words[1] & other.words[1],
                self.words[2] & other.words[2],
                self.words[3] & other.words[3],
                self.words[4] & other.words[4],
                self.words[5] & other.words[5],
                self.words[6] & other.words[6],
                self.words[7] & other.words[7],
            ],
        }
    }

    /// Those numbers of it that are below this one.
    pub fn below(self, number: u64) -> Bits
        ensures { (n : ℕ) → has result n ≡ (has self n && nat_lt n number) }
    {
        Bits {
            words: [
                self.word_below(0, number),
                self.word_below(1, number),
                self.word_below(2, number),
                self.word_below(3, number),
                self.word_below(4, number),
                self.word_below(5, number),
                self.word_below(6, number),
                self.word_below(7, number),
            ],
        }
    }

    /// The word at a place, without the bits of this number and of those behind it.
    fn word_below(self, place: usize, number: u64) -> u64
        requires { place < 8 }
        ensures { IsWordBelow self.words place number result }
    {
        let first = place as u64 * WORD;
        self.words[place] & mask(number.saturating_sub(first))
    }
}

/// The first so many bits of a word; all of them from `WORD` on.
fn mask(count: u64) -> u64
    ensures { IsMask count result }
{
    if count < WORD {
        (1 << count) - 1
    } else {
        u64::MAX
    }
}
