// Values that one word says.
ghost use Rattle.std.specs.Prelude.{ℕ, List};
ghost use Rattle.words.specs.Exact.{Exactly, Takes, TakesTwo};
ghost use Rattle.words.specs.Numbers.{Number};
ghost use Rattle.words.specs.Words.{words_of};

use crate::numbers::decimal;
use crate::splitting::next_word;

/// A value that a word can say; `said w x` holds where the word w says x.
// Stays: std's `FromStr` reads `+5` as a number, which is none here.
pub trait FromWord: Sized {
    ghost said: { List ℕ → Self → Type 0 };

    /// The value that the word says, if it says one.
    fn from_word(word: &str) -> Option<Self>
        ensures { Exactly (said word.now) result };
}

// Stays: an impl for each size of number, of one line: one impl for all sizes would overlap those for names.
impl FromWord for u8 {
    ghost said = { Number 255 };

    fn from_word(word: &str) -> Option<u8> {
        decimal(word.as_bytes(), 255).map(|n| n as u8)
    }
}

impl FromWord for u16 {
    ghost said = { Number 65535 };

    fn from_word(word: &str) -> Option<u16> {
        decimal(word.as_bytes(), 65535).map(|n| n as u16)
    }
}

impl FromWord for u32 {
    ghost said = { Number 4294967295 };

    fn from_word(word: &str) -> Option<u32> {
        decimal(word.as_bytes(), u32::MAX)
    }
}

/// The value that the first word of the text says, and what follows that word.
pub fn take<T: FromWord>(text: &str) -> Option<(T, &str)>
    ensures { Takes T.said (words_of text.now) result }
{
    let (word, rest) = next_word(text)?;
    Some((T::from_word(word)?, rest))
}

/// The values that the first two words of the text say, and what follows these words.
pub fn take_two<T: FromWord + Drop>(text: &str) -> Option<(T, T, &str)>
    ensures { TakesTwo T.said (words_of text.now) result }
{
    let (one, rest) = take::<T>(text)?;
    let (two, rest) = take::<T>(rest)?;
    Some((one, two, rest))
}
