// Rows of numbers.
ghost use Rattle.words.specs.Rows.{Row};
ghost use Rattle.words.specs.Exact.{Exactly};
ghost use Rattle.words.specs.Words.{words_of};
ghost use Rattle.std.specs.Prelude.{◌≡◌, length};

use crate::splitting::Words;
use crate::values::FromWord;

/// The row that the words of a text fill, at most twenty numbers and then zeros; and how many words there are.
pub fn read_path(text: &str) -> Option<([u8; 20], u8)>
    ensures { Exactly (λ p. Row (words_of text.now) p.0 × (length (words_of text.now) ≡ p.1)) result }
{
    let mut row = [0; 20];
    let mut len = 0;
    for (i, word) in Words(text).enumerate() {
        if i == 20 {
            return None;
        }
        row[i] = u8::from_word(word)?;
        len = i + 1;
    }
    Some((row, len as u8))
}

/// The row that the words of a text fill: at most twenty numbers, and then zeros.
pub fn read_row(text: &str) -> Option<[u8; 20]>
    ensures { Exactly (Row (words_of text.now)) result }
{
    let (row, _) = read_path(text)?;
    Some(row)
}
