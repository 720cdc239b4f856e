// The bound that words name, and the arguments of open.
ghost use Rattle.calls.specs.Calls.{Says, bound_words};
ghost use Rattle.words.specs.Exact.{Exactly};
ghost use Rattle.words.specs.Words.{words_of};
ghost use Rattle.std.specs.Prelude.{◌≡◌, ◌∷◌, codes};

use crate::call::{BoundName, Call, KindName, SimpleBound, Walks};
use words::splitting::{is_blank, next_word};
use words::values::{FromWord, take, take_two};

// The bound that all words of a text say.
fn read_bound(text: &str) -> Option<BoundName>
    ensures { Exactly (λ b. words_of text.now ≡ bound_words b) result }
{
    match next_word(text)? {
        ("higher", rest) => {
            let (a, b, rest) = take_two::<SimpleBound>(rest)?;
            is_blank(rest).then_some(BoundName::Higher(a, b))
        }
        (word, rest) => {
            let a = SimpleBound::from_word(word)?;
            is_blank(rest).then_some(BoundName::One(a))
        }
    }
}

/// `open NUMBER KIND WALKS BOUND`, from the text after its first word.
pub fn read_open(text: &str) -> Option<Call>
    ensures { Exactly (Says (codes "open" ∷ words_of text.now)) result }
{
    let (number, rest) = take::<u32>(text)?;
    let (kind, rest) = take::<KindName>(rest)?;
    let (walks, rest) = take::<Walks>(rest)?;
    let bound = read_bound(rest)?;
    walks.allow(bound).then_some(Call::Open {
        number,
        kind,
        walks,
        bound,
    })
}
