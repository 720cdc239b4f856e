// The arguments of the calls on a walk: the words after the first.
ghost use Rattle.calls.specs.Calls.{Says, Ceiling, Ticket};
ghost use Rattle.words.specs.Exact.{Exactly};
ghost use Rattle.words.specs.Words.{words_of};
ghost use Rattle.std.specs.Prelude.{◌∷◌, codes};

use calls::call::Call;
use told::figure::Figure;
use words::splitting::{is_blank, next_word};
use words::values::{FromWord, take};

// The ceiling that all words of a text are.
fn read_ceiling(text: &str) -> Option<Figure>
    ensures { Exactly (Ceiling (words_of text.now)) result }
{
    let (first, rest) = next_word(text)?;
    if is_blank(rest) {
        return u32::from_word(first).map(Figure::One);
    }
    let forbidden = u16::from_word(first)?;
    let (soft, rest) = take::<u32>(rest)?;
    is_blank(rest).then_some(Figure::Two(forbidden, soft))
}

// The ticket that all words of a text name, if there are words.
fn read_ticket(text: &str) -> Option<Option<u32>>
    ensures { Exactly (Ticket (words_of text.now)) result }
{
    match next_word(text) {
        None => Some(None),
        Some(("ticket", rest)) => {
            let (number, rest) = take::<u32>(rest)?;
            is_blank(rest).then_some(Some(number))
        }
        Some(_) => None,
    }
}

// Stays: start and ahead are read in one line each, as calls of two kinds.
/// `start CEILING`, from the text after its first word.
pub fn read_start(text: &str) -> Option<Call>
    ensures { Exactly (Says (codes "start" ∷ words_of text.now)) result }
{
    let ceiling = read_ceiling(text)?;
    Some(Call::Start { ceiling })
}

/// `ahead CEILING`, from the text after its first word.
pub fn read_ahead(text: &str) -> Option<Call>
    ensures { Exactly (Says (codes "ahead" ∷ words_of text.now)) result }
{
    let ceiling = read_ceiling(text)?;
    Some(Call::Ahead { ceiling })
}

/// `sit STEPS` or `sit STEPS ticket NUMBER`, from the text after its first word.
pub fn read_sit(text: &str) -> Option<Call>
    ensures { Exactly (Says (codes "sit" ∷ words_of text.now)) result }
{
    let (steps, rest) = take::<u32>(text)?;
    let ticket = read_ticket(rest)?;
    Some(Call::Sit { steps, ticket })
}

/// `close` or `close ticket NUMBER`, from the text after its first word.
pub fn read_close(text: &str) -> Option<Call>
    ensures { Exactly (Says (codes "close" ∷ words_of text.now)) result }
{
    let ticket = read_ticket(text)?;
    Some(Call::Close { ticket })
}
