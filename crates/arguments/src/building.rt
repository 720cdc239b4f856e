// The arguments of the calls that build: the words after the first.
ghost use Rattle.calls.specs.Calls.{Says};
ghost use Rattle.words.specs.Exact.{Exactly};
ghost use Rattle.words.specs.Words.{words_of};
ghost use Rattle.std.specs.Prelude.{◌∷◌, codes};

use calls::call::Call;
use words::splitting::is_blank;
use words::values::{take, take_two};

/// `add SETTINGS`, from the text after its first word.
pub fn read_add(text: &str) -> Option<Call>
    ensures { Exactly (Says (codes "add" ∷ words_of text.now)) result }
{
    let (settings, rest) = take::<u8>(text)?;
    is_blank(rest).then_some(Call::Add { settings })
}

/// `charge I K J L CLASH`, from the text after its first word.
pub fn read_charge(text: &str) -> Option<Call>
    ensures { Exactly (Says (codes "charge" ∷ words_of text.now)) result }
{
    let (i, k, rest) = take_two::<u8>(text)?;
    let (j, l, rest) = take_two::<u8>(rest)?;
    let (clash, rest) = take::<u16>(rest)?;
    is_blank(rest).then_some(Call::Charge { i, k, j, l, clash })
}

/// `narrow I MASK`, from the text after its first word.
pub fn read_narrow(text: &str) -> Option<Call>
    ensures { Exactly (Says (codes "narrow" ∷ words_of text.now)) result }
{
    let (i, mask, rest) = take_two::<u8>(text)?;
    is_blank(rest).then_some(Call::Narrow { i, mask })
}
