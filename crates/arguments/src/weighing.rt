// The arguments of the calls that weigh: the words after the first.
ghost use Rattle.calls.specs.Calls.{Says};
ghost use Rattle.words.specs.Exact.{Exactly};
ghost use Rattle.words.specs.Words.{words_of};
ghost use Rattle.std.specs.Prelude.{◌∷◌, codes};

use calls::call::Call;
use words::rows::read_row;
use words::values::take_two;

/// `weigh S0 S1 ..`, from the text after its first word.
pub fn read_weigh(text: &str) -> Option<Call>
    ensures { Exactly (Says (codes "weigh" ∷ words_of text.now)) result }
{
    let row = read_row(text)?;
    Some(Call::Weigh { row })
}

/// `what-if I K S0 S1 ..`, from the text after its first word.
pub fn read_what_if(text: &str) -> Option<Call>
    ensures { Exactly (Says (codes "what-if" ∷ words_of text.now)) result }
{
    let (i, k, rest) = take_two::<u8>(text)?;
    let row = read_row(rest)?;
    Some(Call::WhatIf { i, k, row })
}
