// The arguments of the calls that ask for floors: the words after the first.
ghost use Rattle.calls.specs.Calls.{Says};
ghost use Rattle.words.specs.Exact.{Exactly};
ghost use Rattle.words.specs.Words.{words_of};
ghost use Rattle.std.specs.Prelude.{◌∷◌, codes};

use calls::call::Call;
use words::rows::read_path;
use words::values::take_two;

/// `floor S0 S1 ..`, from the text after its first word.
pub fn read_floor(text: &str) -> Option<Call>
    ensures { Exactly (Says (codes "floor" ∷ words_of text.now)) result }
{
    let (path, len) = read_path(text)?;
    Some(Call::Floor { path, len })
}

/// `floor-with J K S0 S1 ..`, from the text after its first word.
pub fn read_floor_with(text: &str) -> Option<Call>
    ensures { Exactly (Says (codes "floor-with" ∷ words_of text.now)) result }
{
    let (j, k, rest) = take_two::<u8>(text)?;
    let (path, len) = read_path(rest)?;
    Some(Call::FloorWith { j, k, path, len })
}
