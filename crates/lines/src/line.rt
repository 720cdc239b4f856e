// Reads a line of a script.
ghost use Rattle.calls.specs.Calls.{Says, has};
ghost use Rattle.lines.specs.Lines.{Reads};
ghost use Rattle.words.specs.Exact.{Exactly};
ghost use Rattle.words.specs.Words.{words_of};
ghost use Rattle.std.specs.Prelude.{◌≡◌, true};

use arguments::building::{read_add, read_charge, read_narrow};
use arguments::floors::{read_floor, read_floor_with};
use arguments::walking::{read_ahead, read_close, read_sit, read_start};
use arguments::weighing::{read_weigh, read_what_if};
use calls::call::{Call, Vocabulary};
use calls::opening::read_open;
use words::splitting::next_word;

// Stays: an enum and no Option in an Option, since its three cases have names.
/// What a line of a script is: blank or a comment, which is skipped; no call; or a call.
#[derive(Debug, Clone, Copy, PartialEq)]
pub enum Line {
    Skipped,
    NoCall,
    Call(Call),
}

// The call, of either vocabulary, that the words of a line say.
fn read_any_call(line: &str) -> Option<Call>
    ensures { Exactly (Says (words_of line.now)) result }
{
    let (word, rest) = next_word(line)?;
    match word {
        "open" => read_open(rest),
        "add" => read_add(rest),
        "charge" => read_charge(rest),
        "narrow" => read_narrow(rest),
        "weigh" => read_weigh(rest),
        "what-if" => read_what_if(rest),
        "floor" => read_floor(rest),
        "floor-with" => read_floor_with(rest),
        "start" => read_start(rest),
        "ahead" => read_ahead(rest),
        "sit" => read_sit(rest),
        "close" => read_close(rest),
        _ => None,
    }
}

/// The call of the vocabulary that the words of a line say; `None` where they say none.
///
/// - `open NUMBER KIND WALKS BOUND`: a kind is `count`, `sum`, `worst` or `ranked`, the walks are `plain` or `both`, and a
///   bound is `past`, `forward`, `directed`, or `higher` and two of these. With `both`, `past` is no bound, nor a part of one.
/// - `add SETTINGS`, `charge I K J L CLASH`, `narrow I MASK`
/// - `weigh S0 S1 ..`, `what-if I K S0 S1 ..`, `floor S0 S1 ..` and `floor-with J K S0 S1 ..`, with at most twenty settings
/// - `start CEILING` and `ahead CEILING`: a ceiling is a number, or two numbers for a ranked charge. Whether it is a charge of the
///   job's kind is not told by the line.
/// - `sit STEPS` and `close`, and after each perhaps `ticket NUMBER`
///
/// `start`, `ahead`, `sit` and `close` are calls of the walking vocabulary alone.
///
/// A number is one digit or more, with no sign; leading zeros are allowed. NUMBER and STEPS are a `u32`, and so is a ceiling of one
/// number and the second of two; CLASH and the first of two are a `u16`, and each other is a `u8`.
pub fn read_call(vocabulary: Vocabulary, line: &str) -> Option<Call>
    ensures { Exactly (λ call. Says (words_of line.now) call × (has vocabulary call ≡ true)) result }
{
    read_any_call(line).filter(|call| vocabulary.has(*call))
}

/// What a line of a script of the vocabulary is. A comment is a line whose first word starts with `#`.
pub fn read_line(vocabulary: Vocabulary, line: &str) -> Line
    ensures { Reads vocabulary (words_of line.now) result }
{
    if next_word(line).is_none_or(|(first, _)| first.starts_with('#')) {
        return Line::Skipped;
    }
    read_call(vocabulary, line).map_or(Line::NoCall, Line::Call)
}
