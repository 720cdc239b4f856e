// The text of a line with its answer.
ghost use Rattle.answers.specs.Answers.{report_text};
ghost use Rattle.std.specs.Prelude.{◌≡◌, IfOk, string_bytes};
ghost use Rattle.words.specs.Words.{words_of};

use crate::answer::Answer;
use std::alloc::{AllocError, Global};
use words::spacing::spaced;

/// A line and its answer: the words of the line with one space between them, then ` -> ` and the text of the answer.
pub fn report(heap: Global, line: &str, answer: Answer) -> Result<String, AllocError>
    ensures { IfOk result (λ s. string_bytes s ≡ report_text (words_of line.now) answer) }
{
    let said = spaced(heap, line)?;
    format!(in heap; "{said} -> {answer}")
}
