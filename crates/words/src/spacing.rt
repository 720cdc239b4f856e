// Words with one space between them.
ghost use Rattle.std.specs.Prelude.{◌≡◌, IfOk, string_bytes};
ghost use Rattle.words.specs.Words.{words_of, spaced_text};

use crate::splitting::{Words, next_word};
use std::alloc::{AllocError, Global};

/// The words of a text, with one space between them.
pub fn spaced(heap: Global, text: &str) -> Result<String, AllocError>
    ensures { IfOk result (λ s. string_bytes s ≡ spaced_text (words_of text.now)) }
{
    let mut out = String::new(heap);
    let Some((first, rest)) = next_word(text) else {
        return Ok(out);
    };
    out.push_str(first)?;
    for word in Words(rest) {
        out.push_str(" ")?;
        out.push_str(word)?;
    }
    Ok(out)
}
