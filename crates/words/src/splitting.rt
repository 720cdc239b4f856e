// The words of a line: what stands between its spaces.
ghost use Rattle.std.specs.Iterator.{YieldsFirstRef, item_count};
ghost use Rattle.std.specs.Prelude.{◌≡◌, [], ◌∷◌, Decides, MatchOption};
ghost use Rattle.words.specs.Words.{words_of};

/// The first word of a text, and what follows it; `None` where the text has no word.
pub fn next_word(text: &str) -> Option<(&str, &str)>
    ensures { MatchOption result (words_of text.now ≡ []) (λ p. words_of text.now ≡ p.0.now ∷ words_of p.1.now) }
{
    let rest = text.trim_start_matches(' ');
    if rest.is_empty() {
        return None;
    }
    rest.split_once(' ').or(Some((rest, "")))
}

/// Whether a text has no word.
pub fn is_blank(text: &str) -> bool
    ensures { Decides result (words_of text.now ≡ []) }
{
    next_word(text).is_none()
}

/// The words of a text, one by one.
#[derive(Clone, Copy)]
pub struct Words<'a>(pub &'a str);

impl<'a> Iterator for Words<'a> {
    type Item = &'a str;

    ghost next_gives = { YieldsFirstRef (λ s. words_of s.0.now) };

    ghost remaining = { item_count (λ s. words_of s.0.now) };

    fn next(&mut self) -> Option<&'a str> {
        let (word, rest) = next_word(self.0)?;
        self.0 = rest;
        Some(word)
    }
}
