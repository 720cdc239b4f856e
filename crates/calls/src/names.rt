// The words that name a kind, the walks and a bound.
ghost use Rattle.std.specs.Prelude.{◌≡◌};
ghost use Rattle.calls.specs.Names.{kind_word, walks_word, bound_word};

use crate::call::{KindName, SimpleBound, Walks};
use words::values::FromWord;

// Stays: a match in each impl, since a table of words and values, and a search of it, would be longer.
impl FromWord for KindName {
    ghost said = { λ w x. w ≡ kind_word x };

    fn from_word(word: &str) -> Option<KindName> {
        match word {
            "count" => Some(KindName::Count),
            "sum" => Some(KindName::Sum),
            "worst" => Some(KindName::Worst),
            "ranked" => Some(KindName::Ranked),
            _ => None,
        }
    }
}

impl FromWord for Walks {
    ghost said = { λ w x. w ≡ walks_word x };

    fn from_word(word: &str) -> Option<Walks> {
        match word {
            "plain" => Some(Walks::Plain),
            "both" => Some(Walks::Both),
            _ => None,
        }
    }
}

impl FromWord for SimpleBound {
    ghost said = { λ w x. w ≡ bound_word x };

    fn from_word(word: &str) -> Option<SimpleBound> {
        match word {
            "past" => Some(SimpleBound::Past),
            "forward" => Some(SimpleBound::Forward),
            "directed" => Some(SimpleBound::Directed),
            _ => None,
        }
    }
}
