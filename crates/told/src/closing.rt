// The text of how a walk ended.
ghost use Rattle.told.specs.Texts.{setup_text, closing_text};
ghost use Rattle.std.specs.Prelude.{Some};

use crate::figure::Figure;
use std::fmt;
use walks::outcome::Outcome;

/// A setup as it is printed: the first `len` of twenty settings.
// Stays: twenty bytes and a length, since what an answer holds has no heap.
#[derive(Clone, Copy)]
pub struct Setup {
    pub settings: [u8; 20],
    pub len: u8,
}

/// What a walk had come to when it was closed: its outcome, the charge of its best setup, or its ceiling
/// where it has none, the steps that it made, and that setup.
#[derive(Clone, Copy)]
pub struct Closing {
    pub outcome: Outcome,
    pub charge: Figure,
    pub steps: u64,
    pub setup: Option<Setup>,
}

// Each setting, with a space before it.
impl fmt::Display for Setup {
    ghost output = { λ x. Some (setup_text x) };

    fn fmt<W: fmt::Write>(&self, f: &mut fmt::Formatter<W>) -> fmt::Result {
        for setting in self.settings.iter().take(usize::from(self.len)) {
            write!(f, " {setting}")?;
        }
        Ok(())
    }
}

impl fmt::Display for Closing {
    ghost output = { λ x. Some (closing_text x) };

    fn fmt<W: fmt::Write>(&self, f: &mut fmt::Formatter<W>) -> fmt::Result {
        let Closing {
            outcome,
            charge,
            steps,
            setup,
        } = *self;
        let outcome = outcome.number();
        match setup {
            None => write!(f, "outcome {outcome} charge {charge} steps {steps}"),
            Some(setup) => write!(
                f,
                "outcome {outcome} charge {charge} steps {steps} setup{setup}"
            ),
        }
    }
}
