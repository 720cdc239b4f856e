// The end of a walk.
ghost use Rattle.walks.specs.Outcomes.{fixed, Closes};
ghost use Rattle.std.specs.Prelude.{◌≡◌, ◌≤◌, length};

use crate::outcome::{Closed, Outcome};
use crate::state::Search;
use charges::Charge;

impl Outcome {
    /// The number of the outcome.
    pub fn number(self) -> u8
        ensures { result ≡ (fixed self).number }
    {
        self as u8
    }

    /// Whether a setup comes with it.
    pub fn has_setup(self) -> bool
        ensures { result ≡ (fixed self).with_setup }
    {
        matches!(self, Outcome::UnfinishedWithSetup | Outcome::Finished)
    }
}

impl<C: Charge> Search<C> {
    /// Ends the walk: writes the best setup, if there is one, into the row's first bytes.
    pub fn close(self, row: &mut [u8]) -> Closed<C>
        requires { 20 ≤ length row.old }
        ensures { Closes C.Charge.kind C.Charge.means self row.old result row.new }
    {
        let outcome = match (self.is_finished(), self.best.is_some()) {
            (false, false) => Outcome::Unfinished,
            (false, true) => Outcome::UnfinishedWithSetup,
            (true, true) => Outcome::Finished,
            (true, false) => Outcome::NoneBelow,
        };
        if let Some(best) = self.best {
            let n = self.modules.count();
            row[..n].copy_from_slice(&best.setup[..n]);
        }
        Closed {
            outcome,
            charge: self.limit(),
            steps: self.steps,
        }
    }
}
