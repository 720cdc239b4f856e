// Leaving a desk.
ghost use Rattle.walks.specs.Outcomes.{Closes};
ghost use Rattle.std.specs.Prelude.{◌≡◌, ◌≤◌, length, None, MatchOption};

use crate::desk::Desk;
use charges::Charge;
use walks::outcome::Closed;
use walks::ways::Walk;

impl<C: Charge, W: Walk<C>> Desk<C, W> {
    /// Lets the job go. A walk that is open is closed, with its best setup in the row; `None` where none is open.
    pub fn leave(self, row: &mut [u8; 20]) -> Option<Closed<C>>
        ensures { MatchOption result (self.job.current ≡ None) (λ told. MatchOption self.job.current ⊥ (λ s. Closes C.Charge.kind C.Charge.means s row.old told row.new)) }
    {
        let (mut job, held) = self.parts();
        let ticket = held?;
        Some(job.close(ticket, row).unwrap())
    }
}
