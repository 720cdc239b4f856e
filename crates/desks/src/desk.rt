// A job and the ticket of its open walk.
ghost use Rattle.desks.specs.Held.{holds};
ghost use Rattle.jobs.specs.Searching.{is_open};
ghost use Rattle.std.specs.Prelude.{◌≡◌, true, false};

use jobs::job::Job;
use jobs::ticket::Ticket;

/// A job, and the ticket of its walk while one is open. A setter who sits at it brings tickets by their number: the
/// job's own number for the ticket that is held here, another for the ticket of another job.
pub struct Desk<C, W> {
    pub(crate) job: Job<C, W>,
    pub(crate) held: Option<Ticket>,
    ghost own: { holds job.number job.current held ≡ true },
}

impl<C, W> Desk<C, W> {
    // The job and the ticket, apart.
    pub(crate) fn parts(self) -> (Job<C, W>, Option<Ticket>)
        ensures job { result.0 ≡ self.job }
        ensures held { result.1 ≡ self.held }
    {
        let Desk { job, held } = self;
        (job, held)
    }
}

impl<C: Drop, W: Drop> Drop for Desk<C, W> {
    // A desk is let go like any value while no walk is open at it; where one is, its ticket is handed back by `leave`.
    fn drop(self)
        requires { is_open self.job.current ≡ false }
    {
        let Desk { job: _, held } = self;
        match held {
            None => {}
            Some(_) => unreachable!(),
        }
    }
}
