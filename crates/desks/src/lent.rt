// A ticket of any number.
ghost use Rattle.jobs.specs.Searching.{is_open};
ghost use Rattle.std.specs.Prelude.{◌≡◌, true};

use charges::Count;
use floors::Past;
use jobs::job::Job;
use jobs::ticket::Ticket;
use tables::sheet::ENTRIES;
use walks::ways::Plain;

// The ticket of another job, which has a walk open.
pub(crate) struct Lent {
    pub(crate) job: Job<Count, Plain<Past>>,
    pub(crate) ticket: Ticket,
    ghost own: { ticket.number ≡ job.number },
    ghost walking: { is_open job.current ≡ true },
}

impl Lent {
    // A ticket with this number, of a job that is opened for it.
    pub(crate) fn new(number: u32) -> Lent
        ensures { result.ticket.number ≡ number }
    {
        let mut job = Job::open_plain(number, Past {});
        let mut sheet = [0u16; ENTRIES];
        let _ = job.add(&mut sheet, 1).unwrap();
        let ticket = job.start(Count { number: 1 }).unwrap();
        Lent { job, ticket }
    }

    // Hands the ticket back to its job.
    pub(crate) fn give_back(self) {
        let Lent { mut job, ticket } = self;
        let mut row = [0u8; 20];
        let _ = job.close(ticket, &mut row).unwrap();
    }
}
