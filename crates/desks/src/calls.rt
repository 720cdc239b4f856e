// The calls of a setter who sits at a desk.
ghost use Rattle.jobs.specs.Checks.{start_checks, sit_checks, close_checks};
ghost use Rattle.jobs.specs.Refusals.{Decides, first};
ghost use Rattle.jobs.specs.Searching.{is_open, Starts, SitsOpen, ClosesOpen};
ghost use Rattle.std.specs.Prelude.{◌≡◌, true, false, length, Some, None, MatchOption, ◌≢◌};

use crate::desk::Desk;
use crate::lent::Lent;
use bounds::setting::SettingBound;
use charges::Charge;
use jobs::refusal::Refusal;
use jobs::sat::{Sat, Unclosed};
use jobs::ticket::Ticket;
use walks::outcome::Closed;
use walks::ways::{Both, Walk};

// Keeps a ticket where none is, and gives its number.
// Stays: a ticket may not be let go, so nothing can be assigned over it, and what was there is looked at.
fn keep(held: &mut Option<Ticket>, ticket: Ticket) -> u32
    requires { held.old ≡ None }
    ensures kept { held.new ≡ Some ticket }
    ensures number { result ≡ ticket.number }
{
    let number = ticket.number();
    match held.replace(ticket) {
        None => number,
        Some(_) => unreachable!(),
    }
}

// Stays: what a call leaves of the job stands in plain equations, under the names that the job's own calls have.
impl<C: Charge, W: Walk<C>> Desk<C, W> {
    // Why a close with the ticket of another job is refused.
    fn refused(&mut self, ticket: u32, row: &mut [u8]) -> Refusal
        requires { first (close_checks (is_open self.old.job.current) self.old.job.number row.old ticket) ≢ None }
        ensures refusal { first (close_checks (is_open self.old.job.current) self.old.job.number row.old ticket) ≡ Some result }
        ensures row { row.new ≡ row.old }
        ensures same_walk { self.new.job.current ≡ self.old.job.current }
        ensures same_modules { self.new.job.modules ≡ self.old.job.modules }
        ensures same_number { self.new.job.number ≡ self.old.job.number }
        ensures same_walks { self.new.job.walks ≡ self.old.job.walks }
    {
        let Lent { job, ticket } = Lent::new(ticket);
        let Unclosed { refusal, ticket } = self.job.close(ticket, row).unwrap_err();
        Lent { job, ticket }.give_back();
        refusal
    }

    /// Begins a plain walk, keeps its ticket, and gives the number on it. Refuses 2 and 10.
    pub fn start(&mut self, ceiling: C) -> Result<u32, Refusal>
        ensures decides { Decides result (start_checks (is_open self.old.job.current) self.old.job.modules)
            (λ t. (t ≡ self.old.job.number) × MatchOption self.new.job.current ⊥ (Starts C.Charge.kind C.Charge.means self.old.job.modules false ceiling))
            (self.new.job.current ≡ self.old.job.current) }
        ensures same_modules { self.new.job.modules ≡ self.old.job.modules }
        ensures same_number { self.new.job.number ≡ self.old.job.number }
        ensures same_walks { self.new.job.walks ≡ self.old.job.walks }
    {
        let ticket = self.job.start(ceiling)?;
        Ok(keep(&mut self.held, ticket))
    }

    /// Sits with the ticket of this number: the one that is held here, or one of another job. Refuses 1, 11 and 12.
    pub fn sit(
        &mut self,
        sheet: &[u16],
        ticket: u32,
        steps: u32,
        scratch: &mut [C],
    ) -> Result<Sat, Refusal>
        ensures decides { Decides result (sit_checks (is_open self.old.job.current) self.old.job.number sheet.now (length scratch.old) ticket steps)
            (λ told. SitsOpen C.Charge.kind C.Charge.means (W.Walk.floor self.old.job.walks) (W.Walk.answer self.old.job.walks) sheet.now steps self.old.job.current self.new.job.current told)
            ((self.new.job.current ≡ self.old.job.current) × (scratch.new ≡ scratch.old)) }
        ensures same_modules { self.new.job.modules ≡ self.old.job.modules }
        ensures same_number { self.new.job.number ≡ self.old.job.number }
        ensures same_walks { self.new.job.walks ≡ self.old.job.walks }
    {
        match &self.held {
            Some(own) if own.number() == ticket => self.job.sit(sheet, own, steps, scratch),
            _ => {
                let lent = Lent::new(ticket);
                let told = self.job.sit(sheet, &lent.ticket, steps, scratch);
                lent.give_back();
                told
            }
        }
    }

    /// Closes with the ticket of this number: the one that is held here, or one of another job. A ticket that is given
    /// back stays where it was. Refuses 1 and 11.
    pub fn close(&mut self, ticket: u32, row: &mut [u8]) -> Result<Closed<C>, Refusal>
        ensures decides { Decides result (close_checks (is_open self.old.job.current) self.old.job.number row.old ticket)
            (λ told. ClosesOpen C.Charge.kind C.Charge.means self.old.job.current row.old told row.new self.new.job.current)
            ((self.new.job.current ≡ self.old.job.current) × (row.new ≡ row.old)) }
        ensures same_modules { self.new.job.modules ≡ self.old.job.modules }
        ensures same_number { self.new.job.number ≡ self.old.job.number }
        ensures same_walks { self.new.job.walks ≡ self.old.job.walks }
    {
        let Some(own) = self.held.take_if(|own| own.number() == ticket) else {
            return Err(self.refused(ticket, row));
        };
        // Stays: to put a ticket back is a step, which a match says more plainly than a closure in `map_err`.
        match self.job.close(own, row) {
            Ok(closed) => Ok(closed),
            Err(Unclosed { refusal, ticket }) => {
                let _ = keep(&mut self.held, ticket);
                Err(refusal)
            }
        }
    }
}

impl<C: Charge, B: SettingBound<C>> Desk<C, Both<B>> {
    /// Begins a walk that looks ahead, keeps its ticket, and gives the number on it. Refuses 2 and 10.
    pub fn start_ahead(&mut self, ceiling: C) -> Result<u32, Refusal>
        ensures decides { Decides result (start_checks (is_open self.old.job.current) self.old.job.modules)
            (λ t. (t ≡ self.old.job.number) × MatchOption self.new.job.current ⊥ (Starts C.Charge.kind C.Charge.means self.old.job.modules true ceiling))
            (self.new.job.current ≡ self.old.job.current) }
        ensures same_modules { self.new.job.modules ≡ self.old.job.modules }
        ensures same_number { self.new.job.number ≡ self.old.job.number }
        ensures same_walks { self.new.job.walks ≡ self.old.job.walks }
    {
        let ticket = self.job.start_ahead(ceiling)?;
        Ok(keep(&mut self.held, ticket))
    }
}
