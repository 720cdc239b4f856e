// Searching: start, sit and close.
ghost use Rattle.jobs.specs.Checks.{start_checks, sit_checks, close_checks};
ghost use Rattle.jobs.specs.Refusals.{Decides, first};
ghost use Rattle.jobs.specs.Searching.{is_open, Starts, SitsOpen, ClosesOpen};
ghost use Rattle.std.specs.Result as results;
ghost use Rattle.std.specs.Prelude.{◌≡◌, true, false, length, Some, None, MatchOption};

use crate::job::Job;
use crate::refusal::Refusal;
use crate::sat::{Sat, Unclosed};
use crate::ticket::Ticket;
use crate::weighing::ROW;
use bounds::asking::SCRATCH;
use bounds::setting::SettingBound;
use charges::Charge;
use tables::sheet::ENTRIES;
use walks::outcome::Closed;
use walks::state::Search;
use walks::ways::{Both, Walk};

impl<C: Charge, W: Walk<C>> Job<C, W> {
    // Begins a walk, looking ahead or not.
    fn begin(&mut self, ahead: bool, ceiling: C) -> Result<Ticket, Refusal>
        ensures decides { Decides result (start_checks (is_open self.old.current) self.old.modules)
            (λ t. (t.number ≡ self.old.number) × MatchOption self.new.current ⊥ (Starts C.Charge.kind C.Charge.means self.old.modules ahead ceiling))
            (self.new.current ≡ self.old.current) }
        ensures same_modules { self.new.modules ≡ self.old.modules }
        ensures same_number { self.new.number ≡ self.old.number }
        ensures same_walks { self.new.walks ≡ self.old.walks }
    {
        if self.current.is_some() {
            return Err(Refusal::SearchOpen);
        }
        if self.modules.count() == 0 {
            return Err(Refusal::NoModules);
        }
        self.current = Some(Search::start(&self.modules, ahead, ceiling));
        Ok(Ticket {
            number: self.number,
        })
    }

    /// Begins a plain walk below the ceiling, and gives its ticket. Refuses 2 and 10.
    pub fn start(&mut self, ceiling: C) -> Result<Ticket, Refusal>
        ensures decides { Decides result (start_checks (is_open self.old.current) self.old.modules)
            (λ t. (t.number ≡ self.old.number) × MatchOption self.new.current ⊥ (Starts C.Charge.kind C.Charge.means self.old.modules false ceiling))
            (self.new.current ≡ self.old.current) }
        ensures same_modules { self.new.modules ≡ self.old.modules }
        ensures same_number { self.new.number ≡ self.old.number }
        ensures same_walks { self.new.walks ≡ self.old.walks }
    {
        self.begin(false, ceiling)
    }

    /// Makes so many steps of the open walk, or all that are left, and tells how many and whether the walk is
    /// finished. The ticket is only looked at. What the scratch holds does not matter, and what is left there is free.
    /// Refuses 1, 11 and 12.
    pub fn sit(
        &mut self,
        sheet: &[u16],
        ticket: &Ticket,
        steps: u32,
        scratch: &mut [C],
    ) -> Result<Sat, Refusal>
        ensures decides { Decides result (sit_checks (is_open self.old.current) self.old.number sheet.now (length scratch.old) ticket.now.number steps)
            (λ told. SitsOpen C.Charge.kind C.Charge.means (W.Walk.floor self.old.walks) (W.Walk.answer self.old.walks) sheet.now steps self.old.current self.new.current told)
            ((self.new.current ≡ self.old.current) × (scratch.new ≡ scratch.old)) }
        ensures same_modules { self.new.modules ≡ self.old.modules }
        ensures same_number { self.new.number ≡ self.old.number }
        ensures same_walks { self.new.walks ≡ self.old.walks }
    {
        if sheet.len() < ENTRIES || scratch.len() < SCRATCH {
            return Err(Refusal::TooShort);
        }
        if ticket.number != self.number {
            return Err(Refusal::WrongTicket);
        }
        let Some(walk) = &mut self.current else {
            return Err(Refusal::WrongTicket);
        };
        if steps == 0 {
            return Err(Refusal::NoSteps);
        }
        let made = walk.sit(&self.walks, sheet, steps, scratch);
        let finished = walk.is_finished();
        Ok(Sat { made, finished })
    }

    /// Ends the open walk: takes its ticket, writes the best setup into the row's first bytes, one for each module, and
    /// tells the outcome, the charge and the steps made. A refused close gives the ticket back. Refuses 1 and 11.
    pub fn close(&mut self, ticket: Ticket, row: &mut [u8]) -> Result<Closed<C>, Unclosed>
        ensures decides { results.MatchResult result
            (λ told. (first (close_checks (is_open self.old.current) self.old.number row.old ticket.number) ≡ None)
            × ClosesOpen C.Charge.kind C.Charge.means self.old.current row.old told row.new self.new.current)
            (λ u. (first (close_checks (is_open self.old.current) self.old.number row.old ticket.number) ≡ Some u.refusal)
            × (u.ticket ≡ ticket) × (row.new ≡ row.old) × (self.new.current ≡ self.old.current)) }
        ensures same_modules { self.new.modules ≡ self.old.modules }
        ensures same_number { self.new.number ≡ self.old.number }
        ensures same_walks { self.new.walks ≡ self.old.walks }
    {
        if row.len() < ROW {
            return Err(ticket.back(Refusal::TooShort));
        }
        if ticket.number != self.number {
            return Err(ticket.back(Refusal::WrongTicket));
        }
        let Some(walk) = self.current.take() else {
            return Err(ticket.back(Refusal::WrongTicket));
        };
        let Ticket { number: _ } = ticket;
        Ok(walk.close(row))
    }
}

impl<C: Charge, B: SettingBound<C>> Job<C, Both<B>> {
    /// Begins a walk that looks ahead below the ceiling, and gives its ticket. Refuses 2 and 10.
    pub fn start_ahead(&mut self, ceiling: C) -> Result<Ticket, Refusal>
        ensures decides { Decides result (start_checks (is_open self.old.current) self.old.modules)
            (λ t. (t.number ≡ self.old.number) × MatchOption self.new.current ⊥ (Starts C.Charge.kind C.Charge.means self.old.modules true ceiling))
            (self.new.current ≡ self.old.current) }
        ensures same_modules { self.new.modules ≡ self.old.modules }
        ensures same_number { self.new.number ≡ self.old.number }
        ensures same_walks { self.new.walks ≡ self.old.walks }
    {
        self.begin(true, ceiling)
    }
}
