// The calls of walking, carried out on a job.
ghost use Rattle.std.specs.Prelude.{◌≡◌, ◌≤◌, true, false, length};
ghost use Rattle.walks.specs.Outcomes.{fixed};
ghost use Rattle.reports.specs.Walking.{brought, setup_told, StartsTold, SitsTold, ClosesTold, Leaves};

use crate::calling::told;
use crate::figured::Figured;
use answers::answer::Answer;
use bounds::setting::SettingBound;
use charges::Charge;
use desks::desk::Desk;
use told::closing::{Closing, Setup};
use told::figure::Figure;
use walks::outcome::Closed;
use walks::ways::{Both, Walk};

/// Begins a plain walk. Where the figure is no charge of the kind, it is no call.
pub fn start<C: Figured, W: Walk<C>>(desk: &mut Desk<C, W>, ceiling: Figure) -> Answer
    ensures starts { StartsTold C.Charge.kind C.Charge.means C.Figured.says false desk.old.job.number desk.old.job.modules desk.old.job.current ceiling result desk.new.job.current }
    ensures same_modules { desk.new.job.modules ≡ desk.old.job.modules }
    ensures same_number { desk.new.job.number ≡ desk.old.job.number }
    ensures same_walks { desk.new.job.walks ≡ desk.old.job.walks }
{
    match C::of_figure(ceiling) {
        None => Answer::NotACall,
        Some(charge) => told(desk.start(charge).map(|number| Answer::Ticket(number))),
    }
}

/// Begins a walk that looks ahead. Where the figure is no charge of the kind, it is no call.
pub fn start_ahead<C: Figured, B: SettingBound<C>>(
    desk: &mut Desk<C, Both<B>>,
    ceiling: Figure,
) -> Answer
    ensures starts { StartsTold C.Charge.kind C.Charge.means C.Figured.says true desk.old.job.number desk.old.job.modules desk.old.job.current ceiling result desk.new.job.current }
    ensures same_modules { desk.new.job.modules ≡ desk.old.job.modules }
    ensures same_number { desk.new.job.number ≡ desk.old.job.number }
    ensures same_walks { desk.new.job.walks ≡ desk.old.job.walks }
{
    match C::of_figure(ceiling) {
        None => Answer::NotACall,
        Some(charge) => told(
            desk.start_ahead(charge)
                .map(|number| Answer::Ticket(number)),
        ),
    }
}

// The number of the ticket that is brought: the one that is written, or else the job's own.
fn bring(own: u32, ticket: Option<u32>) -> u32
    ensures { result ≡ brought own ticket }
{
    ticket.unwrap_or(own)
}

/// Sits so many steps with the ticket that is brought.
pub fn sit<C: Figured, W: Walk<C>>(
    desk: &mut Desk<C, W>,
    sheet: &[u16],
    scratch: &mut [C],
    steps: u32,
    ticket: Option<u32>,
) -> Answer
    ensures sits { SitsTold C.Charge.kind C.Charge.means (W.Walk.floor desk.old.job.walks) (W.Walk.answer desk.old.job.walks) desk.old.job.number (length scratch.old) sheet.now desk.old.job.current steps ticket result desk.new.job.current }
    ensures same_modules { desk.new.job.modules ≡ desk.old.job.modules }
    ensures same_number { desk.new.job.number ≡ desk.old.job.number }
    ensures same_walks { desk.new.job.walks ≡ desk.old.job.walks }
{
    let number = bring(desk.number(), ticket);
    let given = desk.sit(sheet, number, steps, scratch);
    told(given.map(|sat| Answer::Sat(sat)))
}

// What is printed of a walk that ended: of the row, the settings of so many modules.
fn closing<C: Figured>(closed: Closed<C>, row: [u8; 20], modules: usize) -> Closing
    requires { modules ≤ 20 }
    ensures outcome { result.outcome ≡ closed.outcome }
    ensures charge { result.charge ≡ C.Figured.shows closed.charge }
    ensures steps { result.steps ≡ closed.steps }
    ensures setup { result.setup ≡ setup_told (fixed closed.outcome).with_setup row modules }
{
    let setup = Setup {
        settings: row,
        len: modules as u8,
    };
    Closing {
        outcome: closed.outcome,
        charge: closed.charge.figure(),
        steps: closed.steps,
        setup: closed.outcome.has_setup().then_some(setup),
    }
}

/// Closes with the ticket that is brought.
pub fn close<C: Figured, W: Walk<C>>(desk: &mut Desk<C, W>, ticket: Option<u32>) -> Answer
    ensures closes { ClosesTold C.Charge.kind C.Charge.means (λ v. C.Figured.shows (C.Charge.made v)) desk.old.job.number desk.old.job.modules desk.old.job.current ticket result desk.new.job.current }
    ensures same_modules { desk.new.job.modules ≡ desk.old.job.modules }
    ensures same_number { desk.new.job.number ≡ desk.old.job.number }
    ensures same_walks { desk.new.job.walks ≡ desk.old.job.walks }
{
    let number = bring(desk.number(), ticket);
    let modules = desk.count();
    let mut row = [0u8; 20];
    // Stays: a match and no `map`, since the proof of `closes` did not close over the closure.
    match desk.close(number, &mut row) {
        Ok(closed) => Answer::Closed(closing(closed, row, modules)),
        Err(refusal) => Answer::Refused(refusal),
    }
}

/// Lets the job go, and gives what is printed of its walk, where one is open.
pub fn leave<C: Figured, W: Walk<C>>(desk: Desk<C, W>) -> Option<Closing>
    ensures { Leaves C.Charge.kind C.Charge.means (λ v. C.Figured.shows (C.Charge.made v)) desk.job.modules desk.job.current result }
{
    let modules = desk.count();
    let mut row = [0u8; 20];
    let closed = desk.leave(&mut row)?;
    Some(closing(closed, row, modules))
}
