// One call that builds or weighs, carried out on a job.
ghost use Rattle.std.specs.Prelude.{◌≡◌, MatchResult};
ghost use Rattle.jobs.specs.Searching.{is_open};
ghost use Rattle.answers.specs.declared.answer.Answer.TheVariants as answer;
ghost use Rattle.reports.specs.Building.{Builds};

use crate::figured::Figured;
use answers::answer::Answer;
use calls::call::Call;
use desks::desk::Desk;
use jobs::refusal::Refusal;

// The answer to a call that was taken, or the refusal.
pub(crate) fn told(given: Result<Answer, Refusal>) -> Answer
    ensures { MatchResult given (λ a. result ≡ a) (λ e. result ≡ answer.Refused e) }
{
    given.unwrap_or_else(|refusal| Answer::Refused(refusal))
}

// The answer to a call that gives a charge.
fn charged<C: Figured>(given: Result<C, Refusal>) -> Answer
    ensures { MatchResult given (λ v. result ≡ answer.Charge (C.Figured.shows v)) (λ e. result ≡ answer.Refused e) }
{
    told(given.map(|charge| Answer::Charge(charge.figure())))
}

/// Carries out a call that builds or weighs, and gives its answer.
pub fn build<C: Figured, W>(desk: &mut Desk<C, W>, sheet: &mut [u16], call: Call) -> Answer
    ensures builds { Builds C.Charge.kind (λ v. C.Figured.shows (C.Charge.made v)) (is_open desk.old.job.current) desk.old.job.modules sheet.old call result desk.new.job.modules sheet.new }
    ensures same_number { desk.new.job.number ≡ desk.old.job.number }
    ensures same_walks { desk.new.job.walks ≡ desk.old.job.walks }
    ensures same_walk { desk.new.job.current ≡ desk.old.job.current }
{
    match call {
        Call::Open { .. }
        | Call::Floor { .. }
        | Call::FloorWith { .. }
        | Call::Start { .. }
        | Call::Ahead { .. }
        | Call::Sit { .. }
        | Call::Close { .. } => Answer::NotACall,
        Call::Add { settings } => told(desk.add(sheet, settings).map(|i| Answer::Module(i))),
        Call::Charge { i, k, j, l, clash } => {
            let given = desk.charge(sheet, i, k, j, l, clash);
            told(given.map(|_| Answer::Done))
        }
        Call::Narrow { i, mask } => told(desk.narrow(i, mask).map(|_| Answer::Done)),
        Call::Weigh { row } => charged(desk.weigh(sheet, &row)),
        Call::WhatIf { i, k, row } => {
            let mut tried = row;
            charged(desk.what_if(sheet, &mut tried, i, k))
        }
    }
}
