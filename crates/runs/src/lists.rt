// Lists of calls, carried out one after the other.
ghost use Rattle.runs.specs.Does.{answered};
ghost use Rattle.runs.specs.Runs.{Runs};
ghost use Rattle.runs.specs.Stands.{stand_of};
ghost use Rattle.std.specs.Prelude.{◌≡◌, min, map, length, take, drop};

use crate::answer::Answer;
use crate::carrying::CallOn;
use charges::Charge;
use desks::desk::Desk;
use jobs::refusal::Refusal;
use walks::ways::Walk;

// What was told, or the refusal.
fn answered<C>(told: Result<Answer<C>, Refusal>) -> Answer<C>
    ensures { result ≡ answered told }
{
    told.unwrap_or_else(|refusal| Answer::Refused(refusal))
}

// As many calls as there is room for answers.
pub(crate) fn carry_out_all<C: Charge, W: Walk<C>, X: CallOn<C, W>>(
    desk: &mut Desk<C, W>,
    sheet: &mut [u16],
    memory: &mut [u8],
    scratch: &mut [C],
    calls: &[X],
    answers: &mut [Answer<C>],
) -> usize
    ensures count { result ≡ min (length calls.now) (length answers.old) }
    ensures runs { Runs C.Charge.kind C.Charge.means (W.Walk.floor desk.old.job.walks) (W.Walk.answer desk.old.job.walks) desk.old.job.number (length scratch.old)
        (stand_of desk.old sheet.old memory.old) (map X.as_both (take result calls.now)) (take result answers.new) (stand_of desk.new sheet.new memory.new) }
    ensures rest { drop result answers.new ≡ drop result answers.old }
{
    let n = calls.len().min(answers.len());
    // Stays: in a loop over a zip of `iter_mut` no invariant can name the answers that are written so far.
    for i in 0..n {
        answers[i] = answered(calls[i].carry_out(desk, sheet, memory, scratch));
    }
    n
}
