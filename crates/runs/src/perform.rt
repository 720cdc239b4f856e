// A list of calls on a fresh job.
ghost use Rattle.runs.specs.Runs.{Fresh, Performed};
ghost use Rattle.runs.specs.Stands.{stand_of};
ghost use Rattle.runs.specs.declared.call.BothCall.TheVariants.{Plain};
ghost use Rattle.std.specs.Prelude.{◌≡◌, min, map, length, take, drop};

use crate::answer::Answer;
use crate::call::{BothCall, Call};
use crate::carrying::CallOn;
use crate::lists::carry_out_all;
use bounds::bound::Bound;
use bounds::setting::SettingBound;
use charges::Charge;
use desks::desk::Desk;
use walks::ways::Walk;

// Carries out the calls at a desk with a fresh job, and lets the job go.
fn perform<C: Charge, W: Walk<C>, X: CallOn<C, W>>(
    mut desk: Desk<C, W>,
    sheet: &mut [u16],
    memory: &mut [u8],
    scratch: &mut [C],
    calls: &[X],
    answers: &mut [Answer<C>],
) -> usize
    requires { Fresh (stand_of desk sheet.old memory.old) }
    ensures count { result ≡ min (length calls.now) (length answers.old) }
    ensures performed { Performed C.Charge.kind C.Charge.means (W.Walk.floor desk.job.walks) (W.Walk.answer desk.job.walks) desk.job.number (length scratch.old)
        sheet.old memory.old (map X.as_both (take result calls.now)) (take result answers.new) sheet.new memory.new }
    ensures rest { drop result answers.new ≡ drop result answers.old }
{
    let n = carry_out_all(&mut desk, sheet, memory, scratch, calls, answers);
    let mut row = [0; 20];
    let _ = desk.leave(&mut row);
    n
}

/// Opens a job for plain walks and carries out the calls on it, one after the other, as many as there is room for answers;
/// tells how many. Rows are brought from the memory. A walk that is open at the end is closed, with no answer.
pub fn perform_plain<C: Charge, B: Bound<C>>(
    number: u32,
    bound: B,
    sheet: &mut [u16],
    memory: &mut [u8],
    scratch: &mut [C],
    calls: &[Call<C>],
    answers: &mut [Answer<C>],
) -> usize
    ensures count { result ≡ min (length calls.now) (length answers.old) }
    ensures performed { Performed C.Charge.kind C.Charge.means (B.Bound.floor bound) (λ m s p j k. B.Bound.floor bound m s p) number (length scratch.old)
        sheet.old memory.old (map Plain (take result calls.now)) (take result answers.new) sheet.new memory.new }
    ensures rest { drop result answers.new ≡ drop result answers.old }
{
    let desk = Desk::open_plain(number, bound);
    perform(desk, sheet, memory, scratch, calls, answers)
}

/// The same on a job for plain walks and walks that look ahead.
pub fn perform_both<C: Charge, B: SettingBound<C>>(
    number: u32,
    bound: B,
    sheet: &mut [u16],
    memory: &mut [u8],
    scratch: &mut [C],
    calls: &[BothCall<C>],
    answers: &mut [Answer<C>],
) -> usize
    ensures count { result ≡ min (length calls.now) (length answers.old) }
    ensures performed { Performed C.Charge.kind C.Charge.means (B.Bound.floor bound) (B.SettingBound.answer bound) number (length scratch.old)
        sheet.old memory.old (take result calls.now) (take result answers.new) sheet.new memory.new }
    ensures rest { drop result answers.new ≡ drop result answers.old }
{
    let desk = Desk::open_both(number, bound);
    perform(desk, sheet, memory, scratch, calls, answers)
}
