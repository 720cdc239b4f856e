// A call on a job, whatever its walks: those that build and weigh, those that ask its bound, and those of walking.
ghost use Rattle.reports.specs.Performs.{Performs};
ghost use Rattle.std.specs.Prelude.{◌≡◌, length};

use crate::calling::build;
use crate::figured::Figured;
use crate::scripted::Scripted;
use crate::walking::{close, sit, start};
use answers::answer::Answer;
use calls::call::Call;
use charges::Charge;
use desks::desk::Desk;
use walks::ways::Walk;

/// Carries out a call on a job.
pub fn perform_call<C: Figured, W: Scripted<C>>(
    desk: &mut Desk<C, W>,
    sheet: &mut [u16],
    scratch: &mut [C],
    call: Call,
) -> Answer
    ensures performs { Performs C.Charge.kind C.Charge.means C.Charge.made (λ v. C.Figured.shows (C.Charge.made v)) C.Figured.says (record { number = desk.old.job.number; opening = W.Scripted.opening desk.old.job.walks }) (length scratch.old) desk.old.job.modules desk.old.job.current sheet.old call result desk.new.job.modules desk.new.job.current sheet.new }
    ensures same_number { desk.new.job.number ≡ desk.old.job.number }
    ensures same_walks { desk.new.job.walks ≡ desk.old.job.walks }
{
    match call {
        Call::Floor { path, len } => Answer::Charge(
            desk.floor(sheet, path, len as usize, scratch).figure(),
        ),
        Call::FloorWith { j, k, path, len } => {
            W::floor_with(desk, sheet, scratch, path, len, j, k)
        }
        Call::Start { ceiling } => start(desk, ceiling),
        Call::Ahead { ceiling } => W::start_ahead(desk, ceiling),
        Call::Sit { steps, ticket } => sit(desk, sheet, scratch, steps, ticket),
        Call::Close { ticket } => close(desk, ticket),
        _ => build(desk, sheet, call),
    }
}
