// The calls of a script, on the job that it has open.
ghost use Rattle.calls.specs.Calls.{allowed};
ghost use Rattle.jobs.specs.Searching.{is_open};
ghost use Rattle.reports.specs.Sessions.{modules_in, walk_in, terms_of, OpenedFor, Fresh, Carries, GoesOn, Left, Ended, OnJob, Answers};
ghost use Rattle.reports.specs.Walking.{Leaves};
ghost use Rattle.std.specs.Prelude.{◌≡◌, true, false, length, replicate, MatchOption};

use crate::figured::Figured;
use crate::opened::{AnyJob, Opened};
use crate::printed::Told;
use crate::rooms::Rooms;
use crate::walked::perform_call;
use crate::walking::leave;
use answers::answer::Answer;
use bound_names::names::{Named, setting_name};
use calls::call::{BoundName, Call, KindName, Walks};
use charges::Charge;
use desks::desk::Desk;
use told::closing::Closing;

impl<C: Figured> Opened<C> {
    // A fresh job; `None` where the bound is no setting bound and both walks are asked for.
    fn open(number: u32, walks: Walks, bound: BoundName) -> Option<Opened<C>>
        ensures { MatchOption result (allowed walks bound ≡ false)
            (λ o. (allowed walks bound ≡ true) × ((terms_of o).number ≡ number) × OpenedFor walks bound (terms_of o).opening × ((modules_in o).count ≡ 0) × (is_open (walk_in o) ≡ false)) }
    {
        match walks {
            Walks::Plain => Some(Opened::ForPlain(Desk::open_plain(number, Named { bound }))),
            Walks::Both => {
                let name = setting_name(bound)?;
                Some(Opened::ForBoth(Desk::open_both(number, name)))
            }
        }
    }

    // Carries out a call, whatever the walks.
    fn carry_out(&mut self, sheet: &mut [u16], scratch: &mut [C], call: Call) -> Answer
        ensures { Carries C.Charge.kind C.Charge.means C.Charge.made (λ v. C.Figured.shows (C.Charge.made v)) C.Figured.says (length scratch.old) self.old sheet.old call result self.new sheet.new }
    {
        match self {
            Opened::ForPlain(desk) => perform_call(desk, sheet, scratch, call),
            Opened::ForBoth(desk) => perform_call(desk, sheet, scratch, call),
        }
    }

    // Lets the job go, whatever the walks.
    fn let_go(self) -> Option<Closing>
        ensures { Leaves C.Charge.kind C.Charge.means (λ v. C.Figured.shows (C.Charge.made v)) (modules_in self) (walk_in self) result }
    {
        match self {
            Opened::ForPlain(desk) => leave(desk),
            Opened::ForBoth(desk) => leave(desk),
        }
    }
}

// Stays: a match on the kind in each method, since a job of each kind is a type of its own.
impl AnyJob {
    // A fresh job of a kind.
    fn open(number: u32, kind: KindName, walks: Walks, bound: BoundName) -> Option<AnyJob>
        ensures { MatchOption result (allowed walks bound ≡ false) (Fresh number kind walks bound) }
    {
        match kind {
            KindName::Count => Some(AnyJob::ByCount(Opened::open(number, walks, bound)?)),
            KindName::Sum => Some(AnyJob::BySum(Opened::open(number, walks, bound)?)),
            KindName::Worst => Some(AnyJob::ByWorst(Opened::open(number, walks, bound)?)),
            KindName::Ranked => Some(AnyJob::ByRank(Opened::open(number, walks, bound)?)),
        }
    }

    // Lets the job go, whatever the kind.
    fn let_go(self) -> Option<Closing>
        ensures { Left self result }
    {
        match self {
            AnyJob::ByCount(job) => job.let_go(),
            AnyJob::BySum(job) => job.let_go(),
            AnyJob::ByWorst(job) => job.let_go(),
            AnyJob::ByRank(job) => job.let_go(),
        }
    }
}

// A call on what is open.
// Stays: a match on the kind, as above; and a scratch for each kind, since the check cannot see of a kind that is not known that
// 192 of its charges fit in memory. The job is taken out and put back, since the check lends no case of an enum in an enum.
fn on_job(job: &mut Option<AnyJob>, rooms: &mut Rooms, sheet: &mut [u16], call: Call) -> Answer
    ensures { OnJob job.old sheet.old call result job.new sheet.new }
{
    let Some(open) = job.take() else {
        return Answer::NotACall;
    };
    match open {
        AnyJob::ByCount(mut open) => {
            let answer = open.carry_out(sheet, &mut rooms.counts, call);
            *job = Some(AnyJob::ByCount(open));
            answer
        }
        AnyJob::BySum(mut open) => {
            let answer = open.carry_out(sheet, &mut rooms.sums, call);
            *job = Some(AnyJob::BySum(open));
            answer
        }
        AnyJob::ByWorst(mut open) => {
            let answer = open.carry_out(sheet, &mut rooms.worsts, call);
            *job = Some(AnyJob::ByWorst(open));
            answer
        }
        AnyJob::ByRank(mut open) => {
            let answer = open.carry_out(sheet, &mut rooms.ranks, call);
            *job = Some(AnyJob::ByRank(open));
            answer
        }
    }
}

/// Lets go what is open, and gives what is printed of its walk, where one is open.
pub fn end(job: Option<AnyJob>) -> Option<Closing>
    ensures { Ended job result }
{
    job?.let_go()
}

// Carries out a call of a script on what is open, and gives what is printed.
pub(crate) fn answer_in_place(
    job: &mut Option<AnyJob>,
    rooms: &mut Rooms,
    sheet: &mut [u16],
    call: Call,
) -> Told
    ensures { Answers job.old sheet.old call result job.new sheet.new }
{
    match call {
        Call::Open {
            number,
            kind,
            walks,
            bound,
        } => match AnyJob::open(number, kind, walks, bound) {
            Some(fresh) => {
                let closed = end(job.replace(fresh));
                sheet.fill(0);
                let answer = Answer::Done;
                Told { closed, answer }
            }
            None => Told::only(Answer::NotACall),
        },
        _ => Told::only(on_job(job, rooms, sheet, call)),
    }
}

/// Carries out a call of a script: gives what is open then, and what is printed. Open puts a fresh job in the place of what
/// is open, whose walk is closed first, and zeros on the sheet; where nothing is open, no other line is a call.
pub fn answer(job: Option<AnyJob>, sheet: &mut [u16], call: Call) -> (Option<AnyJob>, Told)
    ensures { Answers job sheet.old call result.1 result.0 sheet.new }
{
    let mut open = job;
    let told = answer_in_place(&mut open, &mut Rooms::new(), sheet, call);
    (open, told)
}
