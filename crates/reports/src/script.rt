// The lines of a script.
ghost use Rattle.calls.specs.declared.call.Vocabulary.TheVariants.{Building};
ghost use Rattle.reports.specs.Scripts.{Follows, Idle, EndsNone};
ghost use Rattle.std.specs.Prelude.{◌≡◌};

use crate::opened::AnyJob;
use crate::printed::Told;
use crate::rooms::Rooms;
use crate::session::answer_in_place;
use answers::answer::Answer;
use calls::call::Vocabulary;
use lines::line::{Line, read_line};

// Follows a line of a script of the vocabulary with what is open, which stays where it is; gives what is printed.
pub(crate) fn follow_in_place(
    vocabulary: Vocabulary,
    job: &mut Option<AnyJob>,
    rooms: &mut Rooms,
    sheet: &mut [u16],
    line: &str,
) -> Option<Told>
    ensures follows { Follows vocabulary job.old sheet.old line.now result job.new sheet.new }
    ensures idle { vocabulary ≡ Building → Idle job.old → Idle job.new × EndsNone result }
{
    match read_line(vocabulary, line) {
        Line::Skipped => None,
        Line::NoCall => Some(Told::only(Answer::NotACall)),
        Line::Call(call) => Some(answer_in_place(job, rooms, sheet, call)),
    }
}

/// Follows a line of a script of the vocabulary: gives the job that is open then, and what is printed. A blank line and a
/// comment get nothing. A script of the building vocabulary opens no walk.
pub fn follow(
    vocabulary: Vocabulary,
    job: Option<AnyJob>,
    sheet: &mut [u16],
    line: &str,
) -> (Option<AnyJob>, Option<Told>)
    ensures follows { Follows vocabulary job sheet.old line.now result.1 result.0 sheet.new }
    ensures idle { vocabulary ≡ Building → Idle job → Idle result.0 × EndsNone result.1 }
{
    let mut open = job;
    let told = follow_in_place(vocabulary, &mut open, &mut Rooms::new(), sheet, line);
    (open, told)
}
