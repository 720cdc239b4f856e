// The text of an answer.
ghost use Rattle.answers.specs.Answers.{answer_text};
ghost use Rattle.std.specs.Prelude.{Some};

use jobs::refusal::Refusal;
use jobs::sat::Sat;
use std::fmt;
use told::closing::Closing;
use told::figure::Figure;

/// What a line is answered.
#[derive(Clone, Copy)]
pub enum Answer {
    Done,
    Module(u8),
    Charge(Figure),
    Ticket(u32),
    Sat(Sat),
    Closed(Closing),
    Refused(Refusal),
    NotACall,
}

impl fmt::Display for Answer {
    ghost output = { λ x. Some (answer_text x) };

    fn fmt<W: fmt::Write>(&self, f: &mut fmt::Formatter<W>) -> fmt::Result {
        match *self {
            Answer::Done => write!(f, "ok"),
            Answer::Module(i) => write!(f, "module {i}"),
            Answer::Charge(figure) => write!(f, "charge {figure}"),
            Answer::Ticket(number) => write!(f, "ticket {number}"),
            Answer::Sat(Sat { made, finished }) => {
                let state = if finished { "finished" } else { "unfinished" };
                write!(f, "made {made} {state}")
            }
            Answer::Closed(closing) => write!(f, "{closing}"),
            Answer::Refused(refusal) => write!(f, "refused {}", refusal.number()),
            Answer::NotACall => write!(f, "not a call"),
        }
    }
}
