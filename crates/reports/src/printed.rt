// What is printed for a line.
ghost use Rattle.std.specs.Prelude.{◌≡◌, None};

use answers::answer::Answer;
use told::closing::Closing;

/// What is printed for a line that is not skipped: the close of the walk that was open, where the line ends one, and then
/// the answer of the line.
#[derive(Clone, Copy)]
pub struct Told {
    pub closed: Option<Closing>,
    pub answer: Answer,
}

impl Told {
    /// An answer alone.
    pub fn only(answer: Answer) -> Told
        ensures { result ≡ record { closed = None; answer = answer } }
    {
        Told {
            closed: None,
            answer,
        }
    }
}
