// The ticket of an open walk.
ghost use Rattle.std.specs.Prelude.{◌≡◌};

use crate::refusal::Refusal;
use crate::sat::Unclosed;

/// The ticket that a start gives, with the job's number. It stands for the open walk, and has to be handed back
/// through a close: a program that lets one go does not compile.
pub struct Ticket {
    pub(crate) number: u32,
}

impl Ticket {
    /// The number of the job that gave it.
    pub fn number(&self) -> u32
        ensures { result ≡ self.now.number }
    {
        self.number
    }

    // The ticket, given back by a refused close.
    pub(crate) fn back(self, refusal: Refusal) -> Unclosed
        ensures refusal { result.refusal ≡ refusal }
        ensures ticket { result.ticket ≡ self }
    {
        Unclosed {
            refusal,
            ticket: self,
        }
    }
}
