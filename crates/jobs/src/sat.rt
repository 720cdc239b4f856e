// What a sitting tells.
use crate::refusal::Refusal;
use crate::ticket::Ticket;

/// What a sitting tells: how many steps it made, and whether the walk is finished.
#[derive(Clone, Copy)]
pub struct Sat {
    pub made: u32,
    pub finished: bool,
}

/// A close that was refused: why, and the ticket, given back.
pub struct Unclosed {
    pub refusal: Refusal,
    pub ticket: Ticket,
}
