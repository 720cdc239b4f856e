// What a call is answered.
use jobs::refusal::Refusal;
use jobs::sat::Sat;
use walks::outcome::Closed;

/// What a call is answered.
#[derive(Clone, Copy)]
pub enum Answer<C> {
    /// The number of the module that was added.
    Module(u8),
    Done,
    /// What a row is charged.
    Charge(C),
    /// The number on the ticket of the walk that was started.
    Ticket(u32),
    Sat(Sat),
    Closed(Closed<C>),
    Refused(Refusal),
}
