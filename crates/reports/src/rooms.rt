// Scratch for the jobs of a script.
use bounds::asking::SCRATCH;
use charges::{Charge, Count, Ranked, Sum, Worst};

// A scratch for a job of each kind. What it holds before a call changes nothing, so one serves for all lines of a script.
#[derive(Drop)]
pub(crate) struct Rooms {
    pub(crate) counts: [Count; SCRATCH],
    pub(crate) sums: [Sum; SCRATCH],
    pub(crate) worsts: [Worst; SCRATCH],
    pub(crate) ranks: [Ranked; SCRATCH],
}

impl Rooms {
    // Scratch of zeros.
    pub(crate) fn new() -> Rooms {
        Rooms {
            counts: [Count::zero(); SCRATCH],
            sums: [Sum::zero(); SCRATCH],
            worsts: [Worst::zero(); SCRATCH],
            ranks: [Ranked::zero(); SCRATCH],
        }
    }
}
