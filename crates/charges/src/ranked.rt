// Forbidden pairs first, then the sum of the other clashes.
ghost use Rattle.std.specs.Prelude.{◌≡◌};
ghost use Rattle.charges.specs.Ranked.{rank, ranks};
ghost use Rattle.std.proofs.Common.{arith};
ghost use Rattle.charges.specs.RankedLaws.{same_rank, soft_stays, ranked_lawful};

use crate::{Charge, Entry};

// The parts of the top.
const TOP: (u16, u32) = (u16::MAX, u32::MAX);

/// The number of forbidden pairs, and then the sum of the other clashes. A charge of 65,535 forbidden pairs is the top,
/// whatever the sum is, and the sum stops at 4,294,967,295.
#[derive(Clone, Copy)]
pub struct Ranked {
    forbidden: u16,
    soft: u32,
}

impl Ranked {
    /// The charge of so many forbidden pairs and such a soft sum, or the top where `forbidden` is 65,535.
    pub fn new(forbidden: u16, soft: u32) -> Ranked
        ensures value { rank result.forbidden result.soft ≡ rank forbidden soft }
        ensures pairs { result.forbidden ≡ (rank forbidden soft).forbidden }
        ensures sum { result.soft ≡ (rank forbidden soft).soft }
    {
        Ranked {
            forbidden,
            soft: if forbidden == TOP.0 { TOP.1 } else { soft },
        }
    }

    /// The number of forbidden pairs and the soft sum; those of the top are 65,535 and 4,294,967,295.
    pub fn parts(self) -> (u16, u32)
        ensures pairs { result.0 ≡ (rank self.forbidden self.soft).forbidden }
        ensures sum { result.1 ≡ (rank self.forbidden self.soft).soft }
    {
        let soft = if self.forbidden == TOP.0 {
            TOP.1
        } else {
            self.soft
        };
        (self.forbidden, soft)
    }
}

impl Charge for Ranked {
    ghost kind = { ranks };

    ghost means = { λ s. rank s.forbidden s.soft };

    ghost made = { λ v. record { forbidden = v.forbidden; soft = v.soft } };

    ghost stands = { λ v. same_rank _ _ (omega arith) (soft_stays v) };

    ghost lawful = { ranked_lawful };

    fn zero() -> Ranked {
        Ranked::new(0, 0)
    }

    fn joined(self, other: Ranked) -> Ranked {
        Ranked::new(
            self.forbidden.saturating_add(other.forbidden),
            self.soft.saturating_add(other.soft),
        )
    }

    fn is_at_most(self, other: Ranked) -> bool {
        self.parts() <= other.parts()
    }

    fn of_entry(entry: Entry) -> Ranked {
        if entry.number == 1000 {
            Ranked::new(1, 0)
        } else {
            Ranked::new(0, u32::from(entry.number))
        }
    }
}
