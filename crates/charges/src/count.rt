// The number of clashes.
ghost use Rattle.charges.specs.Capped.{capped};
ghost use Rattle.charges.specs.Count.{counts};
ghost use Rattle.std.proofs.Common.{arith};
ghost use Rattle.charges.specs.CappedLaws.{same_capped, adding_lawful};
ghost use Rattle.std.specs.Prelude.{refl};

use crate::{Charge, Entry};

/// The number of clashes; it stops at 65,535.
// Stays: Count, Sum and Worst are kinds of their own with a line for each method, and share the laws in CappedLaws.
#[derive(Clone, Copy)]
pub struct Count {
    pub number: u16,
}

impl Charge for Count {
    ghost kind = { counts };

    ghost means = { λ s. capped 65535 s.number };

    ghost made = { λ v. record { number = v.number } };

    ghost stands = { λ v. same_capped _ _ (omega arith) };

    ghost lawful = { adding_lawful 65535 counts.entry refl };

    fn zero() -> Count {
        Count { number: 0 }
    }

    fn joined(self, other: Count) -> Count {
        Count {
            number: self.number.saturating_add(other.number),
        }
    }

    fn is_at_most(self, other: Count) -> bool {
        self.number <= other.number
    }

    fn of_entry(entry: Entry) -> Count {
        Count {
            number: if entry.number == 0 { 0 } else { 1 },
        }
    }
}
