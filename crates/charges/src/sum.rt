// The sum of the clashes.
ghost use Rattle.charges.specs.Capped.{capped};
ghost use Rattle.charges.specs.Sum.{sums};
ghost use Rattle.std.proofs.Common.{arith};
ghost use Rattle.charges.specs.CappedLaws.{same_capped, adding_lawful};
ghost use Rattle.std.specs.Prelude.{refl};
ghost use Rattle.charges.specs.Sum as SpecsSum;

use crate::{Charge, Entry};

/// The sum of the clashes; it stops at 4,294,967,295.
#[derive(Clone, Copy)]
pub struct Sum {
    pub number: u32,
}

impl Charge for Sum {
    ghost kind = { sums };

    ghost means = { λ s. capped 4294967295 s.number };

    ghost made = { λ v. record { number = v.number } };

    ghost stands = { λ v. same_capped _ _ (omega arith) };

    ghost lawful = { adding_lawful 4294967295 (SpecsSum.sums).entry refl };

    fn zero() -> Sum {
        Sum { number: 0 }
    }

    fn joined(self, other: Sum) -> Sum {
        Sum {
            number: self.number.saturating_add(other.number),
        }
    }

    fn is_at_most(self, other: Sum) -> bool {
        self.number <= other.number
    }

    fn of_entry(entry: Entry) -> Sum {
        Sum {
            number: u32::from(entry.number),
        }
    }
}
