// The worst clash.
ghost use Rattle.charges.specs.Capped.{capped};
ghost use Rattle.charges.specs.Worst.{worsts};
ghost use Rattle.std.proofs.Common.{arith};
ghost use Rattle.charges.specs.CappedLaws.{same_capped, greater_lawful};
ghost use Rattle.std.specs.Prelude.{refl};

use crate::{Charge, Entry};

/// The greatest clash.
#[derive(Clone, Copy)]
pub struct Worst {
    pub number: u16,
}

impl Charge for Worst {
    ghost kind = { worsts };

    ghost means = { λ s. capped 65535 s.number };

    ghost made = { λ v. record { number = v.number } };

    ghost stands = { λ v. same_capped _ _ (omega arith) };

    ghost lawful = { greater_lawful 65535 worsts.entry refl };

    fn zero() -> Worst {
        Worst { number: 0 }
    }

    fn joined(self, other: Worst) -> Worst {
        Worst {
            number: self.number.max(other.number),
        }
    }

    fn is_at_most(self, other: Worst) -> bool {
        self.number <= other.number
    }

    fn of_entry(entry: Entry) -> Worst {
        Worst {
            number: entry.number,
        }
    }
}
