// Charge kinds: what a setup's clashes come to.
#![tactic(auto)]

ghost use Rattle.std.specs.Prelude.{◌≡◌, ◌≤◌, min};
ghost use Rattle.charges.specs.Kinds.{Kind, Lawful};

pub mod count;
pub mod entry;
pub mod ranked;
pub mod sum;
pub mod worst;

pub use count::Count;
pub use entry::Entry;
pub use ranked::Ranked;
pub use sum::Sum;
pub use worst::Worst;

impl Entry {
    // Stays: no From<u16>, since a number above 1,000 is not kept.
    /// The entry that a number on the sheet is read as: one above 1,000 is read as 1,000.
    pub fn read(number: u16) -> Entry
        ensures { result.number ≡ min number 1000 }
    {
        Entry {
            number: number.min(1000),
        }
    }

    pub fn number(self) -> u16
        ensures { result ≡ self.number }
    {
        self.number
    }
}

/// A lawful kind of charge (a cost). Every value of the type stands for one charge; several may stand for the same.
pub trait Charge: Copy {
    ghost kind: { Kind };

    // the charge that a value stands for
    ghost means: { Self → kind.V };

    // a value that stands for a charge
    ghost made: { kind.V → Self };

    fn zero() -> Self
        ensures { means result ≡ kind.zero };

    fn joined(self, other: Self) -> Self
        ensures { means result ≡ kind.join (means self) (means other) };

    // Stays: no PartialOrd, whose contract could not name the kind.
    fn is_at_most(self, other: Self) -> bool
        ensures { result ≡ kind.at_most (means self) (means other) };

    // Stays: no From<Entry>, whose contract could not name the kind.
    fn of_entry(entry: Entry) -> Self
        ensures { means result ≡ kind.entry entry.number };

    ghost stands: { (v : kind.V) → means (made v) ≡ v };

    ghost lawful: { Lawful kind };
}
