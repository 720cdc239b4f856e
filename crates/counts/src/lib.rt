// Counts of settings, the least of a module, and the floors that are made of them.
#![tactic(auto)]

ghost use Rattle.counts.specs.Floors.{past_charge};
ghost use Rattle.tables.specs.Setups.{Holds};
ghost use Rattle.std.specs.Prelude.{◌≡◌, take};

pub use crate::least::{lesser, or_zero};
use charges::Charge;
use tables::weighing::weigh;

pub mod begun;
pub mod least;

/// The past charge of the first `d` settings of `path`.
pub fn past<C: Charge>(sheet: &[u16], path: &[u8], d: usize) -> C
    requires { Holds sheet.now path.now d }
    ensures { C.Charge.means result ≡ past_charge C.Charge.kind sheet.now (take d path.now) }
{
    weigh(sheet, path, d)
}
