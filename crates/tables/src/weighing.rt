// The charge of a row, and of a setting with a row.
ghost use Rattle.std.specs.Prelude.{◌≡◌, ◌<◌, ◌≤◌};
ghost use Rattle.tables.specs.Setups.{Holds, forward_count, charge_of};

use crate::sheet::{Place, entry};
use charges::Charge;

// Stays: a row is handed on with the number of its settings, since it is twenty bytes that the caller lends.
/// What setting `k` of module `j` is charged with the settings that `row` has for the first `d` modules.
pub fn forward<C: Charge>(sheet: &[u16], row: &[u8], d: usize, j: usize, k: u8) -> C
    requires held { Holds sheet.now row.now d }
    requires later { (d ≤ j) × ((j < 20) × (k < 8)) }
    ensures { C.Charge.means result ≡ forward_count C.Charge.kind sheet.now row.now d j k }
{
    let mut sum = C::zero();
    for i in 0..d {
        let place = Place {
            i,
            k: row[i],
            j,
            l: k,
        };
        sum = sum.joined(C::of_entry(entry(sheet, place)));
    }
    sum
}

/// The charge of the settings that `row` has for the first `count` modules.
pub fn weigh<C: Charge>(sheet: &[u16], row: &[u8], count: usize) -> C
    requires { Holds sheet.now row.now count }
    ensures { C.Charge.means result ≡ charge_of C.Charge.kind sheet.now row.now count }
{
    let mut sum = C::zero();
    for j in 0..count {
        sum = sum.joined(forward(sheet, row, j, j, row[j]));
    }
    sum
}
