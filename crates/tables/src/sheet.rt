// The entries of the sheet: reading one, writing one, and clearing those of a new module.
ghost use Rattle.std.specs.Prelude.{◌≡◌, ◌<◌, slice_set};
ghost use Rattle.tables.specs.Sheet.{position, entry_at, Whole, Clears};

use charges::Entry;

/// How many entries a sheet has at least: 64 for each pair of twenty modules.
pub const ENTRIES: usize = 12160;

/// The place of an entry: setting `k` of module `i`, and setting `l` of the later module `j`.
#[derive(Clone, Copy)]
pub struct Place {
    pub i: usize,
    pub k: u8,
    pub j: usize,
    pub l: u8,
    ghost ordered: { i < j },
    ghost few: { j < 20 },
    ghost first: { k < 8 },
    ghost second: { l < 8 },
}

impl Place {
    fn position(self) -> usize
        ensures value { result ≡ position self.i self.k self.j self.l }
        ensures bound { result < 12160 }
    {
        (self.j * (self.j - 1) / 2 + self.i) * 64 + self.k as usize * 8 + self.l as usize
    }
}

/// The entry at a place.
pub fn entry(sheet: &[u16], place: Place) -> Entry
    requires { Whole sheet.now }
    ensures { result.number ≡ entry_at sheet.now place.i place.k place.j place.l }
{
    Entry::read(sheet[place.position()])
}

/// Writes the entry at a place.
pub fn write_entry(sheet: &mut [u16], place: Place, clash: u16)
    requires { Whole sheet.old }
    ensures { sheet.new ≡ slice_set sheet.old (position place.i place.k place.j place.l) clash }
{
    sheet[place.position()] = clash;
}

/// Sets the 64 entries of module `j` with each module before it to 0.
pub fn clear(sheet: &mut [u16], j: usize)
    requires { (Whole sheet.old) × (j < 20) }
    ensures { Clears sheet.old sheet.new j }
{
    if j == 0 {
        return;
    }
    let from = j * (j - 1) / 2 * 64;
    sheet[from..from + 64 * j].fill(0);
}
