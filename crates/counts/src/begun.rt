// A beginning on a sheet, the counts of the settings of the later modules, and the floor that is made of counts.
ghost use Rattle.counts.specs.Counting.{MayCount, Counts};
ghost use Rattle.counts.specs.Floors.{least_entry, directed, forward, both, counted, floor_over};
ghost use Rattle.tables.specs.Modules.{allows};
ghost use Rattle.tables.specs.Setups.{Holds};
ghost use Rattle.tables.specs.Sheet.{entry_at};
ghost use Rattle.std.specs.Prelude.{◌≡◌, ℕ, ◌<◌, ◌≤◌, take};

use crate::least::least;
use crate::past;
use charges::Charge;
use tables::modules::Modules;
use tables::sheet::{Place, entry};
use tables::weighing;

/// The first `len` settings of `path`, on the modules and the sheet of a job.
#[derive(Clone, Copy)]
pub struct Begun<'a> {
    pub modules: &'a Modules,
    pub sheet: &'a [u16],
    pub path: &'a [u8],
    pub len: usize,
    pub ghost held: { Holds sheet.now path.now len },
    pub ghost within: { len ≤ modules.now.count },
}

impl Begun<'_> {
    // The charge of the entry between setting `k` of module `j` and setting `l` of the later module `i`.
    fn entry_charge<C: Charge>(&self, j: usize, k: u8, i: usize, l: u8) -> C
        requires { (j < i) × ((i < 20) × ((k < 8) × (l < 8))) }
        ensures { C.Charge.means result ≡ C.Charge.kind.entry (entry_at self.now.sheet.now j k i l) }
    {
        C::of_entry(entry(self.sheet, Place { i: j, k, j: i, l }))
    }

    // The least charge of an entry between setting `k` of module `j` and an allowed setting of the later module `i`.
    fn least_entry<C: Charge>(&self, j: usize, k: u8, i: usize) -> C
        requires { (j < i) × ((i < 20) × (k < 8)) }
        ensures { C.Charge.means result ≡ least_entry C.Charge.kind self.now.modules.now self.now.sheet.now j k i }
    {
        least(self.modules, i, |i, l| self.entry_charge(j, k, i, l))
    }

    // The directed count of setting `k` of module `j`.
    fn directed_count<C: Charge>(&self, j: usize, k: u8) -> C
        requires { (j < self.now.modules.now.count) × (k < 8) }
        ensures { C.Charge.means result ≡ directed C.Charge.kind self.now.modules.now self.now.sheet.now j k }
    {
        let mut sum = C::zero();
        for i in j + 1..self.modules.count() {
            sum = sum.joined(self.least_entry(j, k, i));
        }
        sum
    }

    /// The forward count of setting `k` of the later module `j`: its entries with the beginning.
    pub fn forward_count<C: Charge>(&self, j: usize, k: u8) -> C
        requires { (self.now.len ≤ j) × ((j < self.now.modules.now.count) × (k < 8)) }
        ensures { C.Charge.means result ≡ forward C.Charge.kind self.now.sheet.now (take self.now.len self.now.path.now) j k }
    {
        weighing::forward(self.sheet, self.path, self.len, j, k)
    }

    /// Both counts of it: the forward count joined with what it comes to with the modules after its own.
    pub fn both_counts<C: Charge>(&self, j: usize, k: u8) -> C
        requires { (self.now.len ≤ j) × ((j < self.now.modules.now.count) × (k < 8)) }
        ensures { C.Charge.means result ≡ both C.Charge.kind self.now.modules.now self.now.sheet.now (take self.now.len self.now.path.now) j k }
    {
        let forward: C = self.forward_count(j, k);
        forward.joined(self.directed_count(j, k))
    }

    /// The past charge joined with the least count of each later module.
    pub fn floor_by<C: Charge, F: Fn(usize, u8) -> C>(&self, count: F) -> C
        requires { MayCount (F.pre count) self.now.len self.now.modules.now.count }
        ensures { (value : ℕ → ℕ → C.Charge.kind.V) → Counts C.Charge.means (F.post count) value self.now.len self.now.modules.now.count → C.Charge.means result ≡ floor_over C.Charge.kind self.now.modules.now self.now.sheet.now (allows self.now.modules.now) value (take self.now.len self.now.path.now) }
    {
        let mut total: C = past(self.sheet, self.path, self.len);
        for j in self.len..self.modules.count() {
            total = total.joined(least(self.modules, j, &count));
        }
        total
    }

    /// The past charge joined, for each later module, with the least forward count, or with `DIRECTED` the least of both
    /// counts joined.
    pub fn counted_floor<C: Charge, const DIRECTED: bool>(&self) -> C
        ensures { C.Charge.means result ≡ floor_over C.Charge.kind self.now.modules.now self.now.sheet.now (allows self.now.modules.now) (counted C.Charge.kind self.now.modules.now self.now.sheet.now DIRECTED (take self.now.len self.now.path.now)) (take self.now.len self.now.path.now) }
    {
        // Stays: an `if` around two closures, since the check takes no const parameter inside a closure.
        if DIRECTED {
            self.floor_by(|j, k| self.both_counts(j, k))
        } else {
            self.floor_by(|j, k| self.forward_count(j, k))
        }
    }
}
