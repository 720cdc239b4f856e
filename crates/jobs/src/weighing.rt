// Weighing a row: weigh and what-if.
ghost use Rattle.std.specs.Prelude.{◌≡◌, ◌≤◌, true, length, slice_set};
ghost use Rattle.tables.specs.Setups.{charge_of};
ghost use Rattle.jobs.specs.Refusals.{Decides};
ghost use Rattle.jobs.specs.Checks.{has_all, weigh_checks, what_if_checks};

use crate::guard::Restore;
use crate::job::Job;
use crate::refusal::Refusal;
use charges::Charge;
use tables::modules::Modules;
use tables::sheet::ENTRIES;

/// How many bytes a row has at least.
pub const ROW: usize = 20;

// Whether `row` has a setting of each module.
fn has_all(modules: &Modules, row: &[u8]) -> bool
    requires { 20 ≤ length row.now }
    ensures { result ≡ has_all modules.now row.now modules.now.count }
{
    (0..modules.count()).all(|i| row[i] < modules.settings(i))
}

impl<C: Charge, W> Job<C, W> {
    /// The charge of the setup in the first bytes of `row`; its settings need not be allowed. Refuses 1 and 7.
    pub fn weigh(&self, sheet: &[u16], row: &[u8]) -> Result<C, Refusal>
        ensures { Decides result (weigh_checks self.now.modules sheet.now row.now)
            (λ v. C.Charge.means v ≡ charge_of C.Charge.kind sheet.now row.now self.now.modules.count)
            (Unit {0}) }
    {
        if sheet.len() < ENTRIES || row.len() < ROW {
            return Err(Refusal::TooShort);
        }
        if !has_all(&self.modules, row) {
            return Err(Refusal::NoSetting);
        }
        Ok(tables::weighing::weigh(sheet, row, self.modules.count()))
    }

    /// The charge of `row` with setting `k` in the place of what it has for module `i`, which does not count. The row
    /// is as it was, however the call ends. Refuses 1, 5 and 7.
    pub fn what_if(&self, sheet: &[u16], row: &mut [u8], i: u8, k: u8) -> Result<C, Refusal>
        ensures decides { Decides result (what_if_checks self.now.modules sheet.now row.old i k)
            (λ v. C.Charge.means v ≡ charge_of C.Charge.kind sheet.now (slice_set row.old i k) self.now.modules.count)
            (Unit {0}) }
        ensures same { row.new ≡ row.old }
    {
        if sheet.len() < ENTRIES || row.len() < ROW {
            return Err(Refusal::TooShort);
        }
        let at = i as usize;
        if at >= self.modules.count() {
            return Err(Refusal::NoModule);
        }
        let old = row[at];
        row[at] = k;
        let guard = Restore { row, at, old };
        self.weigh(sheet, guard.bytes())
    }
}
