// Opening, building and weighing at a desk: each call is the job's own.
ghost use Rattle.jobs.specs.Checks.{unless_walking, add_checks, charge_checks, narrow_checks, weigh_checks, what_if_checks};
ghost use Rattle.jobs.specs.Refusals.{Decides};
ghost use Rattle.jobs.specs.Searching.{is_open};
ghost use Rattle.bounds.specs.Beginnings.{answerable, later_setting};
ghost use Rattle.std.specs.Prelude.{◌≡◌, cond, ◌&&◌, length, take, None, slice_set};
ghost use Rattle.tables.specs.Modules.{Adds, Narrows};
ghost use Rattle.tables.specs.Setups.{charge_of};
ghost use Rattle.tables.specs.Sheet.{Clears, position};

use crate::desk::Desk;
use bounds::bound::Bound;
use bounds::setting::SettingBound;
use charges::Charge;
use jobs::job::Job;
use jobs::refusal::Refusal;
use walks::ways::{Both, Plain, Walk};

// Stays: each of the two opens another kind of job, and is one expression.
impl<C: Charge, B: Bound<C>> Desk<C, Plain<B>> {
    /// A desk with a job without modules, for plain walks alone.
    pub fn open_plain(number: u32, bound: B) -> Desk<C, Plain<B>>
        ensures number { result.job.number ≡ number }
        ensures modules { result.job.modules.count ≡ 0 }
        ensures bound { result.job.walks.bound ≡ bound }
        ensures current { result.job.current ≡ None }
    {
        Desk {
            job: Job::open_plain(number, bound),
            held: None,
        }
    }
}

impl<C: Charge, B: SettingBound<C>> Desk<C, Both<B>> {
    /// A desk with a job without modules, for plain walks and walks that look ahead.
    pub fn open_both(number: u32, bound: B) -> Desk<C, Both<B>>
        ensures number { result.job.number ≡ number }
        ensures modules { result.job.modules.count ≡ 0 }
        ensures bound { result.job.walks.bound ≡ bound }
        ensures current { result.job.current ≡ None }
    {
        Desk {
            job: Job::open_both(number, bound),
            held: None,
        }
    }

    /// The answer of the job's setting bound for one setting of one later module.
    pub fn floor_with(
        &self,
        sheet: &[u16],
        path: [u8; 20],
        len: usize,
        j: u8,
        k: u8,
        scratch: &mut [C],
    ) -> C
        ensures { C.Charge.means result ≡ cond (answerable self.now.job.modules sheet.now path len (length scratch.old) && later_setting self.now.job.modules len j k)
            (C.Charge.means (B.SettingBound.answer self.now.job.walks.bound self.now.job.modules sheet.now (take len path) j k))
            C.Charge.kind.zero }
    {
        self.job.floor_with(sheet, path, len, j, k, scratch)
    }
}

impl<C, W> Desk<C, W> {
    /// Adds a module. Refuses 1 to 4.
    pub fn add(&mut self, sheet: &mut [u16], settings: u8) -> Result<u8, Refusal>
        ensures decides { Decides result (unless_walking (is_open self.old.job.current) (add_checks self.old.job.modules sheet.old settings))
            (λ i. (i ≡ self.old.job.modules.count)
            × Adds self.old.job.modules self.new.job.modules settings
            × Clears sheet.old sheet.new self.old.job.modules.count)
            ((self.new.job.modules ≡ self.old.job.modules) × (sheet.new ≡ sheet.old)) }
        ensures same_number { self.new.job.number ≡ self.old.job.number }
        ensures same_walks { self.new.job.walks ≡ self.old.job.walks }
        ensures same_walk { self.new.job.current ≡ self.old.job.current }
    {
        self.job.add(sheet, settings)
    }

    /// Writes one clash. Refuses 1, 2, 5, 6, 7 and 8.
    pub fn charge(
        &self,
        sheet: &mut [u16],
        i: u8,
        k: u8,
        j: u8,
        l: u8,
        clash: u16,
    ) -> Result<(), Refusal>
        ensures { Decides result (unless_walking (is_open self.now.job.current) (charge_checks self.now.job.modules sheet.old i k j l clash))
            (λ _. sheet.new ≡ slice_set sheet.old (position i k j l) clash)
            (sheet.new ≡ sheet.old) }
    {
        self.job.charge(sheet, i, k, j, l, clash)
    }

    /// Makes `mask` the mask of module `i`. Refuses 2, 5 and 9.
    pub fn narrow(&mut self, i: u8, mask: u8) -> Result<(), Refusal>
        ensures decides { Decides result (unless_walking (is_open self.old.job.current) (narrow_checks self.old.job.modules i mask))
            (λ _. Narrows self.old.job.modules self.new.job.modules i mask)
            (self.new.job.modules ≡ self.old.job.modules) }
        ensures same_number { self.new.job.number ≡ self.old.job.number }
        ensures same_walks { self.new.job.walks ≡ self.old.job.walks }
        ensures same_walk { self.new.job.current ≡ self.old.job.current }
    {
        self.job.narrow(i, mask)
    }
}

impl<C: Charge, W> Desk<C, W> {
    /// The charge of a row. Refuses 1 and 7.
    pub fn weigh(&self, sheet: &[u16], row: &[u8]) -> Result<C, Refusal>
        ensures { Decides result (weigh_checks self.now.job.modules sheet.now row.now)
            (λ v. C.Charge.means v ≡ charge_of C.Charge.kind sheet.now row.now self.now.job.modules.count)
            (Unit {0}) }
    {
        self.job.weigh(sheet, row)
    }

    /// The charge of a row with setting `k` for module `i`. Refuses 1, 5 and 7.
    pub fn what_if(&self, sheet: &[u16], row: &mut [u8], i: u8, k: u8) -> Result<C, Refusal>
        ensures decides { Decides result (what_if_checks self.now.job.modules sheet.now row.old i k)
            (λ v. C.Charge.means v ≡ charge_of C.Charge.kind sheet.now (slice_set row.old i k) self.now.job.modules.count)
            (Unit {0}) }
        ensures same { row.new ≡ row.old }
    {
        self.job.what_if(sheet, row, i, k)
    }
}

impl<C: Charge, W: Walk<C>> Desk<C, W> {
    /// The floor of the job's bound.
    pub fn floor(&self, sheet: &[u16], path: [u8; 20], len: usize, scratch: &mut [C]) -> C
        ensures { C.Charge.means result ≡ cond (answerable self.now.job.modules sheet.now path len (length scratch.old))
            (C.Charge.means (W.Walk.floor self.now.job.walks self.now.job.modules sheet.now (take len path)))
            C.Charge.kind.zero }
    {
        self.job.floor(sheet, path, len, scratch)
    }
}
