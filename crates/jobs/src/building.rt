// Building a job: add, charge and narrow.
ghost use Rattle.std.specs.Prelude.{◌≡◌, slice_set};
ghost use Rattle.tables.specs.Modules.{Adds, Narrows};
ghost use Rattle.tables.specs.Sheet.{Clears, position};
ghost use Rattle.jobs.specs.Refusals.{Decides};
ghost use Rattle.jobs.specs.Searching.{is_open};
ghost use Rattle.jobs.specs.Checks.{unless_walking, add_checks, charge_checks, narrow_checks};

use crate::job::Job;
use crate::refusal::Refusal;
use tables::sheet::{ENTRIES, Place, clear, write_entry};

// Stays: what a call leaves of the job stands in plain equations, since the calls differ in what that is.
impl<C, W> Job<C, W> {
    /// Adds a module of so many settings, all allowed, and clears its entries with each earlier module. Answers the
    /// module's number; refuses 1 to 4.
    pub fn add(&mut self, sheet: &mut [u16], settings: u8) -> Result<u8, Refusal>
        ensures decides { Decides result (unless_walking (is_open self.old.current) (add_checks self.old.modules sheet.old settings))
            (λ i. (i ≡ self.old.modules.count)
            × Adds self.old.modules self.new.modules settings
            × Clears sheet.old sheet.new self.old.modules.count)
            ((self.new.modules ≡ self.old.modules) × (sheet.new ≡ sheet.old)) }
        ensures same_number { self.new.number ≡ self.old.number }
        ensures same_walks { self.new.walks ≡ self.old.walks }
        ensures same_walk { self.new.current ≡ self.old.current }
    {
        if sheet.len() < ENTRIES {
            return Err(Refusal::TooShort);
        }
        if self.current.is_some() {
            return Err(Refusal::SearchOpen);
        }
        let i = self.modules.count();
        if i >= 20 {
            return Err(Refusal::Full);
        }
        if !(1..=8).contains(&settings) {
            return Err(Refusal::SettingsOutOfRange);
        }
        clear(sheet, i);
        self.modules.add(settings);
        Ok(i as u8)
    }

    /// Writes the clash of setting `k` of module `i` with setting `l` of the later module `j`. Refuses 1, 2, 5, 6, 7
    /// and 8.
    pub fn charge(
        &self,
        sheet: &mut [u16],
        i: u8,
        k: u8,
        j: u8,
        l: u8,
        clash: u16,
    ) -> Result<(), Refusal>
        ensures { Decides result (unless_walking (is_open self.now.current) (charge_checks self.now.modules sheet.old i k j l clash))
            (λ _. sheet.new ≡ slice_set sheet.old (position i k j l) clash)
            (sheet.new ≡ sheet.old) }
    {
        if sheet.len() < ENTRIES {
            return Err(Refusal::TooShort);
        }
        if self.current.is_some() {
            return Err(Refusal::SearchOpen);
        }
        let first = i as usize;
        let second = j as usize;
        if first >= self.modules.count() || second >= self.modules.count() {
            return Err(Refusal::NoModule);
        }
        if first >= second {
            return Err(Refusal::NotLower);
        }
        if k >= self.modules.settings(first) || l >= self.modules.settings(second) {
            return Err(Refusal::NoSetting);
        }
        if clash > 1000 {
            return Err(Refusal::ClashTooHigh);
        }
        let place = Place {
            i: first,
            k,
            j: second,
            l,
        };
        write_entry(sheet, place, clash);
        Ok(())
    }

    /// Makes `mask` the mask of module `i`. Refuses 2, 5 and 9.
    pub fn narrow(&mut self, i: u8, mask: u8) -> Result<(), Refusal>
        ensures decides { Decides result (unless_walking (is_open self.old.current) (narrow_checks self.old.modules i mask))
            (λ _. Narrows self.old.modules self.new.modules i mask)
            (self.new.modules ≡ self.old.modules) }
        ensures same_number { self.new.number ≡ self.old.number }
        ensures same_walks { self.new.walks ≡ self.old.walks }
        ensures same_walk { self.new.current ≡ self.old.current }
    {
        if self.current.is_some() {
            return Err(Refusal::SearchOpen);
        }
        let at = i as usize;
        if at >= self.modules.count() {
            return Err(Refusal::NoModule);
        }
        if mask == 0 || mask as u16 >= 1u16 << self.modules.settings(at) {
            return Err(Refusal::WrongMask);
        }
        self.modules.narrow(at, mask);
        Ok(())
    }
}
