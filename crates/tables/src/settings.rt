// Adding a module, narrowing one, and asking for the settings of one.
ghost use Rattle.std.specs.Prelude.{◌≡◌, ◌^◌, ◌<◌, ◌≤◌};
ghost use Rattle.tables.specs.Modules.{settings_of, mask_of, allows, Adds, Narrows};

use crate::module_record::Module;
use crate::modules::Modules;

impl Modules {
    /// No modules.
    pub fn none() -> Modules
        ensures { result.count ≡ 0 }
    {
        Modules {
            records: [Module {
                settings: 1,
                mask: 1,
            }; 20],
            count: 0,
        }
    }

    // Stays: `i < 20` in each clause; an index comes from a loop or from a call, and a type for it would be made anew each time.
    /// How many settings module `i` has.
    pub fn settings(&self, i: usize) -> u8
        requires { i < 20 }
        ensures { result ≡ settings_of self.now i }
    {
        self.records[i].settings
    }

    /// The mask of module `i`.
    pub fn mask(&self, i: usize) -> u8
        requires { i < 20 }
        ensures { result ≡ mask_of self.now i }
    {
        let module = self.records[i];
        module.mask
    }

    /// Whether setting `k` of module `i` is allowed.
    pub fn allows(&self, i: usize, k: u8) -> bool
        requires { i < 20 }
        ensures { result ≡ allows self.now i k }
    {
        k < 8 && (self.records[i].mask >> k) & 1 == 1
    }

    /// One module more, with all its settings allowed.
    pub fn add(&mut self, settings: u8)
        requires { (self.old.count < 20) × ((1 ≤ settings) × (settings ≤ 8)) }
        ensures { Adds self.old self.new settings }
    {
        let mask = ((1u16 << settings) - 1) as u8;
        self.records[self.count] = Module { settings, mask };
        self.count += 1;
    }

    /// Allows those settings of module `i` whose bits are set in `mask`.
    pub fn narrow(&mut self, i: usize, mask: u8)
        requires { (i < 20) × ((1 ≤ mask) × (mask < 2 ^ settings_of self.old i)) }
        ensures { Narrows self.old self.new i mask }
    {
        self.records[i].mask = mask;
    }
}
