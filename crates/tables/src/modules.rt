// The table of a job's modules.
ghost use Rattle.std.specs.Prelude.{◌≡◌, ◌≤◌};

use crate::module_record::Module;

/// The modules of a job, at most twenty, numbered from 0 as they are added.
// Stays: an array with its count, since a job has no heap and a search takes a copy of its modules; ArrayVec is no Copy type.
#[derive(Clone, Copy)]
pub struct Modules {
    pub(crate) records: [Module; 20],
    pub(crate) count: usize,
    ghost few: { count ≤ 20 },
}

impl Modules {
    /// How many modules there are.
    pub fn count(&self) -> usize
        ensures { result ≡ self.now.count }
    {
        self.count
    }
}
