// What a job tells of itself.
ghost use Rattle.std.specs.Prelude.{◌≡◌};

use crate::job::Job;

impl<C, W> Job<C, W> {
    /// The number of the job.
    pub fn number(&self) -> u32
        ensures { result ≡ self.now.number }
    {
        self.number
    }

    /// How many modules it has.
    pub fn count(&self) -> usize
        ensures { result ≡ self.now.modules.count }
    {
        self.modules.count()
    }
}
