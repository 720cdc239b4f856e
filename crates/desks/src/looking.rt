// What a desk tells of its job.
ghost use Rattle.std.specs.Prelude.{◌≡◌};

use crate::desk::Desk;

impl<C, W> Desk<C, W> {
    /// The number of the job.
    pub fn number(&self) -> u32
        ensures { result ≡ self.now.job.number }
    {
        self.job.number()
    }

    /// How many modules it has.
    pub fn count(&self) -> usize
        ensures { result ≡ self.now.job.modules.count }
    {
        self.job.count()
    }
}
