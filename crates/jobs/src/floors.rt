// The floors of a job's bound.
ghost use Rattle.bounds.specs.Beginnings.{answerable, later_setting};
ghost use Rattle.std.specs.Prelude.{◌≡◌, cond, ◌&&◌, length, take};

use crate::job::Job;
use bounds::setting::SettingBound;
use charges::Charge;
use walks::ways::{Both, Walk};

impl<C: Charge, W: Walk<C>> Job<C, W> {
    /// The floor of the job's bound at the beginning in the first `len` bytes of `path`: at most the charge of every
    /// allowed setup that starts so. Zero where these are no beginning of the job, or sheet or scratch is too short.
    pub fn floor(&self, sheet: &[u16], path: [u8; 20], len: usize, scratch: &mut [C]) -> C
        ensures { C.Charge.means result ≡ cond (answerable self.now.modules sheet.now path len (length scratch.old))
            (C.Charge.means (W.Walk.floor self.now.walks self.now.modules sheet.now (take len path)))
            C.Charge.kind.zero }
    {
        self.walks
            .floor_at(&self.modules, sheet, path, len, scratch)
    }
}

impl<C: Charge, B: SettingBound<C>> Job<C, Both<B>> {
    /// The answer of the job's setting bound for setting `k` of the later module `j`: at most the charge of every allowed
    /// setup that starts so and has `k` there. Zero also where `j` is no later module or `k` is not allowed there.
    pub fn floor_with(
        &self,
        sheet: &[u16],
        path: [u8; 20],
        len: usize,
        j: u8,
        k: u8,
        scratch: &mut [C],
    ) -> C
        ensures { C.Charge.means result ≡ cond (answerable self.now.modules sheet.now path len (length scratch.old) && later_setting self.now.modules len j k)
            (C.Charge.means (B.SettingBound.answer self.now.walks.bound self.now.modules sheet.now (take len path) j k))
            C.Charge.kind.zero }
    {
        self.walks
            .bound
            .floor_with(&self.modules, sheet, path, len, j as usize, k, scratch)
    }
}
