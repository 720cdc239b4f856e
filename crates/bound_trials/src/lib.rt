// A bound of one's own: it tells nothing, answers for one setting at a time, and prepares its answers by asking for each.
#![tactic(auto)]

ghost use Rattle.bounds.proofs.Standing.{standing};
ghost use Rattle.tables.specs.Setups.{charge_of};

use bounds::bound::Bound;
use bounds::setting::SettingBound;
use charges::Charge;
use tables::modules::Modules;

/// Zero for every beginning, and for every setting.
#[derive(Clone, Copy)]
pub struct Nothing {}

impl<C: Charge> Bound<C> for Nothing {
    ghost floor = { λ _ m sheet p. C.Charge.made C.Charge.kind.zero };

    ghost lawful = { λ b m sheet p s begins starts fine.
        let K = C.Charge.kind in
        standing K C.Charge.means C.Charge.made C.Charge.stands
        (C.Charge.lawful.least (charge_of K sheet s m.count)) };

    fn floor_of(
        &self,
        modules: &Modules,
        sheet: &[u16],
        path: [u8; 20],
        len: usize,
        scratch: &mut [C],
    ) -> C {
        C::zero()
    }
}

impl<C: Charge> SettingBound<C> for Nothing {
    ghost answer = { λ _ m sheet p j k. C.Charge.made C.Charge.kind.zero };

    ghost lawful_with = { λ b m sheet p s j k begins starts fine is.
        let K = C.Charge.kind in
        standing K C.Charge.means C.Charge.made C.Charge.stands
        (C.Charge.lawful.least (charge_of K sheet s m.count)) };

    fn answer_of(
        &self,
        modules: &Modules,
        sheet: &[u16],
        path: [u8; 20],
        len: usize,
        j: usize,
        k: u8,
        scratch: &mut [C],
    ) -> C {
        C::zero()
    }
}

#[cfg(test)]
mod tests {
    use super::Nothing;
    use charges::Count;
    use jobs::job::Job;
    use std::process::Abort;
    use walks::ways::Both;

    // Two modules of two settings, whose first ones clash.
    fn floors(rt: &impl Abort, sheet: &mut [u16], scratch: &mut [Count]) {
        let mut job: Job<Count, Both<Nothing>> = Job::open_both(7, Nothing {});
        let _ = job.add(sheet, 2);
        let _ = job.add(sheet, 2);
        let _ = job.charge(sheet, 0, 0, 1, 0, 50);
        assert_eq!(rt; job.floor(sheet, [0; 20], 1, scratch).number, 0);
        assert_eq!(rt; job.floor(sheet, [0; 20], 2, scratch).number, 0);
        assert_eq!(rt; job.floor_with(sheet, [0; 20], 1, 1, 0, scratch).number, 0);
    }

    #[test]
    fn floors_of_nothing_are_zero(rt: HostRuntime) {
        floors(&rt, &mut [0u16; 12160], &mut [Count { number: 9 }; 192]);
    }
}
