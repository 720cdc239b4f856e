// The walks that a script opens a job for, and what each can be asked besides.
ghost use Rattle.std.specs.Prelude.{◌≡◌, ℕ, List, length};
ghost use Rattle.reports.specs.Performs.{Opening, for_plain, for_both, floor_by, with_by, with_told, AheadsTold};
ghost use Rattle.tables.specs.declared.modules.Modules.{Modules};
ghost use Rattle.std.proofs.Common.{refl};

use crate::figured::Figured;
use crate::walking::start_ahead;
use answers::answer::Answer;
use bound_names::names::{Named, SettingName};
use desks::desk::Desk;
use told::figure::Figure;
use walks::ways::{Both, Plain, Walk};

/// Walks that a script can name. Those that only go plainly have no answer for one setting and no start ahead.
pub trait Scripted<C: Figured>: Walk<C> {
    // what the job is opened for
    ghost opening: { Self → Opening };

    /// The answer for setting `k` of the later module `j`.
    fn floor_with(
        desk: &Desk<C, Self>,
        sheet: &[u16],
        scratch: &mut [C],
        path: [u8; 20],
        len: u8,
        j: u8,
        k: u8,
    ) -> Answer
        ensures { result ≡ with_told C.Charge.kind C.Charge.means C.Charge.made (λ v. C.Figured.shows (C.Charge.made v)) C.Figured.says (opening desk.now.job.walks) desk.now.job.modules sheet.now path len (length scratch.old) j k };

    /// Begins a walk that looks ahead.
    fn start_ahead(desk: &mut Desk<C, Self>, ceiling: Figure) -> Answer
        ensures starts { AheadsTold C.Charge.kind C.Charge.means C.Charge.made (λ v. C.Figured.shows (C.Charge.made v)) C.Figured.says (opening desk.old.job.walks) desk.old.job.number desk.old.job.modules desk.old.job.current ceiling result desk.new.job.current }
        ensures same_modules { desk.new.job.modules ≡ desk.old.job.modules }
        ensures same_number { desk.new.job.number ≡ desk.old.job.number }
        ensures same_walks { desk.new.job.walks ≡ desk.old.job.walks };

    ghost floors: { (w : Self) (m : Modules) (sheet p : List ℕ) → Self.Walk.floor w m sheet p ≡ floor_by C.Charge.kind C.Charge.means C.Charge.made (λ v. C.Figured.shows (C.Charge.made v)) C.Figured.says (opening w) m sheet p };

    ghost answers: { (w : Self) (m : Modules) (sheet p : List ℕ) (j k : ℕ) → Self.Walk.answer w m sheet p j k ≡ with_by C.Charge.kind C.Charge.means C.Charge.made (λ v. C.Figured.shows (C.Charge.made v)) C.Figured.says (opening w) m sheet p j k };
}

impl<C: Figured> Scripted<C> for Plain<Named> {
    ghost opening = { λ w. for_plain w.bound.bound };

    ghost floors = { λ w m sheet p. refl };

    ghost answers = { λ w m sheet p j k. refl };

    fn floor_with(
        desk: &Desk<C, Plain<Named>>,
        sheet: &[u16],
        scratch: &mut [C],
        path: [u8; 20],
        len: u8,
        j: u8,
        k: u8,
    ) -> Answer {
        Answer::NotACall // its bound need not answer for one setting
    }

    fn start_ahead(desk: &mut Desk<C, Plain<Named>>, ceiling: Figure) -> Answer {
        Answer::NotACall // it is opened for plain walks alone
    }
}

impl<C: Figured> Scripted<C> for Both<SettingName> {
    ghost opening = { λ w. for_both w.bound };

    ghost floors = { λ w m sheet p. refl };

    ghost answers = { λ w m sheet p j k. refl };

    fn floor_with(
        desk: &Desk<C, Both<SettingName>>,
        sheet: &[u16],
        scratch: &mut [C],
        path: [u8; 20],
        len: u8,
        j: u8,
        k: u8,
    ) -> Answer {
        let charge = desk.floor_with(sheet, path, len as usize, j, k, scratch);
        Answer::Charge(charge.figure())
    }

    fn start_ahead(desk: &mut Desk<C, Both<SettingName>>, ceiling: Figure) -> Answer {
        start_ahead(desk, ceiling)
    }
}
