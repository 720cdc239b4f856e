// The walks that a job is opened for.
ghost use Rattle.std.specs.Prelude.{◌≡◌, ℕ, true, cond, List, length, take, slice_index};
ghost use Rattle.bounds.specs.Beginnings.{Beginning, Setup, Starts, answerable};
ghost use Rattle.charges.specs.Kinds.{AtMost};
ghost use Rattle.walks.specs.Opening.{under, Opens};
ghost use Rattle.walks.specs.Trails.{Live};
ghost use Rattle.tables.specs.Setups.{charge_of};
ghost use Rattle.tables.specs.declared.modules.Modules.{Modules};

use crate::striking::strike;
use bounds::bound::Bound;
use bounds::setting::SettingBound;
use charges::Charge;
use tables::modules::Modules;

/// Plain walks alone, over any bound.
#[derive(Drop)]
pub struct Plain<B> {
    pub bound: B,
}

/// Plain walks and walks that look ahead, over a bound that also answers for one setting.
#[derive(Drop)]
pub struct Both<B> {
    pub bound: B,
}

/// What a job is opened for: plain walks over any bound, or both walks over a setting bound.
pub trait Walk<C: Charge>: Drop {
    // the floor at a beginning
    ghost floor: { Self → Modules → List ℕ → List ℕ → C };

    // the answer for setting k of the later module j
    ghost answer: { Self → Modules → List ℕ → List ℕ → ℕ → ℕ → C };

    /// The floor at the beginning in the first `len` bytes of `path`; zero where that is no beginning, or sheet or scratch
    /// is too short.
    fn floor_at(
        &self,
        modules: &Modules,
        sheet: &[u16],
        path: [u8; 20],
        len: usize,
        scratch: &mut [C],
    ) -> C
        ensures { C.Charge.means result ≡ cond (answerable modules.now sheet.now path len (length scratch.old))
            (C.Charge.means (floor self.now modules.now sheet.now (take len path)))
            C.Charge.kind.zero };

    // Stays: a beginning is handed on whole, as twenty bytes and a length, and sheet, row and scratch are lent by the caller.
    /// What is left of `row`, the live settings, once the beginning is opened, looking ahead or not; `None` where it is
    /// closed.
    fn opened(
        &self,
        modules: &Modules,
        sheet: &[u16],
        path: [u8; 20],
        len: usize,
        ahead: bool,
        limit: C,
        row: [u8; 20],
        scratch: &mut [C],
    ) -> Option<[u8; 20]>
        requires begun { answerable modules.now sheet.now path len (length scratch.old) ≡ true }
        requires live { Live modules.now row len }
        ensures { Opens C.Charge.kind (C.Charge.means limit)
            (C.Charge.means (floor self.now modules.now sheet.now (take len path)))
            (λ j k. C.Charge.means (answer self.now modules.now sheet.now (take len path) j k))
            ahead row len modules.now.count result };

    ghost lawful: { (w : Self) (m : Modules) (sheet p s : List ℕ) → Beginning m p → Starts p s → Setup m s → AtMost C.Charge.kind (C.Charge.means (floor w m sheet p)) (charge_of C.Charge.kind sheet s m.count) };

    ghost lawful_with: { (w : Self) (m : Modules) (sheet p s : List ℕ) (j k : ℕ) → Beginning m p → Starts p s → Setup m s → slice_index s j ≡ k → AtMost C.Charge.kind (C.Charge.means (answer w m sheet p j k)) (charge_of C.Charge.kind sheet s m.count) };
}

// Whether the floor at the beginning is below the limit.
fn is_under<C: Charge, B: Bound<C>>(
    bound: &B,
    modules: &Modules,
    sheet: &[u16],
    path: [u8; 20],
    len: usize,
    limit: C,
    scratch: &mut [C],
) -> bool
    requires { answerable modules.now sheet.now path len (length scratch.old) ≡ true }
    ensures { result ≡ under C.Charge.kind (C.Charge.means limit) (C.Charge.means (B.Bound.floor bound.now modules.now sheet.now (take len path))) }
{
    !limit.is_at_most(bound.floor_of(modules, sheet, path, len, scratch))
}

impl<C: Charge, B: Bound<C>> Walk<C> for Plain<B> {
    ghost floor = { λ w. B.Bound.floor w.bound };

    // the floor serves for every setting: at an opened beginning it strikes none
    ghost answer = { λ w m sheet p j k. B.Bound.floor w.bound m sheet p };

    ghost lawful = { λ w. B.Bound.lawful w.bound };

    ghost lawful_with = { λ w m sheet p s j k begins starts fine is. B.Bound.lawful w.bound m sheet p s begins starts fine };

    fn floor_at(
        &self,
        modules: &Modules,
        sheet: &[u16],
        path: [u8; 20],
        len: usize,
        scratch: &mut [C],
    ) -> C {
        self.bound.floor_at(modules, sheet, path, len, scratch)
    }

    fn opened(
        &self,
        modules: &Modules,
        sheet: &[u16],
        path: [u8; 20],
        len: usize,
        ahead: bool,
        limit: C,
        row: [u8; 20],
        scratch: &mut [C],
    ) -> Option<[u8; 20]> {
        is_under(&self.bound, modules, sheet, path, len, limit, scratch).then_some(row)
    }
}

// Stays: one impl for Plain and one for Both, since Plain asks less of its bound.
impl<C: Charge, B: SettingBound<C>> Walk<C> for Both<B> {
    ghost floor = { λ w. B.Bound.floor w.bound };

    ghost answer = { λ w. B.SettingBound.answer w.bound };

    ghost lawful = { λ w. B.Bound.lawful w.bound };

    ghost lawful_with = { λ w. B.SettingBound.lawful_with w.bound };

    fn floor_at(
        &self,
        modules: &Modules,
        sheet: &[u16],
        path: [u8; 20],
        len: usize,
        scratch: &mut [C],
    ) -> C {
        let bound = &self.bound;
        bound.floor_at(modules, sheet, path, len, scratch)
    }

    fn opened(
        &self,
        modules: &Modules,
        sheet: &[u16],
        path: [u8; 20],
        len: usize,
        ahead: bool,
        limit: C,
        row: [u8; 20],
        scratch: &mut [C],
    ) -> Option<[u8; 20]> {
        if !ahead {
            is_under(&self.bound, modules, sheet, path, len, limit, scratch).then_some(row)
        } else if limit.is_at_most(self.bound.prepare(modules, sheet, path, len, scratch)) {
            None
        } else {
            strike(scratch, row, len, modules.count(), limit)
        }
    }
}
