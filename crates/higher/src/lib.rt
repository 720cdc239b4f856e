// The higher of two bounds.
#![tactic(auto)]

ghost use Rattle.std.specs.Prelude.{◌≡◌};
ghost use Rattle.higher.specs.Greater.{greater};
ghost use Rattle.bounds.proofs.Standing.{standing};
ghost use Rattle.std.proofs.lemmas.Bool.{cond_both};
ghost use Rattle.charges.specs.Kinds.{AtMost};
ghost use Rattle.tables.specs.Setups.{charge_of};

use bounds::asking::SCRATCH;
use bounds::bound::Bound;
use bounds::rows::{answer_place, change_rows};
use bounds::setting::{SettingBound, prepared_answer};
use charges::Charge;
use tables::modules::Modules;

/// The greater answer of any two bounds; a setting bound if both are.
#[derive(Drop)]
pub struct Higher<A, B> {
    pub first: A,
    pub second: B,
}

fn greater<C: Charge>(x: C, y: C) -> C
    ensures { C.Charge.means result ≡ greater C.Charge.kind (C.Charge.means x) (C.Charge.means y) }
{
    if x.is_at_most(y) { y } else { x }
}

impl<C: Charge, A: Bound<C>, B: Bound<C>> Bound<C> for Higher<A, B> {
    ghost floor = { λ h m sheet p. C.Charge.made (greater C.Charge.kind (C.Charge.means (A.Bound.floor h.first m sheet p)) (C.Charge.means (B.Bound.floor h.second m sheet p))) };

    ghost lawful = { λ h m sheet p s begins starts fine.
        let K = C.Charge.kind in
        let x = C.Charge.means (A.Bound.floor h.first m sheet p) in
        let y = C.Charge.means (B.Bound.floor h.second m sheet p) in
        standing K C.Charge.means C.Charge.made C.Charge.stands
        (cond_both (K.at_most x y) y x (λ v. AtMost K v (charge_of K sheet s m.count))
        (λ _. B.Bound.lawful h.second m sheet p s begins starts fine)
        (λ _. A.Bound.lawful h.first m sheet p s begins starts fine)) };

    fn floor_of(
        &self,
        modules: &Modules,
        sheet: &[u16],
        path: [u8; 20],
        len: usize,
        scratch: &mut [C],
    ) -> C {
        let one = self.first.floor_of(modules, sheet, path, len, scratch);
        let other = self.second.floor_of(modules, sheet, path, len, scratch);
        greater(one, other)
    }
}

impl<C: Charge, A: SettingBound<C>, B: SettingBound<C>> SettingBound<C> for Higher<A, B> {
    ghost answer = { λ h m sheet p j k. C.Charge.made (greater C.Charge.kind (C.Charge.means (A.SettingBound.answer h.first m sheet p j k)) (C.Charge.means (B.SettingBound.answer h.second m sheet p j k))) };

    ghost lawful_with = { λ h m sheet p s j k begins starts fine is.
        let K = C.Charge.kind in
        let x = C.Charge.means (A.SettingBound.answer h.first m sheet p j k) in
        let y = C.Charge.means (B.SettingBound.answer h.second m sheet p j k) in
        standing K C.Charge.means C.Charge.made C.Charge.stands
        (cond_both (K.at_most x y) y x (λ v. AtMost K v (charge_of K sheet s m.count))
        (λ _. B.SettingBound.lawful_with h.second m sheet p s j k begins starts fine is)
        (λ _. A.SettingBound.lawful_with h.first m sheet p s j k begins starts fine is)) };

    fn answer_of(
        &self,
        modules: &Modules,
        sheet: &[u16],
        path: [u8; 20],
        len: usize,
        j: usize,
        k: u8,
        scratch: &mut [C],
    ) -> C {
        let _ = self.prepare(modules, sheet, path, len, scratch);
        prepared_answer(modules, len, j, k, scratch)
    }

    fn prepare(
        &self,
        modules: &Modules,
        sheet: &[u16],
        path: [u8; 20],
        len: usize,
        scratch: &mut [C],
    ) -> C {
        let room: &mut [C] = &mut [C::zero(); SCRATCH];
        let one = self.first.prepare(modules, sheet, path, len, scratch);
        let other = self.second.prepare(modules, sheet, path, len, room);
        change_rows(
            modules,
            len,
            |j, k, answer| greater(answer, room[answer_place(j, k)]),
            scratch,
        );
        greater(one, other)
    }
}
