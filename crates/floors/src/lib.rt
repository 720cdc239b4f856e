// The past, forward and directed bounds.
#![tactic(auto)]

ghost use Rattle.counts.specs.Floors.{past_charge, counted, floor_over, only};
ghost use Rattle.bounds.proofs.Standing.{standing};
ghost use Rattle.tables.specs.Modules.{allows};
ghost use Rattle.counts.proofs.Sound.{past_sound, counted_sound, counted_with_sound};

use bounds::bound::Bound;
use bounds::setting::{SettingBound, prepared_answer};
use charges::Charge;
use count_table::prepare_counted;
use counts::begun::Begun;
use counts::past;
use tables::modules::Modules;

/// The past charge: what the beginning's own modules are charged.
#[derive(Clone, Copy)]
pub struct Past {}

/// The past charge joined, for each later module, with the least count of an allowed setting: its forward count, or with
/// `DIRECTED` both its counts joined.
#[derive(Clone, Copy)]
pub struct Counted<const DIRECTED: bool> {}

/// The bound by forward counts.
pub type Forward = Counted<false>;

/// The bound by both counts.
pub type Directed = Counted<true>;

impl<C: Charge> Bound<C> for Past {
    ghost floor = { λ _ m sheet p. C.Charge.made (past_charge C.Charge.kind sheet p) };

    ghost lawful = { λ b m sheet p s begins starts fine.
        let K = C.Charge.kind in
        standing K C.Charge.means C.Charge.made C.Charge.stands
        (past_sound K C.Charge.lawful m sheet p s begins.within starts fine) };

    fn floor_of(
        &self,
        modules: &Modules,
        sheet: &[u16],
        path: [u8; 20],
        len: usize,
        scratch: &mut [C],
    ) -> C {
        past(sheet, &path, len)
    }
}

impl<C: Charge, const DIRECTED: bool> Bound<C> for Counted<DIRECTED> {
    ghost floor = { λ _ m sheet p. C.Charge.made (floor_over C.Charge.kind m sheet (allows m) (counted C.Charge.kind m sheet DIRECTED p) p) };

    ghost lawful = { λ b m sheet p s begins starts fine.
        let K = C.Charge.kind in
        standing K C.Charge.means C.Charge.made C.Charge.stands
        (counted_sound K C.Charge.lawful m sheet p s begins.within starts fine DIRECTED) };

    fn floor_of(
        &self,
        modules: &Modules,
        sheet: &[u16],
        path: [u8; 20],
        len: usize,
        scratch: &mut [C],
    ) -> C {
        let begun = &Begun {
            modules,
            sheet,
            path: &path,
            len,
        };
        begun.counted_floor::<C, DIRECTED>()
    }
}

impl<C: Charge, const DIRECTED: bool> SettingBound<C> for Counted<DIRECTED> {
    ghost answer = { λ _ m sheet p j k. C.Charge.made (floor_over C.Charge.kind m sheet (only m j k) (counted C.Charge.kind m sheet DIRECTED p) p) };

    ghost lawful_with = { λ b m sheet p s j k begins starts fine is.
        let K = C.Charge.kind in
        standing K C.Charge.means C.Charge.made C.Charge.stands
        (counted_with_sound K C.Charge.lawful m sheet p s begins.within starts fine DIRECTED j k is) };

    fn answer_of(
        &self,
        modules: &Modules,
        sheet: &[u16],
        path: [u8; 20],
        len: usize,
        j: usize,
        k: u8,
        scratch: &mut [C],
    ) -> C {
        let _ = self.prepare(modules, sheet, path, len, scratch);
        prepared_answer(modules, len, j, k, scratch)
    }

    fn prepare(
        &self,
        modules: &Modules,
        sheet: &[u16],
        path: [u8; 20],
        len: usize,
        scratch: &mut [C],
    ) -> C {
        let begun = &Begun {
            modules,
            sheet,
            path: &path,
            len,
        };
        prepare_counted::<C, DIRECTED>(begun, scratch)
    }
}
