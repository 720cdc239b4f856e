// Bounds by their names.
ghost use Rattle.bound_names.specs.Bounds.{simple_floor, named_floor, simple_with, named_with, simple_of, bound_of};
ghost use Rattle.calls.specs.Calls.{setting_one, setting};
ghost use Rattle.std.specs.Prelude.{◌≡◌, true, false, MatchOption};
ghost use Rattle.bounds.proofs.Standing.{standing};
ghost use Rattle.bound_names.specs.Laws.{simple_lawful, named_lawful, simple_with_lawful, named_with_lawful};

use bounds::bound::Bound;
use bounds::setting::{SettingBound, prepared_answer};
use calls::call::{BoundName, SimpleBound};
use charges::Charge;
use floors::{Directed, Forward, Past};
use higher::Higher;
use tables::modules::Modules;

// Stays: types of their own beside SimpleBound and BoundName, so that no setting bound is made of the past bound.
/// A setting bound that one word names.
#[derive(Clone, Copy)]
pub enum SettingOne {
    ByForward,
    ByDirected,
}

/// A setting bound, or the higher of two.
#[derive(Clone, Copy)]
pub enum SettingName {
    Single(SettingOne),
    Pair(SettingOne, SettingOne),
}

impl SettingOne {
    // The bound of that name.
    fn bound(self) -> SimpleBound
        ensures { result ≡ simple_of self }
    {
        match self {
            SettingOne::ByForward => SimpleBound::Forward,
            SettingOne::ByDirected => SimpleBound::Directed,
        }
    }
}

impl SettingName {
    // The bound of that name.
    fn bound(self) -> BoundName
        ensures { result ≡ bound_of self }
    {
        match self {
            SettingName::Single(a) => BoundName::One(a.bound()),
            SettingName::Pair(a, b) => BoundName::Higher(a.bound(), b.bound()),
        }
    }
}

fn setting_one(bound: SimpleBound) -> Option<SettingOne>
    ensures { MatchOption result (setting_one bound ≡ false) (λ s. (simple_of s ≡ bound) × (setting_one bound ≡ true)) }
{
    match bound {
        SimpleBound::Past => None,
        SimpleBound::Forward => Some(SettingOne::ByForward),
        SimpleBound::Directed => Some(SettingOne::ByDirected),
    }
}

/// The setting bound of that name, if it is one.
pub fn setting_name(bound: BoundName) -> Option<SettingName>
    ensures { MatchOption result (setting bound ≡ false) (λ s. (bound_of s ≡ bound) × (setting bound ≡ true)) }
{
    match bound {
        BoundName::One(a) => Some(SettingName::Single(setting_one(a)?)),
        BoundName::Higher(a, b) => Some(SettingName::Pair(setting_one(a)?, setting_one(b)?)),
    }
}

/// A bound that one word names.
#[derive(Clone, Copy)]
pub struct Simple {
    pub bound: SimpleBound,
}

/// The bound of a name.
#[derive(Clone, Copy)]
pub struct Named {
    pub bound: BoundName,
}

// Stays: a match on the name, which says plainly which bound it is.
impl<C: Charge> Bound<C> for Simple {
    ghost floor = { λ b m sheet p. C.Charge.made (simple_floor C.Charge.kind b.bound m sheet p) };

    ghost lawful = { λ b m sheet p s begins starts fine.
        let K = C.Charge.kind in
        standing K C.Charge.means C.Charge.made C.Charge.stands
        (simple_lawful K C.Charge.lawful m sheet p s begins.within starts fine b.bound) };

    fn floor_of(
        &self,
        modules: &Modules,
        sheet: &[u16],
        path: [u8; 20],
        len: usize,
        scratch: &mut [C],
    ) -> C {
        match self.bound {
            SimpleBound::Past => Past {}.floor_of(modules, sheet, path, len, scratch),
            SimpleBound::Forward => Forward {}.floor_of(modules, sheet, path, len, scratch),
            SimpleBound::Directed => Directed {}.floor_of(modules, sheet, path, len, scratch),
        }
    }
}

impl<C: Charge> Bound<C> for Named {
    ghost floor = { λ b m sheet p. C.Charge.made (named_floor C.Charge.kind b.bound m sheet p) };

    ghost lawful = { λ b m sheet p s begins starts fine.
        let K = C.Charge.kind in
        standing K C.Charge.means C.Charge.made C.Charge.stands
        (named_lawful K C.Charge.lawful m sheet p s begins.within starts fine b.bound) };

    fn floor_of(
        &self,
        modules: &Modules,
        sheet: &[u16],
        path: [u8; 20],
        len: usize,
        scratch: &mut [C],
    ) -> C {
        match self.bound {
            BoundName::One(a) => Simple { bound: a }.floor_of(modules, sheet, path, len, scratch),
            BoundName::Higher(a, b) => {
                let pair = Higher {
                    first: Simple { bound: a },
                    second: Simple { bound: b },
                };
                pair.floor_of(modules, sheet, path, len, scratch)
            }
        }
    }
}

impl<C: Charge> Bound<C> for SettingOne {
    ghost floor = { λ b m sheet p. C.Charge.made (simple_floor C.Charge.kind (simple_of b) m sheet p) };

    ghost lawful = { λ b m sheet p s begins starts fine.
        let K = C.Charge.kind in
        standing K C.Charge.means C.Charge.made C.Charge.stands
        (simple_lawful K C.Charge.lawful m sheet p s begins.within starts fine (simple_of b)) };

    fn floor_of(
        &self,
        modules: &Modules,
        sheet: &[u16],
        path: [u8; 20],
        len: usize,
        scratch: &mut [C],
    ) -> C {
        let bound = self.bound();
        Simple { bound }.floor_of(modules, sheet, path, len, scratch)
    }
}

impl<C: Charge> SettingBound<C> for SettingOne {
    ghost answer = { λ b m sheet p j k. C.Charge.made (simple_with C.Charge.kind b m sheet p j k) };

    ghost lawful_with = { λ b m sheet p s j k begins starts fine is.
        let K = C.Charge.kind in
        standing K C.Charge.means C.Charge.made C.Charge.stands
        (simple_with_lawful K C.Charge.lawful m sheet p s begins.within starts fine j k is b) };

    fn answer_of(
        &self,
        modules: &Modules,
        sheet: &[u16],
        path: [u8; 20],
        len: usize,
        j: usize,
        k: u8,
        scratch: &mut [C],
    ) -> C {
        let _ = self.prepare(modules, sheet, path, len, scratch);
        prepared_answer(modules, len, j, k, scratch)
    }

    fn prepare(
        &self,
        modules: &Modules,
        sheet: &[u16],
        path: [u8; 20],
        len: usize,
        scratch: &mut [C],
    ) -> C {
        match *self {
            SettingOne::ByForward => Forward {}.prepare(modules, sheet, path, len, scratch),
            SettingOne::ByDirected => Directed {}.prepare(modules, sheet, path, len, scratch),
        }
    }
}

impl<C: Charge> Bound<C> for SettingName {
    ghost floor = { λ b m sheet p. C.Charge.made (named_floor C.Charge.kind (bound_of b) m sheet p) };

    ghost lawful = { λ b m sheet p s begins starts fine.
        let K = C.Charge.kind in
        standing K C.Charge.means C.Charge.made C.Charge.stands
        (named_lawful K C.Charge.lawful m sheet p s begins.within starts fine (bound_of b)) };

    fn floor_of(
        &self,
        modules: &Modules,
        sheet: &[u16],
        path: [u8; 20],
        len: usize,
        scratch: &mut [C],
    ) -> C {
        let bound = self.bound();
        Named { bound }.floor_of(modules, sheet, path, len, scratch)
    }
}

impl<C: Charge> SettingBound<C> for SettingName {
    ghost answer = { λ b m sheet p j k. C.Charge.made (named_with C.Charge.kind b m sheet p j k) };

    ghost lawful_with = { λ b m sheet p s j k begins starts fine is.
        let K = C.Charge.kind in
        standing K C.Charge.means C.Charge.made C.Charge.stands
        (named_with_lawful K C.Charge.lawful m sheet p s begins.within starts fine j k is b) };

    fn answer_of(
        &self,
        modules: &Modules,
        sheet: &[u16],
        path: [u8; 20],
        len: usize,
        j: usize,
        k: u8,
        scratch: &mut [C],
    ) -> C {
        let _ = self.prepare(modules, sheet, path, len, scratch);
        prepared_answer(modules, len, j, k, scratch)
    }

    fn prepare(
        &self,
        modules: &Modules,
        sheet: &[u16],
        path: [u8; 20],
        len: usize,
        scratch: &mut [C],
    ) -> C {
        match *self {
            SettingName::Single(a) => a.prepare(modules, sheet, path, len, scratch),
            SettingName::Pair(first, second) => Higher { first, second }.prepare(
                modules, sheet, path, len, scratch,
            ),
        }
    }
}
