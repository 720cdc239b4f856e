// What a setting bound is.
ghost use Rattle.std.specs.Prelude.{◌≡◌, ◌≤◌, ℕ, true, cond, ◌&&◌, List, length, take, slice_index};
ghost use Rattle.bounds.specs.Answers.{Rows};
ghost use Rattle.bounds.specs.Beginnings.{Beginning, Setup, Starts, answerable, later_setting};
ghost use Rattle.charges.specs.Kinds.{AtMost};
ghost use Rattle.tables.specs.Modules.{allows};
ghost use Rattle.tables.specs.Setups.{charge_of};
ghost use Rattle.tables.specs.declared.modules.Modules.{Modules};

use crate::asking::{SCRATCH, can_answer, is_later_setting};
use crate::bound::Bound;
use crate::rows::answer_place;
use charges::Charge;
use tables::modules::Modules;

/// A setting bound: a bound that also answers for one setting of one later module. That answer is at most the charge of
/// every allowed setup that starts with the beginning and has the setting there.
pub trait SettingBound<C: Charge>: Bound<C> {
    // the answer for setting k of the later module j
    ghost answer: { Self → Modules → List ℕ → List ℕ → ℕ → ℕ → C };

    // Stays: each bound that prepares its answers writes the same two calls here; a function of both would lead back to its impl.
    /// The answer for setting `k` of the later module `j`. A bound that has all answers at once gives it by `prepare` and
    /// `prepared_answer`.
    fn answer_of(
        &self,
        modules: &Modules,
        sheet: &[u16],
        path: [u8; 20],
        len: usize,
        j: usize,
        k: u8,
        scratch: &mut [C],
    ) -> C
        requires begun { answerable modules.now sheet.now path len (length scratch.old) ≡ true }
        requires later { later_setting modules.now len j k ≡ true }
        ensures { C.Charge.means result ≡ C.Charge.means (answer self.now modules.now sheet.now (take len path) j k) };

    /// Writes the answer for each allowed setting `k` of each later module `j` to `8j + k` of the scratch, and gives the
    /// floor. A bound that has all answers at once writes its own; kept, this one asks `answer_of` for each.
    fn prepare(
        &self,
        modules: &Modules,
        sheet: &[u16],
        path: [u8; 20],
        len: usize,
        scratch: &mut [C],
    ) -> C
        requires { answerable modules.now sheet.now path len (length scratch.old) ≡ true }
        ensures answers { Rows C.Charge.means (allows modules.now) (λ j k. C.Charge.means (answer self.now modules.now sheet.now (take len path) j k)) len modules.now.count scratch.new }
        ensures value { C.Charge.means result ≡ C.Charge.means (Self.Bound.floor self.now modules.now sheet.now (take len path)) }
    {
        let floor = self.floor_of(modules, sheet, path, len, scratch);
        let room: &mut [C] = &mut [C::zero(); SCRATCH];
        // Stays: not `change_rows`, whose closure cannot lend the room, nor show that a room of its own fits in memory.
        for j in len..modules.count() {
            for k in 0..8 {
                if modules.allows(j, k) {
                    let at = answer_place(j, k);
                    scratch[at] = self.answer_of(modules, sheet, path, len, j, k, room);
                }
            }
        }
        floor
    }

    /// The answer for every input: zero where `floor_at` answers zero for want of a beginning or of memory, where `j` is no
    /// later module, and where `k` is not allowed there.
    fn floor_with(
        &self,
        modules: &Modules,
        sheet: &[u16],
        path: [u8; 20],
        len: usize,
        j: usize,
        k: u8,
        scratch: &mut [C],
    ) -> C
        ensures { C.Charge.means result ≡ cond (answerable modules.now sheet.now path len (length scratch.old) && later_setting modules.now len j k)
            (C.Charge.means (answer self.now modules.now sheet.now (take len path) j k))
            C.Charge.kind.zero }
    {
        if can_answer(modules, sheet, path, len, scratch.len())
            && is_later_setting(modules, len, j, k)
        {
            self.answer_of(modules, sheet, path, len, j, k, scratch)
        } else {
            C::zero()
        }
    }

    ghost lawful_with: { (b : Self) (m : Modules) (sheet p s : List ℕ) (j k : ℕ) → Beginning m p → Starts p s → Setup m s → slice_index s j ≡ k → AtMost C.Charge.kind (C.Charge.means (answer b m sheet p j k)) (charge_of C.Charge.kind sheet s m.count) };
}

/// The answer for setting `k` of the later module `j` in a scratch that was prepared.
pub fn prepared_answer<C: Charge>(
    modules: &Modules,
    len: usize,
    j: usize,
    k: u8,
    scratch: &[C],
) -> C
    requires roomy { 192 ≤ length scratch.now }
    requires later { later_setting modules.now len j k ≡ true }
    ensures { (value : ℕ → ℕ → C.Charge.kind.V) → Rows C.Charge.means (allows modules.now) value len modules.now.count scratch.now → C.Charge.means result ≡ value j k }
{
    scratch[answer_place(j, k)]
}
