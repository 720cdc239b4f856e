// What a bound is.
ghost use Rattle.std.specs.Prelude.{◌≡◌, ℕ, true, cond, List, length, take};
ghost use Rattle.bounds.specs.Beginnings.{Beginning, Setup, Starts, answerable};
ghost use Rattle.charges.specs.Kinds.{AtMost};
ghost use Rattle.tables.specs.Setups.{charge_of};
ghost use Rattle.tables.specs.declared.modules.Modules.{Modules};

use crate::asking::can_answer;
use charges::Charge;
use tables::modules::Modules;

/// A lawful bound: one charge, the floor, for each beginning of each job. It depends on the modules with their masks, the
/// sheet and the beginning alone, and is at most the charge of every allowed setup that starts with the beginning.
pub trait Bound<C: Charge>: Drop {
    // the floor at a beginning
    ghost floor: { Self → Modules → List ℕ → List ℕ → C };

    // Stays: a beginning is handed to each method whole, as twenty bytes and a length, and the sheet and the scratch are lent.
    /// The floor at the beginning in the first `len` bytes of `path`. A bound of your own gives this one; what it leaves in
    /// the scratch is free.
    fn floor_of(
        &self,
        modules: &Modules,
        sheet: &[u16],
        path: [u8; 20],
        len: usize,
        scratch: &mut [C],
    ) -> C
        requires { answerable modules.now sheet.now path len (length scratch.old) ≡ true }
        ensures { C.Charge.means result ≡ C.Charge.means (floor self.now modules.now sheet.now (take len path)) };

    /// The same for every path and length: zero where they are no beginning of the job, the sheet has fewer than 12,160
    /// entries, or the scratch fewer than 192 charges.
    fn floor_at(
        &self,
        modules: &Modules,
        sheet: &[u16],
        path: [u8; 20],
        len: usize,
        scratch: &mut [C],
    ) -> C
        ensures { C.Charge.means result ≡ cond (answerable modules.now sheet.now path len (length scratch.old))
            (C.Charge.means (floor self.now modules.now sheet.now (take len path)))
            C.Charge.kind.zero }
    {
        if can_answer(modules, sheet, path, len, scratch.len()) {
            self.floor_of(modules, sheet, path, len, scratch)
        } else {
            C::zero()
        }
    }

    ghost lawful: { (b : Self) (m : Modules) (sheet p s : List ℕ) → Beginning m p → Starts p s → Setup m s → AtMost C.Charge.kind (C.Charge.means (floor b m sheet p)) (charge_of C.Charge.kind sheet s m.count) };
}
