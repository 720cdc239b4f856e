// Sitting: some steps of a walk.
ghost use Rattle.std.specs.Prelude.{◌≡◌, ◌+◌, ◌≤◌};
ghost use Rattle.walks.specs.Opening.{Enough};
ghost use Rattle.walks.specs.Outcomes.{finished};
ghost use Rattle.walks.specs.States.{state_of, SameWalk, Advances};

use crate::state::Search;
use crate::ways::Walk;
use charges::Charge;

impl<C: Charge> Search<C> {
    /// Whether no beginning is left.
    pub fn is_finished(&self) -> bool
        ensures { result ≡ finished (state_of C.Charge.kind C.Charge.means self.now) }
    {
        self.trail.len == 0
    }

    // Looks at the next beginning.
    fn step<W: Walk<C>>(&mut self, walks: &W, sheet: &[u16], scratch: &mut [C])
        requires memory { Enough sheet.now scratch.old }
        requires left { 1 ≤ self.old.trail.len }
        ensures same { SameWalk self.old self.new }
        ensures steps { self.new.steps ≡ self.old.steps + 1 }
        ensures stepped { Advances C.Charge.kind C.Charge.means (W.Walk.floor walks.now) (W.Walk.answer walks.now) sheet.now 1 self.old self.new }
    {
        if self.trail.len == self.modules.count() {
            self.weigh_setup(sheet);
        } else {
            self.look(walks, sheet, scratch);
        }
    }

    /// Makes so many steps, or all that are left, and tells how many.
    pub fn sit<W: Walk<C>>(
        &mut self,
        walks: &W,
        sheet: &[u16],
        steps: u32,
        scratch: &mut [C],
    ) -> u32
        requires { Enough sheet.now scratch.old }
        ensures same { SameWalk self.old self.new }
        ensures made { self.new.steps ≡ self.old.steps + result }
        ensures stepped { Advances C.Charge.kind C.Charge.means (W.Walk.floor walks.now) (W.Walk.answer walks.now) sheet.now steps self.old self.new }
    {
        for made in 0..steps {
            if self.is_finished() {
                return made;
            }
            self.step(walks, sheet, scratch);
        }
        steps
    }
}
