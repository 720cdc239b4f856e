// One step of a walk.
ghost use Rattle.std.specs.Prelude.{◌≡◌, ◌+◌, ◌<◌, ◌≤◌};
ghost use Rattle.walks.specs.States.{problem, state_of, SameWalk, OnlyMoved, Advances};
ghost use Rattle.walks.specs.Opening.{Enough};
ghost use Rattle.walks.specs.Trails.{GoesOn, GoesDown, Live};
ghost use Rattle.tables.specs.Sheet.{Whole};
ghost use Rattle.theory.specs.Machine.{Walk, step};

use crate::state::{Best, Search};
use crate::ways::Walk;
use charges::Charge;
use tables::weighing::weigh;

impl<C: Charge> Search<C> {
    // On to the next beginning.
    fn go_on(&mut self)
        requires { 1 ≤ self.old.trail.len }
        ensures moved { OnlyMoved self.old self.new }
        ensures goes_on { GoesOn self.old.trail self.new.trail }
    {
        self.trail.next();
        self.steps += 1;
    }

    // Down to the first setting of the next module that `row` has live.
    fn go_down(&mut self, row: [u8; 20])
        requires within { (1 ≤ self.old.trail.len) × (self.old.trail.len < self.old.modules.count) }
        requires live { Live self.old.modules row self.old.trail.len }
        ensures moved { OnlyMoved self.old self.new }
        ensures goes_down { GoesDown self.old.trail row self.new.trail }
    {
        self.trail.down(row);
        self.steps += 1;
    }

    // Weighs the setup that is next.
    pub(crate) fn weigh_setup(&mut self, sheet: &[u16])
        requires { (Whole sheet.now) × ((1 ≤ self.old.trail.len) × (self.old.trail.len ≡ self.old.modules.count)) }
        ensures same { SameWalk self.old self.new }
        ensures steps { self.new.steps ≡ self.old.steps + 1 }
        ensures weighed { (W : Walk C.Charge.kind.V) → state_of C.Charge.kind C.Charge.means self.new
            ≡ step (problem C.Charge.kind self.old.modules sheet.now (C.Charge.means self.old.ceiling)) W (state_of C.Charge.kind C.Charge.means self.old) }
    {
        let charge = weigh(sheet, &self.trail.path, self.trail.len);
        if !self.limit().is_at_most(charge) {
            let setup = self.trail.path;
            self.best = Some(Best { setup, charge });
        }
        self.go_on();
    }

    // Looks at the beginning that is next and is no setup yet.
    pub(crate) fn look<W: Walk<C>>(&mut self, walks: &W, sheet: &[u16], scratch: &mut [C])
        requires memory { Enough sheet.now scratch.old }
        requires within { (1 ≤ self.old.trail.len) × (self.old.trail.len < self.old.modules.count) }
        ensures same { SameWalk self.old self.new }
        ensures steps { self.new.steps ≡ self.old.steps + 1 }
        ensures looked { Advances C.Charge.kind C.Charge.means (W.Walk.floor walks.now) (W.Walk.answer walks.now) sheet.now 1 self.old self.new }
    {
        let row = self.trail.live[self.trail.len - 1];
        match walks.opened(
            &self.modules,
            sheet,
            self.trail.path,
            self.trail.len,
            self.ahead,
            self.limit(),
            row,
            scratch,
        ) {
            Some(left) => self.go_down(left),
            None => self.go_on(),
        }
    }
}
