// A walk.
ghost use Rattle.std.specs.Prelude.{◌<◌, ◌≤◌};
ghost use Rattle.walks.specs.Trails.{AmongLive, place};

use crate::trail::Trail;
use charges::Charge;
use tables::modules::Modules;

// The best setup of a walk so far, and its charge.
#[derive(Clone, Copy)]
pub(crate) struct Best<C> {
    pub(crate) setup: [u8; 20],
    pub(crate) charge: C,
}

/// A walk under way or finished: on which modules, looking ahead or not, below which ceiling; where it stands; the best
/// setup so far; and how many steps it made.
#[derive(Drop)]
pub struct Search<C> {
    pub(crate) modules: Modules,
    pub(crate) ahead: bool,
    pub(crate) ceiling: C,
    pub(crate) trail: Trail,
    pub(crate) best: Option<Best<C>>,
    pub(crate) steps: u64,
    ghost among: { AmongLive modules trail },
    ghost counted: { steps < place trail.path trail.len },
}

impl<C: Charge> Search<C> {
    ghost use Rattle.std.specs.Prelude.{◌≡◌};
    ghost use Rattle.walks.specs.States.{limit_of};

    // What the next setup is to be below: the charge of the best one so far, or else the ceiling.
    pub(crate) fn limit(&self) -> C
        ensures { result ≡ limit_of self.now }
    {
        self.best.map_or(self.ceiling, |best| best.charge)
    }
}
