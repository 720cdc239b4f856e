// Starting a walk.
ghost use Rattle.std.specs.Prelude.{◌≡◌, ℕ, ◌<◌, ◌≤◌, List, slice_index};
ghost use Rattle.walks.specs.States.{problem, state_of};
ghost use Rattle.tables.specs.Modules.{mask_of};
ghost use Rattle.theory.specs.Machine.{Walk, start};

use crate::state::Search;
use crate::trail::Trail;
use charges::Charge;
use std::array;
use tables::modules::Modules;

// The masks of the modules.
fn masks(modules: &Modules) -> [u8; 20]
    ensures { (j : ℕ) → j < modules.now.count → slice_index result j ≡ mask_of modules.now j }
{
    array::from_fn(|j| modules.mask(j))
}

impl<C: Charge> Search<C> {
    /// A walk of the setups of these modules, that has yet to make its first step.
    pub fn start(modules: &Modules, ahead: bool, ceiling: C) -> Search<C>
        requires { 1 ≤ modules.now.count }
        ensures modules { result.modules ≡ modules.now }
        ensures ahead { result.ahead ≡ ahead }
        ensures ceiling { result.ceiling ≡ ceiling }
        ensures starts { (sheet : List ℕ) (W : Walk C.Charge.kind.V) → state_of C.Charge.kind C.Charge.means result ≡ start (problem C.Charge.kind modules.now sheet (C.Charge.means ceiling)) W }
    {
        let mut trail = Trail {
            path: [0; 20],
            len: 0,
            live: [[0; 20]; 20],
        };
        trail.down(masks(modules));
        Search {
            modules: *modules,
            ahead,
            ceiling,
            trail,
            best: None,
            steps: 0,
        }
    }
}
