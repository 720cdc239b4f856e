// A job.
use tables::modules::Modules;
use walks::state::Search;

/// A job: its number, its modules, the walks it is opened for, and the walk that is open, if one is. `C` is the kind of
/// its charges.
#[derive(Drop)]
pub struct Job<C, W> {
    pub(crate) number: u32,
    pub(crate) modules: Modules,
    pub(crate) walks: W,
    pub(crate) current: Option<Search<C>>,
}
