// Opening a job.
ghost use Rattle.std.specs.Prelude.{◌≡◌, None};

use crate::job::Job;
use bounds::bound::Bound;
use bounds::setting::SettingBound;
use charges::Charge;
use tables::modules::Modules;
use walks::ways::{Both, Plain};

fn fresh<C, W>(number: u32, walks: W) -> Job<C, W>
    ensures number { result.number ≡ number }
    ensures modules { result.modules.count ≡ 0 }
    ensures walks { result.walks ≡ walks }
    ensures current { result.current ≡ None }
{
    Job {
        number,
        modules: Modules::none(),
        walks,
        current: None,
    }
}

// Stays: each of the two opens another kind of job over another kind of bound, and is one expression.
impl<C: Charge, B: Bound<C>> Job<C, Plain<B>> {
    /// A job without modules, for plain walks alone, with any bound.
    pub fn open_plain(number: u32, bound: B) -> Job<C, Plain<B>>
        ensures number { result.number ≡ number }
        ensures modules { result.modules.count ≡ 0 }
        ensures bound { result.walks.bound ≡ bound }
        ensures current { result.current ≡ None }
    {
        fresh(number, Plain { bound })
    }
}

impl<C: Charge, B: SettingBound<C>> Job<C, Both<B>> {
    /// A job without modules, for plain walks and walks that look ahead, with a setting bound.
    pub fn open_both(number: u32, bound: B) -> Job<C, Both<B>>
        ensures number { result.number ≡ number }
        ensures modules { result.modules.count ≡ 0 }
        ensures bound { result.walks.bound ≡ bound }
        ensures current { result.current ≡ None }
    {
        fresh(number, Both { bound })
    }
}
