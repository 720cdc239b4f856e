// A job as a script opens it: of a kind, for walks, with a bound.
use bound_names::names::{Named, SettingName};
use charges::{Count, Ranked, Sum, Worst};
use desks::desk::Desk;
use walks::ways::{Both, Plain};

/// A job that charges by `C`, for either choice of walks, at its desk. It may be let go while no walk is open.
#[derive(Drop)]
pub enum Opened<C> {
    ForPlain(Desk<C, Plain<Named>>),
    ForBoth(Desk<C, Both<SettingName>>),
}

/// A job of any kind.
#[derive(Drop)]
pub enum AnyJob {
    ByCount(Opened<Count>),
    BySum(Opened<Sum>),
    ByWorst(Opened<Worst>),
    ByRank(Opened<Ranked>),
}
