// What a walk of a job finds, stated of every kind of charge and proved.
#![tactic(auto)]

ghost use Rattle.finding.specs.Findings.{SetupsFit, FindsAtEnd, FindsSoFar, Ends, Agree};

use charges::Charge;

/// The allowed setups are what fits the domains that a walk goes through.
pub fn allowed_setups_fit_the_domains() -> u8
    ensures { SetupsFit }
{
    0
}

/// What a finished walk has found, and in how many steps.
pub fn finished_walk_has_the_first_cheapest<C: Charge>() -> u8
    ensures { FindsAtEnd C.Charge.kind }
{
    0
}

/// What a walk on its way has found, and in how many steps.
pub fn walk_on_its_way_has_the_first_cheapest_so_far<C: Charge>() -> u8
    ensures { FindsSoFar C.Charge.kind }
{
    0
}

/// A walk ends.
pub fn walk_ends<C: Charge>() -> u8
    ensures { Ends C.Charge.kind }
{
    0
}

/// Finished walks of jobs that are alike agree.
pub fn finished_walks_agree<C: Charge>() -> u8
    ensures { Agree C.Charge.kind }
{
    0
}
