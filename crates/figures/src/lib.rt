// Worked figures, proved of the definitions: each function's contract is a figure, and it answers that figure.
#![tactic(auto)]

ghost use Rattle.std.specs.Prelude.{◌≡◌};
ghost use Rattle.charges.specs.Capped.{capped};
ghost use Rattle.charges.specs.Count.{counts};
ghost use Rattle.charges.specs.Ranked.{rank, ranks, top};
ghost use Rattle.charges.specs.Sum.{sums};
ghost use Rattle.charges.specs.Worst.{worsts};
ghost use Rattle.figures.specs.TwoModules.{charged};

use charges::{Charge, Count, Ranked, Sum, Worst};

/// Both modules at setting 0: one clash.
pub fn first_setup_counts_one() -> Count
    ensures { charged counts 0 0 ≡ capped 65535 result.number }
{
    Count { number: 1 }
}

/// Both modules at setting 0: a sum of 50.
pub fn first_setup_sums_to_50() -> Sum
    ensures { charged sums 0 0 ≡ capped 4294967295 result.number }
{
    Sum { number: 50 }
}

/// Both modules at setting 0: 50 at worst.
pub fn first_setup_is_50_at_worst() -> Worst
    ensures { charged worsts 0 0 ≡ capped 65535 result.number }
{
    Worst { number: 50 }
}

/// Both modules at setting 0: no forbidden pair, and a soft sum of 50.
pub fn first_setup_ranks_0_50() -> (u16, u32)
    ensures { charged ranks 0 0 ≡ rank result.0 result.1 }
{
    (0, 50)
}

/// 65,534 forbidden pairs and a soft sum of 5, joined with one forbidden pair more, is the top.
pub fn one_more_forbidden_pair_is_the_top() -> Ranked
    ensures defined { ranks.join (rank 65534 5) (rank 1 0) ≡ top }
    ensures value { rank result.forbidden result.soft ≡ top }
{
    Ranked::new(65534, 5).joined(Ranked::new(1, 0))
}
