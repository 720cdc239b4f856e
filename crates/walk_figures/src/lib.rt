// Worked figures of walks by count, proved of the definitions: each function's contract is a figure, and it answers that figure.
// Each answers a setup, its charge and a number of steps.
#![tactic(auto)]

ghost use Rattle.std.specs.Prelude.{true, false};
ghost use Rattle.std.proofs.Math.Option.{some, none};
ghost use Rattle.walk_figures.specs.Jobs.{two_modules, three_modules};
ghost use Rattle.walk_figures.specs.Walked.{past, forward, directed, Ends, GoesOn};

/// Two modules: a walk that does not look ahead finds setup (1, 0) of charge 0 in 6 steps, by each of the bounds.
pub fn two_modules_end_at_1_0_in_6_steps() -> ([u8; 2], u16, u64)
    ensures by_past { Ends two_modules past 65535 false (some result.0) result.1 result.2 }
    ensures by_forward { Ends two_modules forward 65535 false (some result.0) result.1 result.2 }
    ensures by_directed { Ends two_modules directed 65535 false (some result.0) result.1 result.2 }
{
    ([1, 0], 0, 6)
}

/// The same walk looking ahead, by the directed bound: one step less.
pub fn looking_ahead_takes_5_steps() -> ([u8; 2], u16, u64)
    ensures { Ends two_modules directed 65535 true (some result.0) result.1 result.2 }
{
    ([1, 0], 0, 5)
}

/// Below a ceiling of 1 the forward bound closes setting 0 of the first module at once, and the past bound does not: 4 steps and 6.
pub fn below_1_forward_takes_4_and_past_6_steps() -> ([u8; 2], u16, u64, u64)
    ensures by_forward { Ends two_modules forward 1 false (some result.0) result.1 result.2 }
    ensures by_past { Ends two_modules past 1 false (some result.0) result.1 result.3 }
{
    ([1, 0], 0, 4, 6)
}

/// Below a ceiling of 0 there is none: the limit stays 0, and each setting of the first module takes a step.
pub fn none_is_below_0_in_2_steps() -> (u16, u64)
    ensures by_past { Ends two_modules past 0 false none result.0 result.1 }
    ensures by_forward { Ends two_modules forward 0 false none result.0 result.1 }
    ensures by_directed { Ends two_modules directed 0 false none result.0 result.1 }
{
    (0, 2)
}

/// After 4 of its 6 steps the walk by the forward bound goes on, with setup (0, 0) of charge 1 so far.
pub fn after_4_steps_the_best_is_0_0() -> ([u8; 2], u16, u64)
    ensures { GoesOn two_modules forward 65535 false (some result.0) result.1 result.2 }
{
    ([0, 0], 1, 4)
}

/// Three modules of one setting each, looking ahead below a ceiling of 2: the one setup has charge 1.
pub fn three_modules_end_in_3_steps() -> ([u8; 3], u16, u64)
    ensures { Ends three_modules directed 2 true (some result.0) result.1 result.2 }
{
    ([0, 0, 0], 1, 3)
}
