// How a walk ended.

/// How a walk ended.
#[derive(Clone, Copy, Debug, PartialEq, Eq)]
pub enum Outcome {
    /// Unfinished, without a setup: the charge is the ceiling, and the row is unchanged.
    Unfinished = 0,
    /// Unfinished, with the best setup so far and its charge.
    UnfinishedWithSetup = 1,
    /// Finished, with a setup and its charge.
    Finished = 2,
    /// Finished, and no setup is below the ceiling: the charge is the ceiling, and the row is unchanged.
    NoneBelow = 3,
}

/// What a close tells.
#[derive(Clone, Copy)]
pub struct Closed<C> {
    pub outcome: Outcome,
    pub charge: C,
    pub steps: u64,
}
