// The calls that a line of a script can say.
ghost use Rattle.calls.specs.Calls.{allowed, has, setting, setting_one};
ghost use Rattle.std.specs.Prelude.{◌≡◌};

use told::figure::Figure;

/// The kind of charge that a setup is opened with.
#[derive(Debug, Clone, Copy, PartialEq)]
pub enum KindName {
    Count,
    Sum,
    Worst,
    Ranked,
}

/// Which walks a setup is opened with.
#[derive(Debug, Clone, Copy, PartialEq)]
pub enum Walks {
    Plain,
    Both,
}

impl Walks {
    /// Whether a bound may stand with the walks.
    pub fn allow(self, bound: BoundName) -> bool
        ensures { result ≡ allowed self bound }
    {
        match self {
            Walks::Plain => true,
            Walks::Both => bound.is_setting(),
        }
    }
}

/// A bound that one word names.
#[derive(Debug, Clone, Copy, PartialEq)]
pub enum SimpleBound {
    Past,
    Forward,
    Directed,
}

impl SimpleBound {
    /// Whether the bound is a setting bound.
    pub fn is_setting(self) -> bool
        ensures { result ≡ setting_one self }
    {
        !matches!(self, SimpleBound::Past)
    }
}

/// One bound, or the higher of two.
#[derive(Debug, Clone, Copy, PartialEq)]
pub enum BoundName {
    One(SimpleBound),
    Higher(SimpleBound, SimpleBound),
}

impl BoundName {
    /// Whether the bound is a setting bound: the higher of two is one if both are.
    pub fn is_setting(self) -> bool
        ensures { result ≡ setting self }
    {
        match self {
            BoundName::One(a) => a.is_setting(),
            BoundName::Higher(a, b) => a.is_setting() && b.is_setting(),
        }
    }
}

/// A call, with its arguments. A row and a path have twenty bytes: the settings that were written, and then zeros.
/// The `len` of a path is how many were written. A ceiling has as many numbers as were written; whether it is a charge of the
/// job's kind is for the job to say. A walk is named by the job's number where no ticket was written.
// Stays: a row is twenty bytes, and a path these and a length, since no call has a heap and a job is handed them as they are.
#[derive(Debug, Clone, Copy, PartialEq)]
pub enum Call {
    Open {
        number: u32,
        kind: KindName,
        walks: Walks,
        bound: BoundName,
    },
    Add {
        settings: u8,
    },
    Charge {
        i: u8,
        k: u8,
        j: u8,
        l: u8,
        clash: u16,
    },
    Narrow {
        i: u8,
        mask: u8,
    },
    Weigh {
        row: [u8; 20],
    },
    WhatIf {
        i: u8,
        k: u8,
        row: [u8; 20],
    },
    Floor {
        path: [u8; 20],
        len: u8,
    },
    FloorWith {
        j: u8,
        k: u8,
        path: [u8; 20],
        len: u8,
    },
    Start {
        ceiling: Figure,
    },
    Ahead {
        ceiling: Figure,
    },
    Sit {
        steps: u32,
        ticket: Option<u32>,
    },
    Close {
        ticket: Option<u32>,
    },
}

/// Which calls a script can say: those that build and weigh, or these and those of walking.
#[derive(Clone, Copy)]
pub enum Vocabulary {
    Building,
    Walking,
}

impl Vocabulary {
    /// Whether the vocabulary has a call: start, ahead, sit and close are calls of the walking vocabulary alone.
    pub fn has(self, call: Call) -> bool
        ensures { result ≡ has self call }
    {
        match self {
            Vocabulary::Building => !matches!(
                call,
                Call::Start { .. } | Call::Ahead { .. } | Call::Sit { .. } | Call::Close { .. }
            ),
            Vocabulary::Walking => true,
        }
    }
}
