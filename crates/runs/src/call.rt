// The calls that a setter may make, as data.

/// A row: so many bytes of the setter's memory, from a place on, or as many as are there.
#[derive(Clone, Copy)]
pub struct Row {
    pub from: usize,
    pub len: usize,
}

/// A call on a job of either kind, with any arguments, any ticket by its number, any row, and scratch for any number of
/// charges.
#[derive(Clone, Copy)]
pub enum Call<C> {
    Add {
        settings: u8,
    },
    Charge {
        i: u8,
        k: u8,
        j: u8,
        l: u8,
        clash: u16,
    },
    Narrow {
        i: u8,
        mask: u8,
    },
    Start {
        ceiling: C,
    },
    Sit {
        ticket: u32,
        steps: u32,
        room: usize,
    },
    Weigh {
        row: Row,
    },
    WhatIf {
        row: Row,
        i: u8,
        k: u8,
    },
    Close {
        ticket: u32,
        row: Row,
    },
}

/// A call on a job that was opened for both walks.
#[derive(Clone, Copy)]
pub enum BothCall<C> {
    Plain(Call<C>),
    StartAhead { ceiling: C },
}
