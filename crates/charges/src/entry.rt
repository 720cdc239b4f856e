// An entry of the sheet as it is read.
ghost use Rattle.std.specs.Prelude.{◌≤◌};

/// What two settings of two modules have on the sheet: 0 is no clash, 1 to 1,000 a clash, 1,000 a forbidden pair.
#[derive(Clone, Copy)]
pub struct Entry {
    pub(crate) number: u16,
    ghost within: { number ≤ 1000 },
}
