// The record of one module.
ghost use Rattle.std.specs.Prelude.{◌^◌, ◌<◌, ◌≤◌};

/// A module: how many settings it has, 1 to 8, and a mask whose bit k, worth 2^k, says whether setting k is allowed.
/// At least one bit is set, and none but those of its own settings.
#[derive(Clone, Copy)]
pub struct Module {
    pub(crate) settings: u8,
    pub(crate) mask: u8,
    ghost some: { 1 ≤ settings },
    ghost few: { settings ≤ 8 },
    ghost allowing: { 1 ≤ mask },
    ghost own: { mask < 2 ^ settings },
}
