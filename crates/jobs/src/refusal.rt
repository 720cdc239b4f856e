// Why a call is refused.
ghost use Rattle.std.specs.Prelude.{◌≡◌};
ghost use Rattle.jobs.specs.Checks.{InNumberOrder, AtRest};
ghost use Rattle.jobs.specs.Refusals.{number_of};

/// Why a call is refused. Each case has its number; a call answers the lowest that fits.
#[derive(Clone, Copy, Debug, PartialEq, Eq)]
pub enum Refusal {
    /// Sheet, row or scratch too short.
    TooShort = 1,
    /// A walk is open.
    SearchOpen = 2,
    /// Twenty modules are there.
    Full = 3,
    /// The number of settings is not 1 to 8.
    SettingsOutOfRange = 4,
    /// No such module.
    NoModule = 5,
    /// The first module is not the lower.
    NotLower = 6,
    /// No such setting.
    NoSetting = 7,
    /// The clash is above 1,000.
    ClashTooHigh = 8,
    /// The mask is 0, or has a bit of no setting.
    WrongMask = 9,
    /// No modules to walk.
    NoModules = 10,
    /// The ticket is of another job number, or no walk is open.
    WrongTicket = 11,
    /// Zero steps.
    NoSteps = 12,
}

impl Refusal {
    // Stays: a method and no From<Refusal>, since its contract says also in which order the calls check.
    /// The number of the refusal. Each call checks for its refusals in the order of these numbers, and while no walk is open
    /// as if refusal 2 were not among them.
    pub fn number(self) -> u8
        ensures value { result ≡ number_of self }
        ensures order { InNumberOrder }
        ensures at_rest { AtRest }
    {
        self as u8
    }
}
