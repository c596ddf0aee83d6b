//! The switches of a host.

ghost use Rattle.std.specs.Prelude.{◌≡◌};
ghost use Rattle.std.specs.Option.{ok_or};
ghost use Rattle.packed.specs.declared.refusal.Reason.TheVariants.{BadSwitch};
ghost use Rattle.packed.specs.Switches.{switch_of};

use super::refusal::Reason;

/// What a host may count as an effect or not.
#[derive(Clone, Copy, Debug, PartialEq, Eq)]
pub enum Switch {
    /// Reading a property.
    PropertyReads = 1,
    /// Writing a property.
    PropertyWrites = 2,
    /// Reading an unknown global.
    UnknownGlobals = 3,
}

impl Switch {
    /// The switch of this number in the format.
    pub fn of_number(number: u8) -> Option<Switch>
        ensures { result ≡ switch_of number }
    {
        match number {
            1 => Some(Switch::PropertyReads),
            2 => Some(Switch::PropertyWrites),
            3 => Some(Switch::UnknownGlobals),
            _ => None,
        }
    }
}

impl TryFrom<u8> for Switch {
    type Error = Reason;

    ghost try_from_gives = { λ n r. r ≡ ok_or (switch_of n) BadSwitch };

    fn try_from(number: u8) -> Result<Switch, Reason> {
        Switch::of_number(number).ok_or(Reason::BadSwitch)
    }
}
