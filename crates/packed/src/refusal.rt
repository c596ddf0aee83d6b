//! Why a call is refused, and where.

ghost use Rattle.std.specs.Prelude.{◌≡◌, Some};
ghost use Rattle.packed.specs.Refusals.{number_of, line};

use std::fmt;

/// Why a call is refused.
#[derive(Clone, Copy, Debug, PartialEq, Eq)]
pub enum Reason {
    /// The field does not end within the file, or begins past its end.
    CutField = 1,
    /// The field's tag is not one that may stand here.
    WrongTag = 2,
    /// A node's payload of fewer than six bytes, an unknown kind or detail, or a reference on another kind than an identifier.
    BadHeader = 3,
    /// A declaration that only TypeScript has.
    TypeScriptOnly = 4,
    /// A text that the kind does not allow.
    BadText = 5,
    /// Too few waiting nodes, or children that the kind does not allow.
    BadChildren = 6,
    /// A file of more than 65,535 bytes, or no room for another node or scope record.
    Full = 7,
    /// A node table that accepted adds from this file do not leave.
    ForeignTable = 8,
    /// A number that is no switch's.
    BadSwitch = 11,
    /// A scope record of reference 0, of another shape, or not above the one before it.
    BadScope = 13,
}

impl Reason {
    // A method and no `From`, since callers have it.
    /// The number of the reason in the format.
    pub fn number(self) -> u8
        ensures { result ≡ number_of self }
    {
        self as u8
    }
}

/// A refusal: its reason, and the place in the file that it is about.
#[derive(Clone, Copy, Debug, PartialEq, Eq)]
pub struct Refusal {
    pub reason: Reason,
    pub place: usize,
}

impl fmt::Display for Refusal {
    ghost output = { λ x. Some (line (number_of x.reason) x.place) };

    fn fmt<W: fmt::Write>(&self, f: &mut fmt::Formatter<W>) -> fmt::Result {
        let number = self.reason.number();
        let place = self.place;
        write!(f, "refused {number} at {place}")
    }
}
