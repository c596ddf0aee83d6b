//! Which of the three switches are counted.

ghost use Rattle.std.specs.Prelude.{◌≡◌, Some};
ghost use Rattle.hosts.specs.Shown.{switches_line};
ghost use Rattle.hosts.specs.Host.{all_counted, reads_of, turned};

use crate::side_effects::context::{MayHaveSideEffectsContext, PropertyReadSideEffects};
use packed::Switch;
use std::fmt;

/// The switches of a host, each counted or not.
#[derive(Clone, Copy, Debug, PartialEq, Eq)]
pub struct Switches {
    pub reads: bool,
    pub writes: bool,
    pub unknown_globals: bool,
}

impl fmt::Display for Switches {
    ghost output = { λ s. Some (switches_line s) };

    fn fmt<W: fmt::Write>(&self, f: &mut fmt::Formatter<W>) -> fmt::Result {
        let reads = self.reads;
        let writes = self.writes;
        let globals = self.unknown_globals;
        write!(f, "reads {reads} writes {writes} globals {globals}")
    }
}

impl Switches {
    /// All counted.
    pub fn new() -> Switches
        ensures { result ≡ all_counted }
    {
        Switches {
            reads: true,
            writes: true,
            unknown_globals: true,
        }
    }

    // A method and no `From` of a flag, since callers have it.
    /// Whether property reads count as effects.
    pub fn property_reads(self) -> PropertyReadSideEffects
        ensures { result ≡ reads_of self }
    {
        if self.reads {
            PropertyReadSideEffects::All
        } else {
            PropertyReadSideEffects::None
        }
    }

    /// The same, with this switch not counted.
    pub fn without(self, switch: Switch) -> Switches
        ensures { result ≡ turned switch self }
    {
        let mut switches = self;
        match switch {
            Switch::PropertyReads => switches.reads = false,
            Switch::PropertyWrites => switches.writes = false,
            Switch::UnknownGlobals => switches.unknown_globals = false,
        }
        switches
    }
}

/// Which switches a host counts.
pub fn counted<C: MayHaveSideEffectsContext>(host: &C) -> Switches
    ensures { result ≡ (C.GlobalContext.view host.now).switches }
{
    host.switches()
}
