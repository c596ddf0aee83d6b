//! What the rules ask a host about effects.

ghost use Rattle.std.specs.Prelude.{◌≡◌};
ghost use Rattle.hosts.specs.Host.{loosened, reads_of};

use crate::global_context::GlobalContext;
use crate::switches::Switches;
use packed::Switch;

/// Whether property reads count as effects.
#[derive(Clone, Copy, Debug, PartialEq, Eq)]
pub enum PropertyReadSideEffects {
    /// No property read does.
    None,
    /// Each property read may.
    All,
}

/// A host: a question alters nothing, and only `loosen` can change its answer.
pub trait MayHaveSideEffectsContext: GlobalContext {
    /// Whether property reads count as effects.
    fn property_read_side_effects(&self) -> PropertyReadSideEffects
        ensures { result ≡ reads_of (Self.GlobalContext.view self.now).switches };

    /// Whether property writes count as effects.
    fn property_write_side_effects(&self) -> bool
        ensures { result ≡ (Self.GlobalContext.view self.now).switches.writes };

    /// Whether reads of unknown globals count as effects.
    fn unknown_global_side_effects(&self) -> bool
        ensures { result ≡ (Self.GlobalContext.view self.now).switches.unknown_globals };

    /// Makes the switch not counted, and alters no other answer.
    fn loosen(&mut self, switch: Switch)
        ensures { Self.GlobalContext.view self.new ≡ loosened switch (Self.GlobalContext.view self.old) };

    /// Which switches are counted: the answers to the three questions, as one value.
    fn switches(&self) -> Switches
        ensures { result ≡ (Self.GlobalContext.view self.now).switches }
    {
        Switches {
            reads: self.property_read_side_effects() == PropertyReadSideEffects::All,
            writes: self.property_write_side_effects(),
            unknown_globals: self.unknown_global_side_effects(),
        }
    }
}
