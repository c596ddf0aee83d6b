//! A host of one's own, which shows how to write one: what it means stands in `view`, and its answers follow that.

ghost use Rattle.std.specs.Prelude.{◌≡◌, true, None, refl};
ghost use Rattle.hosts.specs.Host.{all_counted};

use hosts::{GlobalContext, MayHaveSideEffectsContext, PropertyReadSideEffects, Switches};
use packed::{Switch, ValueType};

/// A host that knows no names and no types: everything is outer.
#[derive(Drop)]
pub struct OuterHost {
    switches: Switches,
}

impl OuterHost {
    /// The host with all switches counted.
    pub fn new() -> OuterHost
        ensures { result.switches ≡ all_counted }
    {
        OuterHost {
            switches: Switches::new(),
        }
    }
}

impl GlobalContext for OuterHost {
    ghost view = { λ h. record { outer = λ _ _. true; typed = λ _. None; switches = h.switches } };

    ghost untyped = { λ _. refl };

    fn is_global_reference(&self, _name: &[u8], _reference: u16) -> bool {
        true
    }

    fn value_type_for_reference_id(&self, _reference: u16) -> Option<ValueType> {
        None
    }
}

impl MayHaveSideEffectsContext for OuterHost {
    fn property_read_side_effects(&self) -> PropertyReadSideEffects {
        self.switches.property_reads()
    }

    fn property_write_side_effects(&self) -> bool {
        self.switches.writes
    }

    fn unknown_global_side_effects(&self) -> bool {
        self.switches.unknown_globals
    }

    fn loosen(&mut self, switch: Switch) {
        self.switches = self.switches.without(switch);
    }
}
