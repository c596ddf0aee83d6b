//! The call that loosens a switch of any host.

ghost use Rattle.hosts.specs.Host.{Loosen, Loosening};

use crate::side_effects::context::MayHaveSideEffectsContext;
use packed::{Refusal, Switch};

/// Makes the switch of this number not counted; another number is refused, and alters nothing.
// It takes a number, and no `Switch`: that would ask more of the caller, who is refused here for another number.
pub fn loosen<C: MayHaveSideEffectsContext>(host: &mut C, number: u8) -> Result<(), Refusal>
    ensures call { Loosen number (C.GlobalContext.view host.old) (C.GlobalContext.view host.new) result }
    ensures loosening { Loosening }
{
    let switch = Switch::try_from(number).map_err(|reason| Refusal { reason, place: 0 })?;
    host.loosen(switch);
    Ok(())
}
