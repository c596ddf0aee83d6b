//! Making a host from the fields before the first node.

ghost use Rattle.std.specs.Prelude.{◌≡◌, ℕ, List, length, Result};
ghost use Rattle.packed.specs.declared.field.Scope.{Scope as Record};
ghost use Rattle.packed.specs.declared.refusal.Reason.{Reason as Why};
ghost use Rattle.packed.specs.Fields.{Told, told};
ghost use Rattle.hosts.specs.Gathering.{begun, host_takes, gathers, with_records, reached};
ghost use Rattle.hosts.specs.Scopes.{after};

use crate::switches::Switches;
use packed::{Field, Fields, Reason, Refusal, Tag};

/// What a host keeps of the fields, besides its switches.
pub trait Gathers {
    /// The scope records so far.
    ghost records: { Self → List Record };

    /// What one field more makes of them.
    ghost takes: { Self → List Record → Told → Result (List Record) Why };

    /// Takes a field that is neither a node nor a switch; refused, it is not used any more.
    fn take(&mut self, field: Field<'_>) -> Result<(), Reason>
        ensures step { after result (records self.new) ≡ takes self.old (records self.old) (told field.entry) }
        ensures same { takes self.new ≡ takes self.old };
}

/// Takes a field that is no node, and answers the switches after it.
#[inline(always)]
fn take<G: Gathers>(host: &mut G, switches: Switches, field: Field<'_>) -> Result<Switches, Reason>
    ensures step { with_records result (G.records host.new) ≡ host_takes (G.takes host.old) (record { scopes = G.records host.old; switches = switches }) (told field.entry) }
    ensures same { G.takes host.new ≡ G.takes host.old }
{
    match field {
        Field::Switch(switch) => Ok(switches.without(switch)),
        field if field.tag() == Some(Tag::Switch) => Err(Reason::BadSwitch),
        field => {
            host.take(field)?;
            Ok(switches)
        }
    }
}

/// Hands the fields before the first node to the host, in order, and answers the switches, and the place of that node or the file's end.
pub(crate) fn gather<G: Gathers>(file: &[u8], host: &mut G) -> Result<(Switches, usize), Refusal>
    ensures { reached result (G.records host.new) ≡ gathers (host_takes (G.takes host.old)) (length file.now) file.now 0 (begun (G.records host.old)) }
{
    let mut switches = Switches::new();
    for field in Fields::new(file) {
        let (place, field) = field?;
        if field.has_node_tag() {
            return Ok((switches, place));
        }
        switches = take(host, switches, field).map_err(|reason| Refusal { reason, place })?;
    }
    Ok((switches, file.len()))
}
