//! A host that knows which names a file declares, and no types.

ghost use Rattle.std.specs.Prelude.{◌≡◌, [], length, IfOk, refl};
ghost use Rattle.tables.specs.Order.{listed};
ghost use Rattle.hosts.specs.ByFields.{MadeByFields};
ghost use Rattle.hosts.specs.Gathering.{declaration_takes, name_takes, gathered_from};
ghost use Rattle.hosts.specs.NameMeaning.{declared, name_made, name_view};

use crate::declared_names::DeclaredNames;
use crate::gathering::{Gathers, gather};
use crate::global_context::GlobalContext;
use crate::side_effects::context::{MayHaveSideEffectsContext, PropertyReadSideEffects};
use crate::switches::Switches;
use packed::{Field, Reason, Refusal, Switch, ValueType};
use text::is_utf8;

/// The declared names of a file, which stand in it before the first node, and switches: a name is outer exactly if it is not declared.
#[derive(Drop)]
pub struct NameHost<'a> {
    file: &'a [u8],
    /// The place of the first node.
    end: usize,
    switches: Switches,
}

/// The declarations of names: each is checked as it comes, and none is kept, since the file has them.
#[derive(Clone, Copy)]
struct Declarations;

impl Gathers for Declarations {
    ghost records = { λ _. [] };

    ghost takes = { λ _. declaration_takes };

    fn take(&mut self, field: Field<'_>) -> Result<(), Reason> {
        match field {
            Field::Name(name) if name.is_empty() || !is_utf8(name) => Err(Reason::BadText),
            Field::Name(_) => Ok(()),
            _ => Err(Reason::WrongTag),
        }
    }
}

impl<'a> NameHost<'a> {
    /// The host that the fields before the first node tell, and that node's place.
    pub fn make(file: &'a [u8]) -> Result<(NameHost<'a>, usize), Refusal>
        ensures made { name_made result ≡ gathered_from name_takes file.now }
        ensures kept { IfOk result (λ a. (a.0.file.now ≡ file.now) × (a.0.end ≡ a.1)) }
        ensures told { MadeByFields name_takes file.now }
    {
        let (switches, end) = gather(file, &mut Declarations)?;
        let host = NameHost {
            file,
            end,
            switches,
        };
        Ok((host, end))
    }

    /// How many names it declares.
    pub fn names(&self) -> usize
        ensures { result ≡ length (declared self.now.file.now self.now.end) }
    {
        DeclaredNames::new(self.file, self.end).count()
    }

    /// Whether it declares the name.
    fn declares(&self, name: &[u8]) -> bool
        ensures { result ≡ listed (declared self.now.file.now self.now.end) name.now }
    {
        DeclaredNames::new(self.file, self.end).any(|declared| declared == name)
    }
}

impl<'a> GlobalContext for NameHost<'a> {
    ghost view = { name_view };

    ghost untyped = { λ _. refl };

    fn is_global_reference(&self, name: &[u8], _reference: u16) -> bool {
        !self.declares(name)
    }

    fn value_type_for_reference_id(&self, _reference: u16) -> Option<ValueType> {
        None
    }
}

// A table host has the same four methods: a generic host over both would be longer than what it saves.
impl<'a> MayHaveSideEffectsContext for NameHost<'a> {
    fn property_read_side_effects(&self) -> PropertyReadSideEffects {
        self.switches.property_reads()
    }

    fn property_write_side_effects(&self) -> bool {
        self.switches.writes
    }

    fn unknown_global_side_effects(&self) -> bool {
        self.switches.unknown_globals
    }

    fn loosen(&mut self, switch: Switch) {
        self.switches = self.switches.without(switch);
    }
}
