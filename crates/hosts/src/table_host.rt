//! A host that looks references up in scope records.

ghost use Rattle.std.specs.Prelude.{◌≡◌, vec_items, vec_len, vec_capacity, refl};
ghost use Rattle.hosts.specs.ByFields.{MadeByFields};
ghost use Rattle.hosts.specs.Gathering.{record_takes, table_takes, gathered_from};
ghost use Rattle.hosts.specs.TableMeaning.{record_of, table_made, table_view};

use crate::gathering::{Gathers, gather};
use crate::global_context::GlobalContext;
use crate::scope_table::ScopeTable;
use crate::side_effects::context::{MayHaveSideEffectsContext, PropertyReadSideEffects};
use crate::switches::Switches;
use packed::{Field, Reason, Refusal, Scope, Switch, Tag, ValueType};

/// Scope records and switches: a reference without a record, or 0, is outer and has no type.
#[derive(Drop)]
pub struct TableHost {
    scopes: ScopeTable,
    switches: Switches,
}

impl Gathers for ScopeTable {
    ghost records = { λ t. vec_items t.records };

    ghost takes = { λ t. record_takes (vec_capacity t.records) };

    fn take(&mut self, field: Field<'_>) -> Result<(), Reason> {
        match field {
            Field::Scope(scope) => self.append(scope),
            field if field.tag() == Some(Tag::Scope) => Err(Reason::BadScope),
            _ => Err(Reason::WrongTag),
        }
    }
}

impl TableHost {
    /// The host that the fields before the first node tell, and that node's place; the memory's capacity limits the records.
    pub fn make(file: &[u8], memory: Vec<Scope>) -> Result<(TableHost, usize), Refusal>
        ensures call { table_made result ≡ gathered_from (table_takes (vec_capacity memory)) file.now }
        ensures told { MadeByFields (table_takes (vec_capacity memory)) file.now }
    {
        let mut scopes = ScopeTable::new(memory);
        let (switches, place) = gather(file, &mut scopes)?;
        Ok((TableHost { scopes, switches }, place))
    }

    /// How many records it has.
    pub fn records(&self) -> usize
        ensures { result ≡ vec_len self.now.scopes.records }
    {
        self.scopes.count()
    }

    /// The record of a reference, but of none for 0.
    fn record_of(&self, reference: u16) -> Option<Scope>
        ensures { result ≡ record_of self.now.scopes.records.items reference }
    {
        if reference == 0 {
            return None;
        }
        self.scopes.get(reference)
    }
}

impl GlobalContext for TableHost {
    ghost view = { table_view };

    ghost untyped = { λ _. refl };

    fn is_global_reference(&self, _name: &[u8], reference: u16) -> bool {
        match self.record_of(reference) {
            Some(scope) => scope.outer,
            None => true,
        }
    }

    fn value_type_for_reference_id(&self, reference: u16) -> Option<ValueType> {
        self.record_of(reference)?.value_type
    }
}

// A name host has the same four methods: a generic host over both would be longer than what it saves.
impl MayHaveSideEffectsContext for TableHost {
    fn property_read_side_effects(&self) -> PropertyReadSideEffects {
        self.switches.property_reads()
    }

    fn property_write_side_effects(&self) -> bool {
        self.switches.writes
    }

    fn unknown_global_side_effects(&self) -> bool {
        self.switches.unknown_globals
    }

    fn loosen(&mut self, switch: Switch) {
        self.switches = self.switches.without(switch);
    }
}
