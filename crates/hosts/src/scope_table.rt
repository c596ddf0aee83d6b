//! Scope records by reference number.

ghost use Rattle.std.specs.Prelude.{◌≡◌, true, [], ◌∷◌, vec_len, vec_capacity};
ghost use Rattle.tables.specs.Order.{ascends};
ghost use Rattle.hosts.specs.Scopes.{scope_keys, lookup, highest, scope_added, after};

use packed::{Reason, Scope};
use std::cmp::Ordering;
use tables::{Ascending, OrderedTable, find};

/// Scope records in strictly ascending order of their reference numbers.
#[derive(Drop)]
pub struct ScopeTable {
    records: Vec<Scope>,
    ghost ascent: { ascends (scope_keys records.items) ≡ true },
}

impl Ascending for ScopeTable {
    ghost keys = { λ t. scope_keys t.records.items };

    ghost ascent = { λ t. t.ascent };

    fn len(&self) -> usize {
        self.records.len()
    }
}

impl OrderedTable<u16> for ScopeTable {
    ghost sought = { λ n. n ∷ [] };

    fn compare(&self, i: usize, key: u16) -> Ordering {
        self.records[i].reference.cmp(&key)
    }
}

impl ScopeTable {
    /// A table without records, in this memory, whose capacity is the limit.
    pub(crate) fn new(memory: Vec<Scope>) -> ScopeTable
        ensures records { result.records.items ≡ [] }
        ensures limit { vec_capacity result.records ≡ vec_capacity memory }
    {
        let mut records = memory;
        records.clear();
        ScopeTable { records }
    }

    /// How many records it has.
    pub(crate) fn count(&self) -> usize
        ensures { result ≡ vec_len self.now.records }
    {
        self.records.len()
    }

    /// The number of the last record, or 0.
    fn top(&self) -> u16
        ensures { result ≡ highest self.now.records.items }
    {
        self.records.last().map_or(0, |scope| scope.reference)
    }

    /// Appends a record whose number is above the others, if there is room.
    pub(crate) fn append(&mut self, scope: Scope) -> Result<(), Reason>
        ensures records { after result self.new.records.items ≡ scope_added (vec_capacity self.old.records) self.old.records.items scope }
        ensures limit { vec_capacity self.new.records ≡ vec_capacity self.old.records }
    {
        if scope.reference <= self.top() {
            return Err(Reason::BadScope);
        }
        if self.records.len() >= self.records.capacity() {
            return Err(Reason::Full);
        }
        self.records.push_reserved(scope);
        Ok(())
    }

    /// The record of a reference number.
    pub(crate) fn get(&self, reference: u16) -> Option<Scope>
        ensures { result ≡ lookup self.now.records.items reference }
    {
        let i = find(self, reference)?;
        Some(self.records[i])
    }
}
