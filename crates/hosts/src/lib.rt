//! Hosts: what a hook may lean on.

#![tactic(auto)]

mod declared_names;
mod gathering;
mod global_context;
mod loosening;
mod name_host;
mod scope_table;
mod side_effects;
mod switches;
mod table_host;

pub use global_context::GlobalContext;
pub use loosening::loosen;
pub use name_host::NameHost;
pub use side_effects::context::{MayHaveSideEffectsContext, PropertyReadSideEffects};
pub use switches::{Switches, counted};
pub use table_host::TableHost;
