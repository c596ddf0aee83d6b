//! The global names of JavaScript that are read without side effects: identifiers, constructors, and properties of global objects.
//!
//! The names are those of oxc_ecmascript 0.156.0.

#![tactic(auto)]

mod constructors;
mod identifiers;
mod names;
mod properties;
mod sets;

pub use constructors::is_known_global_constructor;
pub use identifiers::is_known_global_identifier;
pub use properties::{is_known_global_property, is_known_global_property_deep};
