//! The packed file: fields of tag, length and payload, each read at a place.

#![tactic(auto)]

mod field;
mod fields;
mod node;
mod refusal;
mod switch;
mod tag;
mod value_type;

pub use field::{Field, MAX_FILE, Scope, read_field};
pub use fields::Fields;
pub use node::{RawNode, node_at};
pub use refusal::{Reason, Refusal};
pub use switch::Switch;
pub use tag::Tag;
pub use value_type::ValueType;
