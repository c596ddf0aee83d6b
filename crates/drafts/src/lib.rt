//! Drafts of nodes: the rows of kinds, and `add`, which reads them.

#![tactic(auto)]

mod adding;
mod bulk;
mod children;
mod draft;
mod kind;
mod lines;
mod record;
mod row;
mod text_rule;
mod waiting;

pub use adding::add;
pub use bulk::{Opened, open_all};
pub use draft::{Draft, open};
pub use lines::line_count;
pub use record::Record;
