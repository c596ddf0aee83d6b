//! Tables in strictly ascending order of their keys, and the one search over them.

#![tactic(auto)]

mod search;

pub use search::{Ascending, OrderedTable, find};
