//! Effects.

pub mod context;
