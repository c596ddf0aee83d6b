//! What the programs do with a packed hook.

#![tactic(auto)]

mod choice;
mod hook;
mod host;

pub use choice::{HostKind, host_kind};
pub use hook::{NODES, Report, SCOPES, read_hook};
pub use host::{HostReport, read_host};
