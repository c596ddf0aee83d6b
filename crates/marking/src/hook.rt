//! What a hook holds.

ghost use Rattle.std.specs.Prelude.{Some, vec_capacity};
ghost use Rattle.marking.specs.Hooks.{Reports, line};

use crate::host::{HostReport, read_host};
use drafts::{Record, line_count, open_all};
use packed::{Refusal, Scope};
use std::fmt;

/// How many nodes a program holds.
pub const NODES: usize = 2048;

/// How many scope records a program holds.
pub const SCOPES: usize = 1024;

/// How many nodes and lines a hook has, and which host.
#[derive(Clone, Copy, Debug, PartialEq, Eq)]
pub struct Report {
    pub nodes: u16,
    pub lines: usize,
    pub host: HostReport,
}

impl fmt::Display for Report {
    ghost output = { λ r. Some (line r) };

    fn fmt<W: fmt::Write>(&self, f: &mut fmt::Formatter<W>) -> fmt::Result {
        let nodes = self.nodes;
        let lines = self.lines;
        let host = self.host;
        write!(f, "nodes {nodes} lines {lines} {host}")
    }
}

/// Makes the host that the file gives, adds every field behind it to a draft in the table, and counts its nodes and lines.
pub fn read_hook(file: &[u8], table: &mut [Record], memory: Vec<Scope>) -> Result<Report, Refusal>
    ensures { Reports file.now (vec_capacity memory) table.old table.new result }
{
    let (host, place) = read_host(file, memory)?;
    let opened = open_all(file, table, place);
    opened.outcome?;
    let lines = line_count(file, &opened.draft, table)?;
    Ok(Report {
        nodes: opened.draft.nodes(),
        lines,
        host,
    })
}
