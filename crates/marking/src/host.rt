//! What a host holds.

ghost use Rattle.std.specs.Prelude.{◌≡◌, Some, vec_capacity};
ghost use Rattle.marking.specs.HostReports.{host_line, host_reported};

use crate::choice::{HostKind, host_kind};
use hosts::{MayHaveSideEffectsContext, NameHost, Switches, TableHost, counted};
use packed::{Refusal, Scope};
use std::fmt;

/// Which host a file gives, how many records or names it holds, and which switches it counts.
#[derive(Clone, Copy, Debug, PartialEq, Eq)]
pub struct HostReport {
    pub kind: HostKind,
    pub held: usize,
    pub switches: Switches,
}

impl fmt::Display for HostReport {
    ghost output = { λ h. Some (host_line h) };

    fn fmt<W: fmt::Write>(&self, f: &mut fmt::Formatter<W>) -> fmt::Result {
        let kind = self.kind;
        let held = self.held;
        let switches = self.switches;
        write!(f, "host {kind} {held} {switches}")
    }
}

/// What is reported of a host of this kind, which holds so many records or names.
fn report<C: MayHaveSideEffectsContext>(kind: HostKind, held: usize, host: &C) -> HostReport
    ensures { result ≡ record { kind = kind; held = held; switches = (C.GlobalContext.view host.now).switches } }
{
    HostReport {
        kind,
        held,
        switches: counted(host),
    }
}

/// The host that the file gives, and the place of the first node; the memory's capacity limits the scope records.
pub fn read_host(file: &[u8], memory: Vec<Scope>) -> Result<(HostReport, usize), Refusal>
    ensures { result ≡ host_reported (vec_capacity memory) file.now }
{
    match host_kind(file) {
        HostKind::Table => {
            let (host, place) = TableHost::make(file, memory)?;
            Ok((report(HostKind::Table, host.records(), &host), place))
        }
        HostKind::Names => {
            let (host, place) = NameHost::make(file)?;
            Ok((report(HostKind::Names, host.names(), &host), place))
        }
    }
}
