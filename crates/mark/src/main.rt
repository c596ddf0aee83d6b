//! Reads a packed hook on standard input and prints how many nodes and lines it holds and which host it gives, or its refusal.

#![tactic(auto)]

use drafts::Record;
use marking::{NODES, SCOPES, read_hook};
use std::io;
use std::io::Read;

fn main(rt: HostRuntime) -> io::Result<()> {
    let heap = rt.alloc();
    let mut file = Vec::new(heap);
    rt.stdin().read_to_end(&mut file)?;
    let mut table = vec![in heap; Record::default(); NODES]?;
    let memory = Vec::with_capacity(heap, SCOPES)?;
    match read_hook(&file, &mut table, memory) {
        Ok(report) => println!(rt; "{report}"),
        Err(refusal) => println!(rt; "{refusal}"),
    }
}
