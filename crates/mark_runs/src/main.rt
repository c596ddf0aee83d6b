//! Runs what `mark` does on stored hooks: each line of standard input has a name, ` | ` and the hook's bytes in hexadecimal.

#![tactic(auto)]

use anyhow::anyhow;
use drafts::Record;
use marking::{NODES, SCOPES, read_hook};
use std::alloc::Global;
use std::io::{BufRead, BufReader};

/// The bytes that hexadecimal digits write; spaces are passed over.
fn bytes_of(heap: Global, text: &str) -> anyhow::Result<Vec<u8>> {
    let mut bytes = Vec::new(heap);
    let mut high: Option<u8> = None;
    // No library decodes them where they stand: the digits would first be copied out from between the spaces.
    for c in text.chars().filter(|c| *c != ' ') {
        let Some(digit) = c.to_digit(16) else {
            return Err(anyhow!("a line without hexadecimal digits"));
        };
        let digit = (digit & 15) as u8;
        match high {
            None => high = Some(digit),
            Some(h) => {
                bytes.push((h & 15) * 16 + digit)?;
                high = None;
            }
        }
    }
    if high.is_some() {
        return Err(anyhow!("a line without hexadecimal digits"));
    }
    Ok(bytes)
}

/// Prints the name, and what `mark` prints of the hook. The table is filled at the first hook: what an earlier one left in it alters no answer.
fn run(rt: &HostRuntime, name: &str, file: &[u8], table: &mut Vec<Record>) -> anyhow::Result<()> {
    if table.is_empty() {
        table.resize(NODES, Record::default())?;
    }
    let memory = Vec::with_capacity(rt.alloc(), SCOPES)?;
    match read_hook(file, table, memory) {
        Ok(report) => println!(rt; "{name} | {report}")?,
        Err(refusal) => println!(rt; "{name} | {refusal}")?,
    }
    Ok(())
}

fn main(rt: HostRuntime) -> anyhow::Result<()> {
    let heap = rt.alloc();
    let mut table = Vec::new(heap);
    for line in BufReader::new(heap, rt.stdin())?.lines(heap) {
        let line = line?;
        let Some((name, digits)) = line.as_str().split_once(" | ") else {
            return Err(anyhow!("a line without ` | `"));
        };
        let file = bytes_of(heap, digits)?;
        run(&rt, name, &file, &mut table)?;
    }
    Ok(())
}
