//! Reads records of all formats from standard input and prints each as one line of text.
#![tactic(auto)]

ghost use Rattle.std.specs.Prelude.{◌≤◌, length, IfOk};

mod record;

use anyhow::anyhow;
use record::next_record;
use records::refusal::{ReadFault, ReadRefusal};
use std::alloc::{AllocError, Global};
use std::io::Read;

/// How much is read at once.
const CHUNK: usize = 4096;

/// What the front of the input came to: its lines, how many bytes they took, and the record that is refused.
#[derive(Drop)]
struct Described {
    lines: String,
    used: usize,
    fault: Option<ReadFault>,
}

/// The records of these bytes, up to the first that is not whole or is refused.
fn describe(heap: Global, bytes: &[u8], place: u64) -> Result<Described, AllocError>
    ensures { IfOk result (λ told. told.used ≤ length bytes.now) }
{
    let mut lines = String::new(heap);
    let mut rest = bytes;
    let mut fault = None;
    while !rest.is_empty() {
        let used = bytes.len().saturating_sub(rest.len());
        match next_record(rest, place.saturating_add(used as u64)) {
            Ok((record, after)) => {
                writeln!(lines, "{record}")?;
                rest = after;
            }
            Err(refused) => {
                fault = Some(refused);
                break;
            }
        }
    }
    let used = bytes.len().saturating_sub(rest.len());
    Ok(Described { lines, used, fault })
}

/// Whether more input may still make the record whole.
fn may_go_on(fault: ReadFault) -> bool {
    match fault.refusal {
        ReadRefusal::End | ReadRefusal::Short => true,
        ReadRefusal::Mark | ReadRefusal::Kind | ReadRefusal::Rule => false,
    }
}

fn refuse(rt: &HostRuntime, fault: ReadFault) -> anyhow::Result<()> {
    println!(rt; "{fault}")?;
    Err(anyhow!("a record is refused"))
}

fn run(rt: &HostRuntime) -> anyhow::Result<()> {
    let mut input = rt.stdin();
    let mut pending: Vec<u8> = Vec::new(rt.alloc());
    let mut place = 0;
    // A count, since input has no measure.
    for _ in 0..u64::MAX {
        let mut chunk = [0; CHUNK];
        let more = input.read(&mut chunk)?;
        pending.extend_from_slice(&chunk[0..more])?;
        let told = describe(rt.alloc(), pending.as_slice(), place)?;
        rt.print(told.lines)?;
        if let Some(fault) = told.fault.filter(|&fault| more == 0 || !may_go_on(fault)) {
            return refuse(rt, fault);
        }
        if more == 0 {
            break;
        }
        // What is left is part of one record, so it never piles up.
        pending.drain(..told.used);
        place = place.saturating_add(told.used as u64);
    }
    Ok(())
}

fn main(rt: HostRuntime) -> anyhow::Result<()> {
    run(&rt)
}
