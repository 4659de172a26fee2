//! Reads pattern texts, one a line, and prints what each means or why it is refused.
#![tactic(auto)]

mod show;

use show::Explained;
use std::io::{BufRead, BufReader};

// The same loop as in `pattern_cases`: each program has one, and a crate for it would be longer.
fn run(rt: &HostRuntime) -> anyhow::Result<()> {
    let input = BufReader::new(rt.alloc(), rt.stdin())?;
    for line in input.split(rt.alloc(), b'\n') {
        let line = line?;
        print!(rt; "{}", Explained(line.as_slice()))?;
    }
    Ok(())
}

fn main(rt: HostRuntime) -> anyhow::Result<()> {
    run(&rt)
}
