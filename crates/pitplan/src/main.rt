// Reads a sheet from the standard input, and prints its plan.
#![tactic(auto)]

use plan::plan;
use std::io;
use std::io::Read;

// One byte more than the longest sheet: more need not be read to refuse it.
const MOST_READ: u64 = 65_537;

fn main(rt: HostRuntime) -> io::Result<()> {
    let heap = rt.alloc();
    let mut sheet = Vec::new(heap);
    rt.stdin().take(MOST_READ).read_to_end(&mut sheet)?;
    match plan(heap, &sheet) {
        Ok(text) => rt.write_all(&text),
        Err(fault) => rt.eprintln(fault),
    }
}
