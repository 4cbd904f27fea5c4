//! Regtrace: replays the trace on standard input over a pile and prints what it came to. `replays` has all that decides; this program
//! reads and prints.
#![tactic(auto)]

use anyhow::anyhow;
use replays::{Printout, run_regtrace};
use std::env;
use std::io::{Read, Write};

/// No more of the input is read. No trace is longer.
const MOST_BYTES: u64 = 65536;

const HELP: &str = "usage: regtrace < TRACE

Replays a trace of wanted regions and prints a report: slots, rows, hits, evictions
and the cost paid, and then each row that evicted a region, with the region's key.

A trace is a line `slots`, a line with a number up to 1024, a line `key cost` or
`cost key`, and at most 2048 rows: a region number in hexadecimal and a cost of 1
to 65280 milliseconds. A fault is printed in place of a report, and the status is 1.
";

fn main(rt: HostRuntime) -> anyhow::Result<()> {
    let heap = rt.alloc();
    if env::args(&rt)?
        .skip(1)
        .any(|word| word.as_str() == "--help")
    {
        rt.stdout().write_all(HELP.as_bytes())?;
        return Ok(());
    }
    let mut input = Vec::new(heap);
    rt.stdin().take(MOST_BYTES).read_to_end(&mut input)?;
    let printout = run_regtrace(heap, input.as_slice())?;
    rt.stdout().write_all(printout.text())?;
    match printout {
        Printout::Report(_) => Ok(()),
        Printout::Fault(_) => Err(anyhow!("the trace has a fault")),
    }
}
