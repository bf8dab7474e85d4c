// Document 01's figures and one example for each public call, run on the proved calls. What this writes is held to the file stdout: each line names a call and
// what it was handed, and then what it answered and the bytes that it wrote.
#![tactic(auto)]

mod calls;
mod editions;
mod page;

use std::io;

fn main(rt: HostRuntime) -> io::Result<()> {
    page::figures(&rt)?;
    calls::examples(&rt)?;
    editions::examples(&rt)
}
