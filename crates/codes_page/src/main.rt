// What docs/CODES.md shows, run on the proved calls and held to the file stdout: every alkane of up to seven carbons as a row of the page's table,
// one skeleton in every form, an answer of each refusal number, and skeletons with named atoms.
#![tactic(auto)]

mod alkanes;
mod atoms;
mod carried;
mod refusals;
mod written;

use std::io;

fn main(rt: HostRuntime) -> io::Result<()> {
    alkanes::rows(&rt)?;
    carried::forms(&rt)?;
    refusals::answers(&rt)?;
    atoms::examples(&rt)
}
