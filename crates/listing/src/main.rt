// The listing of plain lines, in edition 1.
#![tactic(auto)]

use limits::VALENCE;
use listing_text::Kind;
use std::io;

fn main(rt: HostRuntime) -> io::Result<()> {
    listings::run(Kind::Plain(VALENCE), &mut rt.stdin(), &mut rt.stdout())
}
