// The listing of named lines.
#![tactic(auto)]

use listing_text::Kind;
use std::io;

fn main(rt: HostRuntime) -> io::Result<()> {
    listings::run(Kind::Named, &mut rt.stdin(), &mut rt.stdout())
}
