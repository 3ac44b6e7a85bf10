// The edges of document 01, section "Both sides of each edge", and the published vectors of the documents, with what was answered; then captures and windows
// from many seeds. The edges of captures are run by test_captures.
#![tactic(auto)]

mod captures;
mod mapped;
mod places;
mod published;
mod starred;
mod window;

use std::io;

fn main(rt: HostRuntime) -> io::Result<()> {
    let mut out = io::writer(&rt);
    starred::cases(&mut out)?;
    places::cases(&mut out)?;
    published::vectors(&mut out)?;
    captures::vectors(&mut out)?;
    mapped::vectors(&mut out)
}
