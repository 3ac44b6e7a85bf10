// Reads a count from the first line of standard input and lists its runs: document 01, "GMP places".
#![tactic(auto)]

use gmp_count::Partial;
use std::io;
use std::io::{Read, Write};

// Kept: the count to u64::MAX. A proved loop has to end, and nothing says that an input does, so the turns are counted up to a number that no run comes to.
fn read_first<R: Read>(from: &mut R) -> io::Result<Partial> {
    let mut kept = Partial::start();
    let mut space = [0u8; 4096];
    for _ in 0..u64::MAX {
        let n = from.read(&mut space)?;
        kept = kept.more(&space[..n]);
        if n == 0 || kept.ended {
            return Ok(kept);
        }
    }
    Ok(kept)
}

fn print<W: Write>(out: &mut W, kept: Partial) -> io::Result<()> {
    match kept.so_far() {
        Ok(count) => gmp_print::print(out, count),
        Err(refused) => gmp_print::print_named(out, b"refused ", refused.refusal.number()),
    }
}

fn main(rt: HostRuntime) -> io::Result<()> {
    let kept = read_first(&mut rt.stdin())?;
    let mut out = io::writer(&rt);
    print(&mut out, kept)
}
