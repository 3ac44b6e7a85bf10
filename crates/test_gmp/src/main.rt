// GMP: counts read from text, the runs of 001 Table 7, run requests at the edges of their sets, and windows granted and refused, with the bytes left in both
// buffers. Expected output: written from the documents by a second program.
#![tactic(auto)]

mod cases;
mod counts;
mod windows;

use std::io;

fn main(rt: HostRuntime) -> io::Result<()> {
    let mut out = io::writer(&rt);
    counts::cases(&mut out)?;
    windows::cases(&mut out)
}
