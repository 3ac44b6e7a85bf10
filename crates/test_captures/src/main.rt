// Captures coded, read and edited, and parts of their information: each answer, with digests of what the buffers hold before and after. Every case starts
// from a capture of its own, so that most functions take numbers alone and little is known of any buffer: that keeps the check short.
#![tactic(auto)]

mod call;
mod coded;
mod frames;
mod parts;
mod readings;

use std::io;

fn main(rt: HostRuntime) -> io::Result<()> {
    let mut out = io::writer(&rt);
    coded::cases(&mut out)?;
    readings::cases(&mut out)?;
    parts::cases(&mut out)?;
    frames::cases(&mut out)
}
