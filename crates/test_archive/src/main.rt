// Heads of capture files written and read: each refusal at its first and last possible place, several faults at once, sizes beyond what four bytes
// hold and next to the largest. second/README.md says which cases these are.
#![tactic(auto)]

mod cases;
mod files;
mod reads;
mod writes;

use std::io;

fn main(rt: HostRuntime) -> io::Result<()> {
    let mut out = io::writer(&rt);
    writes::all(&mut out)?;
    reads::all(&mut out)
}
