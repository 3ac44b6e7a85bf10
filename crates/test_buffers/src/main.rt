// Every entry point with each of its buffers as long as stated, one shorter or one longer, in every combination, and what was answered: document 02,
// M-103. Of calls that also look for a spare bit all this is done twice, the second time with one set; and last every buffer is short where a number is
// outside its set as well. Digests of what a call may write show that a refusal changed nothing.
#![tactic(auto)]

mod archives;
mod captures;
mod lent;
mod windows;

use std::io;

fn main(rt: HostRuntime) -> io::Result<()> {
    let mut out = io::writer(&rt);
    captures::codes(&mut out)?;
    captures::reads(&mut out)?;
    captures::edits(&mut out)?;
    captures::parts(&mut out)?;
    windows::maps(&mut out)?;
    windows::unmaps(&mut out)?;
    archives::writes(&mut out)?;
    archives::reads(&mut out)
}
