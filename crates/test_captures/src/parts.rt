// Requests for the information of an FEC block, granted and refused, with the second question, and the length and a digest of the part that came.
// What holds a large space is not inlined, or the spaces of several calls would stand on the stack at once.
use crate::call::LARGE;
use std::io::{self, Write};

fn part<W: Write>(out: &mut W, n: u64, t: u64, info: &[u8]) -> io::Result<()> {
    let p = capture::information(n, t, info);
    test_print::outcome(out, ": ", capture::information_answer(n, t, info))?;
    writeln!(
        out,
        " bytes {} digest {:016x}",
        p.len(),
        test_data::digest(p)
    )
}

fn ask<W: Write>(out: &mut W, n: u64, last: u64, info: &[u8]) -> io::Result<()> {
    for t in &[0, 3, last, last % 40 + 1, u64::MAX] {
        write!(out, "N {n} t {}", *t)?;
        part(out, n, *t, info)?;
    }
    Ok(())
}

#[inline(never)]
fn parts<W: Write>(out: &mut W, n: u64, last: u64) -> io::Result<()> {
    let mut info = buffer_sizes::large_space();
    let a = buffer_sizes::information(n);
    test_input::fill_room(n, &mut info);
    ask(out, n, last, &info[0..a])
}

// A request that is refused, with an information of the length given.
#[inline(never)]
fn named<W: Write>(out: &mut W, name: &str, n: u64, t: u64, length: usize) -> io::Result<()> {
    let mut info = buffer_sizes::large_space();
    test_input::fill(101, &mut info);
    write!(out, "{name}")?;
    part(out, n, t, &info[0..length.min(LARGE)])
}

pub fn cases<W: Write>(out: &mut W) -> io::Result<()> {
    parts(out, 1, 4)?;
    parts(out, 8, 39)?;
    named(out, "N 0 t 0", 0, 0, 152915)?;
    named(out, "N 9 t 0", 9, 0, 152915)?;
    named(out, "information of N 1 as N 2", 2, 0, 152915)?;
    named(out, "N 1 t 5 and one byte short", 1, 5, 152914)?;
    named(out, "one byte short", 1, 4, 152914)?;
    named(out, "one byte long", 1, 4, 152916)
}
