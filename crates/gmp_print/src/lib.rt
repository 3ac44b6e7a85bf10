// Writes the runs of a count, in the lines of document 01, "GMP places".
#![tactic(auto)]

use std::io;
use std::io::Write;

// The count and its runs; nothing where c is no count.
pub fn print<W: Write>(out: &mut W, c: u64) -> io::Result<()> {
    if sizes::PLACES < c {
        return Ok(());
    }
    print_named(out, b"Cm ", c)?;
    print_runs(out, c)
}

// A word and a number on a line.
pub fn print_named<W: Write>(out: &mut W, name: &[u8], number: u64) -> io::Result<()> {
    out.write_all(name)?;
    writeln!(out, "{number}")
}

// A run is asked for at the place behind the one before, until that is no place.
fn print_runs<W: Write>(out: &mut W, c: u64) -> io::Result<()> {
    let mut from = 1;
    while let Ok(run) = gmp::run(c, from) {
        let kind = run.kind;
        let last = run.last;
        writeln!(out, "{kind} {from}-{last}")?;
        from = last + 1;
    }
    Ok(())
}
