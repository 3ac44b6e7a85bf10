// What several programs write alike. No contract can say what is written: the programs are held to texts that a second program made.
#![tactic(auto)]

use answer::Answer;
use gmp::Kind;
use std::convert::AsSlice;
use std::fmt;
use std::io::{self, Write};

// A code word, byte by byte, behind its name.
pub fn word<W: Write, N: AsSlice<u8> + Drop>(out: &mut W, name: N, w: [u8; 16]) -> io::Result<()> {
    out.write_all(name.as_slice())?;
    for x in &w {
        write!(out, "{x:02x}")?;
    }
    writeln!(out)
}

// The stuff among the first sixteen runs of a count: no row of 001 Table 7 has more.
pub fn stuff_runs<W: Write>(out: &mut W, c: u64) -> io::Result<()> {
    let mut j = 1;
    for _ in 0..16u8 {
        j = stuff_run(out, c, j)?;
    }
    Ok(())
}

// The run at place j, written where it is of stuff, and the place behind it; past the last place there is no run.
fn stuff_run<W: Write>(out: &mut W, c: u64, j: u64) -> io::Result<u64> {
    match gmp::run(c, j) {
        Ok(run) => {
            if run.kind == Kind::Stuff {
                write!(out, " {j}-{}", run.last)?;
            }
            Ok(run.last.wrapping_add(1))
        }
        Err(_) => Ok(j),
    }
}

// What a call answered, as the three numbers that C is handed, behind its name.
pub fn outcome<W: Write, N: AsSlice<u8> + Drop, A: Into<Answer>>(
    out: &mut W,
    name: N,
    answered: A,
) -> io::Result<()> {
    let a: Answer = answered.into();
    out.write_all(name.as_slice())?;
    write!(
        out,
        "number {} place {} count {}",
        a.number, a.place, a.count
    )
}

// Digests of what a buffer held before a call and holds after it, behind what it is of.
#[derive(Clone, Copy)]
pub struct Change {
    pub before: u64,
    pub after: u64,
}

impl fmt::Display for Change {
    fn fmt<W: fmt::Write>(&self, f: &mut fmt::Formatter<W>) -> fmt::Result {
        write!(f, " before {:016x} after {:016x}", self.before, self.after)
    }
}

// Digests of information and parity end a line.
pub fn inputs<W: Write>(out: &mut W, info: u64, parity: u64) -> io::Result<()> {
    writeln!(out, " information {info:016x} parity {parity:016x}")
}
