// What mapping and unmapping are called with.
use std::io::{self, Write};

// A count, and n places from place f on.
#[derive(Clone, Copy)]
pub struct Window {
    pub c: u64,
    pub f: u64,
    pub n: u64,
}

impl Window {
    pub fn name<W: Write>(self, out: &mut W) -> io::Result<()> {
        write!(out, "C {} f {} n {}", self.c, self.f, self.n)
    }
}
