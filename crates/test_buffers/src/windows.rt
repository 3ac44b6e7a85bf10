// Mapping and unmapping the first two places under the count 10,216, of which one is data.
use crate::lent;
use std::io::{self, Write};

// The bytes of one group and of two places, and what is too long by one.
const GROUPS: usize = sizes::PAIR_BYTES / 2 + 1;

const LONG_GROUPS: usize = GROUPS + 1;

const WINDOW: usize = sizes::PAIR_BYTES;

const LONG_WINDOW: usize = WINDOW + 1;

// A call, and its count where that is outside its set.
fn name<W: Write>(out: &mut W, call: &str, c: u64) -> io::Result<()> {
    write!(out, "{call}")?;
    if sizes::PLACES < c {
        write!(out, " of C {c}")?;
    }
    Ok(())
}

fn map_into<W: Write>(
    out: &mut W,
    c: u64,
    spare: u8,
    groups: &[u8],
    window: &mut [u8],
) -> io::Result<()> {
    test_input::fill(999, window);
    name(out, "map", c)?;
    let said = lent::spare_said(spare);
    write!(out, "{said} {} {}", groups.len(), window.len())?;
    test_print::outcome(out, ": ", gmp_map::map(c, 1, 2, groups, window))?;
    writeln!(out, " window {:016x}", test_data::digest(window))
}

// The spare bits are the low four of the group's last byte.
fn group(spare: u8) -> [u8; LONG_GROUPS] {
    lent::with_spare(995, 128, 240, spare)
}

fn map<W: Write>(out: &mut W, c: u64, spare: u8, p: u64) -> io::Result<()> {
    let a = lent::length(GROUPS, p).min(LONG_GROUPS);
    let b = lent::length(WINDOW, p / 3).min(LONG_WINDOW);
    let groups = group(spare);
    let mut window = [0u8; LONG_WINDOW];
    map_into(out, c, spare, &groups[0..a], &mut window[0..b])
}

fn unmap_into<W: Write>(out: &mut W, c: u64, window: &[u8], groups: &mut [u8]) -> io::Result<()> {
    test_input::fill(995, groups);
    name(out, "unmap", c)?;
    write!(out, " {} {}", window.len(), groups.len())?;
    test_print::outcome(out, ": ", gmp_map::unmap(c, 1, 2, window, groups))?;
    writeln!(out, " groups {:016x}", test_data::digest(groups))
}

fn unmap<W: Write>(out: &mut W, c: u64, p: u64) -> io::Result<()> {
    let a = lent::length(WINDOW, p).min(LONG_WINDOW);
    let b = lent::length(GROUPS, p / 3).min(LONG_GROUPS);
    let mut groups = [0u8; LONG_GROUPS];
    let mut window = [0u8; LONG_WINDOW];
    test_input::fill(999, &mut window);
    unmap_into(out, c, &window[0..a], &mut groups[0..b])
}

// Where the count is none every buffer is short.
pub fn maps<W: Write>(out: &mut W) -> io::Result<()> {
    for p in 0..18u64 {
        map(out, 10216, (p / 9 % 2) as u8, p % 9)?;
    }
    map(out, 10221, 0, 4)
}

pub fn unmaps<W: Write>(out: &mut W) -> io::Result<()> {
    for p in 0..9u64 {
        unmap(out, 10216, p)?;
    }
    unmap(out, 10221, 4)
}
