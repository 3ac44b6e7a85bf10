// A count that is none; the last window of all, and one that would end past the last place. The lengths are those of places that are all data. Digests before
// and after a call show that a refusal changed nothing.
use crate::window::Window;
use std::io::{self, Write};
use test_data::Generator;
use test_print::Change;

// The bytes of four places.
const FOUR_PLACES: usize = 2 * sizes::PAIR_BYTES;

fn runs<W: Write>(out: &mut W, c: u64, j: u64) -> io::Result<()> {
    write!(out, "C {c} place {j}")?;
    test_print::outcome(out, " runs: ", gmp::runs(c, j))?;
    writeln!(out)
}

fn map<W: Write>(out: &mut W, w: Window, groups: &[u8], window: &mut [u8]) -> io::Result<()> {
    let before = test_data::digest(window);
    let mapped = gmp_map::map(w.c, w.f, w.n, groups, window);
    let after = test_data::digest(window);
    w.name(out)?;
    test_print::outcome(out, " map: ", mapped)?;
    writeln!(out, " window{}", Change { before, after })
}

fn unmap<W: Write>(out: &mut W, w: Window, window: &[u8], groups: &mut [u8]) -> io::Result<()> {
    let before = test_data::digest(groups);
    let unmapped = gmp_map::unmap(w.c, w.f, w.n, window, groups);
    let after = test_data::digest(groups);
    w.name(out)?;
    test_print::outcome(out, " unmap: ", unmapped)?;
    writeln!(out, " groups{}", Change { before, after })
}

fn there_and_back<W: Write>(
    out: &mut W,
    w: Window,
    groups: &mut [u8],
    window: &mut [u8],
    back: &mut [u8],
) -> io::Result<()> {
    Generator::start(995).fill(groups);
    map(out, w, groups, window)?;
    unmap(out, w, window, back)
}

// Four places at most.
fn sized<W: Write>(out: &mut W, c: u64, f: u64, n: u64) -> io::Result<()> {
    let mut groups = [0u8; FOUR_PLACES];
    let mut window = [90u8; FOUR_PLACES];
    let mut back = [60u8; FOUR_PLACES];
    let k = buffer_sizes::window(n).min(FOUR_PLACES);
    let w = Window { c, f, n };
    there_and_back(
        out,
        w,
        &mut groups[0..k],
        &mut window[0..k],
        &mut back[0..k],
    )
}

pub fn cases<W: Write>(out: &mut W) -> io::Result<()> {
    crate::starred::place(out, 10221, 1)?;
    runs(out, 10221, 1)?;
    sized(out, 10221, 1, 2)?;
    sized(out, 10220, 10219, 2)?;
    sized(out, 10220, 10219, 4)
}
