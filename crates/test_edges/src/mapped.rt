// Windows from many seeds, mapped and unmapped. The generator gives C, f, n and the groups.
use crate::window::Window;
use std::io::{self, Write};
use test_data::Generator;

// A byte more than a window of 80 places has.
const SPACE: usize = 80 / 2 * sizes::PAIR_BYTES + 1;

// Where there are groups, their last four bits become zero: the spare ones if d is odd.
fn clear_last(groups: &mut [u8]) {
    if let Some(last) = groups.last_mut() {
        *last &= 240;
    }
}

fn map<W: Write>(out: &mut W, w: Window, groups: &[u8], window: &mut [u8]) -> io::Result<()> {
    write!(out, " groups {:016x}", test_data::digest(groups))?;
    test_print::outcome(out, " map: ", gmp_map::map(w.c, w.f, w.n, groups, window))?;
    write!(out, " window {:016x}", test_data::digest(window))
}

fn unmap<W: Write>(out: &mut W, w: Window, window: &[u8], groups: &mut [u8]) -> io::Result<()> {
    test_print::outcome(
        out,
        " unmap: ",
        gmp_map::unmap(w.c, w.f, w.n, window, groups),
    )?;
    writeln!(out, " groups {:016x}", test_data::digest(groups))
}

fn there_and_back<W: Write>(
    out: &mut W,
    w: Window,
    g: &mut Generator,
    groups: &mut [u8],
    window: &mut [u8],
    back: &mut [u8],
) -> io::Result<()> {
    g.fill(groups);
    clear_last(groups);
    map(out, w, groups, window)?;
    unmap(out, w, window, back)
}

// At most 80 places are mapped.
fn sized<W: Write>(out: &mut W, w: Window, g: &mut Generator) -> io::Result<()> {
    let d = buffer_sizes::groups(w.c, w.f, w.n).min(SPACE);
    let k = buffer_sizes::window(w.n).min(SPACE);
    let mut groups = [0u8; SPACE];
    let mut window = [90u8; SPACE];
    let mut back = [60u8; SPACE];
    there_and_back(
        out,
        w,
        g,
        &mut groups[0..d],
        &mut window[0..k],
        &mut back[0..d],
    )
}

// The generator's next number below m.
fn next_below(g: &mut Generator, m: u64) -> u64 {
    g.step();
    g.below(m)
}

fn windows<W: Write>(out: &mut W, seed: u64) -> io::Result<()> {
    let mut g = Generator::start(seed);
    let w = Window {
        c: next_below(&mut g, sizes::PLACES + 1),
        f: 2 * (next_below(&mut g, 5071) % 5071) + 1,
        n: 2 * (next_below(&mut g, 40) % 40) + 2,
    };
    write!(out, "seed {seed} ")?;
    w.name(out)?;
    sized(out, w, &mut g)
}

pub fn vectors<W: Write>(out: &mut W) -> io::Result<()> {
    for seed in 3001..3041u64 {
        windows(out, seed)?;
    }
    Ok(())
}
