// Windows granted and refused, with the bytes left in both buffers.
use crate::cases::CASES;
use std::io::{self, Write};
use test_data::Generator;

// The groups of places that are all data, and a window of all places.
const SPACE: usize = sizes::PAIR_BYTES * (sizes::PLACES as usize) / 2;

// A space of zeros. It is made here, so that no other function is checked with an array of so many elements before its eyes.
fn space() -> [u8; SPACE] {
    [0; SPACE]
}

// A case: its number, what is asked for, the lengths of the buffers, and the low four bits of the groups' last byte.
#[derive(Clone, Copy)]
struct Case {
    number: u64,
    c: u64,
    f: u64,
    n: u64,
    groups: usize,
    window: usize,
    low: u8,
}

// Bytes in which nothing is regular, so that what is written shows, and what is not.
fn set(seed: u64, out: &mut [u8]) {
    Generator::start(seed).fill(out);
}

// The low four bits of the last byte, which are spare if there is an odd number of groups.
fn set_low(low: u8, groups: &mut [u8]) {
    if let Some(last) = groups.last_mut() {
        *last = *last & 240 | low;
    }
}

impl Case {
    fn name<W: Write>(self, out: &mut W) -> io::Result<()> {
        write!(
            out,
            "case {}: C {} f {} n {}",
            self.number, self.c, self.f, self.n
        )?;
        writeln!(
            out,
            " groups {} window {} low {}",
            self.groups, self.window, self.low
        )
    }

    fn map_in<W: Write>(self, out: &mut W, groups: &mut [u8], window: &mut [u8]) -> io::Result<()> {
        set(500 + self.number % 100, groups);
        set_low(self.low, groups);
        set(600 + self.number % 100, window);
        let mapped = gmp_map::map(self.c, self.f, self.n, groups, window);
        test_print::outcome(out, "map: ", mapped)?;
        writeln!(out, " window {:016x}", test_data::digest(window))
    }

    fn map<W: Write>(self, out: &mut W) -> io::Result<()> {
        let mut a = space();
        let mut b = space();
        let groups = self.groups.min(SPACE);
        let window = self.window.min(SPACE);
        self.map_in(out, &mut a[..groups], &mut b[..window])
    }

    // The window has stuff that is not zero.
    fn unmap_in<W: Write>(
        self,
        out: &mut W,
        groups: &mut [u8],
        window: &mut [u8],
    ) -> io::Result<()> {
        set(700 + self.number % 100, window);
        set(800 + self.number % 100, groups);
        let unmapped = gmp_map::unmap(self.c, self.f, self.n, window, groups);
        test_print::outcome(out, "unmap: ", unmapped)?;
        writeln!(out, " groups {:016x}", test_data::digest(groups))
    }

    fn unmap<W: Write>(self, out: &mut W) -> io::Result<()> {
        let mut a = space();
        let mut b = space();
        let groups = self.groups.min(SPACE);
        let window = self.window.min(SPACE);
        self.unmap_in(out, &mut a[..groups], &mut b[..window])
    }
}

pub fn cases<W: Write>(out: &mut W) -> io::Result<()> {
    for (k, (c, f, n, groups, window, low)) in CASES.iter().enumerate() {
        let case = Case {
            number: (k as u64).wrapping_add(1),
            c: *c,
            f: *f,
            n: *n,
            groups: *groups,
            window: *window,
            low: *low,
        };
        case.name(out)?;
        case.map(out)?;
        case.unmap(out)?;
    }
    Ok(())
}
