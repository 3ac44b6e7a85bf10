// Writes the code words of four elements, the rows of 001 Table 12, and for several words how many single flips repair puts right and how
// many double flips it finds beyond repair.
#![tactic(auto)]

use hamming::{Found, Repaired};
use std::io::{self, Write};
use symbol::Symbol;

// The elements that are tried: what the first bytes are, and how many of them, and what the others are.
const TRIED: [(u8, usize, u8); 7] = [
    (128, 1, 0),
    (32, 1, 0),
    (8, 1, 0),
    (255, 0, 255),
    (0, 0, 0),
    (165, 7, 60),
    (1, 11, 254),
];

// The code word of such an element.
fn word_of(x: u8, n: usize, y: u8) -> [u8; 16] {
    let mut e = [y; 16];
    for b in e.iter_mut().take(n) {
        *b = x;
    }
    hamming::encode(e)
}

// A row of Table 12: four bits, and the levels that they have in the X and in the Y polarization.
fn print_row<W: Write>(out: &mut W, n: u8) -> io::Result<()> {
    let s = Symbol::from(n % 16 * 17);
    writeln!(out, "{n:04b} {:+} {:+} {:+} {:+}", s.xi, s.xq, s.yi, s.yq)
}

// The word with bit i flipped.
fn flip(w: [u8; 16], i: u8) -> [u8; 16] {
    let mut v = w;
    v[usize::from(i % 128 / 8)] ^= 128 >> (i % 8);
    v
}

// The tables by which words are repaired.
#[derive(Drop)]
struct Tables {
    checks: [u16; 4096],
    positions: [u8; 512],
}

impl Tables {
    fn made() -> Tables {
        Tables {
            checks: hamming_table::byte_table(),
            positions: hamming_matrix::position_table(),
        }
    }

    fn repaired(&self, w: [u8; 16]) -> Repaired {
        let c = hamming_table::checks_by(&self.checks, w);
        hamming_table::repair_known(&self.positions, w, c)
    }

    // Whether the repair gives w back from the word with bit i flipped, and names the bit.
    fn is_put_right(&self, w: [u8; 16], i: u8) -> bool {
        let right = Repaired {
            word: w,
            found: Found::Flipped(i),
        };
        self.repaired(flip(w, i)) == right
    }

    // Whether the repair leaves the word with both bits flipped as it is, beyond repair.
    fn is_beyond(&self, w: [u8; 16], i: u8, k: u8) -> bool {
        let v = flip(flip(w, i), k);
        let left = Repaired {
            word: v,
            found: Found::Beyond,
        };
        self.repaired(v) == left
    }

    // How many of the 128 single flips are put right.
    fn single_flips(&self, w: [u8; 16]) -> usize {
        (0..128u8).filter(|i| self.is_put_right(w, *i)).count()
    }

    // How many of the 8,128 double flips are beyond repair, pair by pair of different bits.
    fn double_flips(&self, w: [u8; 16]) -> usize {
        (0..128 * 128u16)
            .map(|p| ((p / 128) as u8, (p % 128) as u8))
            .filter(|(i, k)| i < k && self.is_beyond(w, *i, *k))
            .count()
    }
}

fn main(rt: HostRuntime) -> io::Result<()> {
    let mut out = io::writer(&rt);
    for (x, n, y) in &TRIED[..4] {
        test_print::word(&mut out, "", word_of(*x, *n, *y))?;
    }
    for n in 0..16u8 {
        print_row(&mut out, n)?;
    }
    let tables = Tables::made();
    for (x, n, y) in &TRIED {
        let w = word_of(*x, *n, *y);
        let single = tables.single_flips(w);
        let double = tables.double_flips(w);
        write!(
            out,
            "repaired {single} of 128, beyond repair {double} of 8128: "
        )?;
        test_print::word(&mut out, "", w)?;
    }
    Ok(())
}
