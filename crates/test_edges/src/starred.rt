// The published values of the CRC and of the scrambler, and the starred cases, by the functions that are proved.
use gmp::Kind;
use std::io::{self, Write};

pub fn crc_of<W: Write>(out: &mut W, name: &str, s: &[u8]) -> io::Result<()> {
    let t = crc::table();
    let value = u64::from(crc::crc(&t, s));
    writeln!(out, "CRC of {name}: {value:016x}")
}

fn crc_of_zeros<W: Write>(out: &mut W) -> io::Result<()> {
    let zeros = [0u8; sizes::INFO_BYTES];
    crc_of(out, "30583 zero bytes", &zeros)
}

// The pad is zero before scrambling, so that the scrambled pad is the sequence itself.
fn sequence<W: Write>(out: &mut W) -> io::Result<()> {
    let s = scrambler::sequence();
    let first = bits_copy::word_from(&s, 0);
    let pad = bits_copy::word_from(&s, sizes::PAD_FROM);
    test_print::word(out, "scrambler from bit 0 on: ", first)?;
    test_print::word(out, "scrambled pad from bit 0 on: ", pad)
}

// A run as the numbers that C is handed: number, last place and kind. Where it is refused the last is 0 and the kind is the first.
pub fn place<W: Write>(out: &mut W, c: u64, j: u64) -> io::Result<()> {
    let (number, last, kind) = match gmp::run(c, j) {
        Ok(run) => (0, run.last, run.kind),
        Err(refused) => (refused.refusal.number(), 0, Kind::Stuff),
    };
    let kind = match kind {
        Kind::Stuff => "stuff",
        Kind::Data => "data",
    };
    writeln!(out, "C {c} place {j}: number {number} last {last} {kind}")
}

// All bytes but one are zero.
fn symbol<W: Write>(out: &mut W) -> io::Result<()> {
    let mut capture = [0u8; 256];
    capture[145] = 145;
    let v = line_order::word_in(&capture, 9);
    writeln!(out, "word 9 symbol 2: byte {}", v[2])
}

// A count and a place.
const PLACES: [(u64, u64); 7] = [
    (0, 1),
    (10220, 10220),
    (10216, 1),
    (10216, 2),
    (10216, 2556),
    (10217, 3407),
    (10217, 3408),
];

fn places<W: Write>(out: &mut W) -> io::Result<()> {
    for (c, j) in &PLACES {
        place(out, *c, *j)?;
    }
    Ok(())
}

fn words<W: Write>(out: &mut W) -> io::Result<()> {
    for w in &[480, 15, 496, 11456] {
        writeln!(out, "word {}: element {}", *w, line::element_in(*w))?;
    }
    Ok(())
}

pub fn cases<W: Write>(out: &mut W) -> io::Result<()> {
    crc_of(out, "123456789", b"123456789")?;
    crc_of_zeros(out)?;
    sequence(out)?;
    places(out)?;
    words(out)?;
    symbol(out)?;
    test_print::word(out, "element of zeros: word ", hamming::encode([0u8; 16]))
}
