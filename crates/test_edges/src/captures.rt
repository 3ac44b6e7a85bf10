// Captures of every length with every edge of m0, from many seeds. All that a case needs is made by one generator from its seed.
use std::io::{self, Write};
use test_data::Generator;

fn edit_by<W: Write>(
    out: &mut W,
    n: u64,
    block: u64,
    bits: &[u8],
    parity: &[u8],
    capture: &mut [u8],
) -> io::Result<()> {
    let mut list = [7u64; sizes::LIST_LENGTH];
    let edited = capture::edit(n, block, bits, parity, capture, &mut list);
    write!(out, " block {block}")?;
    test_print::outcome(out, ": ", edited)?;
    let capture = test_data::digest(capture);
    let list = test_data::digest(&list);
    writeln!(out, " capture {capture:016x} list {list:016x}")
}

// A client block, whose seven bits behind the 257 are zero, and the parity of its FEC block.
fn edit<W: Write>(out: &mut W, n: u64, g: &mut Generator, capture: &mut [u8]) -> io::Result<()> {
    let mut bits = [0u8; sizes::BLOCK_BYTES];
    let mut parity = [0u8; sizes::PARITY_BYTES];
    g.step();
    let block = g.below(sizes::SUPER_CLIENT_BLOCKS as u64 * (n % 9));
    g.fill(&mut bits);
    g.fill(&mut parity);
    bits[32] &= 128;
    edit_by(out, n, block, &bits, &parity, capture)
}

// Flips a bit of word w, in one of three words.
fn flip_some(g: &mut Generator, capture: &mut [u8], w: usize) {
    g.step();
    let flips = g.below(3) == 0;
    g.step();
    if flips {
        let i = g.below(sizes::WORD_BITS as u64) as usize;
        test_flip::flip(capture, w, test_flip::bit(i));
    }
}

fn flip_all(g: &mut Generator, capture: &mut [u8]) {
    // Kept: a word's bytes stand apart in a capture, so a word is named by its number `w`; there is no slice of words to go through.
    for w in 0..capture.len() / sizes::WORD_BYTES {
        flip_some(g, capture, w);
    }
}

fn read_into<W: Write>(
    out: &mut W,
    what: &str,
    n: u64,
    m0: u64,
    capture: &[u8],
    info: &mut [u8],
    parity: &mut [u8],
) -> io::Result<()> {
    test_print::outcome(out, what, capture::read(n, m0, capture, info, parity))?;
    test_print::inputs(out, test_data::digest(info), test_data::digest(parity))
}

// Into zeros.
fn read<W: Write>(out: &mut W, what: &str, n: u64, m0: u64, capture: &[u8]) -> io::Result<()> {
    let mut info = buffer_sizes::large_space();
    let mut parity = buffer_sizes::small_space();
    let a = buffer_sizes::information(n);
    let b = buffer_sizes::parity(n);
    read_into(
        out,
        what,
        n,
        m0,
        capture,
        &mut info[0..a],
        &mut parity[0..b],
    )
}

fn code_from<W: Write>(
    out: &mut W,
    n: u64,
    m0: u64,
    g: &mut Generator,
    capture: &mut [u8],
    info: &mut [u8],
    parity: &mut [u8],
) -> io::Result<()> {
    g.fill(info);
    g.fill(parity);
    test_print::outcome(out, ": ", capture::code(n, m0, info, parity, capture))?;
    writeln!(out, " capture {:016x}", test_data::digest(capture))
}

fn code<W: Write>(
    out: &mut W,
    n: u64,
    m0: u64,
    g: &mut Generator,
    capture: &mut [u8],
) -> io::Result<()> {
    let mut info = buffer_sizes::large_space();
    let mut parity = buffer_sizes::small_space();
    let a = buffer_sizes::information(n);
    let b = buffer_sizes::parity(n);
    code_from(out, n, m0, g, capture, &mut info[0..a], &mut parity[0..b])
}

fn edit_and_read<W: Write>(
    out: &mut W,
    n: u64,
    m0: u64,
    g: &mut Generator,
    capture: &mut [u8],
) -> io::Result<()> {
    edit(out, n, g, capture)?;
    flip_all(g, capture);
    read(out, " damaged: ", n, m0, capture)
}

// Read with the number before m0 and the one after. One of them has the same half, so that only FEC block 1 tells.
fn read_otherwise<W: Write>(out: &mut W, n: u64, m0: u64, capture: &[u8]) -> io::Result<()> {
    read(out, " m0 one less: ", n, (m0 % 128 + 127) % 128, capture)?;
    read(out, " m0 one more: ", n, (m0 % 128 + 1) % 128, capture)
}

// Where coding is refused the capture stays as it is: zeros, which pass their checks. The second time the edit meets a flipped bit, and some words
// are beyond repair.
fn case<W: Write>(out: &mut W, n: u64, seed: u64, m0: u64, capture: &mut [u8]) -> io::Result<()> {
    let mut g = Generator::start(seed);
    write!(out, "N {n} seed {seed} m0 {m0}")?;
    code(out, n, m0, &mut g, capture)?;
    read_otherwise(out, n, m0, capture)?;
    edit_and_read(out, n, m0, &mut g, capture)?;
    edit_and_read(out, n, m0, &mut g, capture)
}

fn sized<W: Write>(out: &mut W, n: u64, seed: u64, m0: u64) -> io::Result<()> {
    let mut capture = buffer_sizes::large_space();
    let k = buffer_sizes::capture(n);
    case(out, n, seed, m0, &mut capture[0..k])
}

// The first m0, those on both sides of 64, the last two, and the one past them, which is refused; and one between.
fn all_edges<W: Write>(out: &mut W, n: u64) -> io::Result<()> {
    let k = n % 9;
    sized(out, k, 1000 + k, 0)?;
    sized(out, k, 1100 + k, 63)?;
    sized(out, k, 1200 + k, 64)?;
    sized(out, 1, 1300 + k, 17 * (k % 8))?;
    sized(out, k, 1400 + k, 126)?;
    sized(out, k, 1500 + k, 127)?;
    sized(out, k, 1600 + k, 128)
}

pub fn vectors<W: Write>(out: &mut W) -> io::Result<()> {
    for n in 1..9u64 {
        all_edges(out, n)?;
    }
    Ok(())
}
