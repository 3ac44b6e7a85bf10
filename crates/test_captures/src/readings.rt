// Reads captures of 1 and of 8 super frames: as they were coded, with one bit flipped in every word, refused by each number at its first and at its
// last place, by two numbers at once, and for numbers and lengths. Digests show what the buffers hold after each call.
// What holds a large space is not inlined, or the spaces of several calls would stand on the stack at once.
use crate::call::{Call, LARGE, SMALL};
use std::io::{self, Write};

// The FEC blocks of eight super frames.
const MOST_BLOCKS: usize = sizes::MOST_FRAMES * sizes::FEC_BLOCKS;

// Bits of a word that are flipped, and which word that is.
#[derive(Clone, Copy)]
struct Flip {
    word: usize,
    bits: [u8; 16],
}

// ---- what was made

// The digest of the bytes that a seed makes, from one place to another.
#[inline(never)]
fn digest_of(seed: u64, from: usize, to: usize) -> u64 {
    let mut room = buffer_sizes::large_space();
    test_input::fill(seed, &mut room);
    let to = to.min(LARGE);
    test_data::digest(&room[from.min(to)..to])
}

// ---- a call

// Writes what the buffers are full of before a call, at the lengths given.
fn say_before<W: Write>(out: &mut W, info: usize, parity: usize) -> io::Result<()> {
    let info = digest_of(998, 0, info);
    let parity = digest_of(997, 0, parity);
    writeln!(out, " information {info:016x} parity {parity:016x}")
}

fn read_in<W: Write>(
    out: &mut W,
    call: Call,
    capture: &[u8],
    info: &mut [u8],
    parity: &mut [u8],
) -> io::Result<()> {
    test_input::fill(998, info);
    test_input::fill(997, parity);
    let read = capture::read(call.n, call.m0, capture, info, parity);
    test_print::outcome(out, ": ", read)?;
    test_print::inputs(out, test_data::digest(info), test_data::digest(parity))
}

// Reads a capture into buffers of the call's lengths and writes what came.
#[inline(never)]
fn read<W: Write>(out: &mut W, call: Call, capture: &[u8]) -> io::Result<()> {
    let mut i = buffer_sizes::large_space();
    let mut p = buffer_sizes::small_space();
    let a = call.info.min(LARGE);
    let b = call.parity.min(SMALL);
    read_in(out, call, capture, &mut i[0..a], &mut p[0..b])
}

// ---- flips

// The word that has bits 0 and 1 only.
fn two_bits() -> [u8; 16] {
    let mut v = [0; 16];
    v[0] = 192;
    v
}

// The code word of the element that has only the bit of its super frame's bit p. A word that passes its checks still does with it added.
fn sound(p: usize) -> [u8; 16] {
    hamming::encode(test_flip::bit(p % sizes::ELEMENT_BITS))
}

// The word that holds bit p of super frame f.
fn word_of(f: usize, p: usize) -> usize {
    let e = sizes::SUPER_ELEMENTS * (f % 8) + p % sizes::SUPER_BITS / sizes::ELEMENT_BITS;
    line::slot(e as u32)
}

// Bit p of super frame f, in a word that still passes its checks.
fn frame_bit(f: usize, p: usize) -> Flip {
    Flip {
        word: word_of(f, p),
        bits: sound(p),
    }
}

// Bit i of FEC block t.
fn block_bit(t: usize, i: usize) -> Flip {
    let p = sizes::FEC_BITS * (t % sizes::FEC_BLOCKS) + i % sizes::FEC_BITS;
    frame_bit(t / sizes::FEC_BLOCKS, p)
}

fn last_word(n: u64) -> usize {
    (sizes::SUPER_ELEMENTS as u64 * (n % 9)) as usize + sizes::LONGEST_WAIT - 1
}

fn last_block(n: u64) -> usize {
    ((sizes::FEC_BLOCKS as u64 * (n % 9)) as usize + (MOST_BLOCKS - 1)) % MOST_BLOCKS
}

fn flip_all(flips: &[Flip], capture: &mut [u8]) {
    for f in flips {
        test_flip::flip(capture, f.word, f.bits);
    }
}

fn flipped_in<W: Write>(
    out: &mut W,
    call: Call,
    flips: &[Flip],
    capture: &mut [u8],
) -> io::Result<()> {
    let _ = test_input::code(call.n, capture);
    flip_all(flips, capture);
    read(out, call, capture)
}

#[inline(never)]
fn counted_from<W: Write>(out: &mut W, n: u64, m0: u64, flips: &[Flip]) -> io::Result<()> {
    let mut capture = buffer_sizes::large_space();
    let k = buffer_sizes::capture(n);
    flipped_in(out, Call::stated(n, m0), flips, &mut capture[0..k])
}

// Reads with bits flipped.
fn flipped<W: Write>(out: &mut W, n: u64, flips: &[Flip]) -> io::Result<()> {
    counted_from(out, n, test_input::first_number(n), flips)
}

// ---- one number applies

fn as_coded<W: Write>(out: &mut W, n: u64) -> io::Result<()> {
    write!(out, "N {n} undamaged")?;
    flipped(out, n, &[])
}

// Number 6. One of the neighbours of m0 has the same half, so that only FEC block 1 tells.
fn counted_otherwise<W: Write>(out: &mut W, n: u64) -> io::Result<()> {
    let m0 = test_input::first_number(n) % 128;
    write!(out, "N {n} m0 one more")?;
    counted_from(out, n, (m0 + 1) % 128, &[])?;
    write!(out, "N {n} m0 one less")?;
    counted_from(out, n, (m0 + 127) % 128, &[])?;
    write!(out, "N {n} m0 64 more")?;
    counted_from(out, n, (m0 + 64) % 128, &[])
}

fn all_in<W: Write>(out: &mut W, n: u64, capture: &mut [u8]) -> io::Result<()> {
    let _ = test_input::code(n, capture);
    test_flip::flip_in_all(capture);
    read(out, Call::stated(n, test_input::first_number(n)), capture)
}

#[inline(never)]
fn every_word<W: Write>(out: &mut W, n: u64) -> io::Result<()> {
    let mut capture = buffer_sizes::large_space();
    let k = buffer_sizes::capture(n);
    write!(out, "N {n} one flip in every word")?;
    all_in(out, n, &mut capture[0..k])
}

// Number 4: a word, which is filler, beyond repair.
fn beyond<W: Write>(out: &mut W, n: u64, word: usize) -> io::Result<()> {
    write!(out, "N {n} two flips in word {word}")?;
    flipped(
        out,
        n,
        &[Flip {
            word,
            bits: two_bits(),
        }],
    )
}

// Number 5: a word, which is filler, not zero.
fn filler<W: Write>(out: &mut W, n: u64, word: usize) -> io::Result<()> {
    write!(out, "N {n} filler not zero in word {word}")?;
    flipped(
        out,
        n,
        &[Flip {
            word,
            bits: sound(0),
        }],
    )
}

fn words<W: Write>(out: &mut W, n: u64) -> io::Result<()> {
    beyond(out, n, 0)?;
    beyond(out, n, last_word(n))?;
    filler(out, n, 0)?;
    filler(out, n, last_word(n))
}

// Numbers 6 and 7: bit i of FEC block t.
fn block<W: Write>(out: &mut W, n: u64, t: usize, i: usize) -> io::Result<()> {
    write!(out, "N {n} turned bit {i} of block {t}")?;
    flipped(out, n, &[block_bit(t, i)])
}

fn blocks<W: Write>(out: &mut W, n: u64) -> io::Result<()> {
    block(out, n, 0, 244701)?;
    block(out, n, last_block(n), 244696)?;
    block(out, n, 0, 0)?;
    block(out, n, last_block(n), 244695)
}

// Number 8: bit p of super frame f.
fn pad<W: Write>(out: &mut W, n: u64, f: usize, p: usize) -> io::Result<()> {
    write!(out, "N {n} turned bit {p} of super frame {f}")?;
    flipped(out, n, &[frame_bit(f, p)])
}

fn pads<W: Write>(out: &mut W, n: u64) -> io::Result<()> {
    pad(out, n, 0, 1305430)?;
    pad(out, n, last_block(n) / sizes::FEC_BLOCKS, 1306143)
}

// ---- two numbers apply: the smaller one wins, wherever it stands

fn mbas_and_crc<W: Write>(out: &mut W, n: u64) -> io::Result<()> {
    write!(out, "N {n} last MBAS and first CRC wrong")?;
    flipped(out, n, &[block_bit(last_block(n), 244696), frame_bit(0, 0)])
}

fn word_and_filler<W: Write>(out: &mut W, n: u64) -> io::Result<()> {
    write!(out, "N {n} last word beyond repair, first filler not zero")?;
    let last = Flip {
        word: last_word(n),
        bits: two_bits(),
    };
    let first = Flip {
        word: 0,
        bits: sound(0),
    };
    flipped(out, n, &[last, first])
}

fn crc_and_pad<W: Write>(out: &mut W, n: u64) -> io::Result<()> {
    write!(out, "N {n} last CRC and first pad wrong")?;
    flipped(
        out,
        n,
        &[block_bit(last_block(n), 244695), frame_bit(0, 1305430)],
    )
}

// One number applies twice: the smaller place wins.
fn crc_twice<W: Write>(out: &mut W, n: u64) -> io::Result<()> {
    write!(out, "N {n} CRC of block 3 and of the last wrong")?;
    flipped(out, n, &[block_bit(last_block(n), 0), block_bit(3, 0)])
}

// A filler word is looked at after repair.
fn repaired_filler<W: Write>(out: &mut W, n: u64) -> io::Result<()> {
    write!(
        out,
        "N {n} last filler not zero, its only element bit flipped"
    )?;
    let word = last_word(n);
    let filled = Flip {
        word,
        bits: sound(0),
    };
    let beside = Flip {
        word,
        bits: test_flip::bit(0),
    };
    flipped(out, n, &[filled, beside])
}

// Nothing guards the parity.
fn parity_flipped<W: Write>(out: &mut W, n: u64) -> io::Result<()> {
    write!(out, "N {n} last parity bit turned")?;
    flipped(out, n, &[block_bit(last_block(n), 261085)])
}

// ---- all of n super frames

fn say_made<W: Write>(out: &mut W, n: u64) -> io::Result<()> {
    let a = buffer_sizes::information(n);
    let b = a + buffer_sizes::parity(n);
    let info = digest_of(100 + n % 9, 0, a);
    let parity = digest_of(100 + n % 9, a, b);
    writeln!(out, " information {info:016x} parity {parity:016x}")
}

fn start<W: Write>(out: &mut W, n: u64) -> io::Result<()> {
    write!(out, "N {n} coded from:")?;
    say_made(out, n)?;
    write!(out, "N {n} buffers before:")?;
    say_before(out, buffer_sizes::information(n), buffer_sizes::parity(n))
}

fn readings<W: Write>(out: &mut W, n: u64) -> io::Result<()> {
    start(out, n)?;
    every_word(out, n)?;
    words(out, n)?;
    blocks(out, n)?;
    pads(out, n)?;
    mbas_and_crc(out, n)?;
    word_and_filler(out, n)?;
    crc_and_pad(out, n)?;
    crc_twice(out, n)?;
    repaired_filler(out, n)?;
    parity_flipped(out, n)?;
    as_coded(out, n)?;
    counted_otherwise(out, n)
}

// ---- numbers and lengths

#[inline(never)]
fn read_zeros<W: Write>(out: &mut W, call: Call) -> io::Result<()> {
    let zeros = buffer_sizes::large_space();
    read(out, call, &zeros[0..call.capture.min(LARGE)])
}

// A call that is refused for its numbers or lengths, whatever the capture holds.
fn refused<W: Write>(out: &mut W, what: &str, call: Call) -> io::Result<()> {
    write!(out, "{what} before:")?;
    say_before(out, call.info, call.parity)?;
    write!(out, "{what}")?;
    read_zeros(out, call)
}

fn refusals<W: Write>(out: &mut W) -> io::Result<()> {
    let right = Call::stated(1, 7);
    refused(out, "N 0", Call { n: 0, ..right })?;
    refused(out, "N 9", Call { n: 9, ..right })?;
    refused(out, "m0 128", Call { m0: 128, ..right })?;
    refused(
        out,
        "capture one byte short",
        Call {
            capture: 183295,
            ..right
        },
    )?;
    refused(
        out,
        "information one byte long",
        Call {
            info: 152916,
            ..right
        },
    )?;
    refused(
        out,
        "parity one byte short",
        Call {
            parity: 10239,
            ..right
        },
    )
}

pub fn cases<W: Write>(out: &mut W) -> io::Result<()> {
    readings(out, 1)?;
    readings(out, 8)?;
    refusals(out)
}
