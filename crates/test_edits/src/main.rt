// Edits captures of 1, 2 and 8 super frames and writes each answer with digests of the capture and of the list. A granted edit is compared with coding
// afresh and read back. Then edits that are refused by each number, edits beside flipped bits, and edits of a capture that was never coded.
// What holds a large space is not inlined, or the spaces of several calls would stand on the stack at once.
#![tactic(auto)]

ghost use Rattle.std.specs.Prelude.{◌≡◌, length};
ghost use Rattle.buffer_sizes.specs.Lengths.{large_bytes};

use std::io::{self, Write};
use test_data::Generator;

// A list that is too long by one.
const LONG_LIST: usize = sizes::LIST_LENGTH + 1;

// The capture of one super frame, in bytes, and its words.
const ONE_BYTES: usize = sizes::SUPER_CAPTURE_BYTES + sizes::FILLER_BYTES;

const ONE_WORDS: usize = sizes::SUPER_ELEMENTS + sizes::LONGEST_WAIT;

// An edit of a block of n super frames, with so many bytes of the client block that is made for it, in which spare bits may be set, of its parity, and so
// many numbers in the list.
#[derive(Clone, Copy)]
struct Call {
    n: u64,
    block: u64,
    spare: u8,
    client: usize,
    parity: usize,
    list: usize,
}

// ---- what is made

// The client block that an edit of a block puts in. The spare bits are the low seven of byte 32, which stand behind the 257.
fn client_of(block: u64, spare: u8) -> [u8; sizes::BLOCK_BYTES] {
    let mut bits = [0u8; sizes::BLOCK_BYTES];
    test_input::fill(300 + block % 100000, &mut bits);
    bits[32] = bits[32] & 128 | spare;
    bits
}

// The parity that an edit of a block puts in.
fn parity_of(block: u64) -> [u8; sizes::PARITY_BYTES] {
    let mut parity = [0u8; sizes::PARITY_BYTES];
    test_input::fill(301 + block % 100000, &mut parity);
    parity
}

// What the list is full of before an edit.
fn list_of() -> [u64; LONG_LIST] {
    let mut list = [0u64; LONG_LIST];
    Generator::start(996).fill(&mut list);
    list
}

// ---- what a capture is coded from

// Puts b to bit i of the bytes s.
fn put_bit(s: &mut [u8], i: usize, b: u8) {
    if bits::bit_at(s, i) != b {
        if let Some(x) = s.get_mut(i / 8) {
            *x ^= 128 >> (i % 8);
        }
    }
}

// Puts the first bits of `new` to the bytes s, from bit `from` on.
fn put_bits(s: &mut [u8], from: usize, new: &[u8], count: usize) {
    // Kept: bits have no slice of their own, and both sides are named by the bit's number `i`.
    for i in 0..count {
        put_bit(s, from.wrapping_add(i), bits::bit_at(new, i));
    }
}

// Puts what an edit of a block puts in to a room with the information of n super frames and, behind it, their parity.
fn put_block(n: u64, block: u64, room: &mut [u8]) {
    let b = (block % 100000) as usize;
    put_bits(
        room,
        sizes::BLOCK_BITS * b,
        &client_of(block, 0),
        sizes::BLOCK_BITS,
    );
    let from = 8 * buffer_sizes::information(n) + sizes::PARITY_BITS * (b / sizes::CLIENT_BLOCKS);
    put_bits(room, from, &parity_of(block), sizes::PARITY_BITS);
}

// Fills a room with the information and the parity, as the edit of a block should leave them, if there is one.
fn fill_input(n: u64, edited: Option<u64>, room: &mut [u8]) {
    test_input::fill_room(n, room);
    if let Some(block) = edited {
        put_block(n, block, room);
    }
}

#[inline(never)]
fn code(n: u64, edited: Option<u64>, capture: &mut [u8]) {
    let mut room = buffer_sizes::large_space();
    fill_input(n, edited, &mut room);
    let _ = test_input::code_room(n, &room, capture);
}

// ---- an edit

impl Call {
    // With buffers of the stated lengths.
    fn stated(n: u64, block: u64) -> Call {
        Call {
            n,
            block,
            spare: 0,
            client: sizes::BLOCK_BYTES,
            parity: sizes::PARITY_BYTES,
            list: sizes::LIST_LENGTH,
        }
    }

    // Edits the capture by what these buffers hold and writes what came. Whether it was granted.
    fn edit_by<W: Write>(
        self,
        out: &mut W,
        client: &[u8],
        parity: &[u8],
        capture: &mut [u8],
        list: &mut [u64],
    ) -> io::Result<bool> {
        let r = capture::edit(self.n, self.block, client, parity, capture, list);
        test_print::outcome(out, ": ", r)?;
        let capture = test_data::digest(capture);
        let list = test_data::digest(list);
        writeln!(out, " capture {capture:016x} list {list:016x}")?;
        Ok(r.is_ok())
    }

    // The same by what is made for the block.
    fn edit<W: Write>(self, out: &mut W, capture: &mut [u8]) -> io::Result<bool> {
        let client = client_of(self.block, self.spare);
        let parity = parity_of(self.block);
        let mut list = list_of();
        let i = self.client.min(sizes::BLOCK_BYTES);
        let j = self.parity.min(sizes::PARITY_BYTES);
        let k = self.list.min(LONG_LIST);
        self.edit_by(out, &client[0..i], &parity[0..j], capture, &mut list[0..k])
    }
}

fn yes_or_no(truth: bool) -> &'static str {
    if truth { "yes" } else { "no" }
}

// ---- what a granted edit leaves

fn codes_to(n: u64, block: u64, capture: &[u8], other: &mut [u8]) -> bool {
    code(n, Some(block), other);
    capture == other
}

// Whether the capture is what coding afresh gives.
#[inline(never)]
fn is_afresh(n: u64, block: u64, capture: &[u8]) -> bool {
    let mut other = buffer_sizes::large_space();
    let k = buffer_sizes::capture(n);
    codes_to(n, block, capture, &mut other[0..k])
}

fn fills(n: u64, room: &[u8], info: &[u8], parity: &[u8]) -> bool
    requires { large_bytes ≡ length room.now }
{
    let a = buffer_sizes::information(n);
    let b = a + buffer_sizes::parity(n);
    info == &room[0..a] && parity == &room[a..b]
}

// Whether that is what coding afresh takes.
#[inline(never)]
fn is_input(n: u64, block: u64, info: &[u8], parity: &[u8]) -> bool {
    let mut room = buffer_sizes::large_space();
    fill_input(n, Some(block), &mut room);
    fills(n, &room, info, parity)
}

fn reads_into(n: u64, block: u64, capture: &[u8], info: &mut [u8], parity: &mut [u8]) -> bool {
    let r = capture::read(n, test_input::first_number(n), capture, info, parity);
    r == Ok(0) && is_input(n, block, info, parity)
}

// Whether the capture reads back to that, with nothing to repair.
#[inline(never)]
fn reads_back(n: u64, block: u64, capture: &[u8]) -> bool {
    let mut info = buffer_sizes::large_space();
    let mut parity = buffer_sizes::small_space();
    let a = buffer_sizes::information(n);
    let b = buffer_sizes::parity(n);
    reads_into(n, block, capture, &mut info[0..a], &mut parity[0..b])
}

fn compare<W: Write>(out: &mut W, n: u64, block: u64, capture: &[u8]) -> io::Result<()> {
    let afresh = yes_or_no(is_afresh(n, block, capture));
    let back = yes_or_no(reads_back(n, block, capture));
    writeln!(
        out,
        "N {n} block {block}: as coded afresh {afresh} reads back {back}"
    )
}

// ---- edits of a capture as it was coded

fn edit_coded<W: Write>(
    out: &mut W,
    frames: u64,
    call: Call,
    capture: &mut [u8],
) -> io::Result<()> {
    code(frames, None, capture);
    if call.edit(out, capture)? {
        compare(out, frames, call.block, capture)?;
    }
    Ok(())
}

// Edits a capture that has as many super frames as `frames` says. A granted edit is compared with coding afresh and read back.
#[inline(never)]
fn edited<W: Write>(out: &mut W, frames: u64, call: Call) -> io::Result<()> {
    let mut capture = buffer_sizes::large_space();
    let k = buffer_sizes::capture(frames);
    edit_coded(out, frames, call, &mut capture[0..k])
}

// All is as stated, but for the numbers.
fn numbered<W: Write>(out: &mut W, frames: u64, n: u64, block: u64) -> io::Result<()> {
    write!(out, "N {n} block {block}")?;
    edited(out, frames, Call::stated(n, block))
}

fn grant<W: Write>(out: &mut W, n: u64, block: u64) -> io::Result<()> {
    numbered(out, n, n, block)
}

fn say_coded_in<W: Write>(out: &mut W, n: u64, capture: &mut [u8]) -> io::Result<()> {
    code(n, None, capture);
    writeln!(out, "N {n} coded: {:016x}", test_data::digest(capture))
}

#[inline(never)]
fn say_coded<W: Write>(out: &mut W, n: u64) -> io::Result<()> {
    let mut capture = buffer_sizes::large_space();
    let k = buffer_sizes::capture(n);
    say_coded_in(out, n, &mut capture[0..k])
}

// The capture as it was coded, and the first block past its end.
fn past_end<W: Write>(out: &mut W, n: u64) -> io::Result<()> {
    say_coded(out, n)?;
    numbered(out, n, n, sizes::SUPER_CLIENT_BLOCKS as u64 * (n % 9))
}

// Refused for its lengths or its spare bits: an edit in the capture of one super frame.
fn refused<W: Write>(out: &mut W, what: &str, call: Call) -> io::Result<()> {
    write!(out, "{what}")?;
    edited(out, 1, call)
}

// ---- edits of block 6 in a capture with flipped bits

// Flips bits, each of a word.
fn flip(flips: &[(usize, usize)], capture: &mut [u8]) {
    for (w, i) in flips {
        test_flip::flip(capture, *w, test_flip::bit(*i));
    }
}

fn flipped_in<W: Write>(
    out: &mut W,
    flips: &[(usize, usize)],
    spare: u8,
    capture: &mut [u8],
) -> io::Result<Option<bool>> {
    code(1, None, capture);
    flip(flips, capture);
    let call = Call {
        spare,
        ..Call::stated(1, 6)
    };
    if !call.edit(out, capture)? {
        return Ok(None);
    }
    flip(flips, capture);
    Ok(Some(is_afresh(1, 6, capture)))
}

// Edits where bits are wrong. A granted edit keeps them so: flipped back, the capture is that of the edit without them, if so it says.
#[inline(never)]
fn flipped<W: Write>(out: &mut W, flips: &[(usize, usize)], spare: u8) -> io::Result<Option<bool>> {
    let mut capture = buffer_sizes::large_space();
    flipped_in(out, flips, spare, &mut capture[0..ONE_BYTES])
}

// Two bits of word w are wrong, which is not listed.
fn beside<W: Write>(out: &mut W, w: usize) -> io::Result<()> {
    write!(out, "word {w} wrong but not listed")?;
    if let Some(kept) = flipped(out, &[(w, 5), (w, 127)], 0)? {
        writeln!(
            out,
            "word {w} wrong but not listed: kept {}",
            yes_or_no(kept)
        )?;
    }
    Ok(())
}

// Number 9: bit i of word w is wrong, which is one of those to be listed.
fn listed_wrong<W: Write>(out: &mut W, w: usize, i: usize) -> io::Result<()> {
    write!(out, "word {w} bit {i} wrong")?;
    flipped(out, &[(w, i)], 0)?;
    Ok(())
}

// ---- refused edits

// Number 2, also where a spare bit is set.
fn lengths<W: Write>(out: &mut W) -> io::Result<()> {
    let right = Call::stated(1, 6);
    refused(out, "list of 144", Call { list: 144, ..right })?;
    refused(out, "list of 146", Call { list: 146, ..right })?;
    refused(
        out,
        "client block of 32 bytes",
        Call {
            client: 32,
            ..right
        },
    )?;
    refused(
        out,
        "parity of 2047 bytes",
        Call {
            parity: 2047,
            ..right
        },
    )?;
    refused(out, "capture of N 1 as N 2", Call { n: 2, ..right })?;
    refused(
        out,
        "spare bit set and list of 144",
        Call {
            spare: 1,
            list: 144,
            ..right
        },
    )
}

// Number 3, also where a word to be listed is wrong.
fn spare_bits<W: Write>(out: &mut W) -> io::Result<()> {
    let right = Call::stated(1, 6);
    refused(out, "lowest spare bit set", Call { spare: 1, ..right })?;
    refused(out, "highest spare bit set", Call { spare: 64, ..right })?;
    write!(out, "spare bit set and listed word wrong")?;
    flipped(out, &[(15, 0)], 1)?;
    Ok(())
}

// Number 9.
fn wrong_words<W: Write>(out: &mut W) -> io::Result<()> {
    listed_wrong(out, 15, 0)?;
    listed_wrong(out, 15, 127)?;
    listed_wrong(out, 2672, 77)?;
    write!(out, "words 15 and 2672 wrong")?;
    flipped(out, &[(2672, 5), (15, 6)], 0)?;
    Ok(())
}

// ---- edits of a capture that was never coded

// Puts the code word of a made element to word w, which holds zeros before.
fn put_word(g: &mut Generator, w: usize, capture: &mut [u8]) {
    let mut e = [0u8; 15];
    g.fill(&mut e);
    test_flip::flip(capture, w, hamming::encode(bits_copy::word_from(&e, 0)));
}

// Every slot, filler too.
fn fill_words(seed: u64, capture: &mut [u8]) {
    let mut g = Generator::start(seed);
    // Kept: a word's bytes stand apart in a capture, so a word is named by its number `w`; there is no slice of words to go through.
    for w in 0..ONE_WORDS {
        put_word(&mut g, w, capture);
    }
}

fn edit_twice<W: Write>(out: &mut W, block: u64, capture: &mut [u8]) -> io::Result<()> {
    fill_words(400 + block % 100000, capture);
    let before = test_data::digest(capture);
    writeln!(
        out,
        "never coded block {block} before: capture {before:016x}"
    )?;
    write!(out, "never coded block {block}")?;
    Call::stated(1, block).edit(out, capture)?;
    write!(out, "never coded block {block} again")?;
    Call::stated(1, block).edit(out, capture)?;
    Ok(())
}

// Valid words that no input was coded to. The same edit once more changes nothing.
#[inline(never)]
fn never_coded<W: Write>(out: &mut W, block: u64) -> io::Result<()> {
    let mut capture = buffer_sizes::large_space();
    edit_twice(out, block, &mut capture[0..ONE_BYTES])
}

// ---- all of them

fn grants<W: Write>(out: &mut W) -> io::Result<()> {
    past_end(out, 1)?;
    for block in &[0, 6, 951, 952, 4759] {
        grant(out, 1, *block)?;
    }
    past_end(out, 2)?;
    grant(out, 2, 4759)?;
    grant(out, 2, 4760)?;
    past_end(out, 8)?;
    grant(out, 8, 38079)
}

fn refusals<W: Write>(out: &mut W) -> io::Result<()> {
    numbered(out, 1, 0, 0)?;
    numbered(out, 1, 9, 0)?;
    numbered(out, 1, 1, u64::MAX)?;
    lengths(out)?;
    spare_bits(out)?;
    wrong_words(out)
}

fn main(rt: HostRuntime) -> io::Result<()> {
    let mut out = io::writer(&rt);
    let before = test_data::digest(&list_of()[0..sizes::LIST_LENGTH]);
    writeln!(out, "list before: {before:016x}")?;
    grants(&mut out)?;
    refusals(&mut out)?;
    beside(&mut out, 0)?;
    beside(&mut out, 170)?;
    never_coded(&mut out, 6)?;
    never_coded(&mut out, 4759)
}
