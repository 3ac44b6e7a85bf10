// Coding, reading and editing one super frame, and the information of its last FEC block. Its capture is coded from the bytes of seed 101.
ghost use Rattle.std.specs.Prelude.{◌≡◌, length};
ghost use Rattle.buffer_sizes.specs.Lengths.{large_bytes};

use crate::lent;
use buffer_sizes::Large;
use std::io::{self, Write};
use test_data::Generator;

// The capture of one super frame.
const CAPTURE_BYTES: usize = sizes::SUPER_CAPTURE_BYTES + sizes::FILLER_BYTES;

// A length is cut to these: a space, and no more, has room for it.
const LARGE: usize = buffer_sizes::LARGE_BYTES;

const SMALL: usize = buffer_sizes::SMALL_BYTES;

// What is too long by one.
const LONG_BLOCK: usize = sizes::BLOCK_BYTES + 1;

const LONG_PARITY: usize = sizes::PARITY_BYTES + 1;

const LONG_LIST: usize = sizes::LIST_LENGTH + 1;

// A call, and its N where that is outside its set.
fn name<W: Write>(out: &mut W, call: &str, n: u64) -> io::Result<()> {
    write!(out, "{call}{}", if n == 0 { " of N 0" } else { "" })
}

// ---- coding

fn code_into<W: Write>(
    out: &mut W,
    n: u64,
    info: &[u8],
    parity: &[u8],
    capture: &mut [u8],
) -> io::Result<()> {
    test_input::fill(999, capture);
    name(out, "code", n)?;
    write!(out, " {} {} {}", info.len(), parity.len(), capture.len())?;
    test_print::outcome(out, ": ", capture::code(n, 7, info, parity, capture))?;
    writeln!(out, " capture {:016x}", test_data::digest(capture))
}

// The parity stands behind the information in one room, which has space for both.
fn code_from<W: Write>(out: &mut W, n: u64, p: u64, room: &[u8]) -> io::Result<()>
    requires { large_bytes ≡ length room.now }
{
    let mut capture = buffer_sizes::large_space();
    let a = lent::length(sizes::SUPER_INFO_BYTES, p).min(1300000);
    let b = a + lent::length(sizes::SUPER_PARITY_BYTES, p / 3).min(100000);
    let k = lent::length(CAPTURE_BYTES, p / 9).min(LARGE);
    code_into(out, n, &room[0..a], &room[a..b], &mut capture[0..k])
}

fn code<W: Write>(out: &mut W, n: u64, p: u64) -> io::Result<()> {
    let mut room = buffer_sizes::large_space();
    test_input::fill(101, &mut room);
    code_from(out, n, p, &room)
}

// ---- reading

fn read_into<W: Write>(
    out: &mut W,
    n: u64,
    capture: &[u8],
    info: &mut [u8],
    parity: &mut [u8],
) -> io::Result<()> {
    test_input::fill(998, info);
    test_input::fill(997, parity);
    name(out, "read", n)?;
    write!(out, " {} {} {}", capture.len(), info.len(), parity.len())?;
    test_print::outcome(out, ": ", capture::read(n, 7, capture, info, parity))?;
    test_print::inputs(out, test_data::digest(info), test_data::digest(parity))
}

// The capture, and zeros behind it.
fn coded() -> Large {
    let mut capture = buffer_sizes::large_space();
    let _ = test_input::code(1, &mut capture[0..CAPTURE_BYTES]);
    capture
}

fn read<W: Write>(out: &mut W, n: u64, p: u64) -> io::Result<()> {
    let k = lent::length(CAPTURE_BYTES, p).min(LARGE);
    let a = lent::length(sizes::SUPER_INFO_BYTES, p / 3).min(LARGE);
    let b = lent::length(sizes::SUPER_PARITY_BYTES, p / 9).min(SMALL);
    let capture = coded();
    let mut info = buffer_sizes::large_space();
    let mut parity = buffer_sizes::small_space();
    read_into(out, n, &capture[0..k], &mut info[0..a], &mut parity[0..b])
}

// ---- editing

fn edit_into<W: Write>(
    out: &mut W,
    n: u64,
    spare: u8,
    bits: &[u8],
    parity: &[u8],
    capture: &mut [u8],
    list: &mut [u64],
) -> io::Result<()> {
    name(out, "edit", n)?;
    let said = lent::spare_said(spare);
    write!(out, "{said} {} {}", bits.len(), parity.len())?;
    write!(out, " {} {}", capture.len(), list.len())?;
    let edited = capture::edit(n, 6, bits, parity, capture, list);
    test_print::outcome(out, ": ", edited)?;
    let capture = test_data::digest(capture);
    let list = test_data::digest(list);
    writeln!(out, " capture {capture:016x} list {list:016x}")
}

// The spare bits are the low seven of byte 32, which stand behind the 257.
fn client(spare: u8) -> [u8; LONG_BLOCK] {
    lent::with_spare(306, 32, 128, spare)
}

fn block_parity() -> [u8; LONG_PARITY] {
    let mut parity = [0u8; LONG_PARITY];
    test_input::fill(307, &mut parity);
    parity
}

fn listed() -> [u64; LONG_LIST] {
    let mut list = [0u64; LONG_LIST];
    Generator::start(996).fill(&mut list);
    list
}

fn edit<W: Write>(out: &mut W, n: u64, spare: u8, p: u64) -> io::Result<()> {
    let i = lent::length(sizes::BLOCK_BYTES, p).min(LONG_BLOCK);
    let j = lent::length(sizes::PARITY_BYTES, p / 3).min(LONG_PARITY);
    let k = lent::length(CAPTURE_BYTES, p / 9).min(LARGE);
    let l = lent::length(sizes::LIST_LENGTH, p / 27).min(LONG_LIST);
    let bits = client(spare);
    let parity = block_parity();
    let mut capture = coded();
    let mut list = listed();
    edit_into(
        out,
        n,
        spare,
        &bits[0..i],
        &parity[0..j],
        &mut capture[0..k],
        &mut list[0..l],
    )
}

// ---- a part

fn part_of<W: Write>(out: &mut W, n: u64, info: &[u8]) -> io::Result<()> {
    name(out, "part", n)?;
    write!(out, " {}", info.len())?;
    let part = capture::information(n, 4, info);
    test_print::outcome(out, ": ", capture::information_answer(n, 4, info))?;
    writeln!(out, " bytes {}", part.len())
}

fn part<W: Write>(out: &mut W, n: u64, p: u64) -> io::Result<()> {
    let mut info = buffer_sizes::large_space();
    test_input::fill(101, &mut info);
    let a = lent::length(sizes::SUPER_INFO_BYTES, p).min(LARGE);
    part_of(out, n, &info[0..a])
}

// ---- all of them; where N is outside its set every buffer is short

pub fn codes<W: Write>(out: &mut W) -> io::Result<()> {
    for p in 0..27u64 {
        code(out, 1, p)?;
    }
    code(out, 0, 13)
}

pub fn reads<W: Write>(out: &mut W) -> io::Result<()> {
    for p in 0..27u64 {
        read(out, 1, p)?;
    }
    read(out, 0, 13)
}

pub fn edits<W: Write>(out: &mut W) -> io::Result<()> {
    for p in 0..162u64 {
        edit(out, 1, (p / 81 % 2) as u8, p % 81)?;
    }
    edit(out, 0, 0, 40)
}

pub fn parts<W: Write>(out: &mut W) -> io::Result<()> {
    for p in 0..3u64 {
        part(out, 1, p)?;
    }
    part(out, 0, 1)
}
