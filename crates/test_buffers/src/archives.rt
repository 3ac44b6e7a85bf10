// Writing and reading the head of a capture file with two bodies, of five and seven bytes.
use crate::lent;
use archive::MOST_ENTRIES;
use std::io::{self, Write};
use test_data::Generator;

// The bytes of the head, and of the whole file.
const HEAD: usize = archive::BEFORE_ENTRIES + 2 * archive::ENTRY_BYTES;

const FILE: usize = HEAD + 12;

// What is too long by one.
const LONG_HEAD: usize = HEAD + 1;

const LONG_FILE: usize = FILE + 1;

const LONG_LIST: usize = MOST_ENTRIES + 1;

fn write_into<W: Write>(
    out: &mut W,
    count: u64,
    kinds: &[u64],
    lengths: &[u64],
    head: &mut [u8],
) -> io::Result<()> {
    test_input::fill(999, head);
    let said = if count == 0 { " of count 0" } else { "" };
    write!(
        out,
        "archive write{said} {} {} {}",
        kinds.len(),
        lengths.len(),
        head.len()
    )?;
    test_print::outcome(out, ": ", archive::write(count, kinds, lengths, head))?;
    writeln!(out, " head {:016x}", test_data::digest(head))
}

fn write<W: Write>(out: &mut W, count: u64, p: u64) -> io::Result<()> {
    let a = lent::length(2, p).min(3);
    let b = lent::length(2, p / 3).min(3);
    let k = lent::length(HEAD, p / 9).min(LONG_HEAD);
    let kinds = [1u64, 3, 2];
    let lengths = [5u64, 7, 9];
    let mut head = [0u8; LONG_HEAD];
    write_into(out, count, &kinds[0..a], &lengths[0..b], &mut head[0..k])
}

fn read_into<W: Write>(
    out: &mut W,
    first: &[u8],
    kinds: &mut [u64],
    offsets: &mut [u64],
    lengths: &mut [u64],
) -> io::Result<()> {
    write!(out, "archive read {} {}", first.len(), kinds.len())?;
    write!(out, " {} {}", offsets.len(), lengths.len())?;
    let read = archive::read(FILE as u64, first, kinds, offsets, lengths);
    test_print::outcome(out, ": ", read)?;
    let kinds = test_data::digest(kinds);
    let offsets = test_data::digest(offsets);
    let lengths = test_data::digest(lengths);
    writeln!(
        out,
        " kinds {kinds:016x} offsets {offsets:016x} lengths {lengths:016x}"
    )
}

// A list that is full of something.
fn list() -> [u64; LONG_LIST] {
    let mut numbers = [0u64; LONG_LIST];
    Generator::start(996).fill(&mut numbers);
    numbers
}

// The file whose bodies are zeros.
fn file() -> [u8; LONG_FILE] {
    let mut bytes = [0u8; LONG_FILE];
    let _ = archive::write(2, &[1, 3], &[5, 7], &mut bytes[0..HEAD]);
    bytes
}

fn read<W: Write>(out: &mut W, p: u64) -> io::Result<()> {
    let i = lent::length(FILE, p).min(LONG_FILE);
    let a = lent::length(MOST_ENTRIES, p / 3).min(LONG_LIST);
    let b = lent::length(MOST_ENTRIES, p / 9).min(LONG_LIST);
    let c = lent::length(MOST_ENTRIES, p / 27).min(LONG_LIST);
    let first = file();
    let mut kinds = list();
    let mut offsets = list();
    let mut lengths = list();
    read_into(
        out,
        &first[0..i],
        &mut kinds[0..a],
        &mut offsets[0..b],
        &mut lengths[0..c],
    )
}

// Where the count is outside its set every buffer is short.
pub fn writes<W: Write>(out: &mut W) -> io::Result<()> {
    for p in 0..27u64 {
        write(out, 2, p)?;
    }
    write(out, 0, 13)
}

pub fn reads<W: Write>(out: &mut W) -> io::Result<()> {
    for p in 0..81u64 {
        read(out, p)?;
    }
    Ok(())
}
