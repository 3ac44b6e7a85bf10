// Writes the table of a capture file, one line an entry, and the line of a refused file: document 02, M-100.
#![tactic(auto)]

use archive::Kind;
use std::io;
use std::io::Write;

// The lines of the first `count` entries.
// Kept: three lists, and a count beside them, as `archive::read` fills them for C.
pub fn print<W: Write>(
    out: &mut W,
    kinds: &[u64; 32],
    offsets: &[u64; 32],
    lengths: &[u64; 32],
    count: u64,
) -> io::Result<()> {
    let bodies = offsets.iter().zip(lengths);
    let entries = kinds.iter().zip(bodies).take(count as usize);
    for (e, (kind, (offset, length))) in entries.enumerate() {
        // Reading refuses a table with a number that is no kind's.
        let kind = Kind::try_from(*kind).unwrap_or(Kind::Capture);
        writeln!(out, "{} {kind} {offset} {length}", e + 1)?;
    }
    Ok(())
}

// The number alone: a place is no part of the line.
pub fn print_refused<W: Write>(out: &mut W, number: u64) -> io::Result<()> {
    writeln!(out, "refused {number}")
}
