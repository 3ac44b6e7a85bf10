// Opens a capture file that is too large to hold: of what a reader gives, the first bytes are kept and all bytes are counted.
#![tactic(auto)]

use answer::Refused;
use archive::MOST_HEAD_BYTES;
use std::io;
use std::io::{Read, Seek, SeekFrom};

// So many bytes are asked for at once: where much is read, smaller reads would take most of the time.
const SPACE_BYTES: usize = 65536;

// Lists the table of what is read to its end, since it may be no file.
// A read that fails is not the end of the file: then nothing is said of it, not even a refusal.
pub fn read<R: Read>(
    from: &mut R,
    kinds: &mut [u64],
    offsets: &mut [u64],
    lengths: &mut [u64],
) -> io::Result<Result<u64, Refused>> {
    let mut first = [0u8; MOST_HEAD_BYTES];
    let bytes = read_until(from, 0, u64::MAX, &mut first)?;
    Ok(opened(bytes, &first, kinds, offsets, lengths))
}

// Lists the table of a file. One that can seek is asked for its size, and only its first bytes are read; any other is read to its end, as by `read`.
pub fn read_file<F: Read + Seek>(
    from: &mut F,
    kinds: &mut [u64],
    offsets: &mut [u64],
    lengths: &mut [u64],
) -> io::Result<Result<u64, Refused>> {
    let mut first = [0u8; MOST_HEAD_BYTES];
    let bytes = look(from, &mut first)?;
    Ok(opened(bytes, &first, kinds, offsets, lengths))
}

// Of a file that is shorter, no more is handed on than it has.
fn opened(
    bytes: u64,
    first: &[u8; MOST_HEAD_BYTES],
    kinds: &mut [u64],
    offsets: &mut [u64],
    lengths: &mut [u64],
) -> Result<u64, Refused> {
    let kept = bytes.min(MOST_HEAD_BYTES as u64) as usize;
    archive::read(bytes, &first[..kept], kinds, offsets, lengths)
}

// How many bytes the file has.
fn look<F: Read + Seek>(from: &mut F, first: &mut [u8]) -> io::Result<u64> {
    let most = MOST_HEAD_BYTES as u64;
    let start = read_until(from, 0, most, first)?;
    if start < most {
        return Ok(start);
    }
    let bytes = counted(from.seek(SeekFrom::End(0)));
    if most <= bytes {
        return Ok(bytes);
    }
    read_until(from, start, u64::MAX, first)
}

// An error says that the file cannot seek.
fn counted(end: io::Result<u64>) -> u64 {
    end.unwrap_or(0)
}

// Reads on from byte `from` until `most` bytes were seen, or to the end, and answers how many were seen.
fn read_until<R: Read>(reader: &mut R, from: u64, most: u64, first: &mut [u8]) -> io::Result<u64> {
    let mut space = [0u8; SPACE_BYTES];
    let mut bytes = from;
    // Kept: a turn takes as many bytes as a read gives, which is no step of an iterator; `bytes()` would ask for one byte at a time.
    while bytes < most {
        let n = reader.read(&mut space)?;
        if n == 0 {
            return Ok(bytes);
        }
        keep(bytes, &space[..n], first);
        // More than can be counted is counted as the most.
        bytes = bytes.saturating_add(n as u64);
    }
    Ok(bytes)
}

// Puts the part of the file that begins at byte `from` where it belongs in `first`, as far as that reaches.
fn keep(from: u64, part: &[u8], first: &mut [u8]) {
    if first.len() as u64 <= from {
        return;
    }
    let rest = &mut first[from as usize..];
    let n = part.len().min(rest.len());
    rest[..n].copy_from_slice(&part[..n]);
}
