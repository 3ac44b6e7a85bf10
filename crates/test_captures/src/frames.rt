// Document 01, section "Both sides of each edge": the numbers of super frames, the client blocks and one flip in every word, with what was answered. The
// same calls are made for every number of super frames from 0 to 9. For 0 and 9 the buffers are those of 1 and of 8, so that their lengths are wrong
// as well: number 1 comes first. Digests before and after a call show that a refusal changed nothing.
// What holds a large space is not inlined, or the spaces of several calls would stand on the stack at once.
ghost use Rattle.std.specs.Prelude.{◌≡◌, length};
ghost use Rattle.buffer_sizes.specs.Lengths.{large_bytes};

use std::io::{self, Write};
use test_print::Change;

// The client blocks of a super frame.
const BLOCKS: u64 = sizes::SUPER_CLIENT_BLOCKS as u64;

fn code_into<W: Write>(
    out: &mut W,
    n: u64,
    info: &[u8],
    parity: &[u8],
    capture: &mut [u8],
) -> io::Result<()> {
    let before = test_data::digest(capture);
    let coded = capture::code(n, 7, info, parity, capture);
    let after = test_data::digest(capture);
    write!(out, "N {n}")?;
    test_print::outcome(out, " code: ", coded)?;
    write!(out, " capture{}", Change { before, after })?;
    test_print::inputs(out, test_data::digest(info), test_data::digest(parity))
}

fn code_from<W: Write>(
    out: &mut W,
    n: u64,
    m: u64,
    room: &[u8],
    capture: &mut [u8],
) -> io::Result<()>
    requires { large_bytes ≡ length room.now }
{
    let a = buffer_sizes::information(m);
    let b = a + buffer_sizes::parity(m);
    code_into(out, n, &room[0..a], &room[a..b], capture)
}

// With the information and the parity of m super frames, one made behind the other.
#[inline(never)]
fn code<W: Write>(out: &mut W, n: u64, m: u64, capture: &mut [u8]) -> io::Result<()> {
    let mut room = buffer_sizes::large_space();
    test_input::fill(100 + n % 10, &mut room);
    code_from(out, n, m, &room, capture)
}

fn read_into<W: Write>(
    out: &mut W,
    n: u64,
    capture: &[u8],
    info: &mut [u8],
    parity: &mut [u8],
) -> io::Result<()> {
    let info_before = test_data::digest(info);
    let parity_before = test_data::digest(parity);
    let read = capture::read(n, 7, capture, info, parity);
    write!(out, "N {n}")?;
    test_print::outcome(out, " read, one flip in every word: ", read)?;
    let of_info = Change {
        before: info_before,
        after: test_data::digest(info),
    };
    let of_parity = Change {
        before: parity_before,
        after: test_data::digest(parity),
    };
    writeln!(out, " information{of_info} parity{of_parity}")
}

// Into zeros.
#[inline(never)]
fn read<W: Write>(out: &mut W, n: u64, m: u64, capture: &[u8]) -> io::Result<()> {
    let mut info = buffer_sizes::large_space();
    let mut parity = buffer_sizes::small_space();
    let a = buffer_sizes::information(m);
    let b = buffer_sizes::parity(m);
    read_into(out, n, capture, &mut info[0..a], &mut parity[0..b])
}

// The seven bits behind the 257 are zero.
fn edit<W: Write>(out: &mut W, n: u64, block: u64, capture: &mut [u8]) -> io::Result<()> {
    let bits = [128u8; sizes::BLOCK_BYTES];
    let parity = [90u8; sizes::PARITY_BYTES];
    let mut list = [7u64; sizes::LIST_LENGTH];
    let capture_before = test_data::digest(capture);
    let list_before = test_data::digest(&list);
    let edited = capture::edit(n, block, &bits, &parity, capture, &mut list);
    write!(out, "N {n} edit of block {block}")?;
    test_print::outcome(out, ": ", edited)?;
    let of_capture = Change {
        before: capture_before,
        after: test_data::digest(capture),
    };
    let of_list = Change {
        before: list_before,
        after: test_data::digest(&list),
    };
    writeln!(out, " capture{of_capture} list{of_list}")
}

// Flipped twice the bits are as they were.
fn flipped<W: Write>(out: &mut W, n: u64, m: u64, capture: &mut [u8]) -> io::Result<()> {
    test_flip::flip_in_all(capture);
    read(out, n, m, capture)?;
    test_flip::flip_in_all(capture);
    Ok(())
}

// The last client block, and the first past it; a block far past the end for none.
fn edited<W: Write>(out: &mut W, n: u64, capture: &mut [u8]) -> io::Result<()> {
    let blocks = BLOCKS * (n % 10);
    edit(
        out,
        n,
        (blocks + (10 * BLOCKS - 1)) % (10 * BLOCKS),
        capture,
    )?;
    edit(out, n, blocks, capture)
}

fn case<W: Write>(out: &mut W, n: u64, m: u64, capture: &mut [u8]) -> io::Result<()> {
    code(out, n, m, capture)?;
    flipped(out, n, m, capture)?;
    edited(out, n, capture)
}

// With the buffers of m super frames.
#[inline(never)]
fn sized<W: Write>(out: &mut W, n: u64, m: u64) -> io::Result<()> {
    let mut capture = buffer_sizes::large_space();
    let k = buffer_sizes::capture(m);
    case(out, n, m, &mut capture[0..k])
}

pub fn cases<W: Write>(out: &mut W) -> io::Result<()> {
    for n in 0..10u64 {
        sized(out, n, n.clamp(1, 8))?;
    }
    Ok(())
}
