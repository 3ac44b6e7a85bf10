// Codes made inputs of 1, 2, 3 and 8 super frames, and of one with the edges of m0, and writes each answer with a digest of the capture; then calls
// that are refused, with digests that show the capture unchanged.
// What holds a large space is not inlined, or the spaces of several calls would stand on the stack at once.
ghost use Rattle.std.specs.Prelude.{◌≡◌, length};
ghost use Rattle.buffer_sizes.specs.Lengths.{large_bytes};

use crate::call::{Call, LARGE};
use std::io::{self, Write};
use test_print::Change;

// The capture stands full of bytes made from the seed 999.
fn code_into<W: Write>(
    out: &mut W,
    call: Call,
    info: &[u8],
    parity: &[u8],
    capture: &mut [u8],
) -> io::Result<()> {
    test_input::fill(999, capture);
    let before = test_data::digest(capture);
    let coded = capture::code(call.n, call.m0, info, parity, capture);
    let after = test_data::digest(capture);
    test_print::outcome(out, ": ", coded)?;
    match coded {
        Ok(_) => writeln!(out, " digest {after:016x}"),
        Err(_) => writeln!(out, "{}", Change { before, after }),
    }
}

#[inline(never)]
fn code_from<W: Write>(out: &mut W, call: Call, room: &[u8]) -> io::Result<()>
    requires { large_bytes ≡ length room.now }
{
    let mut space = buffer_sizes::large_space();
    let a = call.info.min(1300000);
    let b = a + call.parity.min(100000);
    let k = call.capture.min(LARGE);
    code_into(out, call, &room[0..a], &room[a..b], &mut space[0..k])
}

// The information is made from the seed 100 + n, and the parity behind it.
#[inline(never)]
fn code<W: Write>(out: &mut W, call: Call) -> io::Result<()> {
    let mut room = buffer_sizes::large_space();
    test_input::fill_room(call.n, &mut room);
    code_from(out, call, &room)
}

fn granted<W: Write>(out: &mut W, n: u64, m0: u64) -> io::Result<()> {
    write!(out, "N {n} m0 {m0}")?;
    code(out, Call::stated(n, m0))
}

fn refused<W: Write>(out: &mut W, name: &str, call: Call) -> io::Result<()> {
    write!(out, "{name}")?;
    code(out, call)
}

fn refusals<W: Write>(out: &mut W) -> io::Result<()> {
    let right = Call::stated(1, 7);
    refused(out, "N 0", Call { n: 0, ..right })?;
    refused(out, "N 9", Call { n: 9, ..right })?;
    refused(out, "m0 128", Call { m0: 128, ..right })?;
    refused(
        out,
        "information one byte short",
        Call {
            info: 152914,
            ..right
        },
    )?;
    refused(
        out,
        "parity one byte long",
        Call {
            parity: 10241,
            ..right
        },
    )?;
    refused(
        out,
        "capture one byte short",
        Call {
            capture: 183295,
            ..right
        },
    )
}

pub fn cases<W: Write>(out: &mut W) -> io::Result<()> {
    granted(out, 1, 7)?;
    granted(out, 2, 14)?;
    granted(out, 3, 21)?;
    granted(out, 8, 56)?;

    // The first m0, those on both sides of 64, and the last two.
    for m0 in &[0, 63, 64, 126, 127] {
        granted(out, 1, *m0)?;
    }
    refusals(out)
}
