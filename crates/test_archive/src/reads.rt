// Heads read, cut off, changed, and refused by each number. Each group of cases is a function; the order is that of second/README.md.
use crate::cases::{LARGE, READS, SIZES, SOME, Size};
use crate::files::{self, Swap};
use std::io::{self, Write};

// A case: a head of so many entries, one length of which is replaced; the file's size; two bytes that are set, with their values; with how many bytes it is
// handed in, 1 being right, and how many numbers the lists have.
#[derive(Clone, Copy)]
struct Reading {
    entries: u64,
    length: Swap,
    size: u64,
    byte: Swap,
    second: Swap,
    first: u64,
    kinds: usize,
    offsets: usize,
    lengths: usize,
}

// Which number of which list; the numbers of a list are 33 at the most.
type List = [u64; 33];

// Sets a byte of the head, if one is set.
fn set(bytes: &mut [u8], byte: Swap) {
    if let Some((at, x)) = byte {
        files::set(bytes, at, x);
    }
}

// One digest of all three lists.
fn print_lists<W: Write>(
    out: &mut W,
    kinds: &[u64],
    offsets: &[u64],
    lengths: &[u64],
) -> io::Result<()> {
    let mut all = [0u64; 99];
    for (to, from) in all
        .iter_mut()
        .zip(kinds.iter().chain(offsets).chain(lengths))
    {
        *to = *from;
    }
    let long = kinds
        .len()
        .wrapping_add(offsets.len())
        .wrapping_add(lengths.len());
    writeln!(
        out,
        " lists {:016x}",
        test_data::digest(&all[..long.min(99)])
    )
}

fn call<W: Write>(
    out: &mut W,
    size: u64,
    first: &[u8],
    kinds: &mut [u64],
    offsets: &mut [u64],
    lengths: &mut [u64],
) -> io::Result<()> {
    test_print::outcome(
        out,
        " ",
        archive::read(size, first, kinds, offsets, lengths),
    )?;
    print_lists(out, kinds, offsets, lengths)
}

impl Reading {
    // A file as it was written, with one length replaced.
    fn with_length(n: u64, length: Swap) -> Reading {
        Reading {
            entries: n,
            length,
            size: files::offset(n, length, n),
            byte: None,
            second: None,
            first: 1,
            kinds: 32,
            offsets: 32,
            lengths: 32,
        }
    }

    fn right(n: u64) -> Reading {
        Reading::with_length(n, None)
    }

    // Byte p is x.
    fn changed(n: u64, p: u64, x: u64) -> Reading {
        Reading {
            byte: Some((p, x)),
            ..Reading::right(n)
        }
    }

    // The case itself. A length that is not replaced is told as number 99 and 0, a byte that is not set as 999 and 0, and a third byte never is.
    fn name<W: Write>(self, out: &mut W) -> io::Result<()> {
        let (e, length) = self.length.unwrap_or((99, 0));
        let (p, x) = self.byte.unwrap_or((999, 0));
        let (q, y) = self.second.unwrap_or((999, 0));
        write!(
            out,
            "read {} length {e} {length} size {}",
            self.entries, self.size
        )?;
        write!(out, " set {p} {x} {q} {y} 999 0 first {}", self.first)?;
        write!(
            out,
            " lists {} {} {}",
            self.kinds, self.offsets, self.lengths
        )
    }

    // So many first bytes are handed in.
    fn first_bytes(self) -> usize {
        let right = self.size.min(306) as usize;
        (right + (self.first % 3) as usize).saturating_sub(1)
    }

    fn call<W: Write>(self, out: &mut W, first: &[u8]) -> io::Result<()> {
        let mut kinds: List = [7; 33];
        let mut offsets: List = [7; 33];
        let mut lengths: List = [7; 33];
        let i = self.kinds.min(33);
        let j = self.offsets.min(33);
        let k = self.lengths.min(33);
        call(
            out,
            self.size,
            first,
            &mut kinds[..i],
            &mut offsets[..j],
            &mut lengths[..k],
        )
    }

    fn run<W: Write>(self, out: &mut W) -> io::Result<()> {
        self.name(out)?;
        let mut bytes = [0u8; files::SPACE];
        files::set_head(&mut bytes, self.entries, self.length);
        set(&mut bytes, self.byte);
        set(&mut bytes, self.second);
        let long = self.first_bytes().min(files::SPACE);
        self.call(out, &bytes[..long])
    }
}

// ---- the groups

fn chosen<W: Write>(out: &mut W) -> io::Result<()> {
    for (entries, size, byte, second, first, kinds, offsets, lengths) in &READS {
        let c = Reading {
            entries: *entries,
            length: None,
            size: *size,
            byte: *byte,
            second: *second,
            first: *first,
            kinds: *kinds,
            offsets: *offsets,
            lengths: *lengths,
        };
        c.run(out)?;
    }
    Ok(())
}

// Every number of entries.
fn whole<W: Write>(out: &mut W) -> io::Result<()> {
    for n in 0..34u64 {
        Reading::right(n).run(out)?;
    }
    Ok(())
}

fn size_of(end: u64, size: Size) -> u64 {
    match size {
        Size::Bytes(bytes) => bytes,
        Size::Short => end.wrapping_sub(1),
        Size::Whole => end,
        Size::Long => end.wrapping_add(1),
    }
}

// Sizes on both sides of each edge.
fn sizes_of<W: Write>(out: &mut W, n: u64) -> io::Result<()> {
    let right = Reading::right(n);
    for size in &SIZES {
        let c = Reading {
            size: size_of(right.size, *size),
            ..right
        };
        c.run(out)?;
    }
    Ok(())
}

fn sizes<W: Write>(out: &mut W) -> io::Result<()> {
    for n in &SOME {
        sizes_of(out, *n)?;
    }
    Ok(())
}

// Each of the first sixteen bytes.
fn fixed<W: Write>(out: &mut W) -> io::Result<()> {
    for p in 0..16u64 {
        Reading::changed(2, p, 0).run(out)?;
    }
    Ok(())
}

// The kind of an entry, three times.
fn kind<W: Write>(out: &mut W, n: u64, e: u64) -> io::Result<()> {
    let p = 18 + 9 * (e % 100);
    for x in &[0, 4, 255] {
        Reading::changed(n, p, *x).run(out)?;
    }
    Ok(())
}

fn kinds_of<W: Write>(out: &mut W, n: u64) -> io::Result<()> {
    for e in 0..n {
        kind(out, n, e)?;
    }
    Ok(())
}

fn kinds<W: Write>(out: &mut W) -> io::Result<()> {
    for n in &SOME {
        kinds_of(out, *n)?;
    }
    Ok(())
}

// Each other byte of an entry.
fn fields<W: Write>(out: &mut W, n: u64, e: u64) -> io::Result<()> {
    let p = 19 + 9 * (e % 100);
    for i in 0..8u64 {
        Reading::changed(n, p + i, 165).run(out)?;
    }
    Ok(())
}

fn fields_of<W: Write>(out: &mut W, n: u64) -> io::Result<()> {
    for e in 0..n {
        fields(out, n, e)?;
    }
    Ok(())
}

fn all_fields<W: Write>(out: &mut W) -> io::Result<()> {
    for n in &SOME {
        fields_of(out, *n)?;
    }
    Ok(())
}

// Every size from 16 to 306.
fn cut_off<W: Write>(out: &mut W) -> io::Result<()> {
    let right = Reading::right(32);
    for size in 16..307u64 {
        Reading { size, ..right }.run(out)?;
    }
    Ok(())
}

// From 18 on with a kind that is none in the entry that is cut off there; at 306 none is.
fn cut_off_changed<W: Write>(out: &mut W) -> io::Result<()> {
    let right = Reading::right(32);
    for size in 18..306u64 {
        let byte = Some((18 + (size - 18) / 9 * 9, 0));
        Reading {
            size,
            byte,
            ..right
        }
        .run(out)?;
    }
    Reading { size: 306, ..right }.run(out)
}

// The end of the last body, and sizes around and far from it.
fn far<W: Write>(out: &mut W, n: u64, e: u64) -> io::Result<()> {
    let right = Reading::with_length(n, Some((e, 4294967295)));
    let end = right.size;
    let sizes = [
        end,
        end.wrapping_sub(1),
        end.wrapping_add(1),
        end.saturating_sub(4294967296),
        end.wrapping_add(4294967296),
        end.wrapping_add(9223372036854775808),
        u64::MAX - 1,
        u64::MAX,
    ];
    for size in &sizes {
        Reading {
            size: *size,
            ..right
        }
        .run(out)?;
    }
    Ok(())
}

fn large<W: Write>(out: &mut W) -> io::Result<()> {
    for (n, e) in &LARGE {
        far(out, *n, *e)?;
    }
    Ok(())
}

// Each of the four lengths is one too few, right, or one too many: the digits of k to base 3.
fn lengths<W: Write>(out: &mut W) -> io::Result<()> {
    for k in 0..81usize {
        let c = Reading {
            first: k as u64 / 27,
            kinds: 31 + k / 9 % 3,
            offsets: 31 + k / 3 % 3,
            lengths: 31 + k % 3,
            ..Reading::right(2)
        };
        c.run(out)?;
    }
    Ok(())
}

pub fn all<W: Write>(out: &mut W) -> io::Result<()> {
    chosen(out)?;
    whole(out)?;
    sizes(out)?;
    fixed(out)?;
    kinds(out)?;
    all_fields(out)?;
    cut_off(out)?;
    cut_off_changed(out)?;
    large(out)?;
    lengths(out)
}
