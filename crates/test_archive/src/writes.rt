// Heads written, and refused calls. Each group of cases is a function; the order is that of second/README.md.
use crate::cases::{KINDS, LENGTHS, SOME, WRITES};
use crate::files::{self, Swap};
use std::io::{self, Write};

// A case: the count, how many kinds, lengths and bytes of the head there are, and which kind and which length is replaced by what.
#[derive(Clone, Copy)]
struct Writing {
    count: u64,
    kinds: usize,
    lengths: usize,
    head: usize,
    kind: Swap,
    length: Swap,
}

impl Writing {
    fn right(n: u64) -> Writing {
        let m = (n % 100) as usize;
        Writing {
            count: n,
            kinds: m,
            lengths: m,
            head: 18 + 9 * m,
            kind: None,
            length: None,
        }
    }

    // The case itself; a kind or a length that is not replaced is told as number 99 and 0.
    fn name<W: Write>(self, out: &mut W) -> io::Result<()> {
        let (e, kind) = self.kind.unwrap_or((99, 0));
        let (f, length) = self.length.unwrap_or((99, 0));
        write!(
            out,
            "write {} lists {} {}",
            self.count, self.kinds, self.lengths
        )?;
        write!(
            out,
            " head {} kind {e} {kind} length {f} {length}",
            self.head
        )
    }

    fn call<W: Write>(
        self,
        out: &mut W,
        kinds: &[u64],
        lengths: &[u64],
        head: &mut [u8],
    ) -> io::Result<()> {
        test_print::outcome(out, " ", archive::write(self.count, kinds, lengths, head))?;
        writeln!(out, " head {:016x}", test_data::digest(head))
    }

    fn run<W: Write>(self, out: &mut W) -> io::Result<()> {
        self.name(out)?;
        let kinds: [u64; 40] = std::array::from_fn(|i| files::kind_of(i as u64, self.kind));
        let lengths: [u64; 40] = std::array::from_fn(|i| files::length_of(i as u64, self.length));
        let mut head = [90u8; files::SPACE];
        let a = self.kinds.min(40);
        let b = self.lengths.min(40);
        let h = self.head.min(files::SPACE);
        self.call(out, &kinds[..a], &lengths[..b], &mut head[..h])
    }
}

fn chosen<W: Write>(out: &mut W) -> io::Result<()> {
    for (count, kinds, lengths, head, kind, length) in &WRITES {
        let c = Writing {
            count: *count,
            kinds: *kinds,
            lengths: *lengths,
            head: *head,
            kind: *kind,
            length: *length,
        };
        c.run(out)?;
    }
    Ok(())
}

// The number and an entry of a head: the first and the last of each.
const ENDS: [(u64, u64); 6] = [(1, 0), (1, 0), (2, 0), (2, 1), (32, 0), (32, 31)];

// Heads that are right but for one field of an entry, which is at each edge of its own.
fn at_ends<W: Write, F: Fn(u64, u64, u64) -> Writing>(
    out: &mut W,
    edges: &[u64],
    writing: F,
) -> io::Result<()>
    requires { F.IsAlwaysCallable writing }
{
    for (n, e) in &ENDS {
        for edge in edges {
            writing(*n, *e, *edge).run(out)?;
        }
    }
    Ok(())
}

fn kinds<W: Write>(out: &mut W) -> io::Result<()> {
    at_ends(
        out,
        &KINDS,
        |n, e, kind| Writing {
            kind: Some((e, kind)),
            ..Writing::right(n)
        },
    )
}

fn lengths<W: Write>(out: &mut W) -> io::Result<()> {
    at_ends(
        out,
        &LENGTHS,
        |n, e, length| Writing {
            length: Some((e, length)),
            ..Writing::right(n)
        },
    )
}

// Each of the three lengths is one too few, right, or one too many: the digits of k to base 3.
fn longs_of<W: Write>(out: &mut W, n: u64) -> io::Result<()> {
    let m = (n % 100) as usize;
    for k in 0..27usize {
        let c = Writing {
            kinds: (m + k / 9).saturating_sub(1),
            lengths: (m + k / 3 % 3).saturating_sub(1),
            head: 17 + 9 * m + k % 3,
            ..Writing::right(n)
        };
        c.run(out)?;
    }
    Ok(())
}

fn longs<W: Write>(out: &mut W) -> io::Result<()> {
    for n in &SOME {
        longs_of(out, *n)?;
    }
    Ok(())
}

pub fn all<W: Write>(out: &mut W) -> io::Result<()> {
    chosen(out)?;
    kinds(out)?;
    lengths(out)?;
    longs(out)
}
