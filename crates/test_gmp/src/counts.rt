// What one stored case of gmp_runs cannot show: counts written in every way, the runs of the seven counts of 001 Table 7, and run requests at the edges of
// their sets.
use answer::{Answer, Refused};
use gmp::Kind;
use gmp_count::Partial;
use std::fmt;
use std::io::{self, Write};

// ---- what is written

// A number of a request. The largest are written by what they lack of 2^64.
#[derive(Clone, Copy)]
struct Asked(u64);

impl fmt::Display for Asked {
    fn fmt<W: fmt::Write>(&self, f: &mut fmt::Formatter<W>) -> fmt::Result {
        if self.0 < 1 << 63 {
            write!(f, "{}", self.0)
        } else {
            write!(f, "2^64-{}", u64::MAX - self.0 + 1)
        }
    }
}

// The number and the count of an answer.
fn print_answer<W: Write>(
    out: &mut W,
    name: &str,
    answered: Result<u64, Refused>,
) -> io::Result<()> {
    let a = Answer::from(answered);
    writeln!(out, "{name} {} {}", a.number, a.count)
}

// ---- counts read from text

// A name, and what is read.
const TEXTS: [(&str, &[u8]); 12] = [
    ("line empty", b""),
    ("line empty, then 10216", b"\n10216\n"),
    ("line 10220", b"10220\n"),
    ("line 10221", b"10221\n"),
    ("line 0", b"0\n"),
    ("line 00010216", b"00010216\n"),
    ("line 2^64", b"18446744073709551616\n"),
    ("line 10216 CR", b"10216\r\n"),
    ("line letters", b"ten\n"),
    ("line 10216 and no line feed", b"10216"),
    ("line 10216, then letters", b"10216\nten\n"),
    ("line 1 2", b"1 2\n"),
];

fn texts<W: Write>(out: &mut W) -> io::Result<()> {
    for (name, line) in &TEXTS {
        print_answer(out, name, gmp_count::count_of(line))?;
    }
    Ok(())
}

// A count in parts, cut anywhere.
fn parts<W: Write>(out: &mut W) -> io::Result<()> {
    let read = Partial::start()
        .more(b"0000")
        .more(b"102")
        .more(b"16\n7")
        .more(b"9\n");
    print_answer(out, "parts 00 102 16", read.so_far())
}

// ---- runs

// The stuff places of a count, and how many runs there are: 001 Table 7.
fn table_row<W: Write>(out: &mut W, c: u64) -> io::Result<()> {
    let runs = Answer::from(gmp::runs(c, 1)).count;
    write!(out, "Cm {c} runs {runs} stuff")?;
    test_print::stuff_runs(out, c)?;
    writeln!(out)
}

fn table<W: Write>(out: &mut W) -> io::Result<()> {
    for c in 10214..sizes::PLACES + 1 {
        table_row(out, c)?;
    }
    Ok(())
}

// A run as the numbers that C is handed: number, kind and last place.
fn run<W: Write>(out: &mut W, c: u64, j: u64) -> io::Result<()> {
    write!(out, "run {} {}", Asked(c), Asked(j))?;
    match gmp::run(c, j) {
        Ok(run) => write!(out, " 0 {} {}", u8::from(run.kind == Kind::Data), run.last)?,
        Err(refused) => write!(out, " {} 0 0", refused.refusal.number())?,
    }
    print_answer(out, " runs", gmp::runs(c, j))
}

// A count and a place.
const REQUESTS: [(u64, u64); 10] = [
    (0, 1),
    (10220, 10220),
    (10221, 1),
    (10216, 0),
    (10216, 10220),
    (10216, 10221),
    (5110, 1),
    (1, 1),
    (10217, 3407),
    (u64::MAX, u64::MAX),
];

fn runs<W: Write>(out: &mut W) -> io::Result<()> {
    for (c, j) in &REQUESTS {
        run(out, *c, *j)?;
    }
    Ok(())
}

pub fn cases<W: Write>(out: &mut W) -> io::Result<()> {
    texts(out)?;
    parts(out)?;
    table(out)?;
    runs(out)
}
