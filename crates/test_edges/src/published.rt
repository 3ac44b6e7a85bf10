// The CRC's check value, the first 24 bits of the scrambler, 001 Tables 7 and 12 in their order, and the table of 002, "Multi-Block Alignment Signal".
use crate::starred;
use std::io::{self, Write};
use symbol::Symbol;

fn scrambler<W: Write>(out: &mut W) -> io::Result<()> {
    let s = scrambler::sequence();
    let w = bits_copy::word_from(&s, 0);
    writeln!(
        out,
        "scrambler bits 0 to 23: {:02x}{:02x}{:02x}",
        w[0], w[1], w[2]
    )
}

fn table_7<W: Write>(out: &mut W) -> io::Result<()> {
    for i in 0..7u64 {
        let c = sizes::PLACES - i;
        write!(out, "Table 7: C {c} stuff")?;
        test_print::stuff_runs(out, c)?;
        writeln!(out)?;
    }
    Ok(())
}

// Four bits, and the levels that they have in the X and in the Y polarization.
fn table_12<W: Write>(out: &mut W) -> io::Result<()> {
    for n in 0..16u8 {
        let s = Symbol::from(n % 16 * 17);
        writeln!(out, "Table 12: {n:04b} {} {} {} {}", s.xi, s.xq, s.yi, s.yq)?;
    }
    Ok(())
}

fn mbas<W: Write>(out: &mut W) -> io::Result<()> {
    write!(out, "MBAS of blocks 0 to 127:")?;
    for number in 0..128u64 {
        write!(out, " {}", line::mbas(number, 0))?;
    }
    writeln!(out)
}

pub fn vectors<W: Write>(out: &mut W) -> io::Result<()> {
    starred::crc_of(out, "123456789", b"123456789")?;
    scrambler(out)?;
    table_7(out)?;
    table_12(out)?;
    mbas(out)
}
