// The commands on captures. Each reads its arguments and files, and hands what it read to a function that calls the coder. Of the large spaces a
// function has one: where there are two, each is filled with zeros twice.
use answer::Refused;
use std::io;
use std::io::Write;
use zr_shell::Shell;

// zr code N M0 INFO PARITY CAPTURE
pub fn code<W: Write>(shell: &mut Shell<W>) -> io::Result<()> {
    let Some(n) = shell.number_at(2, b"N")? else {
        return Ok(());
    };
    let Some(m0) = shell.number_at(3, b"M0")? else {
        return Ok(());
    };
    let mut info = buffer_sizes::large_space();
    let Some(info) = shell.loaded(4, &mut info)? else {
        return Ok(());
    };
    code_information(shell, n, m0, info)
}

fn code_information<W: Write>(
    shell: &mut Shell<W>,
    n: u64,
    m0: u64,
    info: &[u8],
) -> io::Result<()> {
    let mut parity = buffer_sizes::small_space();
    let Some(parity) = shell.loaded(5, &mut parity)? else {
        return Ok(());
    };
    code_files(shell, n, m0, info, parity)
}

fn code_files<W: Write>(
    shell: &mut Shell<W>,
    n: u64,
    m0: u64,
    info: &[u8],
    parity: &[u8],
) -> io::Result<()> {
    let mut space = buffer_sizes::large_space();
    let capture = &mut space[..buffer_sizes::capture(n)];
    match capture::code(n, m0, info, parity, capture) {
        Ok(words) => {
            if shell.save(6, capture)? {
                shell.done_words(words, b"\n")?;
            }
            Ok(())
        }
        Err(refused) => {
            say_refused(shell, refused, &["information", "parity", "capture"])?;
            let i = buffer_sizes::information(n);
            shell.length(refused, b"INFO", 4, info.len(), i)?;
            let j = buffer_sizes::parity(n);
            shell.length(refused, b"PARITY", 5, parity.len(), j)
        }
    }
}

fn say_refused<W: Write>(shell: &mut Shell<W>, refused: Refused, names: &[&str]) -> io::Result<()> {
    shell.refused(refused, names)?;
    shell.sets(refused, b"  N is 1 to 8 and M0 is 0 to 127\n")
}

// zr read N M0 CAPTURE INFO PARITY
pub fn read<W: Write>(shell: &mut Shell<W>) -> io::Result<()> {
    let Some(n) = shell.number_at(2, b"N")? else {
        return Ok(());
    };
    let Some(m0) = shell.number_at(3, b"M0")? else {
        return Ok(());
    };
    let mut capture = buffer_sizes::large_space();
    let Some(capture) = shell.loaded(4, &mut capture)? else {
        return Ok(());
    };
    read_file(shell, n, m0, capture)
}

fn read_file<W: Write>(shell: &mut Shell<W>, n: u64, m0: u64, capture: &[u8]) -> io::Result<()> {
    let mut large = buffer_sizes::large_space();
    let info = &mut large[..buffer_sizes::information(n)];
    let mut small = buffer_sizes::small_space();
    let parity = &mut small[..buffer_sizes::parity(n)];
    match capture::read(n, m0, capture, info, parity) {
        Ok(words) => {
            if shell.save(5, info)? && shell.save(6, parity)? {
                shell.done_words(words, b" repaired\n")?;
            }
            Ok(())
        }
        Err(refused) => {
            say_refused(shell, refused, &["capture", "information", "parity"])?;
            let k = buffer_sizes::capture(n);
            shell.length(refused, b"CAPTURE", 4, capture.len(), k)
        }
    }
}

// zr edit N BLOCK BITS PARITY CAPTURE OUT
pub fn edit<W: Write>(shell: &mut Shell<W>) -> io::Result<()> {
    let Some(n) = shell.number_at(2, b"N")? else {
        return Ok(());
    };
    let Some(block) = shell.number_at(3, b"BLOCK")? else {
        return Ok(());
    };
    let mut bits = [0u8; 34];
    let Some(bits) = shell.loaded(4, &mut bits)? else {
        return Ok(());
    };
    edit_block(shell, n, block, bits)
}

fn edit_block<W: Write>(shell: &mut Shell<W>, n: u64, block: u64, bits: &[u8]) -> io::Result<()> {
    let mut parity = buffer_sizes::small_space();
    let Some(parity) = shell.loaded(5, &mut parity)? else {
        return Ok(());
    };
    edit_capture(shell, n, block, bits, parity)
}

fn edit_capture<W: Write>(
    shell: &mut Shell<W>,
    n: u64,
    block: u64,
    bits: &[u8],
    parity: &[u8],
) -> io::Result<()> {
    let mut capture = buffer_sizes::large_space();
    let Some(capture) = shell.loaded(6, &mut capture)? else {
        return Ok(());
    };
    edit_files(shell, n, block, bits, parity, capture)
}

fn edit_files<W: Write>(
    shell: &mut Shell<W>,
    n: u64,
    block: u64,
    bits: &[u8],
    parity: &[u8],
    capture: &mut [u8],
) -> io::Result<()> {
    let mut list = [0u64; 145];
    match capture::edit(n, block, bits, parity, capture, &mut list) {
        Ok(words) => {
            if shell.save(7, capture)? {
                shell.done_words(words, b" rewritten:")?;
                shell.words(&list, words)?;
            }
            Ok(())
        }
        Err(refused) => {
            shell.refused(refused, &["client block", "parity", "capture", "list"])?;
            shell.sets(refused, b"  N is 1 to 8 and BLOCK is 0 to 4760 N - 1\n")?;
            shell.length(refused, b"BITS", 4, bits.len(), 33)?;
            shell.length(refused, b"PARITY", 5, parity.len(), 2048)?;
            let k = buffer_sizes::capture(n);
            shell.length(refused, b"CAPTURE", 6, capture.len(), k)?;
            shell.spare(refused, b"BITS", 4)
        }
    }
}
