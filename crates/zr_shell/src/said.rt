// What is said to the person at the shell: to standard output, one answer that begins `done`, `refused` or `failed`; and to standard error, the
// system's reason.
use crate::Shell;
use crate::files::ARGUMENT_BYTES;
use answer::{Refusal, Refused};
use std::convert::AsSlice;
use std::io;
use std::io::Write;

impl<W: Write> Shell<'_, W> {
    // Done, with a count, what it counts and what was done with it.
    pub fn done(&mut self, count: u64, what: &[u8], then: &[u8]) -> io::Result<()> {
        write!(self.out, "done: {count}")?;
        self.out.write_all(what)?;
        if count != 1 {
            write!(self.out, "s")?;
        }
        self.out.write_all(then)
    }

    pub fn done_words(&mut self, count: u64, then: &[u8]) -> io::Result<()> {
        self.done(count, b" word", then)
    }

    // Refused, with the number, the place and what they mean. The names are those of the call's buffers in their order.
    pub fn refused<N: AsSlice<u8>>(&mut self, refused: Refused, names: &[N]) -> io::Result<()> {
        write!(self.out, "refused {}", refused.refusal.number())?;
        if let Some(what) = counted(refused) {
            write!(self.out, " at {what} {}", refused.place)?;
        }
        if let Some(name) = buffer(refused, names) {
            write!(self.out, ", the ")?;
            // As `write!` leaves it out, an empty name is not handed to the writer, which may refuse to write nothing.
            let name = name.as_slice();
            if !name.is_empty() {
                self.out.write_all(name)?;
            }
        }
        writeln!(self.out, ": {}", refused.refusal)
    }

    // Under a refusal by 1: the sets.
    pub fn sets(&mut self, refused: Refused, text: &[u8]) -> io::Result<()> {
        if refused.refusal == Refusal::OutsideSet {
            self.out.write_all(text)?;
        }
        Ok(())
    }

    // Under a refusal by 2: a file whose length is wrong. It is argument i, and what that is called in the help. No more was read of it than shows that
    // it is too long.
    pub fn length(
        &mut self,
        refused: Refused,
        name: &[u8],
        i: usize,
        has: usize,
        wanted: usize,
    ) -> io::Result<()> {
        if refused.refusal != Refusal::WrongLength || has == wanted {
            return Ok(());
        }
        self.file(name, i)?;
        if wanted < has {
            write!(self.out, " has more than {wanted}")?;
        } else {
            write!(self.out, " has {has}")?;
        }
        writeln!(self.out, " bytes, and {wanted} are wanted")
    }

    // Under a refusal by 3: the file that it speaks of.
    pub fn spare(&mut self, refused: Refused, name: &[u8], i: usize) -> io::Result<()> {
        if refused.refusal == Refusal::SpareBit {
            self.file(name, i)?;
            writeln!(self.out, " has one that is set")?;
        }
        Ok(())
    }

    fn file(&mut self, name: &[u8], i: usize) -> io::Result<()> {
        let mut space = [0u8; ARGUMENT_BYTES];
        let path = self.argument(i, &mut space);
        write!(self.out, "  ")?;
        self.out.write_all(name)?;
        write!(self.out, " (")?;
        self.out.write_all(path)?;
        write!(self.out, ")")
    }

    // Something could not be done with a file or an argument.
    pub fn failed(&mut self, what: &[u8], why: &[u8]) -> io::Result<()> {
        write!(self.out, "failed: ")?;
        self.out.write_all(what)?;
        self.out.write_all(why)
    }

    // What an argument was, on the rest of the line.
    pub fn rest(&mut self, text: &[u8]) -> io::Result<()> {
        self.out.write_all(text)?;
        writeln!(self.out)
    }

    // The listed words, sixteen to a line.
    // Kept: a list with a count beside it, as an edit fills it for C.
    pub fn words(&mut self, list: &[u64; 145], count: u64) -> io::Result<()> {
        for (k, word) in list.iter().take(count as usize).enumerate() {
            if k % 16 == 0 {
                write!(self.out, "\n ")?;
            }
            write!(self.out, " {word}")?;
        }
        writeln!(self.out)
    }

    // What a command takes is said by the launcher, which counts the arguments before the program is started.
    pub fn unknown(&mut self) -> io::Result<()> {
        writeln!(
            self.out,
            "failed: no such command, or not the arguments that it takes"
        )
    }
}

// Document 01, "Numbers handed back", and document 02, M-100 and M-103: what the place of a refusal counts. A bad count of entries has no place.
fn counted(refused: Refused) -> Option<&'static str> {
    match refused.refusal {
        Refusal::OutsideSet | Refusal::NotArchive => None,
        Refusal::WrongLength | Refusal::SpareBit => Some("buffer"),
        Refusal::BeyondRepair | Refusal::FillerNotZero | Refusal::ListedFails => Some("word"),
        Refusal::WrongMbas | Refusal::WrongCrc => Some("FEC block"),
        Refusal::PadNotZero => Some("super frame"),
        Refusal::BadEntry if refused.place == 0 => None,
        Refusal::BadEntry | Refusal::Misplaced => Some("entry"),
    }
}

// The name of the buffer that is at fault, where one is.
fn buffer<N>(refused: Refused, names: &[N]) -> Option<&N> {
    match refused.refusal {
        Refusal::WrongLength | Refusal::SpareBit => {
            let k = refused.place.checked_sub(1)?;
            names.get(k as usize)
        }
        _ => None,
    }
}

// A line on standard error: what failed, as the caller names it, a colon and the system's reason. Where it cannot be written, standard output still
// tells that something failed.
pub fn reason(rt: &HostRuntime, what: &[u8], error: &io::Error) {
    let _ = write_reason(rt, what, error);
}

fn write_reason(rt: &HostRuntime, what: &[u8], error: &io::Error) -> io::Result<()> {
    let text = format!(in rt.alloc(); "{error}")?;
    let reason = without_code(text.as_str());
    let mut line = Vec::new(rt.alloc());
    line.extend_from_slice(what)?;
    writeln!(line, ": {reason}")?;
    rt.stderr().write_all(line.as_slice())
}

// The library puts the system's number behind its words, which say enough.
fn without_code(text: &str) -> &str {
    match text.split_once(" (os error ") {
        Some((words, _)) => words,
        None => text,
    }
}

#[cfg(test)]
mod tests {
    use crate::Shell;
    use answer::Refusal;
    use std::io::{self, ErrorKind, Write};

    // What was written to a writer that refuses to write nothing.
    #[derive(Drop)]
    struct Strict {
        held: [u8; 80],
        length: usize,
    }

    impl Strict {
        fn new() -> Strict {
            Strict {
                held: [0; 80],
                length: 0,
            }
        }

        fn holds(&self, text: &[u8]) -> bool {
            self.held.get(..self.length) == Some(text)
        }
    }

    impl Write for Strict {
        fn write(&mut self, bytes: &[u8]) -> io::Result<usize> {
            if bytes.is_empty() {
                return Err(io::Error::from(ErrorKind::InvalidInput));
            }
            for b in bytes {
                if let Some(place) = self.held.get_mut(self.length) {
                    *place = *b;
                    self.length = self.length.saturating_add(1);
                }
            }
            Ok(bytes.len())
        }

        fn write_all(&mut self, bytes: &[u8]) -> io::Result<()> {
            self.write(bytes)?;
            Ok(())
        }

        fn flush(&mut self) -> io::Result<()> {
            Ok(())
        }
    }

    // Of a wrong length at place 1 of buffers with these names.
    fn is_said(rt: &HostRuntime, names: &[&str], text: &[u8]) -> io::Result<bool> {
        let mut shell = Shell {
            out: Strict::new(),
            rt,
        };
        shell.refused(Refusal::WrongLength.at(1), names)?;
        Ok(shell.out.holds(text))
    }

    #[test]
    fn an_empty_name_is_left_out(rt: HostRuntime) -> io::Result<()> {
        let text = b"refused 2 at buffer 1, the : a buffer's length is not the stated one\n";
        assert!(rt; is_said(&rt, &[""], text)?);
        Ok(())
    }

    #[test]
    fn a_name_is_written_whole(rt: HostRuntime) -> io::Result<()> {
        let text = b"refused 2 at buffer 1, the list: a buffer's length is not the stated one\n";
        assert!(rt; is_said(&rt, &["list", "head"], text)?);
        Ok(())
    }
}
