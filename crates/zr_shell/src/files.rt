// The files and numbers that the arguments name. What goes wrong with one is said here, once.
ghost use Rattle.std.specs.Prelude.{◌≡◌, ◌≤◌, length, IfOk, IfSome, OnErr};

use crate::{Shell, said};
use std::env::{Env, FillError};
use std::fs::File;
use std::io;
use std::io::{ErrorKind, Read, Write};

// The bytes of the longest argument that is looked at. No path is longer.
pub const ARGUMENT_BYTES: usize = 4096;

// Puts argument i at the start of `space` and answers its length, or 0 where it is missing or longer. An argument is bytes, and need not be text.
pub fn argument(rt: &HostRuntime, i: usize, space: &mut [u8]) -> usize
    ensures { result ≤ length space.new }
{
    rt.arg(i, space).unwrap_or(0)
}

// How many arguments the program was started with, its own name among them.
pub fn argument_count(rt: &HostRuntime) -> usize {
    let mut space = [0u8; ARGUMENT_BYTES];
    // Kept: `std::env::args` counts them too, but on the heap.
    for i in 0..usize::MAX {
        if let Err(FillError::NotPresent) = rt.arg(i, &mut space) {
            return i;
        }
    }
    usize::MAX
}

impl<W: Write> Shell<'_, W> {
    // Argument i, put into the space that is lent, and empty where it is missing or longer.
    pub fn argument<'s>(&self, i: usize, space: &'s mut [u8]) -> &'s [u8]
        ensures { length result.now ≤ length space.old }
    {
        let k = argument(self.rt, i, space);
        &space[..k]
    }

    // How many arguments the program was started with, its own name among them.
    pub fn argument_count(&self) -> usize {
        argument_count(self.rt)
    }

    // The number that argument i is.
    pub fn number_at(&mut self, i: usize, name: &[u8]) -> io::Result<Option<u64>> {
        let mut space = [0u8; ARGUMENT_BYTES];
        let word = self.argument(i, &mut space);
        let number = zr_argument::number_of(word);
        if number.is_none() {
            self.failed(name, b" must be a whole number in decimal, and is ")?;
            self.rest(word)?;
        }
        Ok(number)
    }

    // Reads the file that argument i names, to its end or until `into` is full, and answers how many of its bytes are there.
    pub fn load(&mut self, i: usize, into: &mut [u8]) -> io::Result<Option<usize>>
        ensures ok { IfOk result (λ r. IfSome r (λ n. n ≤ length into.new)) }
        ensures err { OnErr result (length into.new ≡ length into.old) }
    {
        let mut space = [0u8; ARGUMENT_BYTES];
        let path = self.argument(i, &mut space);
        let Some(mut file) = self.open(path)? else {
            return Ok(None);
        };
        match read_all(&mut file, into) {
            Ok(bytes) => Ok(Some(bytes)),
            Err(error) => {
                self.unread(path, error)?;
                Ok(None)
            }
        }
    }

    // The same, and answers the part that holds its bytes.
    pub fn loaded<'s>(&mut self, i: usize, into: &'s mut [u8]) -> io::Result<Option<&'s mut [u8]>>
        ensures { IfOk result (λ r. IfSome r (λ part. length part.now ≤ length into.old)) }
    {
        match self.load(i, into)? {
            Some(bytes) => Ok(Some(&mut into[..bytes])),
            None => Ok(None),
        }
    }

    // Opens a file for reading, or says that it cannot be opened and answers nothing.
    pub fn open(&mut self, path: &[u8]) -> io::Result<Option<File>> {
        match open_read(self.rt, path) {
            Ok(file) => Ok(Some(file)),
            Err(error) => {
                self.failed_for(path, b" cannot be opened\n", error)?;
                Ok(None)
            }
        }
    }

    pub fn unread(&mut self, path: &[u8], error: io::Error) -> io::Result<()> {
        self.failed_for(path, b" cannot be read\n", error)
    }

    // Writes bytes to the file that argument i names, over what was there.
    pub fn save(&mut self, i: usize, bytes: &[u8]) -> io::Result<bool> {
        let mut space = [0u8; ARGUMENT_BYTES];
        let path = self.argument(i, &mut space);
        let mut file = match open_overwrite(self.rt, path) {
            Ok(file) => file,
            Err(error) => {
                self.failed_for(path, b" cannot be opened for writing\n", error)?;
                return Ok(false);
            }
        };
        match file.write_all(bytes) {
            Ok(()) => Ok(true),
            Err(error) => {
                self.failed_for(path, b" cannot be written, and is not whole\n", error)?;
                Ok(false)
            }
        }
    }

    // Standard error has the system's reason.
    fn failed_for(&mut self, path: &[u8], why: &[u8], error: io::Error) -> io::Result<()> {
        said::reason(self.rt, path, &error);
        self.failed(path, why)
    }
}

fn open_read(rt: &HostRuntime, path: &[u8]) -> io::Result<File> {
    File::open(rt, name_of(path)?)
}

fn open_overwrite(rt: &HostRuntime, path: &[u8]) -> io::Result<File> {
    File::create(rt, name_of(path)?)
}

// The library's paths are text, so that a file whose name is none cannot be reached by it.
fn name_of(path: &[u8]) -> io::Result<&str> {
    std::str::from_utf8(path).map_err(|_| io::Error::from(ErrorKind::InvalidFilename))
}

// A read that moves nothing ends the file.
fn read_all<R: Read>(from: &mut R, into: &mut [u8]) -> io::Result<usize>
    ensures ok { IfOk result (λ n. n ≤ length into.new) }
    ensures err { OnErr result (length into.new ≡ length into.old) }
{
    let mut done = 0;
    // Kept: a turn takes as many bytes as a read gives, which is no step of an iterator; `read_to_end` would need the heap.
    while done < into.len() {
        let more = from.read(&mut into[done..])?;
        if more == 0 {
            return Ok(done);
        }
        done += more;
    }
    Ok(done)
}
