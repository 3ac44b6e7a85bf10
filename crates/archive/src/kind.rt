// What a body of a capture file is.
ghost use Rattle.std.specs.Prelude.{◌≡◌};
ghost use Rattle.archive.specs.Kinds.{number_of_kind, kind_of};

use std::error::Error;
use std::fmt;

#[derive(Clone, Copy, Debug, PartialEq, Eq)]
pub enum Kind {
    Information,
    Parity,
    Capture,
}

// A number that no kind has.
#[derive(Clone, Copy, Debug, PartialEq, Eq)]
pub struct UnknownKind {
    pub n: u64,
}

impl Kind {
    // The kind's number in the table.
    pub fn number(self) -> u64
        ensures { result ≡ number_of_kind self }
    {
        match self {
            Kind::Information => 1,
            Kind::Parity => 2,
            Kind::Capture => 3,
        }
    }
}

impl TryFrom<u64> for Kind {
    type Error = UnknownKind;

    ghost try_from_gives = { λ n r. r ≡ kind_of n };

    fn try_from(n: u64) -> Result<Kind, UnknownKind> {
        match n {
            1 => Ok(Kind::Information),
            2 => Ok(Kind::Parity),
            3 => Ok(Kind::Capture),
            _ => Err(UnknownKind { n }),
        }
    }
}

impl fmt::Display for Kind {
    fn fmt<W: fmt::Write>(&self, f: &mut fmt::Formatter<W>) -> fmt::Result {
        f.write_str(match self {
            Kind::Information => "information",
            Kind::Parity => "parity",
            Kind::Capture => "capture",
        })
    }
}

impl fmt::Display for UnknownKind {
    fn fmt<W: fmt::Write>(&self, f: &mut fmt::Formatter<W>) -> fmt::Result {
        write!(f, "no kind of body has number {}", self.n)
    }
}

impl Error for UnknownKind {}
