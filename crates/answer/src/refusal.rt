// Why a call is refused.
ghost use Rattle.std.specs.Prelude.{◌≡◌};
ghost use Rattle.answer.specs.Refusals.{refusal_number, refused_at};

use std::error::Error;
use std::fmt;

// The refusals of document 01, "Numbers handed back", and of document 02, M-100, in the order of their numbers from 1 on.
#[derive(Clone, Copy, Debug, PartialEq, Eq)]
pub enum Refusal {
    OutsideSet,
    WrongLength,
    SpareBit,
    BeyondRepair,
    FillerNotZero,
    WrongMbas,
    WrongCrc,
    PadNotZero,
    ListedFails,
    NotArchive,
    BadEntry,
    Misplaced,
}

impl Refusal {
    // The refusal's number in the table.
    pub fn number(self) -> u64
        ensures { result ≡ refusal_number self }
    {
        match self {
            Refusal::OutsideSet => 1,
            Refusal::WrongLength => 2,
            Refusal::SpareBit => 3,
            Refusal::BeyondRepair => 4,
            Refusal::FillerNotZero => 5,
            Refusal::WrongMbas => 6,
            Refusal::WrongCrc => 7,
            Refusal::PadNotZero => 8,
            Refusal::ListedFails => 9,
            Refusal::NotArchive => 10,
            Refusal::BadEntry => 11,
            Refusal::Misplaced => 12,
        }
    }

    // Refused for this, at a place.
    pub fn at(self, place: u64) -> Refused
        ensures { result ≡ refused_at self place }
    {
        Refused {
            refusal: self,
            place,
        }
    }
}

// When it is given.
impl fmt::Display for Refusal {
    fn fmt<W: fmt::Write>(&self, f: &mut fmt::Formatter<W>) -> fmt::Result {
        f.write_str(match self {
            Refusal::OutsideSet => "a number is outside its stated set",
            Refusal::WrongLength => "a buffer's length is not the stated one",
            Refusal::SpareBit => "a spare bit is not zero",
            Refusal::BeyondRepair => "a word beyond repair",
            Refusal::FillerNotZero => "a filler word not zero after repair",
            Refusal::WrongMbas => "MBAS not the expected number",
            Refusal::WrongCrc => "CRC wrong",
            Refusal::PadNotZero => "pad not zero",
            Refusal::ListedFails => "a word to be listed fails a check",
            Refusal::NotArchive => "fewer than 16 bytes, or the first bytes differ",
            Refusal::BadEntry => {
                "count missing or outside 1..32, or a kind outside 1..3 in a whole entry"
            }
            Refusal::Misplaced => {
                "an entry cut off, or an offset or the end not where the rule puts it"
            }
        })
    }
}

// What is refused, and the place that the table's number has.
#[derive(Clone, Copy, Debug, PartialEq, Eq)]
pub struct Refused {
    pub refusal: Refusal,
    pub place: u64,
}

impl fmt::Display for Refused {
    fn fmt<W: fmt::Write>(&self, f: &mut fmt::Formatter<W>) -> fmt::Result {
        write!(
            f,
            "refused {} at {}: {}",
            self.refusal.number(),
            self.place,
            self.refusal
        )
    }
}

impl Error for Refused {}
