// What a run request hands back.
use std::fmt;

#[derive(Clone, Copy, Debug, PartialEq, Eq)]
pub enum Kind {
    Stuff,
    Data,
}

// The letter in a list of runs.
impl fmt::Display for Kind {
    fn fmt<W: fmt::Write>(&self, f: &mut fmt::Formatter<W>) -> fmt::Result {
        f.write_str(match self {
            Kind::Stuff => "S",
            Kind::Data => "D",
        })
    }
}

// The kind of a place, and the last place of its run.
#[derive(Clone, Copy, Debug, PartialEq, Eq)]
pub struct Run {
    pub kind: Kind,
    pub last: u64,
}
