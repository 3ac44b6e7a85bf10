// What a call answers: a count, or why it is refused, by document 01's table. And what C is handed for it: a number, a place and a count.
#![tactic(auto)]

ghost use Rattle.std.specs.Prelude.{cond, ◌≡◌};
ghost use Rattle.answer.specs.Numbers.{wrong_length};
ghost use Rattle.answer.specs.Rows.{done, refused, wrong, buffer_place};
ghost use Rattle.answer.specs.Refusals.{refused_at, tested, found_at, answered};
ghost use Rattle.answer.specs.declared.refusal.Refusal.TheVariants.{WrongLength};

mod refusal;

pub use refusal::{Refusal, Refused};

// What C is handed.
#[repr(C)]
#[derive(Clone, Copy, Debug, PartialEq, Eq)]
pub struct Answer {
    pub number: u64,
    pub place: u64,
    pub count: u64,
}

// Done, with its count.
pub fn granted(count: u64) -> Answer
    ensures { result ≡ done count }
{
    Answer {
        number: 0,
        place: 0,
        count,
    }
}

// Refused by a number of the table at a place. The count of a refusal is 0.
pub fn refuse(number: u64, place: u64) -> Answer
    ensures { result ≡ refused number place }
{
    Answer {
        number,
        place,
        count: 0,
    }
}

impl From<Result<u64, Refused>> for Answer {
    ghost from_gives = { λ r a. a ≡ answered r };

    fn from(outcome: Result<u64, Refused>) -> Answer {
        match outcome {
            Ok(count) => granted(count),
            Err(refused) => refuse(refused.refusal.number(), refused.place),
        }
    }
}

// The place of numbers 2 and 3, by the position from 1 of the first lent buffer that is at fault.
pub fn buffer_place(position: u64) -> u64
    ensures { result ≡ buffer_place position }
{
    position
}

// One test of several in turn: where it holds the call is refused, else it goes on.
pub fn refuse_when(holds: bool, refusal: Refusal, place: u64) -> Result<(), Refused>
    ensures { result ≡ tested holds (refused_at refusal place) }
{
    if holds {
        Err(refusal.at(place))
    } else {
        Ok(())
    }
}

// A test by any number, on what C is handed: where it holds the call is refused, else what comes next answers.
pub fn refuse_if(holds: bool, number: u64, place: u64, next: Answer) -> Answer
    ensures { result ≡ cond holds (refused number place) next }
{
    if holds { refuse(number, place) } else { next }
}

// A search of several in turn: refused at the place that it found, else it goes on.
pub fn refuse_at(refusal: Refusal, found: Option<u64>) -> Result<(), Refused>
    ensures { result ≡ found_at refusal found }
{
    match found {
        Some(place) => Err(refusal.at(place)),
        None => Ok(()),
    }
}

// Lent buffer i, counted from 1, has another length than the stated one.
pub fn refuse_length(i: u64, long: u64, stated: u64) -> Result<(), Refused>
    ensures { result ≡ tested (wrong stated long) (refused_at WrongLength (buffer_place i)) }
{
    refuse_when(long != stated, Refusal::WrongLength, buffer_place(i))
}
