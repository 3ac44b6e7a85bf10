// The count that a first line holds, in decimal: document 01, "GMP places".
#![tactic(auto)]

ghost use Rattle.std.specs.Prelude.{◌≡◌, Some, cond, eqb, length};
ghost use Rattle.std.specs.Option.{unwrap_or};
ghost use Rattle.prelude.specs.Loops.{upto};
ghost use Rattle.answer.specs.Refusals.{answered};
ghost use Rattle.decimal.specs.Steps.{next_at};
ghost use Rattle.gmp_count.specs.Count.{first_length, count_of};
ghost use Rattle.gmp_count.specs.Steps.{too_much, nothing_read, more_of, so_far, Unchanged};

use answer::{Refusal, Refused};

// The largest count.
const MOST: u64 = sizes::PLACES;

// Above every count: a number that is larger is read as this, so that a line of any length is read.
const TOO_MUCH: u32 = sizes::PLACES as u32 + 1;

// What is kept of a first line while the input comes in parts.
#[derive(Clone, Copy, Debug, PartialEq, Eq)]
pub struct Partial {
    // Nothing before the first byte; then the number of the bytes, which is none where they are not all digits.
    pub value: Option<Option<u64>>,
    pub ended: bool,
}

// The count of the first line of s, or its refusal.
pub fn count_of(s: &[u8]) -> Result<u64, Refused>
    ensures { answered result ≡ count_of s.now }
{
    Partial::start().more(s).so_far()
}

impl Partial {
    // Before the first byte.
    pub fn start() -> Partial
        ensures { result ≡ nothing_read }
    {
        Partial {
            value: None,
            ended: false,
        }
    }

    // The next part of the input.
    pub fn more(self, s: &[u8]) -> Partial
        ensures { result ≡ more_of self s.now }
    {
        let Partial { value, ended } = self;
        if ended {
            return self;
        }
        let end = line_length(s);
        Partial {
            value: more_of_line(value, &s[..end]),
            ended: end < s.len(),
        }
    }

    // What has been read, as a count.
    pub fn so_far(self) -> Result<u64, Refused>
        ensures { answered result ≡ so_far self }
    {
        match self.value.flatten() {
            Some(count) if count <= MOST => Ok(count),
            _ => Err(Refusal::OutsideSet.at(0)),
        }
    }
}

// How many bytes of s stand before its first line feed: all where it has none.
fn line_length(s: &[u8]) -> usize
    ensures { result ≡ first_length s.now }
{
    for (i, &b) in s.iter().enumerate() {
        if b == b'\n' {
            return i;
        }
    }
    s.len()
}

// The value with more bytes of the line behind it: where there are none it stays, so that an empty line has none.
fn more_of_line(value: Option<Option<u64>>, line: &[u8]) -> Option<Option<u64>>
    ensures { result ≡ cond (eqb (length line.now) 0) value (Some (upto (next_at too_much line.now) (unwrap_or value (Some 0)) (length line.now))) }
{
    if line.is_empty() {
        return value;
    }
    Some(read_on(value.unwrap_or(Some(0)), line))
}

// The number of the bytes with those of s behind them, which is none where they are not all digits.
fn read_on(number: Option<u64>, s: &[u8]) -> Option<u64>
    ensures { result ≡ upto (next_at too_much s.now) number (length s.now) }
{
    let v = number?;
    let front = zeros_in_front(v, s);
    read_digits(v, &s[front..])
}

// How many bytes in front of s are passed over, since they leave v as it is: its zeros where v is 0, and else none. They would take longer in
// `read_digits`, where each turn waits for the number of the turn before.
fn zeros_in_front(v: u64, s: &[u8]) -> usize
    ensures { Unchanged v s.now result }
{
    if v != 0 {
        return 0;
    }
    for (k, &b) in s.iter().enumerate() {
        if b != b'0' {
            return k;
        }
    }
    s.len()
}

// What `read_on` answers behind the number v, a byte a turn.
fn read_digits(v: u64, s: &[u8]) -> Option<u64>
    ensures { result ≡ upto (next_at too_much s.now) (Some v) (length s.now) }
{
    let mut v = v;
    for (k, &b) in s.iter().enumerate() {
        if v == u64::from(TOO_MUCH) {
            return read_above(&s[k..]);
        }
        v = decimal::next_value(TOO_MUCH, v, b)?;
    }
    Some(v)
}

// What `read_on` answers above every count, where a digit changes nothing, so that no turn waits for another.
fn read_above(s: &[u8]) -> Option<u64>
    ensures { result ≡ upto (next_at too_much s.now) (Some too_much) (length s.now) }
{
    for &b in s {
        if !b.is_ascii_digit() {
            return None;
        }
    }
    Some(u64::from(TOO_MUCH))
}
