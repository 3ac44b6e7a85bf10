// GMP places and their runs: document 01, "GMP places".
#![tactic(auto)]

ghost use Rattle.std.specs.Prelude.{◌≡◌, true, false, IfErr};
ghost use Rattle.answer.specs.Refusals.{answered};
ghost use Rattle.gmp.specs.Places.{is_data, outside_stretch};
ghost use Rattle.gmp.specs.Runs.{last_of_run, runs_from};
ghost use Rattle.gmp.specs.Answers.{outside_place, told, run_of, runs_of};
ghost use Rattle.gmp.specs.Steps.{Place, DataIn, run_at};

mod told;

use answer::{Refusal, Refused};
use sizes::PLACES;
pub use told::{Kind, Run};

// The kind of place j and the last place of its run.
pub fn run(c: u64, j: u64) -> Result<Run, Refused>
    ensures told { told result ≡ run_of c j }
    ensures place { IfErr result (λ r. r.place ≡ 0) }
{
    if outside_place(c, j) {
        return Err(Refusal::OutsideSet.at(0));
    }
    Ok(run_at(c, j))
}

// How many runs there are from place j on, what is left of j's own counting as one.
pub fn runs(c: u64, j: u64) -> Result<u64, Refused>
    ensures { answered result ≡ runs_of c j }
{
    answer::refuse_when(outside_place(c, j), Refusal::OutsideSet, 0)?;
    if is_data(c, j) {
        return Ok(data_runs(c, j));
    }
    Ok(stuff_runs(c, j))
}

// How many of the n places from f on are data. Where c is no count, or they are not all places, it is 0.
// Kept: 0 and no Option: `DataIn` promises a number for any c, f and n, and the lengths of groups (crate buffer_sizes) are made of it.
pub fn data_in(c: u64, f: u64, n: u64) -> u64
    ensures { DataIn c f n result }
{
    if outside_stretch(c, f, n) {
        return 0;
    }
    (f - 1 + n) * c / PLACES - (f - 1) * c / PLACES
}

// Whether c is no count or the n places from f on are not all places.
pub fn outside_stretch(c: u64, f: u64, n: u64) -> bool
    ensures { result ≡ outside_stretch c f n }
{
    // f + n could wrap, so n is taken to the other side.
    PLACES < c || f < 1 || PLACES < n || PLACES - n + 1 < f
}

// Whether c is no count or j no place.
fn outside_place(c: u64, j: u64) -> bool
    ensures { result ≡ outside_place c j }
{
    PLACES < c || j < 1 || PLACES < j
}

// Whether place j is data.
// Kept: c and j side by side, and `Place c j` required of them, here and below: a struct of the two would be made anew for each place gone on to.
fn is_data(c: u64, j: u64) -> bool
    requires { Place c j }
    ensures { result ≡ is_data c j }
{
    j * c % PLACES < c
}

// The run of place j.
fn run_at(c: u64, j: u64) -> Run
    requires { Place c j }
    ensures { result ≡ run_at c j }
{
    if is_data(c, j) {
        Run {
            kind: Kind::Data,
            last: data_last(c, j),
        }
    } else {
        Run {
            kind: Kind::Stuff,
            last: stuff_last(c, j),
        }
    }
}

// Kept: `data_last` and `stuff_last` are two formulas, of which each divides by what the other does not: one function would hold both in a `match`.
// The last place of the run of a data place: its residue falls by PLACES - c at each place.
fn data_last(c: u64, j: u64) -> u64
    requires { Place c j × (is_data c j ≡ true) }
    ensures { result ≡ last_of_run c j }
{
    if c == PLACES {
        return PLACES;
    }
    j + j * c % PLACES / (PLACES - c)
}

// The last place of the run of a stuff place: its residue grows by c at each place.
fn stuff_last(c: u64, j: u64) -> u64
    requires { Place c j × (is_data c j ≡ false) }
    ensures { result ≡ last_of_run c j }
{
    if c == 0 {
        return PLACES;
    }
    j + (PLACES - 1 - j * c % PLACES) / c
}

// The runs from data place j on: its own, and those of the stuff place behind it.
// Kept: document 01, "Which places take which form", asks for two functions, one for each kind, that call each other.
#[cycle(data_runs_stuff_runs)]
fn data_runs(c: u64, j: u64) -> u64
    requires { Place c j × (is_data c j ≡ true) }
    ensures { result ≡ runs_from c j }
{
    let last = data_last(c, j);
    if last == PLACES {
        return 1;
    }
    1 + stuff_runs(c, last + 1)
}

// The runs from stuff place j on: its own, and those of the data place behind it.
#[cycle(data_runs_stuff_runs)]
fn stuff_runs(c: u64, j: u64) -> u64
    requires { Place c j × (is_data c j ≡ false) }
    ensures { result ≡ runs_from c j }
{
    let last = stuff_last(c, j);
    if last == PLACES {
        return 1;
    }
    1 + data_runs(c, last + 1)
}
