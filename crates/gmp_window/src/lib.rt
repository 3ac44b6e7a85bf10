// What a payload window is, and what mapping and unmapping answer: document 01, "GMP places" and "Numbers handed back".
#![tactic(auto)]

ghost use Rattle.std.specs.Prelude.{◌≡◌, ◌≤◌};
ghost use Rattle.answer.specs.Refusals.{answered};
ghost use Rattle.sizes.specs.Sizes.{places, group_bytes, window_bytes};
ghost use Rattle.gmp_window.specs.Windows.{outside_window, groups_spare_set};
ghost use Rattle.gmp_window.specs.Answers.{map_answer, unmap_answer};

use answer::{Refusal, Refused};
use sizes::{GROUP_BITS, PAIR_BYTES};

// What mapping answers: its buffers are the groups and the window.
pub fn map_answer(c: u64, f: u64, n: u64, groups: &[u8], window: usize) -> Result<u64, Refused>
    ensures { answered result ≡ map_answer c f n groups.now window }
{
    answer::refuse_when(outside_window(c, f, n), Refusal::OutsideSet, 0)?;
    let d = gmp::data_in(c, f, n);
    answer::refuse_length(1, groups.len() as u64, group_bytes(d))?;
    answer::refuse_length(2, window as u64, window_bytes(n))?;
    answer::refuse_when(
        spare_set(d, groups),
        Refusal::SpareBit,
        answer::buffer_place(1),
    )?;
    Ok(d)
}

// What unmapping answers: its buffers are the window and the groups.
pub fn unmap_answer(c: u64, f: u64, n: u64, window: usize, groups: usize) -> Result<u64, Refused>
    ensures { answered result ≡ unmap_answer c f n window groups }
{
    answer::refuse_when(outside_window(c, f, n), Refusal::OutsideSet, 0)?;
    let d = gmp::data_in(c, f, n);
    answer::refuse_length(1, window as u64, window_bytes(n))?;
    answer::refuse_length(2, groups as u64, group_bytes(d))?;
    Ok(d)
}

// The bytes of d data groups.
fn group_bytes(d: u64) -> u64
    requires { d ≤ places }
    ensures { result ≡ group_bytes d }
{
    ((PAIR_BYTES as u64) * d + 1) / 2
}

// The bytes of n places.
fn window_bytes(n: u64) -> u64
    requires { n ≤ places }
    ensures { result ≡ window_bytes n }
{
    (PAIR_BYTES as u64) * n / 2
}

// Whether c, f and n are no count and window.
fn outside_window(c: u64, f: u64, n: u64) -> bool
    ensures { result ≡ outside_window c f n }
{
    f % 2 == 0 || n % 2 == 1 || n < 2 || gmp::outside_stretch(c, f, n)
}

// Whether there is an odd number of groups and one of the last four bits is set.
fn spare_set(d: u64, groups: &[u8]) -> bool
    requires { d ≤ places }
    ensures { result ≡ groups_spare_set d groups.now }
{
    d % 2 == 1 && bits::byte_from(groups, GROUP_BITS * (d as usize)) / 16 != 0
}
