// Data groups go into the data places of a window, and come back: document 01, "GMP places".
#![tactic(auto)]

ghost use Rattle.std.specs.Prelude.{◌≡◌, ◌+◌, ◌*◌, ◌/◌, ◌≤◌, ◌<◌, length};
ghost use Rattle.prelude.specs.Lists.{tabulate};
ghost use Rattle.bits.specs.Bits.{num, byte_of, pack};
ghost use Rattle.answer.specs.Refusals.{answered};
ghost use Rattle.gmp.specs.Places.{data_from};
ghost use Rattle.gmp.specs.Steps.{DataIn};
ghost use Rattle.gmp_window.specs.Windows.{Window};
ghost use Rattle.sizes.specs.Sizes.{places, group_bits, pair_bytes, group_bytes, window_bytes};
ghost use Rattle.gmp_map.specs.Groups.{window_bit, groups_bit, Mapped, Unmapped};
ghost use Rattle.gmp_map.specs.Steps.{GroupAt, Placed, piece, pair_bit};

use answer::Refused;
use sizes::{GROUP_BITS, PAIR_BYTES, PLACES};

// Writes the data groups into their places of a window, and zeros into stuff.
pub fn map(c: u64, f: u64, n: u64, groups: &[u8], window: &mut [u8]) -> Result<u64, Refused>
    ensures { Mapped c f n groups.now window.old (answered result) window.new }
{
    let d = gmp_window::map_answer(c, f, n, groups, window.len())?;
    let places = Places { c, f, n };
    places.fill_window(groups, window);
    Ok(d)
}

// Gives the data groups of a window back. Stuff is not looked at.
pub fn unmap(c: u64, f: u64, n: u64, window: &[u8], groups: &mut [u8]) -> Result<u64, Refused>
    ensures { Unmapped c f n window.now groups.old (answered result) groups.new }
{
    let d = gmp_window::unmap_answer(c, f, n, window.len(), groups.len())?;
    let places = Places { c, f, n };
    places.fill_groups(window, groups);
    Ok(d)
}

// Eight bits of a piece of s from its bit i on; the piece stands from bit `at` on, or there is none, and the bits are zero.
fn eight(s: &[u8], at: Option<usize>, i: usize) -> u8
    requires { Placed at × (i ≤ group_bits) }
    ensures { result ≡ num 8 (piece s.now at) i }
{
    match at {
        Some(from) => bits::byte_from(s, from + i),
        None => 0,
    }
}

// Byte k of two pieces of s. They meet in the middle of byte 128.
fn pair_byte(s: &[u8], first: Option<usize>, second: Option<usize>, k: usize) -> u8
    requires { Placed first × Placed second × (k < pair_bytes) }
    ensures { result ≡ byte_of (pair_bit s.now first second) k }
{
    if k < 128 {
        return eight(s, first, 8 * k);
    }
    if 128 < k {
        return eight(s, second, 8 * k - GROUP_BITS);
    }
    eight(s, first, 1024) / 16 * 16 + eight(s, second, 0) / 16
}

// The bytes of two pieces, or as many of them as there is room for.
fn fill_pair(s: &[u8], first: Option<usize>, second: Option<usize>, out: &mut [u8])
    requires { Placed first × Placed second × (length out.old ≤ pair_bytes) }
    ensures { out.new ≡ pack (length out.old) (pair_bit s.now first second) }
{
    for (k, byte) in out.iter_mut().enumerate() {
        *byte = pair_byte(s, first, second, k);
    }
}

// The n places from place f on of a count c, which are a window.
#[derive(Clone, Copy)]
struct Places {
    c: u64,
    f: u64,
    n: u64,
    ghost window: { Window c f n },
}

impl Places {
    // Places 2 p and 2 p + 1 of a window, counted from 0.
    fn fill_places(self, p: usize, groups: &[u8], out: &mut [u8])
        requires { (p < self.n / 2) × (length out.old ≡ pair_bytes) }
        ensures { out.new ≡ tabulate pair_bytes (λ k. byte_of (window_bit self.c self.f groups.now) (pair_bytes * p + k)) }
    {
        let m = 2 * (p as u64);
        // A place is data where the count grows.
        let x = gmp::data_in(self.c, self.f, m);
        let y = gmp::data_in(self.c, self.f, m + 1);
        let z = gmp::data_in(self.c, self.f, m + 2);
        let first = (x < y).then_some(GROUP_BITS * (x as usize));
        let second = (y < z).then_some(GROUP_BITS * (y as usize));
        fill_pair(groups, first, second, out);
    }

    // All places of a window, two by two.
    // Kept: an index, here and in `fill_groups`. With `chunks_exact_mut(PAIR_BYTES).enumerate()` no proof was found of what stands in the bytes that
    // the iterator has passed: its invariant reaches only those that are left.
    fn fill_window(self, groups: &[u8], window: &mut [u8])
        requires { length window.old ≡ window_bytes self.n }
        ensures { window.new ≡ pack (window_bytes self.n) (window_bit self.c self.f groups.now) }
    {
        for p in 0..(self.n / 2) as usize {
            let at = PAIR_BYTES * p;
            self.fill_places(p, groups, &mut window[at..at + PAIR_BYTES]);
        }
    }

    // Where data group q of a window with d of them stands: the first bit of its place, counted from place f; none where there is no such group.
    fn group_piece(self, d: u64, q: u64) -> Option<usize>
        requires { DataIn self.c self.f self.n d }
        ensures { GroupAt self.c self.f self.n q result }
    {
        if d <= q {
            return None;
        }
        let Places { c, f, .. } = self;
        let place = (((f - 1) * c / PLACES + q + 1) * PLACES + (c - 1)) / c - f;
        Some(GROUP_BITS * (place as usize))
    }

    // Groups 2 p and 2 p + 1 of a window with d of them.
    fn fill_two(self, d: u64, p: usize, window: &[u8], out: &mut [u8])
        requires { DataIn self.c self.f self.n d × (p ≤ places) × (length out.old ≤ pair_bytes) }
        ensures { out.new ≡ tabulate (length out.old) (λ k. byte_of (groups_bit self.c self.f self.n window.now) (pair_bytes * p + k)) }
    {
        let q = 2 * (p as u64);
        let first = self.group_piece(d, q);
        let second = self.group_piece(d, q + 1);
        fill_pair(window, first, second, out);
    }

    // All groups of a window, two by two. An odd one at the end has half a byte more than 128, and zeros behind it.
    fn fill_groups(self, window: &[u8], groups: &mut [u8])
        requires { length groups.old ≡ group_bytes (data_from self.c self.f self.n) }
        ensures { groups.new ≡ pack (group_bytes (data_from self.c self.f self.n)) (groups_bit self.c self.f self.n window.now) }
    {
        let d = gmp::data_in(self.c, self.f, self.n);
        for p in 0..((d + 1) / 2) as usize {
            let at = PAIR_BYTES * p;
            let end = groups.len().min(at + PAIR_BYTES);
            self.fill_two(d, p, window, &mut groups[at..end]);
        }
    }
}
