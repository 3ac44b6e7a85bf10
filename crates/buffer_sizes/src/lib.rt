// The lengths of the buffers of a call, for any numbers at all, and spaces that have room for them.
#![tactic(auto)]

ghost use Rattle.std.specs.Prelude.{◌≡◌, ◌≤◌, ◌+◌, ◌*◌, ◌^◌, length, replicate};
ghost use Rattle.sizes.specs.Sizes.{places, most_frames, info_length, parity_length, capture_length, group_bytes, window_bytes};
ghost use Rattle.gmp.specs.Steps.{data_in};
ghost use Rattle.buffer_sizes.specs.Lengths.{large_bytes, small_bytes, Stated, up_to};

const MOST: u64 = sizes::MOST_FRAMES as u64;

// A capture of eight super frames has 1,412,608 bytes, and no other buffer is longer. A space has one byte more, so that what is too long is seen.
pub const LARGE_BYTES: usize = sizes::MOST_FRAMES * sizes::SUPER_CAPTURE_BYTES
    + sizes::FILLER_BYTES
    + 1;

pub type Large = [u8; LARGE_BYTES];

// The parity of eight super frames has 81,920 bytes.
pub const SMALL_BYTES: usize = sizes::MOST_FRAMES * sizes::SUPER_PARITY_BYTES + 1;

pub type Small = [u8; SMALL_BYTES];

// Kept: two functions. Each is the one literal `[0; N]`; a function over N would be called as `space::<LARGE_BYTES>()` and say no more.
pub fn large_space() -> Large
    ensures room { large_bytes ≡ length result }
    ensures zeros { result ≡ replicate large_bytes 0 }
{
    [0; LARGE_BYTES]
}

pub fn small_space() -> Small
    ensures room { small_bytes ≡ length result }
    ensures zeros { result ≡ replicate small_bytes 0 }
{
    [0; SMALL_BYTES]
}

// The bytes of information of n super frames; 0 where no capture has so many.
// Kept: 0 and no Option, here and in the four behind: it is what `up_to` and `data_in` of the clauses state for every n.
pub fn information(n: u64) -> usize
    ensures { Stated (info_length most_frames) (up_to most_frames info_length n) result }
{
    frames(n, sizes::SUPER_INFO_BYTES, 0)
}

// The bytes of parity of n super frames.
pub fn parity(n: u64) -> usize
    ensures { Stated (parity_length most_frames) (up_to most_frames parity_length n) result }
{
    frames(n, sizes::SUPER_PARITY_BYTES, 0)
}

// The bytes of a capture of n super frames.
pub fn capture(n: u64) -> usize
    ensures { Stated (capture_length most_frames) (up_to most_frames capture_length n) result }
{
    frames(n, sizes::SUPER_CAPTURE_BYTES, sizes::FILLER_BYTES)
}

// The bytes of n super frames, with `behind` more behind the last; 0 where no capture has so many.
fn frames(n: u64, each: usize, behind: usize) -> usize
    requires { (each ≤ 2 ^ 32) × (behind ≤ 2 ^ 32) }
    ensures { Stated (each * most_frames + behind) (up_to most_frames (λ m. each * m + behind) n) result }
{
    if MOST < n {
        return 0;
    }
    each * (n as usize) + behind
}

// The bytes of a window of n places.
pub fn window(n: u64) -> usize
    ensures { Stated (window_bytes places) (up_to places window_bytes n) result }
{
    if sizes::PLACES < n {
        return 0;
    }
    sizes::PAIR_BYTES * (n as usize) / 2
}

// The bytes of the groups in the window of n places from f on. Where the numbers are outside their sets it is 0, and mapping refuses them.
pub fn groups(c: u64, f: u64, n: u64) -> usize
    ensures { Stated (group_bytes places) (group_bytes (data_in c f n)) result }
{
    let d = gmp::data_in(c, f, n);
    (sizes::PAIR_BYTES * (d as usize) + 1) / 2
}
