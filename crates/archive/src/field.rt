// Numbers in bytes, high byte first, and the fields of entries.
ghost use Rattle.std.specs.Prelude.{◌≡◌, ◌+◌, ◌*◌, ◌^◌, ◌≤◌, ◌<◌, length, get_or};
ghost use Rattle.archive_spec.specs.File.{most_entries, head_bytes, bytes_of, number_at, count_outside, kind_outside};
ghost use Rattle.archive_spec.specs.Read.{overwritten};
ghost use Rattle.archive_spec.specs.Steps.{field_in, Number, placed, Room, Listed};

use crate::{BEFORE_ENTRIES, ENTRY_BYTES, Kind, MOST_ENTRIES};

// The bytes with which every capture file begins.
pub(crate) const FIXED: [u8; 16] = *b"400ZR CAPTURE 1\n";

// Whether it is no count of entries.
pub(crate) fn count_outside(n: u64) -> bool
    ensures { result ≡ count_outside n }
{
    !(1..=MOST_ENTRIES as u64).contains(&n)
}

// Whether it is no kind of body.
pub(crate) fn kind_outside(kind: u64) -> bool
    ensures { result ≡ kind_outside kind }
{
    Kind::try_from(kind).is_err()
}

// Where entry e begins, which is how long a head of e entries is.
// Kept: bounds of indices (e, n, k), here and where entries are gone over: a struct that holds n alone would be `entries.n` at each of its uses.
pub(crate) fn entry_from(e: usize) -> usize
    requires { e ≤ most_entries }
    ensures { result ≡ head_bytes e }
{
    BEFORE_ENTRIES + ENTRY_BYTES * e
}

// The number that the k bytes from byte a on are; past the end there are zeros.
pub(crate) fn number_at(k: usize, s: &[u8], a: usize) -> u64
    requires { (k ≤ 4) × (a ≤ 1000) }
    ensures { Number k s.now a result }
{
    let mut x: u64 = 0;
    // Kept: past the end there are zeros, which `byte_at` gives: a slice of k bytes may not be there to go over.
    for j in 0..k {
        x = x * 256 + bits::wide(bits::byte_at(s, a + j)) as u64;
    }
    x
}

// Writes a number into the k bytes from byte `at` on.
pub(crate) fn put_number(x: u64, k: usize, at: usize, to: &mut [u8])
    requires { (k ≤ 4) × (x < 2 ^ (8 * k)) × (at + k ≤ length to.old) }
    ensures { to.new ≡ placed to.old at (bytes_of k x) }
{
    // Kept: j picks the byte of the number and its place alike: `enumerate` over the places would hand out the same j, and `at` in a slice beside it.
    for j in 0..k {
        to[at + j] = ((x >> (8 * (k - 1 - j))) % 256) as u8;
    }
}

// Lists the three fields of n entries.
pub(crate) fn list_all(
    first: &[u8],
    n: usize,
    kinds: &mut [u64],
    offsets: &mut [u64],
    lengths: &mut [u64],
)
    requires { Room n (length kinds.old) (length offsets.old) (length lengths.old) }
    ensures { Listed n first.now kinds.old offsets.old lengths.old kinds.new offsets.new lengths.new }
{
    list(first, 0, 1, n, kinds);
    list(first, 1, 4, n, offsets);
    list(first, 5, 4, n, lengths);
}

// Lists one field of n entries: the k bytes from byte `at` of each on.
fn list(first: &[u8], at: usize, k: usize, n: usize, to: &mut [u64])
    requires { (at ≤ 8) × (k ≤ 4) × (n ≤ most_entries) × (n ≤ length to.old) }
    ensures { to.new ≡ overwritten n (field_in k at first.now) to.old }
{
    // Kept: e picks the entry in the bytes, which are no list: `to[..n].iter_mut().enumerate()` would hand out the same e.
    for e in 0..n {
        to[e] = number_at(k, first, entry_from(e) + at);
    }
}
