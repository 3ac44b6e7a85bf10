// Bits copied out of bytes, from any bit on, and words added. Every function takes any slice and any number: past the end there are zeros.
#![tactic(auto)]

ghost use Rattle.std.specs.Prelude.{ℕ, ◌≡◌, ◌+◌, ◌/◌, ◌≤◌, length, get_or};
ghost use Rattle.sizes.specs.Sizes.{word_bytes};
ghost use Rattle.prelude.specs.Lists.{from_index};
ghost use Rattle.bits.specs.Bits.{bit_at, pack, added};

// Fills out with the bits from bit i on, out of the bytes that `byte` gives: those of the slice.
fn copy_by<F: Fn(usize) -> u8>(byte: F, s: &[u8], i: usize, out: &mut [u8])
    requires may { (k : ℕ) → i / 8 ≤ k → k ≤ i / 8 + length out.old → F.pre byte k }
    requires gives { (k : ℕ) (x : _) → F.post byte k x → x ≡ get_or s.now k 0 }
    ensures { out.new ≡ pack (length out.old) (from_index (bit_at s.now) i) }
{
    let first = i / 8;
    for (k, x) in out.iter_mut().enumerate() {
        *x = bits::eight_of(byte(first + k), byte(first + k + 1), i);
    }
}

// Fills out with the bits from bit i on, wherever they stand; zeros past the end. Where the slice reaches past them no byte is tested.
pub fn copy(s: &[u8], i: usize, out: &mut [u8])
    ensures { out.new ≡ pack (length out.old) (from_index (bit_at s.now) i) }
{
    if i / 8 + out.len() < s.len() {
        copy_by(|k| s[k], s, i, out);
    } else {
        copy_by(|k| bits::byte_at(s, k), s, i, out);
    }
}

// The sixteen bytes of the 128 bits from bit i on, wherever they stand; zeros past the end.
pub fn word_from(s: &[u8], i: usize) -> [u8; 16]
    ensures { result ≡ pack word_bytes (from_index (bit_at s.now) i) }
{
    let mut r = [0u8; 16];
    copy(s, i, &mut r);
    r
}

// Bit by bit, the sum of two words without carries.
pub fn sum(a: [u8; 16], b: [u8; 16]) -> [u8; 16]
    ensures { result ≡ pack word_bytes (added (bit_at a) (bit_at b)) }
{
    let mut r = [0u8; 16];
    for (k, x) in r.iter_mut().enumerate() {
        *x = a[k] ^ b[k];
    }
    r
}
