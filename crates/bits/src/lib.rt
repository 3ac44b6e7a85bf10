// Packed bits. Every function takes any slice and any number: past the end there are zeros.
#![tactic(auto)]

ghost use Rattle.std.specs.Prelude.{◌≡◌, ◌%◌, [], ◌∷◌, get_or};
ghost use Rattle.bits.specs.Bits.{num, bit_at};
ghost use Rattle.bits.specs.Steps.{Widened};

// Byte k of the bytes s; 0 past the end.
pub fn byte_at(s: &[u8], k: usize) -> u8
    ensures { result ≡ get_or s.now k 0 }
{
    s.get(k).copied().unwrap_or(0)
}

// Bit i of the bytes s, the first bit being the top one of the first byte; 0 past the end.
pub fn bit_at(s: &[u8], i: usize) -> u8
    ensures { result ≡ bit_at s.now i }
{
    (byte_at(s, i / 8) >> (7 - i % 8)) % 2
}

// A byte as a wider number: the one place where a byte's bound is shown.
// Kept: u32::from promises the same number and no more; `Widened.small`, that it is below 256, is what the answers of `follow` in read and
// of `number_at` in archive cite.
pub fn wide(x: u8) -> u32
    ensures { Widened x result }
{
    u32::from(x)
}

// The eight bits of two bytes, a and then b, that begin at the place of bit i in its byte.
pub fn eight_of(a: u8, b: u8, i: usize) -> u8
    ensures { result ≡ num 8 (bit_at (a ∷ b ∷ [])) (i % 8) }
{
    (((u32::from(a) * 256 + u32::from(b)) >> (8 - i % 8)) % 256) as u8
}

// The eight bits from bit i on, wherever they stand; zeros past the end.
pub fn byte_from(s: &[u8], i: usize) -> u8
    ensures { result ≡ num 8 (bit_at s.now) i }
{
    let k = i / 8;
    eight_of(byte_at(s, k), byte_at(s, k + 1), i)
}
