// The CRC of an FEC block, a byte at a time. The table is made once and lent: a constant one would be copied at every use.
// A change of few bits needs neither: `take` goes over those bits, and `shifted` over all that stand behind them at once.
#![tactic(auto)]

ghost use Rattle.std.specs.Prelude.{◌≡◌, ◌*◌, ◌%◌, ◌<◌, [], ◌∷◌};
ghost use Rattle.crc.specs.Crc.{width, poly, crc_shift, crc_step, crc_shift_n};
ghost use Rattle.crc.specs.Steps.{entry_of, entries, byte_step, product, rem_by, opening, crc_by};

const POLY: u32 = 0x04C11DB7;

const ONES: u32 = 0xFFFFFFFF;

// What r·x leaves.
fn times_x(r: u32) -> u32
    ensures { result ≡ crc_shift r }
{
    (r << 1) ^ ((r >> 31) % 2 * POLY)
}

// The remainder r takes in one more bit.
fn take_bit(r: u32, b: u32) -> u32
    requires { b < 2 }
    ensures { result ≡ crc_step r b }
{
    times_x(r) ^ (b * POLY)
}

// The remainder r takes in one more bit, the lowest of b.
pub fn take(r: u32, b: u8) -> u32
    ensures { result ≡ crc_step r (b % 2) }
{
    take_bit(r, u32::from(b % 2))
}

// What a·b leaves: Horner's rule, the digits of b from the top.
// Kept: here and in `entry` j counts the digits of a number, which are in no slice.
fn multiply(a: u32, b: u32) -> u32
    ensures { result ≡ product width poly a b }
{
    let mut r: u32 = 0;
    for j in 0..32u32 {
        r = times_x(r) ^ ((b >> (31 - j)) % 2 * a);
    }
    r
}

// What x^m leaves. Below x^32 that is x^m itself; from there on it is the square of a lower power, times x where m is odd.
fn power(m: u64) -> u32
    ensures { result ≡ crc_shift_n m 1 }
{
    if m < 32 {
        return 1u32 << m;
    }
    let half = power(m / 2);
    let square = multiply(half, half);
    if m % 2 == 0 { square } else { times_x(square) }
}

// What r·x^m leaves: r followed by m zero bits.
pub fn shifted(r: u32, m: u64) -> u32
    ensures { result ≡ crc_shift_n m r }
{
    multiply(power(m), r)
}

// What the eight lowest bits of b leave.
fn entry(b: u32) -> u32
    ensures { result ≡ entry_of width poly b }
{
    let mut r: u32 = 0;
    for j in 0..8u32 {
        r = take_bit(r, (b >> (7 - j)) % 2);
    }
    r
}

// What each byte leaves.
pub fn table() -> [u32; 256]
    ensures { result ≡ entries }
{
    let mut t = [0u32; 256];
    for (b, x) in t.iter_mut().enumerate() {
        *x = entry(b as u32);
    }
    t
}

// The remainder r takes in the byte x: the byte that leaves on top meets it, and the table has what they leave.
fn take_byte(t: &[u32; 256], x: u8, r: u32) -> u32
    ensures { result ≡ byte_step width t.now (x ∷ []) 0 r }
{
    (r << 8) ^ t[((r >> 24) ^ u32::from(x)) as usize]
}

// From the remainder start, that of the bytes s: no complements.
pub fn remainder(t: &[u32; 256], start: u32, s: &[u8]) -> u32
    ensures { result ≡ rem_by t.now start s.now }
{
    let mut r = start;
    for x in s {
        r = take_byte(t, *x, r);
    }
    r
}

// Ones for the first 32 bits of n bytes, or for all of their bits where they are fewer. Starting from it complements those bits.
fn opening_for(n: usize) -> u32
    ensures { result ≡ opening (8 * n) }
{
    if n < 4 {
        (0x100000000 - (1u64 << (32 - 8 * n))) as u32
    } else {
        ONES
    }
}

// The CRC of the bytes s, x^31 in the top bit.
pub fn crc(t: &[u32; 256], s: &[u8]) -> u32
    ensures { result ≡ crc_by t.now s.now }
{
    ONES ^ remainder(t, opening_for(s.len()), s)
}
