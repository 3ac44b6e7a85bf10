// Bits put at their places in a word, eight at a time: a border within a byte is a mask. Every function takes any slice and any number.
#![tactic(auto)]

ghost use Rattle.std.specs.Prelude.{◌≡◌, ◌≤◌, ◌<◌};
ghost use Rattle.sizes.specs.Sizes.{word_bytes};
ghost use Rattle.bits.specs.Bits.{num, digit, bit_at, pack};
ghost use Rattle.bits_place.specs.Steps.{placed_at, masked, EightBefore, fronted, room_byte};

// Sixteen bytes of zeros, and then a word.
const ROOM_BYTES: usize = 2 * sizes::WORD_BYTES;

// The 128 bits from place q on of a field that begins at place a: zeros before it, and past its end.
pub fn placed(field: &[u8], a: usize, q: usize) -> [u8; 16]
    ensures { result ≡ pack word_bytes (placed_at a q (bit_at field.now)) }
{
    if a <= q {
        return bits_copy::word_from(field, q - a);
    }
    behind(field, a - q)
}

// d zeros, and then the bits of the field.
fn behind(field: &[u8], d: usize) -> [u8; 16]
    ensures { result ≡ pack word_bytes (placed_at d 0 (bit_at field.now)) }
{
    if sizes::WORD_BITS <= d {
        return [0u8; 16];
    }
    let mut room = [0u8; ROOM_BYTES];
    for (k, x) in room.iter_mut().enumerate() {
        *x = room_byte(field, k);
    }
    bits_copy::word_from(&room, sizes::WORD_BITS - d)
}

// Byte k of the room.
fn room_byte(field: &[u8], k: usize) -> u8
    requires { k < 32 }
    ensures { result ≡ room_byte field.now k }
{
    if k < sizes::WORD_BYTES {
        return 0;
    }
    bits::byte_from(field, 8 * (k - sizes::WORD_BYTES))
}

// A word whose first bit stands at place q: x in the places a .. z - 1, and old in the others.
pub fn under(a: usize, z: usize, q: u32, x: [u8; 16], old: [u8; 16]) -> [u8; 16]
    ensures { result ≡ pack word_bytes (masked a z q (bit_at x) (bit_at old)) }
{
    let mut r = [0u8; 16];
    for (k, y) in r.iter_mut().enumerate() {
        *y = under_byte(a, z, q as usize + 8 * k, x[k], old[k]);
    }
    r
}

// The same for the eight places from p on.
fn under_byte(a: usize, z: usize, p: usize, x: u8, old: u8) -> u8
    ensures { result ≡ num 8 (masked a z p (digit 8 x) (digit 8 old)) 0 }
{
    front(places_before(p, a), old, front(places_before(p, z), x, old))
}

// How many of the eight places from p on lie before place a.
fn places_before(p: usize, a: usize) -> usize
    ensures { EightBefore p a result }
{
    a.saturating_sub(p).min(8)
}

// The first c bits of x, and then the others of y.
fn front(c: usize, x: u8, y: u8) -> u8
    requires { c ≤ 8 }
    ensures { result ≡ num 8 (fronted c x y) 0 }
{
    let d = 8 - c;
    let m = 1u32 << d;
    ((u32::from(x) >> d) * m + u32::from(y) % m) as u8
}
