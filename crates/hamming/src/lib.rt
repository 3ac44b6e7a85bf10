// The inner code: words, checks and repair. 001 section 10.5.
#![tactic(auto)]

ghost use Rattle.std.specs.Prelude.{◌≡◌, ◌*◌, ◌%◌, ◌^◌, ◌<◌};
ghost use Rattle.sizes.specs.Sizes.{word_bits, check_bits, word_bytes};
ghost use Rattle.bits.specs.Bits.{digit, bit_at};
ghost use Rattle.hamming_matrix.specs.Columns.{columns, position_of};
ghost use Rattle.hamming_matrix.specs.Sums.{tail_of};
ghost use Rattle.hamming.specs.Code.{checks_of, flip, joined_word, code_word};
ghost use Rattle.hamming.specs.Steps.{byte_sum, found_of};
ghost use Rattle.hamming.specs.Repair.{repair_at, repair_of, found_number};

// What repair found: nothing, the bit that it flipped back, or more than it can repair.
#[derive(Clone, Copy, Debug, PartialEq, Eq)]
pub enum Found {
    Clean,
    Flipped(u8),
    Beyond,
}

#[derive(Clone, Copy, Debug, PartialEq, Eq)]
pub struct Repaired {
    pub word: [u8; 16],
    pub found: Found,
}

impl Found {
    // The refusal that a repair comes to, by document 01's numbers.
    // Kept: a number, 0 where there is no refusal: `found_number`, in which read_spec's `is_beyond` is stated, and `one_number` say it so.
    pub fn number(self) -> u8
        ensures { result ≡ found_number self }
    {
        match self {
            Found::Clean => 0,
            Found::Flipped(_) => 0,
            Found::Beyond => 4,
        }
    }

    // Whether the checks were not zero: a repaired check bit counts too.
    pub fn is_found(self) -> bool
        ensures { result ≡ found_of self }
    {
        match self {
            Found::Clean => false,
            Found::Flipped(_) => true,
            Found::Beyond => true,
        }
    }
}

// The bit b times the column c.
fn times(b: u8, c: u16) -> u16
    requires { b < 2 }
    ensures { result ≡ b * c }
{
    if b == 1 { c } else { 0 }
}

// Digit j of a byte, the top one being digit 0.
fn digit_of(x: u8, j: usize) -> u8
    requires { j < 8 }
    ensures { result ≡ digit 8 x j }
{
    (x >> (7 - j)) % 2
}

// What byte k of a word adds to the checks where it is x.
// Kept: j counts the digits of a byte, which are in no slice.
fn byte_sum(t: &[u16; 128], k: usize, x: u8) -> u16
    requires { (t.now ≡ columns) × (k < word_bytes) }
    ensures { result ≡ byte_sum k x }
{
    let mut sum = 0u16;
    for j in 0..8 {
        sum ^= times(digit_of(x, j), t[8 * k + j]);
    }
    sum
}

// The nine checks of any sixteen bytes.
pub fn checks(w: [u8; 16]) -> u16
    ensures { result ≡ checks_of w }
{
    let t = hamming_matrix::column_table();
    let mut sum = 0u16;
    for (k, x) in w.iter().enumerate() {
        sum ^= byte_sum(&t, k, *x);
    }
    sum
}

// The first 119 bits of e, and then the nine lowest of p.
pub fn join(e: [u8; 16], p: u16) -> [u8; 16]
    ensures { result ≡ joined_word (bit_at e) (p % 2 ^ check_bits) }
{
    let q = p % 512;
    let mut w = e;
    w[14] = w[14] / 2 * 2 + (q / 256) as u8;
    w[15] = (q % 256) as u8;
    w
}

// The check bits that add c to the checks, for one word.
fn tail(c: u16) -> u16
    requires { c < 2 ^ check_bits }
    ensures { result ≡ tail_of c }
{
    let tails = hamming_matrix::tail_table();
    tails[usize::from(c)]
}

// The code word of an element: its bits 0..118, and the nine that make all checks zero. Bits 119..127 of the argument are ignored.
pub fn encode(e: [u8; 16]) -> [u8; 16]
    ensures { result ≡ code_word e }
{
    join(e, tail(checks(join(e, 0))))
}

// The bit whose column c is, for one word.
fn position(c: u16) -> u8
    requires { c < 2 ^ check_bits }
    ensures { result ≡ position_of c }
{
    let positions = hamming_matrix::position_table();
    positions[usize::from(c)]
}

// The word with bit i flipped.
fn flipped(w: [u8; 16], i: usize) -> [u8; 16]
    requires { i < word_bits }
    ensures { result ≡ flip w i }
{
    let mut v = w;
    v[i / 8] ^= 128 >> (i % 8);
    v
}

// The word where its checks are c and i is the bit whose column they are.
// Kept: an i of 128 or more is no bit: the definition `repair_at`, its theorem `one_repair_at` and the table of `position_of` take it so.
pub fn repair_at(w: [u8; 16], c: u16, i: u8) -> Repaired
    ensures { result ≡ repair_at w c i }
{
    if c == 0 {
        return Repaired {
            word: w,
            found: Found::Clean,
        };
    }
    if i < sizes::WORD_BITS as u8 {
        let v = flipped(w, usize::from(i));
        return Repaired {
            word: v,
            found: Found::Flipped(i),
        };
    }
    Repaired {
        word: w,
        found: Found::Beyond,
    }
}

// Any sixteen bytes: one flipped bit is flipped back.
pub fn repair(w: [u8; 16]) -> Repaired
    ensures { result ≡ repair_of w }
{
    let c = checks(w);
    repair_at(w, c, position(c))
}
