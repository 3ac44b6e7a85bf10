// The scrambler added, eight bits at a time: coding, reading and editing have this one function for it. Adding it twice gives the bytes back.
#![tactic(auto)]

ghost use Rattle.std.specs.Prelude.{ℕ, ◌≡◌, ◌+◌, ◌/◌, ◌≤◌, length, get_or};
ghost use Rattle.sizes.specs.Sizes.{word_bytes};
ghost use Rattle.prelude.specs.Lists.{tabulate, from_index};
ghost use Rattle.bits.specs.Bits.{bit_at, pack, added};
ghost use Rattle.scrambling.specs.Steps.{added_byte, period_place};

// One period of the scrambler's sequence, and a word's bits more, so that a word can be cut out anywhere.
pub const PERIOD_BYTES: usize = 8208;

// Adds the sequence from bit `at` on to the bits of out, eight at a time, out of the bytes that `byte` gives: those of the sequence.
fn add_by<F: Fn(usize) -> u8>(byte: F, sequence: &[u8], at: usize, out: &mut [u8])
    requires may { (k : ℕ) → at / 8 ≤ k → k ≤ at / 8 + length out.old → F.pre byte k }
    requires gives { (k : ℕ) (x : _) → F.post byte k x → x ≡ get_or sequence.now k 0 }
    ensures { out.new ≡ tabulate (length out.old) (added_byte out.old (from_index (bit_at sequence.now) at)) }
{
    let first = at / 8;
    for (k, x) in out.iter_mut().enumerate() {
        *x ^= bits::eight_of(byte(first + k), byte(first + k + 1), at);
    }
}

// Adds the sequence from bit `at` on to the bits of out: a super frame, an element or a part of one, scrambled or descrambled. Past its
// end the sequence adds nothing; where it reaches past the bytes none is tested.
pub fn add(sequence: &[u8], at: usize, out: &mut [u8])
    ensures { out.new ≡ tabulate (length out.old) (added_byte out.old (from_index (bit_at sequence.now) at)) }
{
    if at / 8 + out.len() < sequence.len() {
        add_by(|k| sequence[k], sequence, at, out);
    } else {
        add_by(|k| bits::byte_at(sequence, k), sequence, at, out);
    }
}

// Where element e begins in the period. The sequence is started anew at each super frame.
fn place(e: usize) -> usize
    ensures { result ≡ period_place e }
{
    sizes::ELEMENT_BITS * (e % sizes::SUPER_ELEMENTS) % scrambler::PERIOD
}

// The word v of element e, scrambled or descrambled by the period that is lent.
pub fn element(period: &[u8; PERIOD_BYTES], e: usize, v: [u8; 16]) -> [u8; 16]
    ensures { result ≡ pack word_bytes (added (bit_at v) (from_index (bit_at period.now) (period_place e))) }
{
    let mut r = v;
    add(period, place(e), &mut r);
    r
}
