// The scrambler's sequence, packed into bytes, first bit on top.
#![tactic(auto)]

ghost use Rattle.std.specs.Prelude.{◌≡◌, ◌*◌, ◌≤◌, ◌<◌, ◌^◌, length};
ghost use Rattle.bits.specs.Bits.{pack};
ghost use Rattle.scrambler.specs.Scrambler.{o};
ghost use Rattle.sizes.specs.Sizes.{super_bytes};
ghost use Rattle.scrambler.specs.Steps.{Steps, Rule, Opened, SequenceBegun};

// After so many bits the sequence repeats.
pub const PERIOD: usize = 65535;

// o(0), .., o(15).
const START: u32 = 0xFFFF;

// The register goes on by one bit. It holds o(k), .., o(k+15), with o(k) on top.
fn next(s: u32) -> u32
    requires { s < 2 ^ 16 }
    ensures { Steps 1 s result }
{
    (s * 2 + (s % 2 + s / 4 % 2 + s / 2048 % 2 + s / 32768 % 2) % 2) % 65536
}

// The register goes on by a byte: the one place that says how.
fn next8(s: u32) -> u32
    requires { s < 2 ^ 16 }
    ensures { Steps 8 s result }
{
    next(next(next(next(next(next(next(next(s))))))))
}

// The first m bytes, from the register.
fn begin(out: &mut [u8], m: usize)
    requires { m ≤ length out.old }
    ensures { Opened m out.old out.new }
{
    let mut s = START;
    for x in out[..m].iter_mut() {
        *x = (s / 256) as u8;
        s = next8(s);
    }
}

// The bytes 16 s .. m - 1, each the sum of four before it: the rule, taken at a stride of s bytes.
// Kept: a byte is written and four others of the same slice are read, of which some were written s turns before: `iter_mut` lends them all.
fn go_on(out: &mut [u8], s: usize, m: usize)
    requires { (1 ≤ s) × (Rule (8 * s)) × (16 * s ≤ m) × (m ≤ length out.old) × (SequenceBegun (16 * s) out.old) }
    ensures { (SequenceBegun m out.new) × (length out.new ≡ length out.old) }
{
    for k in 16 * s..m {
        out[k] = out[k - s] ^ out[k - 3 * s] ^ out[k - 12 * s] ^ out[k - 16 * s];
    }
}

// Fills out with the sequence from its start: what is added to the bytes of a super frame. The stride grows with what is there, so that
// many bytes can be added at once.
pub fn fill(out: &mut [u8])
    ensures { out.new ≡ pack (length out.old) o }
{
    let n = out.len();
    if n < 1024 {
        begin(out, n);
    } else {
        begin(out, 16);
        go_on(out, 1, 64);
        go_on(out, 4, 256);
        go_on(out, 16, 1024);
        go_on(out, 64, n);
    }
}

// The sequence of a whole super frame. Who has a buffer lends it to `fill` and spares a copy of the array.
pub fn sequence() -> [u8; sizes::SUPER_BYTES]
    ensures { result ≡ pack super_bytes o }
{
    let mut out = [0u8; sizes::SUPER_BYTES];
    fill(&mut out);
    out
}
