// Inputs made for the programs by a small stated generator, xorshift64*, and digests of what the programs wrote, FNV-1a of 64 bits.
#![tactic(auto)]

ghost use Rattle.std.specs.Prelude.{◌≡◌, ℕ};
ghost use Rattle.std.specs.List.{fold};
ghost use Rattle.test_data.specs.Generator.{
  next as next_state,
  number,
  top_byte,
  below as number_below,
  made_by,
  Made,
};
ghost use Rattle.test_data.specs.Digest.{basis, digest_with, taken_number};

// Where a digest starts.
const BASIS: u64 = 0xCBF29CE484222325;

// What buffers are made of and digests taken of: bytes and numbers.
pub trait Element: Copy {
    // The element that an output gives, and the digest h with the element x taken in.
    ghost made_of: { ℕ → Self };

    ghost taken: { ℕ → Self → ℕ };

    fn made_of(output: u64) -> Self
        ensures { result ≡ made_of output };

    fn taken_into(self, h: u64) -> u64
        ensures { result ≡ taken h self };
}

// The top eight bits of an output.
impl Element for u8 {
    ghost made_of = { top_byte };

    ghost taken = { digest_with };

    #[tactic(auto, unfolding(crate::specs::Generator::top_byte))]
    fn made_of(output: u64) -> u8 {
        (output >> 56) as u8
    }

    #[tactic(auto, unfolding(crate::specs::Digest::digest_with))]
    fn taken_into(self, h: u64) -> u64 {
        (h ^ u64::from(self)).wrapping_mul(0x100000001B3)
    }
}

// A whole output; a digest takes in its eight bytes, the high one first.
impl Element for u64 {
    ghost made_of = { λ n. n };

    ghost taken = { taken_number };

    fn made_of(output: u64) -> u64 {
        output
    }

    fn taken_into(self, h: u64) -> u64 {
        digest_from(h, &self.to_be_bytes())
    }
}

// The digest h takes in all of s.
fn digest_from<E: Element>(h: u64, s: &[E]) -> u64
    ensures { result ≡ fold E.taken h s.now }
{
    s.iter().fold(h, |h, x| x.taken_into(h))
}

// The digest of bytes, or of numbers.
pub fn digest<E: Element>(s: &[E]) -> u64
    ensures { result ≡ fold E.taken basis s.now }
{
    digest_from(BASIS, s)
}

// The generator, by its state: the seed at the start, which may not be 0.
#[derive(Clone, Copy, Debug, PartialEq, Eq)]
pub struct Generator {
    pub state: u64,
}

impl Generator {
    // The generator at its start.
    pub fn start(seed: u64) -> Generator
        ensures { result ≡ record { state = seed } }
    {
        Generator { state: seed }
    }

    // One step.
    #[tactic(auto, unfolding(crate::specs::Generator::next, crate::specs::Generator::right12, crate::specs::Generator::left25, crate::specs::Generator::right27))]
    pub fn step(&mut self)
        ensures { self.new ≡ record { state = next_state self.old.state } }
    {
        let x = self.state;
        let a = x ^ (x >> 12);
        let b = a ^ (a << 25);
        self.state = b ^ (b >> 27);
    }

    // What the generator gives out in its state: all 64 bits.
    #[tactic(auto, unfolding(crate::specs::Generator::number))]
    pub fn output(&self) -> u64
        ensures { result ≡ number self.now.state }
    {
        self.state.wrapping_mul(0x2545F4914F6CDD1D)
    }

    // The same as a number below m, from the upper half; 0 where m is 0.
    pub fn below(&self, m: u64) -> u64
        ensures { result ≡ number_below self.now.state m }
    {
        if m == 0 {
            return 0;
        }
        (self.output() >> 32) % m
    }

    // Fills out, each element of one output after a step.
    pub fn fill<E: Element>(&mut self, out: &mut [E])
        ensures { Made (made_by E.made_of) self.old out.old self.new out.new }
    {
        for x in out.iter_mut() {
            self.step();
            *x = E::made_of(self.output());
        }
    }
}
